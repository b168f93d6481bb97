use rnv_base::{List, Text, UpdateKind};
use rnv_pick::Update;

/// What goes into one branch: its name, the greatest kind and priority of its updates, and these in their
/// order.
#[derive(Debug, Drop)]
pub struct Group {
    pub branch: Text,
    pub kind: UpdateKind,
    pub priority: i64,
    pub updates: List<Update>,
}
