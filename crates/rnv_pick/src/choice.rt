use crate::UpdateOptions;
use rnv_base::{Text, UpdateKind};

// A release that is chosen: its text, what is written for it, how far that goes, whether it is still
// too young, and the options of this update.
#[derive(Drop)]
pub(crate) struct Choice {
    pub(crate) new_version: Text,
    pub(crate) new_value: Text,
    pub(crate) kind: UpdateKind,
    pub(crate) pending: bool,
    pub(crate) options: UpdateOptions,
}
