use rnv_base::{List, Text};
use rnv_repo::EditedFile;

/// Files behind their tasks: each as its last command gave it, or as it was where it had a problem, and
/// all problems in one text, empty where there is none.
#[derive(Debug, Drop)]
pub struct Tasked {
    pub files: List<EditedFile>,
    pub problem: Text,
}
