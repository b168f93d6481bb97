ghost use Rattle.std.specs.Prelude.{◌≡◌};
ghost use Rattle.rnv_manager.specs.declared.edits.EditError.TheVariants.{Memory};

use rnv_base::Text;
use std::alloc::{AllocError, AllocFailed};

/// A new value for the find with that index.
#[derive(Debug, Drop)]
pub struct Edit {
    pub index: usize,
    pub new_value: Text,
}

/// Why a file is not edited.
#[derive(Debug, Drop)]
pub enum EditError {
    /// The edited file would not be read as the same pieces with the new values. The first find that
    /// was to come and differs has its start there and that value, or the edited file ends there and
    /// more finds came; the find that came instead has the value `found`, which is empty if none came.
    NotReadBack {
        start: usize,
        wanted: Text,
        found: Text,
    },
    Memory,
}

impl From<AllocError> for EditError {
    ghost from_gives = { λ _ e. e ≡ Memory };

    fn from(_e: AllocError) -> EditError {
        EditError::Memory
    }
}

impl<T: Drop> From<AllocFailed<T>> for EditError {
    ghost from_gives = { λ _ e. e ≡ Memory };

    fn from(_e: AllocFailed<T>) -> EditError {
        EditError::Memory
    }
}
