use rnv_base::{List, Text};
use rnv_repo::EditedFile;
use std::alloc::AllocError;

/// The checked-out files of a repository that are kept, by their paths in it, and how many others
/// there are.
#[derive(Debug, Drop)]
pub struct FolderBase {
    pub files: List<EditedFile>,
    pub passed: u64,
}

/// Why no base is read.
#[derive(Debug, Drop)]
pub enum BaseError {
    /// A fault of the folder, which it has counted.
    FolderFault,
    /// A quantity is above its limit: `files` above 20,000, or else the bytes of the `base` above
    /// 67,108,864.
    Limit { which: Text, number: u64 },
    /// No file is kept.
    UnknownRepo,
    /// Want of memory.
    Memory,
}

impl From<AllocError> for BaseError {
    ghost use Rattle.std.specs.Prelude.{◌≡◌};
    ghost use Rattle.rnv_checkout.specs.declared.error.BaseError.TheVariants.{Memory};

    ghost from_gives = { λ _ e. e ≡ Memory };

    fn from(_error: AllocError) -> BaseError {
        BaseError::Memory
    }
}
