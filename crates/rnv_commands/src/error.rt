use rnv_base::Text;
use rnv_checkout::BaseError;
use std::alloc::AllocError;

/// Why a command over the store ended before all of its work was done.
#[derive(Debug, Drop)]
pub enum CommandError {
    /// Want of memory.
    Memory,
    /// The store, or for an import the folder, has no such repository.
    UnknownRepo,
    /// The folder failed, and has counted the fault.
    FolderFault,
    /// The disk failed, and has counted the fault.
    DiskFault,
    /// The bytes on the disk are no store; at this offset they go wrong.
    NotAJournal { offset: u64 },
    /// A quantity is above its limit: `files`, `base` or `journal`.
    Limit { which: Text, number: u64 },
}

impl From<AllocError> for CommandError {
    ghost use Rattle.std.specs.Prelude.{◌≡◌};
    ghost use Rattle.rnv_commands.specs.declared.error.CommandError.TheVariants.{Memory};

    ghost from_gives = { λ _ e. e ≡ Memory };

    fn from(_error: AllocError) -> CommandError {
        CommandError::Memory
    }
}
