ghost use Rattle.std.specs.Prelude.{◌≡◌};
ghost use Rattle.rnv_app.specs.Refusals.{code_of, plan_refusal_of, refusal_of, run_refusal_of};

use rnv_base::Text;
use rnv_commands::CommandError;
use rnv_plan::RunError;
use rnv_run::RunRefusal;

/// Why the program printed nothing but this.
#[derive(Debug, Drop)]
pub enum Refusal {
    /// Want of memory.
    Memory,
    /// The words are not of a form that the program takes.
    Usage,
    /// The store, or for an import or a plan the folder, has no such repository.
    UnknownRepo,
    /// The folder failed, and has counted the fault.
    FolderFault,
    /// The disk failed, and has counted the fault.
    DiskFault,
    /// The bytes on the disk are no store; at this offset they go wrong.
    NotAJournal { offset: u64 },
    /// A quantity is above its limit.
    Limit { which: Text, number: u64 },
    /// The index document at this path is outside its grammar, at this line from 1.
    IndexRefused { file: Text, line: u64 },
    /// What stands at this path is not built yet.
    NotBuilt { path: Text },
}

/// The status of a refusal.
pub fn code(refusal: &Refusal) -> u8
    ensures { result ≡ code_of refusal.now }
{
    match refusal {
        Refusal::Memory => 1,
        Refusal::Usage => 2,
        Refusal::UnknownRepo => 3,
        Refusal::FolderFault => 5,
        Refusal::DiskFault => 7,
        Refusal::NotAJournal { offset: _ } => 8,
        Refusal::Limit {
            which: _,
            number: _,
        } => 11,
        Refusal::IndexRefused { file: _, line: _ } => 13,
        Refusal::NotBuilt { path: _ } => 15,
    }
}

/// The refusal of a command over the store.
pub fn refusal_of(error: CommandError) -> Refusal
    ensures { result ≡ refusal_of error }
{
    match error {
        CommandError::Memory => Refusal::Memory,
        CommandError::UnknownRepo => Refusal::UnknownRepo,
        CommandError::FolderFault => Refusal::FolderFault,
        CommandError::DiskFault => Refusal::DiskFault,
        CommandError::NotAJournal { offset } => Refusal::NotAJournal { offset },
        CommandError::Limit { which, number } => Refusal::Limit { which, number },
    }
}

/// The refusal of a plan, or of a run within it.
pub fn plan_refusal_of(error: RunError) -> Refusal
    ensures { result ≡ plan_refusal_of error }
{
    match error {
        RunError::Memory => Refusal::Memory,
        RunError::FolderFault => Refusal::FolderFault,
        RunError::DiskFault => Refusal::DiskFault,
        RunError::UnknownRepo => Refusal::UnknownRepo,
        RunError::Limit { which, number } => Refusal::Limit { which, number },
        RunError::IndexRefused { file, line } => Refusal::IndexRefused { file, line },
        RunError::NotBuilt { path } => Refusal::NotBuilt { path },
    }
}

/// The refusal of a run over a disk.
pub fn run_refusal_of(refusal: RunRefusal) -> Refusal
    ensures { result ≡ run_refusal_of refusal }
{
    match refusal {
        RunRefusal::NotAJournal { offset } => Refusal::NotAJournal { offset },
        RunRefusal::Ended { error } => plan_refusal_of(error),
    }
}
