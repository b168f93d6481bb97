ghost use Rattle.std.specs.Prelude.{◌≡◌, ◌≢◌};
ghost use Rattle.rnv_plan.specs.declared.error.RunError.TheVariants.{Memory};
ghost use Rattle.rnv_plan.specs.Refusal.{IfTold};

use rnv_base::Text;
use std::alloc::{AllocError, AllocFailed, Global};

/// Why a run or a plan ended early.
#[derive(Debug, Drop)]
pub enum RunError {
    /// Want of memory.
    Memory,
    /// The folder failed, and has counted the fault.
    FolderFault,
    /// The disk failed in a write, and has counted the fault.
    DiskFault,
    /// There is no such repository.
    UnknownRepo,
    /// What stands at this path is not built yet.
    NotBuilt { path: Text },
    /// There is more than this number of something: `files` above 20,000, bytes of the `base` above
    /// 67,108,864, `dependencies` above 20,000, bytes of a `document` above 67,108,864, `releases` of
    /// a document above 50,000, `items` above 5,000, or bytes of the `journal` above its limit.
    Limit { which: Text, number: u64 },
    /// The index document at this path is outside its grammar, at this line from 1.
    IndexRefused { file: Text, line: u64 },
}

impl From<AllocError> for RunError {
    ghost from_gives = { λ _ e. e ≡ Memory };

    fn from(_e: AllocError) -> RunError {
        RunError::Memory
    }
}

impl<T: Drop> From<AllocFailed<T>> for RunError {
    ghost from_gives = { λ _ e. e ≡ Memory };

    fn from(_e: AllocFailed<T>) -> RunError {
        RunError::Memory
    }
}

// The refusal of more than this number of something.
pub(crate) fn limit(alloc: Global, which: &str, number: u64) -> RunError
    ensures told { IfTold (λ error. error ≡ RunError.Limit which.now number) result }
    ensures fault { result ≢ RunError.FolderFault }
    ensures disk { result ≢ RunError.DiskFault }
    ensures unknown { result ≢ RunError.UnknownRepo }
{
    match Text::copied(alloc, which) {
        Ok(which) => RunError::Limit { which, number },
        Err(_) => RunError::Memory,
    }
}

// The refusal of what stands at this path.
pub(crate) fn not_built(alloc: Global, path: &str) -> RunError
    ensures told { IfTold (λ error. error ≡ RunError.NotBuilt path.now) result }
    ensures fault { result ≢ RunError.FolderFault }
    ensures disk { result ≢ RunError.DiskFault }
    ensures unknown { result ≢ RunError.UnknownRepo }
{
    match Text::copied(alloc, path) {
        Ok(path) => RunError::NotBuilt { path },
        Err(_) => RunError::Memory,
    }
}
