ghost use Rattle.std.specs.Prelude.{◌≡◌};
ghost use Rattle.rnv_manager.specs.declared.found.ExtractError.TheVariants.{Memory};

use rnv_base::SourceKind;
use std::alloc::{AllocError, AllocFailed};

/// A dependency as a file has it. Its value lies in the file from byte `start` on.
#[derive(Clone, Copy, Debug)]
pub struct Found<'a> {
    /// What the file calls it.
    pub name: &'a str,
    /// The package that it stands for.
    pub package: &'a str,
    /// The part of the file in which it stands, as `devDependencies`.
    pub place: &'a str,
    /// The range of versions, as it is written.
    pub value: &'a str,
    pub start: usize,
    /// Where the releases of the package are listed.
    pub source: SourceKind,
}

/// Why a file has no finds.
#[derive(Debug, Drop)]
pub enum ExtractError {
    /// The file is outside the manager's grammar.
    BadSyntax,
    Memory,
}

impl From<AllocError> for ExtractError {
    ghost from_gives = { λ _ e. e ≡ Memory };

    fn from(_e: AllocError) -> ExtractError {
        ExtractError::Memory
    }
}

impl<T: Drop> From<AllocFailed<T>> for ExtractError {
    ghost from_gives = { λ _ e. e ≡ Memory };

    fn from(_e: AllocFailed<T>) -> ExtractError {
        ExtractError::Memory
    }
}
