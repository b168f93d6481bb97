ghost use Rattle.std.specs.Prelude.{◌≡◌, ◌<◌, ◌≤◌, ℕ, List, length, IfOk, IfErr};
ghost use Rattle.rnv_base.specs.Limits.{most_releases};
ghost use Rattle.rnv_release.specs.Reading.{Reading, listed, refused};
ghost use Rattle.rnv_release.specs.Refusal.{IfBadIndex, IfTooManyReleases, ListsMore};
ghost use Rattle.rnv_release.specs.declared.datasource.IndexError.TheVariants as index_error;

use crate::Release;
use rnv_base::{List, MOST_RELEASES, Text};
use std::alloc::{AllocError, Global};

/// Why a document gives no releases.
#[derive(Clone, Copy, Debug, PartialEq, Eq)]
pub enum IndexError {
    /// The document is outside the grammar, at this line from 1.
    BadIndex { line: u64 },
    /// It lists more releases than this number, which is 50,000.
    TooManyReleases { number: u64 },
    /// Want of memory.
    Memory,
}

impl From<AllocError> for IndexError {
    ghost from_gives = { λ _ error. error ≡ index_error.Memory };

    fn from(_error: AllocError) -> IndexError {
        IndexError::Memory
    }
}

/// A kind of index: where the document of a package lies, and what it lists.
pub trait Datasource {
    /// The path of a package's document below the operator's folder.
    ghost path_of: { Self → List ℕ → List ℕ };

    /// What a document lists.
    ghost reading: { Self → List ℕ → Reading };

    /// The path of the document of the package with this name. Only memory can fail.
    fn path(&self, alloc: Global, name: &str) -> Result<Text, AllocError>
        ensures { IfOk result (λ path. path ≡ path_of self.now name.now) };

    /// The releases that a document lists, at most 50,000 of them.
    fn read(&self, alloc: Global, bytes: &[u8]) -> Result<List<Release>, IndexError>
        ensures listed { IfOk result (λ releases. reading self.now bytes.now ≡ listed releases) }
        ensures few { IfOk result (λ releases. length releases ≤ most_releases) }
        ensures bad { IfErr result (IfBadIndex (λ line. reading self.now bytes.now ≡ refused line)) }
        ensures many { IfErr result (IfTooManyReleases (λ number. (number ≡ most_releases) × ListsMore (reading self.now bytes.now))) };
}

// The releases of a document, if they are at most 50,000.
pub(crate) fn limited(releases: List<Release>) -> Result<List<Release>, IndexError>
    ensures value { IfOk result (λ few. (few ≡ releases) × (length releases ≤ most_releases)) }
    ensures bad { IfErr result (IfBadIndex (λ line. ⊥)) }
    ensures many { IfErr result (IfTooManyReleases (λ number. (number ≡ most_releases) × (most_releases < length releases))) }
{
    if releases.len() > MOST_RELEASES {
        return Err(IndexError::TooManyReleases {
            number: MOST_RELEASES as u64,
        });
    }
    Ok(releases)
}
