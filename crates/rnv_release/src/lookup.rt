ghost use Rattle.std.specs.Prelude.{◌≡◌, ◌≢◌, ◌≤◌, length, IfOk, IfSome};
ghost use Rattle.rnv_base.specs.Causes.{FaultsBy, PassesNone};
ghost use Rattle.rnv_base.specs.Limits.{most_releases};
ghost use Rattle.rnv_base.specs.Names.{IsPackageName};
ghost use Rattle.rnv_release.specs.Index.{index_from, index_of, GivesIndex};

use crate::package::is_package;
use crate::{Datasource, IndexError, Release};
use rnv_base::{DOCUMENT_BYTES, Folder, FolderError, List};
use std::alloc::Global;
use std::convert::{AsSlice, AsStr};

/// Why the index of a folder gives no releases.
#[derive(Clone, Copy, Debug, PartialEq, Eq)]
pub enum ReadIndexError {
    /// The folder failed, and has counted the fault.
    FolderFault,
    /// The document has more than 67,108,864 bytes.
    TooLong,
    /// The document is outside the grammar, at this line from 1.
    BadIndex { line: u64 },
    /// It lists more releases than this number, which is 50,000.
    TooManyReleases { number: u64 },
    /// Want of memory.
    Memory,
}

/// The releases that a folder's index lists for a package. None where the name is no package name
/// or there is no document. The folder is asked only for a package name, and a fault of it is answered:
/// where none is, none came.
pub fn read_releases<O: Folder, S: Datasource>(
    alloc: Global,
    folder: &mut O,
    source: &S,
    name: &str,
) -> Result<Option<List<Release>>, ReadIndexError>
    ensures index { O.tells → GivesIndex result (index_of (S.path_of source.now) (S.reading source.now) name.now (O.files folder.old)) }
    ensures unasked { ¬ IsPackageName name.now → (result ≡ Ok None) × (folder.new ≡ folder.old) }
    ensures few { IfOk result (λ found. IfSome found (λ releases. length releases ≤ most_releases)) }
    ensures same { O.tells → (O.files folder.new ≡ O.files folder.old) }
    ensures cause { FaultsBy (O.faults folder.old) (O.faults folder.new) result ReadIndexError.FolderFault }
    ensures passed { PassesNone (O.faults folder.old) (O.faults folder.new) result ReadIndexError.FolderFault }
{
    if !is_package(name) {
        return Ok(None);
    }
    let Ok(path) = source.path(alloc, name) else {
        return Err(ReadIndexError::Memory);
    };
    match folder.read(alloc, path.as_str()) {
        Ok(None) => Ok(None),
        Ok(Some(bytes)) => releases_in(alloc, source, bytes.as_slice()),
        Err(FolderError::Failed) => Err(ReadIndexError::FolderFault),
        Err(FolderError::Memory) => Err(ReadIndexError::Memory),
    }
}

// What the front of a document gives.
fn releases_in<S: Datasource>(
    alloc: Global,
    source: &S,
    bytes: &[u8],
) -> Result<Option<List<Release>>, ReadIndexError>
    ensures index { GivesIndex result (index_from (S.reading source.now) (Some bytes.now)) }
    ensures few { IfOk result (λ found. IfSome found (λ releases. length releases ≤ most_releases)) }
    ensures told { result ≢ Err ReadIndexError.FolderFault }
{
    if bytes.len() as u64 > DOCUMENT_BYTES {
        return Err(ReadIndexError::TooLong);
    }
    match source.read(alloc, bytes) {
        Ok(releases) => Ok(Some(releases)),
        Err(IndexError::BadIndex { line }) => Err(ReadIndexError::BadIndex { line }),
        Err(IndexError::TooManyReleases { number }) => Err(ReadIndexError::TooManyReleases {
            number,
        }),
        Err(IndexError::Memory) => Err(ReadIndexError::Memory),
    }
}
