ghost use Rattle.std.specs.Prelude.{◌≡◌, ℕ, List as Items, IfOk, IfErr, Option};
ghost use Rattle.std.specs.List.{AllZip};
ghost use Rattle.rnv_base.specs.Causes.{FaultsBy};
ghost use Rattle.rnv_base.specs.Files.{NamedFile, IsRising, listed_of};
ghost use Rattle.rnv_checkout.specs.Base.{folder_of, IsBase, IsOutcome, IsPlaced, IsWithin};
ghost use Rattle.rnv_repo.specs.WellFormed.{AreInOrder};
ghost use Rattle.rnv_checkout.specs.Gathered.{IsGathered};
ghost use Rattle.rnv_checkout.specs.Refusal.{IsPlain, IsRefusal};
ghost use Rattle.rnv_checkout.specs.declared.error.BaseError.TheVariants.{FolderFault as fault};

use crate::base_of::judged;
use crate::gathered::Gathered;
use crate::kept::{are_kept_bytes, is_kept_path};
use crate::{BaseError, FolderBase};
use rnv_base::{Folder, FolderError, List, Text};
use rnv_repo::EditedFile;
use std::alloc::{AllocError, Global};
use std::convert::{AsSlice, AsStr};

// The front of the paths of the repository's files.
fn folder_path(alloc: Global, repo: &str) -> Result<Text, AllocError>
    ensures { IfOk result (λ path. path ≡ folder_of repo.now) }
{
    Ok(Text::new(format!(in alloc; "repos/{repo}/")?))
}

// The paths of the repository's files.
fn listed<O: Folder>(alloc: Global, folder: &mut O, front: &str) -> Result<List<Text>, BaseError>
    ensures paths { O.tells → IfOk result (λ paths. paths ≡ listed_of front.now (O.files folder.old)) }
    ensures rising { IfOk result IsRising }
    ensures plain { IfErr result IsPlain }
    ensures same { O.tells → (O.files folder.new ≡ O.files folder.old) }
    ensures cause { FaultsBy (O.faults folder.old) (O.faults folder.new) result fault }
{
    match folder.list(alloc, front) {
        Ok(paths) => Ok(paths),
        Err(FolderError::Failed) => Err(BaseError::FolderFault),
        Err(FolderError::Memory) => Err(BaseError::Memory),
    }
}

// The file at a path of the folder, by its path in the repository, if it is kept.
fn kept_file<O: Folder>(
    alloc: Global,
    folder: &mut O,
    front: &str,
    path: &str,
) -> Result<Option<EditedFile>, BaseError>
    ensures outcome { O.tells → IfOk result (IsOutcome (O.files folder.old) front.now path.now) }
    ensures placed { IfOk result (IsPlaced front.now path.now) }
    ensures plain { IfErr result IsPlain }
    ensures same { O.tells → (O.files folder.new ≡ O.files folder.old) }
    ensures cause { FaultsBy (O.faults folder.old) (O.faults folder.new) result fault }
{
    let Some(inner) = path.strip_prefix(front) else {
        return Ok(None);
    };
    if !is_kept_path(inner) {
        return Ok(None);
    }
    match folder.read(alloc, path) {
        Ok(Some(bytes)) if are_kept_bytes(bytes.as_slice()) => {
            let path = Text::copied(alloc, inner)?;
            Ok(Some(EditedFile { path, bytes }))
        }
        Ok(_) => Ok(None),
        Err(FolderError::Failed) => Err(BaseError::FolderFault),
        Err(FolderError::Memory) => Err(BaseError::Memory),
    }
}

// What is gathered of the files with these paths.
fn gathered<O: Folder>(
    alloc: Global,
    folder: &mut O,
    front: &str,
    paths: &[Text],
) -> Result<Gathered, BaseError>
    ensures each { O.tells → IfOk result (λ found. (outcomes : Items (Option NamedFile)) × IsGathered found outcomes × AllZip (IsOutcome (O.files folder.old) front.now) paths.now outcomes) }
    ensures placed { IfOk result (λ found. (outcomes : Items (Option NamedFile)) × IsGathered found outcomes × AllZip (IsPlaced front.now) paths.now outcomes) }
    ensures plain { IfErr result IsPlain }
    ensures same { O.tells → (O.files folder.new ≡ O.files folder.old) }
    ensures cause { FaultsBy (O.faults folder.old) (O.faults folder.new) result fault }
{
    let mut gathered = Gathered::none(alloc);
    for path in paths {
        let outcome = kept_file(alloc, folder, front, path.as_str())?;
        gathered.take(outcome)?;
    }
    Ok(gathered)
}

// What is gathered of the repository's files.
fn collected<O: Folder>(alloc: Global, folder: &mut O, repo: &str) -> Result<Gathered, BaseError>
    ensures each { O.tells → IfOk result (λ found. (outcomes : Items (Option NamedFile)) × IsGathered found outcomes × AllZip (IsOutcome (O.files folder.old) (folder_of repo.now)) (listed_of (folder_of repo.now) (O.files folder.old)) outcomes) }
    ensures placed { IfOk result (λ found. (paths : Items (Items ℕ)) × (outcomes : Items (Option NamedFile)) × IsRising paths × IsGathered found outcomes × AllZip (IsPlaced (folder_of repo.now)) paths outcomes) }
    ensures plain { IfErr result IsPlain }
    ensures same { O.tells → (O.files folder.new ≡ O.files folder.old) }
    ensures cause { FaultsBy (O.faults folder.old) (O.faults folder.new) result fault }
{
    let front = folder_path(alloc, repo)?;
    let paths = listed(alloc, folder, front.as_str())?;
    gathered(alloc, folder, front.as_str(), paths.as_slice())
}

/// The checked-out files of a repository, by path, below `repos/OWNER/NAME/` of the folder. A file is
/// passed over if its path is no path or has a part `.git`, or if it has more than 1,048,576 bytes or
/// bytes that are not UTF-8. `FolderFault` only where the folder's count of faults rose; `Limit`
/// exactly where more than 20,000 files are kept, or else more than 67,108,864 bytes; `UnknownRepo`
/// exactly where none is kept; `Memory`.
pub fn read_base<O: Folder>(
    alloc: Global,
    folder: &mut O,
    repo: &str,
) -> Result<FolderBase, BaseError>
    ensures base { O.tells → IfOk result (λ base. IsBase (O.files folder.old) (folder_of repo.now) base.files base.passed) }
    // Also of a folder that tells nothing.
    ensures within { IfOk result (λ base. IsWithin base.files) }
    ensures order { IfOk result (λ base. AreInOrder (λ f. f.path) base.files) }
    ensures refused { O.tells → IfErr result (IsRefusal (O.files folder.old) (folder_of repo.now)) }
    ensures same { O.tells → (O.files folder.new ≡ O.files folder.old) }
    ensures cause { FaultsBy (O.faults folder.old) (O.faults folder.new) result fault }
{
    match collected(alloc, folder, repo) {
        Ok(gathered) => judged(alloc, gathered),
        Err(error) => Err(error),
    }
}
