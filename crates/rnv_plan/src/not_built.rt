ghost use Rattle.std.specs.Prelude.{◌≡◌, ◌≢◌, List as Items, codes, true, false, IfOk, IfErr, OnOk};
ghost use Rattle.rnv_base.specs.Files.{NamedFile};
ghost use Rattle.rnv_plan.specs.Taken.{is_configured};
ghost use Rattle.rnv_plan.specs.Gather.{AreBuilt};
ghost use Rattle.rnv_plan.specs.Refusal.{IfTold, IsRefusal};

use crate::RunError;
use crate::error::not_built;
use crate::taken::{TakenFile, taken};
use rnv_base::List;
use rnv_repo::FileAt;
use std::alloc::{AllocError, Global};
use std::convert::AsStr;

// Whether a base has the file with its configuration.
fn is_configured(files: &[FileAt]) -> bool
    ensures { result ≡ is_configured files.now }
{
    files
        .iter()
        .any(|file| file.path.as_str() == "renovate.json")
}

// `NotBuilt` exactly where the base has a configuration.
fn check_plain(alloc: Global, files: &[FileAt]) -> Result<(), RunError>
    ensures plain { OnOk result (is_configured files.now ≡ false) }
    ensures configured { IfErr result (IfTold (λ error. (is_configured files.now ≡ true) × (error ≡ RunError.NotBuilt (codes "renovate.json")))) }
    ensures fault { result ≢ Err RunError.FolderFault }
    ensures disk { result ≢ Err RunError.DiskFault }
    ensures unknown { result ≢ Err RunError.UnknownRepo }
{
    if is_configured(files) {
        return Err(not_built(alloc, "renovate.json"));
    }
    Ok(())
}

// The files of a base that managers take, in its order, where nothing of it is not built yet.
pub(crate) fn built(alloc: Global, files: &[FileAt]) -> Result<List<TakenFile>, RunError>
    ensures built { IfOk result (AreBuilt files.now) }
    ensures refused { (index : Items NamedFile) → IfErr result (IfTold (IsRefusal index files.now)) }
    ensures fault { result ≢ Err RunError.FolderFault }
    ensures disk { result ≢ Err RunError.DiskFault }
    ensures unknown { result ≢ Err RunError.UnknownRepo }
{
    let taken = taken(alloc, files)?;
    check_plain(alloc, files)?;
    Ok(taken)
}
