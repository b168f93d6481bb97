ghost use Rattle.std.specs.Prelude.{◌≡◌, ◌≢◌, List as Items, IfOk, IfErr, OnOk, map};
ghost use Rattle.rnv_base.specs.Causes.{FaultsBy};
ghost use Rattle.rnv_plan.specs.declared.error.RunError.{RunError as Error};
ghost use Rattle.rnv_plan.specs.declared.inputs.PickedFile.{PickedFile as OfFile};
ghost use Rattle.rnv_plan.specs.Kept.{kept_updates};
ghost use Rattle.rnv_plan.specs.Named.{kept_file};
ghost use Rattle.rnv_plan.specs.Items.{AreGroups};
ghost use Rattle.rnv_plan.specs.Refusal.{IfTold};
ghost use Rattle.rnv_plan.specs.Laws.{RefusalsAreOne};
ghost use Rattle.rnv_plan.specs.Plan.{AreFewGroups, HaveManyGroups, IsPlanned, IsPlanRefusal};

use crate::error::limit;
use crate::kept::all_named;
use crate::{Group, KeptFile, PickedFile, RunError, gather_folder, items, kept_files};
use rnv_base::{Folder, List, MOST_ITEMS};
use std::alloc::{AllocError, Global};
use std::convert::AsSlice;

// The items of the updates that stay. Only memory can fail.
fn kept_items(alloc: Global, kept: List<KeptFile>) -> Result<List<Group>, AllocError>
    ensures { (picked : Items OfFile) → kept ≡ map kept_file picked → IfOk result (AreGroups (kept_updates picked)) }
{
    let named = all_named(alloc, kept)?;
    items(alloc, named)
}

/// The items of what is picked, of which these are the updates that stay, as `items` gives them. `Limit`
/// of the items exactly where they are more than 5,000. Else only memory can fail.
pub fn few_items(alloc: Global, kept: List<KeptFile>) -> Result<List<Group>, RunError>
    ensures few { (picked : Items OfFile) → kept ≡ map kept_file picked → IfOk result (AreFewGroups (kept_updates picked)) }
    ensures many { (picked : Items OfFile) → kept ≡ map kept_file picked → IfErr result (IfTold (HaveManyGroups (kept_updates picked))) }
    ensures fault { result ≢ Err RunError.FolderFault }
    ensures disk { result ≢ Err RunError.DiskFault }
    ensures unknown { result ≢ Err RunError.UnknownRepo }
{
    let Ok(items) = kept_items(alloc, kept) else {
        return Err(RunError::Memory);
    };
    if items.len() > MOST_ITEMS {
        return Err(limit(alloc, "items", MOST_ITEMS as u64));
    }
    Ok(items)
}

// The items of what is picked, of which there are not too many.
fn picked_items(alloc: Global, picked: &List<PickedFile>) -> Result<List<Group>, RunError>
    ensures few { IfOk result (AreFewGroups (kept_updates picked.now)) }
    ensures many { IfErr result (IfTold (HaveManyGroups (kept_updates picked.now))) }
    ensures fault { result ≢ Err RunError.FolderFault }
    ensures disk { result ≢ Err RunError.DiskFault }
    ensures unknown { result ≢ Err RunError.UnknownRepo }
{
    match kept_files(alloc, picked.as_slice()) {
        Ok(kept) => few_items(alloc, kept),
        Err(_) => Err(RunError::Memory),
    }
}

/// The items of a repository of the operator's folder at a moment, in item order: those of the updates
/// that stay of what `gather_folder` gives. After its refusals comes `Limit` of the items, exactly where they are more
/// than 5,000. `FolderFault` only where the folder's count of faults rose.
pub fn plan_folder<O: Folder>(
    alloc: Global,
    folder: &mut O,
    repo: &str,
    moment: u64,
) -> Result<List<Group>, RunError>
    ensures planned { O.tells → IfOk result (IsPlanned repo.now moment (O.files folder.old)) }
    ensures refused { O.tells → IfErr result (IfTold (IsPlanRefusal repo.now moment (O.files folder.old))) }
    ensures exactly { O.tells → OnOk result ((error : Error) → ¬ IsPlanRefusal repo.now moment (O.files folder.old) error) }
    ensures same { O.tells → (O.files folder.new ≡ O.files folder.old) }
    ensures cause { FaultsBy (O.faults folder.old) (O.faults folder.new) result RunError.FolderFault }
    ensures disk { result ≢ Err RunError.DiskFault }
{
    match gather_folder(alloc, folder, repo, moment) {
        Ok(planned) => picked_items(alloc, &planned.inputs.picked),
        Err(error) => Err(error),
    }
}

/// Does nothing: its promise is the law that a repository of a folder has one refusal at most at a
/// moment, and none where it has a plan.
pub fn one_refusal()
    ensures { RefusalsAreOne }
{}
