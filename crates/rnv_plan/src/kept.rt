ghost use Rattle.std.specs.Prelude.{◌≡◌, ◌++◌, IfOk, OnOk, map};
ghost use Rattle.std.specs.List.{flat_map, list_any};
ghost use Rattle.rnv_plan.specs.Kept.{kept};
ghost use Rattle.rnv_plan.specs.Named.{with_name, is_named, last_named, kept_dep, kept_file, named_in, all_named};

use crate::branch::branch_of;
use crate::named::{KeptDep, KeptFile, NamedUpdate};
use crate::{PickedDep, PickedFile};
use rnv_base::{List, Share, Text};
use rnv_pick::Update;
use std::alloc::{AllocError, Global};
use std::convert::AsSlice;

// An update with the name of its branch.
fn with_name(alloc: Global, update: &Update) -> Result<NamedUpdate, AllocError>
    ensures { IfOk result (λ named. named ≡ with_name update.now) }
{
    Ok(NamedUpdate {
        branch: branch_of(alloc, update)?,
        update: update.share(alloc)?,
    })
}

// The updates with the names of their branches.
fn with_names(alloc: Global, updates: &[Update]) -> Result<Vec<NamedUpdate>, AllocError>
    ensures { IfOk result (λ all. all.items ≡ map with_name updates.now) }
{
    let mut all = Vec::new(alloc);
    for update in updates {
        all.push(with_name(alloc, update)?)?;
    }
    Ok(all)
}

// Whether one of the updates is on the branch.
fn has_on(branch: &Text, updates: &[NamedUpdate]) -> bool
    ensures { result ≡ list_any (is_named branch.now) updates.now }
{
    updates.iter().any(|update| update.branch == *branch)
}

// Those that no later one follows on their branch. A dependency has at most one update for each of a few
// buckets, so each may look at all later ones.
fn last_named(alloc: Global, updates: &[NamedUpdate]) -> Result<List<NamedUpdate>, AllocError>
    ensures { IfOk result (λ all. all ≡ last_named updates.now) }
{
    let mut all = List::empty(alloc);
    let mut rest = updates;
    while let [update, later @ ..] = rest {
        if !has_on(&update.branch, later) {
            all.push(update.share(alloc)?)?;
        }
        rest = later;
    }
    Ok(all)
}

// Of the updates of a dependency, which rise by version, those that no later one follows on their branch.
pub(crate) fn kept(alloc: Global, updates: &[Update]) -> Result<List<NamedUpdate>, AllocError>
    ensures { IfOk result (λ all. all ≡ map with_name (kept updates.now)) }
{
    let named = with_names(alloc, updates)?;
    last_named(alloc, named.as_slice())
}

// The kept updates of the dependencies in turn.
fn kept_deps(alloc: Global, deps: &[PickedDep]) -> Result<List<KeptDep>, AllocError>
    ensures { IfOk result (λ all. all ≡ map kept_dep deps.now) }
{
    let mut all = List::empty(alloc);
    for dep in deps {
        let updates = kept(alloc, dep.picked.updates.as_slice())?;
        all.push(KeptDep { updates })?;
    }
    Ok(all)
}

/// The updates that stay of each file in turn, with the names of their branches: of those of one
/// dependency that go to one branch the last. Only memory can fail.
pub fn kept_files(alloc: Global, picked: &[PickedFile]) -> Result<List<KeptFile>, AllocError>
    ensures { IfOk result (λ all. all ≡ map kept_file picked.now) }
{
    let mut all = List::empty(alloc);
    for file in picked {
        let deps = kept_deps(alloc, file.deps.as_slice())?;
        all.push(KeptFile { deps })?;
    }
    Ok(all)
}

// Puts the updates of a file at the end.
fn add_named(all: &mut Vec<NamedUpdate>, file: KeptFile) -> Result<(), AllocError>
    ensures { OnOk result (all.new.items ≡ all.old.items ++ named_in file) }
{
    for dep in file.deps.into_inner() {
        all.append(&mut dep.updates.into_inner())?;
    }
    Ok(())
}

// The updates of the files in turn.
pub(crate) fn all_named(
    alloc: Global,
    files: List<KeptFile>,
) -> Result<List<NamedUpdate>, AllocError>
    ensures { IfOk result (λ all. all ≡ all_named files) }
{
    let mut all = Vec::new(alloc);
    for file in files.into_inner() {
        add_named(&mut all, file)?;
    }
    Ok(List::new(all))
}
