ghost use Rattle.std.specs.Prelude.{◌≡◌, IfOk};
ghost use Rattle.std.specs.List.{AllZip};
ghost use Rattle.rnv_plan.specs.Listings.{AreRead, IsFileHere, IsPickedHere};

use crate::defaults::Defaults;
use crate::indexes::Indexes;
use crate::taken::TakenFile;
use crate::{PickedDep, PickedFile};
use rnv_base::List;
use rnv_pick::{Dep, updates};
use std::alloc::{AllocError, Global};

// The dependencies in turn, each with what is picked for it at the moment. Only memory can fail.
fn pick_deps(
    alloc: Global,
    deps: List<Dep>,
    indexes: &Indexes,
    moment: u64,
) -> Result<List<PickedDep>, AllocError>
    requires { AreRead indexes.now }
    ensures { IfOk result (AllZip (IsPickedHere moment indexes.now) deps) }
{
    let mut picked = List::empty(alloc);
    for dep in deps.into_inner() {
        let listing = indexes.listing(dep.source, &dep.package);
        let one = updates(alloc, &dep, listing, &Defaults, moment)?;
        picked.push(PickedDep { dep, picked: one })?;
    }
    Ok(picked)
}

// The files in turn, with what is picked for their dependencies at the moment. Only memory can fail.
pub(crate) fn pick_files(
    alloc: Global,
    taken: List<TakenFile>,
    indexes: &Indexes,
    moment: u64,
) -> Result<List<PickedFile>, AllocError>
    requires { AreRead indexes.now }
    ensures { IfOk result (AllZip (IsFileHere moment indexes.now) taken) }
{
    let mut picked = List::empty(alloc);
    for file in taken.into_inner() {
        let deps = pick_deps(alloc, file.deps, indexes, moment)?;
        picked.push(PickedFile {
            path: file.path,
            manager: file.manager,
            deps,
        })?;
    }
    Ok(picked)
}
