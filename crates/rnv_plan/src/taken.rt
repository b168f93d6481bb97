ghost use Rattle.std.specs.Prelude.{◌≡◌, ◌≢◌, ◌≤◌, ◌<◌, List as Items, codes, map, length, IfOk, IfErr, IsErrOf};
ghost use Rattle.std.specs.Str.{IsUtf8};
ghost use Rattle.rnv_base.specs.Limits.{most_dependencies};
ghost use Rattle.rnv_manager.specs.declared.found.ExtractError.TheVariants.{BadSyntax};
ghost use Rattle.rnv_manager.specs.Finds.{Find, view, views};
ghost use Rattle.rnv_manager.specs.Marks.{Mark, finds_from};
ghost use Rattle.rnv_plan.specs.Managers.{IsReadBy};
ghost use Rattle.rnv_plan.specs.Taken.{AreDeps, AreFinds, AreTaken, deps_in, dep_of};
ghost use Rattle.rnv_plan.specs.Gather.{AreFew};
ghost use Rattle.rnv_plan.specs.Refusal.{IfTold, HaveMany};

use crate::RunError;
use crate::error::limit;
use crate::managers::manager_of;
use rnv_base::{List, MOST_DEPENDENCIES, ManagerKind, Share, Text};
use rnv_cargo::CargoManager;
use rnv_docker::DockerManager;
use rnv_manager::{ExtractError, Found, Manager};
use rnv_package_json::NpmManager;
use rnv_pick::Dep;
use rnv_repo::FileAt;
use std::alloc::{AllocError, Global};
use std::convert::{AsSlice, AsStr};

// A file with the manager that takes it and its dependencies, in the order in which they stand there.
#[derive(Drop)]
pub(crate) struct TakenFile {
    pub(crate) path: Text,
    pub(crate) manager: ManagerKind,
    pub(crate) deps: List<Dep>,
}

// What the manager of this kind finds in a text: `BadSyntax` exactly where it does not read the text. Else
// only memory can fail.
fn extract<'a>(
    alloc: Global,
    manager: ManagerKind,
    text: &'a str,
) -> Result<List<Found<'a>>, ExtractError>
    ensures found { IfOk result (λ found. (ms : Items Mark) × IsReadBy manager text.now ms × (views found ≡ finds_from 0 ms)) }
    ensures bad { IsErrOf result BadSyntax → (ms : Items Mark) → ¬ IsReadBy manager text.now ms }
{
    match manager {
        ManagerKind::Cargo => CargoManager.extract(alloc, text),
        ManagerKind::Npm => NpmManager.extract(alloc, text),
        ManagerKind::Dockerfile => DockerManager.extract(alloc, text),
        // No file is taken by an expression.
        ManagerKind::Regex => Err(ExtractError::BadSyntax),
    }
}

// The finds of a text, none where it is outside the manager's grammar. Only memory can fail.
fn found_in<'a>(
    alloc: Global,
    manager: ManagerKind,
    text: &'a str,
) -> Result<List<Found<'a>>, AllocError>
    ensures { IfOk result (λ found. AreFinds manager text.now (views found)) }
{
    match extract(alloc, manager, text) {
        Ok(found) => Ok(found),
        Err(ExtractError::BadSyntax) => Ok(List::empty(alloc)),
        Err(ExtractError::Memory) => Err(AllocError),
    }
}

// The finds of a file of these bytes, none where they are no text. Only memory can fail.
fn found<'a>(
    alloc: Global,
    manager: ManagerKind,
    bytes: &'a [u8],
) -> Result<List<Found<'a>>, AllocError>
    ensures { IfOk result (λ found. AreFinds manager bytes.now (views found)) }
{
    match std::str::from_utf8(bytes) {
        Ok(text) => found_in(alloc, manager, text),
        Err(_) => Ok(List::empty(alloc)),
    }
}

// A find as a dependency of the file at this path.
fn dep(alloc: Global, path: &str, manager: ManagerKind, found: &Found) -> Result<Dep, AllocError>
    ensures { IfOk result (λ dep. dep ≡ dep_of path.now manager (view found.now)) }
{
    Ok(Dep {
        file: Text::copied(alloc, path)?,
        manager,
        source: found.source,
        place: Text::copied(alloc, found.place)?,
        name: Text::copied(alloc, found.name)?,
        package: Text::copied(alloc, found.package)?,
        value: Text::copied(alloc, found.value)?,
        start: found.start,
        current: None,
    })
}

// The finds as dependencies of the file at this path.
fn deps(
    alloc: Global,
    path: &str,
    manager: ManagerKind,
    found: &[Found],
) -> Result<List<Dep>, AllocError>
    ensures { IfOk result (λ deps. deps ≡ map (dep_of path.now manager) (views found.now)) }
{
    let mut deps = List::empty(alloc);
    for one in found {
        deps.push(dep(alloc, path, manager, one)?)?;
    }
    Ok(deps)
}

// The dependencies of a file that this manager takes, at most as many as there is room for.
fn file_deps(
    alloc: Global,
    manager: ManagerKind,
    file: &FileAt,
    room: usize,
) -> Result<List<Dep>, RunError>
    ensures deps { IfOk result (AreDeps manager file.now) }
    ensures few { IfOk result (λ deps. length deps ≤ room) }
    ensures many { IfErr result (IfTold (λ error. (deps : Items Dep) × AreDeps manager file.now deps × (room < length deps) × (error ≡ RunError.Limit (codes "dependencies") most_dependencies))) }
    ensures fault { result ≢ Err RunError.FolderFault }
    ensures disk { result ≢ Err RunError.DiskFault }
    ensures unknown { result ≢ Err RunError.UnknownRepo }
{
    let found = found(alloc, manager, file.bytes.as_slice())?;
    if found.len() > room {
        return Err(limit(alloc, "dependencies", MOST_DEPENDENCIES as u64));
    }
    Ok(deps(alloc, file.path.as_str(), manager, found.as_slice())?)
}

// The files of a base that managers take, in its order, with their dependencies. `Limit` exactly
// where these are more than 20,000 together.
pub(crate) fn taken(alloc: Global, files: &[FileAt]) -> Result<List<TakenFile>, RunError>
    ensures few { IfOk result (AreFew files.now) }
    ensures many { IfErr result (IfTold (λ error. HaveMany files.now × (error ≡ RunError.Limit (codes "dependencies") most_dependencies))) }
    ensures fault { result ≢ Err RunError.FolderFault }
    ensures disk { result ≢ Err RunError.DiskFault }
    ensures unknown { result ≢ Err RunError.UnknownRepo }
{
    let mut taken = List::empty(alloc);
    let mut room = MOST_DEPENDENCIES;
    for file in files {
        if let Some(manager) = manager_of(file.path.as_str()) {
            let deps = file_deps(alloc, manager, file, room)?;
            room -= deps.len();
            taken.push(TakenFile {
                path: file.path.share(alloc)?,
                manager,
                deps,
            })?;
        }
    }
    Ok(taken)
}
