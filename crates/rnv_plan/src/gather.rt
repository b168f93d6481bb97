ghost use Rattle.std.specs.Prelude.{◌≡◌, ◌≢◌, ℕ, List as Items, Option, map, IfOk, IfErr, OnOk};
ghost use Rattle.std.specs.List.{All};
ghost use Rattle.rnv_base.specs.Causes.{FaultsBy};
ghost use Rattle.rnv_base.specs.declared.kinds.SourceKind.{SourceKind};
ghost use Rattle.rnv_repo.specs.Named.{IsRisingBy};
ghost use Rattle.rnv_repo.specs.WellFormed.{AreInOrder};
ghost use Rattle.rnv_release.specs.declared.release.Release.{Release as OfRelease};
ghost use Rattle.rnv_plan.specs.declared.error.RunError.{RunError as Error};
ghost use Rattle.rnv_plan.specs.declared.taken.TakenFile.{TakenFile as OfTaken};
ghost use Rattle.rnv_plan.specs.Taken.{readable_in};
ghost use Rattle.rnv_plan.specs.Gather.{releases_for, IsSound, ArePicked, AreBuilt, AreFit, IsGathered, IsPickedFrom};
ghost use Rattle.rnv_plan.specs.Refusal.{IfTold, HasUnsound, IsRefusal};
ghost use Rattle.rnv_plan.specs.Plan.{unchanged, IsFolderBase, IsFolderRefusal, IsGatheredOf};

use crate::indexes::read_indexes;
use crate::not_built::built;
use crate::picking::pick_files;
use crate::taken::TakenFile;
use crate::{Inputs, PickedFile, Planned, RunError};
use rnv_base::{Folder, List, Text};
use rnv_checkout::{BaseError, FolderBase, read_base};
use rnv_repo::{EditedFile, FileAt};
use std::alloc::{AllocError, Global};
use std::convert::AsSlice;

// The files in turn, with what is picked for their dependencies at the moment from the folder's index.
fn gather_taken<O: Folder>(
    alloc: Global,
    folder: &mut O,
    taken: List<TakenFile>,
    moment: u64,
) -> Result<List<PickedFile>, RunError>
    ensures gathered { O.tells → IfOk result (λ picked. All (λ d. IsSound (O.files folder.old) d.source d.«package») (readable_in taken) × ArePicked moment (releases_for (O.files folder.old)) taken picked) }
    ensures picked { IfOk result (λ picked. (releases : SourceKind → Items ℕ → Option (Items OfRelease)) × ArePicked moment releases taken picked) }
    ensures refused { O.tells → IfErr result (IfTold (HasUnsound (O.files folder.old) (readable_in taken))) }
    ensures same { O.tells → (O.files folder.new ≡ O.files folder.old) }
    ensures cause { FaultsBy (O.faults folder.old) (O.faults folder.new) result RunError.FolderFault }
    ensures disk { result ≢ Err RunError.DiskFault }
    ensures unknown { result ≢ Err RunError.UnknownRepo }
{
    let indexes = read_indexes(alloc, folder, taken.as_slice())?;
    Ok(pick_files(alloc, taken, &indexes, moment)?)
}

// What is gathered of the files of a base at the moment.
fn gather_files<O: Folder>(
    alloc: Global,
    folder: &mut O,
    files: &[FileAt],
    moment: u64,
) -> Result<List<PickedFile>, RunError>
    ensures gathered { O.tells → IfOk result (IsGathered (O.files folder.old) moment files.now) }
    ensures picked { IfOk result (IsPickedFrom moment files.now) }
    ensures refused { O.tells → IfErr result (IfTold (IsRefusal (O.files folder.old) files.now)) }
    ensures same { O.tells → (O.files folder.new ≡ O.files folder.old) }
    ensures cause { FaultsBy (O.faults folder.old) (O.faults folder.new) result RunError.FolderFault }
    // The folder is read only where nothing of the base is refused.
    ensures reads { result ≡ Err RunError.FolderFault → (taken : Items OfTaken) × AreBuilt files.now taken }
    ensures disk { result ≢ Err RunError.DiskFault }
    ensures unknown { result ≢ Err RunError.UnknownRepo }
{
    match built(alloc, files) {
        Ok(taken) => gather_taken(alloc, folder, taken, moment),
        Err(error) => Err(error),
    }
}

// These inputs. Only memory can fail.
fn inputs(
    alloc: Global,
    repo: &str,
    moment: u64,
    picked: List<PickedFile>,
) -> Result<Inputs, AllocError>
    ensures { IfOk result (λ inputs. inputs ≡ record { repo = repo.now; moment = moment; picked = picked }) }
{
    Ok(Inputs {
        repo: Text::copied(alloc, repo)?,
        moment,
        picked,
    })
}

/// The inputs of a run of a repository with these files, which stand by path, for the configuration
/// `{}`: per file that a manager takes (`package.json`, `Cargo.toml`, `Dockerfile`, `Containerfile` and
/// `Dockerfile.*` in any folder) its dependencies in turn, each with its current version, why it is
/// skipped, and its updates from the folder's index; other files are passed over. A document is read for
/// the dependencies whose value is a range alone. The first of these that holds is the refusal: `Limit` of
/// the dependencies above 20,000 together; `NotBuilt` of `renovate.json`; then per source (crates, npm,
/// Docker) and per package by its name `FolderFault` only where the folder's count of faults
/// rose, `Limit` of its document above 67,108,864 bytes, `IndexRefused` where this is outside its grammar,
/// `Limit` of its releases above 50,000. `Memory` may come at any point.
pub fn gather_base<O: Folder>(
    alloc: Global,
    folder: &mut O,
    repo: &str,
    moment: u64,
    files: &List<FileAt>,
) -> Result<Inputs, RunError>
    requires { IsRisingBy (λ f. f.path) files.now }
    ensures repo { IfOk result (λ inputs. inputs.repo ≡ repo.now) }
    ensures moment { IfOk result (λ inputs. inputs.moment ≡ moment) }
    ensures gathered { O.tells → IfOk result (λ inputs. IsGathered (O.files folder.old) moment files.now inputs.picked) }
    // Also where the folder tells nothing.
    ensures picked { IfOk result (λ inputs. IsPickedFrom moment files.now inputs.picked) }
    ensures fit { IfOk result (λ inputs. AreFit files.now inputs.picked) }
    ensures refused { O.tells → IfErr result (IfTold (IsRefusal (O.files folder.old) files.now)) }
    ensures exactly { O.tells → OnOk result ((error : Error) → ¬ IsRefusal (O.files folder.old) files.now error) }
    ensures same { O.tells → (O.files folder.new ≡ O.files folder.old) }
    ensures cause { FaultsBy (O.faults folder.old) (O.faults folder.new) result RunError.FolderFault }
    // The folder is read only where nothing of the base is refused.
    ensures reads { result ≡ Err RunError.FolderFault → (taken : Items OfTaken) × AreBuilt files.now taken }
    ensures disk { result ≢ Err RunError.DiskFault }
    ensures unknown { result ≢ Err RunError.UnknownRepo }
{
    let picked = gather_files(alloc, folder, files.as_slice(), moment)?;
    Ok(inputs(alloc, repo, moment, picked)?)
}

// The files as never changed. Only memory can fail.
fn unchanged(alloc: Global, files: List<EditedFile>) -> Result<List<FileAt>, AllocError>
    ensures { IfOk result (λ base. base ≡ map unchanged files) }
{
    let mut base = List::empty(alloc);
    for file in files.into_inner() {
        base.push(FileAt {
            path: file.path,
            bytes: file.bytes,
            changed: 0,
        })?;
    }
    Ok(base)
}

// The files of the repository's folder as a base.
fn folder_base<O: Folder>(
    alloc: Global,
    folder: &mut O,
    repo: &str,
) -> Result<List<FileAt>, RunError>
    ensures base { O.tells → IfOk result (IsFolderBase repo.now (O.files folder.old)) }
    ensures order { IfOk result (AreInOrder (λ f. f.path)) }
    ensures refused { O.tells → IfErr result (IfTold (IsFolderRefusal repo.now (O.files folder.old))) }
    ensures same { O.tells → (O.files folder.new ≡ O.files folder.old) }
    ensures cause { FaultsBy (O.faults folder.old) (O.faults folder.new) result RunError.FolderFault }
    ensures disk { result ≢ Err RunError.DiskFault }
{
    match read_base(alloc, folder, repo) {
        Ok(FolderBase { files, passed: _ }) => Ok(unchanged(alloc, files)?),
        Err(BaseError::FolderFault) => Err(RunError::FolderFault),
        Err(BaseError::Limit { which, number }) => Err(RunError::Limit { which, number }),
        Err(BaseError::UnknownRepo) => Err(RunError::UnknownRepo),
        Err(BaseError::Memory) => Err(RunError::Memory),
    }
}

/// What `gather_base` gives for the files of a repository's folder, with these files, each unchanged
/// since revision 0. Before its refusals come those of the base: `FolderFault` only where the folder's
/// count of faults rose, `Limit` of the files above 20,000, `Limit` of the base above 67,108,864 bytes,
/// `UnknownRepo` exactly where no file is there.
pub fn gather_folder<O: Folder>(
    alloc: Global,
    folder: &mut O,
    repo: &str,
    moment: u64,
) -> Result<Planned, RunError>
    ensures repo { IfOk result (λ planned. planned.inputs.repo ≡ repo.now) }
    ensures moment { IfOk result (λ planned. planned.inputs.moment ≡ moment) }
    ensures gathered { O.tells → IfOk result (IsGatheredOf repo.now moment (O.files folder.old)) }
    // Also where the folder tells nothing.
    ensures picked { IfOk result (λ planned. IsPickedFrom moment planned.files planned.inputs.picked) }
    ensures fit { IfOk result (λ planned. AreFit planned.files planned.inputs.picked) }
    ensures order { IfOk result (λ planned. AreInOrder (λ f. f.path) planned.files) }
    ensures refused { O.tells → IfErr result (IfTold (IsFolderRefusal repo.now (O.files folder.old))) }
    ensures exactly { O.tells → OnOk result ((error : Error) → ¬ IsFolderRefusal repo.now (O.files folder.old) error) }
    ensures same { O.tells → (O.files folder.new ≡ O.files folder.old) }
    ensures cause { FaultsBy (O.faults folder.old) (O.faults folder.new) result RunError.FolderFault }
    ensures disk { result ≢ Err RunError.DiskFault }
{
    let files = folder_base(alloc, folder, repo)?;
    let inputs = gather_base(alloc, folder, repo, moment, &files)?;
    Ok(Planned { inputs, files })
}
