ghost use Rattle.std.specs.Prelude.{◌≡◌, ◌≢◌, ◌⊎◌, ◌≤◌, ◌<◌, ◌+◌, [], Some, None, false, length, IfErr, IfOk, IsErrOf};
ghost use Rattle.rnv_base.specs.Causes.{FaultsBy};
ghost use Rattle.rnv_base.specs.Moment.{IsMoment};
ghost use Rattle.rnv_base.specs.Limits.{most_items};
ghost use Rattle.rnv_desired.specs.Givens.{IsGiven};
ghost use Rattle.rnv_repo.specs.Requests.{greatest};
ghost use Rattle.rnv_repo.specs.Store.{after, known};
ghost use Rattle.rnv_repo.specs.WellFormed.{AreInOrder};
ghost use Rattle.rnv_outcome.specs.Given.{Given};
ghost use Rattle.rnv_outcome.specs.Law.{IsFit};
ghost use Rattle.rnv_outcome.specs.Steps.{steps};
ghost use Rattle.rnv_plan.specs.Refusal.{IfTold};
ghost use Rattle.rnv_steps.specs.Told.{IsTold};
ghost use Rattle.rnv_run.specs.Planned.{IsPlanned};
ghost use Rattle.rnv_run.specs.Repository.{IsBaseRefusal, IsOfRepo, IsUnwanted};
ghost use Rattle.rnv_run.specs.Run.{IsUnknown};
ghost use Rattle.rnv_run.specs.Stage.{IsPlain, given_by, plain_terms};

use rnv_base::{Folder, List, Text};
use rnv_desired::desired;
use rnv_forge::Forge;
use rnv_outcome::Item;
use rnv_plan::{RunError, gather_base};
use rnv_repo::{Repo, Write};
use rnv_steps::{Terms, Written, contents, end, work};
use std::alloc::{AllocError, Global};
use std::convert::AsStr;

/// What a run does: its moment, in seconds since 1970, and its writes in order.
#[derive(Debug, Drop)]
pub struct Summary {
    pub moment: u64,
    pub writes: List<Write>,
}

/// A run that is planned, of which nothing is written yet: the repository as the forge has it, and
/// what the run is to do.
#[derive(Debug, Drop)]
pub struct PlannedRun {
    pub repo: Repo,
    pub summary: Summary,
}

// A repository, and what a run of it is given: its terms, and the items that its base wants.
#[derive(Drop)]
struct Wanted {
    repo: Repo,
    terms: Terms,
    items: List<Item>,
}

// The terms of a run without limits and ticks, where a closed request blocks nothing.
fn plain_terms(alloc: Global, moment: u64) -> Terms
    ensures { result ≡ plain_terms moment }
{
    Terms {
        moment,
        hourly: 0,
        concurrent: 0,
        branches: 0,
        heeds_closed: false,
        ticked: List::empty(alloc),
    }
}

// What a run of a repository at this moment is given, whose files stand by path.
fn given_of<O: Folder>(
    alloc: Global,
    folder: &mut O,
    repo: Repo,
    moment: u64,
) -> Result<Wanted, RunError>
    requires order { AreInOrder (λ f. f.path) repo.files }
    requires moment { IsMoment moment }
    ensures repo { IfOk result (λ wanted. wanted.repo ≡ repo) }
    ensures moment { IfOk result (λ wanted. wanted.terms.moment ≡ moment) }
    ensures given { IfOk result (λ wanted. IsGiven O.tells (O.files folder.old) repo.files moment (given_by wanted.terms.moment wanted.items)) }
    ensures told { IfOk result (λ wanted. IsTold (given_by wanted.terms.moment wanted.items) wanted.repo wanted.terms wanted.items) }
    ensures fit { IfOk result (λ wanted. IsFit (given_by wanted.terms.moment wanted.items)) }
    ensures few { IfOk result (λ wanted. length wanted.items ≤ most_items) }
    ensures refused { O.tells → IfErr result (IfTold (IsBaseRefusal (O.files folder.old) moment repo.files)) }
    ensures disk { result ≢ Err RunError.DiskFault }
    ensures unknown { result ≢ Err RunError.UnknownRepo }
    ensures same { O.tells → (O.files folder.new ≡ O.files folder.old) }
    ensures cause { FaultsBy (O.faults folder.old) (O.faults folder.new) result RunError.FolderFault }
{
    match gather_base(alloc, folder, repo.name.as_str(), moment, &repo.files) {
        Ok(inputs) => match desired(alloc, &inputs, &repo.files) {
            Ok(items) => Ok(Wanted {
                repo,
                terms: plain_terms(alloc, inputs.moment),
                items,
            }),
            Err(error) => Err(error),
        },
        Err(error) => Err(error),
    }
}

// The repository of a name in the forge, and what a run of it at this moment is given. The folder is
// looked at only where the repository is known.
fn find_wanted<F: Forge, O: Folder>(
    alloc: Global,
    forge: &F,
    folder: &mut O,
    name: &Text,
    moment: u64,
) -> Result<Wanted, RunError>
    requires holds { F.holds forge.now }
    requires moment { IsMoment moment }
    ensures there { IfOk result (λ wanted. known wanted.repo.name (after (F.writes forge.now) []) ≡ Some wanted.repo) }
    ensures named { IfOk result (λ wanted. wanted.repo.name ≡ name.now) }
    ensures moment { IfOk result (λ wanted. wanted.terms.moment ≡ moment) }
    ensures given { IfOk result (λ wanted. IsGiven O.tells (O.files folder.old) wanted.repo.files moment (given_by wanted.terms.moment wanted.items)) }
    ensures told { IfOk result (λ wanted. IsTold (given_by wanted.terms.moment wanted.items) wanted.repo wanted.terms wanted.items) }
    ensures fit { IfOk result (λ wanted. IsFit (given_by wanted.terms.moment wanted.items)) }
    ensures few { IfOk result (λ wanted. length wanted.items ≤ most_items) }
    ensures known { IfErr result (IsOfRepo name.now (F.writes forge.now)) }
    ensures refused { O.tells → IfErr result (IfTold (IsUnwanted (O.files folder.old) name.now moment (F.writes forge.now))) }
    ensures disk { result ≢ Err RunError.DiskFault }
    ensures same { O.tells → (O.files folder.new ≡ O.files folder.old) }
    ensures cause { FaultsBy (O.faults folder.old) (O.faults folder.new) result RunError.FolderFault }
{
    match known_repo(alloc, forge, name) {
        Ok(repo) => {
            is_in_order(forge, &repo);
            given_of(alloc, folder, repo, moment)
        }
        Err(error) => Err(error),
    }
}

/// The repository of this name. `UnknownRepo` exactly where there is none; `Memory`.
pub fn known_repo<F: Forge>(alloc: Global, forge: &F, name: &Text) -> Result<Repo, RunError>
    requires { F.holds forge.now }
    ensures there { IfOk result (λ repo. known repo.name (after (F.writes forge.now) []) ≡ Some repo) }
    ensures named { IfOk result (λ repo. repo.name ≡ name.now) }
    ensures refused { IfErr result (IsUnknown name.now (F.writes forge.now)) }
{
    match forge.repo(alloc, name) {
        Ok(Some(repo)) => Ok(repo),
        Ok(None) => Err(RunError::UnknownRepo),
        Err(_) => Err(RunError::Memory),
    }
}

// The files of a repository of the forge stand by path.
fn is_in_order<F: Forge>(forge: &F, repo: &Repo)
    requires holds { F.holds forge.now }
    requires there { known repo.now.name (after (F.writes forge.now) []) ≡ Some repo.now }
    ensures { AreInOrder (λ f. f.path) repo.now.files }
{
    let _ = forge;
    let _ = repo;
}

// The writes that lead from a repository to what a run is to leave.
fn plan_writes(
    alloc: Global,
    repo: &Repo,
    terms: &Terms,
    items: &List<Item>,
) -> Result<List<Write>, AllocError>
    ghost given: { Given }
    requires told { IsTold given repo.now terms.now items.now }
    requires fit { IsFit given }
    requires plain { IsPlain given }
    requires numbers { greatest repo.now.requests + length items.now + 1 < 2147483648 }
    ensures { IfOk result (λ list. list ≡ steps given repo.now) }
{
    let branches = contents(alloc, terms, repo, items)?;
    let Written { writes, shown } = work(alloc, terms, repo, items, &branches)?;
    drop(shown);
    let list = end(alloc, repo, writes, None)?;
    Ok(list)
}

/// Plans a run of a repository of the forge at this moment, in seconds since 1970: its writes lead to the
/// branches and requests that the rules give for what the folder, the base and the moment give. Nothing is
/// written. The first of these that holds is the refusal: `UnknownRepo` exactly where the forge has no such
/// repository, and then the folder is not looked at; those of `gather_base`; `Limit` of `items` above
/// 5,000. `FolderFault` only where the folder's count of faults rose; `Memory`.
pub fn plan_run<F: Forge, O: Folder>(
    alloc: Global,
    forge: &F,
    folder: &mut O,
    name: &Text,
    moment: u64,
) -> Result<PlannedRun, RunError>
    requires holds { F.holds forge.now }
    requires moment { IsMoment moment }
    ensures planned { IfOk result (IsPlanned O.tells (O.files folder.old) name.now moment (F.writes forge.now)) }
    ensures known { IfErr result (IsOfRepo name.now (F.writes forge.now)) }
    ensures refused { O.tells → IfErr result (IfTold (IsUnwanted (O.files folder.old) name.now moment (F.writes forge.now))) }
    ensures disk { result ≢ Err RunError.DiskFault }
    ensures same { O.tells → (O.files folder.new ≡ O.files folder.old) }
    ensures cause { FaultsBy (O.faults folder.old) (O.faults folder.new) result RunError.FolderFault }
{
    match find_wanted(alloc, forge, folder, name, moment) {
        Ok(Wanted { repo, terms, items }) => match plan_writes(alloc, &repo, &terms, &items) {
            Ok(writes) => Ok(PlannedRun {
                repo,
                summary: Summary {
                    moment: terms.moment,
                    writes,
                },
            }),
            Err(_) => Err(RunError::Memory),
        },
        Err(error) => Err(error),
    }
}
