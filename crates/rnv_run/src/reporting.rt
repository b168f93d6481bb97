ghost use Rattle.std.specs.Prelude.{◌≡◌, ◌≢◌, ◌⊎◌, ◌≤◌, ◌++◌, ℕ, List as Items, [], None, false, length, map, IfErr, IfOk, IsErrOf, OnOk};
ghost use Rattle.rnv_base.specs.Causes.{FaultsBy};
ghost use Rattle.rnv_base.specs.Moment.{IsMoment};
ghost use Rattle.rnv_desired.specs.Givens.{IsGiven};
ghost use Rattle.rnv_repo.specs.declared.repo.Repo.{Repo as Record};
ghost use Rattle.rnv_repo.specs.declared.write.Write.{Write as Change};
ghost use Rattle.rnv_repo.specs.Store.{after, known};
ghost use Rattle.rnv_journal.specs.Readings.{IsAtRest, KeepsOne};
ghost use Rattle.rnv_outcome.specs.Given.{Given};
ghost use Rattle.rnv_spelling.specs.Spelling.{spelling};
ghost use Rattle.rnv_forge.specs.Forge.{LeavesWrites};
ghost use Rattle.rnv_forge.specs.Writes.{length_of};
ghost use Rattle.rnv_run.specs.Begun.{BeginsOrStays};
ghost use Rattle.rnv_run.specs.Front.{IsFront};
ghost use Rattle.rnv_run.specs.Repository.{IfCaused, IsOfRepo, IsRepoRefusal, IsRun, IsRunDone};
ghost use Rattle.rnv_run.specs.Run.{IsResumed, IsStoppedRun};

use crate::{do_run, plan_run, run_text};
use rnv_base::{Folder, List, Text};
use rnv_forge::Forge;
use rnv_plan::RunError;
use std::alloc::Global;

// Runs over a repository of the forge as `run_repo` does, and answers the text of its writes. It is made
// before the first of them is done, so that no memory is wanted from then on.
pub(crate) fn report_run<F: Forge, O: Folder>(
    alloc: Global,
    forge: &mut F,
    folder: &mut O,
    name: &Text,
    moment: u64,
) -> Result<List<u8>, RunError>
    requires holds { F.holds forge.old }
    requires opened { F.closed forge.old ≡ false }
    requires moment { IsMoment moment }
    ensures holds { F.holds forge.new }
    ensures limit { F.limit forge.new ≡ F.limit forge.old }
    // Whatever a stop leaves is the writes from before alone, or one run was begun, and it is these and the first of its writes.
    ensures any_moment { BeginsOrStays (F.limit forge.old) (IsRun O.tells (O.files folder.old) name.now moment) (F.past forge.old) (F.past forge.new) (F.writes forge.old) }
    // File `One` is left alone.
    ensures other { KeepsOne (F.past forge.old) (F.past forge.new) }
    ensures done { IfOk result (IsRunDone O.tells (O.files folder.old) name.now moment (F.writes forge.old) (F.writes forge.new)) }
    ensures at_rest { OnOk result (IsAtRest (F.limit forge.old) (F.past forge.new) (map spelling (F.writes forge.new))) }
    ensures room { OnOk result (length_of (F.writes forge.new) ≤ F.limit forge.old) }
    ensures others { OnOk result ((other : Items ℕ) → other ≢ name.now → known other (after (F.writes forge.new) []) ≡ known other (after (F.writes forge.old) [])) }
    ensures unwritten { IfErr result (λ error. error ≢ RunError.DiskFault → (F.writes forge.new ≡ F.writes forge.old)
        × LeavesWrites (F.limit forge.old) (F.past forge.old) (F.past forge.new) (λ ws. ws ≡ F.writes forge.old)) }
    // The answer is `UnknownRepo` exactly where there is no such repository, unless memory runs out.
    ensures unknown { known name.now (after (F.writes forge.old) []) ≡ None → IsErrOf result RunError.UnknownRepo ⊎ IsErrOf result RunError.Memory }
    ensures known { IfErr result (IsOfRepo name.now (F.writes forge.old)) }
    ensures refused { O.tells → IfErr result (IfCaused (IsRepoRefusal (O.files folder.old) name.now moment (F.limit forge.old) (F.writes forge.old))) }
    ensures same { O.tells → (O.files folder.new ≡ O.files folder.old) }
    ensures folder_cause { FaultsBy (O.faults folder.old) (O.faults folder.new) result RunError.FolderFault }
    ensures disk_cause { FaultsBy (F.faults forge.old) (F.faults forge.new) result RunError.DiskFault }
    // Where an earlier run was stopped, this one does exactly the others of its writes.
    ensures resumed { O.tells → (start : Items Change) (first : Record) (g : Given) (us vs : Items Change) → IsGiven O.tells (O.files folder.old) first.files moment g
        → IsStoppedRun g name.now start first us vs (F.writes forge.old)
        → OnOk result (IsResumed g name.now start first us vs (F.writes forge.new)) }
    ensures resumed_any_moment { O.tells → (start : Items Change) (first : Record) (g : Given) (us vs : Items Change) → IsGiven O.tells (O.files folder.old) first.files moment g
        → IsStoppedRun g name.now start first us vs (F.writes forge.old)
        → LeavesWrites (F.limit forge.old) (F.past forge.old) (F.past forge.new) (IsFront start (us ++ vs) (length us)) }
{
    match plan_run(alloc, forge, folder, name, moment) {
        Ok(plan) => match run_text(alloc, plan.summary.moment, &plan.repo, &plan.summary.writes) {
            Ok(text) => match do_run(alloc, forge, plan) {
                Ok(_) => Ok(text),
                Err(error) => Err(error),
            },
            Err(_) => Err(RunError::Memory),
        },
        Err(error) => Err(error),
    }
}
