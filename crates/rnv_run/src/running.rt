ghost use Rattle.std.specs.Prelude.{◌≡◌, ◌≢◌, ◌≤◌, ◌+◌, ◌++◌, ℕ, List as Items, [], false, length, map, IfErr, IfOk, OnOk};
ghost use Rattle.rnv_base.specs.Causes.{FaultsBy};
ghost use Rattle.rnv_repo.specs.declared.repo.Repo.{Repo as Record};
ghost use Rattle.rnv_repo.specs.declared.write.Write.{Write as Change};
ghost use Rattle.rnv_repo.specs.Store.{after, known};
ghost use Rattle.rnv_journal.specs.Readings.{IsAtRest, KeepsOne};
ghost use Rattle.rnv_outcome.specs.Given.{Given};
ghost use Rattle.rnv_spelling.specs.Spelling.{spelling};
ghost use Rattle.rnv_forge.specs.Forge.{LeavesWrites};
ghost use Rattle.rnv_forge.specs.Writes.{length_of};
ghost use Rattle.rnv_run.specs.Front.{IsFront, StandsSince};
ghost use Rattle.rnv_run.specs.Planned.{IsPlannedBy};
ghost use Rattle.rnv_run.specs.Run.{IsResumed, IsRunRefusal, IsStoppedRun, LeavesOutcome, LeavesRest};

use crate::preparing::do_all;
use crate::{PlannedRun, Summary};
use rnv_base::Share;
use rnv_forge::Forge;
use rnv_plan::RunError;
use std::alloc::Global;

/// Does the writes of a run that is planned over a repository of the forge, and answers what it did. All
/// are prepared before the first is done, and where there are none the forge stays. A stop at any moment
/// leaves the first of them, however many, and a run after it does exactly the others and leaves the same
/// (`again`, `resumed`). `Limit` of `journal` exactly where not all of the writes have room; `DiskFault`
/// only where the disk's count of faults rose; `Memory`. No refusal but that of the disk has written
/// anything.
pub fn do_run<F: Forge>(alloc: Global, forge: &mut F, plan: PlannedRun) -> Result<Summary, RunError>
    requires holds { F.holds forge.old }
    requires opened { F.closed forge.old ≡ false }
    requires planned { (g : Given) × IsPlannedBy g (F.writes forge.old) plan }
    ensures holds { F.holds forge.new }
    ensures limit { F.limit forge.new ≡ F.limit forge.old }
    // A stop at any moment leaves the writes from before and the first of the run, however many.
    ensures any_moment { LeavesWrites (F.limit forge.old) (F.past forge.old) (F.past forge.new) (IsFront (F.writes forge.old) plan.summary.writes 0) }
    // These never get fewer: what was done is in every reading from then on.
    ensures never_fewer { (k : ℕ) → length (F.writes forge.old) + k ≤ length (F.writes forge.new)
        → StandsSince (F.limit forge.old) (F.past forge.old) (F.past forge.new) (IsFront (F.writes forge.old) plan.summary.writes k) }
    // However it ends, the first of the run's writes stand behind those from before.
    ensures front { IsFront (F.writes forge.old) plan.summary.writes 0 (F.writes forge.new) }
    // File `One` is left alone.
    ensures other { KeepsOne (F.past forge.old) (F.past forge.new) }
    ensures did { IfOk result (λ summary. summary ≡ plan.summary) }
    ensures done { OnOk result (F.writes forge.new ≡ F.writes forge.old ++ plan.summary.writes) }
    ensures at_rest { OnOk result (IsAtRest (F.limit forge.old) (F.past forge.new) (map spelling (F.writes forge.new))) }
    ensures opened { OnOk result (F.closed forge.new ≡ false) }
    ensures room { OnOk result (length_of (F.writes forge.new) ≤ F.limit forge.old) }
    ensures unwritten { IfErr result (λ error. error ≢ RunError.DiskFault → (F.writes forge.new ≡ F.writes forge.old)
        × LeavesWrites (F.limit forge.old) (F.past forge.old) (F.past forge.new) (λ ws. ws ≡ F.writes forge.old)) }
    ensures refused { IfErr result (IsRunRefusal (F.limit forge.old) (F.writes forge.old ++ plan.summary.writes)) }
    ensures cause { FaultsBy (F.faults forge.old) (F.faults forge.new) result RunError.DiskFault }
    // The repository is then the one that such a run is to leave, and each other one is as before.
    ensures outcome { (g : Given) → IsPlannedBy g (F.writes forge.old) plan → OnOk result (LeavesOutcome g plan.repo.name plan.repo (F.writes forge.new)) }
    ensures others { OnOk result ((other : Items ℕ) → other ≢ plan.repo.name → known other (after (F.writes forge.new) []) ≡ known other (after (F.writes forge.old) [])) }
    // Behind the first of its writes, however many, the others are left to the next run.
    ensures again { (g : Given) → IsPlannedBy g (F.writes forge.old) plan → (us vs : Items Change) → plan.summary.writes ≡ us ++ vs → LeavesRest g plan.repo (F.writes forge.old) (F.limit forge.old) us vs }
    // Where an earlier run was stopped, this one does exactly the others of its writes.
    ensures resumed { (g : Given) → IsPlannedBy g (F.writes forge.old) plan → (start : Items Change) (first : Record) (us vs : Items Change) → IsStoppedRun g plan.repo.name start first us vs (F.writes forge.old)
        → OnOk result (IsResumed g plan.repo.name start first us vs (F.writes forge.new)) }
    ensures resumed_any_moment { (g : Given) → IsPlannedBy g (F.writes forge.old) plan → (start : Items Change) (first : Record) (us vs : Items Change) → IsStoppedRun g plan.repo.name start first us vs (F.writes forge.old)
        → LeavesWrites (F.limit forge.old) (F.past forge.old) (F.past forge.new) (IsFront start (us ++ vs) (length us)) }
{
    let PlannedRun { repo: _, summary } = plan;
    match summary.writes.share(alloc) {
        Ok(list) => match do_all(alloc, forge, list) {
            Ok(()) => Ok(summary),
            Err(error) => Err(error),
        },
        Err(_) => Err(RunError::Memory),
    }
}
