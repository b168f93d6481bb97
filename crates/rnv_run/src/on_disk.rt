ghost use Rattle.std.specs.Prelude.{◌≡◌, ◌≢◌, ◌++◌, List as Items, [], false, length, IfErr, IfOk};
ghost use Rattle.std.specs.List.{AllByRecursion};
ghost use Rattle.rnv_base.specs.Causes.{FaultsBy};
ghost use Rattle.rnv_base.specs.Moment.{IsMoment};
ghost use Rattle.rnv_base.specs.Limits.{store_bytes};
ghost use Rattle.rnv_repo.specs.Store.{ArePermitted};
ghost use Rattle.rnv_repo.specs.WellFormed.{IsWellFormed};
ghost use Rattle.rnv_repo.specs.declared.repo.Repo.{Repo as Record};
ghost use Rattle.rnv_repo.specs.declared.write.Write.{Write as Change};
ghost use Rattle.rnv_desired.specs.Givens.{IsGiven};
ghost use Rattle.rnv_outcome.specs.Given.{Given};
ghost use Rattle.rnv_journal.specs.Readings.{KeepsOne};
ghost use Rattle.rnv_forge.specs.Forge.{LeavesWrites};
ghost use Rattle.rnv_run.specs.declared.on_disk.RunRefusal.TheVariants.{Ended as ended_by};
ghost use Rattle.rnv_run.specs.Front.{IsFront};
ghost use Rattle.rnv_run.specs.OnDisk.{IsFinished, IsStartRefusal, LeavesNoStore, LeavesRun, Runs, ended};
ghost use Rattle.rnv_run.specs.Begun.{BeginsOrStays};
ghost use Rattle.rnv_run.specs.Repository.{IfCaused, IsOfRepo, IsRepoRefusal, IsRun};
ghost use Rattle.rnv_run.specs.Run.{IsStoppedRun};

use crate::reporting::report_run;
use rnv_base::{Folder, List, Text};
use rnv_disk::Disk;
use rnv_forge::{Forge, JournalForge, StartRefused};
use rnv_journal::StartError;
use rnv_plan::RunError;
use std::alloc::Global;

/// Why a run over a disk printed nothing.
#[derive(Debug, Drop)]
pub enum RunRefusal {
    /// The bytes on the disk are no store; at this offset they go wrong.
    NotAJournal { offset: u64 },
    /// The run ended early.
    Ended { error: RunError },
}

/// What a run over a disk answers, the text that it prints or why there is none, and the disk as it
/// left it.
#[derive(Drop)]
pub struct RunAnswer<D: Disk> {
    pub text: Result<List<u8>, RunRefusal>,
    pub disk: D,
}

fn not_started(error: StartError) -> RunRefusal
    ensures { IsStartRefusal error result }
{
    match error {
        StartError::DiskFault => RunRefusal::Ended {
            error: RunError::DiskFault,
        },
        StartError::NotAJournal { offset } => RunRefusal::NotAJournal { offset },
        StartError::Memory => RunRefusal::Ended {
            error: RunError::Memory,
        },
    }
}

// The writes of a forge are well-formed, and permitted in their turn.
fn stands<F: Forge>(forge: &F)
    requires { F.holds forge.now }
    ensures well_formed { AllByRecursion IsWellFormed (F.writes forge.now ++ F.prepared forge.now) }
    ensures permitted { ArePermitted (F.writes forge.now ++ F.prepared forge.now) [] }
{
    let _ = forge;
}

fn ended(text: Result<List<u8>, RunError>) -> Result<List<u8>, RunRefusal>
    ensures { result ≡ ended text }
{
    match text {
        Ok(text) => Ok(text),
        Err(error) => Err(RunRefusal::Ended { error }),
    }
}

// What a run over a forge answers, and the disk after it.
#[derive(Drop)]
struct Ran<D: Disk> {
    text: Result<List<u8>, RunError>,
    disk: D,
}

// Runs over a repository by a forge that was started.
fn run_started<D: Disk, O: Folder>(
    alloc: Global,
    forge: JournalForge<D>,
    folder: &mut O,
    name: &Text,
    moment: u64,
) -> Ran<D>
    requires holds { ⟦<JournalForge<D> as Forge>⟧.holds forge }
    requires opened { ⟦<JournalForge<D> as Forge>⟧.closed forge ≡ false }
    requires limit { ⟦<JournalForge<D> as Forge>⟧.limit forge ≡ store_bytes }
    requires moment { IsMoment moment }
    ensures any_moment { BeginsOrStays store_bytes (IsRun O.tells (O.files folder.old) name.now moment) (⟦<JournalForge<D> as Forge>⟧.past forge) (D.past result.disk) (⟦<JournalForge<D> as Forge>⟧.writes forge) }
    ensures unwritten { IfErr result.text (λ error. error ≢ RunError.DiskFault → LeavesWrites store_bytes (⟦<JournalForge<D> as Forge>⟧.past forge) (D.past result.disk) (λ ws. ws ≡ ⟦<JournalForge<D> as Forge>⟧.writes forge)) }
    ensures other { KeepsOne (⟦<JournalForge<D> as Forge>⟧.past forge) (D.past result.disk) }
    ensures ran { IfOk result.text (LeavesRun O.tells (O.files folder.old) name.now moment store_bytes (⟦<JournalForge<D> as Forge>⟧.writes forge) (D.past result.disk)) }
    ensures known { IfErr result.text (IsOfRepo name.now (⟦<JournalForge<D> as Forge>⟧.writes forge)) }
    ensures refused { O.tells → IfErr result.text (IfCaused (IsRepoRefusal (O.files folder.old) name.now moment store_bytes (⟦<JournalForge<D> as Forge>⟧.writes forge))) }
    ensures same { O.tells → (O.files folder.new ≡ O.files folder.old) }
    ensures folder_cause { FaultsBy (O.faults folder.old) (O.faults folder.new) result.text RunError.FolderFault }
    ensures disk_cause { FaultsBy (⟦<JournalForge<D> as Forge>⟧.faults forge) (D.faults result.disk) result.text RunError.DiskFault }
    ensures resumed { O.tells → (start : Items Change) (first : Record) (g : Given) (us vs : Items Change) → IsGiven O.tells (O.files folder.old) first.files moment g
        → IsStoppedRun g name.now start first us vs (⟦<JournalForge<D> as Forge>⟧.writes forge)
        → IfOk result.text (IsFinished store_bytes (D.past result.disk) name.now moment start first g (⟦<JournalForge<D> as Forge>⟧.writes forge)) }
    ensures resumed_any_moment { O.tells → (start : Items Change) (first : Record) (g : Given) (us vs : Items Change) → IsGiven O.tells (O.files folder.old) first.files moment g
        → IsStoppedRun g name.now start first us vs (⟦<JournalForge<D> as Forge>⟧.writes forge)
        → LeavesWrites store_bytes (⟦<JournalForge<D> as Forge>⟧.past forge) (D.past result.disk) (IsFront start (us ++ vs) (length us)) }
{
    let mut forge = forge;
    let text = report_run(alloc, &mut forge, folder, name, moment);
    Ran {
        text,
        disk: forge.into_disk(),
    }
}

/// Runs over a repository of the store of a disk, whose journal has at most 268435456 bytes, as
/// `run_repo` does, and answers the text of the run. Before its refusals: `DiskFault` only where the disk's
/// count of faults rose; `NotAJournal` exactly where its bytes are no store, with the offset, and then they
/// stay. File `One` is left alone. From any disk that has readings, also
/// where an import was stopped, it begins one run, behind one of these, or none. However often such a run is stopped,
/// at whatever moment, and given again with the same folder and moment, each stop leaves the writes
/// from before the first run and the first of its writes, never fewer than before, and the run that
/// answers a text leaves all of them (`Runs`).
pub fn run_on<D: Disk, O: Folder>(
    alloc: Global,
    disk: D,
    folder: &mut O,
    name: &Text,
    moment: u64,
) -> RunAnswer<D>
    requires { IsMoment moment }
    // File `One` is left alone, and what is no store is not written over.
    ensures other { KeepsOne (D.past disk) (D.past result.disk) }
    ensures left { D.tells → IfErr result.text (LeavesNoStore store_bytes (D.seen disk) (D.seen result.disk) (D.past disk) (D.past result.disk)) }
    ensures runs { Runs O.tells (O.files folder.old) D.tells (D.seen disk) (D.past disk) (D.past result.disk) name.now moment result.text }
    ensures same { O.tells → (O.files folder.new ≡ O.files folder.old) }
    ensures folder_cause { FaultsBy (O.faults folder.old) (O.faults folder.new) result.text (ended_by RunError.FolderFault) }
    ensures disk_cause { FaultsBy (D.faults disk) (D.faults result.disk) result.text (ended_by RunError.DiskFault) }
{
    match JournalForge::start(alloc, disk) {
        Ok(forge) => {
            stands(&forge);
            let Ran { text, disk } = run_started(alloc, forge, folder, name, moment);
            RunAnswer {
                text: ended(text),
                disk,
            }
        }
        Err(StartRefused { error, disk }) => RunAnswer {
            text: Err(not_started(error)),
            disk,
        },
    }
}
