ghost use Rattle.std.specs.Prelude.{◌≡◌, ◌≢◌, ◌++◌, [], false, IfOk, IfErr, IsErrOf};
ghost use Rattle.std.specs.List.{AllByRecursion};
ghost use Rattle.rnv_base.specs.Causes.{FaultsBy};
ghost use Rattle.rnv_base.specs.Names.{IsRepositoryName};
ghost use Rattle.rnv_base.specs.Limits.{store_bytes};
ghost use Rattle.rnv_commands.specs.declared.error.CommandError.TheVariants.{DiskFault as disk_fault, FolderFault as folder_fault};
ghost use Rattle.rnv_commands.specs.Import.{IsImportRefusal, IsOldOrImport};
ghost use Rattle.rnv_commands.specs.OnDisk.{LeavesImported, HasImported, IsNotImported, IsNotShown, IsReadingOrImport, IsShownOf, IsStartRefusal, LeavesNoStore};
ghost use Rattle.rnv_repo.specs.Store.{ArePermitted};
ghost use Rattle.rnv_repo.specs.WellFormed.{IsWellFormed};
ghost use Rattle.rnv_journal.specs.Readings.{HasReadingsNow, KeepsOne, KeepsReadings, ReadsOnly};
ghost use Rattle.rnv_forge.specs.Forge.{LeavesWrites};

use crate::{CommandError, import_base, show_repo};
use rnv_base::{Folder, List, Text};
use rnv_disk::Disk;
use rnv_forge::{Forge, JournalForge, StartRefused};
use rnv_journal::StartError;
use std::alloc::Global;

/// What a command over a disk answers, the text that it prints or why there is none, and the disk as
/// it left it.
#[derive(Drop)]
pub struct Answer<D: Disk> {
    pub text: Result<List<u8>, CommandError>,
    pub disk: D,
}

// The writes of a forge are well-formed, and permitted in their turn.
fn stands<F: Forge>(forge: &F)
    requires { F.holds forge.now }
    ensures well_formed { AllByRecursion IsWellFormed (F.writes forge.now ++ F.prepared forge.now) }
    ensures permitted { ArePermitted (F.writes forge.now ++ F.prepared forge.now) [] }
{
    let _ = forge;
}

fn not_started(error: StartError) -> CommandError
    ensures { IsStartRefusal error result }
{
    match error {
        StartError::DiskFault => CommandError::DiskFault,
        StartError::NotAJournal { offset } => CommandError::NotAJournal { offset },
        StartError::Memory => CommandError::Memory,
    }
}

// Imports the folder's files of a repository by a forge that was started.
fn import_started<D: Disk, O: Folder>(
    alloc: Global,
    forge: JournalForge<D>,
    folder: &mut O,
    name: &Text,
) -> Answer<D>
    requires holds { ⟦<JournalForge<D> as Forge>⟧.holds forge }
    requires opened { ⟦<JournalForge<D> as Forge>⟧.closed forge ≡ false }
    requires limit { ⟦<JournalForge<D> as Forge>⟧.limit forge ≡ store_bytes }
    requires name { IsRepositoryName name.now }
    ensures any_moment { LeavesWrites store_bytes (⟦<JournalForge<D> as Forge>⟧.past forge) (D.past result.disk) (IsOldOrImport O.tells (O.files folder.old) name.now (⟦<JournalForge<D> as Forge>⟧.writes forge)) }
    ensures unwritten { IfErr result.text (λ error. error ≢ disk_fault → LeavesWrites store_bytes (⟦<JournalForge<D> as Forge>⟧.past forge) (D.past result.disk) (λ ws. ws ≡ ⟦<JournalForge<D> as Forge>⟧.writes forge)) }
    ensures other { KeepsOne (⟦<JournalForge<D> as Forge>⟧.past forge) (D.past result.disk) }
    ensures imported { IfOk result.text (LeavesImported O.tells (O.files folder.old) name.now store_bytes (⟦<JournalForge<D> as Forge>⟧.writes forge) (D.past result.disk)) }
    ensures refused { IfErr result.text (IsImportRefusal O.tells (O.files folder.old) name.now store_bytes (⟦<JournalForge<D> as Forge>⟧.writes forge)) }
    ensures same { O.tells → (O.files folder.new ≡ O.files folder.old) }
    ensures folder_cause { FaultsBy (O.faults folder.old) (O.faults folder.new) result.text folder_fault }
    ensures disk_cause { FaultsBy (⟦<JournalForge<D> as Forge>⟧.faults forge) (D.faults result.disk) result.text disk_fault }
{
    let mut forge = forge;
    let text = import_base(alloc, &mut forge, folder, name);
    Answer {
        text,
        disk: forge.into_disk(),
    }
}

/// Imports the folder's files of a repository into the store of a disk, whose journal has at most
/// 268435456 bytes, as `import_base` does. Before that: `DiskFault` only where the disk's count of
/// faults rose; `NotAJournal` where its bytes are no store, with the offset: bytes that are no journal
/// are then not written to, and a journal keeps all of its entries. File `One` is left alone.
pub fn import_on<D: Disk, O: Folder>(
    alloc: Global,
    disk: D,
    folder: &mut O,
    name: &Text,
) -> Answer<D>
    requires { IsRepositoryName name.now }
    // From a disk that has readings a stop at any moment leaves one of these, or one of these and the one next write.
    ensures any_moment { HasReadingsNow store_bytes (D.past disk) → ReadsOnly store_bytes (D.past disk) (D.past result.disk) (IsReadingOrImport O.tells (O.files folder.old) name.now store_bytes (D.past disk)) }
    ensures unwritten { IfErr result.text (λ error. error ≢ disk_fault → KeepsReadings store_bytes (D.past disk) (D.past result.disk)) }
    // File `One` is left alone, and what is no store is not written over.
    ensures other { KeepsOne (D.past disk) (D.past result.disk) }
    ensures left { D.tells → IfErr result.text (LeavesNoStore store_bytes (D.seen disk) (D.seen result.disk) (D.past disk) (D.past result.disk)) }
    ensures imported { D.tells → IfOk result.text (HasImported O.tells (O.files folder.old) name.now store_bytes (D.seen disk) (D.past result.disk)) }
    ensures refused { D.tells → IfErr result.text (IsNotImported O.tells (O.files folder.old) name.now store_bytes (D.seen disk)) }
    ensures same { O.tells → (O.files folder.new ≡ O.files folder.old) }
    ensures folder_cause { FaultsBy (O.faults folder.old) (O.faults folder.new) result.text folder_fault }
    ensures disk_cause { FaultsBy (D.faults disk) (D.faults result.disk) result.text disk_fault }
{
    match JournalForge::start(alloc, disk) {
        Ok(forge) => {
            stands(&forge);
            import_started(alloc, forge, folder, name)
        }
        Err(StartRefused { error, disk }) => Answer {
            text: Err(not_started(error)),
            disk,
        },
    }
}

/// The text that shows a repository of the store of a disk, whose journal has at most 268435456
/// bytes. `DiskFault` only where the disk's count of faults rose; `NotAJournal` where its bytes are
/// no store, with the offset, and then they stay; `UnknownRepo` where the store has none of the name;
/// `Memory`. Adds no entry, and leaves file `One` alone.
pub fn show_on<D: Disk>(alloc: Global, disk: D, name: &Text) -> Answer<D>
    ensures any_moment { KeepsReadings store_bytes (D.past disk) (D.past result.disk) }
    // File `One` is left alone, and what is no store is not written over.
    ensures other { KeepsOne (D.past disk) (D.past result.disk) }
    ensures left { D.tells → IfErr result.text (LeavesNoStore store_bytes (D.seen disk) (D.seen result.disk) (D.past disk) (D.past result.disk)) }
    ensures shown { D.tells → IfOk result.text (IsShownOf name.now store_bytes (D.seen disk)) }
    ensures refused { D.tells → IfErr result.text (IsNotShown name.now store_bytes (D.seen disk)) }
    ensures never { ¬ IsErrOf result.text folder_fault }
    ensures cause { FaultsBy (D.faults disk) (D.faults result.disk) result.text disk_fault }
{
    match JournalForge::start(alloc, disk) {
        Ok(forge) => {
            stands(&forge);
            let text = show_repo(alloc, &forge, name);
            Answer {
                text,
                disk: forge.into_disk(),
            }
        }
        Err(StartRefused { error, disk }) => Answer {
            text: Err(not_started(error)),
            disk,
        },
    }
}
