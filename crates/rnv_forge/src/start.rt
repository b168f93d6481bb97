ghost use Rattle.std.specs.Prelude.{◌≡◌, ◌≤◌, false, [], ◌++◌, IfErr, IfOk};
ghost use Rattle.rnv_base.specs.Causes.{FaultsBy};
ghost use Rattle.rnv_journal.specs.File.{counted};
ghost use Rattle.rnv_journal.specs.Reading.{ReadsAs};
ghost use Rattle.rnv_journal.specs.Readings.{KeepsOne, KeepsReadings};
ghost use Rattle.rnv_forge.specs.Held.{HoldsWrites, IsStoreOf};
ghost use Rattle.rnv_forge.specs.Start.{IsDamage, IsStoreRefusal, LeavesRefused};
ghost use Rattle.rnv_forge.specs.Writes.{AreWrites};

use crate::store::Store;
use crate::stored::{StoredError, stored};
use rnv_disk::Disk;
use rnv_journal::{Journal, StartError};
use std::alloc::Global;

// A journal, and the store that its entries make.
#[derive(Drop)]
pub(crate) struct Opened {
    pub(crate) journal: Journal,
    pub(crate) store: Store,
}

// Starts the journal of a disk, whose entries are permitted writes, and applies them.
pub(crate) fn started<D: Disk>(
    alloc: Global,
    disk: &mut D,
    limit: u64,
) -> Result<Opened, StartError>
    requires enough { 14 ≤ limit }
    requires small { limit ≤ 4294967295 }
    ensures any_moment { KeepsReadings limit (D.past disk.old) (D.past disk.new) }
    ensures other { KeepsOne (D.past disk.old) (D.past disk.new) }
    ensures left { D.tells → IfErr result (LeavesRefused limit (D.seen disk.old) (D.seen disk.new) (D.past disk.old) (D.past disk.new)) }
    ensures holds { IfOk result (λ started. HoldsWrites started.journal (D.past disk.new)) }
    ensures store { IfOk result (λ started. IsStoreOf started.journal started.store) }
    ensures entries { D.tells → IfOk result (λ started. ReadsAs limit (D.seen disk.old) started.journal.entries) }
    ensures fresh { IfOk result (λ started. (started.journal.prepared ≡ []) × (started.journal.limit ≡ limit) × (started.journal.closed ≡ false)) }
    ensures refused { D.tells → IfErr result (λ error. IsStoreRefusal limit (D.seen disk.old) error) }
    ensures cause { FaultsBy (D.faults disk.old) (D.faults disk.new) result StartError.DiskFault }
{
    match Journal::start(alloc, disk, limit) {
        Ok(journal) => checked_journal(alloc, journal),
        Err(error) => Err(error),
    }
}

// The journal, where its entries are permitted writes, with the store that they make.
fn checked_journal(alloc: Global, journal: Journal) -> Result<Opened, StartError>
    requires small { journal.limit ≤ 4294967295 }
    requires none { journal.prepared ≡ [] }
    ensures same { IfOk result (λ started. started.journal ≡ journal) }
    ensures store { IfOk result (λ started. IsStoreOf journal started.store) }
    ensures within { IfOk result (λ started. counted (journal.entries ++ journal.prepared) ≤ journal.limit) }
    ensures writes { IfOk result (λ started. AreWrites journal.entries) }
    ensures refused { IfErr result (IsDamage journal.entries) }
{
    let _ = journal.length();
    match stored(alloc, journal.entries()) {
        Ok(store) => Ok(Opened { journal, store }),
        Err(StoredError::Memory) => Err(StartError::Memory),
        Err(StoredError::Damaged { index }) => Err(StartError::NotAJournal {
            offset: journal.place(index),
        }),
    }
}
