ghost use Rattle.std.specs.Prelude.{◌≡◌, ◌≤◌, ℕ, List, length, IfOk, IfErr, OnOk};
ghost use Rattle.rnv_base.specs.Causes.{FaultsBy};
ghost use Rattle.rnv_disk.specs.declared.device.FileNo.TheVariants.{Zero};
ghost use Rattle.rnv_disk.specs.Stops.{LeftNow, IsDurable, LeavesOnly};
ghost use Rattle.rnv_journal.specs.File.{end_of, counted};
ghost use Rattle.rnv_journal.specs.Found.{strings};
ghost use Rattle.rnv_journal.specs.FileReading.{FileReadsAs};
ghost use Rattle.rnv_journal.specs.Readings.{KeepsOne, KeepsReadings, IsAtRest};
ghost use Rattle.rnv_journal.specs.Start.{IsFileRefusal, UnlessFault, WhereNoJournal};

use crate::making::{close, make};
use crate::reading::{ReadError, Reading, read_image};
use crate::writing::read_synced;
use rnv_base::{Bytes, List};
use rnv_disk::{Disk, DiskError};
use std::alloc::Global;
use std::convert::AsSlice;

/// Why no journal was started.
#[derive(Clone, Copy, Debug, PartialEq, Eq)]
pub enum StartError {
    /// A fault of the disk, which it has counted. Only a new start is of use.
    DiskFault,
    /// The bytes are no journal; the offset says where they go wrong.
    NotAJournal {
        /// 0 where the head is wrong, else that of the first gate that is missing, or whose entry
        /// is, or that ends, itself or with its entry, past the limit.
        offset: u64,
    },
    /// Want of memory.
    Memory,
}

// Syncs and reads the file, and makes it or closes its last gate where need be: the entries, and the offset of the gate behind them.
pub(crate) fn entries_at_rest<D: Disk>(
    alloc: Global,
    disk: &mut D,
    limit: u64,
) -> Result<(List<Bytes>, u64), StartError>
    requires { 14 ≤ limit }
    ensures any_moment { KeepsReadings limit (D.past disk.old) (D.past disk.new) }
    ensures other { KeepsOne (D.past disk.old) (D.past disk.new) }
    ensures at_rest { IfOk result (λ found. IsAtRest limit (D.past disk.new) (strings found.0)) }
    ensures end { IfOk result (λ found. found.1 ≡ end_of (strings found.0)) }
    ensures within { IfOk result (λ found. counted (strings found.0) ≤ limit) }
    ensures entries { D.tells → IfOk result (λ found. FileReadsAs limit (D.seen disk.old).zero (strings found.0)) }
    ensures refused { D.tells → IfErr result (λ error. IsFileRefusal limit (D.seen disk.old).zero error) }
    ensures only_read { IfErr result (λ error. UnlessFault error (LeavesOnly (D.past disk.old) (D.past disk.new) (LeftNow (D.past disk.old)))) }
    ensures same { D.tells → IfErr result (λ error. WhereNoJournal error (D.seen disk.new ≡ D.seen disk.old)) }
    ensures cause { FaultsBy (D.faults disk.old) (D.faults disk.new) result StartError.DiskFault }
{
    match read_synced(alloc, disk) {
        Ok(bytes) => settled(alloc, disk, bytes.as_slice(), limit),
        Err(DiskError::Failed) => Err(StartError::DiskFault),
        Err(DiskError::Memory) => Err(StartError::Memory),
    }
}

// The same for a file that was synced and of which these bytes were read.
fn settled<D: Disk>(
    alloc: Global,
    disk: &mut D,
    bytes: &[u8],
    limit: u64,
) -> Result<(List<Bytes>, u64), StartError>
    requires limit { 14 ≤ limit }
    requires bytes { D.tells → (D.seen disk.old).zero ≡ bytes.now }
    requires durable { IsDurable Zero (D.past disk.old) bytes.now }
    ensures any_moment { KeepsReadings limit (D.past disk.old) (D.past disk.new) }
    ensures other { KeepsOne (D.past disk.old) (D.past disk.new) }
    ensures at_rest { IfOk result (λ found. IsAtRest limit (D.past disk.new) (strings found.0)) }
    ensures end { IfOk result (λ found. found.1 ≡ end_of (strings found.0)) }
    ensures within { IfOk result (λ found. counted (strings found.0) ≤ limit) }
    ensures entries { IfOk result (λ found. FileReadsAs limit bytes.now (strings found.0)) }
    ensures refused { IfErr result (λ error. IsFileRefusal limit bytes.now error) }
    ensures only_read { IfErr result (λ error. UnlessFault error (disk.new ≡ disk.old)) }
    ensures cause { FaultsBy (D.faults disk.old) (D.faults disk.new) result StartError.DiskFault }
{
    match read_image(alloc, bytes, limit) {
        Ok(Reading::InMaking) => match make(disk, bytes) {
            Ok(()) => Ok((List::empty(alloc), 13)),
            Err(_) => Err(StartError::DiskFault),
        },
        Ok(Reading::Entries { entries, end, gate }) => match close(disk, end, gate) {
            Ok(()) => Ok((entries, end)),
            Err(_) => Err(StartError::DiskFault),
        },
        Err(ReadError::NotAJournal { offset }) => Err(StartError::NotAJournal { offset }),
        Err(ReadError::Memory) => Err(StartError::Memory),
    }
}
