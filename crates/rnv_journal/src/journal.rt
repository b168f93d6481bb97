ghost use Rattle.std.specs.Prelude.{◌≡◌, ◌≢◌, ◌⊎◌, ◌↔◌, ◌+◌, ◌<◌, ◌≤◌, ◌^◌, ◌-◌, ℕ, min, true, false, List as Items, [], ◌++◌, length, take, drop, IfOk, IfErr, IsErrOf, OnOk, OnErr};
ghost use Rattle.rnv_base.specs.Causes.{FaultsBy};
ghost use Rattle.rnv_disk.specs.Stops.{LeftNow, LeavesOnly};
ghost use Rattle.rnv_journal.specs.File.{end_of, counted};
ghost use Rattle.rnv_journal.specs.Found.{strings};
ghost use Rattle.rnv_journal.specs.Front.{IsFront, StandsSince, IsStopped};
ghost use Rattle.rnv_journal.specs.Held.{IsTooLong, appended};
ghost use Rattle.rnv_journal.specs.Reading.{ReadsAs};
ghost use Rattle.rnv_journal.specs.Readings.{KeepsOne, KeepsReadings, ReadsOnly, IsAtRest, IsOldOrAppended};
ghost use Rattle.rnv_journal.specs.declared.journal.PrepareError.TheVariants.{Full};
ghost use Rattle.rnv_journal.specs.Start.{IsRefusal, UnlessFault, WhereNoJournal};

use crate::append::append_line;
use crate::line::{Line, length_after, lines};
use crate::start::{StartError, entries_at_rest};
use rnv_base::{Bytes, List};
use rnv_disk::Disk;
use std::alloc::{AllocError, Global};
use std::collections::VecDeque;
use std::convert::AsSlice;
use std::marker::Model;

/// Why nothing was prepared.
#[derive(Clone, Copy, Debug, PartialEq, Eq)]
pub enum PrepareError {
    /// A fault of the disk has closed the journal.
    Closed,
    /// The file would be longer than the limit.
    Full {
        /// The file's length, up to and with its last gate, after all of the byte strings, or
        /// 18446744073709551615 where it is greater.
        length: u64,
        /// The limit.
        limit: u64,
    },
    /// Want of memory.
    Memory,
}

/// Why the next byte string was not appended, or maybe not.
#[derive(Clone, Copy, Debug, PartialEq, Eq)]
pub enum AppendError {
    /// A fault of the disk, which it has counted. The journal is closed, and a new start tells
    /// whether the byte string was appended.
    DiskFault,
    /// An earlier fault of the disk has closed the journal. Nothing was done.
    Closed,
}

/// A list of byte strings on file `Zero` of a disk, which survives a stop at any moment.
#[derive(Drop)]
pub struct Journal {
    entries: Vec<Bytes>,
    prepared: VecDeque<Line>,
    limit: u64,
    end: u64,
    closed: bool,
}

impl Model for Journal {
    ghost use Rattle.std.specs.Prelude.{vec_capacity};
    ghost use Rattle.rnv_journal.specs.Found.{strings};
    ghost use Rattle.rnv_journal.specs.Held.{Held, payloads, IsHeld};

    ghost Value = { Held };

    ghost view = { λ j. record { entries = strings j.entries.items; prepared = payloads j.prepared.items; limit = j.limit; closed = j.closed } };

    ghost invariant = { λ j. IsHeld j.entries.items (vec_capacity j.entries) j.prepared.items j.limit j.end };
}

impl Journal {
    /// The journal on file `Zero`, which it makes where a making was stopped or never begun. The
    /// limit, from 14 to 4294967295 bytes, is on the file's length up to and with its last gate.
    /// `DiskFault` only where the disk counted a fault; `NotAJournal` only where the bytes are no
    /// journal within the limit, with the offset at which they go wrong; `Memory`.
    pub fn start<D: Disk>(alloc: Global, disk: &mut D, limit: u64) -> Result<Journal, StartError>
        requires enough { 14 ≤ limit }
        requires small { limit ≤ 4294967295 }
        // From a disk that has readings a stop at any moment leaves readings that stood on entry.
        ensures any_moment { KeepsReadings limit (D.past disk.old) (D.past disk.new) }
        // File `One` is left alone.
        ensures other { KeepsOne (D.past disk.old) (D.past disk.new) }
        ensures at_rest { IfOk result (λ journal. IsAtRest limit (D.past disk.new) journal.entries) }
        ensures entries { D.tells → IfOk result (λ journal. ReadsAs limit (D.seen disk.old) journal.entries) }
        ensures fresh { IfOk result (λ journal. (journal.prepared ≡ []) × (journal.limit ≡ limit) × (journal.closed ≡ false)) }
        ensures refused { D.tells → IfErr result (λ error. IsRefusal limit (D.seen disk.old) error) }
        ensures only_read { IfErr result (λ error. UnlessFault error (LeavesOnly (D.past disk.old) (D.past disk.new) (LeftNow (D.past disk.old)))) }
        ensures same { D.tells → IfErr result (λ error. WhereNoJournal error (D.seen disk.new ≡ D.seen disk.old)) }
        ensures cause { FaultsBy (D.faults disk.old) (D.faults disk.new) result StartError.DiskFault }
    {
        match entries_at_rest(alloc, disk, limit) {
            Ok((entries, end)) => Ok(Journal {
                entries: entries.into_inner(),
                prepared: VecDeque::new(alloc),
                limit,
                end,
                closed: false,
            }),
            Err(error) => Err(error),
        }
    }

    /// How many byte strings stand.
    pub fn count(&self) -> usize
        ensures { result ≡ length self.now.entries }
    {
        self.entries.len()
    }

    /// The byte strings, in order.
    pub fn entries(&self) -> &[Bytes]
        ensures { strings result.now ≡ self.now.entries }
    {
        &self.entries
    }

    /// How many byte strings are prepared and not yet appended.
    pub fn prepared(&self) -> usize
        ensures { result ≡ length self.now.prepared }
    {
        self.prepared.len()
    }

    /// The length of the file, up to and with its last gate, which is within the limit.
    pub fn length(&self) -> u64
        ensures counted { result ≡ counted self.now.entries }
        ensures within { counted (self.now.entries ++ self.now.prepared) ≤ self.now.limit }
    {
        self.end + 1
    }

    /// The offset of the gate of the entry with this index, which is below the number of entries.
    pub fn place(&self, index: usize) -> u64
        requires { index < length self.now.entries }
        ensures { result ≡ end_of (take index self.now.entries) }
    {
        end_behind(&self.entries[..index], self.end)
    }

    /// Makes these byte strings the ones that come next, in order, in place of those that were
    /// prepared before, and the room for them, so that `append_next` takes no memory. `Closed`
    /// exactly after a fault of the disk in an `append_next`; `Full` exactly where the file's length
    /// after all of them would be above the limit, with that length, or 2^64 - 1 where it is
    /// greater; `Memory`. After a refusal nothing is prepared.
    pub fn prepare(&mut self, alloc: Global, list: List<Bytes>) -> Result<(), PrepareError>
        ensures ok { OnOk result (self.new ≡ record self.old { prepared = strings list }) }
        ensures err { OnErr result (self.new ≡ record self.old { prepared = [] }) }
        ensures within { OnOk result (counted (self.old.entries ++ strings list) ≤ self.old.limit) }
        ensures full { (length limit : ℕ) → IsErrOf result (Full length limit) ↔ IsTooLong self.old (strings list) length limit }
        ensures closed { IsErrOf result PrepareError.Closed ↔ (self.old.closed ≡ true) }
    {
        self.prepared = VecDeque::new(alloc);
        if self.closed {
            return Err(PrepareError::Closed);
        }
        let length = length_after(self.end, list.as_slice());
        if length > self.limit {
            return Err(PrepareError::Full {
                length,
                limit: self.limit,
            });
        }
        match self.make_room(alloc, list) {
            Ok(()) => Ok(()),
            Err(_) => Err(PrepareError::Memory),
        }
    }

    // Prepares byte strings that the limit has room for, where nothing is prepared.
    fn make_room(&mut self, alloc: Global, list: List<Bytes>) -> Result<(), AllocError>
        requires none { self.old.prepared ≡ [] }
        requires within { counted (self.old.entries ++ strings list) ≤ self.old.limit }
        ensures ok { OnOk result (self.new ≡ record self.old { prepared = strings list }) }
        ensures err { OnErr result (self.new ≡ self.old) }
    {
        self.entries.reserve(list.len())?;
        self.prepared = lines(alloc, list)?;
        Ok(())
    }

    /// Appends the next prepared byte string to the file, by two writes that each end with a sync.
    /// Something is prepared, and unless the journal is closed the disk is at rest at the entries.
    /// A stop at any moment leaves the entries as they were, or those and that string; takes no
    /// memory. `DiskFault` only where the disk counted a fault, and from then on the journal is
    /// closed, and only a new start is of use; `Closed` exactly after such a fault.
    pub fn append_next<D: Disk>(&mut self, disk: &mut D) -> Result<(), AppendError>
        requires prepared { self.old.prepared ≢ [] }
        requires at_rest { self.old.closed ≡ false → IsAtRest self.old.limit (D.past disk.old) self.old.entries }
        ensures any_moment { self.old.closed ≡ false → ReadsOnly self.old.limit (D.past disk.old) (D.past disk.new) (IsOldOrAppended self.old) }
        ensures other { KeepsOne (D.past disk.old) (D.past disk.new) }
        ensures at_rest { OnOk result (IsAtRest self.old.limit (D.past disk.new) self.new.entries) }
        ensures ok { OnOk result (self.new ≡ appended self.old) }
        ensures err { OnErr result (self.new ≡ record self.old { closed = true }) }
        ensures closed { IsErrOf result AppendError.Closed ↔ (self.old.closed ≡ true) }
        ensures idle { self.old.closed ≡ true → disk.new ≡ disk.old }
        ensures cause { FaultsBy (D.faults disk.old) (D.faults disk.new) result AppendError.DiskFault }
    {
        if self.closed {
            return Err(AppendError::Closed);
        }
        match append_line(disk, self.end, self.prepared[0].written.as_slice()) {
            Ok(()) => {
                self.take_next();
                Ok(())
            }
            Err(_) => {
                self.closed = true;
                Err(AppendError::DiskFault)
            }
        }
    }

    /// Appends all prepared byte strings, in order, as `append_next` does each; there may be none. The
    /// journal is not closed, and the disk is at rest at its entries. A stop at any moment leaves the
    /// entries and the first of these byte strings, however many, and never fewer of them later.
    /// `DiskFault` only where the disk counted a fault; then the journal is closed, with the byte
    /// strings that were appended before among its entries. No other refusal.
    pub fn append_all<D: Disk>(&mut self, disk: &mut D) -> Result<(), AppendError>
        requires not_closed { self.old.closed ≡ false }
        requires at_rest { IsAtRest self.old.limit (D.past disk.old) self.old.entries }
        ensures any_moment { ReadsOnly self.old.limit (D.past disk.old) (D.past disk.new) (IsFront self.old 0) }
        // What was appended is in every reading from then on.
        ensures never_fewer { (k : ℕ) → k + length self.new.prepared ≤ length self.old.prepared
            → StandsSince self.old (D.past disk.old) (D.past disk.new) k }
        ensures at_rest { OnOk result (IsAtRest self.old.limit (D.past disk.new) self.new.entries) }
        ensures ok { OnOk result (self.new ≡ record self.old { entries = self.old.entries ++ self.old.prepared; prepared = [] }) }
        ensures err { OnErr result (IsStopped self.old self.new) }
        ensures fault { IfErr result (λ error. error ≡ AppendError.DiskFault) }
        ensures cause { FaultsBy (D.faults disk.old) (D.faults disk.new) result AppendError.DiskFault }
    {
        for _ in 0..self.prepared() {
            self.append_next(disk)?;
        }
        Ok(())
    }

    // Moves the first prepared byte string to the end of the entries.
    fn take_next(&mut self)
        requires { self.old.prepared ≢ [] }
        ensures { self.new ≡ appended self.old }
    {
        if let Some(line) = self.prepared.pop_front() {
            self.end += 5 + line.payload.as_slice().len() as u64;
            self.entries.push_reserved(line.payload);
        }
    }
}

// The offset behind these entries, which is at most the given end.
fn end_behind(entries: &[Bytes], end: u64) -> u64
    requires { end_of (strings entries.now) ≤ end }
    ensures { result ≡ end_of (strings entries.now) }
{
    let mut offset = 13;
    for entry in entries {
        offset += 5 + entry.as_slice().len() as u64;
    }
    offset
}
