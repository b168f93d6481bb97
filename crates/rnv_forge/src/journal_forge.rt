ghost use Rattle.std.specs.Prelude.{◌≡◌, ◌≤◌, ◌↔◌, ℕ, false, true, [], ◌++◌, length, map, None, IfErr, IfOk, IfSome, IsErrOf, OnErr, OnOk};
ghost use Rattle.std.specs.List.{AllByRecursion};
ghost use Rattle.rnv_base.specs.Limits.{store_bytes};
ghost use Rattle.rnv_repo.specs.declared.refusal.Refusal.{Refusal as Cause};
ghost use Rattle.rnv_repo.specs.Store.{ArePermitted, after};
ghost use Rattle.rnv_repo.specs.WellFormed.{IsOrderly};
ghost use Rattle.rnv_journal.specs.File.{counted};
ghost use Rattle.rnv_journal.specs.Found.{strings};
ghost use Rattle.rnv_journal.specs.Held.{IsTooLong};
ghost use Rattle.rnv_journal.specs.Readings.{KeepsOne, KeepsReadings};
ghost use Rattle.rnv_journal.specs.Reading.{ReadsAs};
ghost use Rattle.rnv_spelling.specs.Spelling.{spelling};
ghost use Rattle.rnv_forge.specs.Start.{IsStoreRefusal, LeavesRefused, RefusedBy};
ghost use Rattle.rnv_forge.specs.declared.forge.ForgePrepareError.TheVariants.{Full, Refused as PrepareRefused};
ghost use Rattle.rnv_forge.specs.declared.stored.CheckError.TheVariants.{Refused};
ghost use Rattle.rnv_forge.specs.Forge.{IsOverfull};
ghost use Rattle.rnv_forge.specs.Held.{HoldsStore, IsPrepared, IsStoreOf};
ghost use Rattle.rnv_forge.specs.Laws.{held_at_rest, held_length, held_no_longer, held_well_formed, held_within, store_bounded, store_sound};
ghost use Rattle.rnv_forge.specs.Refused.{IsFirstRefused};
ghost use Rattle.rnv_forge.specs.Writes.{AreWrites, IsSpelledBy, writes_in};

use crate::start::{Opened, started};
use crate::store::Store;
use crate::stored::{CheckError, StoredError, Tried, checked, stored};
use crate::{Forge, ForgePrepareError, WriteError};
use rnv_base::{Bytes, List, STORE_BYTES, Text};
use rnv_disk::Disk;
use rnv_journal::{AppendError, Journal, PrepareError, StartError};
use rnv_repo::{Repo, Write};
use std::alloc::{AllocError, Global};
use std::convert::AsSlice;

/// The repositories whose writes are the entries of the journal on a disk.
#[derive(Drop)]
pub struct JournalForge<D: Disk> {
    disk: D,
    journal: Journal,
    // What the entries and then the prepared writes make. A write that is done changes nothing of it. It is let go where writes
    // are refused or memory runs out, and where others are prepared in place of these; the next list that is prepared makes it anew.
    store: Option<Store>,
}

/// Why no forge was started, and the disk as it stands.
#[derive(Debug, Drop)]
pub struct StartRefused<D> {
    /// Why.
    pub error: StartError,
    /// The disk.
    pub disk: D,
}

impl<D: Disk> JournalForge<D> {
    /// The forge of a disk, whose journal has at most 268435456 bytes: the writes of its entries,
    /// applied in order. `DiskFault` only where the disk counted a fault; `NotAJournal` only where
    /// the bytes are no journal within the limit, with the offset at which they go wrong, or where
    /// an entry is no permitted write, with the offset of its gate, and there always, unless a fault
    /// or want of memory comes first; `Memory`. A refusal hands the disk back: bytes that are no
    /// journal are not written to, and a journal keeps all of its entries. File `One` is left alone.
    pub fn start(alloc: Global, disk: D) -> Result<JournalForge<D>, StartRefused<D>>
        ensures holds { IfOk result ⟦<JournalForge<D> as Forge>⟧.holds }
        // From a disk that has readings a stop at any moment leaves readings that stood on entry.
        ensures any_moment { IfOk result (λ forge. KeepsReadings store_bytes (D.past disk) (⟦<JournalForge<D> as Forge>⟧.past forge)) }
        ensures any_moment_refused { IfErr result (λ refused. KeepsReadings store_bytes (D.past disk) (D.past refused.disk)) }
        // File `One` is left alone, and a refusal leaves what stands on the disk.
        ensures other { IfOk result (λ forge. KeepsOne (D.past disk) (⟦<JournalForge<D> as Forge>⟧.past forge)) }
        ensures other_refused { IfErr result (λ refused. KeepsOne (D.past disk) (D.past refused.disk)) }
        ensures left { D.tells → IfErr result (λ refused. LeavesRefused store_bytes (D.seen disk) (D.seen refused.disk) (D.past disk) (D.past refused.disk) refused.error) }
        ensures writes { D.tells → IfOk result (λ forge. ReadsAs store_bytes (D.seen disk) (map spelling (⟦<JournalForge<D> as Forge>⟧.writes forge))) }
        ensures none { IfOk result (λ forge. ⟦<JournalForge<D> as Forge>⟧.prepared forge ≡ []) }
        ensures limit { IfOk result (λ forge. ⟦<JournalForge<D> as Forge>⟧.limit forge ≡ store_bytes) }
        ensures opened { IfOk result (λ forge. ⟦<JournalForge<D> as Forge>⟧.closed forge ≡ false) }
        ensures refused { D.tells → IfErr result (λ refused. IsStoreRefusal store_bytes (D.seen disk) refused.error) }
        ensures later { IfOk result (λ forge. D.faults disk ≤ ⟦<JournalForge<D> as Forge>⟧.faults forge) }
        ensures cause { IfErr result (λ refused. RefusedBy (D.faults disk) (D.faults refused.disk) refused.error) }
    {
        JournalForge::start_within(alloc, disk, STORE_BYTES)
    }

    // The same with a limit.
    pub(crate) fn start_within(
        alloc: Global,
        mut disk: D,
        limit: u64,
    ) -> Result<JournalForge<D>, StartRefused<D>>
        requires enough { 14 ≤ limit }
        requires small { limit ≤ 4294967295 }
        ensures holds { IfOk result (λ forge. HoldsStore forge.store forge.journal (D.past forge.disk)) }
        ensures any_moment { IfOk result (λ forge. KeepsReadings limit (D.past disk) (D.past forge.disk)) }
        ensures any_moment_refused { IfErr result (λ refused. KeepsReadings limit (D.past disk) (D.past refused.disk)) }
        ensures other { IfOk result (λ forge. KeepsOne (D.past disk) (D.past forge.disk)) }
        ensures other_refused { IfErr result (λ refused. KeepsOne (D.past disk) (D.past refused.disk)) }
        ensures left { D.tells → IfErr result (λ refused. LeavesRefused limit (D.seen disk) (D.seen refused.disk) (D.past disk) (D.past refused.disk) refused.error) }
        ensures entries { D.tells → IfOk result (λ forge. ReadsAs limit (D.seen disk) forge.journal.entries) }
        ensures fresh { IfOk result (λ forge. (forge.journal.prepared ≡ []) × (forge.journal.limit ≡ limit) × (forge.journal.closed ≡ false)) }
        ensures refused { D.tells → IfErr result (λ refused. IsStoreRefusal limit (D.seen disk) refused.error) }
        ensures later { IfOk result (λ forge. D.faults disk ≤ D.faults forge.disk) }
        ensures cause { IfErr result (λ refused. RefusedBy (D.faults disk) (D.faults refused.disk) refused.error) }
    {
        match started(alloc, &mut disk, limit) {
            Ok(Opened { journal, store }) => Ok(JournalForge {
                disk,
                journal,
                store: Some(store),
            }),
            Err(error) => Err(StartRefused { error, disk }),
        }
    }

    /// How many writes stand.
    pub fn count(&self) -> usize
        requires { ⟦<JournalForge<D> as Forge>⟧.holds self.now }
        ensures { result ≡ length (⟦<JournalForge<D> as Forge>⟧.writes self.now) }
    {
        self.journal.count()
    }

    /// The length of the journal in bytes, which is within the limit.
    pub fn length(&self) -> u64
        requires { ⟦<JournalForge<D> as Forge>⟧.holds self.now }
        ensures counted { result ≡ ⟦<JournalForge<D> as Forge>⟧.length self.now }
        ensures within { result ≤ ⟦<JournalForge<D> as Forge>⟧.limit self.now }
    {
        self.journal.length()
    }

    /// The disk as it stands.
    pub fn into_disk(self) -> D
        ensures { result ≡ self.disk }
    {
        let JournalForge { disk, .. } = self;
        disk
    }
}

impl<D: Disk> Forge for JournalForge<D> {
    ghost writes = { λ f. writes_in f.journal.entries };

    ghost prepared = { λ f. writes_in f.journal.prepared };

    ghost closed = { λ f. f.journal.closed };

    ghost faults = { λ f. D.faults f.disk };

    ghost length = { λ f. counted f.journal.entries };

    ghost limit = { λ f. f.journal.limit };

    ghost past = { λ f. D.past f.disk };

    ghost holds = { λ f. HoldsStore f.store f.journal (D.past f.disk) };

    ghost well_formed = { λ f h. held_well_formed f.journal (D.past f.disk) h.writes };

    ghost permitted = { λ f h. h.writes.permitted };

    ghost measured = { λ f h. held_length f.journal (D.past f.disk) h.writes };

    ghost no_longer = { λ f h. held_no_longer f.journal (D.past f.disk) h.writes };

    ghost within = { λ f h. held_within f.journal (D.past f.disk) h.writes };

    ghost small = { λ f h. h.writes.small };

    ghost sound = { λ f h. store_sound (writes_in f.journal.entries) (writes_in f.journal.prepared) (held_well_formed f.journal (D.past f.disk) h.writes) h.writes.permitted };

    ghost bounded = { λ f h. store_bounded (writes_in f.journal.entries) (writes_in f.journal.prepared) f.journal.limit h.writes.permitted (held_within f.journal (D.past f.disk) h.writes) h.writes.small };

    ghost at_rest = { λ f h. held_at_rest f.journal (D.past f.disk) h.writes };

    fn names(&self, alloc: Global) -> Result<List<Text>, AllocError> {
        match kept(&self.journal, &self.store) {
            Some(store) => store.names(alloc),
            None => {
                let store = store_of(alloc, &self.journal)?;
                store.names(alloc)
            }
        }
    }

    fn repo(&self, alloc: Global, name: &Text) -> Result<Option<Repo>, AllocError> {
        match kept(&self.journal, &self.store) {
            Some(store) => store.repo(alloc, name),
            None => {
                let store = store_of(alloc, &self.journal)?;
                Ok(store.into_repo(name))
            }
        }
    }

    fn prepare(&mut self, alloc: Global, list: List<Write>) -> Result<(), ForgePrepareError> {
        let kept = take_kept(&self.journal, &mut self.store);
        match prepare_writes(alloc, &mut self.journal, kept, list) {
            Ok(store) => {
                self.store = Some(store);
                Ok(())
            }
            Err(error) => Err(error),
        }
    }

    fn write_next(&mut self) -> Result<(), WriteError> {
        match self.journal.append_next(&mut self.disk) {
            Ok(()) => Ok(()),
            Err(AppendError::DiskFault) => Err(WriteError::DiskFault),
            Err(AppendError::Closed) => Err(WriteError::Closed),
        }
    }
}

// The store that is kept, where it is that of the entries alone.
fn kept<'a>(journal: &Journal, store: &'a Option<Store>) -> Option<&'a Store>
    requires { IfSome store.now (IsStoreOf journal.now) }
    ensures { IfSome result (λ kept. kept.now ≡ after (writes_in journal.now.entries) []) }
{
    if journal.prepared() > 0 {
        return None;
    }
    store.as_ref()
}

// Takes out the store that is kept, where it is that of the entries alone, and lets another one go.
fn take_kept(journal: &Journal, store: &mut Option<Store>) -> Option<Store>
    requires { IfSome store.old (IsStoreOf journal.now) }
    ensures kept { IfSome result (λ kept. kept ≡ after (writes_in journal.now.entries) []) }
    ensures none { store.new ≡ None }
{
    let kept = store.take();
    if journal.prepared() == 0 {
        return kept;
    }
    None
}

// The store that the writes of a journal's entries make.
fn store_of(alloc: Global, journal: &Journal) -> Result<Store, AllocError>
    requires writes { AreWrites journal.now.entries }
    requires small { journal.now.limit ≤ 4294967295 }
    ensures { IfOk result (λ store. store ≡ after (writes_in journal.now.entries) []) }
{
    let _ = journal.length();
    match stored(alloc, journal.entries()) {
        Ok(store) => Ok(store),
        Err(StoredError::Memory) => Err(AllocError),
        Err(StoredError::Damaged { .. }) => unreachable!(),
    }
}

// The store of a journal's entries, which is this one if one was kept.
fn current(alloc: Global, journal: &Journal, kept: Option<Store>) -> Result<Store, AllocError>
    requires writes { AreWrites journal.now.entries }
    requires small { journal.now.limit ≤ 4294967295 }
    requires kept { IfSome kept (λ store. store ≡ after (writes_in journal.now.entries) []) }
    ensures { IfOk result (λ store. store ≡ after (writes_in journal.now.entries) []) }
{
    match kept {
        Some(store) => Ok(store),
        None => store_of(alloc, journal),
    }
}

// There are few entries, since each takes five bytes beside its own. Does nothing.
fn has_few(journal: &Journal)
    requires { journal.now.limit ≤ 4294967295 }
    ensures { length journal.now.entries ≤ 900000000 }
{
    let _ = journal.length();
}

// What orderly writes make of the store of the entries, after which they are permitted in their turn, and the byte strings that
// spell them. More than 3,000,000,000 writes are more than there is memory for.
fn checked_after(
    alloc: Global,
    journal: &Journal,
    kept: Option<Store>,
    list: List<Write>,
) -> Result<Tried, CheckError>
    requires writes { AreWrites journal.now.entries }
    requires small { journal.now.limit ≤ 4294967295 }
    requires kept { IfSome kept (λ store. store ≡ after (writes_in journal.now.entries) []) }
    requires orderly { AllByRecursion IsOrderly list }
    ensures spelled { IfOk result (λ made. IsSpelledBy (strings made.payloads) list) }
    ensures read { IfOk result (λ made. writes_in (strings made.payloads) ≡ list) }
    ensures store { IfOk result (λ made. made.store ≡ after list (after (writes_in journal.now.entries) [])) }
    ensures permitted { OnOk result (ArePermitted list (after (writes_in journal.now.entries) [])) }
    ensures refused { (index : ℕ) (cause : Cause) → IsErrOf result (Refused index cause) → IsFirstRefused list (after (writes_in journal.now.entries) []) index cause }
{
    if list.len() > 3_000_000_000 {
        return Err(CheckError::Memory);
    }
    has_few(journal);
    match current(alloc, journal, kept) {
        Ok(store) => checked(alloc, store, list.as_slice()),
        Err(_) => Err(CheckError::Memory),
    }
}

// Prepares orderly writes in a journal whose entries are permitted writes, and gives the store that they all make.
fn prepare_writes(
    alloc: Global,
    journal: &mut Journal,
    kept: Option<Store>,
    list: List<Write>,
) -> Result<Store, ForgePrepareError>
    requires writes { AreWrites journal.old.entries }
    requires small { journal.old.limit ≤ 4294967295 }
    requires kept { IfSome kept (λ store. store ≡ after (writes_in journal.old.entries) []) }
    requires orderly { AllByRecursion IsOrderly list }
    ensures ok { OnOk result (IsPrepared journal.old list journal.new) }
    ensures store { IfOk result (λ store. store ≡ after list (after (writes_in journal.old.entries) [])) }
    ensures err { OnErr result (journal.new ≡ record journal.old { prepared = [] }) }
    ensures closed { IsErrOf result ForgePrepareError.Closed ↔ (journal.old.closed ≡ true) }
    ensures refused { (index : ℕ) (cause : Cause) → IsErrOf result (PrepareRefused index cause) → IsFirstRefused list (after (writes_in journal.old.entries) []) index cause }
    ensures full { (length most : ℕ) → IsErrOf result (Full length most) → IsOverfull (writes_in journal.old.entries) list journal.old.limit length most }
{
    match journal.prepare(alloc, List::empty(alloc)) {
        Ok(()) => {}
        Err(PrepareError::Closed) => return Err(ForgePrepareError::Closed),
        Err(_) => return Err(ForgePrepareError::Memory),
    }
    match checked_after(alloc, journal, kept, list) {
        Ok(Tried { store, payloads }) => prepare_payloads(alloc, journal, payloads, store),
        Err(CheckError::Memory) => Err(ForgePrepareError::Memory),
        Err(CheckError::Refused { index, cause }) => {
            Err(ForgePrepareError::Refused { index, cause })
        }
    }
}

// Prepares byte strings in a journal that is not closed, and hands the store back.
fn prepare_payloads(
    alloc: Global,
    journal: &mut Journal,
    payloads: List<Bytes>,
    store: Store,
) -> Result<Store, ForgePrepareError>
    requires { journal.old.closed ≡ false }
    ensures ok { OnOk result (journal.new ≡ record journal.old { prepared = strings payloads }) }
    ensures store { IfOk result (λ made. made ≡ store) }
    ensures err { OnErr result (journal.new ≡ record journal.old { prepared = [] }) }
    ensures within { OnOk result (counted (journal.old.entries ++ strings payloads) ≤ journal.old.limit) }
    ensures full { (length most : ℕ) → IsErrOf result (Full length most) → IsTooLong journal.old (strings payloads) length most }
    ensures closed { ¬ IsErrOf result ForgePrepareError.Closed }
    ensures refused { (index : ℕ) (cause : Cause) → ¬ IsErrOf result (PrepareRefused index cause) }
{
    match journal.prepare(alloc, payloads) {
        Ok(()) => Ok(store),
        Err(PrepareError::Closed) => unreachable!(),
        Err(PrepareError::Full { length, limit }) => Err(ForgePrepareError::Full { length, limit }),
        Err(PrepareError::Memory) => Err(ForgePrepareError::Memory),
    }
}
