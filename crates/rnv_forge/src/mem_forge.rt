ghost use Rattle.std.specs.Prelude.{◌≡◌, ◌≢◌, ◌≤◌, ◌↔◌, ◌+◌, ◌-◌, ◌^◌, ℕ, true, false, List as Items, [], ◌∷◌, ◌++◌, length, refl, map, min, take, drop, IfOk, IsErrOf, OnErr, OnOk};
ghost use Rattle.std.specs.List.{AllByRecursion};
ghost use Rattle.rnv_base.specs.Causes.{FaultsBy};
ghost use Rattle.rnv_base.specs.Turns.{IsListed, first_turn, next_turn};
ghost use Rattle.rnv_repo.specs.declared.refusal.Refusal.{Refusal as Cause};
ghost use Rattle.rnv_repo.specs.declared.write.Write.{Write as Change};
ghost use Rattle.rnv_repo.specs.Store.{ArePermitted, after};
ghost use Rattle.rnv_repo.specs.WellFormed.{IsOrderly, IsWellFormed};
ghost use Rattle.rnv_journal.specs.Readings.{KeepsOne};
ghost use Rattle.rnv_spelling.specs.Spelling.{spelling};
ghost use Rattle.rnv_forge.specs.declared.forge.ForgePrepareError.TheVariants.{Full, Refused as PrepareRefused};
ghost use Rattle.rnv_forge.specs.declared.forge.WriteError.TheVariants.{Closed as write_closed, DiskFault};
ghost use Rattle.rnv_forge.specs.declared.stored.CheckError.TheVariants.{Refused};
ghost use Rattle.rnv_forge.specs.Forge.{IsOldOrNext, IsOverfull, LeavesWrites};
ghost use Rattle.rnv_forge.specs.InMemory.{HoldsInMemory, in_memory_permitted, in_memory_length, in_memory_well_formed, in_memory_within, no_past, nothing_at_rest};
ghost use Rattle.rnv_forge.specs.Laws.{store_bounded, store_sound};
ghost use Rattle.rnv_forge.specs.Refused.{IsFirstRefused};
ghost use Rattle.rnv_forge.specs.Writes.{entry_length, length_of};

use crate::store::Store;
use crate::stored::{CheckError, checked};
use crate::{Forge, ForgePrepareError, WriteError};
use rnv_base::{Failing, List, Text};
use rnv_repo::{ApplyError, Repo, Write};
use rnv_spelling::spell;
use std::alloc::{AllocError, Global};
use std::convert::AsSlice;

/// Repositories as a list of writes in memory, without a disk and a journal: for what stands above a
/// forge. Its limit is on the length that a journal of the writes would have. Of stops nothing is
/// told, since there is no disk that they could leave. The calls of `write_next` whose numbers, from
/// 0, are listed fail as by a fault of the disk.
#[derive(Drop)]
pub struct MemForge {
    // The writes that stand, and behind them those that are prepared.
    all: Vec<Write>,
    // How many of them stand.
    done: usize,
    limit: u64,
    failing: Failing,
    faults: u64,
    closed: bool,
}

impl MemForge {
    /// A forge without writes, whose calls of `write_next` with these numbers fail. The limit is that
    /// of a journal's length in bytes.
    pub fn new(alloc: Global, limit: u64, failing: List<u64>) -> MemForge
        requires enough { 14 ≤ limit }
        requires small { limit ≤ 4294967295 }
        ensures holds { ⟦<MemForge as Forge>⟧.holds result }
        ensures empty { ⟦<MemForge as Forge>⟧.writes result ≡ [] }
        ensures none { ⟦<MemForge as Forge>⟧.prepared result ≡ [] }
        ensures limit { ⟦<MemForge as Forge>⟧.limit result ≡ limit }
        ensures opened { ⟦<MemForge as Forge>⟧.closed result ≡ false }
        ensures unfailed { ⟦<MemForge as Forge>⟧.faults result ≡ 0 }
        ensures failing { result.failing ≡ first_turn failing }
    {
        MemForge {
            all: Vec::new(alloc),
            done: 0,
            limit,
            failing: Failing::new(failing),
            faults: 0,
            closed: false,
        }
    }

    /// How many writes stand.
    pub fn count(&self) -> usize
        requires { ⟦<MemForge as Forge>⟧.holds self.now }
        ensures { result ≡ length (⟦<MemForge as Forge>⟧.writes self.now) }
    {
        self.done
    }

    /// The length in bytes that a journal of the writes would have, which is within the limit. Only memory can fail.
    pub fn length(&self, alloc: Global) -> Result<u64, AllocError>
        requires { ⟦<MemForge as Forge>⟧.holds self.now }
        ensures counted { IfOk result (λ length. length ≡ ⟦<MemForge as Forge>⟧.length self.now) }
        ensures within { IfOk result (λ length. length ≤ ⟦<MemForge as Forge>⟧.limit self.now) }
    {
        let length = lengthened(alloc, 14, &self.all[..self.done])?;
        Ok(length)
    }
}

impl Forge for MemForge {
    ghost writes = { λ f. take f.done f.all.items };

    ghost prepared = { λ f. drop f.done f.all.items };

    ghost closed = { λ f. f.closed };

    ghost faults = { λ f. f.faults };

    ghost length = { λ f. length_of (take f.done f.all.items) };

    ghost limit = { λ f. f.limit };

    ghost past = { λ f. no_past };

    ghost holds = { λ f. HoldsInMemory f.all.items f.done f.limit };

    ghost well_formed = { λ f h. in_memory_well_formed f.all.items f.done f.limit h };

    ghost permitted = { λ f h. in_memory_permitted f.all.items f.done f.limit h };

    ghost measured = { λ f h. refl };

    ghost no_longer = { λ f h. in_memory_length f.all.items f.done f.limit h };

    ghost within = { λ f h. in_memory_within f.all.items f.done f.limit h };

    ghost small = { λ f h. h.small };

    ghost sound = { λ f h. store_sound (take f.done f.all.items) (drop f.done f.all.items) (in_memory_well_formed f.all.items f.done f.limit h) (in_memory_permitted f.all.items f.done f.limit h) };

    ghost bounded = { λ f h. store_bounded (take f.done f.all.items) (drop f.done f.all.items) f.limit (in_memory_permitted f.all.items f.done f.limit h) (in_memory_within f.all.items f.done f.limit h) h.small };

    ghost at_rest = { λ f h opened. nothing_at_rest f.limit (map spelling (take f.done f.all.items)) };

    fn names(&self, alloc: Global) -> Result<List<Text>, AllocError> {
        let store = store_of(alloc, &self.all[..self.done])?;
        store.names(alloc)
    }

    fn repo(&self, alloc: Global, name: &Text) -> Result<Option<Repo>, AllocError> {
        let store = store_of(alloc, &self.all[..self.done])?;
        Ok(store.into_repo(name))
    }

    fn prepare(&mut self, alloc: Global, list: List<Write>) -> Result<(), ForgePrepareError> {
        self.all.truncate(self.done);
        if self.closed {
            return Err(ForgePrepareError::Closed);
        }
        check_writes(alloc, self.all.as_slice(), list.as_slice(), self.limit)?;
        let mut list = list.into_inner();
        match self.all.append(&mut list) {
            Ok(()) => Ok(()),
            Err(_) => Err(ForgePrepareError::Memory),
        }
    }

    /// Unless it is closed, `DiskFault` exactly where the call is listed.
    fn write_next(&mut self) -> Result<(), WriteError>
        requires holds { HoldsInMemory self.old.all.items self.old.done self.old.limit }
        requires prepared { drop self.old.done self.old.all.items ≢ [] }
        ensures holds { HoldsInMemory self.new.all.items self.new.done self.new.limit }
        ensures any_moment { self.old.closed ≡ false → LeavesWrites self.old.limit no_past no_past (IsOldOrNext (take self.old.done self.old.all.items) (drop self.old.done self.old.all.items)) }
        ensures other { KeepsOne no_past no_past }
        ensures ok { OnOk result (take self.new.done self.new.all.items ≡ take self.old.done self.old.all.items ++ take 1 (drop self.old.done self.old.all.items)) }
        ensures next { OnOk result (drop self.new.done self.new.all.items ≡ drop 1 (drop self.old.done self.old.all.items)) }
        ensures err { OnErr result (take self.new.done self.new.all.items ≡ take self.old.done self.old.all.items) }
        ensures stays { OnErr result (drop self.new.done self.new.all.items ≡ drop self.old.done self.old.all.items) }
        ensures opened { OnOk result (self.new.closed ≡ false) }
        ensures closes { OnErr result (self.new.closed ≡ true) }
        ensures longer { OnOk result ((w : Change) (ws : Items Change) → drop self.old.done self.old.all.items ≡ w ∷ ws → length_of (take self.new.done self.new.all.items) ≡ length_of (take self.old.done self.old.all.items) + entry_length w) }
        ensures as_long { OnErr result (length_of (take self.new.done self.new.all.items) ≡ length_of (take self.old.done self.old.all.items)) }
        ensures limit { self.new.limit ≡ self.old.limit }
        ensures closed { IsErrOf result write_closed ↔ (self.old.closed ≡ true) }
        ensures idle { self.old.closed ≡ true → self.new ≡ self.old }
        ensures cause { FaultsBy self.old.faults self.new.faults result DiskFault }
        ensures listed { self.old.closed ≡ false → IsErrOf result DiskFault ↔ IsListed self.old.failing }
        ensures turn { self.old.closed ≡ false → self.new.failing ≡ next_turn self.old.failing }
    {
        if self.closed {
            return Err(WriteError::Closed);
        }
        if self.failing.strikes() {
            self.faults = self.faults.saturating_add(1);
            self.closed = true;
            return Err(WriteError::DiskFault);
        }
        self.done += 1;
        Ok(())
    }
}

// The store that writes make of the empty one, each permitted in its turn.
fn store_of(alloc: Global, writes: &[Write]) -> Result<Store, AllocError>
    requires few { length writes.now ≤ 900000000 }
    requires orderly { AllByRecursion IsOrderly writes.now }
    requires permitted { ArePermitted writes.now [] }
    ensures ok { IfOk result (λ store. store ≡ after writes.now []) }
    ensures revisions { IfOk result (λ store. AllByRecursion (λ repo. repo.revision ≤ 900000000) store) }
{
    let mut store = Store::empty(alloc);
    for write in writes {
        match store.apply(alloc, write) {
            Ok(()) => {}
            Err(ApplyError::Memory) => return Err(AllocError),
            Err(ApplyError::Refused(_)) => unreachable!(),
        }
    }
    Ok(store)
}

// Tries whether orderly writes may come next, and whether there is room for them.
fn check_writes(
    alloc: Global,
    standing: &[Write],
    list: &[Write],
    limit: u64,
) -> Result<(), ForgePrepareError>
    requires holds { HoldsInMemory standing.now (length standing.now) limit }
    requires orderly { AllByRecursion IsOrderly list.now }
    ensures holds { OnOk result (HoldsInMemory (standing.now ++ list.now) (length standing.now) limit) }
    ensures permitted { OnOk result (ArePermitted list.now (after standing.now [])) }
    ensures closed { ¬ IsErrOf result ForgePrepareError.Closed }
    ensures refused { (index : ℕ) (cause : Cause) → IsErrOf result (PrepareRefused index cause) → IsFirstRefused list.now (after standing.now []) index cause }
    ensures full { (length most : ℕ) → IsErrOf result (Full length most) → IsOverfull standing.now list.now limit length most }
{
    match check_turns(alloc, standing, list) {
        Ok(()) => {}
        Err(CheckError::Memory) => return Err(ForgePrepareError::Memory),
        Err(CheckError::Refused { index, cause }) => {
            return Err(ForgePrepareError::Refused { index, cause });
        }
    }
    match journal_length(alloc, standing, list) {
        Ok(length) if length <= limit => Ok(()),
        Ok(length) => Err(ForgePrepareError::Full { length, limit }),
        Err(_) => Err(ForgePrepareError::Memory),
    }
}

// Tries whether orderly writes are permitted in their turn after those that stand. More than 3,000,000,000 writes are
// more than there is memory for.
fn check_turns(alloc: Global, standing: &[Write], list: &[Write]) -> Result<(), CheckError>
    requires few { length standing.now ≤ 900000000 }
    requires standing { AllByRecursion IsOrderly standing.now }
    requires permitted { ArePermitted standing.now [] }
    requires orderly { AllByRecursion IsOrderly list.now }
    ensures well_formed { OnOk result (AllByRecursion IsWellFormed list.now) }
    ensures permitted { OnOk result (ArePermitted list.now (after standing.now [])) }
    ensures refused { (index : ℕ) (cause : Cause) → IsErrOf result (Refused index cause) → IsFirstRefused list.now (after standing.now []) index cause }
{
    if list.len() > 3_000_000_000 {
        return Err(CheckError::Memory);
    }
    match store_of(alloc, standing) {
        Ok(store) => match checked(alloc, store, list) {
            Ok(_) => Ok(()),
            Err(error) => Err(error),
        },
        Err(_) => Err(CheckError::Memory),
    }
}

// The length of a journal of both, or the greatest number of 64 bits where that is less.
fn journal_length(alloc: Global, standing: &[Write], list: &[Write]) -> Result<u64, AllocError>
    ensures { IfOk result (λ length. length ≡ min (length_of (standing.now ++ list.now)) (2 ^ 64 - 1)) }
{
    let length = lengthened(alloc, 14, standing)?;
    let length = lengthened(alloc, length, list)?;
    Ok(length)
}

// The length of a journal of so many bytes with these writes more, or the greatest number of 64 bits where that is less.
fn lengthened(alloc: Global, before: u64, writes: &[Write]) -> Result<u64, AllocError>
    ensures { IfOk result (λ length. length ≡ min (before + length_of writes.now - 14) (2 ^ 64 - 1)) }
{
    let mut length = before;
    for write in writes {
        let payload = spell(alloc, write)?;
        let more = payload.as_slice().len() as u64;
        length = length.saturating_add(5).saturating_add(more);
    }
    Ok(length)
}
