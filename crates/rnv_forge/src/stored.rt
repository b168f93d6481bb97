ghost use Rattle.std.specs.Prelude.{◌≡◌, ◌<◌, ◌≤◌, ◌+◌, ℕ, [], length, IfOk, IsErrOf, OnOk, Some};
ghost use Rattle.std.specs.List.{AllByRecursion};
ghost use Rattle.rnv_repo.specs.declared.refusal.Refusal.{Refusal as Cause};
ghost use Rattle.rnv_repo.specs.Store.{ArePermitted, IsSoundStore, after};
ghost use Rattle.rnv_repo.specs.WellFormed.{IsOrderly, IsWellFormed};
ghost use Rattle.rnv_journal.specs.Found.{strings};
ghost use Rattle.rnv_spelling.specs.Reading.{whole_write};
ghost use Rattle.rnv_spelling.specs.Spelling.{spelling};
ghost use Rattle.rnv_forge.specs.declared.stored.AddError.TheVariants.{NoWrite};
ghost use Rattle.rnv_forge.specs.declared.stored.CheckError.TheVariants.{Refused};
ghost use Rattle.rnv_forge.specs.declared.stored.StoredError.TheVariants.{Damaged};
ghost use Rattle.rnv_forge.specs.Refused.{IsFirstRefused};
ghost use Rattle.rnv_forge.specs.Writes.{AreWrites, IsAdded, IsDamaged, IsSpelledBy, SpellsNone, writes_in};

use crate::store::Store;
use crate::texts::has_texts;
use rnv_base::{Bytes, List};
use rnv_repo::{ApplyError, Refusal, Write};
use rnv_spelling::{read_write, spell};
use std::alloc::{AllocError, Global};
use std::convert::AsSlice;

// Why byte strings are no store.
#[derive(Debug, Drop)]
pub(crate) enum StoredError {
    Memory,
    // The one with this index spells no permitted write.
    Damaged { index: usize },
}

// Why a byte string was not added.
enum AddError {
    Memory,
    NoWrite,
}

// Applies the write that a byte string spells.
fn add(alloc: Global, store: &mut Store, payload: &[u8]) -> Result<(), AddError>
    requires sound { IsSoundStore store.old }
    requires revisions { AllByRecursion (λ repo. repo.revision < 4294967295) store.old }
    ensures added { OnOk result (IsAdded payload.now store.old store.new) }
    ensures no_write { IsErrOf result NoWrite → SpellsNone payload.now store.old }
{
    match read_write(alloc, payload) {
        Ok(Some(write)) => match store.apply(alloc, &write) {
            Ok(()) => Ok(()),
            Err(ApplyError::Memory) => Err(AddError::Memory),
            Err(ApplyError::Refused(_)) => Err(AddError::NoWrite),
        },
        Ok(None) => Err(AddError::NoWrite),
        Err(_) => Err(AddError::Memory),
    }
}

// The store that the writes of a journal's entries make of the empty one.
pub(crate) fn stored(alloc: Global, entries: &[Bytes]) -> Result<Store, StoredError>
    requires { length entries.now < 4294967295 }
    ensures ok { IfOk result (λ store. store ≡ after (writes_in (strings entries.now)) []) }
    ensures revisions { IfOk result (λ store. AllByRecursion (λ repo. repo.revision ≤ length entries.now) store) }
    ensures writes { OnOk result (AreWrites (strings entries.now)) }
    ensures damaged { (index : ℕ) → IsErrOf result (Damaged index) → IsDamaged (strings entries.now) index }
    ensures undamaged { (index : ℕ) → AreWrites (strings entries.now) → ¬ IsErrOf result (Damaged index) }
{
    let mut store = Store::empty(alloc);
    for (index, entry) in entries.iter().enumerate() {
        match add(alloc, &mut store, entry.as_slice()) {
            Ok(()) => {}
            Err(AddError::Memory) => return Err(StoredError::Memory),
            Err(AddError::NoWrite) => return Err(StoredError::Damaged { index }),
        }
    }
    Ok(store)
}

// The byte string that spells an orderly write.
fn payload_of(alloc: Global, write: &Write) -> Result<Bytes, AllocError>
    requires { IsOrderly write.now }
    ensures spells { IfOk result (λ payload. payload.bytes ≡ spelling write.now) }
    ensures read { IfOk result (λ payload. whole_write payload.bytes ≡ Some write.now) }
    ensures well_formed { OnOk result (IsWellFormed write.now) }
{
    has_texts(write);
    let payload = spell(alloc, write)?;
    Ok(payload)
}

// Why writes are not to come next.
#[derive(Debug, Drop)]
pub(crate) enum CheckError {
    Memory,
    // The one with this index is not permitted after those before it, by this cause.
    Refused { index: usize, cause: Refusal },
}

// The store behind some writes, and the byte strings that spell them.
#[derive(Drop)]
pub(crate) struct Tried {
    pub(crate) store: Store,
    pub(crate) payloads: List<Bytes>,
}

// What orderly writes make of this store, in which they are permitted in their turn, and the byte strings that spell them.
pub(crate) fn checked(alloc: Global, mut store: Store, list: &[Write]) -> Result<Tried, CheckError>
    requires sound { IsSoundStore store }
    requires few { length list.now < 4294967295 }
    requires revisions { AllByRecursion (λ repo. repo.revision + length list.now < 4294967295) store }
    requires orderly { AllByRecursion IsOrderly list.now }
    ensures spelled { IfOk result (λ made. IsSpelledBy (strings made.payloads) list.now) }
    ensures read { IfOk result (λ made. writes_in (strings made.payloads) ≡ list.now) }
    ensures store { IfOk result (λ made. made.store ≡ after list.now store) }
    ensures permitted { OnOk result (ArePermitted list.now store) }
    ensures refused { (index : ℕ) (cause : Cause) → IsErrOf result (Refused index cause) → IsFirstRefused list.now store index cause }
{
    let mut payloads = List::empty(alloc);
    for (index, write) in list.iter().enumerate() {
        match store.apply(alloc, write) {
            Ok(()) => {}
            Err(ApplyError::Memory) => return Err(CheckError::Memory),
            Err(ApplyError::Refused(cause)) => return Err(CheckError::Refused { index, cause }),
        }
        match payload_of(alloc, write) {
            Ok(payload) => match payloads.push(payload) {
                Ok(()) => {}
                Err(_) => return Err(CheckError::Memory),
            },
            Err(_) => return Err(CheckError::Memory),
        }
    }
    Ok(Tried { store, payloads })
}
