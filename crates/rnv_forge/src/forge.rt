ghost use Rattle.std.specs.Prelude.{◌≡◌, ◌≢◌, ◌≤◌, ◌↔◌, ◌+◌, ◌++◌, ◌∷◌, ℕ, Bool, true, false, List as Items, [], drop, map, take, IfOk, IsErrOf, OnErr, OnOk};
ghost use Rattle.std.specs.List.{AllByRecursion};
ghost use Rattle.rnv_base.specs.Causes.{FaultsBy};
ghost use Rattle.rnv_disk.specs.Stops.{Past};
ghost use Rattle.rnv_repo.specs.declared.refusal.Refusal.{Refusal as Cause};
ghost use Rattle.rnv_repo.specs.declared.write.Write.{Write as Change};
ghost use Rattle.rnv_repo.specs.Bounded.{IsBounded};
ghost use Rattle.rnv_repo.specs.Store.{ArePermitted, IsSoundStore, after, known};
ghost use Rattle.rnv_repo.specs.WellFormed.{IsOrderly, IsWellFormed};
ghost use Rattle.rnv_journal.specs.Readings.{IsAtRest, KeepsOne};
ghost use Rattle.rnv_spelling.specs.Spelling.{spelling};
ghost use Rattle.rnv_forge.specs.declared.forge.ForgePrepareError.TheVariants.{Full, Refused};
ghost use Rattle.rnv_forge.specs.declared.forge.WriteError.TheVariants.{Closed as write_closed, DiskFault};
ghost use Rattle.rnv_forge.specs.Forge.{IsOldOrNext, IsOverfull, IsSamePast, LeavesWrites};
ghost use Rattle.rnv_forge.specs.Refused.{IsFirstRefused};
ghost use Rattle.rnv_forge.specs.Writes.{entry_length, length_of};

use rnv_base::{List, Text};
use rnv_repo::{Refusal, Repo, Write};
use std::alloc::{AllocError, Global};

/// Why no writes were prepared.
#[derive(Debug, Drop, PartialEq, Eq)]
pub enum ForgePrepareError {
    /// A fault of the disk has closed the forge.
    Closed,
    /// The write with this index is not permitted after those before it.
    Refused {
        /// The index of the first such write.
        index: usize,
        /// The first cause.
        cause: Refusal,
    },
    /// The journal would be longer than its limit.
    Full {
        /// The length after all of the writes, or 18446744073709551615 where it is greater.
        length: u64,
        /// The limit.
        limit: u64,
    },
    /// Want of memory.
    Memory,
}

/// Why the next write was not done, or maybe not.
#[derive(Clone, Copy, Debug, PartialEq, Eq)]
pub enum WriteError {
    /// A fault of the disk, which it has counted. The forge is closed, and a new start tells whether
    /// the write was done.
    DiskFault,
    /// An earlier fault of the disk has closed the forge. Nothing was done.
    Closed,
}

/// Repositories as a list of writes that survives a stop at any moment. What holds of a forge after
/// its start is kept by each call.
pub trait Forge {
    /// The writes that stand, in order.
    ghost writes: { Self → Items Change };

    /// The writes that are prepared to come next, in order.
    ghost prepared: { Self → Items Change };

    /// Whether a fault of the disk has closed it.
    ghost closed: { Self → Bool };

    /// How often a call of its disk has failed.
    ghost faults: { Self → ℕ };

    /// The length of its journal in bytes.
    ghost length: { Self → ℕ };

    /// The greatest length of its journal.
    ghost limit: { Self → ℕ };

    /// What stops may leave of its disk. Where that is not told, and without a disk, no image.
    ghost past: { Self → Past };

    /// What a start leaves and each call keeps.
    ghost holds: { Self → Type 0 };

    /// The names of the repositories, in order. Only memory can fail.
    fn names(&self, alloc: Global) -> Result<List<Text>, AllocError>
        requires { holds self.now }
        ensures { IfOk result (λ names. names ≡ map (λ repo. repo.name) (after (writes self.now) [])) };

    /// The repository of this name, or None exactly where there is none. Only memory can fail.
    fn repo(&self, alloc: Global, name: &Text) -> Result<Option<Repo>, AllocError>
        requires { holds self.now }
        ensures { IfOk result (λ repo. repo ≡ known name.now (after (writes self.now) [])) };

    /// Makes these orderly writes the ones that come next, in order, in place of those that were
    /// prepared before, and the room for them, so that `write_next` takes no memory. `Closed` exactly
    /// after a fault of the disk in a `write_next`; then `Refused` exactly for the first write that is
    /// not permitted after those before it; then `Full` exactly where the journal would be longer
    /// than its limit; `Memory`. After a refusal nothing is prepared. Nothing else of the forge changes,
    /// nor what a stop may have left.
    fn prepare(&mut self, alloc: Global, list: List<Write>) -> Result<(), ForgePrepareError>
        requires holds { holds self.old }
        requires orderly { AllByRecursion IsOrderly list }
        ensures holds { holds self.new }
        ensures any_moment { closed self.old ≡ false → LeavesWrites (limit self.old) (past self.old) (past self.new) (λ ws. ws ≡ writes self.old) }
        ensures past { IsSamePast (past self.old) (past self.new) }
        ensures ok { OnOk result (prepared self.new ≡ list) }
        ensures err { OnErr result (prepared self.new ≡ []) }
        ensures writes { writes self.new ≡ writes self.old }
        ensures stays { closed self.new ≡ closed self.old }
        ensures length { length self.new ≡ length self.old }
        ensures limit { limit self.new ≡ limit self.old }
        ensures faults { faults self.new ≡ faults self.old }
        ensures permitted { OnOk result (ArePermitted list (after (writes self.old) [])) }
        ensures within { OnOk result (length_of (writes self.old ++ list) ≤ limit self.old) }
        ensures closed { IsErrOf result ForgePrepareError.Closed ↔ (closed self.old ≡ true) }
        ensures refused { (index : ℕ) (cause : Cause) → IsErrOf result (Refused index cause) → IsFirstRefused list (after (writes self.old) []) index cause }
        ensures full { (length most : ℕ) → IsErrOf result (Full length most) → IsOverfull (writes self.old) list (limit self.old) length most };

    /// Does the next prepared write. Something is prepared. A stop at any moment leaves the writes as
    /// they were, or those and that one; takes no memory. `DiskFault` only where the disk counted a
    /// fault, and from then on the forge is closed, and only a new start is of use; `Closed` exactly
    /// after such a fault.
    fn write_next(&mut self) -> Result<(), WriteError>
        requires holds { holds self.old }
        requires prepared { prepared self.old ≢ [] }
        ensures holds { holds self.new }
        ensures any_moment { closed self.old ≡ false → LeavesWrites (limit self.old) (past self.old) (past self.new) (IsOldOrNext (writes self.old) (prepared self.old)) }
        // File `One` is left alone.
        ensures other { KeepsOne (past self.old) (past self.new) }
        ensures ok { OnOk result (writes self.new ≡ writes self.old ++ take 1 (prepared self.old)) }
        ensures next { OnOk result (prepared self.new ≡ drop 1 (prepared self.old)) }
        ensures err { OnErr result (writes self.new ≡ writes self.old) }
        ensures stays { OnErr result (prepared self.new ≡ prepared self.old) }
        ensures opened { OnOk result (closed self.new ≡ false) }
        ensures closes { OnErr result (closed self.new ≡ true) }
        ensures longer { OnOk result ((w : Change) (ws : Items Change) → prepared self.old ≡ w ∷ ws → length self.new ≡ length self.old + entry_length w) }
        ensures as_long { OnErr result (length self.new ≡ length self.old) }
        ensures limit { limit self.new ≡ limit self.old }
        ensures closed { IsErrOf result write_closed ↔ (closed self.old ≡ true) }
        ensures idle { closed self.old ≡ true → self.new ≡ self.old }
        ensures cause { FaultsBy (faults self.old) (faults self.new) result DiskFault };

    /// The writes that stand and those that are prepared are well-formed.
    ghost well_formed: { (f : Self) → holds f → AllByRecursion IsWellFormed (writes f ++ prepared f) };

    /// They are permitted in their turn, from the empty store on.
    ghost permitted: { (f : Self) → holds f → ArePermitted (writes f ++ prepared f) [] };

    /// The length is that of a journal without entries, and for each write that stands 5 bytes and its spelling.
    ghost measured: { (f : Self) → holds f → length f ≡ length_of (writes f) };

    /// It is at most the limit.
    ghost no_longer: { (f : Self) → holds f → length f ≤ limit f };

    /// With those that are prepared it is within the limit too.
    ghost within: { (f : Self) → holds f → length_of (writes f ++ prepared f) ≤ limit f };

    /// Its limit is at most 4294967295.
    ghost small: { (f : Self) → holds f → limit f ≤ 4294967295 };

    /// The repositories that the writes make are sound.
    ghost sound: { (f : Self) → holds f → IsSoundStore (after (writes f) []) };

    /// Their revisions are below 4294967295, and the numbers of their requests below 2147483648.
    ghost bounded: { (f : Self) → holds f → AllByRecursion IsBounded (after (writes f) []) };

    /// Unless it is closed, a stop leaves the writes that stand.
    ghost at_rest: { (f : Self) → holds f → closed f ≡ false → IsAtRest (limit f) (past f) (map spelling (writes f)) };
}
