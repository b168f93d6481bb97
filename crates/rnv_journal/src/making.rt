ghost use Rattle.std.specs.Prelude.{◌≡◌, ◌≤◌, ℕ, List, [], ◌∷◌, length, take, IsTrue, ◌↔◌, OnOk};
ghost use Rattle.rnv_base.specs.Causes.{FailsBy};
ghost use Rattle.rnv_disk.specs.declared.device.FileNo.TheVariants.{Zero};
ghost use Rattle.rnv_disk.specs.Stops.{IsDurable};
ghost use Rattle.rnv_journal.specs.File.{end_of, IsBegun, IsInMaking};
ghost use Rattle.rnv_journal.specs.Readings.{KeepsOne, KeepsReadings, IsAtRest, IsOneImage};

use crate::head::MADE;
use crate::writing::write_synced;
use rnv_base::Failed;
use rnv_disk::Disk;

// Makes a file of which these bytes are read, so that it has no entries.
pub(crate) fn make<D: Disk>(disk: &mut D, bytes: &[u8]) -> Result<(), Failed>
    requires bytes { D.tells → (D.seen disk.old).zero ≡ bytes.now }
    requires durable { IsDurable Zero (D.past disk.old) bytes.now }
    requires making { IsInMaking bytes.now }
    ensures any_moment { (limit : ℕ) → 14 ≤ limit → KeepsReadings limit (D.past disk.old) (D.past disk.new) }
    ensures at_rest { OnOk result ((limit : ℕ) → 14 ≤ limit → IsAtRest limit (D.past disk.new) []) }
    ensures other { KeepsOne (D.past disk.old) (D.past disk.new) }
    ensures cause { FailsBy (D.faults disk.old) (D.faults disk.new) result }
{
    begin(disk, bytes)?;
    fill(disk)
}

fn starts_with_zero(bytes: &[u8]) -> bool
    ensures { IsTrue result ↔ (take 1 bytes.now ≡ 0 ∷ []) }
{
    match bytes {
        [] => false,
        [first, ..] => *first == 0,
    }
}

// The first step: the byte 0 at the front, unless it is there.
fn begin<D: Disk>(disk: &mut D, bytes: &[u8]) -> Result<(), Failed>
    requires bytes { D.tells → (D.seen disk.old).zero ≡ bytes.now }
    requires durable { IsDurable Zero (D.past disk.old) bytes.now }
    requires making { IsInMaking bytes.now }
    ensures any_moment { (limit : ℕ) → 14 ≤ limit → KeepsReadings limit (D.past disk.old) (D.past disk.new) }
    ensures seen { D.tells → OnOk result (IsBegun (D.seen disk.new).zero) }
    ensures begun { OnOk result ((file : List ℕ) × IsBegun file × IsDurable Zero (D.past disk.new) file) }
    ensures other { KeepsOne (D.past disk.old) (D.past disk.new) }
    ensures cause { FailsBy (D.faults disk.old) (D.faults disk.new) result }
{
    if starts_with_zero(bytes) {
        return Ok(());
    }
    write_synced(disk, 0, &[0])
}

// The other two steps: what stands behind the first byte, and then 1 for that byte.
fn fill<D: Disk>(disk: &mut D) -> Result<(), Failed>
    requires seen { D.tells → IsBegun (D.seen disk.old).zero }
    requires begun { (file : List ℕ) × IsBegun file × IsDurable Zero (D.past disk.old) file }
    ensures any_moment { (limit : ℕ) → 14 ≤ limit → KeepsReadings limit (D.past disk.old) (D.past disk.new) }
    ensures at_rest { OnOk result ((limit : ℕ) → 14 ≤ limit → IsAtRest limit (D.past disk.new) []) }
    ensures other { KeepsOne (D.past disk.old) (D.past disk.new) }
    ensures cause { FailsBy (D.faults disk.old) (D.faults disk.new) result }
{
    write_synced(disk, 1, MADE.as_slice())?;
    write_synced(disk, 0, &[1])
}

// Closes the gate at the end of the entries, if it is torn.
pub(crate) fn close<D: Disk>(disk: &mut D, end: u64, gate: u8) -> Result<(), Failed>
    requires place { D.tells → end ≤ length (D.seen disk.old).zero }
    ensures any_moment { (limit : ℕ) (list : List (List ℕ)) → end ≡ end_of list → IsOneImage limit (D.past disk.old) list gate
        → KeepsReadings limit (D.past disk.old) (D.past disk.new) }
    ensures at_rest { OnOk result ((limit : ℕ) (list : List (List ℕ)) → end ≡ end_of list → IsOneImage limit (D.past disk.old) list gate
        → IsAtRest limit (D.past disk.new) list) }
    ensures other { KeepsOne (D.past disk.old) (D.past disk.new) }
    ensures cause { FailsBy (D.faults disk.old) (D.faults disk.new) result }
{
    if gate == 0 {
        return Ok(());
    }
    write_synced(disk, end, &[0])
}
