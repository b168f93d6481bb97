ghost use Rattle.std.specs.Prelude.{◌≡◌, ◌⊎◌, ◌+◌, ◌<◌, ◌≤◌, ℕ, List, [], ◌∷◌, ◌++◌, length, OnOk};
ghost use Rattle.rnv_base.specs.Causes.{FailsBy};
ghost use Rattle.rnv_disk.specs.Stops.{LeftNow};
ghost use Rattle.rnv_journal.specs.File.{end_of, counted};
ghost use Rattle.rnv_journal.specs.Readings.{KeepsOne, ReadsOnly, IsAtRest, IsNext};

use crate::writing::write_synced;
use rnv_base::Failed;
use rnv_disk::Disk;

// Writes an entry and a closed gate behind the gate at this offset, and then opens that gate.
pub(crate) fn append_line<D: Disk>(disk: &mut D, end: u64, line: &[u8]) -> Result<(), Failed>
    requires small { end < 4294967295 }
    requires place { D.tells → end + 1 ≤ length (D.seen disk.old).zero }
    ensures any_moment { (limit : ℕ) (list : List (List ℕ)) (payload : List ℕ) → IsNext limit list payload end line.now → IsAtRest limit (D.past disk.old) list
        → ReadsOnly limit (D.past disk.old) (D.past disk.new) (λ reading. (reading ≡ list) ⊎ (reading ≡ list ++ payload ∷ [])) }
    ensures at_rest { OnOk result ((limit : ℕ) (list : List (List ℕ)) (payload : List ℕ) → IsNext limit list payload end line.now → IsAtRest limit (D.past disk.old) list
        → IsAtRest limit (D.past disk.new) (list ++ payload ∷ [])) }
    ensures other { KeepsOne (D.past disk.old) (D.past disk.new) }
    ensures cause { FailsBy (D.faults disk.old) (D.faults disk.new) result }
{
    write_synced(disk, end + 1, line)?;
    write_synced(disk, end, &[1])
}
