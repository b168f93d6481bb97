ghost use Rattle.std.specs.Prelude.{◌≡◌, ◌≤◌, ℕ, List, length, IfOk, OnOk};
ghost use Rattle.rnv_base.specs.Causes.{FailsBy, FaultsBy};
ghost use Rattle.rnv_disk.specs.declared.device.FileNo.TheVariants.{Zero};
ghost use Rattle.rnv_disk.specs.declared.device.DiskError.TheVariants.{Failed as read_failed};
ghost use Rattle.rnv_disk.specs.Images.{put, On};
ghost use Rattle.rnv_disk.specs.Stops.{LeftNow, IsDurable, LeavesOnly};
ghost use Rattle.rnv_journal.specs.Readings.{IsTornFrom, KeepsOne};

use rnv_base::{Bytes, Failed};
use rnv_disk::{Disk, DiskError, FileNo};
use std::alloc::Global;

// Writes bytes into file `Zero` from an offset on, and then syncs the file.
pub(crate) fn write_synced<D: Disk>(disk: &mut D, at: u64, bytes: &[u8]) -> Result<(), Failed>
    requires { D.tells → at ≤ length (D.seen disk.old).zero }
    ensures written { D.tells → OnOk result (On Zero (λ old new. new ≡ put at bytes.now old) (D.seen disk.old) (D.seen disk.new)) }
    ensures durable { OnOk result (IsDurable Zero (D.past disk.new) (put at bytes.now (D.seen disk.old).zero)) }
    ensures kept { OnOk result ((file : List ℕ) → IsDurable Zero (D.past disk.old) file → IsDurable Zero (D.past disk.new) (put at bytes.now file)) }
    ensures stops { LeavesOnly (D.past disk.old) (D.past disk.new) (IsTornFrom (D.past disk.old) at (length bytes.now)) }
    ensures other { KeepsOne (D.past disk.old) (D.past disk.new) }
    ensures cause { FailsBy (D.faults disk.old) (D.faults disk.new) result }
{
    disk.write_at(FileNo::Zero, at, bytes)?;
    disk.sync(FileNo::Zero)
}

// Syncs file `Zero` and reads it.
pub(crate) fn read_synced<D: Disk>(alloc: Global, disk: &mut D) -> Result<Bytes, DiskError>
    ensures bytes { D.tells → IfOk result (λ b. b.bytes ≡ (D.seen disk.old).zero) }
    ensures same { D.tells → OnOk result (D.seen disk.new ≡ D.seen disk.old) }
    ensures durable { IfOk result (λ b. IsDurable Zero (D.past disk.new) b.bytes) }
    ensures stops { LeavesOnly (D.past disk.old) (D.past disk.new) (LeftNow (D.past disk.old)) }
    ensures other { KeepsOne (D.past disk.old) (D.past disk.new) }
    ensures cause { FaultsBy (D.faults disk.old) (D.faults disk.new) result read_failed }
{
    match disk.sync(FileNo::Zero) {
        Ok(()) => disk.read(alloc, FileNo::Zero),
        Err(_) => Err(DiskError::Failed),
    }
}
