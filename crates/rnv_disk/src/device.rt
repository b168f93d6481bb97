ghost use Rattle.std.specs.Prelude.{◌≡◌, ◌≤◌, ℕ, length, take, IfOk, IsErrOf, OnOk};
ghost use Rattle.rnv_base.specs.Causes.{FailsBy, FaultsBy};
ghost use Rattle.rnv_disk.specs.Images.{Image, part, put, On, Torn, CutTo, Same};
ghost use Rattle.rnv_disk.specs.Stops.{Past, LeftNow, Elapses, IsDurable};
ghost use Rattle.rnv_disk.specs.declared.device.DiskError.TheVariants.{Failed as read_failed, Memory as no_memory};

use rnv_base::{Bytes, Failed};
use std::alloc::Global;

/// Which of a disk's two files.
#[derive(Clone, Copy, Debug, PartialEq, Eq)]
pub enum FileNo {
    /// The first file.
    Zero,
    /// The second file.
    One,
}

/// Why a disk gave no bytes.
#[derive(Clone, Copy, Debug, PartialEq, Eq)]
pub enum DiskError {
    /// A fault, which the disk has counted.
    Failed,
    /// Want of memory.
    Memory,
}

/// Two files, of which a stop at any moment leaves an image. Between two syncs of a file each
/// written range, and the part past the old end, may hold any bytes, and the part past the old end
/// may be missing from any place on. A cut that is not synced may or may not have happened, and the
/// bytes past its length may hold anything. Bytes outside stay. A call that fails leaves what a
/// stop within that call can leave: a read then gives one of the images.
pub trait Disk {
    /// Whether it tells what it holds.
    ghost tells: { Type 0 };

    /// What a read gives.
    ghost seen: { Self → Image };

    /// What stops may leave. Where the disk does not tell what it holds, no image.
    ghost past: { Self → Past };

    /// How often a call has failed.
    ghost faults: { Self → ℕ };

    /// All bytes of a file. Whatever it answers, what stops may leave stays; what a read gives stays
    /// unless the answer is `Failed`, and then it is one of the images. `Failed` only where the
    /// count of faults rose.
    fn read(&mut self, alloc: Global, file: FileNo) -> Result<Bytes, DiskError>
        ensures bytes { tells → IfOk result (λ b. b.bytes ≡ part file (seen self.old)) }
        ensures same { tells → OnOk result (seen self.new ≡ seen self.old) }
        ensures memory { tells → IsErrOf result no_memory → seen self.new ≡ seen self.old }
        ensures stops { Elapses Same (past self.old) (past self.new) }
        ensures images { (c : Image) → LeftNow (past self.old) c → LeftNow (past self.new) c }
        ensures cause { FaultsBy (faults self.old) (faults self.new) result read_failed };

    /// Writes bytes over those from an offset on, and past the end. The offset is at most the
    /// file's length. `Failed` only where the count of faults rose; then any of it may have
    /// happened.
    fn write_at(&mut self, file: FileNo, at: u64, bytes: &[u8]) -> Result<(), Failed>
        requires { tells → at ≤ length (part file (seen self.old)) }
        ensures written { tells → OnOk result (On file (λ old new. new ≡ put at bytes.now old) (seen self.old) (seen self.new)) }
        ensures stops { Elapses (On file (Torn at (length bytes.now))) (past self.old) (past self.new) }
        ensures cause { FailsBy (faults self.old) (faults self.new) result };

    /// Cuts a file to a length; one that is shorter stays. `Failed` only where the count of faults
    /// rose; then it may or may not have happened.
    fn cut(&mut self, file: FileNo, length: u64) -> Result<(), Failed>
        ensures cut { tells → OnOk result (On file (λ old new. new ≡ take length old) (seen self.old) (seen self.new)) }
        ensures stops { Elapses (On file (CutTo length)) (past self.old) (past self.new) }
        ensures cause { FailsBy (faults self.old) (faults self.new) result };

    /// After it, a stop leaves of this file what a read gives. `Failed` only where the count of
    /// faults rose; then a stop leaves what it could have left before.
    fn sync(&mut self, file: FileNo) -> Result<(), Failed>
        ensures durable { OnOk result (IsDurable file (past self.new) (part file (seen self.old))) }
        ensures same { tells → OnOk result (seen self.new ≡ seen self.old) }
        ensures stops { Elapses Same (past self.old) (past self.new) }
        ensures cause { FailsBy (faults self.old) (faults self.new) result };

    /// A disk as it reads is one of its images.
    ghost reads_now: { (disk : Self) → tells → LeftNow (past disk) (seen disk) };

    /// Images are told only where the disk tells what it holds.
    ghost only_told: { (disk : Self) (t : ℕ) (c : Image) → (past disk).left t c → tells };
}
