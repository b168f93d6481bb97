ghost use Rattle.std.specs.Prelude.{◌≡◌, ◌<◌, ◌≤◌, ◌++◌, ℕ, List, length, take, IfOk, OnErr};
ghost use Rattle.rnv_base.specs.Causes.{FailsBy};

use crate::Failed;

/// Where bytes go.
pub trait Sink {
    /// Whether it tells what it holds.
    ghost tells: { Type 0 };

    /// The bytes that it has taken.
    ghost held: { Self → List ℕ };

    /// How often a call has failed.
    ghost faults: { Self → ℕ };

    /// Takes a front part of the bytes, at least one byte of a piece that is not empty, and answers
    /// how many. `Failed` only where the count of faults rose; then nothing was taken.
    fn write(&mut self, bytes: &[u8]) -> Result<usize, Failed>
        ensures within { IfOk result (λ n. n ≤ length bytes.now) }
        ensures some { IfOk result (λ n. 0 < length bytes.now → 0 < n) }
        ensures bytes { tells → IfOk result (λ n. held self.new ≡ held self.old ++ take n bytes.now) }
        ensures same { tells → OnErr result (held self.new ≡ held self.old) }
        ensures cause { FailsBy (faults self.old) (faults self.new) result };
}
