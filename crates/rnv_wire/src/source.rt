ghost use Rattle.std.specs.Prelude.{◌≡◌, ◌≤◌, ℕ, List, length, IfOk, OnErr};
ghost use Rattle.rnv_base.specs.Causes.{FailsBy};
ghost use Rattle.rnv_wire.specs.Wire.{Reads};

use rnv_base::Failed;

/// Where bytes come from.
pub trait Source {
    /// Whether it tells what is left.
    ghost tells: { Type 0 };

    /// The bytes that are left to read.
    ghost left: { Self → List ℕ };

    /// How often a call has failed.
    ghost faults: { Self → ℕ };

    /// Puts bytes at the front of the place and answers how many: 0 for a place that is not empty is
    /// the end. `Failed` only where the count of faults rose; then nothing was read.
    fn read(&mut self, into: &mut [u8]) -> Result<usize, Failed>
        ensures within { IfOk result (λ n. n ≤ length into.old) }
        ensures bytes { tells → IfOk result (λ n. Reads (left self.old) (left self.new) into.old into.new n) }
        ensures same { tells → OnErr result (left self.new ≡ left self.old) }
        ensures cause { FailsBy (faults self.old) (faults self.new) result };
}
