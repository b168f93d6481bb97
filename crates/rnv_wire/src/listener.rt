ghost use Rattle.std.specs.Prelude.{◌≡◌, ◌<◌, ◌≤◌, ℕ, length, take, IfOk, OnOk, OnErr};
ghost use Rattle.rnv_base.specs.Causes.{FailsBy};
ghost use Rattle.rnv_wire.specs.Wire.{Wire as Content, ReadsOn, accepted, finished, gives};

use rnv_base::Failed;

/// One connection after another. The accepts, and the reads and writes, have a count of faults each:
/// a call answers `Failed` only where its own count rose, and leaves the other as it was.
pub trait Listener {
    /// Whether it tells what it gives and has taken.
    ghost tells: { Type 0 };

    /// What the connections give, and what was written to them.
    ghost wire: { Self → Content };

    /// How often an accept has failed.
    ghost accept_faults: { Self → ℕ };

    /// How often a read or a write has failed.
    ghost faults: { Self → ℕ };

    /// Waits for the next connection, which then stands in place of the one before. `Failed` only
    /// where the count of the accepts rose; then the one before stands.
    fn accept(&mut self) -> Result<(), Failed>
        ensures next { tells → OnOk result (wire self.new ≡ accepted (wire self.old)) }
        ensures same { tells → OnErr result (wire self.new ≡ wire self.old) }
        ensures cause { FailsBy (accept_faults self.old) (accept_faults self.new) result }
        ensures well { OnOk result (accept_faults self.new ≡ accept_faults self.old) }
        ensures other { faults self.new ≡ faults self.old };

    /// Puts bytes of the connection at the front of the place and answers how many: 0 for a place that
    /// is not empty is its end. `Failed` only where the count of reads and writes rose; then nothing
    /// was read.
    fn read(&mut self, into: &mut [u8]) -> Result<usize, Failed>
        ensures within { IfOk result (λ n. n ≤ length into.old) }
        ensures bytes { tells → IfOk result (λ n. ReadsOn (wire self.old) (wire self.new) into.old into.new n) }
        ensures same { tells → OnErr result (wire self.new ≡ wire self.old) }
        ensures cause { FailsBy (faults self.old) (faults self.new) result }
        ensures well { OnOk result (faults self.new ≡ faults self.old) }
        ensures other { accept_faults self.new ≡ accept_faults self.old };

    /// Writes a front part of the bytes to the connection, at least one byte of a piece that is not
    /// empty, and answers how many. `Failed` only where the count of reads and writes rose; then
    /// nothing was written.
    fn write(&mut self, bytes: &[u8]) -> Result<usize, Failed>
        ensures within { IfOk result (λ n. n ≤ length bytes.now) }
        ensures some { IfOk result (λ n. 0 < length bytes.now → 0 < n) }
        ensures bytes { tells → IfOk result (λ n. wire self.new ≡ gives (take n bytes.now) (wire self.old)) }
        ensures same { tells → OnErr result (wire self.new ≡ wire self.old) }
        ensures cause { FailsBy (faults self.old) (faults self.new) result }
        ensures well { OnOk result (faults self.new ≡ faults self.old) }
        ensures other { accept_faults self.new ≡ accept_faults self.old };

    /// Ends the connection, which then gives no more. It cannot fail.
    fn finish(&mut self)
        ensures ended { tells → (wire self.new ≡ finished (wire self.old)) }
        ensures accepts { accept_faults self.new ≡ accept_faults self.old }
        ensures streams { faults self.new ≡ faults self.old };
}
