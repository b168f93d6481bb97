ghost use Rattle.std.specs.Prelude.{◌≡◌, ◌≤◌, ◌++◌, ℕ, length, take, OnOk, OnErr};
ghost use Rattle.rnv_base.specs.Causes.{FailsBy};

use crate::{Failed, Sink};

/// Writes all the bytes. `Failed` only where the sink's count of faults rose, and then a front part
/// of the bytes is written. Takes no memory.
pub fn write_all<K: Sink>(sink: &mut K, bytes: &[u8]) -> Result<(), Failed>
    ensures written { K.tells → OnOk result (K.held sink.new ≡ K.held sink.old ++ bytes.now) }
    ensures part { K.tells → OnErr result ((n : ℕ) × (n ≤ length bytes.now) × (K.held sink.new ≡ K.held sink.old ++ take n bytes.now)) }
    ensures cause { FailsBy (K.faults sink.old) (K.faults sink.new) result }
{
    let mut at = 0;
    while at < bytes.len() {
        at += sink.write(&bytes[at..])?;
    }
    Ok(())
}
