ghost use Rattle.std.specs.Prelude.{◌≡◌, ◌⊎◌, ◌+◌, ◌<◌, ◌≤◌, ◌++◌, [], length, take, vec_len, vec_capacity, IfOk, OnErr, IsErr};
ghost use Rattle.rnv_base.specs.Causes.{FailsBy};
ghost use Rattle.rnv_base.specs.Turns.{IsListed, first_turn, next_turn};

use crate::{Failed, Failing, List, Sink};
use std::alloc::Global;

/// Bytes in memory. The calls whose numbers, from 0, are listed fail, and so does one whose growth
/// is refused.
#[derive(Drop)]
pub struct MemSink {
    bytes: Vec<u8>,
    failing: Failing,
    faults: u64,
}

impl MemSink {
    /// An empty sink whose calls with these numbers fail.
    pub fn new(alloc: Global, failing: List<u64>) -> MemSink
        ensures empty { ⟦<MemSink as Sink>⟧.held result ≡ [] }
        ensures unfailed { ⟦<MemSink as Sink>⟧.faults result ≡ 0 }
        ensures failing { result.failing ≡ first_turn failing }
    {
        MemSink {
            bytes: Vec::new(alloc),
            failing: Failing::new(failing),
            faults: 0,
        }
    }

    /// The bytes that it has taken.
    pub fn bytes(&self) -> &[u8]
        ensures { result.now ≡ ⟦<MemSink as Sink>⟧.held self.now }
    {
        &self.bytes
    }
}

impl Sink for MemSink {
    ghost tells = { Unit {0} };

    ghost held = { λ s. s.bytes.items };

    ghost faults = { λ s. s.faults };

    /// Takes all the bytes, or fails where the call is listed or its growth is refused.
    fn write(&mut self, bytes: &[u8]) -> Result<usize, Failed>
        ensures within { IfOk result (λ n. n ≤ length bytes.now) }
        ensures some { IfOk result (λ n. 0 < length bytes.now → 0 < n) }
        ensures bytes { IfOk result (λ n. self.new.bytes.items ≡ self.old.bytes.items ++ take n bytes.now) }
        ensures same { OnErr result (self.new.bytes.items ≡ self.old.bytes.items) }
        ensures cause { FailsBy self.old.faults self.new.faults result }
        ensures whole { IfOk result (λ n. n ≡ length bytes.now) }
        ensures listed { IsListed self.old.failing → IsErr result }
        ensures failed { OnErr result (IsListed self.old.failing ⊎ (vec_capacity self.old.bytes < vec_len self.old.bytes + length bytes.now)) }
        ensures turn { self.new.failing ≡ next_turn self.old.failing }
    {
        if self.failing.strikes() || self.bytes.extend_from_slice(bytes).is_err() {
            self.faults = self.faults.saturating_add(1);
            return Err(Failed);
        }
        Ok(bytes.len())
    }
}
