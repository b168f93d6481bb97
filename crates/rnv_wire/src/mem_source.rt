ghost use Rattle.std.specs.Prelude.{◌≡◌, ◌≤◌, ◌↔◌, length, min, IfOk, IsErr, OnOk, OnErr};
ghost use Rattle.rnv_base.specs.Causes.{FailsBy};
ghost use Rattle.rnv_base.specs.Turns.{IsListed, first_turn, next_turn};
ghost use Rattle.rnv_wire.specs.Wire.{Reads};

use crate::Source;
use rnv_base::{Bytes, Failed, Failing, List};
use std::marker::Model;

/// Bytes in memory. The calls whose numbers, from 0, are listed fail, and no other.
#[derive(Drop)]
pub struct MemSource {
    bytes: Vec<u8>,
    at: usize,
    failing: Failing,
    faults: u64,
}

impl Model for MemSource {
    ghost use Rattle.std.specs.Prelude.{◌≤◌, drop, length};
    ghost use Rattle.rnv_wire.specs.Fakes.{FakeSource};

    ghost Value = { FakeSource };

    ghost view = { λ s. record { left = drop s.at s.bytes.items; turns = s.failing; faults = s.faults } };

    ghost invariant = { λ s. s.at ≤ length s.bytes.items };
}

impl MemSource {
    /// A source of these bytes whose calls with these numbers fail.
    pub fn new(bytes: Bytes, failing: List<u64>) -> MemSource
        ensures { result ≡ record { left = bytes.bytes; turns = first_turn failing; faults = 0 } }
    {
        MemSource {
            bytes: bytes.into_inner(),
            at: 0,
            failing: Failing::new(failing),
            faults: 0,
        }
    }
}

impl Source for MemSource {
    ghost tells = { Unit {0} };

    ghost left = { λ s. s.left };

    ghost faults = { λ s. s.faults };

    /// Gives as many bytes as the place takes, and fails exactly where the call is listed.
    fn read(&mut self, into: &mut [u8]) -> Result<usize, Failed>
        ensures within { IfOk result (λ n. n ≤ length into.old) }
        ensures bytes { IfOk result (λ n. Reads self.old.left self.new.left into.old into.new n) }
        ensures same { OnErr result (self.new.left ≡ self.old.left) }
        ensures cause { FailsBy self.old.faults self.new.faults result }
        ensures well { OnOk result (self.new.faults ≡ self.old.faults) }
        ensures count { IfOk result (λ n. n ≡ min (length into.old) (length self.old.left)) }
        ensures listed { IsErr result ↔ IsListed self.old.turns }
        ensures turn { self.new.turns ≡ next_turn self.old.turns }
    {
        if self.failing.strikes() {
            self.faults = self.faults.saturating_add(1);
            return Err(Failed);
        }
        let left = &self.bytes[self.at..];
        let count = into.len().min(left.len());
        into[..count].copy_from_slice(&left[..count]);
        self.at += count;
        Ok(count)
    }
}
