ghost use Rattle.std.specs.Prelude.{◌≡◌, ◌⊎◌, ◌<◌, ◌≤◌, ◌+◌, ◌↔◌, [], length, map, min, take, IfOk, IsErr, IsTrue, OnOk, OnErr};
ghost use Rattle.rnv_base.specs.Causes.{FailsBy};
ghost use Rattle.rnv_base.specs.Turns.{IsListed, first_turn, next_turn};
ghost use Rattle.rnv_wire.specs.Wire.{ReadsOn, accepted, answers, finished, gives};

use crate::Listener;
use crate::connections::Connections;
use rnv_base::{Bytes, Failed, Failing, List};
use std::alloc::Global;
use std::collections::VecDeque;
use std::marker::Model;

/// Connections in memory, each with the bytes that it gives; when none is left, each gives nothing.
/// The calls of `accept`, `read` and `write` whose numbers, from 0, are listed fail, and so does one
/// whose growth is refused.
#[derive(Drop)]
pub struct MemListener {
    connections: Connections,
    failing: Failing,
}

impl Model for MemListener {
    ghost use Rattle.rnv_wire.specs.Fakes.{FailingListener};

    ghost Value = { FailingListener };

    ghost view = { λ m. record { listener = m.connections; turns = m.failing } };
}

impl MemListener {
    /// A listener of these connections whose calls with these numbers fail.
    pub fn new(alloc: Global, coming: VecDeque<Bytes>, failing: List<u64>) -> MemListener
        ensures coming { result.listener.wire.coming ≡ map (λ b. b.bytes) coming.items }
        ensures silent { answers result.listener.wire ≡ [] }
        ensures accepts { result.listener.accept_faults ≡ 0 }
        ensures streams { result.listener.faults ≡ 0 }
        ensures turns { result.turns ≡ first_turn failing }
    {
        MemListener {
            connections: Connections::new(alloc, coming),
            failing: Failing::new(failing),
        }
    }

    /// What was written to the connection that stands.
    pub fn given(&self) -> &[u8]
        ensures { result.now ≡ self.now.listener.wire.given }
    {
        self.connections.given()
    }

    /// What was written to the connections before it.
    pub fn earlier(&self) -> &[Bytes]
        ensures { map (λ b. b.bytes) result.now ≡ self.now.listener.wire.earlier }
    {
        self.connections.earlier()
    }
}

impl Listener for MemListener {
    ghost tells = { Unit {0} };

    ghost wire = { λ m. m.listener.wire };

    ghost accept_faults = { λ m. m.listener.accept_faults };

    ghost faults = { λ m. m.listener.faults };

    /// Fails where the call is listed, or what was written to the connection before can't be kept.
    fn accept(&mut self) -> Result<(), Failed>
        ensures next { OnOk result (self.new.listener.wire ≡ accepted self.old.listener.wire) }
        ensures same { OnErr result (self.new.listener.wire ≡ self.old.listener.wire) }
        ensures cause { FailsBy self.old.listener.accept_faults self.new.listener.accept_faults result }
        ensures well { OnOk result (self.new.listener.accept_faults ≡ self.old.listener.accept_faults) }
        ensures other { self.new.listener.faults ≡ self.old.listener.faults }
        ensures listed { IsListed self.old.turns → IsErr result }
        ensures failed { OnErr result (IsListed self.old.turns ⊎ IsTrue self.old.listener.wire.stands) }
        ensures turn { self.new.turns ≡ next_turn self.old.turns }
    {
        if self.failing.strikes() {
            self.connections.refuse_accept();
            return Err(Failed);
        }
        self.connections.accept()
    }

    /// Gives as many bytes as the place takes, and fails exactly where the call is listed.
    fn read(&mut self, into: &mut [u8]) -> Result<usize, Failed>
        ensures within { IfOk result (λ n. n ≤ length into.old) }
        ensures bytes { IfOk result (λ n. ReadsOn self.old.listener.wire self.new.listener.wire into.old into.new n) }
        ensures same { OnErr result (self.new.listener.wire ≡ self.old.listener.wire) }
        ensures cause { FailsBy self.old.listener.faults self.new.listener.faults result }
        ensures well { OnOk result (self.new.listener.faults ≡ self.old.listener.faults) }
        ensures other { self.new.listener.accept_faults ≡ self.old.listener.accept_faults }
        ensures count { IfOk result (λ n. n ≡ min (length into.old) (length self.old.listener.wire.left)) }
        ensures listed { IsErr result ↔ IsListed self.old.turns }
        ensures turn { self.new.turns ≡ next_turn self.old.turns }
    {
        if self.failing.strikes() {
            self.connections.refuse();
            return Err(Failed);
        }
        Ok(self.connections.read(into))
    }

    /// Takes all the bytes, or fails where the call is listed or its growth is refused.
    fn write(&mut self, bytes: &[u8]) -> Result<usize, Failed>
        ensures within { IfOk result (λ n. n ≤ length bytes.now) }
        ensures some { IfOk result (λ n. 0 < length bytes.now → 0 < n) }
        ensures bytes { IfOk result (λ n. self.new.listener.wire ≡ gives (take n bytes.now) self.old.listener.wire) }
        ensures same { OnErr result (self.new.listener.wire ≡ self.old.listener.wire) }
        ensures cause { FailsBy self.old.listener.faults self.new.listener.faults result }
        ensures well { OnOk result (self.new.listener.faults ≡ self.old.listener.faults) }
        ensures other { self.new.listener.accept_faults ≡ self.old.listener.accept_faults }
        ensures whole { IfOk result (λ n. n ≡ length bytes.now) }
        ensures listed { IsListed self.old.turns → IsErr result }
        ensures failed { OnErr result (IsListed self.old.turns ⊎ (self.old.listener.room < length self.old.listener.wire.given + length bytes.now)) }
        ensures turn { self.new.turns ≡ next_turn self.old.turns }
    {
        if self.failing.strikes() {
            self.connections.refuse();
            return Err(Failed);
        }
        self.connections.write(bytes)
    }

    fn finish(&mut self)
        ensures ended { self.new.listener.wire ≡ finished self.old.listener.wire }
        ensures accepts { self.new.listener.accept_faults ≡ self.old.listener.accept_faults }
        ensures streams { self.new.listener.faults ≡ self.old.listener.faults }
        ensures turn { self.new.turns ≡ self.old.turns }
    {
        self.connections.finish();
    }
}
