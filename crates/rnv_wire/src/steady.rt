ghost use Rattle.std.specs.Prelude.{◌≡◌, ◌<◌, ◌≤◌, ◌+◌, [], drop, length, map, min, take, IfOk, IsOk, IsTrue, OnOk, OnErr};
ghost use Rattle.rnv_base.specs.Causes.{FailsBy};
ghost use Rattle.rnv_wire.specs.Wire.{Reads, ReadsOn, accepted, answers, gives};

use crate::connections::Connections;
use crate::{Listener, Source};
use rnv_base::{Bytes, Failed};
use std::alloc::Global;
use std::collections::VecDeque;
use std::marker::Model;

/// Bytes in memory, of which no read fails.
#[derive(Drop)]
pub struct SteadySource {
    bytes: Vec<u8>,
    at: usize,
}

impl Model for SteadySource {
    ghost use Rattle.std.specs.Prelude.{◌≤◌, List, drop, length, ℕ};

    ghost Value = { List ℕ };

    ghost view = { λ s. drop s.at s.bytes.items };

    ghost invariant = { λ s. s.at ≤ length s.bytes.items };
}

impl SteadySource {
    /// A source of these bytes.
    pub fn new(bytes: Bytes) -> SteadySource
        ensures { result ≡ bytes.bytes }
    {
        SteadySource {
            bytes: bytes.into_inner(),
            at: 0,
        }
    }
}

impl Source for SteadySource {
    ghost tells = { Unit {0} };

    ghost left = { λ s. s };

    ghost faults = { λ _. 0 };

    /// Gives as many bytes as the place takes.
    fn read(&mut self, into: &mut [u8]) -> Result<usize, Failed>
        ensures within { IfOk result (λ n. n ≤ length into.old) }
        ensures bytes { IfOk result (λ n. Reads self.old self.new into.old into.new n) }
        ensures count { IfOk result (λ n. n ≡ min (length into.old) (length self.old)) }
        ensures well { IsOk result }
    {
        let left = &self.bytes[self.at..];
        let count = into.len().min(left.len());
        into[..count].copy_from_slice(&left[..count]);
        self.at += count;
        Ok(count)
    }
}

/// Connections in memory, each with the bytes that it gives; when none is left, each gives nothing.
/// A call fails only where its growth is refused.
#[derive(Drop)]
pub struct SteadyListener {
    connections: Connections,
}

impl Model for SteadyListener {
    ghost use Rattle.rnv_wire.specs.Fakes.{FakeListener};

    ghost Value = { FakeListener };

    ghost view = { λ s. s.connections };
}

impl SteadyListener {
    /// A listener of these connections.
    pub fn new(alloc: Global, coming: VecDeque<Bytes>) -> SteadyListener
        ensures coming { result.wire.coming ≡ map (λ b. b.bytes) coming.items }
        ensures silent { answers result.wire ≡ [] }
        ensures accepts { result.accept_faults ≡ 0 }
        ensures streams { result.faults ≡ 0 }
    {
        SteadyListener {
            connections: Connections::new(alloc, coming),
        }
    }

    /// What was written to the connection that stands.
    pub fn given(&self) -> &[u8]
        ensures { result.now ≡ self.now.wire.given }
    {
        self.connections.given()
    }

    /// What was written to the connections before it.
    pub fn earlier(&self) -> &[Bytes]
        ensures { map (λ b. b.bytes) result.now ≡ self.now.wire.earlier }
    {
        self.connections.earlier()
    }
}

impl Listener for SteadyListener {
    ghost tells = { Unit {0} };

    ghost wire = { λ s. s.wire };

    ghost accept_faults = { λ s. s.accept_faults };

    ghost faults = { λ s. s.faults };

    /// Fails only where what was written to the connection before can't be kept.
    fn accept(&mut self) -> Result<(), Failed>
        ensures next { OnOk result (self.new.wire ≡ accepted self.old.wire) }
        ensures same { OnErr result (self.new.wire ≡ self.old.wire) }
        ensures cause { FailsBy self.old.accept_faults self.new.accept_faults result }
        ensures well { OnOk result (self.new.accept_faults ≡ self.old.accept_faults) }
        ensures other { self.new.faults ≡ self.old.faults }
        ensures failed { OnErr result (IsTrue self.old.wire.stands) }
    {
        self.connections.accept()
    }

    /// Gives as many bytes as the place takes.
    fn read(&mut self, into: &mut [u8]) -> Result<usize, Failed>
        ensures within { IfOk result (λ n. n ≤ length into.old) }
        ensures bytes { IfOk result (λ n. ReadsOn self.old.wire self.new.wire into.old into.new n) }
        ensures count { IfOk result (λ n. n ≡ min (length into.old) (length self.old.wire.left)) }
        ensures sure { IsOk result }
        ensures well { self.new.faults ≡ self.old.faults }
        ensures other { self.new.accept_faults ≡ self.old.accept_faults }
    {
        Ok(self.connections.read(into))
    }

    /// Takes all the bytes, or fails where there is no room for them.
    fn write(&mut self, bytes: &[u8]) -> Result<usize, Failed>
        ensures within { IfOk result (λ n. n ≤ length bytes.now) }
        ensures some { IfOk result (λ n. 0 < length bytes.now → 0 < n) }
        ensures bytes { IfOk result (λ n. self.new.wire ≡ gives (take n bytes.now) self.old.wire) }
        ensures same { OnErr result (self.new.wire ≡ self.old.wire) }
        ensures cause { FailsBy self.old.faults self.new.faults result }
        ensures well { OnOk result (self.new.faults ≡ self.old.faults) }
        ensures other { self.new.accept_faults ≡ self.old.accept_faults }
        ensures whole { IfOk result (λ n. n ≡ length bytes.now) }
        ensures failed { OnErr result (self.old.room < length self.old.wire.given + length bytes.now) }
    {
        self.connections.write(bytes)
    }

    fn finish(&mut self) {
        self.connections.finish();
    }
}
