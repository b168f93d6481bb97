ghost use Rattle.std.specs.Prelude.{◌≡◌, ◌<◌, ◌≤◌, ◌+◌, [], ◌∷◌, ◌++◌, drop, length, map, min, take, if◌then◌else◌, IfOk, IsTrue, OnOk, OnErr};
ghost use Rattle.rnv_base.specs.Causes.{FailsBy, Rose};
ghost use Rattle.rnv_wire.specs.Wire.{ReadsOn, accepted, answers, finished, first_of, gives};

use rnv_base::{Bytes, Failed};
use std::alloc::{AllocError, Global};
use std::collections::VecDeque;
use std::convert::AsSlice;
use std::marker::Model;

/// Connections in memory, each with the bytes that it gives; when none is left, each gives nothing.
#[derive(Drop)]
pub struct Connections {
    alloc: Global,
    coming: VecDeque<Bytes>,
    left: Bytes,
    at: usize,
    stands: bool,
    given: Vec<u8>,
    earlier: Vec<Bytes>,
    accept_faults: u64,
    faults: u64,
}

impl Model for Connections {
    ghost use Rattle.std.specs.Prelude.{◌≤◌, drop, length, map, vec_capacity};
    ghost use Rattle.rnv_wire.specs.Fakes.{FakeListener};

    ghost Value = { FakeListener };

    ghost view = { λ c. record {
      wire = record {
        coming = map (λ b. b.bytes) c.coming.items;
        left = drop c.at c.left.bytes;
        stands = c.stands;
        given = c.given.items;
        earlier = map (λ b. b.bytes) c.earlier.items;
      };
      room = vec_capacity c.given;
      accept_faults = c.accept_faults;
      faults = c.faults;
    } };

    ghost invariant = { λ c. c.at ≤ length c.left.bytes };
}

impl Connections {
    /// These connections, none of which stands yet.
    pub fn new(alloc: Global, coming: VecDeque<Bytes>) -> Connections
        ensures coming { result.wire.coming ≡ map (λ b. b.bytes) coming.items }
        ensures silent { answers result.wire ≡ [] }
        ensures accepts { result.accept_faults ≡ 0 }
        ensures streams { result.faults ≡ 0 }
    {
        Connections {
            alloc,
            coming,
            left: Bytes::new(Vec::new(alloc)),
            at: 0,
            stands: false,
            given: Vec::new(alloc),
            earlier: Vec::new(alloc),
            accept_faults: 0,
            faults: 0,
        }
    }

    /// What was written to the connection that stands.
    pub fn given(&self) -> &[u8]
        ensures { result.now ≡ self.now.wire.given }
    {
        &self.given
    }

    /// What was written to the connections before it.
    pub fn earlier(&self) -> &[Bytes]
        ensures { map (λ b. b.bytes) result.now ≡ self.now.wire.earlier }
    {
        &self.earlier
    }

    /// Counts an accept that fails.
    pub fn refuse_accept(&mut self)
        ensures wire { self.new.wire ≡ self.old.wire }
        ensures rose { Rose self.old.accept_faults self.new.accept_faults }
        ensures later { self.old.accept_faults ≤ self.new.accept_faults }
        ensures other { self.new.faults ≡ self.old.faults }
    {
        self.accept_faults = self.accept_faults.saturating_add(1);
    }

    /// Counts a read or a write that fails.
    pub fn refuse(&mut self)
        ensures wire { self.new.wire ≡ self.old.wire }
        ensures rose { Rose self.old.faults self.new.faults }
        ensures later { self.old.faults ≤ self.new.faults }
        ensures other { self.new.accept_faults ≡ self.old.accept_faults }
    {
        self.faults = self.faults.saturating_add(1);
    }

    /// Takes the next connection. Fails only where what was written to the one before can't be kept.
    pub fn accept(&mut self) -> Result<(), Failed>
        ensures next { OnOk result (self.new.wire ≡ accepted self.old.wire) }
        ensures same { OnErr result (self.new.wire ≡ self.old.wire) }
        ensures cause { FailsBy self.old.accept_faults self.new.accept_faults result }
        ensures well { OnOk result (self.new.accept_faults ≡ self.old.accept_faults) }
        ensures other { self.new.faults ≡ self.old.faults }
        ensures failed { OnErr result (IsTrue self.old.wire.stands) }
    {
        if keep(self.alloc, self.stands, &mut self.earlier, &mut self.given).is_err() {
            self.accept_faults = self.accept_faults.saturating_add(1);
            return Err(Failed);
        }
        self.left = next(self.alloc, &mut self.coming);
        self.at = 0;
        self.stands = true;
        Ok(())
    }

    /// Gives as many bytes of the connection as the place takes.
    pub fn read(&mut self, into: &mut [u8]) -> usize
        ensures within { result ≤ length into.old }
        ensures bytes { ReadsOn self.old.wire self.new.wire into.old into.new result }
        ensures count { result ≡ min (length into.old) (length self.old.wire.left) }
        ensures accepts { self.new.accept_faults ≡ self.old.accept_faults }
        ensures streams { self.new.faults ≡ self.old.faults }
    {
        let left = &self.left.as_slice()[self.at..];
        let count = into.len().min(left.len());
        into[..count].copy_from_slice(&left[..count]);
        self.at += count;
        count
    }

    /// Writes all the bytes to the connection. Fails only where there is no room for them.
    pub fn write(&mut self, bytes: &[u8]) -> Result<usize, Failed>
        ensures whole { IfOk result (λ n. n ≡ length bytes.now) }
        ensures bytes { OnOk result (self.new.wire ≡ gives bytes.now self.old.wire) }
        ensures same { OnErr result (self.new.wire ≡ self.old.wire) }
        ensures cause { FailsBy self.old.faults self.new.faults result }
        ensures well { OnOk result (self.new.faults ≡ self.old.faults) }
        ensures other { self.new.accept_faults ≡ self.old.accept_faults }
        ensures failed { OnErr result (self.old.room < length self.old.wire.given + length bytes.now) }
    {
        if self.given.extend_from_slice(bytes).is_err() {
            self.faults = self.faults.saturating_add(1);
            return Err(Failed);
        }
        Ok(bytes.len())
    }

    /// Ends the connection.
    pub fn finish(&mut self)
        ensures ended { self.new.wire ≡ finished self.old.wire }
        ensures accepts { self.new.accept_faults ≡ self.old.accept_faults }
        ensures streams { self.new.faults ≡ self.old.faults }
    {
        self.at = self.left.as_slice().len();
    }
}

// Keeps what was written to the connection that stands, if one does. Only memory can fail.
fn keep(
    alloc: Global,
    stands: bool,
    earlier: &mut Vec<Bytes>,
    given: &mut Vec<u8>,
) -> Result<(), AllocError>
    ensures kept { OnOk result (map (λ b. b.bytes) earlier.new.items ≡ (if stands then map (λ b. b.bytes) earlier.old.items ++ given.old.items ∷ [] else map (λ b. b.bytes) earlier.old.items)) }
    ensures cleared { OnOk result (given.new.items ≡ []) }
    ensures same { OnErr result (earlier.new.items ≡ earlier.old.items) }
    ensures given { OnErr result (given.new.items ≡ given.old.items) }
    ensures failed { OnErr result (IsTrue stands) }
{
    if !stands {
        given.clear();
        return Ok(());
    }
    earlier.reserve(1)?;
    let written = std::mem::replace(given, Vec::new(alloc));
    let _ = earlier.push(Bytes::new(written));
    Ok(())
}

// What the next connection gives.
fn next(alloc: Global, coming: &mut VecDeque<Bytes>) -> Bytes
    ensures bytes { result.bytes ≡ first_of (map (λ b. b.bytes) coming.old.items) }
    ensures rest { map (λ b. b.bytes) coming.new.items ≡ drop 1 (map (λ b. b.bytes) coming.old.items) }
{
    match coming.pop_front() {
        Some(bytes) => bytes,
        None => Bytes::new(Vec::new(alloc)),
    }
}
