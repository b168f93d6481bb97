ghost use Rattle.std.specs.Prelude.{◌≡◌, ◌==◌, ◌+◌, ◌≤◌, [], ◌++◌, length, IfOk};
ghost use Rattle.std.specs.Cmp.Rules.{comparing};
ghost use Rattle.std.proofs.Common.{rules};
ghost use Rattle.std.specs.Cmp.Lexicographic.{pointwise};
ghost use Rattle.std.specs.Ordering.{on};

use std::alloc::{AllocError, Global};
use std::convert::AsSlice;
use std::marker::Model;

/// A `Vec` of bytes. Contracts see the list of its bytes, and `spare`: so many bytes more can be
/// added without memory.
#[derive(Debug, Drop)]
pub struct Bytes {
    inner: Vec<u8>,
    room: usize,
}

impl Model for Bytes {
    ghost use Rattle.std.specs.Prelude.{◌+◌, ◌≤◌, vec_len, vec_capacity};
    ghost use Rattle.rnv_base.specs.Buffer.{Buffer};

    ghost Value = { Buffer };

    ghost view = { λ b. record { bytes = b.inner.items; spare = b.room } };

    ghost invariant = { λ b. vec_len b.inner + b.room ≤ vec_capacity b.inner };
}

impl Bytes {
    /// The bytes of this vector.
    pub fn new(inner: Vec<u8>) -> Bytes
        ensures { result.bytes ≡ inner.items }
    {
        Bytes { inner, room: 0 }
    }

    /// The vector that holds these bytes.
    pub fn into_inner(self) -> Vec<u8>
        ensures { result.items ≡ self.bytes }
    {
        let Bytes { inner, room: _ } = self;
        inner
    }

    /// No bytes yet, with room for at least so many. Only memory can fail.
    pub fn with_room(alloc: Global, room: usize) -> Result<Bytes, AllocError>
        ensures empty { IfOk result (λ b. b.bytes ≡ []) }
        ensures room { IfOk result (λ b. room ≤ b.spare) }
    {
        let inner = Vec::with_capacity(alloc, room)?;
        Ok(Bytes { inner, room })
    }

    /// Puts bytes at the end, for which there is room. Takes no memory.
    pub fn add(&mut self, bytes: &[u8])
        requires { length bytes.now ≤ self.old.spare }
        ensures bytes { self.new.bytes ≡ self.old.bytes ++ bytes.now }
        ensures spare { self.new.spare + length bytes.now ≡ self.old.spare }
    {
        self.room -= bytes.len();
        let _ = self.inner.extend_from_slice(bytes);
    }

    /// A copy of the bytes; of its room nothing is said. Only memory can fail.
    pub fn share(&self, alloc: Global) -> Result<Bytes, AllocError>
        ensures { IfOk result (λ copy. copy.bytes ≡ self.now.bytes) }
    {
        Ok(Bytes::new(Vec::from_slice(alloc, self.inner.as_slice())?))
    }
}

impl AsSlice<u8> for Bytes {
    ghost items = { λ b. b.bytes };

    fn as_slice(&self) -> &[u8] {
        self.inner.as_slice()
    }
}

impl PartialEq for Bytes {
    ghost eq = { on (λ b. b.bytes) (pointwise ◌==◌) };

    ghost laws = { Prim.search (comparing, rules) };

    fn eq(&self, other: &Bytes) -> bool {
        self.inner.as_slice() == other.inner.as_slice()
    }
}

impl Eq for Bytes {
    ghost laws = { Prim.search (comparing, rules) };
}
