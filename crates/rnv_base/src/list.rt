ghost use Rattle.std.specs.Prelude.{◌≡◌, ◌↔◌, IsTrue, [], ◌∷◌, ◌++◌, length, IfOk, OnOk, OnErr};

use crate::Share;
use std::alloc::{AllocError, Global};
use std::convert::AsSlice;
use std::marker::Model;

/// A `Vec` that contracts see as the list of its elements.
#[derive(Debug, Drop)]
pub struct List<T> {
    inner: Vec<T>,
}

impl<T> Model for List<T> {
    ghost use Rattle.std.specs.Prelude.{List};
    ghost use Rattle.std.specs.Coded.{coded_list};

    ghost Value = { List T };

    ghost coded = { coded_list T.code };

    ghost view = { λ it. it.inner.items };
}

impl<T> List<T> {
    /// The list of this vector's elements.
    pub fn new(inner: Vec<T>) -> List<T>
        ensures { result ≡ inner.items }
    {
        List { inner }
    }

    /// A list without elements. Takes no memory.
    pub fn empty(alloc: Global) -> List<T>
        ensures { result ≡ [] }
    {
        List {
            inner: Vec::new(alloc),
        }
    }

    /// The vector that holds the elements.
    pub fn into_inner(self) -> Vec<T>
        ensures { result.items ≡ self }
    {
        let List { inner } = self;
        inner
    }

    /// How many elements there are.
    pub fn len(&self) -> usize
        ensures { result ≡ length self.now }
    {
        self.inner.len()
    }

    /// Whether there are no elements.
    pub fn is_empty(&self) -> bool
        ensures { IsTrue result ↔ (length self.now ≡ 0) }
    {
        self.inner.len() == 0
    }

    /// Puts an element at the end. Only memory can fail, and then the list stays.
    pub fn push(&mut self, item: T) -> Result<(), AllocError>
    where
        T: Drop,
        ensures ok { OnOk result (self.new ≡ self.old ++ item ∷ []) }
        ensures err { OnErr result (self.new ≡ self.old) }
    {
        self.inner.push(item)?;
        Ok(())
    }
}

impl<T> AsSlice<T> for List<T> {
    ghost items = { λ it. it };

    fn as_slice(&self) -> &[T] {
        self.inner.as_slice()
    }
}

impl<T: Share> Share for List<T> {
    fn share(&self, alloc: Global) -> Result<List<T>, AllocError> {
        let mut copy = List::empty(alloc);
        for item in self.inner.as_slice() {
            copy.push(item.share(alloc)?)?;
        }
        Ok(copy)
    }
}

impl<T: PartialEq> PartialEq for List<T> {
    ghost use Rattle.std.specs.Cmp.Lexicographic.{pointwise, lists_per};

    ghost eq = { pointwise T.eq };

    ghost laws = { lists_per T.laws };

    fn eq(&self, other: &List<T>) -> bool {
        self.inner.as_slice() == other.inner.as_slice()
    }
}

impl<T: Eq> Eq for List<T> {
    ghost use Rattle.std.specs.Cmp.Lexicographic.{lists_equiv};

    ghost laws = { lists_equiv T.Eq.laws };
}
