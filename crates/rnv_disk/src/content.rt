ghost use Rattle.std.specs.Prelude.{◌≡◌, ◌++◌, ◌-◌, length, take, OnOk, OnErr};
ghost use Rattle.rnv_disk.specs.Images.{part, put, with_part};

use crate::FileNo;
use rnv_base::Share;
use std::alloc::{AllocError, Global};
use std::marker::Model;

/// The bytes of both files.
#[derive(Debug, Drop)]
pub struct Content {
    zero: Vec<u8>,
    one: Vec<u8>,
}

impl Model for Content {
    ghost use Rattle.rnv_disk.specs.Images.{Image};

    ghost Value = { Image };

    ghost view = { λ c. record { zero = c.zero.items; one = c.one.items } };
}

impl Content {
    /// These bytes of the two files.
    pub fn new(zero: Vec<u8>, one: Vec<u8>) -> Content
        ensures { result ≡ record { zero = zero.items; one = one.items } }
    {
        Content { zero, one }
    }

    /// The bytes of a file.
    pub fn part(&self, file: FileNo) -> &[u8]
        ensures { result.now ≡ part file self.now }
    {
        match file {
            FileNo::Zero => &self.zero,
            FileNo::One => &self.one,
        }
    }

    /// Writes bytes over a file's from an offset on, and past the end; from its end on where the
    /// offset is beyond. Only memory can fail, and then nothing changes.
    pub(crate) fn write(&mut self, file: FileNo, at: usize, bytes: &[u8]) -> Result<(), AllocError>
        ensures ok { OnOk result (self.new ≡ with_part file (put at bytes.now (part file self.old)) self.old) }
        ensures err { OnErr result (self.new ≡ self.old) }
    {
        match file {
            FileNo::Zero => put(&mut self.zero, at, bytes),
            FileNo::One => put(&mut self.one, at, bytes),
        }
    }

    /// Cuts a file to a length; one that is shorter stays.
    pub(crate) fn cut(&mut self, file: FileNo, most: usize)
        ensures { self.new ≡ with_part file (take most (part file self.old)) self.old }
    {
        match file {
            FileNo::Zero => self.zero.truncate(most),
            FileNo::One => self.one.truncate(most),
        }
    }

    /// Cuts a file to a length, and puts these bytes past it, as far as there were any. Only memory
    /// can fail.
    pub(crate) fn tear(&mut self, file: FileNo, most: usize, torn: &[u8]) -> Result<(), AllocError>
        ensures { OnOk result (self.new ≡ with_part file (take most (part file self.old) ++ take (length (part file self.old) - most) torn.now) self.old) }
    {
        match file {
            FileNo::Zero => tear(&mut self.zero, most, torn),
            FileNo::One => tear(&mut self.one, most, torn),
        }
    }
}

// Writes bytes over those from an offset on, and past the end. Only memory can fail.
fn put(file: &mut Vec<u8>, at: usize, bytes: &[u8]) -> Result<(), AllocError>
    ensures ok { OnOk result (file.new.items ≡ put at bytes.now file.old.items) }
    ensures err { OnErr result (file.new.items ≡ file.old.items) }
{
    let start = at.min(file.len());
    let over = bytes.len().min(file.len() - start);
    file.extend_from_slice(&bytes[over..])?;
    file[start..start + over].copy_from_slice(&bytes[..over]);
    Ok(())
}

// Cuts bytes to a length, and puts others past it, as far as there were any.
fn tear(file: &mut Vec<u8>, most: usize, torn: &[u8]) -> Result<(), AllocError>
    ensures { OnOk result (file.new.items ≡ take most file.old.items ++ take (length file.old.items - most) torn.now) }
{
    let past = file.len().saturating_sub(most);
    file.truncate(most);
    file.extend_from_slice(front(torn, past))
}

/// The first `most` bytes.
pub fn front(bytes: &[u8], most: usize) -> &[u8]
    ensures { result.now ≡ take most bytes.now }
{
    &bytes[..bytes.len().min(most)]
}

impl Share for Content {
    fn share(&self, alloc: Global) -> Result<Content, AllocError> {
        Ok(Content {
            zero: Vec::from_slice(alloc, &self.zero)?,
            one: Vec::from_slice(alloc, &self.one)?,
        })
    }
}
