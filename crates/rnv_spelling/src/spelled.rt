ghost use Rattle.std.specs.Prelude.{◌≡◌, ◌++◌, ℕ, List, Option, OnOk};
ghost use Rattle.rnv_spelling.specs.Spelling.{four_bytes, eight_bytes, spelled_bytes, spelled_list, spelled_option};
ghost use Rattle.rnv_spelling.specs.Reading.{Gives, number_at, long_at, bytes_at, text_at, list_at, parts_at, option_at};
ghost use Rattle.rnv_spelling.specs.declared.spelled.ReadError.TheVariants.{Memory};

use rnv_base::{Bytes, List, Text};
use std::alloc::{AllocError, AllocFailed, Global};
use std::convert::{AsSlice, AsStr};

// Why nothing was read.
#[derive(Debug, Drop)]
pub(crate) enum ReadError {
    Memory,
    NotSpelled,
}

impl From<AllocError> for ReadError {
    ghost from_gives = { λ _ e. e ≡ Memory };

    fn from(_e: AllocError) -> ReadError {
        ReadError::Memory
    }
}

impl<T: Drop> From<AllocFailed<T>> for ReadError {
    ghost from_gives = { λ _ e. e ≡ Memory };

    fn from(_e: AllocFailed<T>) -> ReadError {
        ReadError::Memory
    }
}

// What has one spelling, and is read where it stands at the front.
pub(crate) trait Spelled: Drop {
    ghost spelled: { Self → List ℕ };

    ghost reading: { List ℕ → Option (Self × List ℕ) };

    // Writes it at the end.
    fn put(&self, out: &mut Vec<u8>) -> Result<(), AllocError>
        ensures { OnOk result (out.new.items ≡ out.old.items ++ spelled self.now) };

    // Reads it, and gives the bytes behind it.
    fn read(alloc: Global, bytes: &[u8]) -> Result<(Self, &[u8]), ReadError>
        ensures { Gives (λ x. (x.0, x.1.now)) result (reading bytes.now) };
}

#[tactic(auto, unfolding(crate::specs::Spelling::four_bytes))]
pub(crate) fn put_number(n: u32, out: &mut Vec<u8>) -> Result<(), AllocError>
    ensures { OnOk result (out.new.items ≡ out.old.items ++ four_bytes n) }
{
    out.extend_from_slice(&n.to_be_bytes())
}

// Writes a length. One of 2^32 or more is more than there is memory for.
fn put_length(length: usize, out: &mut Vec<u8>) -> Result<(), AllocError>
    ensures { OnOk result (out.new.items ≡ out.old.items ++ four_bytes length) }
{
    match u32::try_from(length) {
        Ok(length) => put_number(length, out),
        Err(_) => Err(AllocError),
    }
}

#[tactic(auto, unfolding(crate::specs::Reading::number_at))]
pub(crate) fn read_number(bytes: &[u8]) -> Result<(u32, &[u8]), ReadError>
    ensures { Gives (λ x. (x.0, x.1.now)) result (number_at bytes.now) }
{
    match bytes {
        [a, b, c, d, rest @ ..] => Ok((u32::from_be_bytes([*a, *b, *c, *d]), rest)),
        _ => Err(ReadError::NotSpelled),
    }
}

#[tactic(auto, unfolding(crate::specs::Reading::bytes_at))]
fn front(bytes: &[u8]) -> Result<(&[u8], &[u8]), ReadError>
    ensures { Gives (λ x. (x.0.now, x.1.now)) result (bytes_at bytes.now) }
{
    let (length, rest) = read_number(bytes)?;
    let length = length as usize;
    if rest.len() < length {
        return Err(ReadError::NotSpelled);
    }
    Ok(rest.split_at(length))
}

pub(crate) fn put_bytes(bytes: &[u8], out: &mut Vec<u8>) -> Result<(), AllocError>
    ensures { OnOk result (out.new.items ≡ out.old.items ++ spelled_bytes bytes.now) }
{
    put_length(bytes.len(), out)?;
    out.extend_from_slice(bytes)
}

pub(crate) fn read_bytes(alloc: Global, bytes: &[u8]) -> Result<(Bytes, &[u8]), ReadError>
    ensures { Gives (λ x. (x.0.bytes, x.1.now)) result (bytes_at bytes.now) }
{
    let (found, rest) = front(bytes)?;
    Ok((Bytes::new(Vec::from_slice(alloc, found)?), rest))
}

impl Spelled for Text {
    ghost spelled = { spelled_bytes };

    ghost reading = { text_at };

    fn put(&self, out: &mut Vec<u8>) -> Result<(), AllocError> {
        put_bytes(self.as_str().as_bytes(), out)
    }

    #[tactic(auto, using(crate::proofs::Readings::text_of, crate::proofs::Readings::no_text), unfolding(crate::specs::Reading::text_at))]
    fn read(alloc: Global, bytes: &[u8]) -> Result<(Text, &[u8]), ReadError> {
        let (found, rest) = front(bytes)?;
        match str::from_utf8(found) {
            Ok(text) => Ok((Text::copied(alloc, text)?, rest)),
            Err(_) => Err(ReadError::NotSpelled),
        }
    }
}

impl<T: Spelled> Spelled for List<T> {
    ghost spelled = { spelled_list T.spelled };

    ghost reading = { list_at T.reading };

    fn put(&self, out: &mut Vec<u8>) -> Result<(), AllocError> {
        put_length(self.len(), out)?;
        for item in self.as_slice() {
            item.put(out)?;
        }
        Ok(())
    }

    #[tactic(auto, unfolding(crate::specs::Reading::list_at))]
    fn read(alloc: Global, bytes: &[u8]) -> Result<(List<T>, &[u8]), ReadError> {
        let (count, rest) = read_number(bytes)?;
        read_parts(alloc, count, rest)
    }
}

fn read_parts<T: Spelled>(
    alloc: Global,
    count: u32,
    bytes: &[u8],
) -> Result<(List<T>, &[u8]), ReadError>
    ensures { Gives (λ x. (x.0, x.1.now)) result (parts_at T.reading count bytes.now) }
{
    let mut parts = List::empty(alloc);
    let mut rest = bytes;
    for _ in 0..count {
        let (part, behind) = T::read(alloc, rest)?;
        parts.push(part)?;
        rest = behind;
    }
    Ok((parts, rest))
}

impl<T: Spelled> Spelled for Option<T> {
    ghost spelled = { spelled_option T.spelled };

    ghost reading = { option_at T.reading };

    fn put(&self, out: &mut Vec<u8>) -> Result<(), AllocError> {
        match self {
            None => out.push(0)?,
            Some(value) => {
                out.push(1)?;
                value.put(out)?;
            }
        }
        Ok(())
    }

    #[tactic(auto, unfolding(crate::specs::Reading::option_at))]
    fn read(alloc: Global, bytes: &[u8]) -> Result<(Option<T>, &[u8]), ReadError> {
        match bytes {
            [0, rest @ ..] => Ok((None, rest)),
            [1, rest @ ..] => {
                let (value, rest) = T::read(alloc, rest)?;
                Ok((Some(value), rest))
            }
            _ => Err(ReadError::NotSpelled),
        }
    }
}

#[tactic(auto, unfolding(crate::specs::Spelling::eight_bytes))]
pub(crate) fn put_long(n: u64, out: &mut Vec<u8>) -> Result<(), AllocError>
    ensures { OnOk result (out.new.items ≡ out.old.items ++ eight_bytes n) }
{
    put_number((n / 4_294_967_296) as u32, out)?;
    put_number((n % 4_294_967_296) as u32, out)
}

#[tactic(auto, unfolding(crate::specs::Reading::long_at))]
pub(crate) fn read_long(bytes: &[u8]) -> Result<(u64, &[u8]), ReadError>
    ensures { Gives (λ x. (x.0, x.1.now)) result (long_at bytes.now) }
{
    let (high, rest) = read_number(bytes)?;
    let (low, rest) = read_number(rest)?;
    Ok((high as u64 * 4_294_967_296 + low as u64, rest))
}
