ghost use Rattle.std.specs.Prelude.{◌≡◌, ℕ, ◌+◌, ◌<◌, ◌≤◌, List, [], ◌∷◌, ◌++◌, take, drop, IfOk, IfErr, IfSome, IfNone, OnOk};
ghost use Rattle.rnv_journal.specs.File.{four_bytes, body, head};
ghost use Rattle.rnv_journal.specs.Found.{IsEntry, IsFound, IsReadFrom, IsRefused, NoEntry};

use crate::head::{behind_head, is_in_making};
use rnv_base::{Bytes, List};
use std::alloc::{AllocError, Global};

// What the bytes of a file are: a file in making, or entries and the gate that ends them.
#[derive(Drop)]
pub(crate) enum Reading {
    InMaking,
    Entries {
        entries: List<Bytes>,
        end: u64,
        gate: u8,
    },
}

// Why the bytes of a file were not read.
pub(crate) enum ReadError {
    NotAJournal { offset: u64 },
    Memory,
}

// The entries at the front, the bytes behind them, and how many of these are within the limit.
#[derive(Drop)]
struct Found<'a> {
    entries: List<Bytes>,
    rest: &'a [u8],
    room: u64,
}

// The number that four bytes spell, big end first.
#[tactic(auto, using(crate::proofs::Numbers::number_in_four))]
fn number(a: u8, b: u8, c: u8, d: u8) -> u32
    ensures { four_bytes result ≡ a ∷ b ∷ c ∷ d ∷ [] }
{
    u32::from_be_bytes([a, b, c, d])
}

// The payload of the whole entry that stands at the front, within so many bytes, and the bytes behind it.
fn entry_at(bytes: &[u8], room: u64) -> Option<(&[u8], &[u8])>
    ensures whole { IfSome result (λ entry. IsEntry bytes.now room entry.0.now entry.1.now) }
    ensures none { IfNone result (NoEntry bytes.now room) }
{
    match bytes {
        [gate, a, b, c, d, rest @ ..] => {
            let length = number(*a, *b, *c, *d) as usize;
            if *gate == 1 && length <= rest.len() && length as u64 + 5 <= room {
                Some(rest.split_at(length))
            } else {
                None
            }
        }
        _ => None,
    }
}

// The whole entries at the front, from offset 13 on.
fn entries_of(alloc: Global, bytes: &[u8], limit: u64) -> Result<Found<'_>, AllocError>
    requires { 13 ≤ limit }
    ensures found { IfOk result (λ found. IsFound limit bytes.now found.entries found.rest.now found.room) }
    ensures all { IfOk result (λ found. NoEntry found.rest.now found.room) }
{
    let mut entries = List::empty(alloc);
    let mut rest = bytes;
    let mut room = limit - 13;
    while let Some((payload, behind)) = entry_at(rest, room) {
        entries.push(Bytes::new(Vec::from_slice(alloc, payload)?))?;
        rest = behind;
        room -= payload.len() as u64 + 5;
    }
    Ok(Found {
        entries,
        rest,
        room,
    })
}

// Reads the bytes of a file.
pub(crate) fn read_image(alloc: Global, bytes: &[u8], limit: u64) -> Result<Reading, ReadError>
    requires { 14 ≤ limit }
    ensures read { IfOk result (λ reading. IsReadFrom limit bytes.now reading) }
    ensures refused { IfErr result (λ error. IsRefused limit bytes.now error) }
{
    if is_in_making(bytes) {
        return Ok(Reading::InMaking);
    }
    match behind_head(bytes) {
        Some(behind) => read_entries(alloc, behind, limit),
        None => Err(ReadError::NotAJournal { offset: 0 }),
    }
}

// Reads the entries of a file, from offset 13 on, and the gate that ends them.
#[tactic(auto, using(crate::proofs::Founds::found_image, crate::proofs::Founds::found_broken))]
fn read_entries(alloc: Global, bytes: &[u8], limit: u64) -> Result<Reading, ReadError>
    requires { 14 ≤ limit }
    ensures read { IfOk result (λ reading. IsReadFrom limit (head ++ bytes.now) reading) }
    ensures refused { IfErr result (λ error. IsRefused limit (head ++ bytes.now) error) }
{
    let Found {
        entries,
        rest,
        room,
    } = match entries_of(alloc, bytes, limit) {
        Ok(found) => found,
        Err(_) => return Err(ReadError::Memory),
    };
    match rest {
        [gate, ..] if *gate != 1 && room > 0 => Ok(Reading::Entries {
            entries,
            end: limit - room,
            gate: *gate,
        }),
        _ => Err(ReadError::NotAJournal {
            offset: limit - room,
        }),
    }
}
