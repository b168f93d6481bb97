ghost use Rattle.std.specs.Prelude.{◌≡◌, ◌≤◌, ◌++◌, ◌∷◌, ℕ, [], codes};
ghost use Rattle.std.specs.Fmt.{decimal};
ghost use Rattle.rnv_app.specs.Refusals.{IsLine, IsTold, above_text, damaged_text, index_text, not_built_text, refusal_text};

use crate::Refusal;
use crate::refusal::code;
use itoa::Buffer;
use rnv_base::{List, Sink, write_all};
use std::convert::{AsSlice, AsStr};

/// Writes a text and gives 0, or 10 where the output failed; or writes the line of a refusal as far as
/// the output takes it, and gives its status.
pub fn tell<K: Sink>(out: &mut K, text: &Result<List<u8>, Refusal>) -> u8
    ensures told { IsTold K.tells (K.held out.old) (K.held out.new) (K.faults out.old) (K.faults out.new) text.now result }
    ensures later { K.faults out.old ≤ K.faults out.new }
{
    match text {
        Ok(text) => match write_all(out, text.as_slice()) {
            Ok(()) => 0,
            Err(_) => 10,
        },
        Err(refusal) => {
            report(out, refusal);
            code(refusal)
        }
    }
}

// Writes the line of a refusal as far as the output takes it; a fault of this write changes nothing.
fn report<K: Sink>(out: &mut K, refusal: &Refusal)
    ensures line { K.tells → IsLine (K.held out.old) (K.held out.new) (K.faults out.old) (K.faults out.new) (refusal_text refusal.now) }
    ensures later { K.faults out.old ≤ K.faults out.new }
{
    match refusal {
        Refusal::Memory => write_line(out, b"error 1: out of memory\n"),
        Refusal::Usage => write_line(out, b"error 2: usage\n"),
        Refusal::UnknownRepo => write_line(out, b"error 3: unknown repository\n"),
        Refusal::FolderFault => write_line(out, b"error 5: folder fault\n"),
        Refusal::DiskFault => write_line(out, b"error 7: disk fault\n"),
        Refusal::NotAJournal { offset } => write_damaged(out, *offset),
        Refusal::Limit { which, number } => write_above(out, which.as_str().as_bytes(), *number),
        Refusal::IndexRefused { file, line } => write_index(out, file.as_str().as_bytes(), *line),
        Refusal::NotBuilt { path } => write_not_built(out, path.as_str().as_bytes()),
    }
}

// Writes the bytes as far as the output takes them.
fn write_line<K: Sink>(out: &mut K, bytes: &[u8])
    ensures line { K.tells → IsLine (K.held out.old) (K.held out.new) (K.faults out.old) (K.faults out.new) bytes.now }
    ensures later { K.faults out.old ≤ K.faults out.new }
{
    match write_all(out, bytes) {
        Ok(()) => {}
        Err(_) => {}
    }
}

// Writes two pieces, one behind the other.
fn write_two<K: Sink>(out: &mut K, first: &[u8], second: &[u8])
    ensures line { K.tells → IsLine (K.held out.old) (K.held out.new) (K.faults out.old) (K.faults out.new) (first.now ++ second.now) }
    ensures later { K.faults out.old ≤ K.faults out.new }
{
    match write_all(out, first) {
        Ok(()) => write_line(out, second),
        Err(_) => {}
    }
}

// Writes three pieces, one behind the other.
fn write_three<K: Sink>(out: &mut K, first: &[u8], second: &[u8], third: &[u8])
    ensures line { K.tells → IsLine (K.held out.old) (K.held out.new) (K.faults out.old) (K.faults out.new) (first.now ++ (second.now ++ third.now)) }
    ensures later { K.faults out.old ≤ K.faults out.new }
{
    match write_all(out, first) {
        Ok(()) => write_two(out, second, third),
        Err(_) => {}
    }
}

// Writes the line of a path that is not built yet.
fn write_not_built<K: Sink>(out: &mut K, path: &[u8])
    ensures line { K.tells → IsLine (K.held out.old) (K.held out.new) (K.faults out.old) (K.faults out.new) (not_built_text path.now) }
    ensures later { K.faults out.old ≤ K.faults out.new }
{
    write_three(out, b"error 15: ", path, b" is not built yet\n")
}

// Writes the line of bytes that go wrong at an offset.
fn write_damaged<K: Sink>(out: &mut K, offset: u64)
    ensures line { K.tells → IsLine (K.held out.old) (K.held out.new) (K.faults out.old) (K.faults out.new) (damaged_text offset) }
    ensures later { K.faults out.old ≤ K.faults out.new }
{
    let mut buffer = Buffer::new();
    let digits = buffer.format(offset);
    write_three(out, b"error 8: not a journal at ", digits.as_bytes(), b"\n")
}

// Writes the line of a quantity above its limit.
fn write_above<K: Sink>(out: &mut K, which: &[u8], number: u64)
    ensures line { K.tells → IsLine (K.held out.old) (K.held out.new) (K.faults out.old) (K.faults out.new) (above_text which.now number) }
    ensures later { K.faults out.old ≤ K.faults out.new }
{
    match write_all(out, b"error 11: more than ") {
        Ok(()) => write_limit(out, which, number),
        Err(_) => {}
    }
}

// Writes what stands behind the first words of that line.
fn write_limit<K: Sink>(out: &mut K, which: &[u8], number: u64)
    ensures line { K.tells → IsLine (K.held out.old) (K.held out.new) (K.faults out.old) (K.faults out.new) (decimal number ++ (codes " " ++ (which.now ++ 10 ∷ []))) }
    ensures later { K.faults out.old ≤ K.faults out.new }
{
    let mut buffer = Buffer::new();
    let digits = buffer.format(number);
    match write_all(out, digits.as_bytes()) {
        Ok(()) => write_three(out, b" ", which, b"\n"),
        Err(_) => {}
    }
}

// Writes the line of an index document outside its grammar.
fn write_index<K: Sink>(out: &mut K, file: &[u8], line: u64)
    ensures line { K.tells → IsLine (K.held out.old) (K.held out.new) (K.faults out.old) (K.faults out.new) (index_text file.now line) }
    ensures later { K.faults out.old ≤ K.faults out.new }
{
    match write_all(out, b"error 13: ") {
        Ok(()) => write_place(out, file, line),
        Err(_) => {}
    }
}

// Writes what stands behind the first words of that line.
fn write_place<K: Sink>(out: &mut K, file: &[u8], line: u64)
    ensures line { K.tells → IsLine (K.held out.old) (K.held out.new) (K.faults out.old) (K.faults out.new) (file.now ++ (codes " line " ++ (decimal line ++ 10 ∷ []))) }
    ensures later { K.faults out.old ≤ K.faults out.new }
{
    match write_all(out, file) {
        Ok(()) => write_row(out, line),
        Err(_) => {}
    }
}

// Writes the number of a line of a file, at the end of that line.
fn write_row<K: Sink>(out: &mut K, line: u64)
    ensures line { K.tells → IsLine (K.held out.old) (K.held out.new) (K.faults out.old) (K.faults out.new) (codes " line " ++ (decimal line ++ 10 ∷ [])) }
    ensures later { K.faults out.old ≤ K.faults out.new }
{
    let mut buffer = Buffer::new();
    let digits = buffer.format(line);
    write_three(out, b" line ", digits.as_bytes(), b"\n")
}
