ghost use Rattle.std.specs.Prelude.{◌≡◌, ◌<◌, ◌+◌, ◌^◌, ◌++◌, ℕ, List, length, flat_map, IfOk, OnOk, string_bytes};
ghost use Rattle.rnv_patch.specs.Lines.{lent};
ghost use Rattle.rnv_patch.specs.Trimmed.{hunk_of};
ghost use Rattle.rnv_patch.specs.Written.{header_text, hunk_text, line_end, range_text, signed};

use crate::lines::is_ended;
use std::alloc::{AllocError, Global};
use std::convert::AsStr;

// Where lines stand: the number of the first one, and how many there are.
fn range_text(alloc: Global, before: usize, count: usize) -> Result<String, AllocError>
    requires { before + count < 2 ^ 64 }
    ensures { IfOk result (λ text. string_bytes text ≡ range_text before count) }
{
    if count == 0 {
        return format!(in alloc; "{before},0");
    }
    let first = before + 1;
    if count == 1 {
        return format!(in alloc; "{first}");
    }
    format!(in alloc; "{first},{count}")
}

// The line that says where a hunk stands, at the end.
#[tactic(auto, unfolding(crate::specs::Written::header_text))]
pub(crate) fn add_header(
    alloc: Global,
    out: &mut Vec<u8>,
    old_before: usize,
    old_count: usize,
    new_before: usize,
    new_count: usize,
) -> Result<(), AllocError>
    requires old { old_before + old_count < 2 ^ 64 }
    requires new { new_before + new_count < 2 ^ 64 }
    ensures { OnOk result (out.new.items ≡ out.old.items ++ header_text old_before old_count new_before new_count) }
{
    let old = range_text(alloc, old_before, old_count)?;
    let old = old.as_str();
    let new = range_text(alloc, new_before, new_count)?;
    let new = new.as_str();
    let header = format!(in alloc; "@@ -{old} +{new} @@\n")?;
    out.extend_from_slice(header.as_bytes())
}

fn add_line_end(out: &mut Vec<u8>, line: &[u8]) -> Result<(), AllocError>
    ensures { OnOk result (out.new.items ≡ out.old.items ++ line_end line.now) }
{
    if is_ended(line) {
        return Ok(());
    }
    out.extend_from_slice(b"\n\\ No newline at end of file\n")
}

// A line behind its sign, at the end.
fn add_line(out: &mut Vec<u8>, sign: u8, line: &[u8]) -> Result<(), AllocError>
    ensures { OnOk result (out.new.items ≡ out.old.items ++ signed sign line.now) }
{
    out.push(sign)?;
    out.extend_from_slice(line)?;
    add_line_end(out, line)
}

// Lines behind the same sign, at the end.
pub(crate) fn add_lines(out: &mut Vec<u8>, sign: u8, lines: &[&[u8]]) -> Result<(), AllocError>
    ensures { OnOk result (out.new.items ≡ out.old.items ++ flat_map (signed sign) (lent lines.now)) }
{
    for line in lines {
        add_line(out, sign, line)?;
    }
    Ok(())
}

// A hunk behind so many lines of both files, at the end: lines that stay, lines that are removed, lines that
// are added, and lines that stay.
#[tactic(auto, using(crate::proofs::Trims::lent_hunk))]
pub(crate) fn add_hunk(
    alloc: Global,
    out: &mut Vec<u8>,
    before: usize,
    context: &[&[u8]],
    old: &[&[u8]],
    new: &[&[u8]],
    after: &[&[u8]],
) -> Result<(), AllocError>
    requires old { before + (length context.now + (length old.now + length after.now)) < 2 ^ 64 }
    requires new { before + (length context.now + (length new.now + length after.now)) < 2 ^ 64 }
    ensures { OnOk result (out.new.items ≡ out.old.items ++ hunk_text (hunk_of before (lent context.now) (lent old.now) (lent new.now) (lent after.now))) }
{
    let old_count = context.len() + (old.len() + after.len());
    let new_count = context.len() + (new.len() + after.len());
    add_header(alloc, out, before, old_count, before, new_count)?;
    add_lines(out, b' ', context)?;
    add_lines(out, b'-', old)?;
    add_lines(out, b'+', new)?;
    add_lines(out, b' ', after)
}
