ghost use Rattle.std.specs.Prelude.{OnOk};
ghost use Rattle.rnv_patch.specs.Hunks.{AddHunks};
ghost use Rattle.rnv_patch.specs.Lines.{lent, lines};

use crate::hunks::add_hunk;
use crate::lines::{common_end, common_front, lines};
use std::alloc::{AllocError, Global};
use std::convert::AsSlice;

// The hunk between the common front and the common end of the lines, at the end.
pub(crate) fn add_trimmed(
    alloc: Global,
    out: &mut Vec<u8>,
    old: &[&[u8]],
    new: &[&[u8]],
) -> Result<(), AllocError>
    ensures { OnOk result (AddHunks (lent old.now) (lent new.now) out.old.items out.new.items) }
{
    let front = common_front(old, new);
    let (before, old_rest) = old.split_at(front);
    let (_, new_rest) = new.split_at(front);
    let end = common_end(old_rest, new_rest);
    let (old_middle, behind) = old_rest.split_at(old_rest.len() - end);
    let (new_middle, _) = new_rest.split_at(new_rest.len() - end);
    let start = before.len().saturating_sub(3);
    let context = &before[start..];
    let after = &behind[..behind.len().min(3)];
    add_hunk(alloc, out, start, context, old_middle, new_middle, after)
}

// The hunks from a text to another, at the end.
pub(crate) fn add_hunks(
    alloc: Global,
    out: &mut Vec<u8>,
    old: &[u8],
    new: &[u8],
) -> Result<(), AllocError>
    ensures { OnOk result (AddHunks (lines old.now) (lines new.now) out.old.items out.new.items) }
{
    let old = lines(alloc, old)?;
    let new = lines(alloc, new)?;
    add_trimmed(alloc, out, old.as_slice(), new.as_slice())
}
