ghost use Rattle.std.specs.Prelude.{◌≡◌, ◌≢◌, ◌++◌, [], true, OnOk, None, Some};
ghost use Rattle.std.specs.Option.{option_copied};
ghost use Rattle.rnv_patch.specs.File.{AddDiff, AddPart, git_line, mode_line, name_lines, old_name};

use crate::names::{add_name_end, add_named};
use crate::trimming::add_hunks;
use std::alloc::{AllocError, Global};

// `diff --git a/P b/P`, at the end.
#[tactic(auto, unfolding(crate::specs::File::git_line))]
fn add_git_line(out: &mut Vec<u8>, path: &[u8]) -> Result<(), AllocError>
    ensures { OnOk result (out.new.items ≡ out.old.items ++ git_line path.now) }
{
    out.extend_from_slice(b"diff --git ")?;
    add_named(out, b"a/", path)?;
    out.extend_from_slice(b" ")?;
    add_named(out, b"b/", path)?;
    out.extend_from_slice(b"\n")
}

// The line that tells of a new file, at the end.
fn add_mode_line(out: &mut Vec<u8>) -> Result<(), AllocError>
    ensures { OnOk result (out.new.items ≡ out.old.items ++ mode_line true) }
{
    out.extend_from_slice(b"new file mode 100644\n")
}

// The name of the old file, at the end.
fn add_old_name(out: &mut Vec<u8>, is_new: bool, path: &[u8]) -> Result<(), AllocError>
    ensures { OnOk result (out.new.items ≡ out.old.items ++ old_name is_new path.now) }
{
    if is_new {
        return out.extend_from_slice(b"/dev/null");
    }
    add_named(out, b"a/", path)?;
    add_name_end(out, path)
}

// `--- a/P` and `+++ b/P`, at the end.
#[tactic(auto, unfolding(crate::specs::File::name_lines))]
fn add_name_lines(out: &mut Vec<u8>, is_new: bool, path: &[u8]) -> Result<(), AllocError>
    ensures { OnOk result (out.new.items ≡ out.old.items ++ name_lines is_new path.now) }
{
    out.extend_from_slice(b"--- ")?;
    add_old_name(out, is_new, path)?;
    out.extend_from_slice(b"\n+++ ")?;
    add_named(out, b"b/", path)?;
    add_name_end(out, path)?;
    out.extend_from_slice(b"\n")
}

// The diff of a file that the base has, at the end.
fn add_changed(
    alloc: Global,
    out: &mut Vec<u8>,
    path: &[u8],
    old: &[u8],
    new: &[u8],
) -> Result<(), AllocError>
    requires { old.now ≢ new.now }
    ensures { OnOk result (AddDiff path.now (Some old.now) new.now out.old.items out.new.items) }
{
    add_git_line(out, path)?;
    add_name_lines(out, false, path)?;
    add_hunks(alloc, out, old, new)
}

// The diff of a new file with lines, at the end.
fn add_filled(alloc: Global, out: &mut Vec<u8>, path: &[u8], new: &[u8]) -> Result<(), AllocError>
    requires { new.now ≢ [] }
    ensures { OnOk result (AddDiff path.now None new.now out.old.items out.new.items) }
{
    add_git_line(out, path)?;
    add_mode_line(out)?;
    add_name_lines(out, true, path)?;
    add_hunks(alloc, out, b"", new)
}

// The diff of a new file without a line, at the end.
fn add_empty(out: &mut Vec<u8>, path: &[u8]) -> Result<(), AllocError>
    ensures { OnOk result (AddDiff path.now None [] out.old.items out.new.items) }
{
    add_git_line(out, path)?;
    add_mode_line(out)
}

// The diff of a file at the end, where it has another text than the base's, or the base has no such file.
pub(crate) fn add_diff(
    alloc: Global,
    out: &mut Vec<u8>,
    path: &[u8],
    old: Option<&[u8]>,
    new: &[u8],
) -> Result<(), AllocError>
    ensures { OnOk result (AddPart path.now (option_copied old.entry) new.now out.old.items out.new.items) }
{
    match old {
        Some(old) => add_difference(alloc, out, path, old, new),
        None => add_new(alloc, out, path, new),
    }
}

// The same of a file that the base has.
fn add_difference(
    alloc: Global,
    out: &mut Vec<u8>,
    path: &[u8],
    old: &[u8],
    new: &[u8],
) -> Result<(), AllocError>
    ensures { OnOk result (AddPart path.now (Some old.now) new.now out.old.items out.new.items) }
{
    if old == new {
        return Ok(());
    }
    add_changed(alloc, out, path, old, new)
}

// The same of a new file.
fn add_new(alloc: Global, out: &mut Vec<u8>, path: &[u8], new: &[u8]) -> Result<(), AllocError>
    ensures { OnOk result (AddPart path.now None new.now out.old.items out.new.items) }
{
    if new.is_empty() {
        return add_empty(out, path);
    }
    add_filled(alloc, out, path, new)
}
