ghost use Rattle.std.specs.Prelude.{◌≡◌, ◌++◌, ◌||◌, ◌<◌, ◌≤◌, ℕ, length, List, [], ◌∷◌, false, Some, IfSome, IfNone, IfOk, OnOk};
ghost use Rattle.std.specs.List.{flat_map, prefix_len};
ghost use Rattle.std.specs.Ordering.{is_lt, nat_cmp};
ghost use Rattle.std.specs.Cmp.Lexicographic.{slice_cmp};
ghost use Rattle.std.specs.Str.{bytes_eq};
ghost use Rattle.rnv_repo.specs.Files.{MarkedFile, PathChange};
ghost use Rattle.rnv_repo.specs.Base.{changed, differs, is_changing, is_over, path_of};
ghost use Rattle.rnv_repo.specs.Merging.{change_path, left_at, set_by, sets_some, MergesFile};
ghost use Rattle.rnv_repo.specs.Named.{IsRisingBy};

use crate::{FileAt, FileChange};
use rnv_base::{BASE_BYTES, BASE_FILES, List, Share, Text};
use std::alloc::{AllocError, Global};
use std::convert::AsSlice;

// Adds the files that these changes set.
fn add_new(
    alloc: Global,
    out: &mut List<FileAt>,
    changes: &[FileChange],
    revision: u32,
) -> Result<(), AllocError>
    ensures { OnOk result (out.new ≡ out.old ++ flat_map (set_by revision) changes.now) }
{
    for change in changes {
        if let Some(bytes) = &change.bytes {
            out.push(FileAt {
                path: change.path.share(alloc)?,
                bytes: bytes.share(alloc)?,
                changed: revision,
            })?;
        }
    }
    Ok(())
}

// Adds what a change leaves of the file at its path, and says whether it changes it.
fn add_changed(
    alloc: Global,
    out: &mut List<FileAt>,
    file: FileAt,
    change: &FileChange,
    revision: u32,
) -> Result<bool, AllocError>
    ensures left { OnOk result (out.new ≡ out.old ++ left_at revision file change.now.bytes) }
    ensures differs { IfOk result (λ differs'. differs' ≡ differs change.now.bytes (Some file)) }
{
    let Some(bytes) = &change.bytes else {
        return Ok(true);
    };
    if *bytes == file.bytes {
        out.push(file)?;
        return Ok(false);
    }
    out.push(FileAt {
        path: file.path,
        bytes: bytes.share(alloc)?,
        changed: revision,
    })?;
    Ok(true)
}

fn path(file: &FileAt) -> &Text
    ensures { result.now ≡ file.now.path }
{
    &file.path
}

// How many changes from the front on have paths below this one.
fn count_below(changes: &[FileChange], path: &Text) -> usize
    ensures count { result ≡ prefix_len (λ c. is_lt (slice_cmp nat_cmp c.path path.now)) changes.now }
    ensures within { result ≤ length changes.now }
{
    let mut count = 0;
    for change in changes {
        if change.path >= *path {
            return count;
        }
        count += 1;
    }
    count
}

fn set_some(changes: &[FileChange]) -> bool
    ensures { result ≡ sets_some changes.now }
{
    changes.iter().any(|change| change.bytes.is_some())
}

// The first change and those behind it, if it is of this path.
fn first_at<'a>(
    changes: &'a [FileChange],
    path: &Text,
) -> Option<(&'a FileChange, &'a [FileChange])>
    ensures found { IfSome result (λ x. (changes.now ≡ x.0.now ∷ x.1.now) × (x.0.now.path ≡ path.now)) }
    ensures other { IfNone result ((c : PathChange) (more : List PathChange) → changes.now ≡ c ∷ more → bytes_eq c.path path.now ≡ false) }
{
    let (change, behind) = changes.split_first()?;
    if change.path == *path {
        Some((change, behind))
    } else {
        None
    }
}

// Merges the changes up to a file's path with that file. Gives the changes behind it, and whether
// one of those merged changes a file.
fn merge_file<'a>(
    alloc: Global,
    out: &mut List<FileAt>,
    changes: &'a [FileChange],
    file: FileAt,
    revision: u32,
) -> Result<(&'a [FileChange], bool), AllocError>
    ensures { IfOk result (λ x. MergesFile revision changes.now file out.old out.new x.0.now x.1) }
{
    let (front, rest) = changes.split_at(count_below(changes, path(&file)));
    add_new(alloc, out, front, revision)?;
    let set = set_some(front);
    match first_at(rest, path(&file)) {
        Some((change, behind)) => {
            let changing = add_changed(alloc, out, file, change, revision)?;
            Ok((behind, set | changing))
        }
        None => {
            out.push(file)?;
            Ok((rest, set))
        }
    }
}

// The files with the changes, and whether one of them changes a file.
pub(crate) fn merged(
    alloc: Global,
    files: List<FileAt>,
    changes: &[FileChange],
    revision: u32,
) -> Result<(List<FileAt>, bool), AllocError>
    requires files { IsRisingBy path_of files }
    requires changes { IsRisingBy change_path changes.now }
    ensures files { IfOk result (λ x. x.0 ≡ changed revision changes.now files) }
    ensures changing { IfOk result (λ x. x.1 ≡ is_changing changes.now files) }
{
    let mut out = List::empty(alloc);
    let mut left = changes;
    let mut any = false;
    for file in files.into_inner() {
        let (rest, changing) = merge_file(alloc, &mut out, left, file, revision)?;
        left = rest;
        any = any | changing;
    }
    add_new(alloc, &mut out, left, revision)?;
    let changing = any | set_some(left);
    Ok((out, changing))
}

// More files or more bytes than a base may have.
pub(crate) fn is_over(files: &[FileAt]) -> bool
    ensures { result ≡ is_over files.now }
{
    if files.len() > BASE_FILES {
        return true;
    }
    let mut room = BASE_BYTES as usize;
    for file in files {
        let length = file.bytes.as_slice().len();
        if length > room {
            return true;
        }
        room -= length;
    }
    false
}
