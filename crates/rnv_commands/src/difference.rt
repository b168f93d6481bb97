ghost use Rattle.std.specs.Prelude.{◌≡◌, ◌≢◌, ◌++◌, ◌∷◌, ◌≤◌, [], List as Items, length, map, false, Some, IfSome, IfNone, IfOk, OnOk};
ghost use Rattle.std.specs.List.{prefix_len};
ghost use Rattle.std.specs.Ordering.{is_lt, nat_cmp};
ghost use Rattle.std.specs.Cmp.Lexicographic.{slice_cmp};
ghost use Rattle.std.specs.Str.{bytes_eq};
ghost use Rattle.rnv_commands.specs.Difference.{removal, setting, named_path, IsDifference, IsTurn};
ghost use Rattle.rnv_base.specs.Files.{NamedFile};
ghost use Rattle.rnv_repo.specs.Base.{path_of};
ghost use Rattle.rnv_repo.specs.Files.{MarkedFile, PathChange};
ghost use Rattle.rnv_repo.specs.Named.{IsRisingBy};

use rnv_base::{List, Share, Text};
use rnv_repo::{EditedFile, FileAt, FileChange};
use std::alloc::{AllocError, Global};
use std::convert::AsSlice;

// How many files from the front on have paths below this one.
fn count_below(files: &[FileAt], path: &Text) -> usize
    ensures count { result ≡ prefix_len (λ f. is_lt (slice_cmp nat_cmp f.path path.now)) files.now }
    ensures within { result ≤ length files.now }
{
    let mut count = 0;
    for file in files {
        if file.path >= *path {
            return count;
        }
        count += 1;
    }
    count
}

// The first file and those behind it, if it has this path.
fn first_at<'a>(files: &'a [FileAt], path: &Text) -> Option<(&'a FileAt, &'a [FileAt])>
    ensures found { IfSome result (λ x. (files.now ≡ x.0.now ∷ x.1.now) × (x.0.now.path ≡ path.now)) }
    ensures other { IfNone result ((f : MarkedFile) (more : Items MarkedFile) → files.now ≡ f ∷ more → bytes_eq f.path path.now ≡ false) }
{
    let (file, behind) = files.split_first()?;
    if file.path == *path {
        Some((file, behind))
    } else {
        None
    }
}

// Adds the removals of files.
fn add_removals(
    alloc: Global,
    out: &mut List<FileChange>,
    files: &[FileAt],
) -> Result<(), AllocError>
    ensures { OnOk result (out.new ≡ out.old ++ map removal files.now) }
{
    for file in files {
        out.push(FileChange {
            path: file.path.share(alloc)?,
            bytes: None,
        })?;
    }
    Ok(())
}

// Adds the change that sets a file.
fn add_setting(out: &mut List<FileChange>, file: EditedFile) -> Result<(), AllocError>
    ensures { OnOk result (out.new ≡ out.old ++ setting file ∷ []) }
{
    out.push(FileChange {
        path: file.path,
        bytes: Some(file.bytes),
    })
}

// Adds what a new file asks for beside the old file of its path.
fn add_changed(out: &mut List<FileChange>, old: &FileAt, file: EditedFile) -> Result<(), AllocError>
    requires { old.now.path ≡ file.path }
    ensures same { OnOk result (old.now.bytes ≡ file.bytes → out.new ≡ out.old) }
    ensures other { OnOk result (old.now.bytes ≢ file.bytes → out.new ≡ out.old ++ setting file ∷ []) }
{
    if old.bytes == file.bytes {
        return Ok(());
    }
    add_setting(out, file)
}

// Adds what the old files up to a new file's path and that file ask for. Gives the old files behind it.
fn add_up_to<'a>(
    alloc: Global,
    out: &mut List<FileChange>,
    old: &'a [FileAt],
    file: EditedFile,
) -> Result<&'a [FileAt], AllocError>
    ensures { IfOk result (λ rest. IsTurn old.now file out.old out.new rest.now) }
{
    let (front, rest) = old.split_at(count_below(old, &file.path));
    add_removals(alloc, out, front)?;
    match first_at(rest, &file.path) {
        Some((same, behind)) => {
            add_changed(out, same, file)?;
            Ok(behind)
        }
        None => {
            add_setting(out, file)?;
            Ok(rest)
        }
    }
}

/// The changes that make the base of these old files the new ones. Only memory can fail.
pub(crate) fn changes_of(
    alloc: Global,
    old: &[FileAt],
    new: List<EditedFile>,
) -> Result<List<FileChange>, AllocError>
    requires old { IsRisingBy path_of old.now }
    requires new { IsRisingBy named_path new }
    ensures { IfOk result (IsDifference old.now new) }
{
    let mut changes = List::empty(alloc);
    let mut left = old;
    for file in new.into_inner() {
        left = add_up_to(alloc, &mut changes, left, file)?;
    }
    add_removals(alloc, &mut changes, left)?;
    Ok(changes)
}

/// The changes that rise, make these files of the old ones and differ each from the old file at their
/// path are the only ones.
pub fn one_difference()
    ensures { (old : Items MarkedFile) (new : Items NamedFile) (cs ds : Items PathChange) → IsDifference old new cs → IsDifference old new ds → cs ≡ ds }
{}
