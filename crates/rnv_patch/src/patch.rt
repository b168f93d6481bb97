ghost use Rattle.std.specs.Prelude.{◌≡◌, ℕ, List as Items, IfOk, OnOk};
ghost use Rattle.std.specs.Cmp.Lexicographic.{slice_cmp};
ghost use Rattle.std.specs.List.{concat, prefix_len};
ghost use Rattle.std.specs.Option.{option_copied};
ghost use Rattle.std.specs.Ordering.{is_lt, nat_cmp};
ghost use Rattle.rnv_repo.specs.Base.{path_of};
ghost use Rattle.rnv_repo.specs.Named.{IsRisingBy, at};
ghost use Rattle.rnv_patch.specs.File.{AddPart};
ghost use Rattle.rnv_patch.specs.Lines.{lines};
ghost use Rattle.rnv_patch.specs.Patch.{IsPatch, TakesToBranch, branch_path, text_at};

use crate::diffs::add_diff;
use rnv_base::{Bytes, List, Text};
use rnv_repo::{EditedFile, FileAt};
use std::alloc::{AllocError, Global};
use std::convert::{AsSlice, AsStr};

/// The patch from the files of a base to those of a branch, as `git apply` and `patch -p1` take it: of each
/// file of the branch whose bytes are not the base's, in their order, its unified diff with three lines of
/// context. Files of the base that the branch does not list stay. Only memory can fail.
#[tactic(auto, using(crate::proofs::FirstLine::lines_make))]
pub fn patch_text(
    alloc: Global,
    base: &List<FileAt>,
    files: &List<EditedFile>,
) -> Result<Bytes, AllocError>
    requires base { IsRisingBy path_of base.now }
    requires files { IsRisingBy branch_path files.now }
    ensures patch { IfOk result (λ patch. IsPatch base.now files.now patch.bytes) }
    ensures applied { IfOk result (λ patch. TakesToBranch base.now files.now patch.bytes) }
    ensures lines { (text : Items ℕ) → concat (lines text) ≡ text }
{
    let patch = patch_bytes(alloc, base.as_slice(), files.as_slice())?;
    Ok(Bytes::new(patch))
}

fn patch_bytes(alloc: Global, base: &[FileAt], files: &[EditedFile]) -> Result<Vec<u8>, AllocError>
    requires { IsRisingBy path_of base.now }
    ensures { IfOk result (λ patch. IsPatch base.now files.now patch.items) }
{
    let mut patch = Vec::new(alloc);
    for file in files {
        add_file(alloc, &mut patch, base, file)?;
    }
    Ok(patch)
}

// The diff of a file at the end, if it has one.
fn add_file(
    alloc: Global,
    patch: &mut Vec<u8>,
    base: &[FileAt],
    file: &EditedFile,
) -> Result<(), AllocError>
    requires { IsRisingBy path_of base.now }
    ensures { OnOk result (AddPart file.now.path (text_at file.now.path base.now) file.now.bytes patch.old.items patch.new.items) }
{
    let path = file.path.as_str().as_bytes();
    let old = base_bytes(base, &file.path);
    add_diff(alloc, patch, path, old, file.bytes.as_slice())
}

// The bytes of the base's file at a path.
fn base_bytes<'a>(base: &'a [FileAt], path: &Text) -> Option<&'a [u8]>
    requires { IsRisingBy path_of base.now }
    ensures { option_copied result ≡ text_at path.now base.now }
{
    match base.get(place_of(base, path)) {
        Some(file) if file.path == *path => Some(file.bytes.as_slice()),
        _ => None,
    }
}

// The place of a path: how many files are below it.
fn place_of(base: &[FileAt], path: &Text) -> usize
    requires { IsRisingBy path_of base.now }
    ensures { result ≡ prefix_len (λ f. is_lt (slice_cmp nat_cmp f.path path.now)) base.now }
{
    base.partition_point(|file| file.path < *path)
}
