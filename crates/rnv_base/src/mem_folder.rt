ghost use Rattle.std.specs.Prelude.{◌≡◌, ◌≤◌, ◌↔◌, IfOk, IfSome, IsErrOf, IsSome, IsTrue, take};
ghost use Rattle.rnv_base.specs.Causes.{FaultsBy, PassesNone, Rose};
ghost use Rattle.rnv_base.specs.Files.{read_of, bytes_inside, listed_of, paths_of, IsRising};
ghost use Rattle.rnv_base.specs.Turns.{IsListed, first_turn, next_turn};
ghost use Rattle.rnv_base.specs.declared.folder.FolderError.TheVariants.{Failed};
ghost use Rattle.std.proofs.lemmas.Map.Keys.{IsStrictlySortedBy-prop};

use crate::{Bytes, Failing, Folder, FolderError, List, Share, Text, is_rising};
use std::alloc::{AllocError, Global};
use std::convert::{AsSlice, AsStr};
use std::marker::Model;

/// As many bytes of a file are read.
const MOST: usize = 67_108_865;

/// A file of a folder in memory.
#[derive(Drop)]
pub struct MemFile {
    pub path: Text,
    pub bytes: Bytes,
}

impl Model for MemFile {
    ghost use Rattle.rnv_base.specs.Files.{NamedFile};

    ghost Value = { NamedFile };

    ghost view = { λ f. record { path = f.path; bytes = f.bytes.bytes } };
}

/// Files in memory. The calls whose numbers, from 0, are listed fail.
#[derive(Drop)]
pub struct MemFolder {
    files: List<MemFile>,
    failing: Failing,
    faults: u64,
    ghost rising: { IsRising (paths_of files) } by { IsStrictlySortedBy-prop _ _ },
}

impl MemFolder {
    /// A folder of these files whose calls with these numbers fail. None exactly where the paths do
    /// not rise. Only memory can fail.
    pub fn new(
        alloc: Global,
        files: List<MemFile>,
        failing: List<u64>,
    ) -> Result<Option<MemFolder>, AllocError>
        ensures exactly { IfOk result (λ made. IsSome made ↔ IsRising (paths_of files)) }
        ensures files { IfOk result (λ made. IfSome made (λ folder. ⟦<MemFolder as Folder>⟧.files folder ≡ files)) }
        ensures unfailed { IfOk result (λ made. IfSome made (λ folder. ⟦<MemFolder as Folder>⟧.faults folder ≡ 0)) }
        ensures failing { IfOk result (λ made. IfSome made (λ folder. folder.failing ≡ first_turn failing)) }
    {
        if !are_rising(alloc, files.as_slice())? {
            return Ok(None);
        }
        Ok(Some(MemFolder {
            files,
            failing: Failing::new(failing),
            faults: 0,
        }))
    }

    // Counts the call, and a fault if it is to fail, which it answers.
    fn fails(&mut self) -> bool
        ensures listed { IsTrue result ↔ IsListed self.old.failing }
        ensures later { self.old.faults ≤ self.new.faults }
        ensures rose { IsTrue result → Rose self.old.faults self.new.faults }
        ensures passed { ¬ IsTrue result → self.new.faults ≡ self.old.faults }
        ensures same { self.new.files ≡ self.old.files }
        ensures turn { self.new.failing ≡ next_turn self.old.failing }
    {
        let fails = self.failing.strikes();
        if fails {
            self.faults = self.faults.saturating_add(1);
        }
        fails
    }
}

impl Folder for MemFolder {
    ghost tells = { Unit {0} };

    ghost files = { λ s. s.files };

    ghost faults = { λ s. s.faults };

    fn read(&mut self, alloc: Global, path: &str) -> Result<Option<Bytes>, FolderError>
        ensures bytes { IfOk result (λ found. bytes_inside found ≡ read_of path.now self.old.files) }
        ensures same { self.new.files ≡ self.old.files }
        ensures cause { FaultsBy self.old.faults self.new.faults result Failed }
        ensures passed { PassesNone self.old.faults self.new.faults result Failed }
        ensures listed { IsErrOf result Failed ↔ IsListed self.old.failing }
        ensures turn { self.new.failing ≡ next_turn self.old.failing }
    {
        if self.fails() {
            return Err(FolderError::Failed);
        }
        match find(alloc, self.files.as_slice(), path) {
            Ok(found) => Ok(found),
            Err(_) => Err(FolderError::Memory),
        }
    }

    #[tactic(auto, using(crate::proofs::Listed::listed_rises))]
    fn list(&mut self, alloc: Global, prefix: &str) -> Result<List<Text>, FolderError>
        ensures paths { IfOk result (λ paths. paths ≡ listed_of prefix.now self.old.files) }
        ensures rising { IfOk result IsRising }
        ensures same { self.new.files ≡ self.old.files }
        ensures cause { FaultsBy self.old.faults self.new.faults result Failed }
        ensures passed { PassesNone self.old.faults self.new.faults result Failed }
        ensures listed { IsErrOf result Failed ↔ IsListed self.old.failing }
        ensures turn { self.new.failing ≡ next_turn self.old.failing }
    {
        if self.fails() {
            return Err(FolderError::Failed);
        }
        match listed(alloc, self.files.as_slice(), prefix) {
            Ok(paths) => Ok(paths),
            Err(_) => Err(FolderError::Memory),
        }
    }
}

// Whether the paths rise. Only memory can fail.
#[tactic(auto, using(crate::proofs::Listed::listed_all))]
pub fn are_rising(alloc: Global, files: &[MemFile]) -> Result<bool, AllocError>
    ensures { IfOk result (λ rise. IsTrue rise ↔ IsRising (paths_of files.now)) }
{
    let paths = listed(alloc, files, "")?;
    Ok(is_rising(paths.as_slice()))
}

// Copies of the paths that begin with the prefix.
pub fn listed(alloc: Global, files: &[MemFile], prefix: &str) -> Result<List<Text>, AllocError>
    ensures { IfOk result (λ paths. paths ≡ listed_of prefix.now files.now) }
{
    let mut paths = List::empty(alloc);
    for file in files {
        if file.path.as_str().as_bytes().starts_with(prefix.as_bytes()) {
            paths.push(file.path.share(alloc)?)?;
        }
    }
    Ok(paths)
}

// A copy of the front of the file with this path.
pub fn find(alloc: Global, files: &[MemFile], path: &str) -> Result<Option<Bytes>, AllocError>
    ensures { IfOk result (λ found. bytes_inside found ≡ read_of path.now files.now) }
{
    for file in files {
        if file.path.as_str() == path {
            return Ok(Some(front(alloc, file.bytes.as_slice(), MOST)?));
        }
    }
    Ok(None)
}

// A copy of the first `most` bytes.
fn front(alloc: Global, bytes: &[u8], most: usize) -> Result<Bytes, AllocError>
    ensures { IfOk result (λ copy. copy.bytes ≡ take most bytes.now) }
{
    let count = bytes.len().min(most);
    Ok(Bytes::new(Vec::from_slice(alloc, &bytes[..count])?))
}
