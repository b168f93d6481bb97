ghost use Rattle.std.specs.Prelude.{◌≡◌, ◌+◌, ◌<◌, ◌≤◌, ◌++◌, [], ◌↔◌, length, take, vec_len, vec_capacity, IsSome, IfSome, IfOk, OnErr};
ghost use Rattle.rnv_base.specs.Causes.{FailsBy};
ghost use Rattle.rnv_base.specs.Files.{paths_of, IsRising};
ghost use Rattle.std.proofs.lemmas.Map.Keys.{IsStrictlySortedBy-prop};

use crate::mem_folder::{are_rising, find, listed};
use crate::{Bytes, Failed, Folder, FolderError, List, MemFile, Sink, Text};
use std::alloc::{AllocError, Global};
use std::convert::AsSlice;

/// Files in memory, of which no call fails.
#[derive(Drop)]
pub struct SteadyFolder {
    files: List<MemFile>,
    ghost rising: { IsRising (paths_of files) } by { IsStrictlySortedBy-prop _ _ },
}

impl SteadyFolder {
    /// A folder of these files. None exactly where the paths do not rise. Only memory can fail.
    pub fn new(alloc: Global, files: List<MemFile>) -> Result<Option<SteadyFolder>, AllocError>
        ensures exactly { IfOk result (λ made. IsSome made ↔ IsRising (paths_of files)) }
        ensures files { IfOk result (λ made. IfSome made (λ folder. ⟦<SteadyFolder as Folder>⟧.files folder ≡ files)) }
    {
        if !are_rising(alloc, files.as_slice())? {
            return Ok(None);
        }
        Ok(Some(SteadyFolder { files }))
    }
}

impl Folder for SteadyFolder {
    ghost tells = { Unit {0} };

    ghost files = { λ s. s.files };

    ghost faults = { λ _. 0 };

    fn read(&mut self, alloc: Global, path: &str) -> Result<Option<Bytes>, FolderError> {
        match find(alloc, self.files.as_slice(), path) {
            Ok(found) => Ok(found),
            Err(_) => Err(FolderError::Memory),
        }
    }

    #[tactic(auto, using(crate::proofs::Listed::listed_rises))]
    fn list(&mut self, alloc: Global, prefix: &str) -> Result<List<Text>, FolderError> {
        match listed(alloc, self.files.as_slice(), prefix) {
            Ok(paths) => Ok(paths),
            Err(_) => Err(FolderError::Memory),
        }
    }
}

/// Bytes in memory. A call fails only where its growth is refused.
#[derive(Drop)]
pub struct SteadySink {
    bytes: Vec<u8>,
    faults: u64,
}

impl SteadySink {
    /// An empty sink.
    pub fn new(alloc: Global) -> SteadySink
        ensures empty { ⟦<SteadySink as Sink>⟧.held result ≡ [] }
        ensures unfailed { ⟦<SteadySink as Sink>⟧.faults result ≡ 0 }
    {
        SteadySink {
            bytes: Vec::new(alloc),
            faults: 0,
        }
    }

    /// The bytes that it has taken.
    pub fn bytes(&self) -> &[u8]
        ensures { result.now ≡ ⟦<SteadySink as Sink>⟧.held self.now }
    {
        &self.bytes
    }
}

impl Sink for SteadySink {
    ghost tells = { Unit {0} };

    ghost held = { λ s. s.bytes.items };

    ghost faults = { λ s. s.faults };

    /// Takes all the bytes, or fails where there is no room for them.
    fn write(&mut self, bytes: &[u8]) -> Result<usize, Failed>
        ensures within { IfOk result (λ n. n ≤ length bytes.now) }
        ensures some { IfOk result (λ n. 0 < length bytes.now → 0 < n) }
        ensures bytes { IfOk result (λ n. self.new.bytes.items ≡ self.old.bytes.items ++ take n bytes.now) }
        ensures same { OnErr result (self.new.bytes.items ≡ self.old.bytes.items) }
        ensures cause { FailsBy self.old.faults self.new.faults result }
        ensures whole { IfOk result (λ n. n ≡ length bytes.now) }
        ensures failed { OnErr result (vec_capacity self.old.bytes < vec_len self.old.bytes + length bytes.now) }
    {
        if self.bytes.extend_from_slice(bytes).is_err() {
            self.faults = self.faults.saturating_add(1);
            return Err(Failed);
        }
        Ok(bytes.len())
    }
}
