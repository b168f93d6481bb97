ghost use Rattle.std.specs.Prelude.{◌≡◌, ◌≤◌};
ghost use Rattle.rnv_base.specs.Causes.{Rose};
ghost use Rattle.rnv_base.specs.declared.folder.FolderError.TheVariants.{Failed as fault};

use crate::notes::Progress;
use crate::walk::{front, paths_below};
use rnv_base::{Bytes, Folder, FolderError, List, Text, is_rising};
use std::alloc::Global;
use std::io::{Eprint, ErrorKind};
use std::rt::Files;

/// The folder where the program runs. It tells nothing of its files, and counts each call that the
/// system failed.
#[derive(Drop)]
pub struct HereFolder<R: Files + Eprint + Drop> {
    rt: R,
    progress: Progress,
    faults: u64,
}

impl<R: Files + Eprint + Drop> HereFolder<R> {
    /// The folder as this runtime sees it. Files that are read are steps of this progress.
    pub fn new(rt: R, progress: Progress) -> HereFolder<R> {
        HereFolder {
            rt,
            progress,
            faults: 0,
        }
    }

    // Counts a listing of the system with two files of one name, and notes it.
    fn twice(&mut self, prefix: &str) -> FolderError
        ensures later { self.old.faults ≤ self.new.faults }
        ensures counted { result ≡ fault → Rose self.old.faults self.new.faults }
        ensures uncounted { ¬ (result ≡ fault) → self.new.faults ≡ self.old.faults }
    {
        let _ = eprintln!(self.rt; "renovate: {prefix}: two files of one name are listed");
        self.failed(ErrorKind::InvalidData)
    }

    // Counts an error of the system. Want of memory is no fault.
    fn failed(&mut self, kind: ErrorKind) -> FolderError
        ensures later { self.old.faults ≤ self.new.faults }
        ensures counted { result ≡ fault → Rose self.old.faults self.new.faults }
        ensures uncounted { ¬ (result ≡ fault) → self.new.faults ≡ self.old.faults }
    {
        if kind == ErrorKind::OutOfMemory {
            return FolderError::Memory;
        }
        self.faults = self.faults.saturating_add(1);
        FolderError::Failed
    }
}

impl<R: Files + Eprint + Drop> Folder for HereFolder<R> {
    ghost use Rattle.std.specs.Prelude.{[]};

    ghost tells = { ⊥ };

    ghost files = { λ _. [] };

    ghost faults = { λ s. s.faults };

    fn read(&mut self, alloc: Global, path: &str) -> Result<Option<Bytes>, FolderError> {
        self.progress.step(&self.rt, "files read");
        match front(alloc, &self.rt, path) {
            Ok(Some(bytes)) => Ok(Some(Bytes::new(bytes))),
            Ok(None) => Ok(None),
            Err(kind) => Err(self.failed(kind)),
        }
    }

    // A list that does not rise is a fault of the system: two files of one name.
    fn list(&mut self, alloc: Global, prefix: &str) -> Result<List<Text>, FolderError> {
        match paths_below(alloc, &self.rt, prefix) {
            Ok(paths) if is_rising(paths.as_slice()) => Ok(List::new(paths)),
            Ok(_) => Err(self.twice(prefix)),
            Err(kind) => Err(self.failed(kind)),
        }
    }
}
