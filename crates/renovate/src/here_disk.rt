ghost use Rattle.std.specs.Prelude.{◌≡◌, ◌≤◌};
ghost use Rattle.rnv_base.specs.Causes.{Rose};

use crate::here_file::HereFile;
use crate::notes::{Progress, note};
use rnv_base::{Bytes, Failed};
use rnv_disk::{Disk, DiskError, FileNo};
use std::alloc::Global;
use std::io;
use std::io::{Eprint, ErrorKind};
use std::rt::Files;

/// The files `forge.0` and `forge.1` of the folder where the program runs. It tells nothing of what
/// they hold, and counts each call that the system failed.
#[derive(Drop)]
pub struct HereDisk<R: Files + Eprint + Drop> {
    rt: R,
    zero: HereFile<R>,
    one: HereFile<R>,
    progress: Progress,
    faults: u64,
}

impl<R: Files + Eprint + Drop> HereDisk<R> {
    /// The files as this runtime sees them. None is opened or made yet. Syncs are steps of this progress.
    pub fn new(rt: R, progress: Progress) -> HereDisk<R> {
        HereDisk {
            rt,
            zero: HereFile::new(name_of(FileNo::Zero)),
            one: HereFile::new(name_of(FileNo::One)),
            progress,
            faults: 0,
        }
    }

    // Counts an error of the system, and notes it.
    fn fault(&mut self, file: FileNo, error: &io::Error) -> Failed
        ensures later { self.old.faults ≤ self.new.faults }
        ensures rose { Rose self.old.faults self.new.faults }
    {
        note(&self.rt, name_of(file), error);
        self.faults = self.faults.saturating_add(1);
        Failed
    }
}

impl<R: Files + Eprint + Drop> Disk for HereDisk<R> {
    ghost use Rattle.std.specs.Prelude.{[]};

    ghost tells = { ⊥ };

    ghost seen = { λ _. record { zero = []; one = [] } };

    ghost past = { λ _. record { moment = 0; left = λ t c. ⊥; earlier = λ t u c le left. left } };

    ghost faults = { λ s. s.faults };

    ghost reads_now = { λ s told. absurd told };

    ghost only_told = { λ s t c left. absurd left };

    fn read(&mut self, alloc: Global, file: FileNo) -> Result<Bytes, DiskError> {
        let bytes = match file {
            FileNo::Zero => self.zero.whole(alloc, &self.rt),
            FileNo::One => self.one.whole(alloc, &self.rt),
        };
        match bytes {
            Ok(bytes) => Ok(Bytes::new(bytes)),
            Err(error) if error.kind() == ErrorKind::OutOfMemory => Err(DiskError::Memory),
            Err(error) => {
                let _ = self.fault(file, &error);
                Err(DiskError::Failed)
            }
        }
    }

    fn write_at(&mut self, file: FileNo, at: u64, bytes: &[u8]) -> Result<(), Failed> {
        let done = match file {
            FileNo::Zero => self.zero.put(&self.rt, at, bytes),
            FileNo::One => self.one.put(&self.rt, at, bytes),
        };
        match done {
            Ok(()) => Ok(()),
            Err(error) => Err(self.fault(file, &error)),
        }
    }

    fn cut(&mut self, file: FileNo, length: u64) -> Result<(), Failed> {
        let done = match file {
            FileNo::Zero => self.zero.shorten(&self.rt, length),
            FileNo::One => self.one.shorten(&self.rt, length),
        };
        match done {
            Ok(()) => Ok(()),
            Err(error) => Err(self.fault(file, &error)),
        }
    }

    fn sync(&mut self, file: FileNo) -> Result<(), Failed> {
        self.progress.step(&self.rt, "syncs of the store");
        let done = match file {
            FileNo::Zero => self.zero.sync(&self.rt),
            FileNo::One => self.one.sync(&self.rt),
        };
        match done {
            Ok(()) => Ok(()),
            Err(error) => Err(self.fault(file, &error)),
        }
    }
}

// The name of a file of the store.
fn name_of(file: FileNo) -> &'static str {
    match file {
        FileNo::Zero => "forge.0",
        FileNo::One => "forge.1",
    }
}
