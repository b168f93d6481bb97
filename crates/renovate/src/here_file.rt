use std::alloc::Global;
use std::fs::{OpenFile, OpenOptions};
use std::io::{ErrorKind, Read, Seek, SeekFrom, Write};
use std::rt::Files;
use std::{fs, io};

/// A file of the folder where the program runs, which is opened, and made empty where it is missing,
/// when it is first used.
#[derive(Drop)]
pub struct HereFile<R: Files> {
    name: &'static str,
    opened: Option<R::File>,
}

impl<R: Files> HereFile<R> {
    /// The file of this name. It is not opened yet.
    pub fn new(name: &'static str) -> HereFile<R> {
        HereFile { name, opened: None }
    }

    // Opens the file, unless that is done. Then the folder is synced, so that a stop leaves the file there.
    fn open(&mut self, rt: &R) -> io::Result<()> {
        if self.opened.is_some() {
            return Ok(());
        }
        let mut options = OpenOptions::new();
        let _ = options.read(true);
        let _ = options.write(true);
        let _ = options.create(true);
        let file = options.open(rt, self.name)?;
        fs::open(rt, ".")?.sync_all()?;
        self.opened = Some(file);
        Ok(())
    }

    /// All its bytes.
    pub fn whole(&mut self, alloc: Global, rt: &R) -> io::Result<Vec<u8>> {
        self.open(rt)?;
        match &mut self.opened {
            Some(file) => {
                let _ = file.seek(SeekFrom::Start(0))?;
                let mut bytes = Vec::new(alloc);
                let _ = file.read_to_end(&mut bytes)?;
                Ok(bytes)
            }
            None => Err(io::Error::from(ErrorKind::NotFound)),
        }
    }

    /// Writes bytes over those from an offset on.
    pub fn put(&mut self, rt: &R, at: u64, bytes: &[u8]) -> io::Result<()> {
        self.open(rt)?;
        match &mut self.opened {
            Some(file) => {
                let _ = file.seek(SeekFrom::Start(at))?;
                file.write_all(bytes)
            }
            None => Err(io::Error::from(ErrorKind::NotFound)),
        }
    }

    /// Cuts it to a length. A shorter file stays.
    pub fn shorten(&mut self, rt: &R, length: u64) -> io::Result<()> {
        self.open(rt)?;
        match &mut self.opened {
            Some(file) if file.metadata()?.len() > length => file.set_len(length),
            Some(_) => Ok(()),
            None => Err(io::Error::from(ErrorKind::NotFound)),
        }
    }

    /// Waits until the system has written it.
    pub fn sync(&mut self, rt: &R) -> io::Result<()> {
        self.open(rt)?;
        match &mut self.opened {
            Some(file) => file.sync_all(),
            None => Err(io::Error::from(ErrorKind::NotFound)),
        }
    }
}
