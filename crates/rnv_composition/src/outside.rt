use rnv_app::{Ended, Outside, renovate};
use rnv_base::{Bytes, List, MemFile, MemFolder, MemSink, Text};
use rnv_disk::{Call, Content, FileNo, MemDisk};
use std::alloc::{AllocError, Global};
use std::convert::AsSlice;
use std::test::Fail;

// A file of the operator's folder, as in a test's table.
pub type File = (&'static str, &'static [u8]);

// The words between the spaces of a line.
fn words(alloc: Global, line: &str) -> Result<List<Text>, AllocError> {
    let mut words = List::empty(alloc);
    for word in line.split(' ') {
        words.push(Text::copied(alloc, word)?)?;
    }
    Ok(words)
}

fn files(alloc: Global, files: &[File]) -> Result<List<MemFile>, AllocError> {
    let mut list = List::empty(alloc);
    for (path, bytes) in files {
        list.push(MemFile {
            path: Text::copied(alloc, path)?,
            bytes: Bytes::new(Vec::from_slice(alloc, bytes)?),
        })?;
    }
    Ok(list)
}

// A disk whose file `Zero` holds these bytes, and whose calls with these numbers fail.
pub fn disk(alloc: Global, zero: &[u8], failing: &[u64]) -> Result<MemDisk, AllocError> {
    let content = Content::new(Vec::from_slice(alloc, zero)?, Vec::new(alloc));
    MemDisk::new(alloc, content, List::new(Vec::from_slice(alloc, failing)?))
}

// The disk that a stop within the call of this place leaves, with these bytes in the range that it
// writes.
pub fn stopped(
    alloc: Global,
    ran: &MemDisk,
    place: usize,
    torn: &[u8],
) -> Result<MemDisk, AllocError> {
    let content = ran.stopped(alloc, place, torn)?;
    MemDisk::new(alloc, content, List::empty(alloc))
}

// What a call writes.
pub fn written(call: &Call) -> &[u8] {
    match call {
        Call::Write(_, _, bytes) => bytes.as_slice(),
        _ => &[],
    }
}

// What the words of a line leave and print.
pub struct Done {
    pub code: u8,
    pub text: Vec<u8>,
    pub disk: MemDisk,
}

// The calls of the folder and of the output that fail.
#[derive(Clone, Copy)]
pub struct Faults<'a> {
    pub reads: &'a [u64],
    pub writes: &'a [u64],
}

// What the words of a line do over these files and this disk.
pub fn answer(alloc: Global, line: &str, held: &[File], disk: MemDisk) -> Result<Done, Fail> {
    let none = Faults {
        reads: &[],
        writes: &[],
    };
    answer_with(alloc, line, held, disk, none)
}

// The same where calls of the folder and of the output fail.
pub fn answer_with(
    alloc: Global,
    line: &str,
    held: &[File],
    disk: MemDisk,
    faults: Faults,
) -> Result<Done, Fail> {
    let reads = List::new(Vec::from_slice(alloc, faults.reads)?);
    let folder = MemFolder::new(alloc, files(alloc, held)?, reads)?.ok_or("not in order")?;
    let out = MemSink::new(alloc, List::new(Vec::from_slice(alloc, faults.writes)?));
    let words = words(alloc, line)?;
    let Ended { status, outside } = renovate(alloc, &words, Outside { out, folder, disk });
    let Outside {
        out,
        folder: _,
        disk,
    } = outside;
    let text = Vec::from_slice(alloc, out.bytes())?;
    Ok(Done {
        code: status.code,
        text,
        disk,
    })
}

// What file `Zero` of a disk holds.
pub fn zero(alloc: Global, disk: &MemDisk) -> Result<Vec<u8>, AllocError> {
    Vec::from_slice(alloc, disk.part(FileNo::Zero))
}
