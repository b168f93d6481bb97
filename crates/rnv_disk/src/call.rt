ghost use Rattle.std.specs.Prelude.{◌≡◌, OnOk, OnErr};
ghost use Rattle.rnv_disk.specs.Course.{file_of, one_after, one_torn};

use crate::content::front;
use crate::{Content, FileNo};
use rnv_base::Bytes;
use std::alloc::AllocError;
use std::convert::AsSlice;

/// A call that a disk in memory has done. Reads are not among them.
#[derive(Drop)]
pub enum Call {
    /// These bytes were written to a file, from this offset on.
    Write(FileNo, u64, Bytes),
    /// A file was cut to this length.
    Cut(FileNo, u64),
    /// A file was synced.
    Sync(FileNo),
}

impl Call {
    /// The file that it was done on.
    pub fn file(&self) -> FileNo
        ensures { result ≡ file_of self.now }
    {
        match self {
            Call::Write(file, _, _) | Call::Cut(file, _) | Call::Sync(file) => *file,
        }
    }
}

// Does a call. Only memory can fail, and then the content stays.
#[tactic(auto, using(crate::proofs::Ranges::part_kept))]
pub fn apply(content: &mut Content, call: &Call) -> Result<(), AllocError>
    ensures ok { OnOk result (content.new ≡ one_after call.now content.old) }
    ensures err { OnErr result (content.new ≡ content.old) }
{
    match call {
        Call::Write(file, at, bytes) => content.write(*file, *at as usize, bytes.as_slice()),
        Call::Cut(file, length) => {
            content.cut(*file, *length as usize);
            Ok(())
        }
        Call::Sync(_) => Ok(()),
    }
}

// Does a part of a call, and leaves these bytes in the range that a stop within it leaves open.
#[tactic(auto, using(crate::proofs::Ranges::part_kept))]
pub fn apply_torn(content: &mut Content, call: &Call, torn: &[u8]) -> Result<(), AllocError>
    ensures { OnOk result (content.new ≡ one_torn call.now torn.now content.old) }
{
    match call {
        Call::Write(file, at, bytes) => {
            let torn = front(torn, bytes.as_slice().len());
            content.write(*file, *at as usize, torn)
        }
        Call::Cut(file, length) => content.tear(*file, *length as usize, torn),
        Call::Sync(_) => Ok(()),
    }
}
