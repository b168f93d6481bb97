ghost use Rattle.std.specs.Prelude.{◌≡◌, IfOk};
ghost use Rattle.rnv_base.specs.Files.{bytes_inside};

use rnv_base::{Bytes, Share, Text};
use std::alloc::{AllocError, Global};
use std::marker::Model;

/// A file with its whole bytes. Contracts see its path and its bytes.
#[derive(Debug, Drop)]
pub struct EditedFile {
    pub path: Text,
    pub bytes: Bytes,
}

impl Model for EditedFile {
    ghost use Rattle.rnv_base.specs.Files.{NamedFile};

    ghost Value = { NamedFile };

    ghost view = { λ f. record { path = f.path; bytes = f.bytes.bytes } };
}

impl Share for EditedFile {
    fn share(&self, alloc: Global) -> Result<EditedFile, AllocError> {
        Ok(EditedFile {
            path: self.path.share(alloc)?,
            bytes: self.bytes.share(alloc)?,
        })
    }
}

/// A file of a repository's base, and the revision at which its bytes last changed. Contracts see
/// the path, the bytes and that revision.
#[derive(Debug, Drop)]
pub struct FileAt {
    pub path: Text,
    pub bytes: Bytes,
    pub changed: u32,
}

impl Model for FileAt {
    ghost use Rattle.rnv_repo.specs.Files.{MarkedFile};

    ghost Value = { MarkedFile };

    ghost view = { λ f. record { path = f.path; bytes = f.bytes.bytes; changed = f.changed } };
}

/// A change of one file: its new bytes, or None where it is removed. Contracts see the path and
/// these.
#[derive(Debug, Drop)]
pub struct FileChange {
    pub path: Text,
    pub bytes: Option<Bytes>,
}

impl Model for FileChange {
    ghost use Rattle.rnv_base.specs.Files.{bytes_inside};
    ghost use Rattle.rnv_repo.specs.Files.{PathChange};

    ghost Value = { PathChange };

    ghost view = { λ c. record { path = c.path; bytes = bytes_inside c.bytes } };
}

impl Share for FileAt {
    fn share(&self, alloc: Global) -> Result<FileAt, AllocError> {
        Ok(FileAt {
            path: self.path.share(alloc)?,
            bytes: self.bytes.share(alloc)?,
            changed: self.changed,
        })
    }
}

fn shared_bytes(alloc: Global, bytes: &Option<Bytes>) -> Result<Option<Bytes>, AllocError>
    ensures { IfOk result (λ copy. bytes_inside copy ≡ bytes_inside bytes.now) }
{
    match bytes {
        Some(bytes) => Ok(Some(bytes.share(alloc)?)),
        None => Ok(None),
    }
}

impl Share for FileChange {
    fn share(&self, alloc: Global) -> Result<FileChange, AllocError> {
        Ok(FileChange {
            path: self.path.share(alloc)?,
            bytes: shared_bytes(alloc, &self.bytes)?,
        })
    }
}
