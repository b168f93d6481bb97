use crate::EditedFile;
use rnv_base::{List, Share, Text};
use std::alloc::{AllocError, Global};

/// An update as a branch and a request keep it: the file and the package that it is for, and the new
/// value.
#[derive(Debug, Drop)]
pub struct Key {
    pub file: Text,
    pub package: Text,
    pub new_value: Text,
}

impl Share for Key {
    fn share(&self, alloc: Global) -> Result<Key, AllocError> {
        Ok(Key {
            file: self.file.share(alloc)?,
            package: self.package.share(alloc)?,
            new_value: self.new_value.share(alloc)?,
        })
    }
}

/// A branch: the revision of the base from which it was made, its updates, the whole files that
/// differ from that base, by path, and the problem that its tasks had (empty without one).
#[derive(Debug, Drop)]
pub struct Branch {
    pub name: Text,
    pub revision: u32,
    pub updates: List<Key>,
    pub files: List<EditedFile>,
    pub problem: Text,
}

impl Share for Branch {
    fn share(&self, alloc: Global) -> Result<Branch, AllocError> {
        Ok(Branch {
            name: self.name.share(alloc)?,
            revision: self.revision,
            updates: self.updates.share(alloc)?,
            files: self.files.share(alloc)?,
            problem: self.problem.share(alloc)?,
        })
    }
}
