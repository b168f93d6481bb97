use rnv_base::{List, Share, Text};
use rnv_pick::Update;
use std::alloc::{AllocError, Global};

/// An update with the name of its branch.
#[derive(Debug, Drop)]
pub struct NamedUpdate {
    pub branch: Text,
    pub update: Update,
}

impl Share for NamedUpdate {
    fn share(&self, alloc: Global) -> Result<NamedUpdate, AllocError> {
        Ok(NamedUpdate {
            branch: self.branch.share(alloc)?,
            update: self.update.share(alloc)?,
        })
    }
}

/// The updates of a dependency that stay.
#[derive(Debug, Drop)]
pub struct KeptDep {
    pub updates: List<NamedUpdate>,
}

/// The updates of a file that stay, for each of its dependencies in turn.
#[derive(Debug, Drop)]
pub struct KeptFile {
    pub deps: List<KeptDep>,
}
