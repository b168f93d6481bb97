use crate::{Dep, UpdateOptions};
use rnv_base::{List, Share, Text, UpdateKind};
use std::alloc::{AllocError, Global};

/// Why a dependency has no updates: it is ignored by name or package, its value is no range, its
/// package has no document, it is not enabled, or it has no current version.
#[derive(Clone, Copy, Debug, PartialEq, Eq)]
pub enum Skip {
    Ignored,
    Unreadable,
    NoIndex,
    Disabled,
    NoRelease,
}

/// An update of a dependency, which has its current version: the text of the release, the value to be
/// written, how far it goes, whether the release is still too young, whether major updates and patches
/// are chosen apart, and the options of the update.
#[derive(Debug, Drop)]
pub struct Update {
    pub dep: Dep,
    pub new_version: Text,
    pub new_value: Text,
    pub kind: UpdateKind,
    pub pending: bool,
    pub split_major: bool,
    pub split_patch: bool,
    pub options: UpdateOptions,
}

impl Share for Update {
    fn share(&self, alloc: Global) -> Result<Update, AllocError> {
        Ok(Update {
            dep: self.dep.share(alloc)?,
            new_version: self.new_version.share(alloc)?,
            new_value: self.new_value.share(alloc)?,
            kind: self.kind,
            pending: self.pending,
            split_major: self.split_major,
            split_patch: self.split_patch,
            options: self.options,
        })
    }
}

/// The text of the current version of a dependency, the first reason to skip it, and its updates in
/// rising order of version.
#[derive(Debug, Drop)]
pub struct Picked {
    pub current: Option<Text>,
    pub skip: Option<Skip>,
    pub updates: List<Update>,
}
