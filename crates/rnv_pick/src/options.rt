use rnv_base::{Share, Strategy, Text};
use rnv_pattern::PatternList;
use std::alloc::{AllocError, Global};

/// Which versions `allowedVersions` names: those whose text matches the patterns that were read of its
/// text, or those in the range that its text is.
#[derive(Drop)]
pub enum Allowed {
    Patterns { text: Text, list: PatternList },
    Range { text: Text },
}

impl Share for Allowed {
    fn share(&self, alloc: Global) -> Result<Allowed, AllocError> {
        match self {
            Allowed::Patterns { text, list } => Ok(Allowed::Patterns {
                text: text.share(alloc)?,
                list: list.share(alloc)?,
            }),
            Allowed::Range { text } => Ok(Allowed::Range {
                text: text.share(alloc)?,
            }),
        }
    }
}

/// The options that are read at a dependency: whether it is updated at all, how its value is
/// rewritten, which versions are allowed (all where nothing is named), whether major updates are chosen
/// apart from the others, and, where they are, patches apart from minor updates.
#[derive(Drop)]
pub struct DepOptions {
    pub enabled: bool,
    pub strategy: Strategy,
    pub allowed: Option<Allowed>,
    pub split_major: bool,
    pub split_patch: bool,
}

/// The options that are read at an update: whether it is made, and how old its release has to be, in
/// seconds, if it has to be.
#[derive(Clone, Copy, Debug)]
pub struct UpdateOptions {
    pub enabled: bool,
    pub age: Option<u64>,
}

impl Share for UpdateOptions {
    fn share(&self, _alloc: Global) -> Result<UpdateOptions, AllocError> {
        Ok(*self)
    }
}
