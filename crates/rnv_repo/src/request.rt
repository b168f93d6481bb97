use crate::Key;
use rnv_base::{List, Share, Text};
use std::alloc::{AllocError, Global};

/// Whether a request waits, or how it ended.
#[derive(Clone, Copy, Debug, PartialEq, Eq)]
pub enum RequestState {
    /// It waits for the reviewers.
    Live,
    /// A user closed it.
    Closed,
    /// A run closed it, since its branch is no longer wanted.
    Autoclosed,
    /// Its branch was merged into the base.
    Merged,
}

/// A request to merge a branch, made at a moment in seconds since 1970.
#[derive(Debug, Drop)]
pub struct Request {
    pub number: u32,
    pub branch: Text,
    pub updates: List<Key>,
    pub title: Text,
    pub body: Text,
    pub labels: List<Text>,
    pub made_at: u64,
    pub state: RequestState,
}

impl Share for Request {
    fn share(&self, alloc: Global) -> Result<Request, AllocError> {
        Ok(Request {
            number: self.number,
            branch: self.branch.share(alloc)?,
            updates: self.updates.share(alloc)?,
            title: self.title.share(alloc)?,
            body: self.body.share(alloc)?,
            labels: self.labels.share(alloc)?,
            made_at: self.made_at,
            state: self.state,
        })
    }
}
