use crate::FileChange;
use rnv_base::{List, Share, Text};
use std::alloc::{AllocError, Global};

/// What a user did outside, as a webhook tells it.
#[derive(Debug, Drop)]
pub enum Event {
    /// Files of the base were changed.
    Push { changes: List<FileChange> },
    /// The request with this number was merged.
    Merged { number: u32 },
    /// The request with this number was closed.
    Closed { number: u32 },
    /// The page was edited to this text.
    Page { text: Text },
}

/// A webhook that was taken, and the revision of the base after it.
#[derive(Debug, Drop)]
pub struct Delivery {
    pub id: Text,
    pub event: Event,
    pub revision: u32,
}

impl Share for Event {
    fn share(&self, alloc: Global) -> Result<Event, AllocError> {
        match self {
            Event::Push { changes } => Ok(Event::Push {
                changes: changes.share(alloc)?,
            }),
            Event::Merged { number } => Ok(Event::Merged { number: *number }),
            Event::Closed { number } => Ok(Event::Closed { number: *number }),
            Event::Page { text } => Ok(Event::Page {
                text: text.share(alloc)?,
            }),
        }
    }
}

impl Share for Delivery {
    fn share(&self, alloc: Global) -> Result<Delivery, AllocError> {
        Ok(Delivery {
            id: self.id.share(alloc)?,
            event: self.event.share(alloc)?,
            revision: self.revision,
        })
    }
}
