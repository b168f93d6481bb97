ghost use Rattle.std.specs.Prelude.{◌≡◌, IfOk};

use crate::{Branch, Delivery, FileAt, Request};
use rnv_base::{List, Share, Text};
use std::alloc::{AllocError, Global};

/// A repository of the forge: files by path, branches by name, requests by number, deliveries by id.
/// It is due where its base or its page changed since the last run.
#[derive(Debug, Drop)]
pub struct Repo {
    pub name: Text,
    pub revision: u32,
    pub files: List<FileAt>,
    pub branches: List<Branch>,
    pub requests: List<Request>,
    pub page: Option<Text>,
    pub due: bool,
    pub deliveries: List<Delivery>,
}

// A copy of the page.
pub(crate) fn shared_page(alloc: Global, page: &Option<Text>) -> Result<Option<Text>, AllocError>
    ensures { IfOk result (λ copy. copy ≡ page.now) }
{
    match page {
        Some(text) => Ok(Some(text.share(alloc)?)),
        None => Ok(None),
    }
}

impl Share for Repo {
    fn share(&self, alloc: Global) -> Result<Repo, AllocError> {
        Ok(Repo {
            name: self.name.share(alloc)?,
            revision: self.revision,
            files: self.files.share(alloc)?,
            branches: self.branches.share(alloc)?,
            requests: self.requests.share(alloc)?,
            page: shared_page(alloc, &self.page)?,
            due: self.due,
            deliveries: self.deliveries.share(alloc)?,
        })
    }
}
