use rnv_base::{Share, Text};
use std::alloc::{AllocError, Global};

/// A version of a package as an index lists it: its text, the moment when it came out, in seconds
/// since 1970-01-01T00:00:00Z, if the index tells one, and whether it was drawn back.
#[derive(Debug, Drop)]
pub struct Release {
    pub text: Text,
    pub time: Option<u64>,
    pub yanked: bool,
}

impl Share for Release {
    fn share(&self, alloc: Global) -> Result<Release, AllocError> {
        Ok(Release {
            text: self.text.share(alloc)?,
            time: self.time,
            yanked: self.yanked,
        })
    }
}
