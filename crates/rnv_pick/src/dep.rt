ghost use Rattle.std.specs.Prelude.{◌≡◌, IfOk};
ghost use Rattle.rnv_pick.specs.Options.{with_current};

use rnv_base::{ManagerKind, Share, SourceKind, Text};
use std::alloc::{AllocError, Global};

/// A dependency as a file has it: the file's path in its repository, what read it and where its
/// releases are listed, the place in the file, its name, package and value, the byte of the file at
/// which the value starts, and the text of its current version, if it has one.
#[derive(Debug, Drop)]
pub struct Dep {
    pub file: Text,
    pub manager: ManagerKind,
    pub source: SourceKind,
    pub place: Text,
    pub name: Text,
    pub package: Text,
    pub value: Text,
    pub start: usize,
    pub current: Option<Text>,
}

impl Dep {
    // The same with this current version.
    pub(crate) fn with_current(
        &self,
        alloc: Global,
        current: Option<Text>,
    ) -> Result<Dep, AllocError>
        ensures { IfOk result (λ dep. dep ≡ with_current self.now current) }
    {
        Ok(Dep {
            file: self.file.share(alloc)?,
            manager: self.manager,
            source: self.source,
            place: self.place.share(alloc)?,
            name: self.name.share(alloc)?,
            package: self.package.share(alloc)?,
            value: self.value.share(alloc)?,
            start: self.start,
            current,
        })
    }
}

// A copy of a text that may be missing.
pub(crate) fn share_text(alloc: Global, text: &Option<Text>) -> Result<Option<Text>, AllocError>
    ensures { IfOk result (λ copy. copy ≡ text.now) }
{
    match text {
        Some(text) => Ok(Some(text.share(alloc)?)),
        None => Ok(None),
    }
}

impl Share for Dep {
    fn share(&self, alloc: Global) -> Result<Dep, AllocError> {
        let current = share_text(alloc, &self.current)?;
        self.with_current(alloc, current)
    }
}
