ghost use Rattle.std.specs.Prelude.{◌≡◌, ◌↔◌, ◌+◌, ◌<◌, ◌≤◌, ◌++◌, ◌∷◌, List as Items, [], Option, Some, IsTrue, OnOk};
ghost use Rattle.rnv_base.specs.Files.{NamedFile};
ghost use Rattle.rnv_base.specs.Limits.{base_bytes, base_files};
ghost use Rattle.rnv_checkout.specs.Gathered.{IsGathered};

use rnv_base::{BASE_BYTES, BASE_FILES, List};
use rnv_repo::EditedFile;
use std::alloc::{AllocError, Global};
use std::convert::AsSlice;

// The files that are kept so far, as long as they are within the limits, how many they are, how many bytes they have, and how many others there are.
#[derive(Drop)]
pub(crate) struct Gathered {
    pub(crate) files: List<EditedFile>,
    pub(crate) count: u64,
    pub(crate) bytes: u64,
    pub(crate) passed: u64,
}

impl Gathered {
    // No file yet.
    pub(crate) fn none(alloc: Global) -> Gathered
        ensures { IsGathered result [] }
    {
        Gathered {
            files: List::empty(alloc),
            count: 0,
            bytes: 0,
            passed: 0,
        }
    }

    // Whether what is kept so far is within the limits.
    pub(crate) fn is_within(&self) -> bool
        ensures { IsTrue result ↔ ((self.now.count ≤ base_files) × (self.now.bytes ≤ base_bytes)) }
    {
        self.count <= BASE_FILES as u64 && self.bytes <= BASE_BYTES
    }

    // Keeps one file more.
    fn keep(&mut self, file: EditedFile) -> Result<(), AllocError>
        ensures kept { OnOk result ((outcomes : Items (Option NamedFile)) → IsGathered self.old outcomes → IsGathered self.new (outcomes ++ Some file ∷ [])) }
        ensures passed { self.new.passed ≡ self.old.passed }
    {
        self.count = self.count.saturating_add(1);
        self.bytes = self
            .bytes
            .saturating_add(file.bytes.as_slice().len() as u64);
        if self.is_within() {
            self.files.push(file)?;
        }
        Ok(())
    }

    // Takes what becomes of one path more.
    pub(crate) fn take(&mut self, outcome: Option<EditedFile>) -> Result<(), AllocError>
        requires { self.old.passed < 18446744073709551615 }
        ensures taken { OnOk result ((outcomes : Items (Option NamedFile)) → IsGathered self.old outcomes → IsGathered self.new (outcomes ++ outcome ∷ [])) }
        ensures passed { self.new.passed ≤ self.old.passed + 1 }
    {
        match outcome {
            Some(file) => self.keep(file),
            None => {
                self.passed += 1;
                Ok(())
            }
        }
    }
}
