ghost use Rattle.std.specs.Prelude.{◌≡◌, ℕ, List, IfOk};
ghost use Rattle.rnv_base.specs.Causes.{FaultsBy, PassesNone};
ghost use Rattle.rnv_base.specs.Files.{NamedFile, read_of, bytes_inside, listed_of, IsRising};
ghost use Rattle.rnv_base.specs.declared.folder.FolderError.TheVariants.{Failed};

use crate::{Bytes, List, Text};
use std::alloc::Global;

/// Why a folder gave no answer.
#[derive(Clone, Copy, Debug, PartialEq, Eq)]
pub enum FolderError {
    /// A fault, which the folder has counted.
    Failed,
    /// Want of memory.
    Memory,
}

/// A folder of files. No call changes what it holds.
pub trait Folder {
    /// Whether it tells its files.
    ghost tells: { Type 0 };

    /// Its files, in the order of their paths.
    ghost files: { Self → List NamedFile };

    /// How often a call has failed.
    ghost faults: { Self → ℕ };

    /// The file's first 67,108,865 bytes, or None where there is no file. `Failed` only where the
    /// count of faults rose, and it rises only there.
    fn read(&mut self, alloc: Global, path: &str) -> Result<Option<Bytes>, FolderError>
        ensures bytes { tells → IfOk result (λ found. bytes_inside found ≡ read_of path.now (files self.old)) }
        ensures same { tells → (files self.new ≡ files self.old) }
        ensures cause { FaultsBy (faults self.old) (faults self.new) result Failed }
        ensures passed { PassesNone (faults self.old) (faults self.new) result Failed };

    /// The paths that begin with the prefix. They are distinct and rise, also where nothing is told.
    /// `Failed` only where the count of faults rose, and it rises only there.
    fn list(&mut self, alloc: Global, prefix: &str) -> Result<List<Text>, FolderError>
        ensures paths { tells → IfOk result (λ paths. paths ≡ listed_of prefix.now (files self.old)) }
        ensures rising { IfOk result IsRising }
        ensures same { tells → (files self.new ≡ files self.old) }
        ensures cause { FaultsBy (faults self.old) (faults self.new) result Failed }
        ensures passed { PassesNone (faults self.old) (faults self.new) result Failed };
}
