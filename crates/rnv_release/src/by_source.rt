ghost use Rattle.rnv_release.specs.Sources.{path_by, reading_by};

use crate::{CrateIndex, Datasource, DockerIndex, IndexError, NpmIndex, Release};
use rnv_base::{List, SourceKind, Text};
use std::alloc::{AllocError, Global};

/// The index of a kind of source, where the kind is known only as the program runs.
impl Datasource for SourceKind {
    ghost path_of = { path_by };

    ghost reading = { reading_by };

    fn path(&self, alloc: Global, name: &str) -> Result<Text, AllocError> {
        match self {
            SourceKind::Crates => CrateIndex.path(alloc, name),
            SourceKind::Npm => NpmIndex.path(alloc, name),
            SourceKind::Docker => DockerIndex.path(alloc, name),
        }
    }

    fn read(&self, alloc: Global, bytes: &[u8]) -> Result<List<Release>, IndexError> {
        match self {
            SourceKind::Crates => CrateIndex.read(alloc, bytes),
            SourceKind::Npm => NpmIndex.read(alloc, bytes),
            SourceKind::Docker => DockerIndex.read(alloc, bytes),
        }
    }
}
