//! The releases of packages: the documents of an index that list them, and what a folder's index
//! gives for a package.
#![tactic(auto)]

mod by_source;
mod crates;
mod datasource;
mod docker;
mod json;
mod lines;
mod lookup;
mod moments;
mod npm;
mod package;
mod release;
#[cfg(test)]
mod tests;
mod times;

pub use crates::CrateIndex;
pub use datasource::{Datasource, IndexError};
pub use docker::DockerIndex;
pub use lookup::{ReadIndexError, read_releases};
pub use npm::NpmIndex;
pub use release::Release;
