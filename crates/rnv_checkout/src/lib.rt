//! The checked-out files of a repository, as the operator's folder has them.
#![tactic(auto)]

mod base_of;
mod error;
mod gathered;
mod kept;
mod reading;
#[cfg(test)]
mod tests;

pub use error::{BaseError, FolderBase};
pub use reading::read_base;
