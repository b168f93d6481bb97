//! The commands over the store: `import`, which makes the base of a repository equal to its checked-out
//! files, and `show`, which prints a repository.
#![tactic(auto)]

mod difference;
mod error;
mod import;
mod on_disk;
mod printing;
mod show;
#[cfg(test)]
mod tests;

pub use difference::one_difference;
pub use error::CommandError;
pub use import::import_base;
pub use on_disk::{Answer, import_on, show_on};
pub use printing::{add, add_number, add_shown};
pub use show::{show_repo, show_text};
