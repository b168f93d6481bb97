//! The repositories of the forge: their records, and the writes that change them.
#![tactic(auto)]

mod applying;
mod base;
mod branch;
mod change;
mod delivery;
mod file;
mod indexed;
mod lookup;
mod orderly;
mod refusal;
mod repo;
mod request;
mod soundness;
#[cfg(test)]
mod tests;
mod write;

pub use applying::{ApplyError, apply};
pub use branch::{Branch, Key};
pub use delivery::{Delivery, Event};
pub use file::{EditedFile, FileAt, FileChange};
pub use indexed::Indexed;
pub use orderly::{is_orderly, repo_of};
pub use refusal::Refusal;
pub use repo::Repo;
pub use request::{Request, RequestState};
pub use soundness::stays_sound;
pub use write::Write;
