//! The store of repositories, as a list of writes over a journal: after a stop at any moment it
//! holds the writes from before, or those and the next prepared one.
#![tactic(auto)]

mod forge;
mod journal_forge;
mod mem_forge;
mod start;
mod store;
mod stored;
#[cfg(test)]
mod tests;
mod texts;

pub use forge::{Forge, ForgePrepareError, WriteError};
pub use journal_forge::{JournalForge, StartRefused};
pub use mem_forge::MemForge;
