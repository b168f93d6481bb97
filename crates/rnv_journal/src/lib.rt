//! A list of byte strings that survives a stop at any moment: its file, and how it is read.
#![tactic(auto)]

mod append;
#[cfg(test)]
mod append_tests;
mod head;
mod journal;
mod line;
mod making;
mod reading;
mod start;
#[cfg(test)]
mod tests;
mod writing;

pub use journal::{AppendError, Journal, PrepareError};
pub use start::StartError;
