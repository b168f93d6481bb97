//! The program as one call over the outside: its words, what it prints, and its statuses.
#![tactic(auto)]

mod plan_text;
mod refusal;
mod report;
#[cfg(test)]
mod store_tests;
#[cfg(test)]
mod tests;
mod top;
mod words;

pub use refusal::Refusal;
pub use top::{Ended, Outside, Status, renovate};
pub use words::{Words, WordsError};
