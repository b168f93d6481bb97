//! What it is to find dependencies in the files of one kind, and to write others in their place.
#![tactic(auto)]

mod conditions;
mod difference;
mod editing;
mod edits;
mod expected;
mod found;
mod keeping;
mod manager;
mod quotable;
mod reading_back;
mod replaced;
mod splicing;
#[cfg(test)]
mod tests;

pub use conditions::{all_fit, are_indexes};
pub use editing::edit;
pub use edits::{Edit, EditError};
pub use found::{ExtractError, Found};
pub use keeping::{KeepsEdits, edit_kept, quotable_edits};
pub use manager::Manager;
pub use quotable::is_quotable;
pub use splicing::{Span, splice};
