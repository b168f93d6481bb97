//! How a write of the store is spelled as the bytes of one journal entry, and read back.
#![tactic(auto)]

mod parts;
mod reading;
mod spelled;
mod spelling;
#[cfg(test)]
mod tests;

pub use reading::{one_spelling, read_write};
pub use spelling::spell;
