//! Webhooks: what the body of a request tells.
#![tactic(auto)]

mod changes;
mod events;
mod json;
#[cfg(test)]
mod tests;
mod told;

pub use told::{BodyError, Told, read_told};
