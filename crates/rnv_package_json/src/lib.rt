//! The dependencies in a `package.json`, read as one JSON object (RFC 8259).
#![tactic(auto)]

mod manager;
mod role;
#[cfg(test)]
mod tests;
mod text;
mod value;
mod word;

pub use manager::NpmManager;
