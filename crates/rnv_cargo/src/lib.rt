//! The dependencies in a `Cargo.toml`.
#![tactic(auto)]

mod finding;
mod key;
mod lex;
mod line;
mod manager;
mod role;
#[cfg(test)]
mod tests;
mod text;
mod value;

pub use manager::CargoManager;
pub use role::paths_are;
