//! Configurations: what a `renovate.json` says, what is set, two as one, and the text.
#![tactic(auto)]

mod config;
mod engines;
mod error;
mod lists;
#[cfg(test)]
mod merge_tests;
mod merging;
mod read_config;
mod reading;
mod role;
mod rule;
mod rules;
#[cfg(test)]
mod tests;
mod text;

pub use config::Config;
pub use engines::{Engines, MemEngines};
pub use error::ConfigError;
pub use merging::merge;
pub use read_config::ReadConfig;
