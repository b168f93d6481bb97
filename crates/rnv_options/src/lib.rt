//! Options: the one table of their names and values, and the readers of these values.
#![tactic(auto)]

mod custom;
mod error;
mod fits;
mod kind;
mod matcher;
mod opt;
mod plain;
mod reading;
mod setting;
mod tasks;
#[cfg(test)]
mod tests;

pub use custom::{are_objects, customs};
pub use error::Wrong;
pub use kind::{Kind, ReadAt, Texts, Values};
pub use matcher::{MatchKind, MatchOn, Matcher, read_matcher};
pub use opt::{ALL, Opt};
pub use plain::{Allowed, Custom, Patterns, Plain, RuleSetting, TaskOptions, share_option};
pub use reading::{read_plain, texts};
pub use setting::{OptValue, Rule, Setting};
