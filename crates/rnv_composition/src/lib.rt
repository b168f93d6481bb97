//! Runs of the program that are stopped at any moment, or fail, and are given again: what they make
//! together, and tests that stop the program at each call of the disk.
#![tactic(auto)]

mod composing;
#[cfg(test)]
mod import;
#[cfg(test)]
mod outside;
#[cfg(test)]
mod run;

pub use composing::composition;
