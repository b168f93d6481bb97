//! The dependencies in a Dockerfile: the tags of the images that its stages begin from.
#![tactic(auto)]

mod image;
mod line;
mod manager;
mod reading;
mod stage;
#[cfg(test)]
mod tests;
mod word;

pub use manager::{DockerManager, keeps_tags};
