//! Patches: unified diffs from the files of a base to those of a branch, as `git apply` and `patch -p1`
//! take them.
#![tactic(auto)]

mod diffs;
mod hunks;
mod lines;
mod names;
mod patch;
#[cfg(test)]
mod tests;
mod trimming;

pub use patch::patch_text;
