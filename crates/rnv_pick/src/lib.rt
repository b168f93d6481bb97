//! The updates of a dependency over the versioning of its source: its current version, why it is
//! skipped, which releases are chosen, and what is written for them.
#![tactic(auto)]

mod allowance;
mod bucket;
mod by_source;
mod choice;
mod choosing;
mod dep;
mod listing;
mod live;
mod options;
mod picking;
mod rules;
mod target;
#[cfg(test)]
mod tests;
mod update;
mod wanted;

pub use by_source::{is_range, one_answer, updates};
pub use dep::Dep;
pub use listing::Listing;
pub use options::{Allowed, DepOptions, UpdateOptions};
pub use rules::Rules;
pub use update::{Picked, Skip, Update};
