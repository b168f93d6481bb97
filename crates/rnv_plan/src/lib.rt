//! What a run wants of a repository: the updates of its dependencies, their branches, and these in
//! order.
#![tactic(auto)]

mod branch;
mod defaults;
mod error;
mod gather;
mod group;
mod grouping;
mod indexes;
mod inputs;
mod kept;
mod managers;
mod named;
mod not_built;
mod picking;
mod planning;
mod taken;
#[cfg(test)]
mod tests;

pub use branch::branch_name;
pub use error::RunError;
pub use gather::{gather_base, gather_folder};
pub use group::Group;
pub use grouping::{items, one_order};
pub use inputs::{Inputs, PickedDep, PickedFile, Planned};
pub use kept::kept_files;
pub use named::{KeptDep, KeptFile, NamedUpdate};
pub use planning::{few_items, one_refusal, plan_folder};
