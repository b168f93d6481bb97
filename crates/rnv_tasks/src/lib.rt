//! Post-upgrade tasks: programs of the operator's that are run on the edited files of a branch.
#![tactic(auto)]

mod command;
mod done;
mod done_file;
mod end;
mod error;
mod joining;
mod mem_spawner;
mod spawner;
mod steady;
mod tasking;
#[cfg(test)]
mod tests;
mod treating;

pub use done::Tasked;
pub use end::TaskEnd;
pub use error::{SpawnError, TaskError};
pub use mem_spawner::{MemSpawner, TaskAnswer, TaskCall};
pub use spawner::Spawner;
pub use steady::SteadySpawner;
pub use tasking::tasked;
