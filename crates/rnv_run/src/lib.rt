//! A run over a forge: its writes are prepared all at once and done one by one, so that a run that
//! was stopped is gone on with by the next one.
#![tactic(auto)]

mod on_disk;
mod planning;
mod preparing;
mod printing;
mod reporting;
mod repository;
mod running;
#[cfg(test)]
mod tests;
mod writing;

pub use on_disk::{RunAnswer, RunRefusal, run_on};
pub use planning::{PlannedRun, Summary, known_repo, plan_run};
pub use printing::run_text;
pub use repository::run_repo;
pub use running::do_run;
pub use writing::do_prepared;
