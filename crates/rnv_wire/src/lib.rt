//! Where bytes come from: a source, and a listener with one connection after another, each with
//! fakes in memory.
#![tactic(auto)]

mod connections;
mod listener;
mod mem_listener;
mod mem_source;
mod reading;
mod source;
mod steady;
#[cfg(test)]
mod tests;

pub use listener::Listener;
pub use mem_listener::MemListener;
pub use mem_source::MemSource;
pub use reading::{ReadError, read_all};
pub use source::Source;
pub use steady::{SteadyListener, SteadySource};
