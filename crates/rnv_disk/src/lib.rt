//! A disk of two files: what a read gives, and what a stop at any moment may leave.
#![tactic(auto)]

mod call;
mod content;
mod device;
mod history;
mod mem_disk;
mod steady;
#[cfg(test)]
mod tests;

pub use call::Call;
pub use content::Content;
pub use device::{Disk, DiskError, FileNo};
pub use mem_disk::MemDisk;
pub use steady::SteadyDisk;
