//! What every crate of the product stands on: texts, bytes and lists that contracts see as lists,
//! the traits of the outside with fakes in memory, the names of the forge, and moments.
#![tactic(auto)]

mod bytes;
mod civil;
mod failed;
mod failing;
mod folder;
mod kinds;
mod limits;
mod list;
mod mem_folder;
mod mem_sink;
mod moment;
mod names;
mod rising;
mod share;
mod sink;
mod steady;
#[cfg(test)]
mod tests;
mod text;
mod writing;

pub use bytes::Bytes;
pub use failed::Failed;
pub use failing::Failing;
pub use folder::{Folder, FolderError};
pub use kinds::{ManagerKind, SourceKind, Strategy, UpdateKind, kinds_rise};
pub use limits::{
    BASE_BYTES, BASE_FILES, DOCUMENT_BYTES, MOST_DEPENDENCIES, MOST_ITEMS, MOST_RELEASES,
    MOST_RULES, STORE_BYTES,
};
pub use list::List;
pub use mem_folder::{MemFile, MemFolder};
pub use mem_sink::MemSink;
pub use moment::{moment_read, moment_text};
pub use names::{name_ok, package_ok, path_ok};
pub use rising::is_rising;
pub use share::Share;
pub use sink::Sink;
pub use steady::{SteadyFolder, SteadySink};
pub use text::Text;
pub use writing::write_all;
