use crate::Section;
use rnv_base::{List, ManagerKind, Text};

/// An item as a page shows it.
#[derive(Debug, Drop)]
pub struct PageItem {
    pub section: Section,
    /// The name of its branch, which its box carries.
    pub branch: Text,
    pub title: Text,
    /// The number of its live request, shown in the section of open items alone.
    pub number: u32,
    /// Why it is errored, shown in the section of errored items alone.
    pub note: Text,
}

/// A file with the dependencies that were found in it, in the order of the file.
#[derive(Debug, Drop)]
pub struct PageFile {
    pub path: Text,
    pub manager: ManagerKind,
    pub lines: List<PageLine>,
}

/// A dependency as a page shows it.
#[derive(Debug, Drop)]
pub struct PageLine {
    pub package: Text,
    pub value: Text,
    /// Why it gets no updates: empty where it may get some.
    pub skip: Text,
}
