use rnv_base::{List, ManagerKind, Text};
use rnv_pick::{Dep, Picked};
use rnv_repo::FileAt;

/// A dependency as its file has it, with what is picked for it: its current version, why it is skipped
/// if it is, and its updates in rising order of version.
#[derive(Debug, Drop)]
pub struct PickedDep {
    pub dep: Dep,
    pub picked: Picked,
}

/// A file with the manager that takes it and its dependencies, in the order in which they stand there.
#[derive(Debug, Drop)]
pub struct PickedFile {
    pub path: Text,
    pub manager: ManagerKind,
    pub deps: List<PickedDep>,
}

/// What a run or a plan of a repository starts from: its name, the moment in seconds since
/// 1970-01-01T00:00:00Z, and the files that managers take, by path.
#[derive(Debug, Drop)]
pub struct Inputs {
    pub repo: Text,
    pub moment: u64,
    pub picked: List<PickedFile>,
}

/// What is gathered of a folder's repository, and its files by path, each unchanged since revision 0.
#[derive(Debug, Drop)]
pub struct Planned {
    pub inputs: Inputs,
    pub files: List<FileAt>,
}
