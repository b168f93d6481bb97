/// Why a write is not permitted.
#[derive(Debug, Drop, PartialEq, Eq)]
pub enum Refusal {
    /// No repository has the name.
    UnknownRepo,
    /// The repository has no branch of the name.
    NoBranch,
    /// The live request with this number is on the branch.
    HasLiveRequest { number: u32 },
    /// This number is not the next one of the repository.
    NumberTaken { number: u32 },
    /// No live request has this number.
    NotLive { number: u32 },
    /// The base would have more than 20,000 files or more than 67,108,864 bytes.
    BaseFull,
    /// The files of the base would stay as they are.
    NoChange,
}
