use std::io;
use std::io::{Eprint, ErrorKind};

// After so many steps the count is shown anew.
const STEPS: u64 = 64;

/// Counts the steps of long work, and shows the count on standard error where that is a terminal.
#[derive(Drop)]
pub struct Progress {
    is_shown: bool,
    steps: u64,
}

impl Progress {
    /// No step yet. Nothing is ever written unless `is_shown`.
    pub fn new(is_shown: bool) -> Progress {
        Progress { is_shown, steps: 0 }
    }

    /// One step more of what these words name, as `files read`.
    pub fn step<R: Eprint>(&mut self, rt: &R, what: &str) {
        self.steps = self.steps.saturating_add(1);
        if self.is_shown && self.steps % STEPS == 0 {
            let _ = eprint!(rt; "\r\x1b[K{} {what}", self.steps);
        }
    }
}

/// Takes a shown count of steps away.
pub fn clear_progress<R: Eprint>(rt: &R) {
    let _ = eprint!(rt; "\r\x1b[K");
}

/// What the system answered at this path. An error is noted too, unless it says that no file stands there.
pub fn named<T: Drop, R: Eprint>(rt: &R, path: &str, answer: io::Result<T>) -> io::Result<T> {
    match answer {
        Ok(value) => Ok(value),
        Err(error) => {
            if !is_absence(error.kind()) {
                note(rt, path, &error);
            }
            Err(error)
        }
    }
}

/// Writes an error of the system at this path on standard error, unless it is want of memory.
pub fn note<R: Eprint>(rt: &R, path: &str, error: &io::Error) {
    if error.kind() != ErrorKind::OutOfMemory {
        let _ = eprintln!(rt; "renovate: {path}: {error}");
    }
}

/// Whether an error says that no file stands at the path.
pub fn is_absence(kind: ErrorKind) -> bool {
    matches!(
        kind,
        ErrorKind::NotFound
            | ErrorKind::NotADirectory
            | ErrorKind::IsADirectory
            | ErrorKind::FilesystemLoop
    )
}
