use rnv_base::{List, Text};
use std::convert::{AsSlice, AsStr};

/// The words that each command takes, for standard error.
pub const USAGE: &str =
    "usage: renovate plan OWNER/NAME --now T   print the updates that the rules give
       renovate import OWNER/NAME         take the files below repos/OWNER/NAME/ into the store
       renovate run OWNER/NAME --now T    make the store's branches and requests what the rules give
       renovate show OWNER/NAME           print what the store has of a repository
       renovate --help | --version
T is a moment of UTC, as 2024-06-03T10:15:00Z.
";

// What stands behind the usage in the help.
const MORE: &str = "
The program works in the folder where it runs:
  repos/OWNER/NAME/PATH    the checked-out files of a repository
  index/npm/PACKAGE.json   the releases of a package, as npm's registry gives them
  forge.0                  the store, which the first import, run or show makes

The status is 0 where all was done and printed. Else it is the number in the printed line
`error NUMBER: TEXT`, and what the system said stands on standard error.
";

// The program's name and version, as a line.
const VERSION: &str = "renovate 0.1.0\n";

/// What words ask for that name no command.
#[derive(Clone, Copy, Debug, PartialEq, Eq)]
pub enum Answer {
    /// The help.
    Help,
    /// The program's name and version.
    Version,
}

impl Answer {
    /// What these words ask for: the help for `--help`, `-h` and `help`, the version for `--version` and
    /// `-V`. None for all other words.
    pub fn to(words: &List<Text>) -> Option<Answer> {
        match words.as_slice() {
            [word] => match word.as_str() {
                "--help" | "-h" | "help" => Some(Answer::Help),
                "--version" | "-V" => Some(Answer::Version),
                _ => None,
            },
            _ => None,
        }
    }

    /// Its text, in two pieces.
    pub fn text(self) -> (&'static str, &'static str) {
        match self {
            Answer::Help => (USAGE, MORE),
            Answer::Version => (VERSION, ""),
        }
    }
}
