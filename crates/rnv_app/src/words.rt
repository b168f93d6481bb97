ghost use Rattle.std.specs.Prelude.{◌≡◌, ◌↔◌, ◌∷◌, [], ℕ, List as Items, IfOk, IfSome, IfNone, IsErrOf};
ghost use Rattle.rnv_app.specs.Words.{AreWords, IsAsked, IsImport, IsPlan, IsRun, IsShow, IsUsage};
ghost use Rattle.rnv_app.specs.declared.words.WordsError.TheVariants.{Usage};

use rnv_base::{List, Share, Text, moment_read, name_ok};
use std::alloc::Global;
use std::convert::{AsSlice, AsStr};

/// What the program's words ask for.
#[derive(Debug, Drop)]
pub enum Words {
    /// To plan a repository of the folder, at a moment in seconds since 1970-01-01T00:00:00Z.
    Plan { repo: Text, now: u64 },
    /// To run over a repository of the store, at a moment in seconds since 1970-01-01T00:00:00Z.
    Run { repo: Text, now: u64 },
    /// To make the base of a repository of the store its checked-out files.
    Import { repo: Text },
    /// To print a repository of the store.
    Show { repo: Text },
}

/// Why words ask for nothing.
#[derive(Clone, Copy, Debug, PartialEq, Eq)]
pub enum WordsError {
    /// They are not of a form that the program takes.
    Usage,
    /// Want of memory.
    Memory,
}

impl Words {
    /// What the words `plan REPO --now T`, `run REPO --now T`, `import REPO` or `show REPO` ask for, in
    /// just this order: REPO is a repository name, and T a moment as RFC 3339 writes it in whole seconds
    /// of UTC. `Usage` exactly for other words.
    pub fn read(alloc: Global, words: &List<Text>) -> Result<Words, WordsError>
        ensures read { IfOk result (AreWords words.now) }
        ensures usage { IsErrOf result Usage ↔ IsUsage words.now }
    {
        match words.as_slice() {
            [command, repo] => two(alloc, words, command, repo),
            [command, repo, flag, time] => four(alloc, words, command, repo, flag, time),
            _ => Err(WordsError::Usage),
        }
    }
}

// What these two words ask for.
fn two(alloc: Global, words: &List<Text>, command: &Text, repo: &Text) -> Result<Words, WordsError>
    requires { words.now ≡ command.now ∷ repo.now ∷ [] }
    ensures read { IfOk result (AreWords words.now) }
    ensures usage { IsErrOf result Usage ↔ IsUsage words.now }
{
    if !name_ok(repo.as_str()) {
        return Err(WordsError::Usage);
    }
    match command.as_str() {
        "import" => import(alloc, words, repo),
        "show" => show(alloc, words, repo),
        _ => Err(WordsError::Usage),
    }
}

// What these four words ask for.
fn four(
    alloc: Global,
    words: &List<Text>,
    command: &Text,
    repo: &Text,
    flag: &Text,
    time: &Text,
) -> Result<Words, WordsError>
    requires { words.now ≡ command.now ∷ repo.now ∷ flag.now ∷ time.now ∷ [] }
    ensures read { IfOk result (AreWords words.now) }
    ensures usage { IsErrOf result Usage ↔ IsUsage words.now }
{
    let Some(now) = asked(repo.as_str(), flag.as_str(), time.as_str()) else {
        return Err(WordsError::Usage);
    };
    match command.as_str() {
        "plan" => plan(alloc, words, repo, now),
        "run" => run(alloc, words, repo, now),
        _ => Err(WordsError::Usage),
    }
}

// What words that ask for this plan give.
fn plan(alloc: Global, words: &List<Text>, repo: &Text, now: u64) -> Result<Words, WordsError>
    requires { IsPlan words.now repo.now now }
    ensures read { IfOk result (AreWords words.now) }
    ensures usage { IsErrOf result Usage ↔ IsUsage words.now }
{
    let _ = words;
    match repo.share(alloc) {
        Ok(repo) => Ok(Words::Plan { repo, now }),
        Err(_) => Err(WordsError::Memory),
    }
}

// What words that ask for this run give.
fn run(alloc: Global, words: &List<Text>, repo: &Text, now: u64) -> Result<Words, WordsError>
    requires { IsRun words.now repo.now now }
    ensures read { IfOk result (AreWords words.now) }
    ensures usage { IsErrOf result Usage ↔ IsUsage words.now }
{
    let _ = words;
    match repo.share(alloc) {
        Ok(repo) => Ok(Words::Run { repo, now }),
        Err(_) => Err(WordsError::Memory),
    }
}

// What words that ask for this import give.
fn import(alloc: Global, words: &List<Text>, repo: &Text) -> Result<Words, WordsError>
    requires { IsImport words.now repo.now }
    ensures read { IfOk result (AreWords words.now) }
    ensures usage { IsErrOf result Usage ↔ IsUsage words.now }
{
    let _ = words;
    match repo.share(alloc) {
        Ok(repo) => Ok(Words::Import { repo }),
        Err(_) => Err(WordsError::Memory),
    }
}

// What words that ask to show this repository give.
fn show(alloc: Global, words: &List<Text>, repo: &Text) -> Result<Words, WordsError>
    requires { IsShow words.now repo.now }
    ensures read { IfOk result (AreWords words.now) }
    ensures usage { IsErrOf result Usage ↔ IsUsage words.now }
{
    let _ = words;
    match repo.share(alloc) {
        Ok(repo) => Ok(Words::Show { repo }),
        Err(_) => Err(WordsError::Memory),
    }
}

// The moment that stands behind a repository name and `--now`.
fn asked(repo: &str, flag: &str, time: &str) -> Option<u64>
    ensures some { IfSome result (IsAsked repo.now flag.now time.now) }
    ensures none { IfNone result ((now : ℕ) → ¬ IsAsked repo.now flag.now time.now now) }
{
    if flag != "--now" || !name_ok(repo) {
        return None;
    }
    moment_read(time)
}
