ghost use Rattle.std.specs.Prelude.{◌≡◌, ◌==◌, IfOk, filter, map, not};
ghost use Rattle.std.specs.List.{list_any, slice_split};
ghost use Rattle.std.specs.Cmp.Lexicographic.{pointwise};
ghost use Rattle.rnv_tasks.specs.Tasks.{command_of, commands_of, is_none, words_of};

use rnv_base::{List, Share, Text};
use std::alloc::{AllocError, Global};
use std::convert::{AsSlice, AsStr};

// A command: its text, its words, and whether it may be started.
#[derive(Drop)]
pub struct Command {
    pub(crate) text: Text,
    pub(crate) words: List<Text>,
    pub(crate) allowed: bool,
}

impl Command {
    // A command of which each word and the operator's list are looked at once.
    fn of(alloc: Global, allowed: &[Text], text: &Text) -> Result<Command, AllocError>
        ensures { IfOk result (λ command. command ≡ command_of allowed.now text.now) }
    {
        let words = words(alloc, text.as_str())?;
        let allowed = !words.is_empty() && is_listed(allowed, text);
        Ok(Command {
            text: text.share(alloc)?,
            words,
            allowed,
        })
    }
}

// The commands of these texts.
pub(crate) fn read_commands(
    alloc: Global,
    allowed: &[Text],
    texts: &[Text],
) -> Result<List<Command>, AllocError>
    ensures { IfOk result (λ commands. commands ≡ commands_of allowed.now texts.now) }
{
    let mut commands = List::empty(alloc);
    for text in texts {
        commands.push(Command::of(alloc, allowed, text)?)?;
    }
    Ok(commands)
}

// Whether the operator's list has this text.
fn is_listed(allowed: &[Text], text: &Text) -> bool
    ensures { result ≡ list_any (λ one. pointwise ◌==◌ one text.now) allowed.now }
{
    allowed.iter().any(|one| *one == *text)
}

// The words of a command.
fn words(alloc: Global, text: &str) -> Result<List<Text>, AllocError>
    ensures { IfOk result (λ words. words ≡ words_of text.now) }
{
    let pieces = pieces(alloc, text)?;
    non_empty(alloc, pieces.as_slice())
}

// Those of the pieces that are not empty.
fn non_empty(alloc: Global, pieces: &[&str]) -> Result<List<Text>, AllocError>
    ensures { IfOk result (λ words. words ≡ filter (λ word. not (is_none word)) (map (λ piece. piece.now) pieces.now)) }
{
    let mut words = List::empty(alloc);
    for piece in pieces {
        if !piece.is_empty() {
            words.push(Text::copied(alloc, piece)?)?;
        }
    }
    Ok(words)
}

// What stands between spaces.
fn pieces(alloc: Global, text: &str) -> Result<Vec<&str>, AllocError>
    ensures { IfOk result (λ pieces. map (λ piece. piece.now) pieces.items ≡ slice_split (λ b. b == 32) text.now) }
{
    text.split(' ').collect(alloc)
}
