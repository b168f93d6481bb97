//! The program over the folder where it runs and the store there: does what its words ask for, and ends
//! with the status.
#![tactic(auto)]

mod help;
mod here_disk;
mod here_file;
mod here_folder;
mod notes;
mod stream_sink;
#[cfg(test)]
mod tests;
mod walk;

use help::{Answer, USAGE};
use here_disk::HereDisk;
use here_folder::HereFolder;
use notes::{Progress, clear_progress};
use rnv_app::{Outside, renovate};
use rnv_base::{List, Sink, Text, write_all};
use std::convert::{AsSlice, AsStr};
use std::io::{Eprint, ErrorKind, IsTerminal};
use std::process::ExitCode;
use std::rt::Env;
use std::{env, io};
use stream_sink::StreamSink;

fn main(rt: HostRuntime) -> io::Result<ExitCode> {
    let words = words(&rt)?;
    let mut out = StreamSink::new(rt.clone()?, rt.stdout(), "standard output");
    if let Some(answer) = Answer::to(&words) {
        return Ok(ExitCode::from(print(&mut out, answer)));
    }
    let is_shown = rt.stderr().is_terminal();
    let outside = Outside {
        out,
        folder: HereFolder::new(rt.clone()?, Progress::new(is_shown)),
        disk: HereDisk::new(rt.clone()?, Progress::new(is_shown)),
    };
    let ended = renovate(rt.alloc(), &words, outside);
    if is_shown {
        clear_progress(&rt);
    }
    explain(&rt, &words, ended.status.code);
    Ok(ExitCode::from(ended.status.code))
}

// Writes the answer, and gives the status: that of a failed write where the output took not all.
fn print<K: Sink>(out: &mut K, answer: Answer) -> u8 {
    let (first, second) = answer.text();
    for piece in [first, second] {
        if write_all(out, piece.as_bytes()).is_err() {
            return 10;
        }
    }
    0
}

// Says on standard error what the printed line of a refusal does not. Errors of the system were noted
// where they came.
fn explain<R: Eprint>(rt: &R, words: &List<Text>, code: u8) {
    let _ = match (code, words.as_slice()) {
        (2, _) => rt.eprint(USAGE),
        (3, [command, repo, ..]) if matches!(command.as_str(), "run" | "show") => {
            eprintln!(rt;
                "renovate: the store forge.0 has no repository {}",
                repo.as_str()
            )
        }
        (3, [_, repo, ..]) => {
            eprintln!(rt;
                "renovate: no file of a repository stands below repos/{}/",
                repo.as_str()
            )
        }
        (8, _) => {
            eprintln!(rt;
                "renovate: forge.0 is no store, or is damaged from there on; it was left as it is"
            )
        }
        _ => Ok(()),
    };
}

// The words after the program's name. Where one is not UTF-8, none: no command has such a word.
fn words(rt: &(impl Env + AllocGlobal)) -> io::Result<List<Text>> {
    let mut words = List::empty(rt.alloc());
    match env::args(rt) {
        Ok(arguments) => {
            for word in arguments.skip(1) {
                words.push(Text::new(word))?;
            }
        }
        Err(error) if error.kind() == ErrorKind::InvalidData => {}
        Err(error) => return Err(error),
    }
    Ok(words)
}
