ghost use Rattle.std.specs.Prelude.{◌≡◌, ◌==◌, ◌≤◌, ◌+◌, ◌++◌, ◌∷◌, length, option_map, IfOk, IfErr, MatchOption};
ghost use Rattle.std.specs.List.{before_first};
ghost use Rattle.std.specs.Option.{option_copied};
ghost use Rattle.rnv_manager.specs.declared.found.ExtractError.TheVariants.{Memory};
ghost use Rattle.rnv_manager.specs.Finds.{views};
ghost use Rattle.rnv_docker.specs.Lines.{lines};
ghost use Rattle.rnv_docker.specs.Read.{behind_feed, lines_of, tag_view, tag_in, found_in, state, step, finish, run, started};

use crate::image::tagged;
use crate::line::has_here;
use crate::stage::{continues, stage_of};
use rnv_base::SourceKind;
use rnv_manager::{ExtractError, Found};
use std::alloc::Global;

// The find of a stage, of which it is not said yet whether it is the last one.
#[derive(Clone, Copy)]
pub struct Tagged<'a> {
    pub name: &'a str,
    pub tag: &'a str,
    pub start: usize,
}

// What is read of the lines so far.
#[derive(Drop)]
pub struct Reading<'a> {
    // The finds of all stages but the last.
    pub found: Vec<Found<'a>>,
    pub last: Option<Tagged<'a>>,
    // Whether the next line is a continuation.
    pub continued: bool,
}

// Adds the find in that place.
fn add<'a>(
    found: &mut Vec<Found<'a>>,
    find: Option<Tagged<'a>>,
    place: &'a str,
) -> Result<(), ExtractError>
    ensures ok { IfOk result (λ _. views found.new.items ≡ views found.old.items ++ found_in place.now (option_map tag_view find.entry)) }
    ensures err { IfErr result (λ e. e ≡ Memory) }
{
    let Some(Tagged { name, tag, start }) = find else {
        return Ok(());
    };
    found.push(Found {
        name,
        package: name,
        place,
        value: tag,
        start,
        source: SourceKind::Docker,
    })?;
    Ok(())
}

// The find of the image of a stage, whose line ends at that place in the file.
fn find<'a>(image: &'a str, back: &'a str, end: usize) -> Option<Tagged<'a>>
    requires { length image.now + length back.now ≤ end }
    ensures { option_map tag_view result ≡ tag_in image.now back.now end }
{
    let (name, tag) = tagged(image)?;
    Some(Tagged {
        name,
        tag,
        start: end - back.len() - tag.len(),
    })
}

// Reads a line that ends at that place in the file.
fn read_line<'a>(reading: &mut Reading<'a>, line: &'a str, end: usize) -> Result<(), ExtractError>
    requires { length line.now ≤ end }
    ensures ok { IfOk result (λ _. state reading.new ≡ step (state reading.old) line.now end) }
    ensures err { IfErr result (λ e. e ≡ Memory) }
{
    let stage = stage_of(reading.continued, line);
    reading.continued = continues(reading.continued, line);
    let Some((image, back)) = stage else {
        return Ok(());
    };
    add(&mut reading.found, reading.last, "stage")?;
    reading.last = find(image, back, end);
    Ok(())
}

// What stands before the first line feed, and what stands behind it.
fn cut(text: &str) -> (&str, Option<&str>)
    ensures front { result.0.now ≡ before_first (λ x. x == 10) text.now }
    ensures back { option_copied result.1 ≡ behind_feed text.now }
    ensures lengths { MatchOption result.1 (length result.0.now ≡ length text.now) (λ rest. length result.0.now + 1 + length rest.now ≡ length text.now) }
{
    match text.split_once('\n') {
        Some((line, rest)) => (line, Some(rest)),
        None => (text, None),
    }
}

// The first line, and what stands behind its end.
fn next_line(text: &str) -> (&str, Option<&str>)
    ensures lines { lines text.now ≡ result.0.now ∷ lines_of (option_copied result.1) }
    ensures lengths { MatchOption result.1 (length result.0.now ≡ length text.now) (λ rest. length result.0.now + 1 + length rest.now ≡ length text.now) }
{
    cut(text)
}

// Reads the lines of a file up to the first one with `<<`.
fn read_lines<'a>(reading: &mut Reading<'a>, file: &'a str) -> Result<(), ExtractError>
    ensures ok { IfOk result (λ _. finish (state reading.new) ≡ run (state reading.old) 0 (lines file.now)) }
    ensures err { IfErr result (λ e. e ≡ Memory) }
{
    let mut rest = Some(file);
    while let Some(text) = rest {
        let (line, behind) = next_line(text);
        if has_here(line.as_bytes()) {
            return Ok(());
        }
        let end = file.len() - text.len() + line.len();
        read_line(reading, line, end)?;
        rest = behind;
    }
    Ok(())
}

// The finds of a whole file.
pub fn finds<'a>(alloc: Global, file: &'a str) -> Result<Vec<Found<'a>>, ExtractError>
    ensures ok { IfOk result (λ v. views v.items ≡ run started 0 (lines file.now)) }
    ensures err { IfErr result (λ e. e ≡ Memory) }
{
    let mut reading = Reading {
        found: Vec::new(alloc),
        last: None,
        continued: false,
    };
    read_lines(&mut reading, file)?;
    let Reading {
        mut found,
        last,
        ..
    } = reading;
    add(&mut found, last, "final")?;
    Ok(found)
}
