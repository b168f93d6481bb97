ghost use Rattle.std.specs.Prelude.{◌≡◌, ◌≤◌, length, Some, None, IfOk, IfErr, OnOk, option_map};
ghost use Rattle.std.specs.Option.{option_copied};
ghost use Rattle.serde_json.specs.View.{view};
ghost use Rattle.rnv_release.specs.Crates.{crate_path, crate_reading, crate_release, line_release, with_line, yanked_of};
ghost use Rattle.rnv_release.specs.Cut.{before, cut};
ghost use Rattle.rnv_release.specs.Reading.{Reading, listed, refused};
ghost use Rattle.rnv_release.specs.Refusal.{IfBadIndex, IfTooManyReleases};

use crate::datasource::limited;
use crate::json::read_value;
use crate::lines::{is_blank, next_line};
use crate::moments::time;
use crate::{Datasource, IndexError, Release};
use rnv_base::{List, MOST_RELEASES, Text};
use serde_json::Value;
use std::alloc::{AllocError, Global};

/// A crates index (the Cargo Book, "Registry Index"): `index/crates/NAME` has a line for each release, in
/// its order, and blank lines, which are passed. A line is JSON (RFC 8259, as `serde_json` reads it): an
/// object with a text `vers`, optionally a flag `yanked`, whether the release was drawn back, and
/// optionally a `pubtime`, the text of an instant (RFC 3339, as `jiff` reads it), which is rounded down to
/// seconds. A text that is no instant, an instant outside 1970 to 9998 and a value that is no text are
/// no time. The first line that is none of this is refused with its number.
#[derive(Clone, Copy, Debug)]
pub struct CrateIndex;

impl Datasource for CrateIndex {
    ghost path_of = { λ _ name. crate_path name };

    ghost reading = { λ _ bytes. crate_reading bytes };

    fn path(&self, alloc: Global, name: &str) -> Result<Text, AllocError> {
        let mut path = String::from_str(alloc, "index/crates/")?;
        path.push_str(name)?;
        Ok(Text::new(path))
    }

    fn read(&self, alloc: Global, bytes: &[u8]) -> Result<List<Release>, IndexError> {
        limited(first_releases(alloc, bytes, MOST_RELEASES + 1)?)
    }
}

// The releases that a document lists, at most so many of them. All lines are read.
fn first_releases(alloc: Global, bytes: &[u8], most: usize) -> Result<List<Release>, IndexError>
    ensures front { IfOk result (λ releases. cut most (crate_reading bytes.now) ≡ listed releases) }
    ensures bad { IfErr result (IfBadIndex (λ line. crate_reading bytes.now ≡ refused line)) }
    ensures many { IfErr result (IfTooManyReleases (λ number. ⊥)) }
{
    let mut releases = List::empty(alloc);
    let mut rest = Some(bytes);
    let mut number = 0;
    while let Some(left) = rest {
        let (line, behind) = next_line(left);
        number += 1;
        add_line(alloc, &mut releases, most, number, line)?;
        rest = behind;
    }
    Ok(releases)
}

// Adds what the line with this number lists, where there are not as many releases as are wanted.
fn add_line(
    alloc: Global,
    releases: &mut List<Release>,
    most: usize,
    number: u64,
    line: &[u8],
) -> Result<(), IndexError>
    requires { length releases.old ≤ most }
    ensures front { OnOk result ((behind : Reading) → cut most (before releases.new behind) ≡ cut most (before releases.old (with_line number line.now behind))) }
    ensures few { OnOk result (length releases.new ≤ most) }
    ensures bad { IfErr result (IfBadIndex (λ at. (at ≡ number) × ((behind : Reading) → with_line number line.now behind ≡ refused number))) }
    ensures many { IfErr result (IfTooManyReleases (λ number. ⊥)) }
{
    if is_blank(line) {
        return Ok(());
    }
    let release = read_line(alloc, number, line)?;
    if releases.len() < most {
        releases.push(release)?;
    }
    Ok(())
}

// The release of the line with this number.
fn read_line(alloc: Global, number: u64, line: &[u8]) -> Result<Release, IndexError>
    ensures value { IfOk result (λ release. line_release line.now ≡ Some release) }
    ensures bad { IfErr result (IfBadIndex (λ at. (at ≡ number) × (line_release line.now ≡ None))) }
    ensures many { IfErr result (IfTooManyReleases (λ number. ⊥)) }
{
    let value = read_value(alloc, line, number)?;
    match release_of(alloc, &value) {
        Ok(Some(release)) => Ok(release),
        Ok(None) => Err(IndexError::BadIndex { line: number }),
        Err(_) => Err(IndexError::Memory),
    }
}

// The release that a value tells, None where it tells none. Only memory can fail.
fn release_of(alloc: Global, value: &Value) -> Result<Option<Release>, AllocError>
    ensures { IfOk result (λ found. found ≡ crate_release (view value.now)) }
{
    let Some(text) = value.get("vers").and_then(Value::as_str) else {
        return Ok(None);
    };
    let Some(yanked) = flag(value.get("yanked")) else {
        return Ok(None);
    };
    Ok(Some(Release {
        text: Text::copied(alloc, text)?,
        time: value.get("pubtime").and_then(time),
        yanked,
    }))
}

// A flag, which is false where it is missing.
fn flag(value: Option<&Value>) -> Option<bool>
    ensures { result ≡ yanked_of (option_map view (option_copied value.entry)) }
{
    match value {
        Some(value) => value.as_bool(),
        None => Some(false),
    }
}
