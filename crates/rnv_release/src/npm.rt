ghost use Rattle.std.specs.Prelude.{◌≡◌, length, map, Some, IfOk, option_map};
ghost use Rattle.std.specs.BTreeMap.{btree_map_len};
ghost use Rattle.serde_json.specs.Data.{object};
ghost use Rattle.serde_json.specs.Find.{as_object};
ghost use Rattle.serde_json.specs.View.{view, members_view};
ghost use Rattle.rnv_release.specs.Npm.{names_of, npm_path, npm_reading, npm_releases, release_of};
ghost use Rattle.rnv_release.specs.Times.{AreRising, release_told, times_in, times_left};
ghost use Rattle.rnv_release.specs.Parts.{releases_of_parts};

use crate::json::read_value;
use crate::times::Times;
use crate::{Datasource, IndexError, Release};
use rnv_base::{List, MOST_RELEASES, Text};
use serde_json::{Map, Value};
use std::alloc::{AllocError, Global};

/// An index of npm packages: `index/npm/NAME.json` is JSON (RFC 8259, as `serde_json` reads it): an
/// object with an object `versions`, whose names are the releases in the order of their bytes, and
/// optionally an object `time` from release to the text of an instant (RFC 3339, as `jiff` reads it),
/// which is rounded down to seconds. A text that is no instant, an instant outside 1970 to 9998 and a
/// value that is no text are no time. No release is drawn back.
#[derive(Clone, Copy, Debug)]
pub struct NpmIndex;

impl Datasource for NpmIndex {
    ghost path_of = { λ _ name. npm_path name };

    ghost reading = { λ _ bytes. npm_reading bytes };

    fn path(&self, alloc: Global, name: &str) -> Result<Text, AllocError> {
        let mut path = String::from_str(alloc, "index/npm/")?;
        path.push_str(name)?;
        path.push_str(".json")?;
        Ok(Text::new(path))
    }

    fn read(&self, alloc: Global, bytes: &[u8]) -> Result<List<Release>, IndexError> {
        let document = read_value(alloc, bytes, 1)?;
        let Some(Parts { versions, times }) = parts_of(alloc, document) else {
            return Err(IndexError::BadIndex { line: 1 });
        };
        if versions.len() > MOST_RELEASES {
            return Err(IndexError::TooManyReleases {
                number: MOST_RELEASES as u64,
            });
        }
        match releases(alloc, versions, times) {
            Ok(releases) => Ok(releases),
            Err(_) => Err(IndexError::Memory),
        }
    }
}

/// The objects of a document that tell its releases. `times` has no members where it is missing.
#[derive(Drop)]
pub struct Parts {
    pub versions: Map<String, Value>,
    pub times: Map<String, Value>,
}

// The objects that tell the releases of a document, None where it is no npm document.
fn parts_of(alloc: Global, document: Value) -> Option<Parts>
    ensures { option_map releases_of_parts result ≡ npm_releases (view document) }
{
    let mut members = object_members(document)?;
    let times = times_in(alloc, members.remove("time"))?;
    let versions = object_members(members.remove("versions")?)?;
    Some(Parts { versions, times })
}

// The members of an object, None of another value.
fn object_members(value: Value) -> Option<Map<String, Value>>
    ensures { option_map (λ map. members_view map.entries) result ≡ as_object (view value) }
{
    match value {
        Value::Object(map) => Some(map),
        _ => None,
    }
}

// The members of `time`, which may be missing. None where it is there and no object.
fn times_in(alloc: Global, value: Option<Value>) -> Option<Map<String, Value>>
    ensures { option_map (λ map. members_view map.entries) result ≡ times_in (option_map view value) }
{
    match value {
        Some(value) => object_members(value),
        None => Some(Map::new(alloc)),
    }
}

// The releases that the parts of a document tell. Only memory can fail.
fn releases(
    alloc: Global,
    versions: Map<String, Value>,
    times: Map<String, Value>,
) -> Result<List<Release>, AllocError>
    ensures value { IfOk result (λ releases. releases ≡ map (release_of (Some (object (members_view times.entries)))) (names_of (members_view versions.entries))) }
    ensures count { IfOk result (λ releases. length releases ≡ btree_map_len versions) }
{
    listed(alloc, versions, Times::new(times))
}

// A release for each of the versions, with the time that is told for it. Both are walked once, side
// by side. Only memory can fail.
fn listed(
    alloc: Global,
    versions: Map<String, Value>,
    mut times: Times,
) -> Result<List<Release>, AllocError>
    requires { AreRising (times_left times) }
    ensures value { IfOk result (λ releases. releases ≡ map (release_told (times_left times)) (names_of (members_view versions.entries))) }
    ensures count { IfOk result (λ releases. length releases ≡ btree_map_len versions) }
{
    let mut releases = Vec::with_capacity(alloc, versions.len())?;
    for name in versions.into_keys() {
        times.pass(name.as_str());
        let time = times.first_time(name.as_str());
        releases.push(Release {
            text: Text::new(name),
            time,
            yanked: false,
        })?;
    }
    Ok(List::new(releases))
}
