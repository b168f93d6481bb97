ghost use Rattle.std.specs.Prelude.{◌≡◌, length, IfOk};
ghost use Rattle.serde_json.specs.View.{view, items_view};
ghost use Rattle.rnv_release.specs.Docker.{docker_path, docker_reading, docker_releases, tag_releases};

use crate::datasource::limited;
use crate::json::read_value;
use crate::{Datasource, IndexError, Release};
use rnv_base::{List, Text};
use serde_json::Value;
use std::alloc::{AllocError, Global};

/// An index of image tags: `index/docker/NAME.json` is JSON (RFC 8259, as `serde_json` reads it): an
/// object with a list of texts `tags`, which are the releases in this order. No release has a time or
/// is drawn back.
#[derive(Clone, Copy, Debug)]
pub struct DockerIndex;

impl Datasource for DockerIndex {
    ghost path_of = { λ _ name. docker_path name };

    ghost reading = { λ _ bytes. docker_reading bytes };

    fn path(&self, alloc: Global, name: &str) -> Result<Text, AllocError> {
        let mut path = String::from_str(alloc, "index/docker/")?;
        path.push_str(name)?;
        path.push_str(".json")?;
        Ok(Text::new(path))
    }

    fn read(&self, alloc: Global, bytes: &[u8]) -> Result<List<Release>, IndexError> {
        let document = read_value(alloc, bytes, 1)?;
        match releases_of(alloc, &document) {
            Ok(Some(releases)) => limited(releases),
            Ok(None) => Err(IndexError::BadIndex { line: 1 }),
            Err(_) => Err(IndexError::Memory),
        }
    }
}

// The releases that a document lists, None where it is no document of tags. Only memory can fail.
fn releases_of(alloc: Global, document: &Value) -> Result<Option<List<Release>>, AllocError>
    ensures { IfOk result (λ found. found ≡ docker_releases (view document.now)) }
{
    match document.get("tags").and_then(Value::as_array) {
        Some(tags) => tagged(alloc, tags.as_slice()),
        None => Ok(None),
    }
}

// A release for each tag, None where one is no text. Only memory can fail.
fn tagged(alloc: Global, tags: &[Value]) -> Result<Option<List<Release>>, AllocError>
    ensures { IfOk result (λ found. found ≡ tag_releases (items_view tags.now)) }
{
    let mut releases = List::empty(alloc);
    for tag in tags {
        let Some(text) = tag.as_str() else {
            return Ok(None);
        };
        releases.push(Release {
            text: Text::copied(alloc, text)?,
            time: None,
            yanked: false,
        })?;
    }
    Ok(Some(releases))
}
