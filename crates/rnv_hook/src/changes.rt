ghost use Rattle.std.specs.Prelude.{◌≡◌, IfOk, IfSome};
ghost use Rattle.serde_json.specs.View.{view, members_view};
ghost use Rattle.rnv_repo.specs.Named.{AreInOrder};
ghost use Rattle.rnv_hook.specs.Body.{change_in, changes_in};
ghost use Rattle.rnv_hook.specs.Paths.{is_path};

use rnv_base::{Bytes, List, Text, path_ok};
use rnv_repo::FileChange;
use serde_json::{Map, Value};
use std::alloc::{AllocError, Global};

// The changes of a push, None where a member is no change. Only memory can fail.
pub fn changes_in(
    alloc: Global,
    members: &Map<String, Value>,
) -> Result<Option<List<FileChange>>, AllocError>
    ensures changes { IfOk result (λ changes. changes ≡ changes_in (members_view members.now.entries)) }
    ensures order { IfOk result (λ changes. IfSome changes (AreInOrder (λ c. c.path))) }
{
    let mut changes = List::empty(alloc);
    for (path, value) in members.iter() {
        let Some(change) = change_in(alloc, path.as_str(), value)? else {
            return Ok(None);
        };
        changes.push(change)?;
    }
    Ok(Some(changes))
}

// The change that a member tells, None where it tells none. Only memory can fail.
fn change_in(alloc: Global, path: &str, value: &Value) -> Result<Option<FileChange>, AllocError>
    ensures { IfOk result (λ change. change ≡ change_in path.now (view value.now)) }
{
    if !is_path(path) {
        return Ok(None);
    }
    match value {
        Value::Null => Ok(Some(FileChange {
            path: Text::copied(alloc, path)?,
            bytes: None,
        })),
        Value::String(text) => Ok(Some(FileChange {
            path: Text::copied(alloc, path)?,
            bytes: Some(Bytes::new(Vec::from_slice(alloc, text.as_bytes())?)),
        })),
        _ => Ok(None),
    }
}

// Whether this is a path.
fn is_path(path: &str) -> bool
    ensures { result ≡ is_path path.now }
{
    path_ok(path)
}
