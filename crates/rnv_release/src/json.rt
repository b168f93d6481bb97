ghost use Rattle.std.specs.Prelude.{◌≡◌, Some, None, IfOk, IfErr, option_map};
ghost use Rattle.serde_json.specs.View.{view};
ghost use Rattle.rnv_release.specs.Json.{json_of};
ghost use Rattle.rnv_release.specs.Refusal.{IfBadIndex, IfTooManyReleases};

use crate::IndexError;
use serde_json::Value;
use std::alloc::{AllocError, Global};

/// The JSON value of a document, or of its line with this number. `BadIndex` where it is none.
pub fn read_value(alloc: Global, bytes: &[u8], line: u64) -> Result<Value, IndexError>
    ensures value { IfOk result (λ value. json_of bytes.now ≡ Some (view value)) }
    ensures bad { IfErr result (IfBadIndex (λ at. (at ≡ line) × (json_of bytes.now ≡ None))) }
    ensures many { IfErr result (IfTooManyReleases (λ number. ⊥)) }
{
    match read_json(alloc, bytes) {
        Ok(Some(value)) => Ok(value),
        Ok(None) => Err(IndexError::BadIndex { line }),
        Err(_) => Err(IndexError::Memory),
    }
}

// The JSON value of bytes, which may be any: None where they are no JSON. Only memory can fail.
fn read_json(alloc: Global, bytes: &[u8]) -> Result<Option<Value>, AllocError>
    ensures { IfOk result (λ value. option_map view value ≡ json_of bytes.now) }
{
    match Value::from_slice(alloc, bytes) {
        Ok(value) => Ok(Some(value)),
        Err(error) => {
            if error.is_memory() {
                return Err(AllocError);
            }
            Ok(None)
        }
    }
}
