ghost use Rattle.std.specs.Prelude.{◌≡◌, ◌≢◌, Ok, Err, IfErr, IfOk, IfSome, IsAscii};
ghost use Rattle.std.specs.List.{list_all};
ghost use Rattle.serde_json.specs.View.{view};
ghost use Rattle.rnv_hook.specs.Body.{HasOrder, id_in, is_id, is_visible, reading, told_in};

use crate::events::event_in;
use crate::json::read_json;
use rnv_base::Text;
use rnv_repo::Event;
use serde_json::Value;
use std::alloc::{AllocError, Global};

/// What the body of a webhook tells: the id of the delivery, and what a user did.
#[derive(Debug, Drop)]
pub struct Told {
    pub id: Text,
    pub event: Event,
}

/// Why a body is outside the grammar, the first cause in this order.
#[derive(Clone, Copy, Debug, PartialEq, Eq)]
pub enum BodyError {
    /// The bytes are no JSON.
    NotJson,
    /// The value is no object.
    NotObject,
    /// There is no text `id` of 1 to 128 characters from `!` to `~`.
    BadId,
    /// There is no text `event`, or it is none of `push`, `merged`, `closed` and `page`.
    BadEvent,
    /// A push has no object `changes`, or a name in it is no path, or a value neither text nor null.
    BadChanges,
    /// A request that was merged or closed has no `number` from 1 to 4294967295.
    BadNumber,
    /// A page has no text `text`.
    BadText,
    /// Want of memory.
    Memory,
}

/// What a body tells: JSON (RFC 8259, as `serde_json` reads it), an object with an `id`, an `event`,
/// and what that event needs; other members are passed over. Refuses with the first cause.
#[tactic(auto, unfolding(crate::specs::Body::reading))]
pub fn read_told(alloc: Global, body: &[u8]) -> Result<Told, BodyError>
    ensures told { IfOk result (λ told. reading body.now ≡ Ok told) }
    ensures order { IfOk result (λ told. HasOrder told.event) }
    ensures ascii { IfOk result (λ told. IsAscii told.id) }
    ensures refused { IfErr result (λ cause. cause ≢ BodyError.Memory → reading body.now ≡ Err cause) }
{
    match read_json(alloc, body) {
        Ok(Some(value)) => told_in(alloc, &value),
        Ok(None) => Err(BodyError::NotJson),
        Err(_) => Err(BodyError::Memory),
    }
}

// What a value tells.
fn told_in(alloc: Global, value: &Value) -> Result<Told, BodyError>
    ensures told { IfOk result (λ told. told_in (view value.now) ≡ Ok told) }
    ensures order { IfOk result (λ told. HasOrder told.event) }
    ensures ascii { IfOk result (λ told. IsAscii told.id) }
    ensures refused { IfErr result (λ cause. cause ≢ BodyError.Memory → told_in (view value.now) ≡ Err cause) }
{
    if value.as_object().is_none() {
        return Err(BodyError::NotObject);
    }
    match id_in(alloc, value) {
        Ok(Some(id)) => match event_in(alloc, value) {
            Ok(event) => Ok(Told { id, event }),
            Err(cause) => Err(cause),
        },
        Ok(None) => Err(BodyError::BadId),
        Err(_) => Err(BodyError::Memory),
    }
}

// The id of a value, None where it has none. Only memory can fail.
fn id_in(alloc: Global, value: &Value) -> Result<Option<Text>, AllocError>
    ensures id { IfOk result (λ id. id ≡ id_in (view value.now)) }
    ensures ascii { IfOk result (λ id. IfSome id IsAscii) }
{
    let Some(text) = value.get("id").and_then(Value::as_str) else {
        return Ok(None);
    };
    if !is_id(text) {
        return Ok(None);
    }
    Ok(Some(Text::copied(alloc, text)?))
}

fn is_id(text: &str) -> bool
    ensures { result ≡ is_id text.now }
{
    if text.is_empty() || text.len() > 128 {
        return false;
    }
    are_visible(text.as_bytes())
}

fn are_visible(bytes: &[u8]) -> bool
    ensures { result ≡ list_all is_visible bytes.now }
{
    bytes.iter().all(|b| 33 <= *b && *b <= 126)
}
