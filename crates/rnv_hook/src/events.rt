ghost use Rattle.std.specs.Prelude.{◌≡◌, ◌≢◌, Ok, Err, IfErr, IfOk, codes, option_map};
ghost use Rattle.serde_json.specs.View.{view};
ghost use Rattle.rnv_repo.specs.declared.delivery.Event.TheVariants.{Push, Page};
ghost use Rattle.rnv_hook.specs.Body.{HasOrder, changes_of, event_in, number_in, or_cause, text_in};

use crate::BodyError;
use crate::changes::changes_in;
use rnv_base::Text;
use rnv_repo::Event;
use serde_json::Value;
use std::alloc::Global;

// The event of a value.
pub fn event_in(alloc: Global, value: &Value) -> Result<Event, BodyError>
    ensures event { IfOk result (λ event. event_in (view value.now) ≡ Ok event) }
    ensures order { IfOk result HasOrder }
    ensures refused { IfErr result (λ cause. cause ≢ BodyError.Memory → event_in (view value.now) ≡ Err cause) }
{
    let Some(word) = value.get("event").and_then(Value::as_str) else {
        return Err(BodyError::BadEvent);
    };
    if word == "push" {
        return push_in(alloc, value);
    }
    if word == "merged" {
        let number = number_in(value).ok_or(BodyError::BadNumber)?;
        return Ok(Event::Merged { number });
    }
    if word == "closed" {
        let number = number_in(value).ok_or(BodyError::BadNumber)?;
        return Ok(Event::Closed { number });
    }
    if word == "page" {
        return page_in(alloc, value);
    }
    Err(BodyError::BadEvent)
}

fn number_in(value: &Value) -> Option<u32>
    ensures { result ≡ number_in (view value.now) }
{
    let number = value.get("number").and_then(Value::as_u64)?;
    if 1 <= number && number <= 4_294_967_295 {
        Some(number as u32)
    } else {
        None
    }
}

fn page_in(alloc: Global, value: &Value) -> Result<Event, BodyError>
    ensures event { IfOk result (λ event. or_cause BodyError.BadText (option_map Page (text_in (codes "text") (view value.now))) ≡ Ok event) }
    ensures order { IfOk result HasOrder }
    ensures refused { IfErr result (λ cause. cause ≢ BodyError.Memory → or_cause BodyError.BadText (option_map Page (text_in (codes "text") (view value.now))) ≡ Err cause) }
{
    let Some(text) = value.get("text").and_then(Value::as_str) else {
        return Err(BodyError::BadText);
    };
    match Text::copied(alloc, text) {
        Ok(text) => Ok(Event::Page { text }),
        Err(_) => Err(BodyError::Memory),
    }
}

fn push_in(alloc: Global, value: &Value) -> Result<Event, BodyError>
    ensures event { IfOk result (λ event. or_cause BodyError.BadChanges (option_map Push (changes_of (view value.now))) ≡ Ok event) }
    ensures order { IfOk result HasOrder }
    ensures refused { IfErr result (λ cause. cause ≢ BodyError.Memory → or_cause BodyError.BadChanges (option_map Push (changes_of (view value.now))) ≡ Err cause) }
{
    let Some(members) = value.get("changes").and_then(Value::as_object) else {
        return Err(BodyError::BadChanges);
    };
    match changes_in(alloc, members) {
        Ok(Some(changes)) => Ok(Event::Push { changes }),
        Ok(None) => Err(BodyError::BadChanges),
        Err(_) => Err(BodyError::Memory),
    }
}
