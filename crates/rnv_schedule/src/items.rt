ghost use Rattle.std.specs.Prelude.{◌≡◌, ◌≤◌, ℕ, Some, min, option_map, IfSome};
ghost use Rattle.rnv_schedule.specs.Cron.{ends_of, field_of, item_of, items_of, range_of, rising, step_of, stepped, stepped_by, value_of};
ghost use Rattle.rnv_schedule.specs.Schedules.{Reads, span_set, spans_set};
ghost use Rattle.rnv_schedule.specs.Words.{pieces, texts};

use crate::ScheduleError;
use crate::field::Field;
use crate::number::number;
use crate::span::Span;
use crate::words::{is_star, pieces};
use rnv_base::List;
use std::alloc::Global;
use std::convert::AsSlice;

// Whether one of the items has this number.
pub fn have(spans: &[Span], n: u8) -> bool
    ensures { result ≡ spans_set spans.now n }
{
    spans.iter().any(|span| span.has(n))
}

// The items of a field.
pub fn read_field(alloc: Global, field: Field, text: &[u8]) -> Result<List<Span>, ScheduleError>
    ensures { Reads (field_of field text.now) spans_set result }
{
    let items = pieces(alloc, text, b',')?;
    read_items(alloc, field, items.as_slice())
}

fn read_items(alloc: Global, field: Field, items: &[&[u8]]) -> Result<List<Span>, ScheduleError>
    ensures { Reads (items_of field (texts items.now)) spans_set result }
{
    let mut spans = List::empty(alloc);
    for item in items {
        match read_item(alloc, field, item) {
            Ok(span) => spans.push(span)?,
            Err(error) => return Err(error),
        }
    }
    Ok(spans)
}

// An item of a field.
fn read_item(alloc: Global, field: Field, text: &[u8]) -> Result<Span, ScheduleError>
    ensures { Reads (item_of field (pieces 47 text.now)) span_set result }
{
    let parts = pieces(alloc, text, b'/')?;
    read_parts(alloc, field, parts.as_slice())
}

// An item, from its parts between slashes.
fn read_parts(alloc: Global, field: Field, parts: &[&[u8]]) -> Result<Span, ScheduleError>
    ensures { Reads (item_of field (texts parts.now)) span_set result }
{
    match parts {
        [item] => read_whole(alloc, field, item),
        [range, step] => read_stepped(alloc, field, range, step),
        _ => Err(ScheduleError::BadSchedule),
    }
}

// An item without a step.
fn read_whole(alloc: Global, field: Field, text: &[u8]) -> Result<Span, ScheduleError>
    ensures { Reads (option_map (stepped 1) (ends_of field text.now)) span_set result }
{
    let parts = pieces(alloc, text, b'-')?;
    let ends = match range(field, parts.as_slice()) {
        Some(ends) => Some(ends),
        None => alone(field, text),
    };
    match ends {
        Some((first, last)) => Ok(Span {
            first,
            last,
            step: 1,
        }),
        None => Err(ScheduleError::BadSchedule),
    }
}

// An item with a step.
fn read_stepped(
    alloc: Global,
    field: Field,
    range_text: &[u8],
    step_text: &[u8],
) -> Result<Span, ScheduleError>
    ensures { Reads (stepped_by (step_of step_text.now) (range_of field (pieces 45 range_text.now))) span_set result }
{
    let parts = pieces(alloc, range_text, b'-')?;
    match (step(step_text), range(field, parts.as_slice())) {
        (Some(step), Some((first, last))) => Ok(spaced(first, last, step)),
        _ => Err(ScheduleError::BadSchedule),
    }
}

// From one number on to another, by a step that was read up to the limit.
fn spaced(first: u8, last: u8, step: u32) -> Span
    requires { 1 ≤ step }
    ensures { (n : ℕ) → step ≡ min 1_000_000 n → stepped n (first, last) ≡ span_set result }
{
    Span { first, last, step }
}

// The ends of a number alone.
fn alone(field: Field, text: &[u8]) -> Option<(u8, u8)>
    ensures { result ≡ option_map (λ n. (n, n)) (value_of field text.now) }
{
    let n = field.value(text)?;
    Some((n, n))
}

// The ends of `*` or `A-B`, from its parts between dashes.
fn range(field: Field, parts: &[&[u8]]) -> Option<(u8, u8)>
    ensures { result ≡ range_of field (texts parts.now) }
{
    match parts {
        [star] => {
            if is_star(star) {
                Some((field.least(), field.greatest()))
            } else {
                None
            }
        }
        [first, last] => ends(field, first, last),
        _ => None,
    }
}

// The ends of `A-B`, which do not fall.
fn ends(field: Field, first: &[u8], last: &[u8]) -> Option<(u8, u8)>
    ensures { result ≡ rising (value_of field first.now) (value_of field last.now) }
{
    let first = field.value(first)?;
    let last = field.value(last)?;
    if first <= last {
        Some((first, last))
    } else {
        None
    }
}

// A step from 1 on, or the limit of numbers where it is greater.
fn step(text: &[u8]) -> Option<u32>
    ensures value { result ≡ option_map (min 1_000_000) (step_of text.now) }
    ensures some { IfSome result (λ step. 1 ≤ step) }
{
    let step = number(text)?;
    if step < 1 {
        return None;
    }
    Some(step)
}
