ghost use Rattle.std.specs.Prelude.{◌≡◌, ◌≤◌, Some, IfSome, option_map, option_and_then};
ghost use Rattle.rnv_schedule.specs.DayTexts.{are_bounds, between, bound_of, clock_of, half_of, hour_of, hours_of};
ghost use Rattle.rnv_schedule.specs.Schedules.{hours_set};
ghost use Rattle.rnv_schedule.specs.Words.{texts};

use crate::words::{is_word, place_of};

const CLOCK: [&str; 24] = [
    "12", "1", "2", "3", "4", "5", "6", "7", "8", "9", "10", "11", "12:00", "1:00", "2:00", "3:00",
    "4:00", "5:00", "6:00", "7:00", "8:00", "9:00", "10:00", "11:00",
];

// The hours of a time part.
#[derive(Clone, Copy, Debug)]
pub enum Hours {
    Any,
    // Below this hour.
    Before(u8),
    // From this hour on.
    After(u8),
    // From the first hour on and below the second, or either where the first is above the second.
    Between(u8, u8),
}

impl Hours {
    // The hours of a time part, which may be empty.
    pub fn read(words: &[&[u8]]) -> Option<Hours>
        ensures { option_map hours_set result ≡ hours_of (texts words.now) }
    {
        match words {
            [] => Some(Hours::Any),
            [word, hour] => bound(word, hour),
            [after, first, and, before, last] => {
                let spelled = are_bounds(after, and, before);
                if spelled { between(first, last) } else { None }
            }
            _ => None,
        }
    }

    // Whether it has this hour.
    pub fn have(&self, hour: u8) -> bool
        ensures { result ≡ hours_set self.now hour }
    {
        match *self {
            Hours::Any => true,
            Hours::Before(limit) => hour < limit,
            Hours::After(limit) => limit <= hour,
            Hours::Between(first, last) => are_between(first, last, hour),
        }
    }
}

// Whether the hour is from the first on and below the last, or either where the first is above it.
fn are_between(first: u8, last: u8, hour: u8) -> bool
    ensures { result ≡ between first last hour }
{
    if last < first {
        first <= hour || hour < last
    } else {
        first <= hour && hour < last
    }
}

// Whether these are the words `after`, `and` and `before`.
fn are_bounds(after: &[u8], and: &[u8], before: &[u8]) -> bool
    ensures { result ≡ are_bounds after.now and.now before.now }
{
    is_word("after", after) && is_word("and", and) && is_word("before", before)
}

// From one hour on and below another.
fn between(first: &[u8], last: &[u8]) -> Option<Hours>
    ensures { option_map hours_set result ≡ option_and_then (λ a. option_map (λ b. between a b) (hour_of last.now)) (hour_of first.now) }
{
    let first = read_hour(first)?;
    let last = read_hour(last)?;
    Some(Hours::Between(first, last))
}

// `before H` or `after H`.
fn bound(word: &[u8], hour: &[u8]) -> Option<Hours>
    ensures { option_map hours_set result ≡ option_and_then (bound_of word.now) (hour_of hour.now) }
{
    let limit = read_hour(hour)?;
    if is_word("before", word) {
        Some(Hours::Before(limit))
    } else if is_word("after", word) {
        Some(Hours::After(limit))
    } else {
        None
    }
}

// The hour that a text names: 1 to 12, `:00` if it likes, then `am` or `pm`.
fn read_hour(text: &[u8]) -> Option<u8>
    ensures { result ≡ hour_of text.now }
{
    let end = text.len().saturating_sub(2);
    let half = read_half(&text[end..])?;
    let clock = read_clock(&text[..end])?;
    Some(half + clock)
}

// The first hour of the half of the day.
fn read_half(text: &[u8]) -> Option<u8>
    ensures value { result ≡ half_of text.now }
    ensures small { IfSome result (λ half. half ≤ 12) }
{
    if is_word("am", text) {
        Some(0)
    } else if is_word("pm", text) {
        Some(12)
    } else {
        None
    }
}

// What a clock of twelve hours shows, where 12 is 0.
fn read_clock(text: &[u8]) -> Option<u8>
    ensures value { result ≡ clock_of text.now }
    ensures small { IfSome result (λ clock. clock ≤ 11) }
{
    let place = place_of(&CLOCK, text)?;
    Some((place % 12) as u8)
}
