ghost use Rattle.std.specs.Prelude.{◌≡◌, IfOk, is_some};
ghost use Rattle.std.specs.List.{list_all};
ghost use Rattle.rnv_options.specs.Fits.{fits, is_prefix, is_prefix_byte, is_rebase, is_strategy};
ghost use Rattle.rnv_schedule.specs.Ages.{age_of};
ghost use Rattle.rnv_schedule.specs.Schedules.{schedule_of};

use crate::Texts;
use rnv_base::Text;
use rnv_schedule::{Schedule, ScheduleError, age_read};
use std::alloc::{AllocError, Global};
use std::convert::AsStr;

// Whether a text is among these.
pub fn fits(alloc: Global, of: Texts, text: &str) -> Result<bool, AllocError>
    ensures { IfOk result (λ yes. yes ≡ fits of text.now) }
{
    match of {
        Texts::Any => Ok(true),
        Texts::Strategies => Ok(is_strategy(text)),
        Texts::Rebases => Ok(is_rebase(text)),
        Texts::Prefixes => Ok(is_prefix(text.as_bytes())),
        Texts::Ages => Ok(is_age(text)),
        Texts::Schedules => is_schedule(alloc, text),
    }
}

// Whether each text is among these.
pub fn all_fit(alloc: Global, of: Texts, texts: &[Text]) -> Result<bool, AllocError>
    ensures { IfOk result (λ yes. yes ≡ list_all (fits of) texts.now) }
{
    let mut left = texts;
    while let [text, rest @ ..] = left {
        if !fits(alloc, of, text.as_str())? {
            return Ok(false);
        }
        left = rest;
    }
    Ok(true)
}

// Whether the text names a way to rewrite ranges.
fn is_strategy(text: &str) -> bool
    ensures { result ≡ is_strategy text.now }
{
    text == "auto"
        || text == "pin"
        || text == "bump"
        || text == "replace"
        || text == "widen"
        || text == "in-range-only"
        || text == "update-lockfile"
}

// Whether the text says when a branch is made anew.
fn is_rebase(text: &str) -> bool
    ensures { result ≡ is_rebase text.now }
{
    text == "auto" || text == "behind-base-branch" || text == "conflicted" || text == "never"
}

// Whether the bytes are 1 to 100 of `a-z 0-9 / . _ -`.
fn is_prefix(bytes: &[u8]) -> bool
    ensures { result ≡ is_prefix bytes.now }
{
    !bytes.is_empty() && bytes.len() <= 100 && are_prefix_bytes(bytes)
}

// Whether all are bytes of a prefix.
fn are_prefix_bytes(bytes: &[u8]) -> bool
    ensures { result ≡ list_all is_prefix_byte bytes.now }
{
    bytes.iter().all(|b| is_prefix_byte(*b))
}

// Whether a prefix may have the byte.
fn is_prefix_byte(b: u8) -> bool
    ensures { result ≡ is_prefix_byte b }
{
    b.is_ascii_lowercase() || b.is_ascii_digit() || b == b'/' || b == b'.' || b == b'_' || b == b'-'
}

// Whether the text is an age.
fn is_age(text: &str) -> bool
    ensures { result ≡ is_some (age_of text.now) }
{
    age_read(text).is_some()
}

// Whether the text is a schedule.
fn is_schedule(alloc: Global, text: &str) -> Result<bool, AllocError>
    ensures { IfOk result (λ yes. yes ≡ is_some (schedule_of text.now)) }
{
    match Schedule::read(alloc, text) {
        Ok(_) => Ok(true),
        Err(ScheduleError::BadSchedule) => Ok(false),
        Err(ScheduleError::Memory) => Err(AllocError),
    }
}
