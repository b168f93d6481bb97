ghost use Rattle.std.specs.Prelude.{◌≡◌, ◌<◌, ◌==◌, [], ◌∷◌, IfOk, drop, length};
ghost use Rattle.std.specs.List.{list_any};
ghost use Rattle.rnv_schedule.specs.DayTexts.{day_names, days_of, every_of, named_days, on_of};
ghost use Rattle.rnv_schedule.specs.Joined.{first_day, joined_day};
ghost use Rattle.rnv_schedule.specs.Schedules.{Reads, days_set};
ghost use Rattle.rnv_schedule.specs.Words.{place_of, texts};

use crate::words::{are_words, is_word, place_of};
use crate::{Local, ScheduleError};
use rnv_base::List;
use std::alloc::{AllocError, Global};
use std::convert::AsSlice;

const NAMES: [&str; 7] = [
    "sunday",
    "monday",
    "tuesday",
    "wednesday",
    "thursday",
    "friday",
    "saturday",
];

const FIRST_DAY: [&str; 6] = ["the", "first", "day", "of", "the", "month"];

// The dates of a day part.
#[derive(Debug, Drop)]
pub enum Days {
    Any,
    // The first day of a month.
    First,
    // One of these weekdays, from 0 for Sunday.
    Among(List<u8>),
}

impl Days {
    // The dates of a day part, which may be empty.
    pub fn read(alloc: Global, words: &[&[u8]]) -> Result<Days, ScheduleError>
        ensures { Reads (days_of (texts words.now)) days_set result }
    {
        match words {
            [] => Ok(Days::Any),
            [word, rest @ ..] => {
                if is_word("every", word) {
                    Days::every(alloc, rest)
                } else if is_word("on", word) {
                    Days::on(alloc, rest)
                } else {
                    Err(ScheduleError::BadSchedule)
                }
            }
        }
    }

    // What follows `every`.
    fn every(alloc: Global, words: &[&[u8]]) -> Result<Days, ScheduleError>
        ensures { Reads (every_of (texts words.now)) days_set result }
    {
        match words {
            [name] => Days::named(alloc, name),
            _ => Err(ScheduleError::BadSchedule),
        }
    }

    // `weekday`, `weekend` or the name of a day.
    fn named(alloc: Global, name: &[u8]) -> Result<Days, ScheduleError>
        ensures { Reads (every_of (name.now ∷ [])) days_set result }
    {
        if is_word("weekday", name) {
            return Ok(Days::Among(listed(alloc, &[1, 2, 3, 4, 5])?));
        }
        if is_word("weekend", name) {
            return Ok(Days::Among(listed(alloc, &[0, 6])?));
        }
        match day(name) {
            Some(day) => Ok(Days::Among(listed(alloc, &[day])?)),
            None => Err(ScheduleError::BadSchedule),
        }
    }

    // What follows `on`.
    fn on(alloc: Global, words: &[&[u8]]) -> Result<Days, ScheduleError>
        ensures { Reads (on_of (texts words.now)) days_set result }
    {
        if are_words(&FIRST_DAY, words) {
            return Ok(Days::First);
        }
        match named_days(alloc, words) {
            Ok(days) => Ok(Days::Among(days)),
            Err(error) => Err(error),
        }
    }

    // Whether it has this date.
    pub fn have(&self, at: &Local) -> bool
        ensures { result ≡ days_set self.now at.now }
    {
        match self {
            Days::Any => true,
            Days::First => at.day == 1,
            Days::Among(weekdays) => are_among(weekdays.as_slice(), at.weekday),
        }
    }
}

fn are_among(weekdays: &[u8], weekday: u8) -> bool
    ensures { result ≡ list_any (λ day. day == weekday) weekdays.now }
{
    weekdays.iter().any(|day| *day == weekday)
}

// These weekdays. Only memory can fail.
fn listed(alloc: Global, weekdays: &[u8]) -> Result<List<u8>, AllocError>
    ensures { IfOk result (λ list. list ≡ weekdays.now) }
{
    Ok(List::new(Vec::from_slice(alloc, weekdays)?))
}

// The weekday of a name.
fn day(name: &[u8]) -> Option<u8>
    ensures { result ≡ place_of day_names name.now }
{
    let place = place_of(&NAMES, name)?;
    Some(place as u8)
}

// The weekdays whose names are joined by `and`.
fn named_days(alloc: Global, words: &[&[u8]]) -> Result<List<u8>, ScheduleError>
    ensures { Reads (named_days (texts words.now)) (λ days. days) result }
{
    let mut days = List::empty(alloc);
    let mut at = 0;
    while at < words.len() {
        let Some(day) = day_at(words, at) else {
            return Err(ScheduleError::BadSchedule);
        };
        days.push(day)?;
        if at + 1 == words.len() {
            return Ok(days);
        }
        at += 2;
    }
    Err(ScheduleError::BadSchedule)
}

// The weekday of the name at a place, which `and` follows or nothing.
fn day_at(words: &[&[u8]], at: usize) -> Option<u8>
    requires { at < length words.now }
    ensures { result ≡ first_day (drop at (texts words.now)) }
{
    if at + 1 < words.len() {
        joined_day(words[at], words[at + 1])
    } else {
        day(words[at])
    }
}

// The weekday of a name that `and` follows.
fn joined_day(name: &[u8], and: &[u8]) -> Option<u8>
    ensures { result ≡ joined_day name.now and.now }
{
    if is_word("and", and) { day(name) } else { None }
}
