ghost use Rattle.std.specs.Prelude.{◌≡◌, ◌≤◌, Some, None, IfOk, IsErrOf, length};
ghost use Rattle.std.specs.List.{position_or_len};
ghost use Rattle.rnv_schedule.specs.DayTexts.{begins_days, day_text_of};
ghost use Rattle.rnv_schedule.specs.Cron.{cron_of};
ghost use Rattle.rnv_schedule.specs.Schedules.{Reads, is_always, kind_set, schedule_of, schedule_set, words_of};
ghost use Rattle.rnv_schedule.specs.Words.{texts};
ghost use Rattle.rnv_schedule.specs.declared.error.ScheduleError.TheVariants.{BadSchedule};

use crate::cron::Cron;
use crate::days::Days;
use crate::hours::Hours;
use crate::words::{is_star, is_word, pieces};
use crate::{Local, ScheduleError};
use std::alloc::Global;

/// A set of local dates and hours.
#[derive(Debug, Drop)]
pub struct Schedule {
    kind: Kind,
}

// What a schedule's text says.
#[derive(Debug, Drop)]
pub enum Kind {
    Always,
    Fields(Cron),
    Words(Hours, Days),
}

impl Schedule {
    /// The schedule of a text: `at any time` or the empty text; a cron text of five fields, whose first
    /// is `*` and the others are hours, days, months and weekdays; or a day text, an optional time part
    /// as `after 10pm and before 5am` and an optional day part as `every weekday`. `BadSchedule`
    /// exactly outside this grammar.
    pub fn read(alloc: Global, text: &str) -> Result<Schedule, ScheduleError>
        ensures read { IfOk result (λ schedule. schedule_of text.now ≡ Some (schedule_set schedule)) }
        ensures bad { IsErrOf result BadSchedule → schedule_of text.now ≡ None }
    {
        let bytes = text.as_bytes();
        if is_always(bytes) {
            return Ok(Schedule { kind: Kind::Always });
        }
        let words = pieces(alloc, bytes, b' ')?;
        match read_words(alloc, words.as_slice()) {
            Ok(kind) => Ok(Schedule { kind }),
            Err(error) => Err(error),
        }
    }

    /// Whether the schedule holds at this local date and hour. Takes no memory.
    pub fn holds(&self, at: &Local) -> bool
        ensures { result ≡ schedule_set self.now at.now }
    {
        match &self.kind {
            Kind::Always => true,
            Kind::Fields(cron) => cron.holds(at),
            Kind::Words(hours, days) => hours.have(at.hour) && days.have(at),
        }
    }
}

// Whether a text holds always.
fn is_always(text: &[u8]) -> bool
    ensures { result ≡ is_always text.now }
{
    text == b"".as_slice() || text == b"at any time".as_slice()
}

// What the words of a text say.
fn read_words(alloc: Global, words: &[&[u8]]) -> Result<Kind, ScheduleError>
    ensures { Reads (words_of (texts words.now)) kind_set result }
{
    match words {
        [] => Err(ScheduleError::BadSchedule),
        [word, fields @ ..] => {
            if is_star(word) {
                read_cron(alloc, fields)
            } else {
                read_day_text(alloc, words)
            }
        }
    }
}

fn read_cron(alloc: Global, fields: &[&[u8]]) -> Result<Kind, ScheduleError>
    ensures { Reads (cron_of (texts fields.now)) kind_set result }
{
    match Cron::read(alloc, fields) {
        Ok(cron) => Ok(Kind::Fields(cron)),
        Err(error) => Err(error),
    }
}

// A time part up to the first `every` or `on`, and a day part from there on.
fn read_day_text(alloc: Global, words: &[&[u8]]) -> Result<Kind, ScheduleError>
    ensures { Reads (day_text_of (texts words.now)) kind_set result }
{
    let place = days_place(words);
    let Some(hours) = Hours::read(&words[..place]) else {
        return Err(ScheduleError::BadSchedule);
    };
    match Days::read(alloc, &words[place..]) {
        Ok(days) => Ok(Kind::Words(hours, days)),
        Err(error) => Err(error),
    }
}

// The place of the first `every` or `on`, or the number of words.
fn days_place(words: &[&[u8]]) -> usize
    ensures place { result ≡ position_or_len begins_days (texts words.now) }
    ensures within { result ≤ length words.now }
{
    words.iter().take_while(|word| !begins_days(word)).count()
}

// Whether a day part begins with this word.
fn begins_days(word: &[u8]) -> bool
    ensures { result ≡ begins_days word.now }
{
    is_word("every", word) || is_word("on", word)
}
