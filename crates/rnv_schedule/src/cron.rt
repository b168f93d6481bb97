ghost use Rattle.std.specs.Prelude.{◌≡◌, [], ◌∷◌};
ghost use Rattle.rnv_schedule.specs.Cron.{begins_with_star, cron_of, on_day, on_weekday};
ghost use Rattle.rnv_schedule.specs.Schedules.{Reads, fields_set, spans_set};
ghost use Rattle.rnv_schedule.specs.Words.{texts};

use crate::field::Field;
use crate::items::{have, read_field};
use crate::span::Span;
use crate::{Local, ScheduleError};
use rnv_base::List;
use std::alloc::Global;
use std::convert::AsSlice;

// The fields of a cron text, and whether one of the two for days begins with `*`.
#[derive(Debug, Drop)]
pub struct Cron {
    pub hours: List<Span>,
    pub days: List<Span>,
    pub months: List<Span>,
    pub weekdays: List<Span>,
    pub starred: bool,
}

impl Cron {
    // The fields that follow `*`.
    pub fn read(alloc: Global, fields: &[&[u8]]) -> Result<Cron, ScheduleError>
        ensures { Reads (cron_of (texts fields.now)) fields_set result }
    {
        if fields.len() != 4 {
            return Err(ScheduleError::BadSchedule);
        }
        Cron::of(alloc, fields[0], fields[1], fields[2], fields[3])
    }

    fn of(
        alloc: Global,
        hours: &[u8],
        days: &[u8],
        months: &[u8],
        weekdays: &[u8],
    ) -> Result<Cron, ScheduleError>
        ensures { Reads (cron_of (hours.now ∷ days.now ∷ months.now ∷ weekdays.now ∷ [])) fields_set result }
    {
        Ok(Cron {
            hours: read_field(alloc, Field::Hour, hours)?,
            days: read_field(alloc, Field::Day, days)?,
            months: read_field(alloc, Field::Month, months)?,
            weekdays: read_field(alloc, Field::Weekday, weekdays)?,
            starred: begins_with_star(days) || begins_with_star(weekdays),
        })
    }

    // Whether the fields have this date and hour.
    pub fn holds(&self, at: &Local) -> bool
        ensures { result ≡ fields_set self.now at.now }
    {
        have(self.hours.as_slice(), at.hour)
            && have(self.months.as_slice(), at.month)
            && self.has_day(at.day, at.weekday)
    }

    // Whether the two fields for days have them: one of them suffices, unless one begins with `*`.
    fn has_day(&self, day: u8, weekday: u8) -> bool
        ensures { result ≡ on_day self.now.starred (spans_set self.now.days day) (on_weekday (spans_set self.now.weekdays) weekday) }
    {
        let in_days = have(self.days.as_slice(), day);
        let in_weekdays = self.has_weekday(weekday);
        if self.starred {
            in_days && in_weekdays
        } else {
            in_days || in_weekdays
        }
    }

    // Whether the field has this weekday, where 7 is Sunday too.
    fn has_weekday(&self, weekday: u8) -> bool
        ensures { result ≡ on_weekday (spans_set self.now.weekdays) weekday }
    {
        let weekdays = self.weekdays.as_slice();
        have(weekdays, weekday) || (weekday == 0 && have(weekdays, 7))
    }
}

fn begins_with_star(text: &[u8]) -> bool
    ensures { result ≡ begins_with_star text.now }
{
    match text {
        [b'*', ..] => true,
        _ => false,
    }
}
