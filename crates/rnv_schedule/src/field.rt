ghost use Rattle.std.specs.Prelude.{◌≡◌, ◌≤◌, length, IfSome, option_and_then};
ghost use Rattle.rnv_schedule.specs.Cron.{greatest, if_within, least, names, range_of, rising, value_of, ends_of};
ghost use Rattle.rnv_schedule.specs.Numbers.{number_of};
ghost use Rattle.rnv_schedule.specs.Words.{texts};

use crate::number::number;
use crate::words::place_of;

const MONTHS: [&str; 12] = [
    "jan", "feb", "mar", "apr", "may", "jun", "jul", "aug", "sep", "oct", "nov", "dec",
];

const WEEKDAYS: [&str; 7] = ["sun", "mon", "tue", "wed", "thu", "fri", "sat"];

// A field of a cron text.
#[derive(Clone, Copy, Debug)]
pub enum Field {
    Hour,
    Day,
    Month,
    Weekday,
}

impl Field {
    // Its least number.
    pub fn least(self) -> u8
        ensures value { result ≡ least self }
        ensures small { result ≤ 1 }
    {
        match self {
            Field::Hour | Field::Weekday => 0,
            Field::Day | Field::Month => 1,
        }
    }

    // Its greatest number.
    pub fn greatest(self) -> u8
        ensures value { result ≡ greatest self }
        ensures small { result ≤ 31 }
    {
        match self {
            Field::Hour => 23,
            Field::Day => 31,
            Field::Month => 12,
            Field::Weekday => 7,
        }
    }

    // The names of its numbers, from the least on.
    fn names(self) -> &'static [&'static str]
        ensures value { texts result.now ≡ names self }
        ensures few { length result.now ≤ 12 }
    {
        match self {
            Field::Hour | Field::Day => &[],
            Field::Month => &MONTHS,
            Field::Weekday => &WEEKDAYS,
        }
    }

    // The number that a text writes, if the field has it.
    fn if_within(self, text: &[u8]) -> Option<u8>
        ensures { result ≡ option_and_then (if_within self) (number_of text.now) }
    {
        let n = number(text)?;
        if u32::from(self.least()) <= n && n <= u32::from(self.greatest()) {
            Some(n as u8)
        } else {
            None
        }
    }

    // The number of a name, or that a text writes, if the field has it.
    pub fn value(self, text: &[u8]) -> Option<u8>
        ensures { result ≡ value_of self text.now }
    {
        match place_of(self.names(), text) {
            Some(place) => Some(self.least() + place as u8),
            None => self.if_within(text),
        }
    }
}
