ghost use Rattle.std.specs.Prelude.{◌≡◌, ℕ, ◌+◌, ◌<◌, ◌≤◌, ◌/◌, ◌%◌, ◌↔◌, Some, length, slice_index, pos, ◌≤ℤ◌, IsSome, IsSomeAnd, IfSome};
ghost use Rattle.jiff_core.specs.Calendar.{IsCivilDate};
ghost use Rattle.rnv_base.specs.Moment.{two_digits};

use jiff_core::civil::Date;

/// The last moment, 9998-12-31T23:59:59Z.
const LAST: u64 = 253_370_764_799;

/// The days from -9999-01-01 to 1970-01-01, and their seconds.
const EPOCH_DAYS: u32 = 4_371_587;

const EPOCH: u64 = 377_705_116_800;

/// A day of the calendar from the year 0 on, and a time of that day.
#[derive(Clone, Copy)]
pub struct Civil {
    date: Date,
    hour: u8,
    minute: u8,
    second: u8,
    ghost years: { pos 0 ≤ℤ date.year },
    ghost hours: { hour < 24 },
    ghost minutes: { minute < 60 },
    ghost seconds: { second < 60 },
}

impl Civil {
    ghost use Rattle.rnv_base.specs.Moment.{IsMoment};
    ghost use Rattle.rnv_base.specs.Civil.{civil_text, civil_seconds};
    ghost use Rattle.rnv_base.specs.declared.civil.Civil.{Civil};

    /// The date and time that are spelled so, if there are.
    pub fn read(text: &[u8]) -> Option<Civil>
        ensures found { IfSome result (λ at. text.now ≡ civil_text at) }
        ensures only { (at : Civil) → text.now ≡ civil_text at → IsSome result }
    {
        if text.len() != 20 {
            return None;
        }
        let at = Civil::written(text)?;
        if at.text().as_slice() != text {
            return None;
        }
        Some(at)
    }

    // What the digits at the places of a date and a time say, whatever stands elsewhere.
    fn written(text: &[u8]) -> Option<Civil>
        requires { length text.now ≡ 20 }
        ensures { (at : Civil) → text.now ≡ civil_text at → IsSomeAnd result (λ it. civil_text it ≡ civil_text at) }
    {
        let year = two_at(text, 0) as u16 * 100 + two_at(text, 2) as u16;
        let date = date_of(year, two_at(text, 5), two_at(text, 8))?;
        let (hour, minute, second) = (two_at(text, 11), two_at(text, 14), two_at(text, 17));
        if hour > 23 || minute > 59 || second > 59 {
            return None;
        }
        Some(Civil {
            date,
            hour,
            minute,
            second,
        })
    }

    /// The date and time of a moment.
    pub fn of(moment: u64) -> Civil
        requires { IsMoment moment }
        ensures { pos moment ≡ civil_seconds result }
    {
        let date = Date::from_days_since_min((moment / 86_400) as u32 + EPOCH_DAYS);
        let time = moment % 86_400;
        Civil {
            date,
            hour: (time / 3600) as u8,
            minute: (time / 60 % 60) as u8,
            second: (time % 60) as u8,
        }
    }

    /// The text `YYYY-MM-DDTHH:MM:SSZ`.
    pub fn text(&self) -> [u8; 20]
        ensures { result ≡ civil_text self.now }
    {
        let year = self.date.year as u16;
        let [y1, y2] = two((year / 100) as u8);
        let [y3, y4] = two((year % 100) as u8);
        let [m1, m2] = two(self.date.month);
        let [d1, d2] = two(self.date.day);
        let [h1, h2] = two(self.hour);
        let [n1, n2] = two(self.minute);
        let [s1, s2] = two(self.second);
        [
            y1, y2, y3, y4, b'-', m1, m2, b'-', d1, d2, b'T', h1, h2, b':', n1, n2, b':', s1, s2,
            b'Z',
        ]
    }

    /// The moment, if it is one.
    #[tactic(auto, using(crate::proofs::Civils::counted))]
    pub fn moment(&self) -> Option<u64>
        ensures exactly { (moment : ℕ) → (result ≡ Some moment) ↔ (IsMoment moment × (pos moment ≡ civil_seconds self.now)) }
        ensures within { IfSome result IsMoment }
    {
        let time = self.hour as u64 * 3600 + self.minute as u64 * 60 + self.second as u64;
        let seconds = self.date.days_since_min() as u64 * 86_400 + time;
        if seconds < EPOCH || seconds > EPOCH + LAST {
            return None;
        }
        Some(seconds - EPOCH)
    }
}

// The day with these parts, if the calendar has it.
fn date_of(year: u16, month: u8, day: u8) -> Option<Date>
    requires years { year < 10_000 }
    requires months { month < 100 }
    requires days { day < 100 }
    ensures exists { IsSome result ↔ IsCivilDate (pos year) month day }
    ensures parts { IfSome result (λ date. (date.year ≡ pos year) × (date.month ≡ month) × (date.day ≡ day)) }
{
    match Date::new(year as i16, month as i8, day as i8) {
        Ok(date) => Some(date),
        Err(_) => None,
    }
}

// The two digits of a number below 100.
fn two(n: u8) -> [u8; 2]
    requires { n < 100 }
    ensures { result ≡ two_digits n }
{
    [b'0' + n / 10, b'0' + n % 10]
}

// The number below 100 that the two digits at a place spell, if they are digits.
fn two_at(text: &[u8], at: usize) -> u8
    requires { at + 1 < length text.now }
    ensures below { result < 100 }
    ensures value { (n : ℕ) → n < 100 → slice_index text.now at ≡ 48 + n / 10 → slice_index text.now (at + 1) ≡ 48 + n % 10 → result ≡ n }
{
    digit(text[at]) * 10 + digit(text[at + 1])
}

// The number below 10 that a digit spells.
fn digit(b: u8) -> u8
    ensures below { result < 10 }
    ensures value { (n : ℕ) → n < 10 → b ≡ 48 + n → result ≡ n }
{
    b.saturating_sub(b'0').min(9)
}
