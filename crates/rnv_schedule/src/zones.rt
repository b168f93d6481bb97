ghost use Rattle.std.specs.Prelude.{◌≡◌, ℕ, List, IfOk};
ghost use Rattle.jiff.specs.Placed.{IsPosixZone};
ghost use Rattle.jiff.specs.ZoneView.{plain_zone};
ghost use Rattle.rnv_schedule.specs.Asking.{Asked};

use jiff::tz::TimeZone;
use std::alloc::Global;

/// Why a zone was not read.
#[derive(Clone, Copy, Debug, PartialEq, Eq)]
pub enum ZoneError {
    /// The engines refused the text, and have noted it.
    BadZone,
    /// Want of memory.
    Memory,
}

/// What reads the rules of zones, and keeps the texts that it refused and those that it took.
pub trait Zones {
    /// The texts that it refused.
    ghost refused: { Self → List (List ℕ) };

    /// The texts that it took.
    ghost took: { Self → List (List ℕ) };

    /// Other lists, which no call changes.
    ghost others: { Self → List (List (List ℕ)) };

    /// The zone of a POSIX rule (the TZ variable of IEEE Std 1003.1), as `jiff` reads it. `BadZone`
    /// only where this call added its text to the refused ones.
    fn rule(&mut self, alloc: Global, text: &str) -> Result<TimeZone<'static>, ZoneError>
        ensures read { IfOk result (λ zone. IsPosixZone text.now (plain_zone zone)) }
        ensures lists { Asked text.now (refused self.old) (took self.old) (refused self.new) (took self.new) result }
        ensures others { others self.new ≡ others self.old };
}
