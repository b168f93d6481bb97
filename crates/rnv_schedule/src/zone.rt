use jiff::Timestamp;
use jiff::civil::DateTime;
use jiff::tz::TimeZone;
use rnv_base::{Share, Text};
use std::alloc::{AllocError, Global};
use std::marker::Model;

/// A zone: that of a POSIX rule, or UTC. Contracts see the text of its rule, and none for UTC.
#[derive(Drop)]
pub struct Zone {
    text: Option<Text>,
    rule: TimeZone<'static>,
}

impl Model for Zone {
    ghost use Rattle.std.specs.Prelude.{ℕ, List, Option};
    ghost use Rattle.jiff.specs.ZoneView.{plain_zone};
    ghost use Rattle.rnv_schedule.specs.Clock.{IsRule};

    ghost Value = { Option (List ℕ) };

    ghost view = { λ z. z.text };

    ghost invariant = { λ z. IsRule z.text (plain_zone z.rule) };
}

impl Zone {
    ghost use Rattle.std.specs.Prelude.{◌≡◌, Some, None};
    ghost use Rattle.jiff.specs.Placed.{IsPosixZone};
    ghost use Rattle.jiff.specs.ZoneView.{plain_zone};
    ghost use Rattle.rnv_schedule.specs.Clock.{IsClock};

    /// UTC. Takes no memory.
    pub fn utc() -> Zone
        ensures { result ≡ None }
    {
        Zone {
            text: None,
            rule: TimeZone::UTC,
        }
    }

    // The zone of the rule that a text was read as.
    pub fn of(text: Text, rule: TimeZone<'static>) -> Zone
        requires { IsPosixZone text (plain_zone rule) }
        ensures { result ≡ Some text }
    {
        Zone {
            text: Some(text),
            rule,
        }
    }

    // What a clock in the zone shows at an instant.
    pub fn clock(&self, instant: Timestamp) -> DateTime
        ensures { IsClock self.now instant.nanosecond result }
    {
        self.rule.to_datetime(instant)
    }
}

impl Share for Zone {
    fn share(&self, alloc: Global) -> Result<Zone, AllocError> {
        match &self.text {
            Some(text) => Ok(Zone {
                text: Some(text.share(alloc)?),
                rule: self.rule,
            }),
            None => Ok(Zone::utc()),
        }
    }
}
