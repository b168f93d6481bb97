ghost use Rattle.std.specs.Prelude.{◌≡◌, IsOk, IfOk};
ghost use Rattle.rnv_base.specs.Moment.{IsMoment};
ghost use Rattle.rnv_schedule.specs.Clock.{IsLocal};
ghost use Rattle.rnv_schedule.specs.declared.shown.Local.{Local as At};

use crate::{Local, Zone};
use jiff::Timestamp;
use std::alloc::AllocError;

/// The local date and hour of a moment, in seconds since 1970-01-01T00:00:00Z, in a zone, of which
/// there is one, by the Gregorian calendar as `jiff` has it. It takes no memory.
pub fn local(moment: u64, zone: &Zone) -> Result<Local, AllocError>
    requires { IsMoment moment }
    ensures always { IsOk result }
    ensures shown { IfOk result (λ at. IsLocal zone.now moment at) }
    ensures only { IfOk result (λ at. (other : At) → IsLocal zone.now moment other → other ≡ at) }
{
    let Ok(instant) = Timestamp::from_second(moment as i64) else {
        unreachable!()
    };
    let clock = zone.clock(instant);
    Ok(Local {
        month: clock.month() as u8,
        day: clock.day() as u8,
        hour: clock.hour() as u8,
        weekday: clock.weekday().to_sunday_zero_offset() as u8,
    })
}
