ghost use Rattle.std.specs.Prelude.{◌≡◌, IfSome};
ghost use Rattle.serde_json.specs.View.{view};
ghost use Rattle.rnv_base.specs.Moment.{IsMoment};
ghost use Rattle.rnv_release.specs.Moments.{moment_of, time_of};

use jiff::Timestamp;
use serde_json::Value;

// 9998-12-31T23:59:59Z, the last moment.
const LAST: i128 = 253_370_764_799;

/// The moment that a value tells, in seconds since 1970-01-01T00:00:00Z: the one that the text of an
/// instant names, rounded down. None of another text, another value, and an instant outside 1970 to 9998.
pub fn time(value: &Value) -> Option<u64>
    ensures { result ≡ time_of (view value.now) }
{
    match value.as_str()?.parse::<Timestamp>() {
        Ok(instant) => moment(instant.as_nanosecond()),
        Err(_) => None,
    }
}

// The moment of an instant in nanoseconds since 1970-01-01T00:00:00Z.
fn moment(instant: i128) -> Option<u64>
    ensures value { result ≡ moment_of instant }
    ensures moment { IfSome result IsMoment }
{
    if instant < 0 {
        return None;
    }
    let second = instant / 1_000_000_000;
    if second <= LAST {
        Some(second as u64)
    } else {
        None
    }
}
