ghost use Rattle.std.specs.Prelude.{◌≡◌, ℕ, List, ◌↔◌, Some, IfSome, IfOk};
ghost use Rattle.rnv_base.specs.Moment.{IsMoment, IsMomentText};

use crate::Text;
use crate::civil::Civil;
use std::alloc::{AllocError, Global};

/// The moment, in seconds since 1970-01-01T00:00:00Z, that is spelled `YYYY-MM-DDTHH:MM:SSZ` as
/// RFC 3339 does, from 1970 to 9998. None for every other text. Takes no memory.
pub fn moment_read(text: &str) -> Option<u64>
    ensures exactly { (moment : ℕ) → (result ≡ Some moment) ↔ (IsMoment moment × IsMomentText text.now moment) }
    ensures within { IfSome result IsMoment }
{
    Civil::read(text.as_bytes())?.moment()
}

/// The text `YYYY-MM-DDTHH:MM:SSZ` of a moment, of which there is one. Only memory can fail.
pub fn moment_text(alloc: Global, moment: u64) -> Result<Text, AllocError>
    requires { IsMoment moment }
    ensures spelled { IfOk result (λ text. IsMomentText text moment) }
    ensures only { IfOk result (λ text. (other : List ℕ) → IsMomentText other moment → other ≡ text) }
{
    let bytes = Civil::of(moment).text();
    let Ok(text) = str::from_utf8(&bytes) else {
        unreachable!()
    };
    Text::copied(alloc, text)
}
