ghost use Rattle.std.specs.Prelude.{◌≡◌, Some, IfOk};
ghost use Rattle.rnv_schedule.specs.Asking.{Asked};

use crate::{Zone, ZoneError, Zones};
use rnv_base::Text;
use std::alloc::Global;

impl Zone {
    /// The zone of a POSIX rule (the TZ variable of IEEE Std 1003.1), as the engines read it. At Ok they
    /// took this text in this call, at `BadZone` they refused it, and at `Memory` they did neither. They
    /// take and refuse nothing else.
    pub fn read<E: Zones>(alloc: Global, engines: &mut E, text: &str) -> Result<Zone, ZoneError>
        ensures read { IfOk result (λ zone. zone ≡ Some text.now) }
        ensures lists { Asked text.now (E.refused engines.old) (E.took engines.old) (E.refused engines.new) (E.took engines.new) result }
        ensures others { E.others engines.new ≡ E.others engines.old }
    {
        // Before the engines are asked, so that no text is taken for a zone that is not given.
        let Ok(kept) = Text::copied(alloc, text) else {
            return Err(ZoneError::Memory);
        };
        let rule = engines.rule(alloc, text)?;
        Ok(Zone::of(kept, rule))
    }
}
