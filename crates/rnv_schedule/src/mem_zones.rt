ghost use Rattle.std.specs.Prelude.{◌≡◌, [], ◌∷◌, ◌++◌, IfOk, IsErr};
ghost use Rattle.jiff.specs.Placed.{IsPosixZone};
ghost use Rattle.jiff.specs.ZoneView.{plain_zone};
ghost use Rattle.rnv_base.specs.Turns.{IsListed, first_turn, next_turn};
ghost use Rattle.rnv_schedule.specs.Asking.{Asked};
ghost use Rattle.rnv_schedule.specs.declared.zones.ZoneError.TheVariants.{BadZone, Memory};

use crate::{ZoneError, Zones};
use jiff::tz::TimeZone;
use rnv_base::{Failing, List, Text};
use std::alloc::Global;

/// Engines in memory, over `jiff`. The calls whose numbers, from 0, are listed are refused besides.
#[derive(Drop)]
pub struct MemZones {
    failing: Failing,
    refused: List<Text>,
    took: List<Text>,
}

impl MemZones {
    /// Engines that were not asked yet, and that refuse the calls with these numbers.
    pub fn new(alloc: Global, failing: List<u64>) -> MemZones
        ensures unrefused { ⟦<MemZones as Zones>⟧.refused result ≡ [] }
        ensures untaken { ⟦<MemZones as Zones>⟧.took result ≡ [] }
        ensures failing { result.failing ≡ first_turn failing }
    {
        MemZones {
            failing: Failing::new(failing),
            refused: List::empty(alloc),
            took: List::empty(alloc),
        }
    }
}

impl Zones for MemZones {
    ghost refused = { λ s. s.refused };

    ghost took = { λ s. s.took };

    ghost others = { λ _. [] };

    /// A listed call gives no zone: its text is refused, and noted, unless memory is refused.
    fn rule(&mut self, alloc: Global, text: &str) -> Result<TimeZone<'static>, ZoneError>
        ensures read { IfOk result (λ zone. IsPosixZone text.now (plain_zone zone)) }
        ensures lists { Asked text.now self.old.refused self.old.took self.new.refused self.new.took result }
        ensures listed { IsListed self.old.failing → IsErr result }
        ensures turn { self.new.failing ≡ next_turn self.old.failing }
    {
        let fails = self.failing.strikes();
        let Ok(noted) = Text::copied(alloc, text) else {
            return Err(ZoneError::Memory);
        };
        if fails {
            return Err(refused(noted, &mut self.refused));
        }
        match TimeZone::posix(text) {
            Ok(zone) => match self.took.push(noted) {
                Ok(()) => Ok(zone),
                Err(_) => Err(ZoneError::Memory),
            },
            Err(_) => Err(refused(noted, &mut self.refused)),
        }
    }
}

// Notes a text among those that were refused.
fn refused(text: Text, refused: &mut List<Text>) -> ZoneError
    ensures noted { result ≡ BadZone → refused.new ≡ refused.old ++ text ∷ [] }
    ensures memory { result ≡ Memory → refused.new ≡ refused.old }
{
    match refused.push(text) {
        Ok(()) => ZoneError::BadZone,
        Err(_) => ZoneError::Memory,
    }
}
