ghost use Rattle.std.specs.Prelude.{◌≡◌, [], ◌∷◌, ◌++◌, IfOk, IsErr, refl};
ghost use Rattle.jiff.specs.Placed.{IsPosixZone};
ghost use Rattle.jiff.specs.ZoneView.{plain_zone};
ghost use Rattle.rnv_base.specs.Turns.{IsListed, first_turn, next_turn};
ghost use Rattle.rnv_pattern.specs.Building.{Asked, IsExpression, fold_flag};
ghost use Rattle.rnv_schedule.specs.Asking.{Asked as AskedZone};

use jiff::tz::TimeZone;
use regex::Regex;
use rnv_base::List;
use rnv_pattern::{BuildError, Builder, MemBuilder};
use rnv_schedule::{MemZones, ZoneError, Zones};
use std::alloc::Global;

/// What builds expressions and reads the rules of zones. The calls of each of the two leave the texts
/// that the other refused and took as they are.
pub trait Engines: Builder + Zones {
    /// The other lists of the builder are those of the zones.
    ghost zones_beside: { (s : Self) → Self.Builder.others s ≡ Self.Zones.refused s ∷ Self.Zones.took s ∷ [] };

    /// The other lists of the zones are those of the builder.
    ghost expressions_beside: { (s : Self) → Self.Zones.others s ≡ Self.Builder.refused s ∷ Self.Builder.took s ∷ [] };
}

/// Engines in memory, over `regex` and `jiff`. The builds and the rules whose numbers, from 0, are listed
/// are refused besides.
#[derive(Drop)]
pub struct MemEngines {
    builder: MemBuilder,
    zones: MemZones,
}

impl MemEngines {
    /// Engines that were not asked yet, and that refuse the builds and the rules with these numbers.
    pub fn new(alloc: Global, builds: List<u64>, rules: List<u64>) -> MemEngines
        ensures unrefused { ⟦<MemEngines as Builder>⟧.refused result ≡ [] }
        ensures untaken { ⟦<MemEngines as Builder>⟧.took result ≡ [] }
        ensures no_bad_zone { ⟦<MemEngines as Zones>⟧.refused result ≡ [] }
        ensures no_zone { ⟦<MemEngines as Zones>⟧.took result ≡ [] }
        ensures builds { result.builder.failing ≡ first_turn builds }
        ensures rules { result.zones.failing ≡ first_turn rules }
    {
        MemEngines {
            builder: MemBuilder::new(alloc, builds),
            zones: MemZones::new(alloc, rules),
        }
    }
}

impl Builder for MemEngines {
    ghost refused = { λ s. s.builder.refused };

    ghost took = { λ s. s.builder.took };

    ghost others = { λ s. s.zones.refused ∷ s.zones.took ∷ [] };

    /// A listed build gives no expression: its text is refused, and noted, unless memory is refused.
    fn build(&mut self, alloc: Global, text: &str, fold: bool) -> Result<Regex, BuildError>
        ensures built { IfOk result (λ regex. IsExpression (fold_flag fold ++ text.now) regex) }
        ensures lists { Asked text.now self.old.builder.refused self.old.builder.took self.new.builder.refused self.new.builder.took result }
        ensures listed { IsListed self.old.builder.failing → IsErr result }
        ensures turn { self.new.builder.failing ≡ next_turn self.old.builder.failing }
        ensures zones { self.new.zones ≡ self.old.zones }
    {
        self.builder.build(alloc, text, fold)
    }
}

impl Zones for MemEngines {
    ghost refused = { λ s. s.zones.refused };

    ghost took = { λ s. s.zones.took };

    ghost others = { λ s. s.builder.refused ∷ s.builder.took ∷ [] };

    /// A listed rule gives no zone: its text is refused, and noted, unless memory is refused.
    fn rule(&mut self, alloc: Global, text: &str) -> Result<TimeZone<'static>, ZoneError>
        ensures read { IfOk result (λ zone. IsPosixZone text.now (plain_zone zone)) }
        ensures lists { AskedZone text.now self.old.zones.refused self.old.zones.took self.new.zones.refused self.new.zones.took result }
        ensures listed { IsListed self.old.zones.failing → IsErr result }
        ensures turn { self.new.zones.failing ≡ next_turn self.old.zones.failing }
        ensures expressions { self.new.builder ≡ self.old.builder }
    {
        self.zones.rule(alloc, text)
    }
}

impl Engines for MemEngines {
    ghost zones_beside = { λ _. refl };

    ghost expressions_beside = { λ _. refl };
}
