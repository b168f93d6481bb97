ghost use Rattle.std.specs.Prelude.{◌≡◌, ℕ, List as Items, Option, IfOk, is_some};
ghost use Rattle.std.specs.Option.{option_copied};
ghost use Rattle.rnv_release.specs.declared.release.Release.{Release};
ghost use Rattle.rnv_pick.specs.declared.dep.Dep.{Dep};
ghost use Rattle.rnv_pick.specs.BySource.{HasOneAnswer, IsPickedFrom, is_range};
ghost use Rattle.rnv_pick.specs.Options.{Options};
ghost use Rattle.rnv_pick.specs.Ranking.{IsListing};

use crate::listing::{crates, docker, npm};
use crate::picking::picked;
use crate::{Dep, Listing, Picked, Rules};
use rnv_base::SourceKind;
use rnv_npm::NpmVersioning;
use rnv_version::{CargoVersioning, DockerVersioning, RangeError, Versioning};
use std::alloc::{AllocError, Global};

// Whether the value is a range of this versioning.
fn is_range_of<V: Versioning>(
    alloc: Global,
    versioning: &V,
    value: &str,
) -> Result<bool, AllocError>
    ensures { IfOk result (λ is_so. is_so ≡ is_some ((V.numbering versioning.now).range_of value.now)) }
{
    match versioning.range(alloc, value) {
        Ok(_) => Ok(true),
        Err(RangeError::NotARange) => Ok(false),
        Err(RangeError::Memory) => Err(AllocError),
    }
}

/// Whether the value is a range of the versioning of the source. A dependency of another value is
/// skipped, and no document of its package is wanted for it. Only memory can fail.
pub fn is_range(alloc: Global, source: SourceKind, value: &str) -> Result<bool, AllocError>
    ensures { IfOk result (λ is_so. is_so ≡ is_range source value.now) }
{
    match source {
        SourceKind::Crates => is_range_of(alloc, &CargoVersioning, value),
        SourceKind::Npm => is_range_of(alloc, &NpmVersioning, value),
        SourceKind::Docker => is_range_of(alloc, &DockerVersioning, value),
    }
}

/// The text of a dependency's current version, the first reason to skip it, and its updates at a
/// moment (seconds since 1970-01-01T00:00:00Z), by the versioning of its source. The listing is that of
/// its package's document, none where this has no document. The `current` of the given `dep` is not
/// read. Only memory can fail.
pub fn updates<O: Rules>(
    alloc: Global,
    dep: &Dep,
    listing: Option<&Listing>,
    rules: &O,
    moment: u64,
) -> Result<Picked, AllocError>
    requires { (releases : Option (Items Release)) × IsListing dep.now.source releases (option_copied listing) }
    ensures { (releases : Option (Items Release)) → IsListing dep.now.source releases (option_copied listing.entry) → IfOk result (IsPickedFrom dep.now.source (O.options rules.now) moment dep.now releases) }
{
    match dep.source {
        SourceKind::Crates => {
            let found = crates(listing);
            picked(alloc, &CargoVersioning, dep, found, rules, moment)
        }
        SourceKind::Npm => {
            let found = npm(listing);
            picked(alloc, &NpmVersioning, dep, found, rules, moment)
        }
        SourceKind::Docker => {
            let found = docker(listing);
            picked(alloc, &DockerVersioning, dep, found, rules, moment)
        }
    }
}

/// Does nothing: its promise is the law that a dependency has one answer.
pub fn one_answer()
    ensures { (o : Options) (moment : ℕ) (dep : Dep) (releases : Option (Items Release)) → HasOneAnswer o moment dep releases }
{}
