// The releases of a document that were not drawn back and are versions, the greatest first.

ghost use Rattle.std.specs.Prelude.{◌≡◌, ◌++◌, map, option_map, IfOk, IsPermutation, OnOk};
ghost use Rattle.std.specs.Option.{option_to_list};
ghost use Rattle.rnv_pick.specs.Greatest.{IsFalling};
ghost use Rattle.rnv_pick.specs.Listing.{listed_as, listed_cmp, live_releases, live_version};
ghost use Rattle.rnv_pick.specs.Ranking.{IsRankingOf};
ghost use Rattle.rnv_pick.specs.Seen.{seen};

use rnv_base::List;
use rnv_release::Release;
use rnv_version::{VersionError, Versioning};
use std::alloc::{AllocError, Global};
use std::cmp::Ordering;
use std::convert::AsStr;

// A release and the version that its text is.
#[derive(Drop)]
pub(crate) struct Live<X> {
    pub(crate) release: Release,
    pub(crate) version: X,
}

// The version of a release that was not drawn back, if it is one.
fn live_version<V: Versioning>(
    alloc: Global,
    versioning: &V,
    release: &Release,
) -> Result<Option<V::Version>, AllocError>
    ensures { IfOk result (λ v. v ≡ live_version (V.numbering versioning.now) release.now) }
{
    if release.yanked {
        return Ok(None);
    }
    match versioning.version(alloc, release.text.as_str()) {
        Ok(version) => Ok(Some(version)),
        Err(VersionError::NotAVersion) => Ok(None),
        Err(VersionError::Memory) => Err(AllocError),
    }
}

// Puts the release at the end, if it is a version.
fn add<X: Drop>(
    found: &mut Vec<Live<X>>,
    release: Release,
    version: Option<X>,
) -> Result<(), AllocError>
    ensures { OnOk result (map seen found.new.items ≡ map seen found.old.items ++ option_to_list (listed_as release version)) }
{
    if let Some(version) = version {
        found.push(Live { release, version })?;
    }
    Ok(())
}

// The releases that were not drawn back and are versions, in their order. Each text is read once.
fn live_releases<V: Versioning>(
    alloc: Global,
    versioning: &V,
    releases: List<Release>,
) -> Result<Vec<Live<V::Version>>, AllocError>
    ensures { IfOk result (λ found. map seen found.items ≡ live_releases (V.numbering versioning.now) releases) }
{
    let mut found = Vec::new(alloc);
    for release in releases.into_inner() {
        let version = live_version(alloc, versioning, &release)?;
        add(&mut found, release, version)?;
    }
    Ok(found)
}

// By version, and equal versions by text.
fn compare<V: Versioning>(versioning: &V, a: &Live<V::Version>, b: &Live<V::Version>) -> Ordering
    ensures { result ≡ listed_cmp (V.numbering versioning.now) (seen a.now) (seen b.now) }
{
    versioning
        .compare(&a.version, &b.version)
        .then(a.release.text.cmp(&b.release.text))
}

// Puts the greatest first.
fn rank<V: Versioning>(versioning: &V, found: &mut Vec<Live<V::Version>>)
    ensures same { IsPermutation found.old.items found.new.items }
    ensures falling { IsFalling (listed_cmp (V.numbering versioning.now)) (map seen found.new.items) }
{
    found.sort_unstable_by(|a, b| compare(versioning, b, a));
}

// The releases of a document that were not drawn back and are versions, the greatest first.
pub(crate) fn ranked<V: Versioning>(
    alloc: Global,
    versioning: &V,
    releases: List<Release>,
) -> Result<Vec<Live<V::Version>>, AllocError>
    ensures { IfOk result (λ found. IsRankingOf (V.numbering versioning.now) releases (map seen found.items)) }
{
    let mut found = live_releases(alloc, versioning, releases)?;
    rank(versioning, &mut found);
    Ok(found)
}
