ghost use Rattle.std.specs.Prelude.{◌≡◌, Some, IfOk};
ghost use Rattle.std.specs.Option.{option_copied};
ghost use Rattle.rnv_pick.specs.Ranking.{IsListing, crates_of, docker_of, npm_of, within};
ghost use Rattle.rnv_pick.specs.Seen.{all_seen};

use crate::live::{Live, ranked};
use rnv_base::{List, SourceKind};
use rnv_npm::{NpmVersion, NpmVersioning};
use rnv_release::Release;
use rnv_version::{CargoVersion, CargoVersioning, DockerVersion, DockerVersioning};
use std::alloc::{AllocError, Global};

// The releases of a document with their versions, by the versioning of its source.
#[derive(Drop)]
pub(crate) enum Ranked {
    Crates(Vec<Live<CargoVersion>>),
    Npm(Vec<Live<NpmVersion>>),
    Docker(Vec<Live<DockerVersion>>),
}

impl Ranked {
    // Those of a crate.
    pub(crate) fn crates(&self) -> Option<&[Live<CargoVersion>]>
        ensures { all_seen result ≡ crates_of self.now }
    {
        match self {
            Ranked::Crates(found) => Some(found.as_slice()),
            Ranked::Npm(_) | Ranked::Docker(_) => None,
        }
    }

    // Those of a package of npm.
    pub(crate) fn npm(&self) -> Option<&[Live<NpmVersion>]>
        ensures { all_seen result ≡ npm_of self.now }
    {
        match self {
            Ranked::Npm(found) => Some(found.as_slice()),
            Ranked::Crates(_) | Ranked::Docker(_) => None,
        }
    }

    // Those of an image.
    pub(crate) fn docker(&self) -> Option<&[Live<DockerVersion>]>
        ensures { all_seen result ≡ docker_of self.now }
    {
        match self {
            Ranked::Docker(found) => Some(found.as_slice()),
            Ranked::Crates(_) | Ranked::Npm(_) => None,
        }
    }
}

// The versions of a crate's document, none where it is another's.
pub(crate) fn crates(listing: Option<&Listing>) -> Option<&[Live<CargoVersion>]>
    ensures { all_seen result ≡ within crates_of (option_copied listing.entry) }
{
    match listing {
        Some(listing) => listing.ranked.crates(),
        None => None,
    }
}

// The same of a package of npm.
pub(crate) fn npm(listing: Option<&Listing>) -> Option<&[Live<NpmVersion>]>
    ensures { all_seen result ≡ within npm_of (option_copied listing.entry) }
{
    match listing {
        Some(listing) => listing.ranked.npm(),
        None => None,
    }
}

// The same of an image.
pub(crate) fn docker(listing: Option<&Listing>) -> Option<&[Live<DockerVersion>]>
    ensures { all_seen result ≡ within docker_of (option_copied listing.entry) }
{
    match listing {
        Some(listing) => listing.ranked.docker(),
        None => None,
    }
}

/// The releases of a document that were not drawn back and are versions of its source, ready to be
/// chosen from for many dependencies.
#[derive(Drop)]
pub struct Listing {
    pub(crate) ranked: Ranked,
}

impl Listing {
    /// The listing of a source's document that has these releases. The text of each is read once. Only
    /// memory can fail.
    pub fn read(
        alloc: Global,
        source: SourceKind,
        releases: List<Release>,
    ) -> Result<Listing, AllocError>
        ensures { IfOk result (λ listing. IsListing source (Some releases) (Some listing)) }
    {
        let ranked = match source {
            SourceKind::Crates => Ranked::Crates(ranked(alloc, &CargoVersioning, releases)?),
            SourceKind::Npm => Ranked::Npm(ranked(alloc, &NpmVersioning, releases)?),
            SourceKind::Docker => Ranked::Docker(ranked(alloc, &DockerVersioning, releases)?),
        };
        Ok(Listing { ranked })
    }
}
