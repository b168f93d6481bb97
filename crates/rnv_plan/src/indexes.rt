ghost use Rattle.std.specs.Prelude.{◌≡◌, ◌≢◌, ◌++◌, ℕ, filter, List as Items, Option, OnOk, IfOk, IfErr};
ghost use Rattle.std.specs.List.{All};
ghost use Rattle.std.specs.Option.{option_copied};
ghost use Rattle.std.specs.BTreeMap.{get};
ghost use Rattle.std.specs.BTreeSet.{keys};
ghost use Rattle.std.specs.Ordering.{nat_cmp};
ghost use Rattle.std.specs.Cmp.Lexicographic.{slice_cmp};
ghost use Rattle.rnv_base.specs.Causes.{FaultsBy};
ghost use Rattle.rnv_release.specs.declared.release.Release.{Release as OfRelease};
ghost use Rattle.rnv_release.specs.Sources.{path_by};
ghost use Rattle.rnv_pick.specs.Ranking.{IsListing};
ghost use Rattle.rnv_plan.specs.Taken.{readable_in};
ghost use Rattle.rnv_plan.specs.Sources.{from, is_wanted, place};
ghost use Rattle.rnv_plan.specs.Listings.{AreOfSome, AreRead, listing_for};
ghost use Rattle.rnv_plan.specs.Gather.{index_for, releases_for, IsSound};
ghost use Rattle.rnv_plan.specs.Refusal.{HasUnsound, HasUnsoundOf, IfTold, IsIndexRefusal};
ghost use Rattle.rnv_plan.specs.Packages.{AreNames, HasUnsoundName};

use crate::RunError;
use crate::error::limit;
use crate::taken::TakenFile;
use rnv_base::{DOCUMENT_BYTES, Folder, List, Share, SourceKind, Text};
use rnv_pick::{Dep, Listing, is_range};
use rnv_release::{Datasource, ReadIndexError, Release, read_releases};
use std::alloc::{AllocError, Global};
use std::collections::{BTreeMap, BTreeSet};
use std::convert::{AsSlice, AsStr};

// The listings of the packages of each source that have a document, by the names of these.
#[derive(Drop)]
pub(crate) struct Indexes {
    pub(crate) crates: BTreeMap<Text, Listing>,
    pub(crate) npm: BTreeMap<Text, Listing>,
    pub(crate) docker: BTreeMap<Text, Listing>,
}

impl Indexes {
    // The listing of the source's package of this name, none where it has no document.
    pub(crate) fn listing(&self, source: SourceKind, name: &Text) -> Option<&Listing>
        ensures { option_copied result ≡ listing_for self.now source name.now }
    {
        match source {
            SourceKind::Crates => self.crates.get(name),
            SourceKind::Npm => self.npm.get(name),
            SourceKind::Docker => self.docker.get(name),
        }
    }
}

// Where a source stands among the sources.
fn place(source: SourceKind) -> u8
    ensures { result ≡ place source }
{
    match source {
        SourceKind::Crates => 0,
        SourceKind::Npm => 1,
        SourceKind::Docker => 2,
    }
}

// Whether the dependency is of the source and its value is a range.
fn is_wanted(alloc: Global, source: SourceKind, dep: &Dep) -> Result<bool, AllocError>
    ensures { IfOk result (λ is_so. is_so ≡ is_wanted source dep.now) }
{
    if place(dep.source) == place(source) {
        is_range(alloc, dep.source, dep.value.as_str())
    } else {
        Ok(false)
    }
}

// Adds the packages of those of these dependencies that are of the source and whose value is a range to
// the ones before.
fn add_packages(
    alloc: Global,
    source: SourceKind,
    names: &mut BTreeSet<Text>,
    deps: &[Dep],
) -> Result<(), AllocError>
    ensures { (before : Items Dep) → AreNames before names.old → OnOk result (AreNames (before ++ filter (is_wanted source) deps.now) names.new) }
{
    for dep in deps {
        if is_wanted(alloc, source, dep)? {
            names.insert(dep.package.share(alloc)?)?;
        }
    }
    Ok(())
}

// The packages of the source of the dependencies whose value is a range, each once and in the order of
// its bytes. Only memory can fail.
fn package_names(
    alloc: Global,
    source: SourceKind,
    taken: &[TakenFile],
) -> Result<BTreeSet<Text>, AllocError>
    ensures { IfOk result (AreNames (from source (readable_in taken.now))) }
{
    let mut names = BTreeSet::new(alloc);
    for file in taken {
        add_packages(alloc, source, &mut names, file.deps.as_slice())?;
    }
    Ok(names)
}

// The refusal of the document of this package at this line.
fn refused(alloc: Global, source: SourceKind, name: &str, line: u64) -> RunError
    ensures told { IfTold (λ error. error ≡ RunError.IndexRefused (path_by source name.now) line) result }
    ensures fault { result ≢ RunError.FolderFault }
    ensures disk { result ≢ RunError.DiskFault }
    ensures unknown { result ≢ RunError.UnknownRepo }
{
    match source.path(alloc, name) {
        Ok(file) => RunError::IndexRefused { file, line },
        Err(_) => RunError::Memory,
    }
}

// The releases of a package, None where it has no document.
fn read_index<O: Folder>(
    alloc: Global,
    folder: &mut O,
    source: SourceKind,
    name: &str,
) -> Result<Option<List<Release>>, RunError>
    ensures sound { O.tells → OnOk result (IsSound (O.files folder.old) source name.now) }
    ensures releases { O.tells → IfOk result (λ found. found ≡ releases_for (O.files folder.old) source name.now) }
    ensures refused { O.tells → IfErr result (IfTold (IsIndexRefusal source name.now (index_for (O.files folder.old) source name.now))) }
    ensures same { O.tells → (O.files folder.new ≡ O.files folder.old) }
    ensures cause { FaultsBy (O.faults folder.old) (O.faults folder.new) result RunError.FolderFault }
    ensures disk { result ≢ Err RunError.DiskFault }
    ensures unknown { result ≢ Err RunError.UnknownRepo }
{
    match read_releases(alloc, folder, &source, name) {
        Ok(found) => Ok(found),
        Err(ReadIndexError::FolderFault) => Err(RunError::FolderFault),
        Err(ReadIndexError::Memory) => Err(RunError::Memory),
        Err(ReadIndexError::TooLong) => Err(limit(alloc, "document", DOCUMENT_BYTES)),
        Err(ReadIndexError::BadIndex { line }) => Err(refused(alloc, source, name, line)),
        Err(ReadIndexError::TooManyReleases { number }) => Err(limit(alloc, "releases", number)),
    }
}

// The listing of these releases, none where there is no document.
fn listed(
    alloc: Global,
    source: SourceKind,
    releases: Option<List<Release>>,
) -> Result<Option<Listing>, AllocError>
    ensures { IfOk result (IsListing source releases) }
{
    match releases {
        Some(releases) => Ok(Some(Listing::read(alloc, source, releases)?)),
        None => Ok(None),
    }
}

// The listing of a package, None where it has no document.
fn read_listing<O: Folder>(
    alloc: Global,
    folder: &mut O,
    source: SourceKind,
    name: &str,
) -> Result<Option<Listing>, RunError>
    ensures sound { O.tells → OnOk result (IsSound (O.files folder.old) source name.now) }
    ensures listed { O.tells → IfOk result (IsListing source (releases_for (O.files folder.old) source name.now)) }
    ensures some { IfOk result (λ listing. (releases : Option (Items OfRelease)) × IsListing source releases listing) }
    ensures refused { O.tells → IfErr result (IfTold (IsIndexRefusal source name.now (index_for (O.files folder.old) source name.now))) }
    ensures same { O.tells → (O.files folder.new ≡ O.files folder.old) }
    ensures cause { FaultsBy (O.faults folder.old) (O.faults folder.new) result RunError.FolderFault }
    ensures disk { result ≢ Err RunError.DiskFault }
    ensures unknown { result ≢ Err RunError.UnknownRepo }
{
    let releases = read_index(alloc, folder, source, name)?;
    Ok(listed(alloc, source, releases)?)
}

// The listing of each package of these names that has a document, read in the order of the names.
// The refusal of the first document that is refused.
fn read_each<O: Folder>(
    alloc: Global,
    folder: &mut O,
    source: SourceKind,
    names: BTreeSet<Text>,
) -> Result<BTreeMap<Text, Listing>, RunError>
    ensures sound { O.tells → OnOk result (All (IsSound (O.files folder.old) source) (keys names)) }
    ensures listed { O.tells → IfOk result (λ listings. All (λ name. IsListing source (releases_for (O.files folder.old) source name) (get (slice_cmp nat_cmp) listings name)) (keys names)) }
    ensures some { IfOk result (AreOfSome source) }
    ensures refused { O.tells → IfErr result (IfTold (HasUnsoundName (O.files folder.old) source (keys names))) }
    ensures same { O.tells → (O.files folder.new ≡ O.files folder.old) }
    ensures cause { FaultsBy (O.faults folder.old) (O.faults folder.new) result RunError.FolderFault }
    ensures disk { result ≢ Err RunError.DiskFault }
    ensures unknown { result ≢ Err RunError.UnknownRepo }
{
    let mut listings = BTreeMap::new(alloc);
    for name in names {
        if let Some(listing) = read_listing(alloc, folder, source, name.as_str())? {
            listings.insert(name, listing)?;
        }
    }
    Ok(listings)
}

// The listing of each package of the source that has a document, of the dependencies whose value is a
// range, by the package's name. The documents are read once each, in the order of the names by their
// bytes.
fn read_source<O: Folder>(
    alloc: Global,
    folder: &mut O,
    source: SourceKind,
    taken: &[TakenFile],
) -> Result<BTreeMap<Text, Listing>, RunError>
    ensures sound { O.tells → OnOk result (All (λ d. IsSound (O.files folder.old) source d.«package») (from source (readable_in taken.now))) }
    ensures listed { O.tells → IfOk result (λ listings. All (λ d. IsListing source (releases_for (O.files folder.old) source d.«package») (get (slice_cmp nat_cmp) listings d.«package»)) (from source (readable_in taken.now))) }
    ensures some { IfOk result (AreOfSome source) }
    ensures refused { O.tells → IfErr result (IfTold (HasUnsoundOf (O.files folder.old) source (from source (readable_in taken.now)))) }
    ensures same { O.tells → (O.files folder.new ≡ O.files folder.old) }
    ensures cause { FaultsBy (O.faults folder.old) (O.faults folder.new) result RunError.FolderFault }
    ensures disk { result ≢ Err RunError.DiskFault }
    ensures unknown { result ≢ Err RunError.UnknownRepo }
{
    let names = package_names(alloc, source, taken)?;
    read_each(alloc, folder, source, names)
}

// The listings of the packages of the dependencies whose value is a range. The documents are read once
// each, by source and then by the package's name.
pub(crate) fn read_indexes<O: Folder>(
    alloc: Global,
    folder: &mut O,
    taken: &[TakenFile],
) -> Result<Indexes, RunError>
    ensures sound { O.tells → OnOk result (All (λ d. IsSound (O.files folder.old) d.source d.«package») (readable_in taken.now)) }
    ensures listed { O.tells → IfOk result (λ indexes. All (λ d. IsListing d.source (releases_for (O.files folder.old) d.source d.«package») (listing_for indexes d.source d.«package»)) (readable_in taken.now)) }
    ensures some { IfOk result AreRead }
    ensures refused { O.tells → IfErr result (IfTold (HasUnsound (O.files folder.old) (readable_in taken.now))) }
    ensures same { O.tells → (O.files folder.new ≡ O.files folder.old) }
    ensures cause { FaultsBy (O.faults folder.old) (O.faults folder.new) result RunError.FolderFault }
    ensures disk { result ≢ Err RunError.DiskFault }
    ensures unknown { result ≢ Err RunError.UnknownRepo }
{
    let crates = read_source(alloc, folder, SourceKind::Crates, taken)?;
    let npm = read_source(alloc, folder, SourceKind::Npm, taken)?;
    let docker = read_source(alloc, folder, SourceKind::Docker, taken)?;
    Ok(Indexes {
        crates,
        npm,
        docker,
    })
}
