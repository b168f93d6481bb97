// The updates of a dependency, over one versioning.

ghost use Rattle.std.specs.Prelude.{◌≡◌, ◌++◌, [], List as Items, Option, Some, None, All, map, IfOk, OnOk, is_none, is_some, unwrap_or, not, ◌&&◌, if◌then◌else◌};
ghost use Rattle.std.specs.List.{flat_map};
ghost use Rattle.rnv_release.specs.declared.release.Release.{Release as OfRelease};
ghost use Rattle.rnv_pick.specs.Buckets.{buckets};
ghost use Rattle.rnv_pick.specs.Choices.{chosen_from};
ghost use Rattle.rnv_pick.specs.Listing.{IsNamed, text_of};
ghost use Rattle.rnv_pick.specs.Options.{with_current};
ghost use Rattle.rnv_pick.specs.Ranking.{AreRanked, IsRanked};
ghost use Rattle.rnv_pick.specs.Seen.{aim_of, all_seen, seen, seen_at};
ghost use Rattle.rnv_pick.specs.Updates.{AreToChosen, AreUnlessSkipped, AreUpdates, AreUpdatesAt, AreUpdatesFrom, IsCurrent, IsCurrentIn, IsPicked, IsPickedOf, enabled_update, is_bump, is_pin, late_skip, pin_updates, start_of, updates_to};

use crate::allowance::{Allowance, allowance_of, range_of};
use crate::bucket::buckets;
use crate::choice::Choice;
use crate::choosing::chosen;
use crate::dep::share_text;
use crate::live::Live;
use crate::target::Target;
use crate::wanted::first_in;
use crate::{Dep, DepOptions, Picked, Rules, Skip, Update};
use rnv_base::{List, Share, Strategy, Text, UpdateKind};
use rnv_version::{VersionError, Versioning};
use std::alloc::{AllocError, Global};
use std::convert::{AsSlice, AsStr};

// Puts the update to a choice at the end, unless it is not enabled.
fn add(
    alloc: Global,
    dep: &Dep,
    options: &DepOptions,
    choice: Choice,
    updates: &mut List<Update>,
) -> Result<(), AllocError>
    ensures { OnOk result (updates.new ≡ updates.old ++ enabled_update dep.now options.now choice) }
{
    if !choice.options.enabled {
        return Ok(());
    }
    let Choice {
        new_version,
        new_value,
        kind,
        pending,
        options: at_update,
    } = choice;
    updates.push(Update {
        dep: dep.share(alloc)?,
        new_version,
        new_value,
        kind,
        pending,
        split_major: options.split_major,
        split_patch: options.split_patch,
        options: at_update,
    })?;
    Ok(())
}

// The same of what may be a choice.
fn add_chosen(
    alloc: Global,
    dep: &Dep,
    options: &DepOptions,
    choice: Option<Choice>,
    updates: &mut List<Update>,
) -> Result<(), AllocError>
    ensures { OnOk result (updates.new ≡ updates.old ++ updates_to dep.now options.now choice) }
{
    match choice {
        Some(choice) => add(alloc, dep, options, choice, updates),
        None => Ok(()),
    }
}

// The updates to what is chosen of each bucket.
fn to_each<V: Versioning, O: Rules>(
    alloc: Global,
    versioning: &V,
    rules: &O,
    moment: u64,
    target: &Target<'_, V::Version, V::Range>,
    allowance: &mut Allowance<'_, V::Range>,
    found: &[Live<V::Version>],
) -> Result<List<Update>, AllocError>
    requires value { (V.numbering versioning.now).range_of target.now.dep.now.value ≡ Some target.now.range.now }
    requires versions { All (λ l. IsNamed (V.numbering versioning.now) (seen l)) found.now }
    ensures { IfOk result (λ updates. updates ≡ flat_map (λ b. updates_to target.now.dep.now target.now.options.now (chosen_from (V.numbering versioning.now) (O.options rules.now) moment (aim_of target.now) b allowance.old None (map seen found.now))) (buckets target.now.options.now)) }
{
    let mut updates = List::empty(alloc);
    let all = buckets(target.options);
    for bucket in all {
        let choice = chosen(
            alloc, versioning, rules, moment, target, *bucket, allowance, found,
        )?;
        add_chosen(alloc, target.dep, target.options, choice, &mut updates)?;
    }
    Ok(updates)
}

// The updates to the chosen candidates.
fn to_chosen<V: Versioning, O: Rules>(
    alloc: Global,
    versioning: &V,
    rules: &O,
    moment: u64,
    target: &Target<'_, V::Version, V::Range>,
    found: &[Live<V::Version>],
) -> Result<List<Update>, AllocError>
    requires value { (V.numbering versioning.now).range_of target.now.dep.now.value ≡ Some target.now.range.now }
    requires ranked { IsRanked (V.numbering versioning.now) (map seen found.now) }
    ensures { IfOk result (AreToChosen (V.numbering versioning.now) (O.options rules.now) moment (aim_of target.now) (map seen found.now)) }
{
    versioning.keeps_laws();
    let mut allowance = allowance_of(alloc, versioning, &target.options.allowed)?;
    to_each(
        alloc,
        versioning,
        rules,
        moment,
        target,
        &mut allowance,
        found,
    )
}

// The version that the candidates are above.
fn start_of<V: Versioning>(
    alloc: Global,
    versioning: &V,
    options: &DepOptions,
    value: &str,
    range: &V::Range,
    current: V::Version,
) -> Result<V::Version, AllocError>
    ensures { IfOk result (λ v. v ≡ start_of (V.numbering versioning.now) options.now value.now range.now current) }
{
    if matches!(options.strategy, Strategy::Bump) && !versioning.exact(range) {
        match versioning.bump_start(alloc, value)? {
            Some(start) => Ok(start),
            None => Ok(current),
        }
    } else {
        Ok(current)
    }
}

// The pin of a value to the current version.
fn pin<V: Versioning, O: Rules>(
    alloc: Global,
    versioning: &V,
    rules: &O,
    dep: &Dep,
    options: &DepOptions,
    range: &V::Range,
    current: &Text,
    version: &V::Version,
) -> Result<List<Update>, AllocError>
    requires value { (V.numbering versioning.now).range_of dep.now.value ≡ Some range.now }
    requires version { (V.numbering versioning.now).version_of current.now ≡ Some version.now }
    ensures { IfOk result (λ updates. updates ≡ pin_updates (V.numbering versioning.now) (O.options rules.now) dep.now options.now current.now) }
{
    let mut updates = List::empty(alloc);
    let text = versioning.rewritten(
        alloc,
        options.strategy,
        dep.value.as_str(),
        range,
        current.as_str(),
        version,
    )?;
    let Some(text) = text else {
        return Ok(updates);
    };
    let at_update = rules.at_update(alloc, dep, UpdateKind::Pin, text.as_str())?;
    let choice = Choice {
        new_version: current.share(alloc)?,
        new_value: text,
        kind: UpdateKind::Pin,
        pending: false,
        options: at_update,
    };
    add(alloc, dep, options, choice, &mut updates)?;
    Ok(updates)
}

// The updates of a dependency from its current version on.
fn updates_from<V: Versioning, O: Rules>(
    alloc: Global,
    versioning: &V,
    rules: &O,
    moment: u64,
    dep: &Dep,
    options: &DepOptions,
    range: &V::Range,
    current: &Text,
    version: V::Version,
    found: &[Live<V::Version>],
) -> Result<List<Update>, AllocError>
    requires value { (V.numbering versioning.now).range_of dep.now.value ≡ Some range.now }
    requires version { (V.numbering versioning.now).version_of current.now ≡ Some version }
    requires ranked { IsRanked (V.numbering versioning.now) (map seen found.now) }
    ensures { IfOk result (AreUpdatesFrom (V.numbering versioning.now) (O.options rules.now) moment dep.now options.now (map seen found.now) range.now current.now version) }
{
    if matches!(options.strategy, Strategy::Pin) && !versioning.exact(range) {
        return pin(
            alloc, versioning, rules, dep, options, range, current, &version,
        );
    }
    let value = dep.value.as_str();
    let start = start_of(alloc, versioning, options, value, range, version)?;
    let target = Target {
        dep,
        options,
        range,
        start: &start,
    };
    to_chosen(alloc, versioning, rules, moment, &target, found)
}

// The updates of a dependency, by the text of its current version.
fn updates_at<V: Versioning, O: Rules>(
    alloc: Global,
    versioning: &V,
    rules: &O,
    moment: u64,
    dep: &Dep,
    options: &DepOptions,
    range: &V::Range,
    current: &Text,
    found: &[Live<V::Version>],
) -> Result<List<Update>, AllocError>
    requires value { (V.numbering versioning.now).range_of dep.now.value ≡ Some range.now }
    requires ranked { IsRanked (V.numbering versioning.now) (map seen found.now) }
    ensures { IfOk result (AreUpdatesAt (V.numbering versioning.now) (O.options rules.now) moment dep.now options.now (map seen found.now) range.now current.now ((V.numbering versioning.now).version_of current.now)) }
{
    match versioning.version(alloc, current.as_str()) {
        Ok(version) => updates_from(
            alloc, versioning, rules, moment, dep, options, range, current, version, found,
        ),
        Err(VersionError::NotAVersion) => Ok(List::empty(alloc)),
        Err(VersionError::Memory) => Err(AllocError),
    }
}

// The text of a release, if there is one.
fn text_of<X>(alloc: Global, live: Option<&Live<X>>) -> Result<Option<Text>, AllocError>
    ensures { IfOk result (λ text. text ≡ text_of (seen_at live.entry)) }
{
    match live {
        Some(live) => Ok(Some(live.release.text.share(alloc)?)),
        None => Ok(None),
    }
}

// The current version of a value that is this range.
fn current_in<V: Versioning>(
    alloc: Global,
    versioning: &V,
    value: &str,
    range: &V::Range,
    found: &[Live<V::Version>],
) -> Result<Option<Text>, AllocError>
    requires value { (V.numbering versioning.now).range_of value.now ≡ Some range.now }
    requires ranked { IsRanked (V.numbering versioning.now) (map seen found.now) }
    ensures { IfOk result (IsCurrentIn (V.numbering versioning.now) value.now (map seen found.now) (Some range.now)) }
{
    if versioning.exact(range) {
        versioning.exact_text(alloc, value, range)
    } else {
        text_of(alloc, first_in(versioning, range, found))
    }
}

// The current version of a value.
fn current<V: Versioning>(
    alloc: Global,
    versioning: &V,
    value: &str,
    range: &Option<V::Range>,
    found: &[Live<V::Version>],
) -> Result<Option<Text>, AllocError>
    requires value { range.now ≡ (V.numbering versioning.now).range_of value.now }
    requires ranked { IsRanked (V.numbering versioning.now) (map seen found.now) }
    ensures { IfOk result (IsCurrent (V.numbering versioning.now) value.now (map seen found.now)) }
{
    match range {
        Some(range) => current_in(alloc, versioning, value, range, found),
        None => Ok(None),
    }
}

// The first reason to skip a dependency, before its options are asked for.
fn early_skip(ignored: bool, readable: bool, is_missing: bool) -> Option<Skip>
    ensures { result ≡ (if ignored then Some Skip.Ignored else (if not readable then Some Skip.Unreadable else (if is_missing then Some Skip.NoIndex else None))) }
{
    if ignored {
        Some(Skip::Ignored)
    } else if !readable {
        Some(Skip::Unreadable)
    } else if is_missing {
        Some(Skip::NoIndex)
    } else {
        None
    }
}

fn skipped(alloc: Global, current: Option<Text>, skip: Skip) -> Picked
    ensures { result ≡ record { current = current; skip = Some skip; updates = [] } }
{
    Picked {
        current,
        skip: Some(skip),
        updates: List::empty(alloc),
    }
}

// What is picked for a dependency that has its current version and a document.
fn picked_at<V: Versioning, O: Rules>(
    alloc: Global,
    versioning: &V,
    rules: &O,
    moment: u64,
    dep: &Dep,
    range: &V::Range,
    found: &[Live<V::Version>],
) -> Result<Picked, AllocError>
    requires value { (V.numbering versioning.now).range_of dep.now.value ≡ Some range.now }
    requires ranked { IsRanked (V.numbering versioning.now) (map seen found.now) }
    ensures current { IfOk result (λ p. p.current ≡ dep.now.current) }
    ensures skip { IfOk result (λ p. p.skip ≡ late_skip ((O.options rules.now).at_dep dep.now).enabled dep.now.current) }
    ensures updates { IfOk result (λ p. AreUnlessSkipped (V.numbering versioning.now) (O.options rules.now) moment dep.now (map seen found.now) p.skip p.updates) }
{
    let options = rules.at_dep(alloc, dep)?;
    let current = share_text(alloc, &dep.current)?;
    if !options.enabled {
        return Ok(skipped(alloc, current, Skip::Disabled));
    }
    let Some(text) = &dep.current else {
        return Ok(skipped(alloc, current, Skip::NoRelease));
    };
    let updates = updates_at(
        alloc, versioning, rules, moment, dep, &options, range, text, found,
    )?;
    Ok(Picked {
        current,
        skip: None,
        updates,
    })
}

// What is picked for a dependency, where its package has no document or has one, of these versions. Its
// value is read once.
fn picked_of<V: Versioning, O: Rules>(
    alloc: Global,
    versioning: &V,
    dep: &Dep,
    is_missing: bool,
    found: &[Live<V::Version>],
    rules: &O,
    moment: u64,
) -> Result<Picked, AllocError>
    requires { IsRanked (V.numbering versioning.now) (map seen found.now) }
    ensures { IfOk result (IsPickedOf (V.numbering versioning.now) (O.options rules.now) moment dep.now is_missing (map seen found.now)) }
{
    let range = range_of(alloc, versioning, dep.value.as_str())?;
    let current = current(alloc, versioning, dep.value.as_str(), &range, found)?;
    let dep = dep.with_current(alloc, current)?;
    let early = early_skip(rules.is_ignored(&dep), range.is_some(), is_missing);
    if let Some(skip) = early {
        return Ok(skipped(alloc, share_text(alloc, &dep.current)?, skip));
    }
    match &range {
        Some(range) => picked_at(alloc, versioning, rules, moment, &dep, range, found),
        None => unreachable!(),
    }
}

// The versions of a document, and none without one.
fn versions<'a, X>(found: Option<&'a [Live<X>]>) -> &'a [Live<X>]
    ensures { map seen result.now ≡ unwrap_or (all_seen found.entry) [] }
{
    match found {
        Some(found) => found,
        None => &[],
    }
}

// The current version of a dependency, the first reason to skip it, and its updates, over one
// versioning, from the versions of its package's document, if it has one.
pub(crate) fn picked<V: Versioning, O: Rules>(
    alloc: Global,
    versioning: &V,
    dep: &Dep,
    found: Option<&[Live<V::Version>]>,
    rules: &O,
    moment: u64,
) -> Result<Picked, AllocError>
    requires { (releases : Option (Items OfRelease)) × AreRanked (V.numbering versioning.now) releases (all_seen found) }
    ensures { (releases : Option (Items OfRelease)) → AreRanked (V.numbering versioning.now) releases (all_seen found.entry) → IfOk result (IsPicked (V.numbering versioning.now) (O.options rules.now) moment dep.now releases) }
{
    let is_missing = found.is_none();
    let versions = versions(found);
    picked_of(alloc, versioning, dep, is_missing, versions, rules, moment)
}
