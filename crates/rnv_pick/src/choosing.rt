// Which candidate of a bucket is chosen.

ghost use Rattle.std.specs.Prelude.{◌≡◌, Some, None, not, map, All, IfOk};
ghost use Rattle.rnv_pick.specs.Choices.{chosen_from, first_of, is_old, offered, rewritten};
ghost use Rattle.rnv_pick.specs.Listing.{IsNamed};
ghost use Rattle.rnv_pick.specs.Seen.{aim_of, seen};

use crate::allowance::Allowance;
use crate::bucket::Bucket;
use crate::choice::Choice;
use crate::live::Live;
use crate::target::Target;
use crate::wanted::is_offered;
use crate::{Dep, Rules};
use rnv_base::{Share, Text, UpdateKind};
use rnv_release::Release;
use rnv_version::Versioning;
use std::alloc::{AllocError, Global};
use std::convert::AsStr;

// Whether a release of this time is of this age at the moment.
fn is_old(moment: u64, age: Option<u64>, time: Option<u64>) -> bool
    ensures { result ≡ is_old moment age time }
{
    let (Some(age), Some(time)) = (age, time) else {
        return true;
    };
    time <= moment && age <= moment - time
}

// A release as a choice of this kind and new value.
fn judged<O: Rules>(
    alloc: Global,
    rules: &O,
    moment: u64,
    dep: &Dep,
    kind: UpdateKind,
    release: &Release,
    new_value: Text,
) -> Result<Choice, AllocError>
    ensures { IfOk result (λ c. let options = (O.options rules.now).at_update dep.now kind new_value in c ≡ record { new_version = release.now.text; new_value = new_value; kind = kind; pending = not (is_old moment options.age release.now.time); options = options }) }
{
    let options = rules.at_update(alloc, dep, kind, new_value.as_str())?;
    let pending = !is_old(moment, options.age, release.time);
    Ok(Choice {
        new_version: release.text.share(alloc)?,
        new_value,
        kind,
        pending,
        options,
    })
}

// A release as a choice, if it has a new text.
fn rewritten<V: Versioning, O: Rules>(
    alloc: Global,
    versioning: &V,
    rules: &O,
    moment: u64,
    target: &Target<'_, V::Version, V::Range>,
    live: &Live<V::Version>,
) -> Result<Option<Choice>, AllocError>
    requires value { (V.numbering versioning.now).range_of target.now.dep.now.value ≡ Some target.now.range.now }
    requires version { IsNamed (V.numbering versioning.now) (seen live.now) }
    ensures { IfOk result (λ c. c ≡ rewritten (V.numbering versioning.now) (O.options rules.now) moment (aim_of target.now) (seen live.now)) }
{
    let kind = versioning.kind(target.start, &live.version);
    let text = versioning.rewritten(
        alloc,
        target.options.strategy,
        target.dep.value.as_str(),
        target.range,
        live.release.text.as_str(),
        &live.version,
    )?;
    match text {
        Some(text) => {
            let dep = target.dep;
            Ok(Some(judged(alloc, rules, moment, dep, kind, &live.release, text)?))
        }
        None => Ok(None),
    }
}

// A release as a choice of the bucket, if it is one and has a new text.
fn offered<V: Versioning, O: Rules>(
    alloc: Global,
    versioning: &V,
    rules: &O,
    moment: u64,
    target: &Target<'_, V::Version, V::Range>,
    bucket: Bucket,
    allowance: &mut Allowance<'_, V::Range>,
    live: &Live<V::Version>,
) -> Result<Option<Choice>, AllocError>
    requires value { (V.numbering versioning.now).range_of target.now.dep.now.value ≡ Some target.now.range.now }
    requires version { IsNamed (V.numbering versioning.now) (seen live.now) }
    ensures offered { IfOk result (λ c. c ≡ offered (V.numbering versioning.now) (O.options rules.now) moment (aim_of target.now) bucket allowance.old (seen live.now)) }
    ensures same { allowance.new ≡ allowance.old }
{
    if is_offered(versioning, target, bucket, allowance, live) {
        rewritten(alloc, versioning, rules, moment, target, live)
    } else {
        Ok(None)
    }
}

// The first, once there is one.
fn first_of(top: Option<Choice>, next: Choice) -> Choice
    ensures { result ≡ first_of top next }
{
    match top {
        Some(top) => top,
        None => next,
    }
}

// The first choice of the bucket that is not pending, else the first of all. The rules are asked only
// for releases of the bucket, from the greatest on, until one is old enough.
pub(crate) fn chosen<V: Versioning, O: Rules>(
    alloc: Global,
    versioning: &V,
    rules: &O,
    moment: u64,
    target: &Target<'_, V::Version, V::Range>,
    bucket: Bucket,
    allowance: &mut Allowance<'_, V::Range>,
    found: &[Live<V::Version>],
) -> Result<Option<Choice>, AllocError>
    requires value { (V.numbering versioning.now).range_of target.now.dep.now.value ≡ Some target.now.range.now }
    requires versions { All (λ l. IsNamed (V.numbering versioning.now) (seen l)) found.now }
    ensures chosen { IfOk result (λ c. c ≡ chosen_from (V.numbering versioning.now) (O.options rules.now) moment (aim_of target.now) bucket allowance.old None (map seen found.now)) }
    ensures same { allowance.new ≡ allowance.old }
{
    let mut top = None;
    for live in found {
        let next = offered(
            alloc, versioning, rules, moment, target, bucket, allowance, live,
        )?;
        let Some(next) = next else {
            continue;
        };
        if !next.pending {
            return Ok(Some(next));
        }
        top = Some(first_of(top, next));
    }
    Ok(top)
}
