// Which releases may be chosen, but for their new texts.

ghost use Rattle.std.specs.Prelude.{◌≡◌, map};
ghost use Rattle.std.specs.List.{find};
ghost use Rattle.rnv_pick.specs.Candidates.{is_above};
ghost use Rattle.rnv_pick.specs.Choices.{is_offered};
ghost use Rattle.rnv_pick.specs.Listing.{in_range};
ghost use Rattle.rnv_pick.specs.Seen.{aim_of, seen, seen_at};

use crate::allowance::{Allowance, admits};
use crate::bucket::Bucket;
use crate::live::Live;
use crate::target::Target;
use rnv_version::Versioning;
use std::cmp::Ordering;
use std::convert::AsStr;

// The first release in the range.
pub(crate) fn first_in<'a, V: Versioning>(
    versioning: &V,
    range: &V::Range,
    found: &'a [Live<V::Version>],
) -> Option<&'a Live<V::Version>>
    ensures { seen_at result ≡ find (in_range (V.numbering versioning.now) range.now) (map seen found.now) }
{
    found
        .iter()
        .find(|live| versioning.satisfies(range, &live.version))
}

// Whether a version is comparable with the start and greater, and stable unless the start is not.
fn is_above<V: Versioning>(versioning: &V, start: &V::Version, version: &V::Version) -> bool
    ensures { result ≡ is_above (V.numbering versioning.now) start.now version.now }
{
    versioning.comparable(start, version)
        && versioning.compare(start, version) == Ordering::Less
        && (versioning.stable(version) || !versioning.stable(start))
}

// Whether a release is above the start, of the bucket and allowed.
pub(crate) fn is_offered<V: Versioning>(
    versioning: &V,
    target: &Target<'_, V::Version, V::Range>,
    bucket: Bucket,
    allowance: &mut Allowance<'_, V::Range>,
    live: &Live<V::Version>,
) -> bool
    ensures offered { result ≡ is_offered (V.numbering versioning.now) (aim_of target.now) bucket allowance.old (seen live.now) }
    ensures same { allowance.new ≡ allowance.old }
{
    is_above(versioning, target.start, &live.version)
        && bucket.holds(versioning.kind(target.start, &live.version))
        && admits(
            versioning,
            allowance,
            live.release.text.as_str(),
            &live.version,
        )
}
