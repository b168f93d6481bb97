ghost use Rattle.std.specs.Prelude.{◌≡◌, IfOk};
ghost use Rattle.rnv_pick.specs.Allowing.{admits, allowance_of, named_allowance, range_allowance};

use crate::Allowed;
use rnv_pattern::ListMatcher;
use rnv_version::{RangeError, Versioning};
use std::alloc::{AllocError, Global};
use std::convert::AsStr;

// Which versions are allowed, ready to be tried on many: all, none, those in a range, or those whose text
// matches.
#[derive(Drop)]
pub(crate) enum Allowance<'p, R> {
    All,
    Nothing,
    Within(R),
    Matching(ListMatcher<'p>),
}

// The range that a text is, if it is one.
pub(crate) fn range_of<V: Versioning>(
    alloc: Global,
    versioning: &V,
    text: &str,
) -> Result<Option<V::Range>, AllocError>
    ensures { IfOk result (λ r. r ≡ (V.numbering versioning.now).range_of text.now) }
{
    match versioning.range(alloc, text) {
        Ok(range) => Ok(Some(range)),
        Err(RangeError::NotARange) => Ok(None),
        Err(RangeError::Memory) => Err(AllocError),
    }
}

// The versions in the range that is named: none where the text is no range.
fn within<'p, R>(range: Option<R>) -> Allowance<'p, R>
    ensures { result ≡ range_allowance range }
{
    match range {
        Some(range) => Allowance::Within(range),
        None => Allowance::Nothing,
    }
}

// The versions that are named.
fn named<'p, V: Versioning>(
    alloc: Global,
    versioning: &V,
    allowed: &'p Allowed,
) -> Result<Allowance<'p, V::Range>, AllocError>
    ensures { IfOk result (λ a. a ≡ named_allowance (V.numbering versioning.now) allowed.now) }
{
    match allowed {
        Allowed::Patterns { list, .. } => {
            let matcher = list.matcher(alloc)?;
            Ok(Allowance::Matching(matcher))
        }
        Allowed::Range { text } => {
            let range = range_of(alloc, versioning, text.as_str())?;
            Ok(within(range))
        }
    }
}

// The versions that are named, or all where nothing is.
pub(crate) fn allowance_of<'p, V: Versioning>(
    alloc: Global,
    versioning: &V,
    allowed: &'p Option<Allowed>,
) -> Result<Allowance<'p, V::Range>, AllocError>
    ensures { IfOk result (λ a. a ≡ allowance_of (V.numbering versioning.now) allowed.now) }
{
    match allowed {
        Some(allowed) => named(alloc, versioning, allowed),
        None => Ok(Allowance::All),
    }
}

// Whether a version of this text is among those that are allowed.
pub(crate) fn admits<V: Versioning>(
    versioning: &V,
    allowance: &mut Allowance<'_, V::Range>,
    text: &str,
    version: &V::Version,
) -> bool
    ensures admits { result ≡ admits (V.numbering versioning.now) allowance.old text.now version.now }
    ensures same { allowance.new ≡ allowance.old }
{
    match allowance {
        Allowance::All => true,
        Allowance::Nothing => false,
        Allowance::Within(range) => versioning.satisfies(range, version),
        Allowance::Matching(matcher) => matcher.matches(text),
    }
}
