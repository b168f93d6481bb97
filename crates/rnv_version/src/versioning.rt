ghost use Rattle.std.specs.Prelude.{◌≡◌, Some, None, IfOk, IsErrOf, IsSome};
ghost use Rattle.std.specs.Cmp.{IsTotalOrder};
ghost use Rattle.rnv_version.specs.Numbering.{AreSpelled, ExactIsMet, ExactIsNamed, KindsRise, NewIsMet, Numbering};

use crate::{Numbers, RangeError, VersionError};
use rnv_base::{Strategy, Text, UpdateKind};
use std::alloc::{AllocError, Global};
use std::cmp::Ordering;

/// How the releases of one kind of package are numbered, and how files name the wanted ones.
pub trait Versioning {
    /// A version as it was read.
    type Version: Drop;

    /// A range of versions as it was read.
    type Range: Drop;

    /// What it means.
    ghost numbering: { Self → Numbering Self.Version Self.Range };

    /// The version that a text is. `NotAVersion` only for other texts. Else only memory can fail.
    fn version(&self, alloc: Global, text: &str) -> Result<Self::Version, VersionError>
        ensures value { IfOk result (λ v. (numbering self.now).version_of text.now ≡ Some v) }
        ensures not { IsErrOf result VersionError.NotAVersion → (numbering self.now).version_of text.now ≡ None };

    /// The range that a text is. `NotARange` only for other texts. Else only memory can fail.
    fn range(&self, alloc: Global, text: &str) -> Result<Self::Range, RangeError>
        ensures value { IfOk result (λ r. (numbering self.now).range_of text.now ≡ Some r) }
        ensures not { IsErrOf result RangeError.NotARange → (numbering self.now).range_of text.now ≡ None };

    /// Which of two versions is the later one. This is a total preorder.
    fn compare(&self, a: &Self::Version, b: &Self::Version) -> Ordering
        ensures { result ≡ (numbering self.now).order a.now b.now };

    /// Whether one of the versions may stand for the other.
    fn comparable(&self, a: &Self::Version, b: &Self::Version) -> bool
        ensures { result ≡ (numbering self.now).are_comparable a.now b.now };

    /// Whether the version is in the range.
    fn satisfies(&self, range: &Self::Range, version: &Self::Version) -> bool
        ensures { result ≡ (numbering self.now).is_satisfied range.now version.now };

    /// Whether the range names one version.
    fn exact(&self, range: &Self::Range) -> bool
        ensures { result ≡ (numbering self.now).is_exact range.now };

    /// Whether the version is no pre-release.
    fn stable(&self, version: &Self::Version) -> bool
        ensures { result ≡ (numbering self.now).is_stable version.now };

    /// How far the second version is from the first.
    fn kind(&self, from: &Self::Version, to: &Self::Version) -> UpdateKind
        ensures { result ≡ (numbering self.now).kind_between from.now to.now };

    /// The first two numbers of a version, a missing one 0.
    fn numbers(&self, version: &Self::Version) -> Numbers
        ensures { result ≡ (numbering self.now).numbers_of version.now };

    /// By a strategy, the text of a range that is to stand for the value when this version is wanted, and
    /// `None` exactly where there is none. Only memory can fail.
    fn new_value(
        &self,
        alloc: Global,
        strategy: Strategy,
        value: &str,
        version: &str,
    ) -> Result<Option<Text>, AllocError>
        requires readable_value { IsSome ((numbering self.now).range_of value.now) }
        requires readable_version { IsSome ((numbering self.now).version_of version.now) }
        ensures { IfOk result (λ text. text ≡ (numbering self.now).new_text strategy value.now version.now) }
    {
        let range = match self.range(alloc, value) {
            Ok(range) => range,
            Err(RangeError::NotARange) => unreachable!(),
            Err(RangeError::Memory) => return Err(AllocError),
        };
        let read = match self.version(alloc, version) {
            Ok(read) => read,
            Err(VersionError::NotAVersion) => unreachable!(),
            Err(VersionError::Memory) => return Err(AllocError),
        };
        self.rewritten(alloc, strategy, value, &range, version, &read)
    }

    /// The same over what was read already: the range that the value is, and the version that the text
    /// is. Only memory can fail.
    fn rewritten(
        &self,
        alloc: Global,
        strategy: Strategy,
        value: &str,
        range: &Self::Range,
        text: &str,
        version: &Self::Version,
    ) -> Result<Option<Text>, AllocError>
        requires value { (numbering self.now).range_of value.now ≡ Some range.now }
        requires version { (numbering self.now).version_of text.now ≡ Some version.now }
        ensures { IfOk result (λ t. t ≡ (numbering self.now).new_text strategy value.now text.now) };

    /// The text of the version that an exact value names, without spaces, operator and `v`, and
    /// `None` for other values. Only memory can fail.
    fn exact_text(
        &self,
        alloc: Global,
        value: &str,
        range: &Self::Range,
    ) -> Result<Option<Text>, AllocError>
        requires { (numbering self.now).range_of value.now ≡ Some range.now }
        ensures { IfOk result (λ t. t ≡ (numbering self.now).exact_text value.now) };

    /// The version whose numbers a plain value names, missing ones 0, and `None` for other values.
    /// Only memory can fail.
    fn bump_start(&self, alloc: Global, value: &str) -> Result<Option<Self::Version>, AllocError>
        ensures { IfOk result (λ v. v ≡ (numbering self.now).bump_start value.now) };

    /// Does nothing: its promise are laws of ranges and of new values.
    fn keeps_laws(&self)
        // A range is spelled with the characters of ranges.
        ensures spelled { AreSpelled (numbering self.now) }
        // A new value is a range that the version satisfies.
        ensures given { NewIsMet (numbering self.now) }
        // A later version is of no lesser kind.
        ensures kinds { KindsRise (numbering self.now) }
        // The text of an exact value is that of a version in its range, and each exact value has one.
        ensures exact_met { ExactIsMet (numbering self.now) }
        ensures exact_named { ExactIsNamed (numbering self.now) };

    /// The order is total, up to versions that are alike in it.
    ghost total: { (m : Self) → IsTotalOrder (numbering m).order };
}
