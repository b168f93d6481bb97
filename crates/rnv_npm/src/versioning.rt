ghost use Rattle.std.specs.Prelude.{◌≡◌, List, true, Some, None, IfOk, IsErrOf, MatchOption};
ghost use Rattle.rnv_version.specs.SemVer.{HoldsText, Version, version_total};
ghost use Rattle.rnv_npm.specs.Version.{IsVersion, npm_version, unmarked};
ghost use Rattle.rnv_npm.specs.Exact.{Exact, IsExact, exact_of, renumbered, new_text};
ghost use Rattle.rnv_npm.specs.Ranges.{npm_range};
ghost use Rattle.rnv_npm.specs.Numbering.{npm};
ghost use Rattle.rnv_npm.specs.Comparators.{Comparator};
ghost use Rattle.rnv_npm.specs.Grammar.{IsRange};

use crate::exact::{read_exact, with_version};
use crate::new_value::new_text;
use crate::read::{plain_version, unmarked};
use crate::reading::exact_word;
use crate::{ExactValue, NpmVersion, Range};
use rnv_base::{Strategy, Text, UpdateKind};
use rnv_version::{Numbers, RangeError, VersionError, Versioning, kind_between, named_text};
use std::alloc::{AllocError, Global};
use std::cmp::Ordering;
use std::convert::AsStr;

/// How npm reads, compares and writes versions, and the ranges that package.json states, after
/// node-semver.
#[derive(Clone, Copy, Debug)]
pub struct NpmVersioning;

impl NpmVersioning {
    /// The parts of a value that names one version: spaces, `=`, spaces, `v`, a version of SemVer
    /// 2.0.0 with numbers of at most 9007199254740991, and spaces, where only the version must
    /// stand. `None` exactly for other values.
    pub fn exact_value(&self, alloc: Global, value: &str) -> Result<Option<ExactValue>, AllocError>
        ensures value { IfOk result (λ e. exact_of value.now ≡ e) }
        ensures grammar { IfOk result (λ found. MatchOption found
            ((e : Exact) → ¬ IsExact value.now e) (λ e. IsExact value.now e)) }
    {
        read_exact(alloc, value)
    }

    /// The text of an exact value with another version in it: its numbers, and its pre-release, if
    /// it has one, in place of the old pre-release and build. Its build is not written. What stands
    /// around the version stays.
    pub fn with_version(
        &self,
        alloc: Global,
        value: &ExactValue,
        version: &NpmVersion,
    ) -> Result<Text, AllocError>
        ensures value { IfOk result (λ t. t ≡ new_text value.now version.now) }
        ensures again { IfOk result (λ t. exact_of t ≡ Some (renumbered value.now version.now)) }
    {
        with_version(alloc, value, version)
    }
}

impl Versioning for NpmVersioning {
    type Version = NpmVersion;

    type Range = Range;

    ghost numbering = { λ m. npm };

    /// The version that a text is: SemVer 2.0.0 after at most one `v` or `=`, with three numbers of
    /// at most 9007199254740991. `NotAVersion` only for other texts, and for all of them where no
    /// memory is needed. Only a pre-release and a build need memory.
    fn version(&self, alloc: Global, text: &str) -> Result<NpmVersion, VersionError>
        ensures value { IfOk result (λ v. npm_version text.now ≡ Some v) }
        ensures grammar { IfOk result (λ v. IsVersion text.now v) }
        ensures not { IsErrOf result VersionError.NotAVersion → npm_version text.now ≡ None }
        ensures no_grammar { IsErrOf result VersionError.NotAVersion
            → (v : Version) → ¬ IsVersion text.now v }
        ensures memory { IsErrOf result VersionError.Memory → HoldsText (unmarked text.now) }
    {
        plain_version(alloc, unmarked(text))
    }

    fn range(&self, alloc: Global, text: &str) -> Result<Range, RangeError>
        ensures value { IfOk result (λ r. npm_range text.now ≡ Some r) }
        ensures grammar { IfOk result (λ r. IsRange text.now r) }
        ensures not { IsErrOf result RangeError.NotARange → npm_range text.now ≡ None }
        ensures no_grammar { IsErrOf result RangeError.NotARange
            → (sets : List (List Comparator)) → ¬ IsRange text.now sets }
    {
        Range::read(alloc, text)
    }

    fn compare(&self, a: &NpmVersion, b: &NpmVersion) -> Ordering {
        a.inner.cmp_precedence(&b.inner)
    }

    fn comparable(&self, _a: &NpmVersion, _b: &NpmVersion) -> bool {
        true
    }

    fn satisfies(&self, range: &Range, version: &NpmVersion) -> bool {
        range.satisfies(version)
    }

    fn exact(&self, range: &Range) -> bool {
        range.is_exact()
    }

    fn stable(&self, version: &NpmVersion) -> bool {
        version.inner.pre.is_empty()
    }

    fn kind(&self, from: &NpmVersion, to: &NpmVersion) -> UpdateKind {
        kind_between(self.numbers(from), self.numbers(to))
    }

    fn numbers(&self, version: &NpmVersion) -> Numbers {
        Numbers {
            major: version.inner.major,
            minor: version.inner.minor,
        }
    }

    fn rewritten(
        &self,
        alloc: Global,
        strategy: Strategy,
        value: &str,
        range: &Range,
        _text: &str,
        version: &NpmVersion,
    ) -> Result<Option<Text>, AllocError> {
        new_text(alloc, strategy, value, range, version)
    }

    fn exact_text(
        &self,
        alloc: Global,
        value: &str,
        range: &Range,
    ) -> Result<Option<Text>, AllocError> {
        if range.is_exact() {
            Ok(Some(exact_word(alloc, value)?))
        } else {
            Ok(None)
        }
    }

    fn bump_start(&self, alloc: Global, value: &str) -> Result<Option<NpmVersion>, AllocError> {
        let Some(text) = named_text(alloc, value)? else {
            return Ok(None);
        };
        match self.version(alloc, text.as_str()) {
            Ok(version) => Ok(Some(version)),
            Err(VersionError::NotAVersion) => Ok(None),
            Err(VersionError::Memory) => Err(AllocError),
        }
    }

    fn keeps_laws(&self) {}

    ghost total = { λ m. version_total };
}
