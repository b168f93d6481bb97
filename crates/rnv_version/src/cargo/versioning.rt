ghost use Rattle.std.specs.Prelude.{◌≡◌, true, Some, None, IfOk, IsErrOf};
ghost use Rattle.rnv_version.specs.Cargo.{cargo_version};
ghost use Rattle.rnv_version.specs.SemVer.{HoldsText, IsVersion, Version, version_total};
ghost use Rattle.rnv_version.specs.Versionings.{cargo};

use crate::cargo::new_value::new_text;
use crate::cargo::range::{is_met, is_pinned, read_range};
use crate::cargo::version::read_version;
use crate::cargo::{CargoRange, CargoVersion};
use crate::{Numbers, RangeError, VersionError, Versioning, kind_between, named_text, word_of};
use rnv_base::{Strategy, Text, UpdateKind};
use std::alloc::{AllocError, Global};
use std::cmp::Ordering;
use std::convert::AsStr;

/// Versions of crates, and the requirements that Cargo.toml states, as the crate `semver` reads
/// them: a bare requirement is a caret one.
#[derive(Clone, Copy, Debug)]
pub struct CargoVersioning;

impl Versioning for CargoVersioning {
    type Version = CargoVersion;

    type Range = CargoRange;

    ghost numbering = { λ m. cargo };

    /// The version that a text is: SemVer 2.0.0 with numbers below 2^64. `NotAVersion` only for other
    /// texts. Only a pre-release and a build need memory.
    fn version(&self, alloc: Global, text: &str) -> Result<CargoVersion, VersionError>
        ensures value { IfOk result (λ v. cargo_version text.now ≡ Some v) }
        ensures grammar { IfOk result (λ v. IsVersion text.now v) }
        ensures not { IsErrOf result VersionError.NotAVersion → cargo_version text.now ≡ None }
        ensures no_grammar { IsErrOf result VersionError.NotAVersion
            → (v : Version) → ¬ IsVersion text.now v }
        ensures memory { IsErrOf result VersionError.Memory → HoldsText text.now }
    {
        read_version(alloc, text)
    }

    fn range(&self, alloc: Global, text: &str) -> Result<CargoRange, RangeError> {
        read_range(alloc, text)
    }

    fn compare(&self, a: &CargoVersion, b: &CargoVersion) -> Ordering {
        a.inner.cmp_precedence(&b.inner)
    }

    fn comparable(&self, _a: &CargoVersion, _b: &CargoVersion) -> bool {
        true
    }

    fn satisfies(&self, range: &CargoRange, version: &CargoVersion) -> bool {
        is_met(range, version)
    }

    fn exact(&self, range: &CargoRange) -> bool {
        is_pinned(range)
    }

    fn stable(&self, version: &CargoVersion) -> bool {
        version.inner.pre.is_empty()
    }

    fn kind(&self, from: &CargoVersion, to: &CargoVersion) -> UpdateKind {
        kind_between(self.numbers(from), self.numbers(to))
    }

    fn numbers(&self, version: &CargoVersion) -> Numbers {
        Numbers {
            major: version.inner.major,
            minor: version.inner.minor,
        }
    }

    fn rewritten(
        &self,
        alloc: Global,
        strategy: Strategy,
        value: &str,
        range: &CargoRange,
        _text: &str,
        version: &CargoVersion,
    ) -> Result<Option<Text>, AllocError> {
        new_text(alloc, strategy, value, range, version)
    }

    fn exact_text(
        &self,
        alloc: Global,
        value: &str,
        range: &CargoRange,
    ) -> Result<Option<Text>, AllocError> {
        if is_pinned(range) {
            Ok(Some(Text::copied(alloc, word_of(value))?))
        } else {
            Ok(None)
        }
    }

    fn bump_start(&self, alloc: Global, value: &str) -> Result<Option<CargoVersion>, AllocError> {
        let Some(text) = named_text(alloc, value)? else {
            return Ok(None);
        };
        match read_version(alloc, text.as_str()) {
            Ok(version) => Ok(Some(version)),
            Err(VersionError::NotAVersion) => Ok(None),
            Err(VersionError::Memory) => Err(AllocError),
        }
    }

    fn keeps_laws(&self) {}

    ghost total = { λ m. version_total };
}
