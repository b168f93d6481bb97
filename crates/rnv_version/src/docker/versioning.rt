ghost use Rattle.std.specs.Prelude.{◌≡◌, true, Some, None, IfOk, IsErrOf};
ghost use Rattle.std.specs.Cmp.Lexicographic.{pointwise};
ghost use Rattle.rnv_version.specs.Docker.{IsTag, Tag, docker_tag, tag_total};
ghost use Rattle.rnv_version.specs.Versionings.{docker};

use crate::docker::DockerVersion;
use crate::docker::read::{read_range, read_version};
use crate::{Numbers, RangeError, VersionError, Versioning, kind_between};
use rnv_base::{Strategy, Text, UpdateKind};
use std::alloc::{AllocError, Global};
use std::cmp::Ordering;
use std::convert::AsStr;

/// Versions of images: an optional `v`, one to three numbers below 2^64 joined by dots, and an
/// optional suffix of letters, digits, `_`, `.` and `-` after a `-`. A range is a version.
#[derive(Clone, Copy, Debug)]
pub struct DockerVersioning;

impl Versioning for DockerVersioning {
    type Version = DockerVersion;

    type Range = DockerVersion;

    ghost numbering = { λ m. docker };

    fn version(&self, alloc: Global, text: &str) -> Result<DockerVersion, VersionError>
        ensures value { IfOk result (λ v. docker_tag text.now ≡ Some v) }
        ensures grammar { IfOk result (λ v. IsTag text.now v) }
        ensures not { IsErrOf result VersionError.NotAVersion → docker_tag text.now ≡ None }
        ensures no_grammar { IsErrOf result VersionError.NotAVersion → (t : Tag) → ¬ IsTag text.now t }
    {
        read_version(alloc, text)
    }

    fn range(&self, alloc: Global, text: &str) -> Result<DockerVersion, RangeError>
        ensures value { IfOk result (λ r. docker_tag text.now ≡ Some r) }
        ensures grammar { IfOk result (λ r. IsTag text.now r) }
        ensures not { IsErrOf result RangeError.NotARange → docker_tag text.now ≡ None }
        ensures no_grammar { IsErrOf result RangeError.NotARange → (t : Tag) → ¬ IsTag text.now t }
    {
        read_range(alloc, text)
    }

    fn compare(&self, a: &DockerVersion, b: &DockerVersion) -> Ordering {
        let (a, b) = (a.numbers, b.numbers);
        a.major
            .cmp(&b.major)
            .then(a.minor.cmp(&b.minor))
            .then(a.patch.cmp(&b.patch))
    }

    fn comparable(&self, a: &DockerVersion, b: &DockerVersion) -> bool {
        a.suffix == b.suffix && a.numbers.count == b.numbers.count && a.letter == b.letter
    }

    fn satisfies(&self, range: &DockerVersion, version: &DockerVersion) -> bool {
        range.text == version.text
    }

    fn exact(&self, _range: &DockerVersion) -> bool {
        true
    }

    fn stable(&self, _version: &DockerVersion) -> bool {
        true
    }

    fn kind(&self, from: &DockerVersion, to: &DockerVersion) -> UpdateKind {
        kind_between(self.numbers(from), self.numbers(to))
    }

    fn numbers(&self, version: &DockerVersion) -> Numbers {
        Numbers {
            major: version.numbers.major,
            minor: version.numbers.minor,
        }
    }

    fn rewritten(
        &self,
        alloc: Global,
        strategy: Strategy,
        _value: &str,
        _range: &DockerVersion,
        text: &str,
        _version: &DockerVersion,
    ) -> Result<Option<Text>, AllocError> {
        if strategy == Strategy::InRangeOnly {
            return Ok(None);
        }
        Ok(Some(Text::copied(alloc, text)?))
    }

    fn exact_text(
        &self,
        alloc: Global,
        value: &str,
        _range: &DockerVersion,
    ) -> Result<Option<Text>, AllocError> {
        Ok(Some(Text::copied(alloc, value)?))
    }

    fn bump_start(
        &self,
        _alloc: Global,
        _value: &str,
    ) -> Result<Option<DockerVersion>, AllocError> {
        Ok(None)
    }

    fn keeps_laws(&self) {}

    ghost total = { λ m. tag_total };
}
