ghost use Rattle.std.specs.Prelude.{◌≡◌, ◌++◌, ◌<◌, IfOk, reverse, length, unwrap_or, option_map};
ghost use Rattle.std.specs.Str.{IsAscii};
ghost use Rattle.std.specs.Fmt.{decimal};
ghost use Rattle.rnv_plan.specs.Branch.{skip, is_plain, plain_or_dash, is_edge, written, begins_with_dash, single_dashes, or_x, trimmed, sanitised, branch_of};
ghost use Rattle.rnv_plan.specs.Items.{branch_name, major_of};

use rnv_base::{SourceKind, Text, UpdateKind};
use rnv_npm::NpmVersioning;
use rnv_pick::Update;
use rnv_version::{CargoVersioning, DockerVersioning, VersionError, Versioning};
use std::alloc::{AllocError, Global};
use std::convert::AsStr;

/// The name of the branch that takes a package to a new major version.
pub fn branch_name(alloc: Global, package: &str, major: u64) -> Result<Text, AllocError>
    ensures { IfOk result (λ name. name ≡ branch_of «package».now major) }
{
    let topic = sanitised(alloc, package)?;
    let topic = topic.as_str();
    Ok(Text::new(format!(in alloc; "renovate/{topic}-{major}.x")?))
}

// The name of the branch of an update that is no pin.
fn package_branch(alloc: Global, update: &Update) -> Result<Text, AllocError>
    ensures { IfOk result (λ name. name ≡ branch_of update.now.dep.«package» (major_of update.now.dep.source update.now.new_version)) }
{
    let major = major_of(alloc, update.dep.source, update.new_version.as_str())?;
    branch_name(alloc, update.dep.package.as_str(), major)
}

// The name of the branch that an update belongs to.
pub(crate) fn branch_of(alloc: Global, update: &Update) -> Result<Text, AllocError>
    ensures { IfOk result (λ name. name ≡ branch_name update.now) }
{
    match update.kind {
        UpdateKind::Pin => Text::copied(alloc, "renovate/pin-dependencies"),
        UpdateKind::Patch | UpdateKind::Minor | UpdateKind::Major => package_branch(alloc, update),
    }
}

// The first number of a version of the source, 0 for a text that is none.
fn major_of(alloc: Global, source: SourceKind, text: &str) -> Result<u64, AllocError>
    ensures { IfOk result (λ major. major ≡ major_of source text.now) }
{
    match source {
        SourceKind::Crates => major_by(alloc, &CargoVersioning, text),
        SourceKind::Npm => major_by(alloc, &NpmVersioning, text),
        SourceKind::Docker => major_by(alloc, &DockerVersioning, text),
    }
}

// The first number of a version of this versioning, 0 for a text that is none.
fn major_by<V: Versioning>(alloc: Global, versioning: &V, text: &str) -> Result<u64, AllocError>
    ensures { IfOk result (λ major. major ≡ unwrap_or (option_map (λ v. ((V.numbering versioning.now).numbers_of v).major) ((V.numbering versioning.now).version_of text.now)) 0) }
{
    match versioning.version(alloc, text) {
        Ok(version) => Ok(versioning.numbers(&version).major),
        Err(VersionError::NotAVersion) => Ok(0),
        Err(VersionError::Memory) => Err(AllocError),
    }
}

// The package as a part of a branch name.
#[tactic(auto, using(crate::proofs::Ascii::trimmed_is_ascii), unfolding(crate::specs::Branch::sanitised))]
fn sanitised(alloc: Global, package: &str) -> Result<Text, AllocError>
    ensures { IfOk result (λ topic. topic ≡ sanitised «package».now) }
{
    let written = written(alloc, package)?;
    let dashed = single_dashes(alloc, written.as_slice())?;
    let topic = trim_end(trim_start(dashed.as_slice()));
    or_x(alloc, topic)
}

// These bytes, or `x` where there are none.
fn or_x(alloc: Global, bytes: &[u8]) -> Result<Text, AllocError>
    requires { IsAscii bytes.now }
    ensures { IfOk result (λ text. text ≡ or_x bytes.now) }
{
    match bytes {
        [] => Text::copied(alloc, "x"),
        _ => ascii_text(alloc, bytes),
    }
}

fn is_plain(byte: u8) -> bool
    ensures { result ≡ is_plain byte }
{
    byte.is_ascii_lowercase() || byte.is_ascii_digit() || byte == b'.' || byte == b'_'
}

fn plain_or_dash(byte: u8) -> u8
    ensures { result ≡ plain_or_dash byte }
{
    if is_plain(byte) { byte } else { b'-' }
}

// The package in small letters, without `@`, each other byte a dash.
fn written(alloc: Global, package: &str) -> Result<Vec<u8>, AllocError>
    ensures { IfOk result (λ bytes. bytes.items ≡ written «package».now) }
{
    package
        .as_bytes()
        .iter()
        .map(|byte| byte.to_ascii_lowercase())
        .filter(|byte| *byte != b'@')
        .map(|byte| plain_or_dash(byte))
        .collect(alloc)
}

// One dash for each run of dashes.
fn single_dashes(alloc: Global, bytes: &[u8]) -> Result<Vec<u8>, AllocError>
    ensures { IfOk result (λ dashed. dashed.items ≡ single_dashes bytes.now) }
{
    let mut dashed = Vec::with_capacity(alloc, bytes.len())?;
    let mut rest = bytes;
    while let [byte, tail @ ..] = rest {
        if *byte != b'-' || !begins_with_dash(tail) {
            dashed.push(*byte)?;
        }
        rest = tail;
    }
    Ok(dashed)
}

fn begins_with_dash(bytes: &[u8]) -> bool
    ensures { result ≡ begins_with_dash bytes.now }
{
    matches!(bytes, [b'-', ..])
}

fn trim_start(bytes: &[u8]) -> &[u8]
    ensures { result.now ≡ skip is_edge bytes.now }
{
    let mut rest = bytes;
    while let [b'-' | b'.', tail @ ..] = rest {
        rest = tail;
    }
    rest
}

fn trim_end(bytes: &[u8]) -> &[u8]
    ensures { result.now ≡ reverse (skip is_edge (reverse bytes.now)) }
{
    let mut rest = bytes;
    while let [head @ .., b'-' | b'.'] = rest {
        rest = head;
    }
    rest
}

fn ascii_text(alloc: Global, bytes: &[u8]) -> Result<Text, AllocError>
    requires { IsAscii bytes.now }
    ensures { IfOk result (λ text. text ≡ bytes.now) }
{
    match std::str::from_utf8(bytes) {
        Ok(text) => Text::copied(alloc, text),
        Err(_) => unreachable!(),
    }
}
