ghost use Rattle.std.specs.Prelude.{◌≡◌, ◌≤◌, length, option_map, IfSome, IfOk};
ghost use Rattle.rnv_manager.specs.Finds.{views};
ghost use Rattle.rnv_package_json.specs.Rest.{IsRest};
ghost use Rattle.rnv_package_json.specs.Roles.{standing};
ghost use Rattle.rnv_package_json.specs.Grammar.{close};
ghost use Rattle.rnv_package_json.specs.Read.{Gives, label, part, group, string, word, value};

use crate::role::{Role, is_clean, named};
use crate::text::{after_gap, expect, quoted};
use crate::word::after_word;
use rnv_base::SourceKind;
use rnv_manager::{ExtractError, Found};

// What stands between brackets.
#[derive(Clone, Copy)]
pub enum Kind {
    // Values, between `[` and `]`.
    Array,
    // Members, between `{` and `}`.
    Object,
}

fn close_of(kind: Kind) -> u8
    ensures { result ≡ close kind }
{
    match kind {
        Kind::Array => b']',
        Kind::Object => b'}',
    }
}

// The role of the next value, and what follows its name and colon, where it has them.
#[tactic(auto, unfolding(crate::specs::Read::label))]
fn label<'a>(
    file: &'a str,
    bytes: &'a [u8],
    role: Role<'a>,
    kind: Kind,
) -> Option<(Role<'a>, &'a [u8])>
    requires { IsRest file.now bytes.now }
    ensures value { option_map (λ p. (standing p.0, p.1.now)) result ≡ label (standing role.entry) kind bytes.now }
    ensures rest { IfSome result (λ p. IsRest file.now p.1.now) }
    ensures shorter { IfSome result (λ p. length p.1.now ≤ length bytes.now) }
{
    match kind {
        Kind::Array => Some((Role::Other, bytes)),
        Kind::Object => {
            let (name, rest) = quoted(file, after_gap(bytes))?;
            let rest = expect(b':', after_gap(rest))?;
            Some((named(role, name), rest))
        }
    }
}

// What follows the string at the front, which may be a find.
#[tactic(auto, unfolding(crate::specs::Read::string))]
fn string<'a>(
    file: &'a str,
    bytes: &'a [u8],
    role: Role<'a>,
    found: &mut Vec<Found<'a>>,
) -> Result<&'a [u8], ExtractError>
    requires { IsRest file.now bytes.now }
    ensures value { Gives (views found.new.items) result (string (length file.now) (standing role.entry) (views found.old.items) bytes.now) }
    ensures rest { IfOk result (λ r. IsRest file.now r.now) }
    ensures shorter { IfOk result (λ r. length r.now ≤ length bytes.now) }
{
    let Some((value, rest)) = quoted(file, bytes) else {
        return Err(ExtractError::BadSyntax);
    };
    match role {
        Role::Entry(place, name) if is_clean(name) && is_clean(value) => {
            let start = file.len() - rest.len() - 1 - value.len();
            found.push(Found {
                name,
                package: name,
                place,
                value,
                start,
                source: SourceKind::Npm,
            })?;
        }
        _ => {}
    }
    Ok(rest)
}

// What follows one value or member and the white space behind it.
#[cycle(value)]
#[tactic(auto, unfolding(crate::specs::Read::part))]
fn part<'a>(
    file: &'a str,
    bytes: &'a [u8],
    role: Role<'a>,
    kind: Kind,
    depth: u8,
    found: &mut Vec<Found<'a>>,
) -> Result<&'a [u8], ExtractError>
    requires { IsRest file.now bytes.now }
    ensures value { Gives (views found.new.items) result (part (value (length file.now) depth) (standing role.entry) kind (views found.old.items) bytes.now) }
    ensures rest { IfOk result (λ r. IsRest file.now r.now) }
    ensures shorter { IfOk result (λ r. length r.now ≤ length bytes.now) }
{
    let Some((inner, rest)) = label(file, bytes, role, kind) else {
        return Err(ExtractError::BadSyntax);
    };
    let rest = value(file, after_gap(rest), inner, depth, found)?;
    Ok(after_gap(rest))
}

// What follows the bracket that closes, behind the one that opened.
#[cycle(value)]
#[tactic(auto, unfolding(crate::specs::Read::group))]
pub fn group<'a>(
    file: &'a str,
    bytes: &'a [u8],
    role: Role<'a>,
    kind: Kind,
    depth: u8,
    found: &mut Vec<Found<'a>>,
) -> Result<&'a [u8], ExtractError>
    requires { IsRest file.now bytes.now }
    ensures value { Gives (views found.new.items) result (group (value (length file.now) depth) (standing role.entry) kind (views found.old.items) bytes.now) }
    ensures rest { IfOk result (λ r. IsRest file.now r.now) }
    ensures shorter { IfOk result (λ r. length r.now ≤ length bytes.now) }
{
    let close = close_of(kind);
    if let [x, tail @ ..] = after_gap(bytes)
        && *x == close
    {
        return Ok(tail);
    }
    let mut rest = bytes;
    loop {
        let after = part(file, rest, role, kind, depth, found)?;
        match after {
            [b',', tail @ ..] => rest = tail,
            [x, tail @ ..] if *x == close => return Ok(tail),
            _ => return Err(ExtractError::BadSyntax),
        }
    }
}

// What follows the value at the front, which nests no deeper than that.
#[cycle(value)]
#[tactic(auto, unfolding(crate::specs::Read::value, crate::specs::Read::word))]
fn value<'a>(
    file: &'a str,
    bytes: &'a [u8],
    role: Role<'a>,
    depth: u8,
    found: &mut Vec<Found<'a>>,
) -> Result<&'a [u8], ExtractError>
    requires { IsRest file.now bytes.now }
    ensures value { Gives (views found.new.items) result (value (length file.now) depth (standing role.entry) (views found.old.items) bytes.now) }
    ensures rest { IfOk result (λ r. IsRest file.now r.now) }
    ensures shorter { IfOk result (λ r. length r.now ≤ length bytes.now) }
{
    match bytes {
        [] => Err(ExtractError::BadSyntax),
        [b'"', ..] => string(file, bytes, role, found),
        [b'[', rest @ ..] if depth > 0 => group(file, rest, role, Kind::Array, depth - 1, found),
        [b'{', rest @ ..] if depth > 0 => group(file, rest, role, Kind::Object, depth - 1, found),
        [b'[' | b'{', ..] => Err(ExtractError::BadSyntax),
        _ => match after_word(bytes) {
            Some(rest) => Ok(rest),
            None => Err(ExtractError::BadSyntax),
        },
    }
}
