ghost use Rattle.std.specs.Prelude.{◌≡◌, ◌≤◌, ◌+◌, ℕ, List, length, None, is_some, IfSome, MatchOption};
ghost use Rattle.rnv_docker.specs.Stages.{is_same, has_prefix, is_platform, is_name, naming, imaging, flagged, stage};
ghost use Rattle.rnv_docker.specs.Words.{words};
ghost use Rattle.rnv_docker.specs.Grammar.{stage_of, continues};
ghost use Rattle.rnv_docker.specs.Read.{HasStage};

use crate::image::are_tag_bytes;
use crate::line::{goes_on, is_left};
use crate::word::word;

// Whether the texts are the same but for the case of ASCII letters.
fn is_same(a: &str, b: &str) -> bool
    ensures { result ≡ is_same a.now b.now }
{
    a.eq_ignore_ascii_case(b)
}

// Whether the bytes begin with the prefix, which is of lower case; their case does not count.
fn has_prefix(prefix: &[u8], bytes: &[u8]) -> bool
    ensures { result ≡ has_prefix prefix.now bytes.now }
{
    let mut wanted = prefix;
    let mut rest = bytes;
    while let [c, wanted_tail @ ..] = wanted {
        let [x, tail @ ..] = rest else {
            return false;
        };
        if x.to_ascii_lowercase() != *c {
            return false;
        }
        wanted = wanted_tail;
        rest = tail;
    }
    true
}

fn is_platform(text: &str) -> bool
    ensures { result ≡ is_platform text.now }
{
    has_prefix("--platform=".as_bytes(), text.as_bytes())
}

// A letter, and then letters, digits, `-`, `_` and `.`.
fn is_name(text: &str) -> bool
    ensures { result ≡ is_name text.now }
{
    match text.as_bytes() {
        [x, rest @ ..] => x.is_ascii_alphabetic() && are_tag_bytes(rest),
        [] => false,
    }
}

// Whether nothing, or `AS` and a name, stands there.
fn is_naming(text: &str) -> bool
    ensures { result ≡ is_some (naming (words text.now)) }
{
    let Some((as_word, behind)) = word(text) else {
        return true;
    };
    let Some((name, end)) = word(behind) else {
        return false;
    };
    match word(end) {
        Some(_) => false,
        None => is_same(as_word, "as") && is_name(name),
    }
}

// From the image on: the image, and what stands behind it.
fn imaging(text: &str) -> Option<(&str, &str)>
    ensures stage { (front : List ℕ) → MatchOption result (imaging front (words text.now) ≡ None) (λ p. HasStage (imaging front (words text.now)) p.0.now p.1.now) }
    ensures shorter { IfSome result (λ p. length p.0.now + length p.1.now ≤ length text.now) }
{
    let (image, rest) = word(text)?;
    if is_naming(rest) {
        Some((image, rest))
    } else {
        None
    }
}

// The same from behind `FROM` on.
fn flagged(text: &str) -> Option<(&str, &str)>
    ensures stage { (front : List ℕ) → MatchOption result (flagged front (words text.now) ≡ None) (λ p. HasStage (flagged front (words text.now)) p.0.now p.1.now) }
    ensures shorter { IfSome result (λ p. length p.0.now + length p.1.now ≤ length text.now) }
{
    let (first, rest) = word(text)?;
    if is_platform(first) {
        imaging(rest)
    } else {
        imaging(text)
    }
}

// The image of the stage that a line begins by its words, and what stands behind it.
fn stage(line: &str) -> Option<(&str, &str)>
    ensures stage { MatchOption result (stage (words line.now) ≡ None) (λ p. HasStage (stage (words line.now)) p.0.now p.1.now) }
    ensures shorter { IfSome result (λ p. length p.0.now + length p.1.now ≤ length line.now) }
{
    let (from, rest) = word(line)?;
    if is_same(from, "from") {
        flagged(rest)
    } else {
        None
    }
}

// The same, where the line is looked at.
pub fn stage_of(continued: bool, line: &str) -> Option<(&str, &str)>
    ensures stage { MatchOption result (stage_of continued line.now ≡ None) (λ p. HasStage (stage_of continued line.now) p.0.now p.1.now) }
    ensures shorter { IfSome result (λ p. length p.0.now + length p.1.now ≤ length line.now) }
{
    if is_left(line.as_bytes()) && !continued && !goes_on(line.as_bytes()) {
        stage(line)
    } else {
        None
    }
}

// Whether the line behind it is a continuation.
pub fn continues(continued: bool, line: &str) -> bool
    ensures { result ≡ continues continued line.now }
{
    if is_left(line.as_bytes()) {
        goes_on(line.as_bytes())
    } else {
        continued
    }
}
