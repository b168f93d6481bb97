ghost use Rattle.std.specs.Prelude.{◌≡◌, ◌≤◌, ◌+◌, ℕ, List, length, IfSome, MatchOption};
ghost use Rattle.rnv_docker.specs.Lines.{is_space};
ghost use Rattle.rnv_docker.specs.Words.{words, spaces};
ghost use Rattle.rnv_docker.specs.Read.{skip, is_ink, IsFirst};

use crate::line::is_space;

// What follows the spaces, tabs and carriage returns at the front.
fn after_gap(bytes: &[u8]) -> &[u8]
    ensures value { result.now ≡ skip is_space bytes.now }
    ensures shorter { length result.now ≤ length bytes.now }
{
    let mut rest = bytes;
    while let [b' ' | b'\t' | b'\r', tail @ ..] = rest {
        rest = tail;
    }
    rest
}

// What follows the other bytes at the front.
fn after_word(bytes: &[u8]) -> &[u8]
    ensures value { result.now ≡ skip is_ink bytes.now }
    ensures shorter { length result.now ≤ length bytes.now }
{
    let mut rest = bytes;
    while let [x, tail @ ..] = rest {
        if is_space(*x) {
            return rest;
        }
        rest = tail;
    }
    rest
}

fn without_gap(text: &str) -> &str
    ensures value { result.now ≡ skip is_space text.now }
    ensures shorter { length result.now ≤ length text.now }
{
    let rest = after_gap(text.as_bytes());
    text.split_at(text.len() - rest.len()).1
}

// The first word, and what stands behind it.
pub fn word(text: &str) -> Option<(&str, &str)>
    ensures first { MatchOption result ((gap : List ℕ) × (words text.now ≡ spaces gap)) (λ p. IsFirst text.now p.0.now p.1.now) }
    ensures shorter { IfSome result (λ p. length p.0.now + length p.1.now ≤ length text.now) }
{
    let text = without_gap(text);
    if text.is_empty() {
        return None;
    }
    let rest = after_word(text.as_bytes());
    Some(text.split_at(text.len() - rest.len()))
}
