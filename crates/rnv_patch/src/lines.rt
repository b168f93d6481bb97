ghost use Rattle.std.specs.Prelude.{◌≡◌, ◌≢◌, ◌↔◌, ◌<◌, ◌≤◌, ◌-◌, ◌==◌, [], ◌∷◌, IfOk, IsTrue, length, take, drop, slice_index_or};
ghost use Rattle.std.specs.List.{position};
ghost use Rattle.rnv_patch.specs.Lines.{is_ended, lent, lines};

use std::alloc::{AllocError, Global};

// The lines of a text, each with its line feed.
pub(crate) fn lines(alloc: Global, text: &[u8]) -> Result<Vec<&[u8]>, AllocError>
    ensures { IfOk result (λ all. lent all.items ≡ lines text.now) }
{
    let mut all = Vec::new(alloc);
    let mut rest = text;
    while !rest.is_empty() {
        let (line, behind) = rest.split_at(first_len(rest));
        all.push(line)?;
        rest = behind;
    }
    Ok(all)
}

// How long the first line is.
#[tactic(auto, using(crate::proofs::FirstLine::first_ended, crate::proofs::FirstLine::one_line))]
fn first_len(text: &[u8]) -> usize
    requires { 0 < length text.now }
    ensures filled { 0 < result }
    ensures within { result ≤ length text.now }
    ensures first { lines text.now ≡ take result text.now ∷ lines (drop result text.now) }
{
    match first_feed(text) {
        Some(at) => at + 1,
        None => text.len(),
    }
}

// The place of the first line feed.
fn first_feed(text: &[u8]) -> Option<usize>
    ensures { result ≡ position (λ b. b == 10) text.now }
{
    text.iter().position(|b| *b == b'\n')
}

// Whether a line ends with a line feed.
pub(crate) fn is_ended(line: &[u8]) -> bool
    ensures { result ≡ is_ended line.now }
{
    match line.last() {
        Some(b) => *b == b'\n',
        None => false,
    }
}

// Whether two lines are equal.
fn is_same(old: &[&[u8]], i: usize, new: &[&[u8]], j: usize) -> bool
    requires old { i < length old.now }
    requires new { j < length new.now }
    ensures { IsTrue result ↔ (slice_index_or (lent old.now) i [] ≡ slice_index_or (lent new.now) j []) }
{
    old[i] == new[j]
}

// How many lines are equal from the front on.
pub(crate) fn common_front(old: &[&[u8]], new: &[&[u8]]) -> usize
    ensures in_old { result ≤ length old.now }
    ensures in_new { result ≤ length new.now }
    ensures same { take result (lent old.now) ≡ take result (lent new.now) }
    ensures differ { result < length old.now → result < length new.now → slice_index_or (lent old.now) result [] ≢ slice_index_or (lent new.now) result [] }
{
    let most = old.len().min(new.len());
    for count in 0..most {
        if !is_same(old, count, new, count) {
            return count;
        }
    }
    most
}

// How many lines are equal from the end back.
pub(crate) fn common_end(old: &[&[u8]], new: &[&[u8]]) -> usize
    ensures in_old { result ≤ length old.now }
    ensures in_new { result ≤ length new.now }
    ensures same { drop (length old.now - result) (lent old.now) ≡ drop (length new.now - result) (lent new.now) }
    ensures differ { result < length old.now → result < length new.now → slice_index_or (lent old.now) (length old.now - 1 - result) [] ≢ slice_index_or (lent new.now) (length new.now - 1 - result) [] }
{
    let most = old.len().min(new.len());
    for count in 0..most {
        if !is_same(old, old.len() - 1 - count, new, new.len() - 1 - count) {
            return count;
        }
    }
    most
}
