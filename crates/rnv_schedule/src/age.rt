ghost use Rattle.std.specs.Prelude.{◌≡◌, ◌↔◌, ◌≤◌, ℕ, Some, length, IfSome};
ghost use Rattle.std.specs.Char.{is_ascii_digit};
ghost use Rattle.std.specs.List.{prefix_len};
ghost use Rattle.rnv_schedule.specs.Ages.{IsAge, age_of, past_space, unit_seconds};

use crate::number::number;

/// The seconds of an age: 1 to 5 digits, an optional space, and `minute`, `hour`, `day` or `week`,
/// optionally with `s`. None for every other text. Takes no memory.
pub fn age_read(text: &str) -> Option<u64>
    ensures { (seconds : ℕ) → (result ≡ Some seconds) ↔ IsAge text.now seconds }
{
    age(text.as_bytes())
}

// The same, read from the left.
fn age(text: &[u8]) -> Option<u64>
    ensures { result ≡ age_of text.now }
{
    let digits = digit_count(text);
    if digits > 5 {
        return None;
    }
    let count = number(&text[..digits])?;
    let seconds = unit_seconds(past_space(&text[digits..]))?;
    Some(u64::from(count) * seconds)
}

// How many digits stand in front.
fn digit_count(text: &[u8]) -> usize
    ensures count { result ≡ prefix_len is_ascii_digit text.now }
    ensures within { result ≤ length text.now }
{
    text.iter().take_while(|b| b.is_ascii_digit()).count()
}

// A text without the space at its front.
fn past_space(text: &[u8]) -> &[u8]
    ensures { result.now ≡ past_space text.now }
{
    match text {
        [b' ', rest @ ..] => rest,
        _ => text,
    }
}

// The seconds of the unit that the text names, in the singular or the plural.
fn unit_seconds(text: &[u8]) -> Option<u64>
    ensures value { result ≡ unit_seconds text.now }
    ensures small { IfSome result (λ seconds. seconds ≤ 604_800) }
{
    if text == b"minute".as_slice() || text == b"minutes".as_slice() {
        return Some(60);
    }
    if text == b"hour".as_slice() || text == b"hours".as_slice() {
        return Some(3_600);
    }
    if text == b"day".as_slice() || text == b"days".as_slice() {
        return Some(86_400);
    }
    if text == b"week".as_slice() || text == b"weeks".as_slice() {
        return Some(604_800);
    }
    None
}
