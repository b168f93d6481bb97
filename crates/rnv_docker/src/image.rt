ghost use Rattle.std.specs.Prelude.{◌≡◌, [], None, ◌≤◌, length, IfSome, MatchOption};
ghost use Rattle.std.specs.List.{list_all};
ghost use Rattle.rnv_base.specs.Values.{is_tag_byte, is_tag_text};
ghost use Rattle.rnv_docker.specs.Images.{at_colon, is_plain_byte, is_no_slash, is_tag, tagged};
ghost use Rattle.rnv_docker.specs.Read.{IsColon, IsTagged};

use crate::line::last_byte;

// A letter, a digit, `_`, `.` or `-`.
pub fn is_tag_byte(x: u8) -> bool
    ensures { result ≡ is_tag_byte x }
{
    x.is_ascii_alphanumeric() || x == b'_' || x == b'.' || x == b'-'
}

pub fn are_tag_bytes(bytes: &[u8]) -> bool
    ensures { result ≡ list_all is_tag_byte bytes.now }
{
    bytes.iter().all(|x| is_tag_byte(*x))
}

// Whether a text may stand for a tag: it is of such characters, of which there is one at least.
pub fn is_tag_text(text: &str) -> bool
    ensures { result ≡ is_tag_text text.now }
{
    !text.is_empty() && are_tag_bytes(text.as_bytes())
}

// No control character, no backslash, no `$` and no `@`.
fn is_plain_byte(x: u8) -> bool
    ensures { result ≡ is_plain_byte x }
{
    x >= b' ' && x != 127 && x != b'\\' && x != b'$' && x != b'@'
}

fn are_plain(bytes: &[u8]) -> bool
    ensures { result ≡ list_all is_plain_byte bytes.now }
{
    bytes.iter().all(|x| is_plain_byte(*x))
}

fn is_no_slash(x: u8) -> bool
    ensures { result ≡ is_no_slash x }
{
    x != b'/'
}

fn are_no_slashes(bytes: &[u8]) -> bool
    ensures { result ≡ list_all is_no_slash bytes.now }
{
    bytes.iter().all(|x| is_no_slash(*x))
}

// Not empty and without a slash.
fn is_tag(text: &str) -> bool
    ensures { result ≡ is_tag text.now }
{
    !text.is_empty() && are_no_slashes(text.as_bytes())
}

// Where the last colon stands.
fn last_colon(bytes: &[u8]) -> Option<usize>
    ensures colon { MatchOption result (at_colon bytes.now ≡ None) (λ at. IsColon bytes.now at) }
{
    let mut rest = bytes;
    while let Some((x, front)) = last_byte(rest) {
        if x == b':' {
            return Some(front.len());
        }
        rest = front;
    }
    None
}

// The image without its tag, and the tag, where the image is a find. No stage before it has its name, and it
// is not `scratch`, since neither has a colon.
pub fn tagged(image: &str) -> Option<(&str, &str)>
    ensures gives { MatchOption result (tagged [] image.now ≡ None) (λ p. IsTagged image.now p.0.now p.1.now) }
    ensures shorter { IfSome result (λ p. length p.1.now ≤ length image.now) }
{
    let at = last_colon(image.as_bytes())?;
    let (name, tag) = (&image[..at], &image[at + 1..]);
    if are_plain(image.as_bytes()) && is_tag(tag) {
        Some((name, tag))
    } else {
        None
    }
}
