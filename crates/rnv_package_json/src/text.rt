ghost use Rattle.std.specs.Prelude.{◌≡◌, ◌≤◌, ◌<◌, ◌+◌, length, option_map, IfSome, Some};
ghost use Rattle.rnv_package_json.specs.Rest.{IsRest};
ghost use Rattle.rnv_package_json.specs.Text.{skip, is_space, is_escape, next, after_text};
ghost use Rattle.rnv_package_json.specs.Read.{expect, quoted};
ghost use Rattle.rnv_package_json.specs.declared.text.Within.TheVariants.{Plain};

// What the next byte of a string stands among.
#[derive(Clone, Copy)]
pub enum Within {
    // Characters.
    Plain,
    // The letter behind a backslash.
    Escaped,
    // Hex digits, of which so many and one more are to come.
    Hex(u8),
}

// What follows the white space at the front.
pub fn after_gap(bytes: &[u8]) -> &[u8]
    ensures value { result.now ≡ skip is_space bytes.now }
    ensures rest { IsRest bytes.now result.now }
{
    let mut rest = bytes;
    while let [b' ' | b'\t' | b'\n' | b'\r', tail @ ..] = rest {
        rest = tail;
    }
    rest
}

// What follows that byte at the front.
pub fn expect(byte: u8, bytes: &[u8]) -> Option<&[u8]>
    ensures value { option_map (λ r. r.now) result ≡ expect byte bytes.now }
    ensures rest { IfSome result (λ r. IsRest bytes.now r.now) }
{
    match bytes {
        [x, rest @ ..] if *x == byte => Some(rest),
        _ => None,
    }
}

fn is_escape(x: u8) -> bool
    ensures { result ≡ is_escape x }
{
    matches!(x, b'"' | b'\\' | b'/' | b'b' | b'f' | b'n' | b'r' | b't')
}

fn next(within: Within, x: u8) -> Option<Within>
    ensures { result ≡ next within x }
{
    match within {
        Within::Plain => match x {
            b'\\' => Some(Within::Escaped),
            b' '.. => Some(Within::Plain),
            _ => None,
        },
        Within::Escaped => match x {
            b'u' => Some(Within::Hex(3)),
            _ => is_escape(x).then_some(Within::Plain),
        },
        Within::Hex(0) => x.is_ascii_hexdigit().then_some(Within::Plain),
        Within::Hex(n) => x.is_ascii_hexdigit().then_some(Within::Hex(n - 1)),
    }
}

// What follows the quote that closes the string at whose inside the bytes begin.
fn after_text(bytes: &[u8]) -> Option<&[u8]>
    ensures value { option_map (λ r. r.now) result ≡ after_text (Some Plain) bytes.now }
    ensures rest { IfSome result (λ r. IsRest bytes.now r.now) }
{
    let mut within = Within::Plain;
    let mut rest = bytes;
    while let [x, tail @ ..] = rest {
        if matches!(within, Within::Plain) && *x == b'"' {
            return Some(tail);
        }
        within = next(within, *x)?;
        rest = tail;
    }
    None
}

// The inside of the string at the front, and what follows it.
#[tactic(auto, unfolding(crate::specs::Read::quoted))]
pub fn quoted<'a>(file: &'a str, bytes: &'a [u8]) -> Option<(&'a str, &'a [u8])>
    requires { IsRest file.now bytes.now }
    ensures value { option_map (λ p. (p.0.now, p.1.now)) result ≡ quoted bytes.now }
    ensures rest { IfSome result (λ p. IsRest file.now p.1.now) }
    ensures shorter { IfSome result (λ p. length p.1.now ≤ length bytes.now) }
    ensures room { IfSome result (λ p. length p.0.now + length p.1.now < length file.now) }
{
    let inside = expect(b'"', bytes)?;
    let rest = after_text(inside)?;
    let start = file.len() - inside.len();
    let end = file.len() - rest.len() - 1;
    Some((&file[start..end], rest))
}
