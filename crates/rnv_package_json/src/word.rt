ghost use Rattle.std.specs.Prelude.{◌≡◌, option_map, IfSome};
ghost use Rattle.std.specs.Char.{is_ascii_digit};
ghost use Rattle.rnv_package_json.specs.Rest.{IsRest};
ghost use Rattle.rnv_package_json.specs.Text.{skip};
ghost use Rattle.rnv_package_json.specs.Word.{after_digits, after_minus, after_sign, after_whole, after_fraction, after_exponent, after_number, is_number, is_word_byte, is_word, after_word};

fn skip_digits(bytes: &[u8]) -> &[u8]
    ensures { result.now ≡ skip is_ascii_digit bytes.now }
{
    let mut rest = bytes;
    while let [b'0'..=b'9', tail @ ..] = rest {
        rest = tail;
    }
    rest
}

// What follows one or more digits.
fn after_digits(bytes: &[u8]) -> Option<&[u8]>
    ensures { option_map (λ r. r.now) result ≡ after_digits bytes.now }
{
    match bytes {
        [b'0'..=b'9', rest @ ..] => Some(skip_digits(rest)),
        _ => None,
    }
}

fn after_minus(bytes: &[u8]) -> &[u8]
    ensures { result.now ≡ after_minus bytes.now }
{
    match bytes {
        [b'-', rest @ ..] => rest,
        _ => bytes,
    }
}

fn after_sign(bytes: &[u8]) -> &[u8]
    ensures { result.now ≡ after_sign bytes.now }
{
    match bytes {
        [b'-' | b'+', rest @ ..] => rest,
        _ => bytes,
    }
}

// A number has no more digits behind a leading zero.
fn after_whole(bytes: &[u8]) -> Option<&[u8]>
    ensures { option_map (λ r. r.now) result ≡ after_whole bytes.now }
{
    match bytes {
        [b'0', rest @ ..] => Some(rest),
        _ => after_digits(bytes),
    }
}

fn after_fraction(bytes: &[u8]) -> Option<&[u8]>
    ensures { option_map (λ r. r.now) result ≡ after_fraction bytes.now }
{
    match bytes {
        [b'.', rest @ ..] => after_digits(rest),
        _ => Some(bytes),
    }
}

fn after_exponent(bytes: &[u8]) -> Option<&[u8]>
    ensures { option_map (λ r. r.now) result ≡ after_exponent bytes.now }
{
    match bytes {
        [b'e' | b'E', rest @ ..] => after_digits(after_sign(rest)),
        _ => Some(bytes),
    }
}

#[tactic(auto, unfolding(crate::specs::Word::after_number))]
fn is_number(word: &[u8]) -> bool
    ensures { result ≡ is_number word.now }
{
    let Some(rest) = after_whole(after_minus(word)) else {
        return false;
    };
    let Some(rest) = after_fraction(rest) else {
        return false;
    };
    let Some(rest) = after_exponent(rest) else {
        return false;
    };
    rest.is_empty()
}

fn is_word_byte(x: u8) -> bool
    ensures { result ≡ is_word_byte x }
{
    x.is_ascii_alphanumeric() || matches!(x, b'+' | b'-' | b'.')
}

// What follows the word bytes at the front.
fn skip_word(bytes: &[u8]) -> &[u8]
    ensures value { result.now ≡ skip is_word_byte bytes.now }
    ensures rest { IsRest bytes.now result.now }
{
    let mut rest = bytes;
    while let [x, tail @ ..] = rest {
        if !is_word_byte(*x) {
            return rest;
        }
        rest = tail;
    }
    rest
}

// One of the three literals, or a number.
fn is_word(word: &[u8]) -> bool
    ensures { result ≡ is_word word.now }
{
    word == b"true".as_slice()
        || word == b"false".as_slice()
        || word == b"null".as_slice()
        || is_number(word)
}

// What follows the number or literal at the front.
#[tactic(auto, unfolding(crate::specs::Word::after_word))]
pub fn after_word(bytes: &[u8]) -> Option<&[u8]>
    ensures value { option_map (λ r. r.now) result ≡ after_word bytes.now }
    ensures rest { IfSome result (λ r. IsRest bytes.now r.now) }
{
    let rest = skip_word(bytes);
    is_word(&bytes[..bytes.len() - rest.len()]).then_some(rest)
}
