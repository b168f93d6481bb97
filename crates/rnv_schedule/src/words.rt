ghost use Rattle.std.specs.Prelude.{◌≡◌, ◌<◌, codes, length, IfOk, IfSome};
ghost use Rattle.std.specs.Str.{bytes_eq};
ghost use Rattle.rnv_schedule.specs.Words.{are_words, is_word, pieces, place_of, texts};

use std::alloc::{AllocError, Global};

// What stands before, between and behind the bytes of this kind. Only memory can fail.
pub fn pieces(alloc: Global, text: &[u8], at: u8) -> Result<Vec<&[u8]>, AllocError>
    ensures { IfOk result (λ found. texts found.items ≡ pieces at text.now) }
{
    text.split(|b| *b == at).collect(alloc)
}

// Whether a text is this word, but for the case of ASCII letters.
pub fn is_word(word: &str, text: &[u8]) -> bool
    ensures { result ≡ is_word word.now text.now }
{
    text.eq_ignore_ascii_case(word.as_bytes())
}

// Whether a text is `*`.
pub fn is_star(text: &[u8]) -> bool
    ensures { result ≡ bytes_eq text.now (codes "*") }
{
    text == b"*".as_slice()
}

// Whether texts are these words, one for each.
pub fn are_words(words: &[&str], found: &[&[u8]]) -> bool
    ensures { result ≡ are_words (texts words.now) (texts found.now) }
{
    words.len() == found.len()
        && words
            .iter()
            .zip(found)
            .all(|(word, text)| is_word(word, text))
}

// The place, from 0, of a text in a list of words.
pub fn place_of(words: &[&str], text: &[u8]) -> Option<usize>
    ensures place { result ≡ place_of (texts words.now) text.now }
    ensures within { IfSome result (λ place. place < length words.now) }
{
    words.iter().position(|word| is_word(word, text))
}
