ghost use Rattle.std.specs.Prelude.{◌≡◌, ◌≤◌, [], length, map};
ghost use Rattle.rnv_manager.specs.Splice.{AreSpans, spliced};

use rnv_base::{Bytes, Text};
use std::convert::{AsSlice, AsStr};

/// A part of a file: its bytes from `start` up to `end`, without that at `end`.
#[derive(Clone, Copy, Debug)]
pub struct Span {
    pub start: usize,
    pub end: usize,
}

/// Puts the file into `into`, with each text in place of its span. There are as many texts as spans;
/// the spans rise, do not meet and lie in the file; `into` is empty and has room for the result.
/// Takes no memory.
pub fn splice(file: &str, spans: &[Span], texts: &[Text], into: &mut Bytes)
    requires many { length texts.now ≡ length spans.now }
    requires apart { AreSpans 0 spans.now (length file.now) }
    requires empty { into.old.bytes ≡ [] }
    requires room { length (spliced file.now 0 spans.now texts.now) ≤ into.old.spare }
    ensures { into.new.bytes ≡ spliced file.now 0 spans.now texts.now }
{
    splice_any(file, spans, texts, into);
}

// The same for whatever lends its text.
pub(crate) fn splice_any<T: AsStr>(file: &str, spans: &[Span], texts: &[T], into: &mut Bytes)
    requires many { length texts.now ≡ length spans.now }
    requires apart { AreSpans 0 spans.now (length file.now) }
    requires empty { into.old.bytes ≡ [] }
    requires room { length (spliced file.now 0 spans.now (map T.text texts.now)) ≤ into.old.spare }
    ensures { into.new.bytes ≡ spliced file.now 0 spans.now (map T.text texts.now) }
{
    let bytes = file.as_bytes();
    let mut at = 0;
    for (i, span) in spans.iter().enumerate() {
        into.add(&bytes[at..span.start]);
        into.add(texts[i].as_str().as_bytes());
        at = span.end;
    }
    into.add(&bytes[at..]);
}
