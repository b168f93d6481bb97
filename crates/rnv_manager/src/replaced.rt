ghost use Rattle.std.specs.Prelude.{◌≡◌, ◌≤◌, All, IsUtf8, IfOk, length, map};
ghost use Rattle.rnv_manager.specs.Finds.{views, AreApart, AreCut};
ghost use Rattle.rnv_manager.specs.Splice.{spliced};
ghost use Rattle.rnv_manager.specs.Steps.{spans_of, values_of};

use crate::splicing::splice_any;
use crate::{Found, Span};
use rnv_base::Bytes;
use std::alloc::{AllocError, Global};

fn spans(alloc: Global, file_len: usize, found: &[Found]) -> Result<Vec<Span>, AllocError>
    requires { AreApart 0 (views found.now) file_len }
    ensures { IfOk result (λ spans. spans.items ≡ spans_of (views found.now)) }
{
    let mut spans = Vec::with_capacity(alloc, found.len())?;
    for f in found {
        let end = f.start + f.value.len();
        spans.push(Span {
            start: f.start,
            end,
        })?;
    }
    Ok(spans)
}

fn lent<'a>(value: &'a str) -> &'a str
    ensures same { result.now ≡ value.now }
    ensures utf8 { IsUtf8 result.now }
{
    value
}

fn values<'a>(alloc: Global, finds: &[Found<'a>]) -> Result<Vec<&'a str>, AllocError>
    ensures values { IfOk result (λ values. map (λ v. v.now) values.items ≡ values_of (views finds.now)) }
    ensures utf8 { IfOk result (λ values. All IsUtf8 (map (λ v. v.now) values.items)) }
{
    let mut values = Vec::with_capacity(alloc, finds.len())?;
    for f in finds {
        values.push(lent(f.value))?;
    }
    Ok(values)
}

// The file with the values of the wanted finds in place of those that it has, which are as many. It
// has that length.
pub fn replaced(
    alloc: Global,
    file: &str,
    found: &[Found],
    wanted: &[Found],
    len: usize,
) -> Result<Bytes, AllocError>
    requires many { length wanted.now ≡ length found.now }
    requires apart { AreApart 0 (views found.now) (length file.now) }
    requires cuts { AreCut file.now (views found.now) }
    requires room { length (spliced file.now 0 (spans_of (views found.now)) (values_of (views wanted.now))) ≤ len }
    ensures bytes { IfOk result (λ b. b.bytes ≡ spliced file.now 0 (spans_of (views found.now)) (values_of (views wanted.now))) }
    ensures utf8 { IfOk result (λ b. IsUtf8 b.bytes) }
{
    let spans = spans(alloc, file.len(), found)?;
    let texts = values(alloc, wanted)?;
    let mut into = Bytes::with_room(alloc, len)?;
    splice_any(file, spans.as_slice(), texts.as_slice(), &mut into);
    Ok(into)
}
