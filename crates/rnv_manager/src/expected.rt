ghost use Rattle.std.specs.Prelude.{◌≡◌, ◌+◌, ℕ, List as Items, length, IfOk, IfErr};
ghost use Rattle.rnv_manager.specs.declared.edits.EditError.TheVariants.{Memory};
ghost use Rattle.rnv_manager.specs.Finds.{views, AreApart};
ghost use Rattle.rnv_manager.specs.Marks.{Mark, text_of, finds_from};
ghost use Rattle.rnv_manager.specs.Edits.{AreIndexes, edited_file, expected_finds};
ghost use Rattle.rnv_manager.specs.Steps.{IsNewValue};

use crate::{Edit, EditError, Found};
use std::alloc::Global;
use std::convert::AsStr;

// The value of the find with that index, and the edits of those behind it.
fn new_value<'a>(edits: &'a [Edit], index: usize, old: &'a str) -> (&'a str, &'a [Edit])
    ensures { (number : ℕ) → AreIndexes index edits.now number → IsNewValue edits.now index old.now number result.0.now result.1.now }
{
    let [edit, rest @ ..] = edits else {
        return (old, edits);
    };
    if edit.index == index {
        (edit.new_value.as_str(), rest)
    } else {
        (old, edits)
    }
}

fn plus(a: usize, b: usize) -> Result<usize, EditError>
    ensures ok { IfOk result (λ n. n ≡ a + b) }
    ensures err { IfErr result (λ e. e ≡ Memory) }
{
    match a.checked_add(b) {
        Some(sum) => Ok(sum),
        None => Err(EditError::Memory),
    }
}

// The finds with the new values, at their places in the edited file, and how long that is.
pub fn expected_finds<'a>(
    alloc: Global,
    file_len: usize,
    found: &[Found<'a>],
    edits: &'a [Edit],
) -> Result<(Vec<Found<'a>>, usize), EditError>
    requires apart { AreApart 0 (views found.now) file_len }
    requires indexes { AreIndexes 0 edits.now (length found.now) }
    ensures ok { IfOk result (λ p. (ms : Items Mark) → file_len ≡ length (text_of ms) → views found.now ≡ finds_from 0 ms
        → (views p.0.items ≡ expected_finds edits.now ms) × (p.1 ≡ length (edited_file edits.now ms))) }
    ensures err { IfErr result (λ e. e ≡ Memory) }
{
    let mut finds = Vec::with_capacity(alloc, found.len())?;
    let mut rest = edits;
    // So far the file and the edited file are gone through.
    let mut at = 0;
    let mut len = 0;
    for (i, f) in found.iter().enumerate() {
        let (value, behind) = new_value(rest, i, f.value);
        let start = plus(len, f.start - at)?;
        finds.push(Found {
            name: f.name,
            package: f.package,
            place: f.place,
            value,
            start,
            source: f.source,
        })?;
        len = plus(start, value.len())?;
        at = f.start + f.value.len();
        rest = behind;
    }
    let len = plus(len, file_len - at)?;
    Ok((finds, len))
}
