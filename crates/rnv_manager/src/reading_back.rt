ghost use Rattle.std.specs.Prelude.{◌≡◌, ℕ, List as Items, [], length, slice_get, IfOk, IfErr};
ghost use Rattle.std.specs.Option.{option_map_or};
ghost use Rattle.rnv_manager.specs.declared.edits.EditError.TheVariants.{Memory};
ghost use Rattle.rnv_manager.specs.Finds.{views};
ghost use Rattle.rnv_manager.specs.Marks.{Mark, finds_from};
ghost use Rattle.rnv_manager.specs.Edits.{AreActual, HasDifference, IfNotReadBack};

use crate::difference::first_difference;
use crate::{EditError, ExtractError, Found, Manager};
use rnv_base::{List, Text};
use std::alloc::Global;
use std::convert::AsSlice;

// The finds of a text, and none where it has no reading.
fn actual_finds<'a, M: Manager>(
    alloc: Global,
    manager: &'a M,
    text: &'a str,
) -> Result<List<Found<'a>>, EditError>
    ensures actual { IfOk result (λ v. AreActual (M.reads manager.now text.now) (views v)) }
    ensures only { IfOk result (λ v. (ms : Items Mark) → M.reads manager.now text.now ms → views v ≡ finds_from 0 ms) }
    ensures err { IfErr result (λ e. e ≡ Memory) }
{
    match manager.extract(alloc, text) {
        Ok(found) => Ok(found),
        Err(ExtractError::BadSyntax) => Ok(List::empty(alloc)),
        Err(ExtractError::Memory) => Err(EditError::Memory),
    }
}

// The start of the find with that index, or that end.
fn start_at(finds: &[Found], index: usize, end: usize) -> usize
    ensures { result ≡ option_map_or (λ f. f.start) (slice_get (views finds.now) index) end }
{
    match finds.get(index) {
        Some(f) => f.start,
        None => end,
    }
}

// The value of the find with that index, or the empty text.
fn value_at<'a>(finds: &'a [Found<'a>], index: usize) -> &'a str
    ensures { result.now ≡ option_map_or (λ f. f.value) (slice_get (views finds.now) index) [] }
{
    match finds.get(index) {
        Some(f) => f.value,
        None => "",
    }
}

// Whether a text is read with the expected finds.
pub fn read_back<M: Manager>(
    alloc: Global,
    manager: &M,
    text: &str,
    expected: &[Found],
) -> Result<(), EditError>
    requires { views expected.now ≡ [] → (ms : Items Mark) × M.reads manager.now text.now ms }
    ensures same { IfOk result (λ _. (ms : Items Mark) × M.reads manager.now text.now ms × (views expected.now ≡ finds_from 0 ms)) }
    ensures differs { IfErr result (IfNotReadBack (λ start wanted found.
        HasDifference (M.reads manager.now text.now) (views expected.now) (length text.now) start wanted found
        × ((ms : Items Mark) → M.reads manager.now text.now ms → ¬ (views expected.now ≡ finds_from 0 ms)))) }
{
    let actual = actual_finds(alloc, manager, text)?;
    let Some(index) = first_difference(expected, actual.as_slice()) else {
        return Ok(());
    };
    let start = start_at(expected, index, text.len());
    let wanted = Text::copied(alloc, value_at(expected, index))?;
    let found = Text::copied(alloc, value_at(actual.as_slice(), index))?;
    Err(EditError::NotReadBack {
        start,
        wanted,
        found,
    })
}
