ghost use Rattle.std.specs.Prelude.{◌↔◌, IsTrue};
ghost use Rattle.rnv_manager.specs.Edits.{AreIndexes, AllFit};

use crate::{Edit, Manager};
use std::convert::AsStr;

/// Whether the indexes rise and are below that number: what `edit` asks of edits, by the number of
/// the finds in the file.
pub fn are_indexes(edits: &[Edit], number: usize) -> bool
    ensures { IsTrue result ↔ AreIndexes 0 edits.now number }
{
    let mut from = 0;
    for edit in edits {
        if edit.index < from || edit.index >= number {
            return false;
        }
        from = edit.index + 1;
    }
    true
}

/// Whether the manager takes each new value.
pub fn all_fit<M: Manager>(manager: &M, edits: &[Edit]) -> bool
    ensures { IsTrue result ↔ AllFit (M.is_fit manager.now) edits.now }
{
    for edit in edits {
        if !manager.fits(edit.new_value.as_str()) {
            return false;
        }
    }
    true
}
