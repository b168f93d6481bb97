ghost use Rattle.std.specs.Prelude.{◌≡◌, ℕ, List as Items, length, IfOk, IfErr};
ghost use Rattle.rnv_manager.specs.declared.edits.EditError.TheVariants.{Memory};
ghost use Rattle.rnv_manager.specs.Marks.{Mark, finds_from};
ghost use Rattle.rnv_manager.specs.Edits.{AreIndexes, edited_file, IsReadBack, IsNotReadBack, IfNotReadBack};

use crate::expected::expected_finds;
use crate::reading_back::read_back;
use crate::replaced::replaced;
use crate::{Edit, EditError, ExtractError, Manager};
use rnv_base::{Bytes, List};
use std::alloc::Global;
use std::convert::AsSlice;

/// The file with the new values of these finds. The manager reads the file, and the indexes rise and
/// are below the number of its finds. `NotReadBack` exactly where the manager would not read the
/// edited file as the same pieces with the new values, so never where the edit law holds of these edits.
/// Else only memory can fail.
pub fn edit<'a, M: Manager>(
    alloc: Global,
    manager: &'a M,
    file: &'a str,
    edits: &'a List<Edit>,
) -> Result<Bytes, EditError>
    requires read { (ms : Items Mark) × M.reads manager.now file.now ms }
    requires indexes { (ms : Items Mark) → M.reads manager.now file.now ms → AreIndexes 0 edits.now (length (finds_from 0 ms)) }
    ensures edited { IfOk result (λ b. (ms : Items Mark) → M.reads manager.now file.now ms
        → (b.bytes ≡ edited_file edits.now ms) × IsReadBack (M.reads manager.now) edits.now ms) }
    ensures not_read_back { IfErr result (IfNotReadBack (λ start wanted found. (ms : Items Mark) → M.reads manager.now file.now ms
        → IsNotReadBack (M.reads manager.now) edits.now ms start wanted found)) }
    ensures kept { ((ms : Items Mark) → M.reads manager.now file.now ms → IsReadBack (M.reads manager.now) edits.now ms) → IfErr result (λ e. e ≡ Memory) }
{
    let found = match manager.extract(alloc, file) {
        Ok(found) => found,
        Err(ExtractError::BadSyntax) => unreachable!(),
        Err(ExtractError::Memory) => return Err(EditError::Memory),
    };
    let found = found.as_slice();
    let (expected, len) = expected_finds(alloc, file.len(), found, edits.as_slice())?;
    let bytes = replaced(alloc, file, found, expected.as_slice(), len)?;
    let text = match std::str::from_utf8(bytes.as_slice()) {
        Ok(text) => text,
        Err(_) => unreachable!(),
    };
    read_back(alloc, manager, text, expected.as_slice())?;
    Ok(bytes)
}
