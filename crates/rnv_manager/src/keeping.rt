ghost use Rattle.std.specs.Prelude.{◌≡◌, ℕ, List as Items, length, IfOk, IfErr, IsTrue};
ghost use Rattle.rnv_manager.specs.declared.edits.Edit.{Edit};
ghost use Rattle.rnv_manager.specs.declared.edits.EditError.TheVariants.{Memory};
ghost use Rattle.rnv_manager.specs.Marks.{Mark, finds_from};
ghost use Rattle.rnv_base.specs.Values.{is_quotable};
ghost use Rattle.rnv_manager.specs.Edits.{AreIndexes, AllFit, KeepsLaw, edited_file, IsReadBack, IsNotReadBack};

use crate::{Edit, EditError, Manager, edit};
use rnv_base::{Bytes, List};
use std::alloc::Global;

/// A manager for which the edit law holds: each file that it reads, with new values that fit, is read
/// as the same pieces with these values. Every quotable text fits.
pub trait KeepsEdits: Manager {
    /// Does nothing: its promise is the law, and that quotable texts fit.
    fn keeps_edits(&self)
        ensures law { KeepsLaw (Self.reads self.now) (Self.is_fit self.now) }
        ensures quotable { (value : Items ℕ) → IsTrue (is_quotable value) → IsTrue (Self.is_fit self.now value) };
}

/// Does nothing: its promise is that a manager for which the edit law holds reads back each file that it
/// reads with new values that are quotable. So `edit` never answers `NotReadBack` there.
pub fn quotable_edits<M: KeepsEdits>(manager: &M)
    ensures law { KeepsLaw (M.reads manager.now) is_quotable }
    ensures never { (file : Items ℕ) (ms : Items Mark) (edits : Items Edit) (start : ℕ) (wanted found : Items ℕ) → M.reads manager.now file ms
        → AreIndexes 0 edits (length (finds_from 0 ms)) → AllFit is_quotable edits → ¬ IsNotReadBack (M.reads manager.now) edits ms start wanted found }
{
    manager.keeps_edits();
}

/// `edit` by a manager for which the edit law holds, of values that fit: only memory can fail.
pub fn edit_kept<'a, M: KeepsEdits>(
    alloc: Global,
    manager: &'a M,
    file: &'a str,
    edits: &'a List<Edit>,
) -> Result<Bytes, EditError>
    requires read { (ms : Items Mark) × M.reads manager.now file.now ms }
    requires indexes { (ms : Items Mark) → M.reads manager.now file.now ms → AreIndexes 0 edits.now (length (finds_from 0 ms)) }
    requires fit { AllFit (M.is_fit manager.now) edits.now }
    ensures edited { IfOk result (λ b. (ms : Items Mark) → M.reads manager.now file.now ms
        → (b.bytes ≡ edited_file edits.now ms) × IsReadBack (M.reads manager.now) edits.now ms) }
    ensures never { IfErr result (λ e. e ≡ Memory) }
{
    manager.keeps_edits();
    edit(alloc, manager, file, edits)
}
