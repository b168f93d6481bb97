ghost use Rattle.std.specs.Prelude.{◌≡◌, ℕ, Bool, List as Items, length, Some, IfOk, IsErrOf};
ghost use Rattle.rnv_manager.specs.declared.found.ExtractError.TheVariants.{BadSyntax};
ghost use Rattle.rnv_manager.specs.Finds.{views, GivesFinds, AreApart, AreThere, AreCut};
ghost use Rattle.rnv_manager.specs.Marks.{Mark, text_of, finds_from};

use crate::{ExtractError, Found};
use rnv_base::List;
use std::alloc::Global;

/// What finds the dependencies in files of one kind.
pub trait Manager {
    /// The file can be read as these bytes and finds in turn: the manager's grammar.
    ghost reads: { Self → Items ℕ → Items Mark → Type 0 };

    /// The texts that may stand for a value.
    ghost is_fit: { Self → Items ℕ → Bool };

    /// The dependencies in a file, by rising `start`. The file is read whole or not at all:
    /// outside the manager's grammar it is `BadSyntax`. Else only memory can fail.
    fn extract<'a>(&'a self, alloc: Global, file: &'a str) -> Result<List<Found<'a>>, ExtractError>
        // What is given are the finds of a reading, each where it stands in the file.
        ensures found { IfOk result (λ v. (ms : Items Mark) × reads self.now file.now ms × (views v ≡ finds_from 0 ms)) }
        // Where the file has a reading, its finds are given, unless memory runs out.
        ensures only { (ms : Items Mark) → reads self.now file.now ms → GivesFinds views result (Some (finds_from 0 ms)) }
        ensures bad { IsErrOf result BadSyntax → (ms : Items Mark) → ¬ reads self.now file.now ms }

        ensures apart { IfOk result (λ v. AreApart 0 (views v) (length file.now)) }
        ensures there { IfOk result (λ v. AreThere file.now (views v)) }
        ensures cuts { IfOk result (λ v. AreCut file.now (views v)) };

    /// Whether the manager takes this text for a value: it has only characters that may stand there.
    fn fits(&self, value: &str) -> bool
        ensures { result ≡ is_fit self.now value.now };

    /// The bytes and the values of a reading are the file.
    ghost whole: { (m : Self) (file : Items ℕ) (ms : Items Mark) → reads m file ms → file ≡ text_of ms };
}
