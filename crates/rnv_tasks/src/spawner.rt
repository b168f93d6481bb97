ghost use Rattle.std.specs.Prelude.{◌≡◌, ◌≤◌, ◌++◌, ◌∷◌, [], ℕ, List as Items, length, IfOk, IsErrOf};
ghost use Rattle.rnv_base.specs.Causes.{FaultsBy, PassesNone};
ghost use Rattle.rnv_tasks.specs.Told.{Answer, Call, MakesFirst, given_by, handed};
ghost use Rattle.rnv_tasks.specs.declared.error.SpawnError.TheVariants.{Failed, Memory};

use crate::{SpawnError, TaskEnd};
use rnv_base::{Bytes, List, Text};
use std::alloc::Global;

/// What starts programs.
pub trait Spawner {
    /// Whether it tells its answers and its calls.
    ghost tells: { Type 0 };

    /// What programs give, by their words and input.
    ghost answers: { Self → Items Answer };

    /// The calls so far, in order.
    ghost calls: { Self → Items Call };

    /// How often a call has failed.
    ghost faults: { Self → ℕ };

    /// Runs the program of the first word with the others as its arguments and these bytes on its
    /// standard input, and waits until it ends. `Failed` only where the count of faults rose, and it
    /// rises only there. At want of memory it may have been started or not.
    fn run(
        &mut self,
        alloc: Global,
        words: &List<Text>,
        input: &Bytes,
    ) -> Result<TaskEnd, SpawnError>
        ensures end { tells → IfOk result (λ end. end ≡ handed (given_by (record { words = words.now; input = input.now.bytes }) (answers self.old))) }
        ensures size { IfOk result (λ end. length end.output ≤ 1048577) }
        ensures same { tells → (answers self.new ≡ answers self.old) }
        ensures calls { tells → MakesFirst (record { words = words.now; input = input.now.bytes } ∷ []) (calls self.old) (calls self.new) }
        ensures called { tells → ¬ IsErrOf result Memory → calls self.new ≡ calls self.old ++ record { words = words.now; input = input.now.bytes } ∷ [] }
        ensures cause { FaultsBy (faults self.old) (faults self.new) result Failed }
        ensures passed { PassesNone (faults self.old) (faults self.new) result Failed };
}
