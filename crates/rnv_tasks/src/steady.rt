ghost use Rattle.std.specs.Prelude.{◌≡◌, []};

use crate::mem_spawner::{given, note};
use crate::{SpawnError, Spawner, TaskAnswer, TaskCall, TaskEnd};
use rnv_base::{Bytes, List, Text};
use std::alloc::Global;
use std::convert::AsSlice;

/// Programs in memory, of which no call fails.
#[derive(Drop)]
pub struct SteadySpawner {
    answers: List<TaskAnswer>,
    calls: List<TaskCall>,
}

impl SteadySpawner {
    /// Programs that give these answers. No call was made yet.
    pub fn new(alloc: Global, answers: List<TaskAnswer>) -> SteadySpawner
        ensures answers { ⟦<SteadySpawner as Spawner>⟧.answers result ≡ answers }
        ensures uncalled { ⟦<SteadySpawner as Spawner>⟧.calls result ≡ [] }
    {
        SteadySpawner {
            answers,
            calls: List::empty(alloc),
        }
    }

    /// The calls that were made.
    pub fn calls(&self) -> &[TaskCall]
        ensures { result.now ≡ ⟦<SteadySpawner as Spawner>⟧.calls self.now }
    {
        self.calls.as_slice()
    }
}

impl Spawner for SteadySpawner {
    ghost tells = { Unit {0} };

    ghost answers = { λ s. s.answers };

    ghost calls = { λ s. s.calls };

    ghost faults = { λ _. 0 };

    fn run(
        &mut self,
        alloc: Global,
        words: &List<Text>,
        input: &Bytes,
    ) -> Result<TaskEnd, SpawnError> {
        note(alloc, &mut self.calls, words, input)?;
        Ok(given(alloc, self.answers.as_slice(), words, input)?)
    }
}
