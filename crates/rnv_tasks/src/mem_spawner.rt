ghost use Rattle.std.specs.Prelude.{◌≡◌, ◌≤◌, ◌↔◌, ◌++◌, ◌∷◌, [], length, take, IfOk, IsErr, IsErrOf, IsTrue, OnErr, OnOk};
ghost use Rattle.rnv_base.specs.Causes.{FaultsBy, PassesNone};
ghost use Rattle.rnv_base.specs.Turns.{IsListed, first_turn, next_turn};
ghost use Rattle.rnv_tasks.specs.Told.{MakesFirst, given_by, handed, is_same};
ghost use Rattle.rnv_tasks.specs.declared.error.SpawnError.TheVariants.{Failed, Memory};

use crate::{SpawnError, Spawner, TaskEnd};
use rnv_base::{Bytes, Failing, List, Share, Text};
use std::alloc::{AllocError, Global};
use std::convert::AsSlice;
use std::marker::Model;

/// As many bytes of an output are handed over.
const MOST: usize = 1_048_577;

/// A program with its arguments, and what stood on its standard input.
#[derive(Debug, Drop)]
pub struct TaskCall {
    pub words: List<Text>,
    pub input: Bytes,
}

impl Model for TaskCall {
    ghost use Rattle.rnv_tasks.specs.Told.{Call};

    ghost Value = { Call };

    ghost view = { λ c. record { words = c.words; input = c.input.bytes } };
}

/// What a call gives.
#[derive(Debug, Drop)]
pub struct TaskAnswer {
    pub call: TaskCall,
    pub end: TaskEnd,
}

impl Model for TaskAnswer {
    ghost use Rattle.rnv_tasks.specs.Told.{Answer};

    ghost Value = { Answer };

    ghost view = { λ a. record { call = a.call; gives = a.end } };
}

/// Programs in memory, which give what a table has for their words and input: its first answer for
/// these, and where it has none the status 255 and no output. The calls whose numbers, from 0, are
/// listed fail.
#[derive(Drop)]
pub struct MemSpawner {
    answers: List<TaskAnswer>,
    calls: List<TaskCall>,
    failing: Failing,
    faults: u64,
}

impl MemSpawner {
    /// Programs that give these answers. No call was made yet, and those with these numbers fail.
    pub fn new(alloc: Global, answers: List<TaskAnswer>, failing: List<u64>) -> MemSpawner
        ensures answers { ⟦<MemSpawner as Spawner>⟧.answers result ≡ answers }
        ensures uncalled { ⟦<MemSpawner as Spawner>⟧.calls result ≡ [] }
        ensures unfailed { ⟦<MemSpawner as Spawner>⟧.faults result ≡ 0 }
        ensures failing { result.failing ≡ first_turn failing }
    {
        MemSpawner {
            answers,
            calls: List::empty(alloc),
            failing: Failing::new(failing),
            faults: 0,
        }
    }

    /// The calls that were made.
    pub fn calls(&self) -> &[TaskCall]
        ensures { result.now ≡ ⟦<MemSpawner as Spawner>⟧.calls self.now }
    {
        self.calls.as_slice()
    }
}

impl Spawner for MemSpawner {
    ghost tells = { Unit {0} };

    ghost answers = { λ s. s.answers };

    ghost calls = { λ s. s.calls };

    ghost faults = { λ s. s.faults };

    /// A listed call fails once it is noted. A call that memory refuses to note is not among the calls.
    fn run(
        &mut self,
        alloc: Global,
        words: &List<Text>,
        input: &Bytes,
    ) -> Result<TaskEnd, SpawnError>
        ensures end { IfOk result (λ end. end ≡ handed (given_by (record { words = words.now; input = input.now.bytes }) self.old.answers)) }
        ensures size { IfOk result (λ end. length end.output ≤ 1048577) }
        ensures same { self.new.answers ≡ self.old.answers }
        ensures calls { MakesFirst (record { words = words.now; input = input.now.bytes } ∷ []) self.old.calls self.new.calls }
        ensures called { ¬ IsErrOf result Memory → self.new.calls ≡ self.old.calls ++ record { words = words.now; input = input.now.bytes } ∷ [] }
        ensures cause { FaultsBy self.old.faults self.new.faults result Failed }
        ensures passed { PassesNone self.old.faults self.new.faults result Failed }
        ensures listed { IsListed self.old.failing → IsErr result }
        ensures failed { IsErrOf result Failed → IsListed self.old.failing }
        ensures turn { self.new.failing ≡ next_turn self.old.failing }
    {
        let fails = self.failing.strikes();
        note(alloc, &mut self.calls, words, input)?;
        if fails {
            self.faults = self.faults.saturating_add(1);
            return Err(SpawnError::Failed);
        }
        Ok(given(alloc, self.answers.as_slice(), words, input)?)
    }
}

// Puts a call behind those that were made.
pub(crate) fn note(
    alloc: Global,
    calls: &mut List<TaskCall>,
    words: &List<Text>,
    input: &Bytes,
) -> Result<(), AllocError>
    ensures noted { OnOk result (calls.new ≡ calls.old ++ record { words = words.now; input = input.now.bytes } ∷ []) }
    ensures same { OnErr result (calls.new ≡ calls.old) }
{
    let words = words.share(alloc)?;
    let input = input.share(alloc)?;
    calls.push(TaskCall { words, input })
}

// What answers give for a call.
pub(crate) fn given(
    alloc: Global,
    answers: &[TaskAnswer],
    words: &List<Text>,
    input: &Bytes,
) -> Result<TaskEnd, AllocError>
    ensures end { IfOk result (λ end. end ≡ handed (given_by (record { words = words.now; input = input.now.bytes }) answers.now)) }
    ensures size { IfOk result (λ end. length end.output ≤ 1048577) }
{
    for answer in answers {
        if is_for(answer, words, input) {
            return Ok(TaskEnd {
                status: answer.end.status,
                output: front(alloc, answer.end.output.as_slice(), MOST)?,
            });
        }
    }
    Ok(TaskEnd {
        status: 255,
        output: Bytes::new(Vec::new(alloc)),
    })
}

// Whether an answer is for this call.
fn is_for(answer: &TaskAnswer, words: &List<Text>, input: &Bytes) -> bool
    ensures { result ≡ is_same answer.now.call (record { words = words.now; input = input.now.bytes }) }
{
    answer.call.words == *words && answer.call.input == *input
}

// A copy of the first `most` bytes.
fn front(alloc: Global, output: &[u8], most: usize) -> Result<Bytes, AllocError>
    ensures front { IfOk result (λ copy. copy.bytes ≡ take most output.now) }
    ensures size { IfOk result (λ copy. length copy.bytes ≤ most) }
{
    let count = output.len().min(most);
    Ok(Bytes::new(Vec::from_slice(alloc, &output[..count])?))
}
