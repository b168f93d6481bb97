ghost use Rattle.std.specs.Prelude.{◌≡◌, ◌++◌, IfOk, codes};
ghost use Rattle.std.specs.Fmt.{decimal};
ghost use Rattle.rnv_base.specs.Causes.{FaultsBy, PassesNone};
ghost use Rattle.rnv_tasks.specs.Outcome.{outcome};
ghost use Rattle.rnv_tasks.specs.Tasks.{calls_of, ended, file_calls, file_made, made, step, step_calls};
ghost use Rattle.rnv_tasks.specs.Told.{MakesFirst};
ghost use Rattle.rnv_tasks.specs.declared.error.TaskError.TheVariants.{TaskFault};

use crate::command::Command;
use crate::{SpawnError, Spawner, TaskEnd, TaskError};
use rnv_base::{Bytes, Text};
use rnv_repo::EditedFile;
use std::alloc::{AllocError, Global};
use std::convert::{AsSlice, AsStr};

// The most bytes of a file that commands are run on, and of an output that is taken.
const MOST_INPUT: usize = 32_768;

const MOST_OUTPUT: usize = 1_048_576;

// What becomes of bytes.
#[derive(Drop)]
pub enum Treated {
    // What the last command gave.
    Changed(Bytes),
    // The problem at which it ended.
    Stopped(Text),
}

// Runs the commands on a file.
pub(crate) fn treat_file<P: Spawner>(
    alloc: Global,
    spawner: &mut P,
    commands: &[Command],
    file: &EditedFile,
) -> Result<Treated, TaskError>
    ensures made { P.tells → IfOk result (λ treated. outcome treated ≡ file_made (P.answers spawner.old) commands.now file.now) }
    ensures calls { P.tells → MakesFirst (file_calls (P.answers spawner.old) commands.now file.now) (P.calls spawner.old) (P.calls spawner.new) }
    ensures called { P.tells → IfOk result (λ _. P.calls spawner.new ≡ P.calls spawner.old ++ file_calls (P.answers spawner.old) commands.now file.now) }
    ensures same { P.tells → P.answers spawner.new ≡ P.answers spawner.old }
    ensures cause { FaultsBy (P.faults spawner.old) (P.faults spawner.new) result TaskFault }
    ensures passed { PassesNone (P.faults spawner.old) (P.faults spawner.new) result TaskFault }
{
    if file.bytes.as_slice().len() > MOST_INPUT {
        return Ok(Treated::Stopped(Text::copied(alloc, "too large for tasks")?));
    }
    treat(alloc, spawner, commands, &file.bytes)
}

// Runs the commands one after the other, each on what the one before it gave.
fn treat<P: Spawner>(
    alloc: Global,
    spawner: &mut P,
    commands: &[Command],
    bytes: &Bytes,
) -> Result<Treated, TaskError>
    ensures made { P.tells → IfOk result (λ treated. outcome treated ≡ made (P.answers spawner.old) commands.now bytes.now.bytes) }
    ensures calls { P.tells → MakesFirst (calls_of (P.answers spawner.old) commands.now bytes.now.bytes) (P.calls spawner.old) (P.calls spawner.new) }
    ensures called { P.tells → IfOk result (λ _. P.calls spawner.new ≡ P.calls spawner.old ++ calls_of (P.answers spawner.old) commands.now bytes.now.bytes) }
    ensures same { P.tells → P.answers spawner.new ≡ P.answers spawner.old }
    ensures cause { FaultsBy (P.faults spawner.old) (P.faults spawner.new) result TaskFault }
    ensures passed { PassesNone (P.faults spawner.old) (P.faults spawner.new) result TaskFault }
{
    let mut current = bytes.share(alloc)?;
    for command in commands {
        match step(alloc, spawner, command, &current)? {
            Treated::Changed(output) => current = output,
            Treated::Stopped(problem) => return Ok(Treated::Stopped(problem)),
        }
    }
    Ok(Treated::Changed(current))
}

// Runs one command, if it may be started.
fn step<P: Spawner>(
    alloc: Global,
    spawner: &mut P,
    command: &Command,
    bytes: &Bytes,
) -> Result<Treated, TaskError>
    ensures made { P.tells → IfOk result (λ treated. outcome treated ≡ step (P.answers spawner.old) command.now bytes.now.bytes) }
    ensures calls { P.tells → MakesFirst (step_calls command.now bytes.now.bytes) (P.calls spawner.old) (P.calls spawner.new) }
    ensures called { P.tells → IfOk result (λ _. P.calls spawner.new ≡ P.calls spawner.old ++ step_calls command.now bytes.now.bytes) }
    ensures same { P.tells → P.answers spawner.new ≡ P.answers spawner.old }
    ensures cause { FaultsBy (P.faults spawner.old) (P.faults spawner.new) result TaskFault }
    ensures passed { PassesNone (P.faults spawner.old) (P.faults spawner.new) result TaskFault }
{
    if !command.allowed {
        let text = command.text.as_str();
        let problem = format!(in alloc; "{text} is not allowed")?;
        return Ok(Treated::Stopped(Text::new(problem)));
    }
    match spawner.run(alloc, &command.words, bytes) {
        Ok(end) => Ok(ended(alloc, command.text.as_str(), end)?),
        Err(SpawnError::Failed) => Err(TaskError::TaskFault),
        Err(SpawnError::Memory) => Err(TaskError::Memory),
    }
}

// What the end of a command makes.
fn ended(alloc: Global, command: &str, end: TaskEnd) -> Result<Treated, AllocError>
    ensures { IfOk result (λ treated. outcome treated ≡ ended command.now end) }
{
    if end.status != 0 {
        return Ok(Treated::Stopped(wrong_status(alloc, command, end.status)?));
    }
    if end.output.as_slice().len() > MOST_OUTPUT {
        return Ok(Treated::Stopped(too_much(alloc, command)?));
    }
    Ok(Treated::Changed(end.output))
}

fn wrong_status(alloc: Global, command: &str, status: u32) -> Result<Text, AllocError>
    ensures { IfOk result (λ text. text ≡ command.now ++ (codes " ended with " ++ decimal status)) }
{
    let text = format!(in alloc; "{command} ended with {status}")?;
    Ok(Text::new(text))
}

fn too_much(alloc: Global, command: &str) -> Result<Text, AllocError>
    ensures { IfOk result (λ text. text ≡ command.now ++ codes " gave too much") }
{
    let text = format!(in alloc; "{command} gave too much")?;
    Ok(Text::new(text))
}
