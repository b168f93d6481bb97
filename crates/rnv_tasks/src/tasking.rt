ghost use Rattle.std.specs.Prelude.{◌≡◌, ◌++◌, [], flat_map, IfOk};
ghost use Rattle.rnv_base.specs.Causes.{FaultsBy, PassesNone};
ghost use Rattle.rnv_base.specs.Files.{paths_of};
ghost use Rattle.rnv_tasks.specs.Tasks.{all_calls, file_calls, files_with, joined, problems_in, tasked};
ghost use Rattle.rnv_tasks.specs.Told.{MakesFirst};
ghost use Rattle.rnv_tasks.specs.declared.error.TaskError.TheVariants.{TaskFault};

use crate::command::{Command, read_commands};
use crate::done_file::keep;
use crate::joining::joined;
use crate::treating::treat_file;
use crate::{Spawner, TaskError, Tasked};
use rnv_base::{List, Share, Text};
use rnv_repo::EditedFile;
use std::alloc::Global;
use std::convert::AsSlice;

/// Runs the commands on each file in turn, one after the other, each on what the one before it gave: the
/// file's bytes stand on standard input, and standard output replaces them. A command is split into
/// words at its spaces. It is started only where the operator's list `allowed` has just its text. A
/// file of more than 32,768 bytes, a command that is not allowed, a status other than 0 and an output
/// of more than 1,048,576 bytes are problems, `PATH: ..`, at which a file keeps its bytes. `TaskFault`
/// only where the spawner's count of faults rose, and it rises only there; else only memory can fail.
#[tactic(auto, using(crate::proofs::Whole::start, crate::proofs::Whole::idle_files, crate::proofs::Whole::idle_problem, crate::proofs::Whole::idle_calls, crate::proofs::Whole::busy_files, crate::proofs::Whole::busy_problem, crate::proofs::Whole::busy_calls))]
pub fn tasked<P: Spawner>(
    alloc: Global,
    spawner: &mut P,
    allowed: &List<Text>,
    commands: &List<Text>,
    files: &List<EditedFile>,
) -> Result<Tasked, TaskError>
    ensures files { P.tells → IfOk result (λ done. done.files ≡ (tasked (P.answers spawner.old) allowed.now commands.now files.now).files) }
    ensures problem { P.tells → IfOk result (λ done. done.problem ≡ (tasked (P.answers spawner.old) allowed.now commands.now files.now).problem) }
    ensures calls { P.tells → MakesFirst (all_calls (P.answers spawner.old) allowed.now commands.now files.now) (P.calls spawner.old) (P.calls spawner.new) }
    ensures called { P.tells → IfOk result (λ _. P.calls spawner.new ≡ P.calls spawner.old ++ all_calls (P.answers spawner.old) allowed.now commands.now files.now) }
    ensures same { P.tells → P.answers spawner.new ≡ P.answers spawner.old }
    ensures paths { IfOk result (λ done. paths_of done.files ≡ paths_of files.now) }
    ensures idle { commands.now ≡ [] → IfOk result (λ done. (done.files ≡ files.now) × (done.problem ≡ [])) }
    ensures cause { FaultsBy (P.faults spawner.old) (P.faults spawner.new) result TaskFault }
    ensures passed { PassesNone (P.faults spawner.old) (P.faults spawner.new) result TaskFault }
{
    if commands.is_empty() {
        return Ok(Tasked {
            files: files.share(alloc)?,
            problem: Text::new(String::new(alloc)),
        });
    }
    let commands = read_commands(alloc, allowed.as_slice(), commands.as_slice())?;
    run_all(alloc, spawner, commands.as_slice(), files.as_slice())
}

// Runs commands, of which there are some, on each file.
fn run_all<P: Spawner>(
    alloc: Global,
    spawner: &mut P,
    commands: &[Command],
    files: &[EditedFile],
) -> Result<Tasked, TaskError>
    ensures files { P.tells → IfOk result (λ done. done.files ≡ files_with (P.answers spawner.old) commands.now files.now) }
    ensures problem { P.tells → IfOk result (λ done. done.problem ≡ joined (problems_in (P.answers spawner.old) commands.now files.now)) }
    ensures calls { P.tells → MakesFirst (flat_map (file_calls (P.answers spawner.old) commands.now) files.now) (P.calls spawner.old) (P.calls spawner.new) }
    ensures called { P.tells → IfOk result (λ _. P.calls spawner.new ≡ P.calls spawner.old ++ flat_map (file_calls (P.answers spawner.old) commands.now) files.now) }
    ensures same { P.tells → P.answers spawner.new ≡ P.answers spawner.old }
    ensures paths { IfOk result (λ done. paths_of done.files ≡ paths_of files.now) }
    ensures cause { FaultsBy (P.faults spawner.old) (P.faults spawner.new) result TaskFault }
    ensures passed { PassesNone (P.faults spawner.old) (P.faults spawner.new) result TaskFault }
{
    let mut done = List::empty(alloc);
    let mut problems = List::empty(alloc);
    for file in files {
        let treated = treat_file(alloc, spawner, commands, file)?;
        keep(alloc, &mut done, &mut problems, file, treated)?;
    }
    Ok(Tasked {
        files: done,
        problem: joined(alloc, problems.as_slice())?,
    })
}
