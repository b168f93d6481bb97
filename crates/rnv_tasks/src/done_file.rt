ghost use Rattle.std.specs.Prelude.{◌≡◌, ◌++◌, ◌∷◌, [], codes, IfOk, OnOk};
ghost use Rattle.rnv_tasks.specs.Outcome.{outcome};
ghost use Rattle.rnv_tasks.specs.Tasks.{file_with, problems_of};

use crate::treating::Treated;
use rnv_base::{List, Share, Text};
use rnv_repo::EditedFile;
use std::alloc::{AllocError, Global};
use std::convert::AsStr;

// Puts a file behind those that are done, with what became of it: with its new bytes, or as it was and
// its problem behind those of the others.
pub(crate) fn keep(
    alloc: Global,
    files: &mut List<EditedFile>,
    problems: &mut List<Text>,
    file: &EditedFile,
    treated: Treated,
) -> Result<(), AllocError>
    ensures files { OnOk result (files.new ≡ files.old ++ file_with file.now (outcome treated) ∷ []) }
    ensures problems { OnOk result (problems.new ≡ problems.old ++ problems_of file.now (outcome treated)) }
{
    match treated {
        Treated::Changed(bytes) => {
            let path = file.path.share(alloc)?;
            files.push(EditedFile { path, bytes })
        }
        Treated::Stopped(problem) => {
            problems.push(named(alloc, file, problem.as_str())?)?;
            files.push(file.share(alloc)?)
        }
    }
}

// A problem with the path of its file.
fn named(alloc: Global, file: &EditedFile, problem: &str) -> Result<Text, AllocError>
    ensures { IfOk result (λ text. text ≡ file.now.path ++ (codes ": " ++ problem.now)) }
{
    let path = file.path.as_str();
    let text = format!(in alloc; "{path}: {problem}")?;
    Ok(Text::new(text))
}
