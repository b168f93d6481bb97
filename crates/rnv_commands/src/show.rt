ghost use Rattle.std.specs.Prelude.{◌≡◌, ◌++◌, [], IfOk, IfErr, OnOk};
ghost use Rattle.std.specs.List.{flat_map};
ghost use Rattle.rnv_commands.specs.Show.{branch_line, due_words, ended, page_part, problem_part, problem_text, repo_line, request_line, show_text, state_words, title_part, IsShowRefusal, Shows};
ghost use Rattle.rnv_repo.specs.Store.{after};

use crate::CommandError;
use crate::printing::{add, add_number_after, add_text_after};
use rnv_base::{List, Text};
use rnv_forge::Forge;
use rnv_repo::{Branch, Repo, Request, RequestState};
use std::alloc::{AllocError, Global};
use std::convert::{AsSlice, AsStr};

fn due_words(due: bool) -> &'static str
    ensures { result.now ≡ due_words due }
{
    if due { " due yes\n" } else { " due no\n" }
}

fn state_words(state: RequestState) -> &'static str
    ensures { result.now ≡ state_words state }
{
    match state {
        RequestState::Live => " live ",
        RequestState::Closed => " closed ",
        RequestState::Autoclosed => " autoclosed ",
        RequestState::Merged => " merged ",
    }
}

fn problem_text(problem: &str) -> &str
    ensures { result.now ≡ problem_text problem.now }
{
    if problem.is_empty() { "none" } else { problem }
}

// Puts the line of the repository itself at the end.
#[tactic(auto, unfolding(crate::specs::Show::repo_line))]
fn add_repo_line(out: &mut Vec<u8>, repo: &Repo) -> Result<(), AllocError>
    ensures { OnOk result (out.new.items ≡ out.old.items ++ repo_line repo.now) }
{
    add_text_after(out, "repo ", repo.name.as_str())?;
    add_number_after(out, " revision ", repo.revision as u64)?;
    add_number_after(out, " files ", repo.files.len() as u64)?;
    add(out, due_words(repo.due))
}

// Puts what a branch's line says of its problem at the end.
fn add_problem(out: &mut Vec<u8>, problem: &Text) -> Result<(), AllocError>
    ensures { OnOk result (out.new.items ≡ out.old.items ++ problem_part problem.now) }
{
    add_text_after(out, " problem ", problem_text(problem.as_str()))?;
    add(out, "\n")
}

// Puts the line of a branch at the end.
#[tactic(auto, unfolding(crate::specs::Show::branch_line))]
fn add_branch(out: &mut Vec<u8>, branch: &Branch) -> Result<(), AllocError>
    ensures { OnOk result (out.new.items ≡ out.old.items ++ branch_line branch.now) }
{
    add_text_after(out, "branch ", branch.name.as_str())?;
    add_number_after(out, " revision ", branch.revision as u64)?;
    add_number_after(out, " updates ", branch.updates.len() as u64)?;
    add_problem(out, &branch.problem)
}

// Puts the lines of branches at the end.
fn add_branches(out: &mut Vec<u8>, branches: &[Branch]) -> Result<(), AllocError>
    ensures { OnOk result (out.new.items ≡ out.old.items ++ flat_map branch_line branches.now) }
{
    for branch in branches {
        add_branch(out, branch)?;
    }
    Ok(())
}

fn add_title(out: &mut Vec<u8>, title: &Text) -> Result<(), AllocError>
    ensures { OnOk result (out.new.items ≡ out.old.items ++ title_part title.now) }
{
    add_text_after(out, " ", title.as_str())?;
    add(out, "\n")
}

// Puts the line of a request at the end.
#[tactic(auto, unfolding(crate::specs::Show::request_line))]
fn add_request(out: &mut Vec<u8>, request: &Request) -> Result<(), AllocError>
    ensures { OnOk result (out.new.items ≡ out.old.items ++ request_line request.now) }
{
    add_number_after(out, "request #", request.number as u64)?;
    add_text_after(out, state_words(request.state), request.branch.as_str())?;
    add_title(out, &request.title)
}

// Puts the lines of requests at the end.
fn add_requests(out: &mut Vec<u8>, requests: &[Request]) -> Result<(), AllocError>
    ensures { OnOk result (out.new.items ≡ out.old.items ++ flat_map request_line requests.now) }
{
    for request in requests {
        add_request(out, request)?;
    }
    Ok(())
}

// Puts a page at the end, with a line end behind it where it has none.
fn add_ended(out: &mut Vec<u8>, page: &str) -> Result<(), AllocError>
    ensures { OnOk result (out.new.items ≡ out.old.items ++ ended page.now) }
{
    add(out, page)?;
    if page.as_bytes().ends_with(b"\n") {
        return Ok(());
    }
    add(out, "\n")
}

// Puts what is said of the page at the end.
fn add_page(out: &mut Vec<u8>, page: &Option<Text>) -> Result<(), AllocError>
    ensures { OnOk result (out.new.items ≡ out.old.items ++ page_part page.now) }
{
    match page {
        Some(page) => {
            add_number_after(out, "page ", page.as_str().len() as u64)?;
            add(out, " bytes\n")?;
            add_ended(out, page.as_str())
        }
        None => add(out, "page none\n"),
    }
}

/// The text that shows a repository: `repo NAME revision R files N due yes` (or `no`), for each branch
/// `branch NAME revision R updates N problem TEXT` (`none` if it is empty), for each request
/// `request #N STATE BRANCH TITLE`, and `page none`, or `page N bytes` and the page. Only memory can
/// fail.
pub fn show_text(alloc: Global, repo: &Repo) -> Result<Vec<u8>, AllocError>
    ensures { IfOk result (λ text. text.items ≡ show_text repo.now) }
{
    let mut text = Vec::new(alloc);
    add_repo_line(&mut text, repo)?;
    add_branches(&mut text, repo.branches.as_slice())?;
    add_requests(&mut text, repo.requests.as_slice())?;
    add_page(&mut text, &repo.page)?;
    Ok(text)
}

/// The text that shows the repository of a name in the store that the forge's writes make.
/// `UnknownRepo` exactly where there is none; `Memory`.
pub fn show_repo<F: Forge>(alloc: Global, forge: &F, name: &Text) -> Result<List<u8>, CommandError>
    requires { F.holds forge.now }
    ensures shown { IfOk result (Shows (after (F.writes forge.now) []) name.now) }
    ensures refused { IfErr result (IsShowRefusal (after (F.writes forge.now) []) name.now) }
{
    match forge.repo(alloc, name) {
        Ok(Some(repo)) => Ok(List::new(show_text(alloc, &repo)?)),
        Ok(None) => Err(CommandError::UnknownRepo),
        Err(_) => Err(CommandError::Memory),
    }
}
