ghost use Rattle.std.specs.Prelude.{◌≡◌, ◌++◌, map, flat_map, IfOk, OnOk, string_bytes};
ghost use Rattle.rnv_dashboard.specs.Lines.{ended, text_of};
ghost use Rattle.rnv_dashboard.specs.Page.{dependency_line, file_lines, found_lines, manager_name, path_line, skipped};

use crate::lines::{add_line, guarded, spaced};
use crate::{PageFile, PageLine};
use rnv_base::ManagerKind;
use std::alloc::{AllocError, Global};
use std::convert::{AsSlice, AsStr};

// The lines of all files, or that there are none.
pub(crate) fn found_text(alloc: Global, found: &[PageFile]) -> Result<String, AllocError>
    ensures { IfOk result (λ text. string_bytes text ≡ text_of (found_lines found.now)) }
{
    let lines = files_text(alloc, found)?;
    if lines.is_empty() {
        return String::from_str(alloc, "None detected\n");
    }
    Ok(lines)
}

#[tactic(auto, using(crate::proofs::Texts::text_of_each))]
fn files_text(alloc: Global, found: &[PageFile]) -> Result<String, AllocError>
    ensures { IfOk result (λ text. string_bytes text ≡ text_of (flat_map file_lines found.now)) }
{
    let mut lines = String::new(alloc);
    for file in found {
        add_file(alloc, &mut lines, file)?;
    }
    Ok(lines)
}

// Puts the lines of a file at the end, where it has a dependency.
fn add_file(alloc: Global, lines: &mut String, file: &PageFile) -> Result<(), AllocError>
    ensures { OnOk result (string_bytes lines.new ≡ string_bytes lines.old ++ text_of (file_lines file.now)) }
{
    if file.lines.is_empty() {
        return Ok(());
    }
    add_line(lines, path_line(alloc, file)?.as_str())?;
    lines.push_str(dependencies_text(alloc, file.lines.as_slice())?.as_str())
}

fn path_line(alloc: Global, file: &PageFile) -> Result<String, AllocError>
    ensures { IfOk result (λ line. string_bytes line ≡ path_line file.now) }
{
    let path = guarded(alloc, file.path.as_str())?;
    let path = path.as_str();
    let manager = manager_name(file.manager);
    format!(in alloc; "- {path} ({manager})")
}

fn manager_name(manager: ManagerKind) -> &'static str
    ensures { result.now ≡ manager_name manager }
{
    match manager {
        ManagerKind::Cargo => "cargo",
        ManagerKind::Npm => "npm",
        ManagerKind::Dockerfile => "dockerfile",
        ManagerKind::Regex => "custom.regex",
    }
}

// The lines of a file's dependencies.
#[tactic(auto, using(crate::proofs::Texts::text_of_mapped))]
fn dependencies_text(alloc: Global, lines: &[PageLine]) -> Result<String, AllocError>
    ensures { IfOk result (λ text. string_bytes text ≡ text_of (map dependency_line lines.now)) }
{
    let mut text = String::new(alloc);
    for line in lines {
        add_line(&mut text, dependency_line(alloc, line)?.as_str())?;
    }
    Ok(text)
}

fn dependency_line(alloc: Global, line: &PageLine) -> Result<String, AllocError>
    ensures { IfOk result (λ text. string_bytes text ≡ dependency_line line.now) }
{
    let package = spaced(alloc, line.package.as_str())?;
    let package = package.as_str();
    let value = spaced(alloc, line.value.as_str())?;
    let value = value.as_str();
    let skip = skipped(alloc, line.skip.as_str())?;
    let skip = skip.as_str();
    format!(in alloc; "  - {package} {value}{skip}")
}

// Why a dependency is skipped, behind its value.
fn skipped(alloc: Global, reason: &str) -> Result<String, AllocError>
    ensures { IfOk result (λ text. string_bytes text ≡ skipped reason.now) }
{
    if reason.is_empty() {
        return Ok(String::new(alloc));
    }
    let reason = spaced(alloc, reason)?;
    let reason = reason.as_str();
    format!(in alloc; " (skipped: {reason})")
}
