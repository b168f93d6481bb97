ghost use Rattle.std.specs.Prelude.{◌≡◌, [], flat_map, IfOk, string_bytes};
ghost use Rattle.rnv_dashboard.specs.Lines.{ended, text_of};
ghost use Rattle.rnv_dashboard.specs.Page.{box_line, errored_line, is_same, item_line, lines_in, live_line};

use crate::lines::{add_line, guarded, spaced};
use crate::section::word;
use crate::{PageItem, Section};
use std::alloc::{AllocError, Global};
use std::convert::AsStr;

// The lines of the items of a section.
#[tactic(auto, using(crate::proofs::Texts::text_of_picked))]
pub(crate) fn items_text(
    alloc: Global,
    items: &[PageItem],
    section: Section,
) -> Result<String, AllocError>
    ensures { IfOk result (λ text. string_bytes text ≡ text_of (lines_in section items.now)) }
{
    let mut lines = String::new(alloc);
    for item in items {
        if is_in(item, section) {
            add_line(&mut lines, item_line(alloc, item)?.as_str())?;
        }
    }
    Ok(lines)
}

#[tactic(auto, using(crate::proofs::Texts::same))]
fn is_in(item: &PageItem, section: Section) -> bool
    ensures { result ≡ is_same item.now.section section }
{
    item.section == section
}

fn item_line(alloc: Global, item: &PageItem) -> Result<String, AllocError>
    ensures { IfOk result (λ line. string_bytes line ≡ item_line item.now) }
{
    match item.section {
        Section::Errored => errored_line(alloc, item),
        Section::Live => live_line(alloc, item),
        Section::Approval
        | Section::Schedule
        | Section::Pending
        | Section::Limited
        | Section::Blocked => box_line(alloc, item),
    }
}

fn errored_line(alloc: Global, item: &PageItem) -> Result<String, AllocError>
    ensures { IfOk result (λ line. string_bytes line ≡ errored_line item.now) }
{
    let branch = guarded(alloc, item.branch.as_str())?;
    let branch = branch.as_str();
    let note = spaced(alloc, item.note.as_str())?;
    let note = note.as_str();
    format!(in alloc; "- {branch}: {note}")
}

fn box_line(alloc: Global, item: &PageItem) -> Result<String, AllocError>
    ensures { IfOk result (λ line. string_bytes line ≡ box_line item.now) }
{
    let word = word(item.section);
    let branch = spaced(alloc, item.branch.as_str())?;
    let branch = branch.as_str();
    let title = spaced(alloc, item.title.as_str())?;
    let title = title.as_str();
    format!(in alloc; "- [ ] <!-- {word}-branch={branch} -->{title}")
}

// The same with the number of the live request.
fn live_line(alloc: Global, item: &PageItem) -> Result<String, AllocError>
    ensures { IfOk result (λ line. string_bytes line ≡ live_line item.now) }
{
    let line = box_line(alloc, item)?;
    let line = line.as_str();
    let number = item.number;
    format!(in alloc; "{line} (#{number})")
}
