ghost use Rattle.std.specs.Prelude.{◌≡◌, ◌++◌, [], map, flat_map, IfOk, OnOk, string_bytes};
ghost use Rattle.rnv_dashboard.specs.Lines.{text_of};
ghost use Rattle.rnv_dashboard.specs.Page.{closing_text, framed_text, page, section_lines, sections, warning_line};
ghost use Rattle.rnv_dashboard.specs.Ticks.{ticks};

use crate::found::found_text;
use crate::item_lines::items_text;
use crate::lines::{add_line, guarded};
use crate::section::heading;
use crate::{PageFile, PageItem, Section};
use rnv_base::{List, Text};
use std::alloc::{AllocError, Global};
use std::convert::{AsSlice, AsStr};

/// The page of a dependency dashboard, in Markdown: the items in their sections, each section in the
/// order given, then the warnings, then the files with their dependencies. Control characters are
/// spaces on it. Each item but the errored ones has a box, and none of these is ticked, whatever the
/// texts say. Only memory can fail.
#[tactic(auto, using(crate::proofs::Unticked::page_unticked))]
pub fn page_text(
    alloc: Global,
    items: &List<PageItem>,
    found: &List<PageFile>,
    warnings: &List<Text>,
) -> Result<Text, AllocError>
    ensures page { IfOk result (λ text. text ≡ page items.now found.now warnings.now) }
    ensures unticked { IfOk result (λ text. ticks text ≡ []) }
{
    let page = page_string(
        alloc,
        items.as_slice(),
        found.as_slice(),
        warnings.as_slice(),
    )?;
    Ok(Text::new(page))
}

#[tactic(auto, using(crate::proofs::Texts::page_is))]
fn page_string(
    alloc: Global,
    items: &[PageItem],
    found: &[PageFile],
    warnings: &[Text],
) -> Result<String, AllocError>
    ensures { IfOk result (λ text. string_bytes text ≡ page items.now found.now warnings.now) }
{
    let sections = sections(alloc, items)?;
    let warnings = warnings_text(alloc, warnings)?;
    let found = found_text(alloc, found)?;
    let mut page = String::from_str(alloc, "# Dependency Dashboard\n")?;
    page.push_str(sections.as_str())?;
    add_framed(&mut page, "Warnings", warnings.as_str())?;
    add_framed(&mut page, "Detected Dependencies", found.as_str())?;
    Ok(page)
}

// Lines behind a heading, where there are any.
fn add_framed(page: &mut String, heading: &str, lines: &str) -> Result<(), AllocError>
    ensures { OnOk result (string_bytes page.new ≡ string_bytes page.old ++ framed_text heading.now lines.now) }
{
    if lines.is_empty() {
        return Ok(());
    }
    page.push_str("\n## ")?;
    page.push_str(heading)?;
    page.push_str("\n\n")?;
    page.push_str(lines)
}

// All sections, in the order of the page.
fn sections(alloc: Global, items: &[PageItem]) -> Result<String, AllocError>
    ensures { IfOk result (λ text. string_bytes text ≡ text_of (flat_map (section_lines items.now) sections)) }
{
    sections_text(
        alloc,
        items,
        &[
            Section::Errored,
            Section::Live,
            Section::Approval,
            Section::Schedule,
            Section::Pending,
            Section::Limited,
            Section::Blocked,
        ],
    )
}

fn sections_text(
    alloc: Global,
    items: &[PageItem],
    sections: &[Section],
) -> Result<String, AllocError>
    ensures { IfOk result (λ text. string_bytes text ≡ text_of (flat_map (section_lines items.now) sections.now)) }
{
    let mut page = String::new(alloc);
    for section in sections {
        add_section(alloc, &mut page, items, *section)?;
    }
    Ok(page)
}

#[tactic(auto, using(crate::proofs::Texts::text_of_framed, crate::proofs::Texts::text_of_closed))]
fn add_section(
    alloc: Global,
    page: &mut String,
    items: &[PageItem],
    section: Section,
) -> Result<(), AllocError>
    ensures { OnOk result (string_bytes page.new ≡ string_bytes page.old ++ text_of (section_lines items.now section)) }
{
    let mut lines = items_text(alloc, items, section)?;
    add_closing(&mut lines, section)?;
    add_framed(page, heading(section), lines.as_str())
}

// What stands behind the lines of a section, where it has some: the box that approves all.
fn add_closing(lines: &mut String, section: Section) -> Result<(), AllocError>
    ensures { OnOk result (string_bytes lines.new ≡ string_bytes lines.old ++ closing_text section (string_bytes lines.old)) }
{
    if lines.is_empty() {
        return Ok(());
    }
    match section {
        Section::Approval => lines.push_str("- [ ] <!-- approve-all -->Approve all of these\n"),
        _ => Ok(()),
    }
}

#[tactic(auto, using(crate::proofs::Texts::text_of_mapped))]
fn warnings_text(alloc: Global, warnings: &[Text]) -> Result<String, AllocError>
    ensures { IfOk result (λ text. string_bytes text ≡ text_of (map warning_line warnings.now)) }
{
    let mut lines = String::new(alloc);
    for warning in warnings {
        lines.push_str("- ")?;
        add_line(&mut lines, guarded(alloc, warning.as_str())?.as_str())?;
    }
    Ok(lines)
}
