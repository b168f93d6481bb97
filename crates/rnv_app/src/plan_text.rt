ghost use Rattle.std.specs.Prelude.{◌≡◌, ◌++◌, ℕ, List as Items, map, OnOk, IfOk};
ghost use Rattle.std.specs.List.{flat_map};
ghost use Rattle.rnv_base.specs.Moment.{IsMoment, IsMomentText};
ghost use Rattle.rnv_app.specs.Text.{kind_word, subject, change, target, line, item_lines, count, summary, plan_text};

use rnv_base::{List, UpdateKind, moment_text};
use rnv_commands::{add, add_shown};
use rnv_pick::Update;
use rnv_plan::Group;
use std::alloc::{AllocError, Global};
use std::convert::{AsSlice, AsStr};

/// The text of a plan: the moment, a line for each update in item order, and how many there are.
/// Only memory can fail.
pub fn plan_text(alloc: Global, now: u64, items: &List<Group>) -> Result<Vec<u8>, AllocError>
    requires { IsMoment now }
    ensures { IfOk result (λ text. (time : Items ℕ) × IsMomentText time now × (text.items ≡ plan_text time items.now)) }
{
    let time = moment_text(alloc, now)?;
    let mut text = Vec::new(alloc);
    add(&mut text, "now ")?;
    add(&mut text, time.as_str())?;
    add(&mut text, "\n")?;
    add_items(&mut text, items.as_slice())?;
    add_summary(alloc, &mut text, items.as_slice())?;
    Ok(text)
}

fn kind_word(kind: UpdateKind) -> &'static str
    ensures { result.now ≡ kind_word kind }
{
    match kind {
        UpdateKind::Pin => "pin",
        UpdateKind::Patch => "patch",
        UpdateKind::Minor => "minor",
        UpdateKind::Major => "major",
    }
}

// Puts the line of an update on this branch at the end.
#[tactic(auto, unfolding(crate::specs::Text::line))]
fn add_line(out: &mut Vec<u8>, branch: &str, update: &Update) -> Result<(), AllocError>
    ensures { OnOk result (out.new.items ≡ out.old.items ++ line branch.now update.now) }
{
    add_subject(out, update)?;
    add_change(out, update)?;
    add_target(out, branch, update)
}

fn add_subject(out: &mut Vec<u8>, update: &Update) -> Result<(), AllocError>
    ensures { OnOk result (out.new.items ≡ out.old.items ++ subject update.now) }
{
    add_shown(out, update.dep.file.as_str())?;
    add(out, " ")?;
    add_shown(out, update.dep.package.as_str())?;
    add(out, " ")
}

fn add_change(out: &mut Vec<u8>, update: &Update) -> Result<(), AllocError>
    ensures { OnOk result (out.new.items ≡ out.old.items ++ change update.now) }
{
    add_shown(out, update.dep.value.as_str())?;
    add(out, " -> ")?;
    add_shown(out, update.new_value.as_str())?;
    add(out, " (")
}

fn add_target(out: &mut Vec<u8>, branch: &str, update: &Update) -> Result<(), AllocError>
    ensures { OnOk result (out.new.items ≡ out.old.items ++ target branch.now update.now) }
{
    add(out, kind_word(update.kind))?;
    add(out, ") ")?;
    add_shown(out, branch)?;
    add(out, "\n")
}

// Puts the lines of an item at the end.
fn add_item(out: &mut Vec<u8>, item: &Group) -> Result<(), AllocError>
    ensures { OnOk result (out.new.items ≡ out.old.items ++ item_lines item.now) }
{
    for update in item.updates.as_slice() {
        add_line(out, item.branch.as_str(), update)?;
    }
    Ok(())
}

// Puts the lines of the items at the end.
fn add_items(out: &mut Vec<u8>, items: &[Group]) -> Result<(), AllocError>
    ensures { OnOk result (out.new.items ≡ out.old.items ++ flat_map item_lines items.now) }
{
    for item in items {
        add_item(out, item)?;
    }
    Ok(())
}

// How many updates there are. More than a number holds are more than memory does.
fn count(items: &[Group]) -> Result<usize, AllocError>
    ensures { IfOk result (λ n. n ≡ count items.now) }
{
    let mut count = 0usize;
    for item in items {
        count = count.checked_add(item.updates.len()).ok_or(AllocError)?;
    }
    Ok(count)
}

// Puts the last line at the end.
fn add_summary(alloc: Global, out: &mut Vec<u8>, items: &[Group]) -> Result<(), AllocError>
    ensures { OnOk result (out.new.items ≡ out.old.items ++ summary items.now) }
{
    let updates = count(items)?;
    let branches = items.len();
    let line = format!(in alloc; "{updates} updates, {branches} branches\n")?;
    add(out, line.as_str())
}
