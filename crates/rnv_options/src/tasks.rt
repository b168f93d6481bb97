ghost use Rattle.std.specs.Prelude.{◌≡◌, ℕ, Bool, List as Items, IfOk, Ok};
ghost use Rattle.serde_json.specs.Find.{get};
ghost use Rattle.serde_json.specs.View.{view};
ghost use Rattle.rnv_pattern.specs.Patterns.{ArePatterns};
ghost use Rattle.rnv_pattern.specs.Turns.{Agrees, Asks};
ghost use Rattle.rnv_options.specs.Readings.{IsBuilt, Tells, filters_from, tasks_of, texts_at, texts_set, told};

use crate::reading::{pattern_list, texts};
use crate::{Plain, TaskOptions, Wrong};
use rnv_base::{List, Text};
use rnv_pattern::{Builder, PatternList};
use serde_json::Value;
use std::alloc::Global;
use std::convert::AsSlice;

// Texts that may be set, and the patterns that they are.
#[derive(Drop)]
struct Filters {
    texts: Option<List<Text>>,
    list: PatternList,
}

// The texts of a member, None where it is missing or `null`.
fn texts_at(alloc: Global, object: &Value, name: &str) -> Result<Option<List<Text>>, Wrong>
    ensures { Tells (λ texts. texts) result (texts_at (get name.now (view object.now))) }
{
    let Some(value) = object.get(name) else {
        return Ok(None);
    };
    if value.is_null() {
        return Ok(None);
    }
    match texts(alloc, value)? {
        Some(texts) => Ok(Some(texts)),
        None => Err(Wrong::BadValue),
    }
}

// The filters of tasks.
#[tactic(auto, using(rnv_pattern::proofs::Turns::asks_none))]
fn filter_list<E: Builder>(
    alloc: Global,
    engines: &mut E,
    texts: Option<List<Text>>,
) -> Result<Filters, Wrong>
    ensures asks { Asks (E.refused engines.old) (E.took engines.old) (E.others engines.old) (E.refused engines.new) (E.took engines.new) (E.others engines.new) }
    ensures built { IfOk result (λ f. ArePatterns (texts_set f.texts) f.list) }
    ensures tells { (wrong : Items ℕ → Bool) → Agrees wrong (E.refused engines.old) (E.took engines.old) (E.refused engines.new) (E.took engines.new) → Tells (λ f. f.texts) result (filters_from wrong (Ok texts)) }
{
    let Some(texts) = texts else {
        return Ok(Filters {
            texts: None,
            list: PatternList::empty(alloc),
        });
    };
    match pattern_list(alloc, engines, texts.as_slice()) {
        Ok(list) => Ok(Filters {
            texts: Some(texts),
            list,
        }),
        Err(wrong) => Err(wrong),
    }
}

/// Post-upgrade tasks, from an object with the texts `commands` and `fileFilters`. Other members are
/// passed over.
#[tactic(auto, using(rnv_pattern::proofs::Turns::asks_none))]
pub fn tasks<E: Builder>(alloc: Global, engines: &mut E, value: &Value) -> Result<Plain, Wrong>
    ensures asks { Asks (E.refused engines.old) (E.took engines.old) (E.others engines.old) (E.refused engines.new) (E.took engines.new) (E.others engines.new) }
    ensures built { IfOk result IsBuilt }
    ensures tells { (wrong : Items ℕ → Bool) → Agrees wrong (E.refused engines.old) (E.took engines.old) (E.refused engines.new) (E.took engines.new) → Tells told result (tasks_of wrong (view value.now)) }
{
    if !value.is_object() {
        return Err(Wrong::WrongKind);
    }
    let commands = texts_at(alloc, value, "commands")?;
    let filters = texts_at(alloc, value, "fileFilters")?;
    match filter_list(alloc, engines, filters) {
        Ok(Filters { texts, list }) => Ok(Plain::Tasks(TaskOptions {
            commands,
            filters: texts,
            list,
        })),
        Err(wrong) => Err(wrong),
    }
}
