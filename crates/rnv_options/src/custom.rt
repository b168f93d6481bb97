ghost use Rattle.std.specs.Prelude.{◌≡◌, ℕ, Bool, List as Items, codes, not, map, IfOk, OnOk, option_and_then};
ghost use Rattle.std.specs.List.{list_all};
ghost use Rattle.serde_json.specs.Find.{as_str, get};
ghost use Rattle.serde_json.specs.View.{items_view, view};
ghost use Rattle.rnv_pattern.specs.Patterns.{IsWholeExpression};
ghost use Rattle.rnv_pattern.specs.Turns.{Agrees, Asks};
ghost use Rattle.rnv_options.specs.Readings.{Each, IsOneMore, Tells, TellsTest, texts_of};
ghost use Rattle.rnv_options.specs.Customs.{AddsCustom, AreWhole, Gives, IsCustomBuilt, are_objects, custom_of, customs_in, custom_with, customs_of, expressions_if, is_regex, name_at, source_at, source_named, texts_built, told_custom};

use crate::reading::texts;
use crate::{Custom, Wrong};
use rnv_base::{List, SourceKind, Text};
use rnv_pattern::{Builder, Pattern, PatternError};
use serde_json::Value;
use std::alloc::{AllocError, Global};
use std::convert::{AsSlice, AsStr};

// Adds the expression of a text.
#[tactic(auto, using(rnv_pattern::proofs::Turns::asks_none))]
fn add_expression<E: Builder>(
    alloc: Global,
    engines: &mut E,
    text: &str,
    list: &mut List<Pattern>,
) -> Result<(), Wrong>
    ensures asks { Asks (E.refused engines.old) (E.took engines.old) (E.others engines.old) (E.refused engines.new) (E.took engines.new) (E.others engines.new) }
    ensures added { OnOk result (IsOneMore (IsWholeExpression text.now) list.old list.new) }
    ensures tells { (wrong : Items ℕ → Bool) → Agrees wrong (E.refused engines.old) (E.took engines.old) (E.refused engines.new) (E.took engines.new) → TellsTest result (not (wrong text.now)) }
{
    match Pattern::expression(alloc, engines, text) {
        Ok(pattern) => Ok(list.push(pattern)?),
        Err(PatternError::Memory) => Err(Wrong::Memory),
        Err(PatternError::BadGlob) => Err(Wrong::BadValue),
        Err(PatternError::BadExpression) => Err(Wrong::BadValue),
    }
}

// The expressions of the texts.
#[tactic(auto, using(rnv_pattern::proofs::Turns::asks_none))]
fn expression_list<E: Builder>(
    alloc: Global,
    engines: &mut E,
    texts: &[Text],
) -> Result<List<Pattern>, Wrong>
    ensures asks { Asks (E.refused engines.old) (E.took engines.old) (E.others engines.old) (E.refused engines.new) (E.took engines.new) (E.others engines.new) }
    ensures texts { IfOk result (λ list. texts_built list ≡ texts.now) }
    ensures built { IfOk result AreWhole }
    ensures tells { (wrong : Items ℕ → Bool) → Agrees wrong (E.refused engines.old) (E.took engines.old) (E.refused engines.new) (E.took engines.new) → TellsTest result (list_all (λ t. not (wrong t)) texts.now) }
{
    let mut list = List::empty(alloc);
    for text in texts {
        match add_expression(alloc, engines, text.as_str(), &mut list) {
            Ok(()) => {}
            Err(wrong) => return Err(wrong),
        }
    }
    Ok(list)
}

// The texts of a member, None where it is missing or something else.
fn texts_of(alloc: Global, object: &Value, name: &str) -> Result<Option<List<Text>>, AllocError>
    ensures { IfOk result (λ texts. texts ≡ option_and_then texts_of (get name.now (view object.now))) }
{
    match object.get(name) {
        Some(value) => texts(alloc, value),
        None => Ok(None),
    }
}

// The expressions of texts, one or more.
#[tactic(auto, using(rnv_pattern::proofs::Turns::asks_none))]
fn expressions<E: Builder>(
    alloc: Global,
    engines: &mut E,
    texts: Option<List<Text>>,
) -> Result<List<Pattern>, Wrong>
    ensures asks { Asks (E.refused engines.old) (E.took engines.old) (E.others engines.old) (E.refused engines.new) (E.took engines.new) (E.others engines.new) }
    ensures built { IfOk result AreWhole }
    ensures tells { (wrong : Items ℕ → Bool) → Agrees wrong (E.refused engines.old) (E.took engines.old) (E.refused engines.new) (E.took engines.new) → Gives texts_built result (expressions_if wrong texts) }
{
    let Some(texts) = texts else {
        return Err(Wrong::BadValue);
    };
    if texts.is_empty() {
        return Err(Wrong::BadValue);
    }
    expression_list(alloc, engines, texts.as_slice())
}

// Whether it says that it is a custom manager of expressions.
fn is_regex(object: &Value) -> bool
    ensures { result ≡ is_regex (option_and_then as_str (get (codes "customType") (view object.now))) }
{
    let Some(value) = object.get("customType") else {
        return false;
    };
    match value.as_str() {
        Some(text) => text == "regex",
        None => false,
    }
}

// Where releases are listed, by its name.
fn source_named(text: &str) -> Option<SourceKind>
    ensures { result ≡ source_named text.now }
{
    if text == "crate" {
        Some(SourceKind::Crates)
    } else if text == "npm" {
        Some(SourceKind::Npm)
    } else if text == "docker" {
        Some(SourceKind::Docker)
    } else {
        None
    }
}

// Where releases are listed, None where that is not set.
fn source_at(object: &Value) -> Result<Option<SourceKind>, Wrong>
    ensures { Gives (λ source. source) result (source_at (get (codes "datasourceTemplate") (view object.now))) }
{
    let Some(value) = object.get("datasourceTemplate") else {
        return Ok(None);
    };
    let Some(text) = value.as_str() else {
        return Err(Wrong::BadValue);
    };
    match source_named(text) {
        Some(source) => Ok(Some(source)),
        None => Err(Wrong::BadValue),
    }
}

// The name of each dependency, None where that is not set.
fn name_at(alloc: Global, object: &Value) -> Result<Option<Text>, Wrong>
    ensures { Gives (λ name. name) result (name_at (get (codes "depNameTemplate") (view object.now))) }
{
    let Some(value) = object.get("depNameTemplate") else {
        return Ok(None);
    };
    match value.as_str() {
        Some(text) => Ok(Some(Text::copied(alloc, text)?)),
        None => Err(Wrong::BadValue),
    }
}

// One custom manager, with these texts.
#[tactic(auto, using(rnv_pattern::proofs::Turns::asks_none))]
fn custom_with<E: Builder>(
    alloc: Global,
    engines: &mut E,
    object: &Value,
    files: Option<List<Text>>,
    strings: Option<List<Text>>,
) -> Result<Custom, Wrong>
    ensures asks { Asks (E.refused engines.old) (E.took engines.old) (E.others engines.old) (E.refused engines.new) (E.took engines.new) (E.others engines.new) }
    ensures built { IfOk result IsCustomBuilt }
    ensures tells { (wrong : Items ℕ → Bool) → Agrees wrong (E.refused engines.old) (E.took engines.old) (E.refused engines.new) (E.took engines.new) → Gives told_custom result (custom_with (expressions_if wrong files) (expressions_if wrong strings) (source_at (get (codes "datasourceTemplate") (view object.now))) (name_at (get (codes "depNameTemplate") (view object.now)))) }
{
    let source = source_at(object)?;
    let name = name_at(alloc, object)?;
    let files = match expressions(alloc, engines, files) {
        Ok(files) => files,
        Err(wrong) => return Err(wrong),
    };
    match expressions(alloc, engines, strings) {
        Ok(strings) => Ok(Custom {
            files,
            strings,
            source,
            name,
        }),
        Err(wrong) => Err(wrong),
    }
}

// One custom manager.
#[tactic(auto, using(rnv_pattern::proofs::Turns::asks_none))]
fn custom<E: Builder>(alloc: Global, engines: &mut E, object: &Value) -> Result<Custom, Wrong>
    ensures asks { Asks (E.refused engines.old) (E.took engines.old) (E.others engines.old) (E.refused engines.new) (E.took engines.new) (E.others engines.new) }
    ensures built { IfOk result IsCustomBuilt }
    ensures tells { (wrong : Items ℕ → Bool) → Agrees wrong (E.refused engines.old) (E.took engines.old) (E.refused engines.new) (E.took engines.new) → Gives told_custom result (custom_of wrong (view object.now)) }
{
    if !is_regex(object) {
        return Err(Wrong::BadValue);
    }
    let files = texts_of(alloc, object, "fileMatch")?;
    let strings = texts_of(alloc, object, "matchStrings")?;
    custom_with(alloc, engines, object, files, strings)
}

/// Whether each item is an object.
pub fn are_objects(items: &[Value]) -> bool
    ensures { result ≡ are_objects (items_view items.now) }
{
    let mut left = items;
    while let [item, rest @ ..] = left {
        if !item.is_object() {
            return false;
        }
        left = rest;
    }
    true
}

// Adds a custom manager.
#[tactic(auto, using(rnv_pattern::proofs::Turns::asks_none))]
fn add_custom<E: Builder>(
    alloc: Global,
    engines: &mut E,
    object: &Value,
    list: &mut List<Custom>,
) -> Result<(), Wrong>
    ensures asks { Asks (E.refused engines.old) (E.took engines.old) (E.others engines.old) (E.refused engines.new) (E.took engines.new) (E.others engines.new) }
    ensures tells { (wrong : Items ℕ → Bool) → Agrees wrong (E.refused engines.old) (E.took engines.old) (E.refused engines.new) (E.took engines.new) → AddsCustom result list.old list.new (custom_of wrong (view object.now)) }
    ensures built { OnOk result (IsOneMore IsCustomBuilt list.old list.new) }
{
    match custom(alloc, engines, object) {
        Ok(one) => Ok(list.push(one)?),
        Err(wrong) => Err(wrong),
    }
}

// The custom managers of a list of objects.
#[tactic(auto, using(rnv_pattern::proofs::Turns::asks_none))]
fn customs_in<E: Builder>(
    alloc: Global,
    engines: &mut E,
    items: &[Value],
) -> Result<List<Custom>, Wrong>
    ensures asks { Asks (E.refused engines.old) (E.took engines.old) (E.others engines.old) (E.refused engines.new) (E.took engines.new) (E.others engines.new) }
    ensures built { IfOk result (Each IsCustomBuilt) }
    ensures tells { (wrong : Items ℕ → Bool) → Agrees wrong (E.refused engines.old) (E.took engines.old) (E.refused engines.new) (E.took engines.new) → Tells (map told_custom) result (customs_in wrong (items_view items.now)) }
{
    let mut list = List::empty(alloc);
    for item in items {
        match add_custom(alloc, engines, item, &mut list) {
            Ok(()) => {}
            Err(wrong) => return Err(wrong),
        }
    }
    Ok(list)
}

/// Custom managers, from JSON: a list of objects, and none for `null`. `WrongKind` exactly for JSON of
/// another kind, `BadValue` exactly where a member of one is wrong. An expression that the engines refused
/// in this call is wrong.
#[tactic(auto, using(rnv_pattern::proofs::Turns::asks_none))]
pub fn customs<E: Builder>(
    alloc: Global,
    engines: &mut E,
    value: &Value,
) -> Result<List<Custom>, Wrong>
    ensures asks { Asks (E.refused engines.old) (E.took engines.old) (E.others engines.old) (E.refused engines.new) (E.took engines.new) (E.others engines.new) }
    ensures built { IfOk result (Each IsCustomBuilt) }
    ensures tells { (wrong : Items ℕ → Bool) → Agrees wrong (E.refused engines.old) (E.took engines.old) (E.refused engines.new) (E.took engines.new) → Tells (map told_custom) result (customs_of wrong (view value.now)) }
{
    if value.is_null() {
        return Ok(List::empty(alloc));
    }
    let Some(items) = value.as_array() else {
        return Err(Wrong::WrongKind);
    };
    if !are_objects(items.as_slice()) {
        return Err(Wrong::WrongKind);
    }
    customs_in(alloc, engines, items.as_slice())
}
