ghost use Rattle.std.specs.Prelude.{◌≡◌, ℕ, Bool, List as Items, [], ◌∷◌, ◌&&◌, IfOk, int_le, option_and_then, true};
ghost use Rattle.std.specs.List.{list_all};
ghost use Rattle.serde_json.specs.Find.{as_bool, as_i64, as_number, as_str};
ghost use Rattle.serde_json.specs.View.{items_view, view};
ghost use Rattle.rnv_pattern.specs.Meaning.{is_pattern};
ghost use Rattle.rnv_pattern.specs.Patterns.{ArePatterns, rule_text};
ghost use Rattle.rnv_pattern.specs.Turns.{Agrees, Asks};
ghost use Rattle.rnv_options.specs.Fits.{fits};
ghost use Rattle.rnv_options.specs.Readings.{IsBuilt, Tells, TellsTest, allowed, begins_slash, checked, figure, flag, is_allowed, patterns, value_of, null_of, plain_of, texts_in, texts_of, told, word, words};

use crate::fits::{all_fit, fits};
use crate::tasks::tasks;
use crate::{Allowed, Patterns, Plain, TaskOptions, Texts, Values, Wrong};
use rnv_base::{List, Text};
use rnv_pattern::{Builder, PatternError, PatternList};
use serde_json::Value;
use std::alloc::{AllocError, Global};
use std::convert::{AsSlice, AsStr};

// A value of true or false.
fn flag(value: &Value) -> Result<Plain, Wrong>
    ensures tells { Tells told result (checked (λ _. true) flag (as_bool (view value.now))) }
    ensures built { IfOk result IsBuilt }
{
    match value.as_bool() {
        Some(flag) => Ok(Plain::Flag(flag)),
        None => Err(Wrong::WrongKind),
    }
}

// A number from the least to the greatest.
fn number(value: &Value, least: i64, greatest: i64) -> Result<Plain, Wrong>
    ensures tells { Tells told result (checked (λ z. int_le least z && int_le z greatest) figure (option_and_then as_i64 (as_number (view value.now)))) }
    ensures built { IfOk result IsBuilt }
{
    let Some(number) = value.as_i64() else {
        return Err(Wrong::WrongKind);
    };
    if least <= number && number <= greatest {
        Ok(Plain::Number(number))
    } else {
        Err(Wrong::BadValue)
    }
}

// One of these texts.
fn word(alloc: Global, value: &Value, of: Texts) -> Result<Plain, Wrong>
    ensures tells { Tells told result (checked (fits of) word (as_str (view value.now))) }
    ensures built { IfOk result IsBuilt }
{
    let Some(text) = value.as_str() else {
        return Err(Wrong::WrongKind);
    };
    if fits(alloc, of, text)? {
        Ok(Plain::Word(Text::copied(alloc, text)?))
    } else {
        Err(Wrong::BadValue)
    }
}

// The texts of a list, None where something else is in it.
fn texts_in(alloc: Global, items: &[Value]) -> Result<Option<List<Text>>, AllocError>
    ensures { IfOk result (λ texts. texts ≡ texts_in (items_view items.now)) }
{
    let mut texts = List::empty(alloc);
    let mut left = items;
    while let [item, rest @ ..] = left {
        let Some(text) = item.as_str() else {
            return Ok(None);
        };
        texts.push(Text::copied(alloc, text)?)?;
        left = rest;
    }
    Ok(Some(texts))
}

/// One text as a list of one, or the texts of a list, None where something else is in it. Only memory
/// can fail.
pub fn texts(alloc: Global, value: &Value) -> Result<Option<List<Text>>, AllocError>
    ensures { IfOk result (λ texts. texts ≡ texts_of (view value.now)) }
{
    if let Some(text) = value.as_str() {
        let mut texts = List::empty(alloc);
        texts.push(Text::copied(alloc, text)?)?;
        return Ok(Some(texts));
    }
    match value.as_array() {
        Some(items) => texts_in(alloc, items.as_slice()),
        None => Ok(None),
    }
}

// A list of these texts.
fn words(alloc: Global, value: &Value, of: Texts) -> Result<Plain, Wrong>
    ensures tells { Tells told result (checked (list_all (fits of)) words (texts_of (view value.now))) }
    ensures built { IfOk result IsBuilt }
{
    let Some(texts) = texts(alloc, value)? else {
        return Err(Wrong::WrongKind);
    };
    if all_fit(alloc, of, texts.as_slice())? {
        Ok(Plain::Words(texts))
    } else {
        Err(Wrong::BadValue)
    }
}

// The patterns of the texts.
pub fn pattern_list<E: Builder>(
    alloc: Global,
    engines: &mut E,
    texts: &[Text],
) -> Result<PatternList, Wrong>
    ensures asks { Asks (E.refused engines.old) (E.took engines.old) (E.others engines.old) (E.refused engines.new) (E.took engines.new) (E.others engines.new) }
    ensures read { IfOk result (λ list. ArePatterns texts.now list) }
    ensures tells { (wrong : Items ℕ → Bool) → Agrees wrong (E.refused engines.old) (E.took engines.old) (E.refused engines.new) (E.took engines.new) → TellsTest result (list_all (is_pattern wrong) texts.now) }
{
    match PatternList::read(alloc, engines, texts) {
        Ok(list) => Ok(list),
        Err(PatternError::Memory) => Err(Wrong::Memory),
        Err(PatternError::BadGlob) => Err(Wrong::BadValue),
        Err(PatternError::BadExpression) => Err(Wrong::BadValue),
    }
}

// Texts that are patterns.
#[tactic(auto, using(rnv_pattern::proofs::Turns::asks_none))]
fn patterns<E: Builder>(alloc: Global, engines: &mut E, value: &Value) -> Result<Plain, Wrong>
    ensures asks { Asks (E.refused engines.old) (E.took engines.old) (E.others engines.old) (E.refused engines.new) (E.took engines.new) (E.others engines.new) }
    ensures built { IfOk result IsBuilt }
    ensures tells { (wrong : Items ℕ → Bool) → Agrees wrong (E.refused engines.old) (E.took engines.old) (E.refused engines.new) (E.took engines.new) → Tells told result (checked (list_all (is_pattern wrong)) patterns (texts_of (view value.now))) }
{
    let Some(texts) = texts(alloc, value)? else {
        return Err(Wrong::WrongKind);
    };
    match pattern_list(alloc, engines, texts.as_slice()) {
        Ok(list) => Ok(Plain::Patterns(Patterns { texts, list })),
        Err(wrong) => Err(wrong),
    }
}

// Whether the text begins with `/` or `!/`.
pub fn begins_slash(text: &str) -> bool
    ensures { result ≡ begins_slash (rule_text text.now) }
{
    match text.as_bytes() {
        [b'!', rest @ ..] => starts_slash(rest),
        bytes => starts_slash(bytes),
    }
}

fn starts_slash(bytes: &[u8]) -> bool
    ensures { result ≡ begins_slash bytes.now }
{
    match bytes {
        [b, ..] => *b == b'/',
        [] => false,
    }
}

// The one pattern of a text.
#[tactic(auto, using(rnv_pattern::proofs::Turns::asks_none))]
pub fn one_pattern<E: Builder>(
    alloc: Global,
    engines: &mut E,
    text: &str,
) -> Result<PatternList, Wrong>
    ensures asks { Asks (E.refused engines.old) (E.took engines.old) (E.others engines.old) (E.refused engines.new) (E.took engines.new) (E.others engines.new) }
    ensures read { IfOk result (λ list. ArePatterns (text.now ∷ []) list) }
    ensures tells { (wrong : Items ℕ → Bool) → Agrees wrong (E.refused engines.old) (E.took engines.old) (E.refused engines.new) (E.took engines.new) → TellsTest result (is_pattern wrong text.now) }
{
    let mut texts = List::empty(alloc);
    texts.push(Text::copied(alloc, text)?)?;
    pattern_list(alloc, engines, texts.as_slice())
}

// A pattern or a range.
#[tactic(auto, using(rnv_pattern::proofs::Turns::asks_none))]
fn allowed<E: Builder>(alloc: Global, engines: &mut E, value: &Value) -> Result<Plain, Wrong>
    ensures asks { Asks (E.refused engines.old) (E.took engines.old) (E.others engines.old) (E.refused engines.new) (E.took engines.new) (E.others engines.new) }
    ensures built { IfOk result IsBuilt }
    ensures tells { (wrong : Items ℕ → Bool) → Agrees wrong (E.refused engines.old) (E.took engines.old) (E.refused engines.new) (E.took engines.new) → Tells told result (checked (is_allowed wrong) allowed (as_str (view value.now))) }
{
    let Some(text) = value.as_str() else {
        return Err(Wrong::WrongKind);
    };
    let copy = Text::copied(alloc, text)?;
    if !begins_slash(text) {
        return Ok(Plain::Allowed(Allowed::Range { text: copy }));
    }
    match one_pattern(alloc, engines, text) {
        Ok(list) => Ok(Plain::Allowed(Allowed::Patterns { text: copy, list })),
        Err(wrong) => Err(wrong),
    }
}

// What `null` sets.
fn null(alloc: Global, values: Values) -> Plain
    ensures told { told result ≡ null_of values }
    ensures built { IsBuilt result }
{
    match values {
        Values::Words { joined: true, .. } => Plain::Words(List::empty(alloc)),
        Values::Tasks => Plain::Tasks(TaskOptions {
            commands: Some(List::empty(alloc)),
            filters: Some(List::empty(alloc)),
            list: PatternList::empty(alloc),
        }),
        _ => Plain::Nothing,
    }
}

// A value that is not `null`.
#[tactic(auto, using(rnv_pattern::proofs::Turns::asks_none))]
fn value<E: Builder>(
    alloc: Global,
    engines: &mut E,
    values: Values,
    value: &Value,
) -> Result<Plain, Wrong>
    ensures asks { Asks (E.refused engines.old) (E.took engines.old) (E.others engines.old) (E.refused engines.new) (E.took engines.new) (E.others engines.new) }
    ensures built { IfOk result IsBuilt }
    ensures tells { (wrong : Items ℕ → Bool) → Agrees wrong (E.refused engines.old) (E.took engines.old) (E.refused engines.new) (E.took engines.new) → Tells told result (value_of wrong values (view value.now)) }
{
    match values {
        Values::Flag => flag(value),
        Values::Number { least, greatest } => number(value, least, greatest),
        Values::Word(of) => word(alloc, value, of),
        Values::Words { of, .. } => words(alloc, value, of),
        Values::Patterns => patterns(alloc, engines, value),
        Values::Allowed => allowed(alloc, engines, value),
        Values::Tasks => tasks(alloc, engines, value),
    }
}

/// The value of an option that takes these values, from JSON (RFC 8259, as `serde_json` reads it).
/// `WrongKind` exactly for JSON of another kind, `BadValue` exactly for what is not among the values. A
/// text whose expression the engines refused in this call is not among them.
#[tactic(auto, using(rnv_pattern::proofs::Turns::asks_none))]
pub fn read_plain<E: Builder>(
    alloc: Global,
    engines: &mut E,
    values: Values,
    json: &Value,
) -> Result<Plain, Wrong>
    ensures asks { Asks (E.refused engines.old) (E.took engines.old) (E.others engines.old) (E.refused engines.new) (E.took engines.new) (E.others engines.new) }
    ensures built { IfOk result IsBuilt }
    ensures tells { (wrong : Items ℕ → Bool) → Agrees wrong (E.refused engines.old) (E.took engines.old) (E.refused engines.new) (E.took engines.new) → Tells told result (plain_of wrong values (view json.now)) }
{
    if json.is_null() {
        return Ok(null(alloc, values));
    }
    value(alloc, engines, values, json)
}
