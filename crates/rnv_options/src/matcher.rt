ghost use Rattle.std.specs.Prelude.{◌≡◌, ℕ, Bool, List as Items, ◌∷◌, [], true, IfOk};
ghost use Rattle.std.specs.List.{filter, list_all};
ghost use Rattle.serde_json.specs.Find.{as_str};
ghost use Rattle.serde_json.specs.View.{view};
ghost use Rattle.rnv_pattern.specs.Meaning.{is_pattern};
ghost use Rattle.rnv_pattern.specs.Patterns.{ArePatterns};
ghost use Rattle.rnv_pattern.specs.Turns.{Agrees, Asks};
ghost use Rattle.rnv_options.specs.Readings.{Tells, checked, texts_of};
ghost use Rattle.rnv_options.specs.Matchers.{IsMatcherBuilt, is_expression_text, is_version_match, match_kind, match_name, match_named, match_texts, matcher_of, one_text, pattern_texts, same_texts, told_matcher};

use crate::reading::{one_pattern, pattern_list, texts};
use crate::{Patterns, Wrong};
use rnv_base::{List, Share, Text};
use rnv_pattern::{Builder, PatternList, is_expression};
use serde_json::Value;
use std::alloc::{AllocError, Global};
use std::convert::AsSlice;

/// What a matcher of a rule looks at, in the order of names.
#[derive(Clone, Copy, Debug, PartialEq, Eq)]
pub enum MatchOn {
    CurrentValue,
    CurrentVersion,
    Datasources,
    DepNames,
    DepTypes,
    FileNames,
    Managers,
    NewValue,
    PackageNames,
    UpdateTypes,
}

/// What the value of a matcher is.
#[derive(Clone, Copy, Debug, PartialEq, Eq)]
pub enum MatchKind {
    /// Texts that are patterns.
    PatternTexts,
    /// One text that is a pattern.
    OnePattern,
    /// One text: a pattern where it is an expression between slashes, else a range.
    Version,
    /// Texts.
    PlainTexts,
}

/// A matcher of a rule. The list has no pattern where the texts are none.
#[derive(Drop)]
pub struct Matcher {
    pub on: MatchOn,
    pub texts: List<Text>,
    pub list: PatternList,
}

impl Share for Matcher {
    fn share(&self, alloc: Global) -> Result<Matcher, AllocError> {
        Ok(Matcher {
            on: self.on,
            texts: self.texts.share(alloc)?,
            list: self.list.share(alloc)?,
        })
    }
}

/// All matchers, in the order of their names.
const MATCHERS: [MatchOn; 10] = [
    MatchOn::CurrentValue,
    MatchOn::CurrentVersion,
    MatchOn::Datasources,
    MatchOn::DepNames,
    MatchOn::DepTypes,
    MatchOn::FileNames,
    MatchOn::Managers,
    MatchOn::NewValue,
    MatchOn::PackageNames,
    MatchOn::UpdateTypes,
];

impl MatchOn {
    // Its row.
    fn row(self) -> (&'static str, MatchKind)
        ensures name { result.0.now ≡ match_name self }
        ensures kind { result.1 ≡ match_kind self }
    {
        match self {
            MatchOn::CurrentValue => ("matchCurrentValue", MatchKind::OnePattern),
            MatchOn::CurrentVersion => ("matchCurrentVersion", MatchKind::Version),
            MatchOn::Datasources => ("matchDatasources", MatchKind::PatternTexts),
            MatchOn::DepNames => ("matchDepNames", MatchKind::PatternTexts),
            MatchOn::DepTypes => ("matchDepTypes", MatchKind::PatternTexts),
            MatchOn::FileNames => ("matchFileNames", MatchKind::PatternTexts),
            MatchOn::Managers => ("matchManagers", MatchKind::PatternTexts),
            MatchOn::NewValue => ("matchNewValue", MatchKind::OnePattern),
            MatchOn::PackageNames => ("matchPackageNames", MatchKind::PatternTexts),
            MatchOn::UpdateTypes => ("matchUpdateTypes", MatchKind::PlainTexts),
        }
    }

    /// Its name.
    pub fn name(self) -> &'static str
        ensures { result.now ≡ match_name self }
    {
        self.row().0
    }

    /// What its value is.
    pub fn kind(self) -> MatchKind
        ensures { result ≡ match_kind self }
    {
        self.row().1
    }

    /// The matcher of this name.
    pub fn named(name: &str) -> Option<MatchOn>
        ensures { result ≡ match_named name.now }
    {
        let mut left: &[MatchOn] = &MATCHERS;
        while let [on, rest @ ..] = left {
            if name == on.name() {
                return Some(*on);
            }
            left = rest;
        }
        None
    }
}

// One text as a list.
fn one(alloc: Global, text: &str) -> Result<List<Text>, AllocError>
    ensures { IfOk result (λ texts. texts ≡ one_text text.now) }
{
    let mut texts = List::empty(alloc);
    texts.push(Text::copied(alloc, text)?)?;
    Ok(texts)
}

// Texts that are patterns.
#[tactic(auto, using(rnv_pattern::proofs::Turns::asks_none))]
fn pattern_texts<E: Builder>(
    alloc: Global,
    engines: &mut E,
    value: &Value,
) -> Result<Patterns, Wrong>
    ensures asks { Asks (E.refused engines.old) (E.took engines.old) (E.others engines.old) (E.refused engines.new) (E.took engines.new) (E.others engines.new) }
    ensures built { IfOk result (λ p. ArePatterns p.texts p.list) }
    ensures tells { (wrong : Items ℕ → Bool) → Agrees wrong (E.refused engines.old) (E.took engines.old) (E.refused engines.new) (E.took engines.new) → Tells (λ p. p.texts) result (checked (list_all (is_pattern wrong)) same_texts (texts_of (view value.now))) }
{
    let Some(texts) = texts(alloc, value)? else {
        return Err(Wrong::WrongKind);
    };
    match pattern_list(alloc, engines, texts.as_slice()) {
        Ok(list) => Ok(Patterns { texts, list }),
        Err(wrong) => Err(wrong),
    }
}

// One text that is a pattern.
#[tactic(auto, using(rnv_pattern::proofs::Turns::asks_none))]
fn pattern_text<E: Builder>(
    alloc: Global,
    engines: &mut E,
    value: &Value,
) -> Result<Patterns, Wrong>
    ensures asks { Asks (E.refused engines.old) (E.took engines.old) (E.others engines.old) (E.refused engines.new) (E.took engines.new) (E.others engines.new) }
    ensures built { IfOk result (λ p. ArePatterns p.texts p.list) }
    ensures tells { (wrong : Items ℕ → Bool) → Agrees wrong (E.refused engines.old) (E.took engines.old) (E.refused engines.new) (E.took engines.new) → Tells (λ p. p.texts) result (checked (is_pattern wrong) one_text (as_str (view value.now))) }
{
    let Some(text) = value.as_str() else {
        return Err(Wrong::WrongKind);
    };
    let texts = one(alloc, text)?;
    match one_pattern(alloc, engines, text) {
        Ok(list) => Ok(Patterns { texts, list }),
        Err(wrong) => Err(wrong),
    }
}

// A pattern or a range.
#[tactic(auto, using(rnv_pattern::proofs::Turns::asks_none))]
fn version<E: Builder>(alloc: Global, engines: &mut E, value: &Value) -> Result<Patterns, Wrong>
    ensures asks { Asks (E.refused engines.old) (E.took engines.old) (E.others engines.old) (E.refused engines.new) (E.took engines.new) (E.others engines.new) }
    ensures built { IfOk result (λ p. ArePatterns (filter is_expression_text p.texts) p.list) }
    ensures tells { (wrong : Items ℕ → Bool) → Agrees wrong (E.refused engines.old) (E.took engines.old) (E.refused engines.new) (E.took engines.new) → Tells (λ p. p.texts) result (checked (is_version_match wrong) one_text (as_str (view value.now))) }
{
    let Some(text) = value.as_str() else {
        return Err(Wrong::WrongKind);
    };
    let texts = one(alloc, text)?;
    if !is_expression(text) {
        return Ok(Patterns {
            texts,
            list: PatternList::empty(alloc),
        });
    }
    match one_pattern(alloc, engines, text) {
        Ok(list) => Ok(Patterns { texts, list }),
        Err(wrong) => Err(wrong),
    }
}

// Texts that are no patterns.
fn plain_texts(alloc: Global, value: &Value) -> Result<Patterns, Wrong>
    ensures built { IfOk result (λ p. p.list ≡ []) }
    ensures tells { Tells (λ p. p.texts) result (checked (λ _. true) same_texts (texts_of (view value.now))) }
{
    match texts(alloc, value)? {
        Some(texts) => Ok(Patterns {
            texts,
            list: PatternList::empty(alloc),
        }),
        None => Err(Wrong::WrongKind),
    }
}

// The texts of a matcher of this kind, and the patterns that they are.
#[tactic(auto, using(rnv_pattern::proofs::Turns::asks_none))]
fn match_texts<E: Builder>(
    alloc: Global,
    engines: &mut E,
    kind: MatchKind,
    value: &Value,
) -> Result<Patterns, Wrong>
    ensures asks { Asks (E.refused engines.old) (E.took engines.old) (E.others engines.old) (E.refused engines.new) (E.took engines.new) (E.others engines.new) }
    ensures built { IfOk result (λ p. ArePatterns (pattern_texts kind p.texts) p.list) }
    ensures tells { (wrong : Items ℕ → Bool) → Agrees wrong (E.refused engines.old) (E.took engines.old) (E.refused engines.new) (E.took engines.new) → Tells (λ p. p.texts) result (match_texts wrong kind (view value.now)) }
{
    match kind {
        MatchKind::PatternTexts => pattern_texts(alloc, engines, value),
        MatchKind::OnePattern => pattern_text(alloc, engines, value),
        MatchKind::Version => version(alloc, engines, value),
        MatchKind::PlainTexts => plain_texts(alloc, value),
    }
}

/// A matcher, from JSON that is not `null`. `WrongKind` exactly for JSON of another kind, `BadValue`
/// exactly for a text that has to be a pattern and is none. A text whose expression the engines refused
/// in this call is none.
#[tactic(auto, using(rnv_pattern::proofs::Turns::asks_none))]
pub fn read_matcher<E: Builder>(
    alloc: Global,
    engines: &mut E,
    on: MatchOn,
    value: &Value,
) -> Result<Matcher, Wrong>
    ensures asks { Asks (E.refused engines.old) (E.took engines.old) (E.others engines.old) (E.refused engines.new) (E.took engines.new) (E.others engines.new) }
    ensures built { IfOk result IsMatcherBuilt }
    ensures tells { (wrong : Items ℕ → Bool) → Agrees wrong (E.refused engines.old) (E.took engines.old) (E.refused engines.new) (E.took engines.new) → Tells told_matcher result (matcher_of wrong on (view value.now)) }
{
    match match_texts(alloc, engines, on.kind(), value) {
        Ok(Patterns { texts, list }) => Ok(Matcher { on, texts, list }),
        Err(wrong) => Err(wrong),
    }
}
