ghost use Rattle.std.specs.Prelude.{◌≡◌, codes, map, IfOk, OnOk};
ghost use Rattle.serde_json.specs.Data.{array, no_members, put, string};
ghost use Rattle.serde_json.specs.View.{items_of, members_view, view};
ghost use Rattle.rnv_options.specs.Customs.{texts_built, told_custom};
ghost use Rattle.rnv_options.specs.Matchers.{told_matcher};
ghost use Rattle.rnv_options.specs.Readings.{told, told_rule_setting};
ghost use Rattle.rnv_config.specs.Settings.{told_rule, told_setting, told_value};
ghost use Rattle.rnv_config.specs.Texts.{config_text, one_shown, put_source, put_text, put_texts, shown, shown_custom, shown_rule, shown_tasks, shown_texts, shown_value, source_name, strings, with_matchers, with_sets, with_settings};

use crate::Config;
use rnv_base::{List, SourceKind, Text};
use rnv_options::{
    Allowed, Custom, MatchKind, Matcher, OptValue, Plain, Rule, RuleSetting, Setting, TaskOptions,
};
use rnv_pattern::Pattern;
use serde_json::{Map, Value};
use std::alloc::{AllocError, Global};
use std::convert::{AsSlice, AsStr};

// A text as JSON.
fn string(alloc: Global, text: &str) -> Result<Value, AllocError>
    ensures { IfOk result (λ value. view value ≡ string text.now) }
{
    Ok(Value::String(String::from_str(alloc, text)?))
}

// Texts as a JSON list.
fn strings(alloc: Global, texts: &[Text]) -> Result<Value, AllocError>
    ensures { IfOk result (λ value. view value ≡ strings texts.now) }
{
    let mut items = Vec::new(alloc);
    let mut left = texts;
    while let [text, rest @ ..] = left {
        items.push(string(alloc, text.as_str())?)?;
        left = rest;
    }
    Ok(Value::Array(items))
}

// The texts of patterns as a JSON list.
fn pattern_strings(alloc: Global, patterns: &[Pattern]) -> Result<Value, AllocError>
    ensures { IfOk result (λ value. view value ≡ strings (texts_built patterns.now)) }
{
    let mut items = Vec::new(alloc);
    let mut left = patterns;
    while let [pattern, rest @ ..] = left {
        items.push(string(alloc, pattern.text())?)?;
        left = rest;
    }
    Ok(Value::Array(items))
}

// Puts a value at a name.
fn put(
    alloc: Global,
    members: &mut Map<String, Value>,
    name: &str,
    value: Value,
) -> Result<(), AllocError>
    ensures { OnOk result (members_view members.new.entries ≡ put name.now (view value) (members_view members.old.entries)) }
{
    let name = String::from_str(alloc, name)?;
    members.insert(name, value)?;
    Ok(())
}

// Puts texts at a name, where they are set.
fn put_texts(
    alloc: Global,
    members: &mut Map<String, Value>,
    name: &str,
    texts: &Option<List<Text>>,
) -> Result<(), AllocError>
    ensures { OnOk result (members_view members.new.entries ≡ put_texts name.now texts.now (members_view members.old.entries)) }
{
    match texts {
        Some(texts) => put(alloc, members, name, strings(alloc, texts.as_slice())?),
        None => Ok(()),
    }
}

// Tasks as JSON.
fn shown_tasks(alloc: Global, tasks: &TaskOptions) -> Result<Value, AllocError>
    ensures { IfOk result (λ value. view value ≡ shown_tasks tasks.now.commands tasks.now.filters) }
{
    let mut members = Map::new(alloc);
    put_texts(alloc, &mut members, "commands", &tasks.commands)?;
    put_texts(alloc, &mut members, "fileFilters", &tasks.filters)?;
    Ok(Value::Object(members))
}

// A value as JSON.
fn shown(alloc: Global, value: &Plain) -> Result<Value, AllocError>
    ensures { IfOk result (λ json. view json ≡ shown (told value.now)) }
{
    match value {
        Plain::Flag(flag) => Ok(Value::Bool(*flag)),
        Plain::Number(number) => Ok(Value::from(*number)),
        Plain::Word(text) => string(alloc, text.as_str()),
        Plain::Nothing => Ok(Value::Null),
        Plain::Words(texts) => strings(alloc, texts.as_slice()),
        Plain::Patterns(patterns) => strings(alloc, patterns.texts.as_slice()),
        Plain::Allowed(Allowed::Patterns { text, .. }) => string(alloc, text.as_str()),
        Plain::Allowed(Allowed::Range { text }) => string(alloc, text.as_str()),
        Plain::Tasks(tasks) => shown_tasks(alloc, tasks),
    }
}

// The one text as JSON.
fn one_shown(alloc: Global, texts: &[Text]) -> Result<Value, AllocError>
    ensures { IfOk result (λ value. view value ≡ one_shown texts.now) }
{
    match texts {
        [text] => string(alloc, text.as_str()),
        _ => strings(alloc, texts),
    }
}

// The texts of a matcher as JSON.
fn shown_texts(alloc: Global, kind: MatchKind, texts: &[Text]) -> Result<Value, AllocError>
    ensures { IfOk result (λ value. view value ≡ shown_texts kind texts.now) }
{
    match kind {
        MatchKind::PatternTexts => strings(alloc, texts),
        MatchKind::OnePattern => one_shown(alloc, texts),
        MatchKind::Version => one_shown(alloc, texts),
        MatchKind::PlainTexts => strings(alloc, texts),
    }
}

// Puts matchers among the members of a rule.
fn put_matchers(
    alloc: Global,
    members: &mut Map<String, Value>,
    matchers: &[Matcher],
) -> Result<(), AllocError>
    ensures { OnOk result (members_view members.new.entries ≡ with_matchers (members_view members.old.entries) (map told_matcher matchers.now)) }
{
    let mut left = matchers;
    while let [matcher, rest @ ..] = left {
        let value = shown_texts(alloc, matcher.on.kind(), matcher.texts.as_slice())?;
        put(alloc, members, matcher.on.name(), value)?;
        left = rest;
    }
    Ok(())
}

// Puts what a rule sets among its members.
fn put_sets(
    alloc: Global,
    members: &mut Map<String, Value>,
    sets: &[RuleSetting],
) -> Result<(), AllocError>
    ensures { OnOk result (members_view members.new.entries ≡ with_sets (members_view members.old.entries) (map told_rule_setting sets.now)) }
{
    let mut left = sets;
    while let [set, rest @ ..] = left {
        let value = shown(alloc, &set.value)?;
        put(alloc, members, set.opt.name(), value)?;
        left = rest;
    }
    Ok(())
}

// A rule as JSON.
fn shown_rule(alloc: Global, rule: &Rule) -> Result<Value, AllocError>
    ensures { IfOk result (λ value. view value ≡ shown_rule (told_rule rule.now)) }
{
    let mut members = Map::new(alloc);
    put_matchers(alloc, &mut members, rule.matchers.as_slice())?;
    put_sets(alloc, &mut members, rule.sets.as_slice())?;
    Ok(Value::Object(members))
}

// The name of where releases are listed.
fn source_name(source: SourceKind) -> &'static str
    ensures { result.now ≡ source_name source }
{
    match source {
        SourceKind::Crates => "crate",
        SourceKind::Npm => "npm",
        SourceKind::Docker => "docker",
    }
}

// Puts where releases are listed, where that is set.
fn put_source(
    alloc: Global,
    members: &mut Map<String, Value>,
    source: Option<SourceKind>,
) -> Result<(), AllocError>
    ensures { OnOk result (members_view members.new.entries ≡ put_source source (members_view members.old.entries)) }
{
    match source {
        Some(source) => {
            let value = string(alloc, source_name(source))?;
            put(alloc, members, "datasourceTemplate", value)
        }
        None => Ok(()),
    }
}

// Puts a text at a name, where it is set.
fn put_text(
    alloc: Global,
    members: &mut Map<String, Value>,
    name: &str,
    text: &Option<Text>,
) -> Result<(), AllocError>
    ensures { OnOk result (members_view members.new.entries ≡ put_text name.now text.now (members_view members.old.entries)) }
{
    match text {
        Some(text) => put(alloc, members, name, string(alloc, text.as_str())?),
        None => Ok(()),
    }
}

// A custom manager as JSON.
fn shown_custom(alloc: Global, custom: &Custom) -> Result<Value, AllocError>
    ensures { IfOk result (λ value. view value ≡ shown_custom (told_custom custom.now)) }
{
    let mut members = Map::new(alloc);
    put(alloc, &mut members, "customType", string(alloc, "regex")?)?;
    let files = pattern_strings(alloc, custom.files.as_slice())?;
    put(alloc, &mut members, "fileMatch", files)?;
    let strings = pattern_strings(alloc, custom.strings.as_slice())?;
    put(alloc, &mut members, "matchStrings", strings)?;
    put_source(alloc, &mut members, custom.source)?;
    put_text(alloc, &mut members, "depNameTemplate", &custom.name)?;
    Ok(Value::Object(members))
}

// Rules as a JSON list.
fn shown_rules(alloc: Global, rules: &[Rule]) -> Result<Value, AllocError>
    ensures { IfOk result (λ value. view value ≡ array (items_of (map shown_rule (map told_rule rules.now)))) }
{
    let mut items = Vec::new(alloc);
    let mut left = rules;
    while let [rule, rest @ ..] = left {
        items.push(shown_rule(alloc, rule)?)?;
        left = rest;
    }
    Ok(Value::Array(items))
}

// Custom managers as a JSON list.
fn shown_customs(alloc: Global, customs: &[Custom]) -> Result<Value, AllocError>
    ensures { IfOk result (λ value. view value ≡ array (items_of (map shown_custom (map told_custom customs.now)))) }
{
    let mut items = Vec::new(alloc);
    let mut left = customs;
    while let [custom, rest @ ..] = left {
        items.push(shown_custom(alloc, custom)?)?;
        left = rest;
    }
    Ok(Value::Array(items))
}

// The value of an option as JSON.
fn shown_value(alloc: Global, value: &OptValue) -> Result<Value, AllocError>
    ensures { IfOk result (λ json. view json ≡ shown_value (told_value value.now)) }
{
    match value {
        OptValue::Plain(value) => shown(alloc, value),
        OptValue::Rules(rules) => shown_rules(alloc, rules.as_slice()),
        OptValue::Customs(customs) => shown_customs(alloc, customs.as_slice()),
    }
}

// The settings as the members of an object.
fn members(alloc: Global, settings: &[Setting]) -> Result<Map<String, Value>, AllocError>
    ensures { IfOk result (λ m. members_view m.entries ≡ with_settings no_members (map told_setting settings.now)) }
{
    let mut members = Map::new(alloc);
    let mut left = settings;
    while let [setting, rest @ ..] = left {
        let value = shown_value(alloc, &setting.value)?;
        put(alloc, &mut members, setting.opt.name(), value)?;
        left = rest;
    }
    Ok(members)
}

impl Config {
    /// One compact JSON object (RFC 8259) of what is set, names in order at every level. A value is as it
    /// was read, one text of a list of texts as a list of one. Only memory can fail.
    pub fn text(&self, alloc: Global) -> Result<Text, AllocError>
        ensures { IfOk result (λ text. text ≡ config_text (map told_setting self.now.settings)) }
    {
        let value = Value::Object(members(alloc, self.settings.as_slice())?);
        Ok(Text::new(value.to_string(alloc)?))
    }
}
