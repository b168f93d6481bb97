ghost use Rattle.std.specs.Prelude.{◌≡◌, ℕ, Bool, List as Items, [], map, IfOk, option_map};
ghost use Rattle.serde_json.specs.Find.{as_object};
ghost use Rattle.serde_json.specs.View.{members_view, view};
ghost use Rattle.rnv_pattern.specs.Turns.{Agrees, Asks};
ghost use Rattle.rnv_options.specs.Customs.{IsCustomBuilt, customs_of, told_custom};
ghost use Rattle.rnv_options.specs.Readings.{Each, IsBuilt, Tells, plain_of, told};
ghost use Rattle.rnv_options.specs.Table.{opt_named};
ghost use Rattle.rnv_config.specs.Configs.{AreBuilt, TellsConfig, customs_read, extended, ignoring, json_of, list_of, member_read, members_read, object_read, option_read, plain_read, read_as, reading_of, rules_read, settled, told_read, value_read, warned};
ghost use Rattle.rnv_config.specs.Members.{result_map};
ghost use Rattle.rnv_config.specs.Roles.{role_of, unknown_option};
ghost use Rattle.rnv_config.specs.Rules.{AreRulesBuilt, rules_of};
ghost use Rattle.rnv_config.specs.Settings.{customs, plain, rules, told_rule};

use crate::error::error_of;
use crate::role::{Role, role_of, unknown_option};
use crate::rules::{ReadRules, rules};
use crate::{Config, ConfigError, ReadConfig};
use rnv_base::{List, Text};
use rnv_options::{Custom, Kind, Opt, OptValue, Plain, Values, Wrong, customs, read_plain, texts};
use rnv_pattern::Builder;
use serde_json::{Map, Value};
use std::alloc::{AllocError, Global};
use std::convert::AsStr;

// Texts, none for `null`.
fn list_of(alloc: Global, value: &Value) -> Result<List<Text>, Wrong>
    ensures { Tells (λ texts. texts) result (list_of (view value.now)) }
{
    if value.is_null() {
        return Ok(List::empty(alloc));
    }
    match texts(alloc, value)? {
        Some(texts) => Ok(texts),
        None => Err(Wrong::WrongKind),
    }
}

// A warning of an unknown name, alone.
fn unknown(alloc: Global, name: &str) -> Result<ReadConfig, AllocError>
    ensures told { IfOk result (λ read. told_read read ≡ warned (unknown_option name.now)) }
    ensures built { IfOk result AreBuilt }
{
    ReadConfig::warned(alloc, unknown_option(alloc, name)?)
}

// An option that is set to a value, alone.
fn plain_setting(alloc: Global, opt: Opt, value: Plain) -> Result<ReadConfig, AllocError>
    ensures told { IfOk result (λ read. told_read read ≡ settled opt [] (plain (told value))) }
    ensures built { IfOk result (λ read. IsBuilt value → AreBuilt read) }
{
    ReadConfig::settled(alloc, opt, List::empty(alloc), OptValue::Plain(value))
}

// An option that is set to rules, and their warnings.
fn rules_setting(alloc: Global, opt: Opt, read: ReadRules) -> Result<ReadConfig, AllocError>
    ensures told { IfOk result (λ config. told_read config ≡ settled opt read.warnings (rules (map told_rule read.rules))) }
    ensures built { IfOk result (λ config. AreRulesBuilt read → AreBuilt config) }
{
    let ReadRules { rules, warnings } = read;
    ReadConfig::settled(alloc, opt, warnings, OptValue::Rules(rules))
}

// An option that is set to custom managers, alone.
fn customs_setting(alloc: Global, opt: Opt, list: List<Custom>) -> Result<ReadConfig, AllocError>
    ensures told { IfOk result (λ read. told_read read ≡ settled opt [] (customs (map told_custom list))) }
    ensures built { IfOk result (λ read. Each IsCustomBuilt list → AreBuilt read) }
{
    ReadConfig::settled(alloc, opt, List::empty(alloc), OptValue::Customs(list))
}

// An option that is set to one of these values.
#[tactic(auto, using(rnv_pattern::proofs::Turns::asks_none))]
fn plain_read<E: Builder>(
    alloc: Global,
    engines: &mut E,
    opt: Opt,
    values: Values,
    value: &Value,
) -> Result<ReadConfig, Wrong>
    ensures asks { Asks (E.refused engines.old) (E.took engines.old) (E.others engines.old) (E.refused engines.new) (E.took engines.new) (E.others engines.new) }
    ensures built { IfOk result AreBuilt }
    ensures tells { (wrong : Items ℕ → Bool) → Agrees wrong (E.refused engines.old) (E.took engines.old) (E.refused engines.new) (E.took engines.new) → Tells told_read result (plain_read opt (plain_of wrong values (view value.now))) }
{
    match read_plain(alloc, engines, values, value) {
        Ok(value) => Ok(plain_setting(alloc, opt, value)?),
        Err(wrong) => Err(wrong),
    }
}

// The option of rules.
#[tactic(auto, using(rnv_pattern::proofs::Turns::asks_none))]
fn rules_read<E: Builder>(
    alloc: Global,
    engines: &mut E,
    opt: Opt,
    value: &Value,
) -> Result<ReadConfig, Wrong>
    ensures asks { Asks (E.refused engines.old) (E.took engines.old) (E.others engines.old) (E.refused engines.new) (E.took engines.new) (E.others engines.new) }
    ensures built { IfOk result AreBuilt }
    ensures tells { (wrong : Items ℕ → Bool) → Agrees wrong (E.refused engines.old) (E.took engines.old) (E.refused engines.new) (E.took engines.new) → Tells told_read result (rules_read opt (rules_of wrong (view value.now))) }
{
    match rules(alloc, engines, value) {
        Ok(read) => Ok(rules_setting(alloc, opt, read)?),
        Err(wrong) => Err(wrong),
    }
}

// The option of custom managers.
#[tactic(auto, using(rnv_pattern::proofs::Turns::asks_none))]
fn customs_read<E: Builder>(
    alloc: Global,
    engines: &mut E,
    opt: Opt,
    value: &Value,
) -> Result<ReadConfig, Wrong>
    ensures asks { Asks (E.refused engines.old) (E.took engines.old) (E.others engines.old) (E.refused engines.new) (E.took engines.new) (E.others engines.new) }
    ensures built { IfOk result AreBuilt }
    ensures tells { (wrong : Items ℕ → Bool) → Agrees wrong (E.refused engines.old) (E.took engines.old) (E.refused engines.new) (E.took engines.new) → Tells told_read result (customs_read opt (customs_of wrong (view value.now))) }
{
    match customs(alloc, engines, value) {
        Ok(list) => Ok(customs_setting(alloc, opt, list)?),
        Err(wrong) => Err(wrong),
    }
}

// The value of an option of this kind.
#[tactic(auto, using(rnv_pattern::proofs::Turns::asks_none))]
fn value_read<E: Builder>(
    alloc: Global,
    engines: &mut E,
    opt: Opt,
    kind: Kind,
    value: &Value,
) -> Result<ReadConfig, Wrong>
    ensures asks { Asks (E.refused engines.old) (E.took engines.old) (E.others engines.old) (E.refused engines.new) (E.took engines.new) (E.others engines.new) }
    ensures built { IfOk result AreBuilt }
    ensures tells { (wrong : Items ℕ → Bool) → Agrees wrong (E.refused engines.old) (E.took engines.old) (E.refused engines.new) (E.took engines.new) → Tells told_read result (value_read wrong opt kind (view value.now)) }
{
    match kind {
        Kind::Plain(values) => plain_read(alloc, engines, opt, values, value),
        Kind::Rules => rules_read(alloc, engines, opt, value),
        Kind::Customs => customs_read(alloc, engines, opt, value),
    }
}

// An option, or an unknown name.
#[tactic(auto, using(rnv_pattern::proofs::Turns::asks_none))]
fn option_read<E: Builder>(
    alloc: Global,
    engines: &mut E,
    name: &str,
    value: &Value,
) -> Result<ReadConfig, Wrong>
    ensures asks { Asks (E.refused engines.old) (E.took engines.old) (E.others engines.old) (E.refused engines.new) (E.took engines.new) (E.others engines.new) }
    ensures built { IfOk result AreBuilt }
    ensures tells { (wrong : Items ℕ → Bool) → Agrees wrong (E.refused engines.old) (E.took engines.old) (E.refused engines.new) (E.took engines.new) → Tells told_read result (option_read wrong name.now (view value.now) (opt_named name.now)) }
{
    match Opt::named(name) {
        Some(opt) => value_read(alloc, engines, opt, opt.kind(), value),
        None => Ok(unknown(alloc, name)?),
    }
}

// The presets that it extends.
fn extends(alloc: Global, value: &Value) -> Result<ReadConfig, Wrong>
    ensures built { IfOk result AreBuilt }
    ensures tells { Tells told_read result (result_map extended (list_of (view value.now))) }
{
    match list_of(alloc, value) {
        Ok(texts) => Ok(ReadConfig::extended(alloc, texts)),
        Err(wrong) => Err(wrong),
    }
}

// The presets that it passes over.
fn ignored(alloc: Global, value: &Value) -> Result<ReadConfig, Wrong>
    ensures built { IfOk result AreBuilt }
    ensures tells { Tells told_read result (result_map ignoring (list_of (view value.now))) }
{
    match list_of(alloc, value) {
        Ok(texts) => Ok(ReadConfig::ignoring(alloc, texts)),
        Err(wrong) => Err(wrong),
    }
}

// What a member of this name says.
#[tactic(auto, using(rnv_pattern::proofs::Turns::asks_none))]
fn read_as<E: Builder>(
    alloc: Global,
    engines: &mut E,
    name: &str,
    value: &Value,
) -> Result<ReadConfig, Wrong>
    ensures asks { Asks (E.refused engines.old) (E.took engines.old) (E.others engines.old) (E.refused engines.new) (E.took engines.new) (E.others engines.new) }
    ensures built { IfOk result AreBuilt }
    ensures tells { (wrong : Items ℕ → Bool) → Agrees wrong (E.refused engines.old) (E.took engines.old) (E.refused engines.new) (E.took engines.new) → Tells told_read result (read_as (role_of name.now) wrong name.now (view value.now)) }
{
    match role_of(name) {
        Role::Extends => extends(alloc, value),
        Role::Ignored => ignored(alloc, value),
        Role::Silent => Ok(ReadConfig::empty(alloc)),
        Role::Named => option_read(alloc, engines, name, value),
    }
}

// A member. What is wrong is told with its name.
#[tactic(auto, using(rnv_pattern::proofs::Turns::asks_none))]
fn member_read<E: Builder>(
    alloc: Global,
    engines: &mut E,
    name: &str,
    value: &Value,
) -> Result<ReadConfig, ConfigError>
    ensures asks { Asks (E.refused engines.old) (E.took engines.old) (E.others engines.old) (E.refused engines.new) (E.took engines.new) (E.others engines.new) }
    ensures built { IfOk result AreBuilt }
    ensures tells { (wrong : Items ℕ → Bool) → Agrees wrong (E.refused engines.old) (E.took engines.old) (E.refused engines.new) (E.took engines.new) → TellsConfig result (member_read wrong name.now (view value.now)) }
{
    match read_as(alloc, engines, name, value) {
        Ok(read) => Ok(read),
        Err(wrong) => Err(error_of(alloc, name, wrong)),
    }
}

// All members, in the order of their names.
#[tactic(auto, using(rnv_pattern::proofs::Turns::asks_none))]
fn members_read<E: Builder>(
    alloc: Global,
    engines: &mut E,
    map: &Map<String, Value>,
) -> Result<ReadConfig, ConfigError>
    ensures asks { Asks (E.refused engines.old) (E.took engines.old) (E.others engines.old) (E.refused engines.new) (E.took engines.new) (E.others engines.new) }
    ensures built { IfOk result AreBuilt }
    ensures tells { (wrong : Items ℕ → Bool) → Agrees wrong (E.refused engines.old) (E.took engines.old) (E.refused engines.new) (E.took engines.new) → TellsConfig result (members_read wrong (members_view map.now.entries)) }
{
    let mut read = ReadConfig::empty(alloc);
    let mut left = map.iter();
    while let Some((name, value)) = left.next() {
        match member_read(alloc, engines, name.as_str(), value) {
            Ok(more) => read.join(more)?,
            Err(error) => return Err(error),
        }
    }
    Ok(read)
}

// What a value says.
#[tactic(auto, using(rnv_pattern::proofs::Turns::asks_none))]
fn object_read<E: Builder>(
    alloc: Global,
    engines: &mut E,
    value: &Value,
) -> Result<ReadConfig, ConfigError>
    ensures asks { Asks (E.refused engines.old) (E.took engines.old) (E.others engines.old) (E.refused engines.new) (E.took engines.new) (E.others engines.new) }
    ensures built { IfOk result AreBuilt }
    ensures tells { (wrong : Items ℕ → Bool) → Agrees wrong (E.refused engines.old) (E.took engines.old) (E.refused engines.new) (E.took engines.new) → TellsConfig result (object_read wrong (as_object (view value.now))) }
{
    match value.as_object() {
        Some(map) => members_read(alloc, engines, map),
        None => Err(ConfigError::NotObject),
    }
}

// The JSON value of bytes, None where they are no JSON. Only memory can fail.
fn json(alloc: Global, bytes: &[u8]) -> Result<Option<Value>, AllocError>
    ensures { IfOk result (λ value. option_map view value ≡ json_of bytes.now) }
{
    match Value::from_slice(alloc, bytes) {
        Ok(value) => Ok(Some(value)),
        Err(error) => {
            if error.is_memory() {
                return Err(AllocError);
            }
            Ok(None)
        }
    }
}

impl Config {
    /// Reads a configuration: a JSON object (RFC 8259, as `serde_json` reads it) whose members are options
    /// by the table of options. `NotJson` and `NotObject` come exactly where it is none; else `WrongKind` or
    /// `BadValue` exactly for the first option by name that is wrong. An expression that the engines refused
    /// in this call is wrong.
    #[tactic(auto, using(rnv_pattern::proofs::Turns::asks_none))]
    pub fn read<E: Builder>(
        alloc: Global,
        engines: &mut E,
        bytes: &[u8],
    ) -> Result<ReadConfig, ConfigError>
        ensures asks { Asks (E.refused engines.old) (E.took engines.old) (E.others engines.old) (E.refused engines.new) (E.took engines.new) (E.others engines.new) }
        ensures built { IfOk result AreBuilt }
        ensures tells { (wrong : Items ℕ → Bool) → Agrees wrong (E.refused engines.old) (E.took engines.old) (E.refused engines.new) (E.took engines.new) → TellsConfig result (reading_of wrong bytes.now) }
    {
        let Some(value) = json(alloc, bytes)? else {
            return Err(ConfigError::NotJson);
        };
        object_read(alloc, engines, &value)
    }
}
