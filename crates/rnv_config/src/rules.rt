ghost use Rattle.std.specs.Prelude.{◌≡◌, ℕ, Bool, List as Items, IfOk, OnOk, option_map};
ghost use Rattle.serde_json.specs.Find.{as_object};
ghost use Rattle.serde_json.specs.View.{items_view, members_view, view};
ghost use Rattle.rnv_pattern.specs.Turns.{Agrees, Asks};
ghost use Rattle.rnv_options.specs.Readings.{Tells};
ghost use Rattle.rnv_config.specs.Settings.{IsRuleBuilt};
ghost use Rattle.rnv_config.specs.Rules.{AreRulesBuilt, has_unknown, is_unknown_matcher, joined_rules, no_rules, one_rule, passed_over, rule_of, rule_unless, rules_in, rules_of, told_rule_read, told_rules_read, unknown_matcher};

use crate::lists::{append, one};
use crate::rule::{ReadRule, rule_members};
use rnv_base::{List, Text};
use rnv_options::{MatchOn, Rule, Wrong, are_objects};
use rnv_pattern::Builder;
use serde_json::{Map, Value};
use std::alloc::{AllocError, Global};
use std::convert::{AsSlice, AsStr};

/// Rules as far as they were read.
#[derive(Drop)]
pub struct ReadRules {
    pub rules: List<Rule>,
    pub warnings: List<Text>,
}

impl ReadRules {
    // No rules.
    fn empty(alloc: Global) -> ReadRules
        ensures told { told_rules_read result ≡ no_rules }
        ensures built { AreRulesBuilt result }
    {
        ReadRules {
            rules: List::empty(alloc),
            warnings: List::empty(alloc),
        }
    }

    // One rule.
    fn one(alloc: Global, read: ReadRule) -> Result<ReadRules, AllocError>
        ensures told { IfOk result (λ rules. told_rules_read rules ≡ one_rule (told_rule_read read)) }
        ensures built { IfOk result (λ rules. IsRuleBuilt read.rule → AreRulesBuilt rules) }
    {
        let ReadRule { rule, warnings } = read;
        Ok(ReadRules {
            rules: one(alloc, rule)?,
            warnings,
        })
    }

    // No rule, and why one is passed over.
    fn passed_over(alloc: Global, number: usize, name: &str) -> Result<ReadRules, AllocError>
        ensures told { IfOk result (λ rules. told_rules_read rules ≡ passed_over number name.now) }
        ensures built { IfOk result AreRulesBuilt }
    {
        Ok(ReadRules {
            rules: List::empty(alloc),
            warnings: one(alloc, has_unknown(alloc, number, name)?)?,
        })
    }

    // Puts further rules at the end.
    fn join(&mut self, more: ReadRules) -> Result<(), AllocError>
        ensures told { OnOk result (told_rules_read self.new ≡ joined_rules (told_rules_read self.old) (told_rules_read more)) }
        ensures built { OnOk result (AreRulesBuilt self.old → AreRulesBuilt more → AreRulesBuilt self.new) }
    {
        let ReadRules { rules, warnings } = more;
        append(&mut self.rules, rules)?;
        append(&mut self.warnings, warnings)
    }
}

// What is said of a rule that is passed over.
fn has_unknown(alloc: Global, number: usize, name: &str) -> Result<Text, AllocError>
    ensures { IfOk result (λ text. text ≡ has_unknown number name.now) }
{
    let text = format!(in alloc; "rule {number} has unknown matcher {name}")?;
    Ok(Text::new(text))
}

// Whether the name begins as a matcher's does, and is none's.
fn is_unknown_matcher(name: &str) -> bool
    ensures { result ≡ is_unknown_matcher name.now }
{
    let bytes = name.as_bytes();
    (bytes.starts_with(b"match") || bytes.starts_with(b"exclude")) && MatchOn::named(name).is_none()
}

// The first unknown matcher, by name.
fn unknown_matcher(map: &Map<String, Value>) -> Option<&str>
    ensures { option_map (λ name. name.now) result ≡ unknown_matcher (members_view map.now.entries) }
{
    let mut left = map.iter();
    while let Some((name, _)) = left.next() {
        if is_unknown_matcher(name.as_str()) {
            return Some(name.as_str());
        }
    }
    None
}

// The rule with this number and these members.
#[tactic(auto, using(rnv_pattern::proofs::Turns::asks_none))]
fn rule_unless<E: Builder>(
    alloc: Global,
    engines: &mut E,
    number: usize,
    map: &Map<String, Value>,
) -> Result<ReadRules, Wrong>
    ensures asks { Asks (E.refused engines.old) (E.took engines.old) (E.others engines.old) (E.refused engines.new) (E.took engines.new) (E.others engines.new) }
    ensures built { IfOk result AreRulesBuilt }
    ensures tells { (wrong : Items ℕ → Bool) → Agrees wrong (E.refused engines.old) (E.took engines.old) (E.refused engines.new) (E.took engines.new) → Tells told_rules_read result (rule_unless wrong number (members_view map.now.entries) (unknown_matcher (members_view map.now.entries))) }
{
    if let Some(name) = unknown_matcher(map) {
        return Ok(ReadRules::passed_over(alloc, number, name)?);
    }
    match rule_members(alloc, engines, map) {
        Ok(read) => Ok(ReadRules::one(alloc, read)?),
        Err(wrong) => Err(wrong),
    }
}

// The rule with this number.
#[tactic(auto, using(rnv_pattern::proofs::Turns::asks_none))]
fn rule<E: Builder>(
    alloc: Global,
    engines: &mut E,
    number: usize,
    value: &Value,
) -> Result<ReadRules, Wrong>
    ensures asks { Asks (E.refused engines.old) (E.took engines.old) (E.others engines.old) (E.refused engines.new) (E.took engines.new) (E.others engines.new) }
    ensures built { IfOk result AreRulesBuilt }
    ensures tells { (wrong : Items ℕ → Bool) → Agrees wrong (E.refused engines.old) (E.took engines.old) (E.refused engines.new) (E.took engines.new) → Tells told_rules_read result (rule_of wrong number (view value.now)) }
{
    match value.as_object() {
        Some(map) => rule_unless(alloc, engines, number, map),
        None => Err(Wrong::WrongKind),
    }
}

// The rules of a list, with numbers from 1.
#[tactic(auto, using(rnv_pattern::proofs::Turns::asks_none))]
fn rules_in<E: Builder>(alloc: Global, engines: &mut E, items: &[Value]) -> Result<ReadRules, Wrong>
    ensures asks { Asks (E.refused engines.old) (E.took engines.old) (E.others engines.old) (E.refused engines.new) (E.took engines.new) (E.others engines.new) }
    ensures built { IfOk result AreRulesBuilt }
    ensures tells { (wrong : Items ℕ → Bool) → Agrees wrong (E.refused engines.old) (E.took engines.old) (E.refused engines.new) (E.took engines.new) → Tells told_rules_read result (rules_in wrong (items_view items.now)) }
{
    let mut read = ReadRules::empty(alloc);
    let mut count = 0;
    while count < items.len() {
        match rule(alloc, engines, count + 1, &items[count]) {
            Ok(more) => read.join(more)?,
            Err(wrong) => return Err(wrong),
        }
        count += 1;
    }
    Ok(read)
}

/// Rules, from JSON: a list of objects, and none for `null`. `WrongKind` exactly for JSON of another kind,
/// `BadValue` exactly where a member of a rule is wrong. A rule with an unknown matcher is passed over with
/// a warning, whatever else is in it.
#[tactic(auto, using(rnv_pattern::proofs::Turns::asks_none))]
pub fn rules<E: Builder>(alloc: Global, engines: &mut E, value: &Value) -> Result<ReadRules, Wrong>
    ensures asks { Asks (E.refused engines.old) (E.took engines.old) (E.others engines.old) (E.refused engines.new) (E.took engines.new) (E.others engines.new) }
    ensures built { IfOk result AreRulesBuilt }
    ensures tells { (wrong : Items ℕ → Bool) → Agrees wrong (E.refused engines.old) (E.took engines.old) (E.refused engines.new) (E.took engines.new) → Tells told_rules_read result (rules_of wrong (view value.now)) }
{
    if value.is_null() {
        return Ok(ReadRules::empty(alloc));
    }
    let Some(items) = value.as_array() else {
        return Err(Wrong::WrongKind);
    };
    if !are_objects(items.as_slice()) {
        return Err(Wrong::WrongKind);
    }
    rules_in(alloc, engines, items.as_slice())
}
