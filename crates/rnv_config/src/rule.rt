ghost use Rattle.std.specs.Prelude.{◌≡◌, ℕ, Bool, List as Items, IfOk, OnOk, Ok};
ghost use Rattle.serde_json.specs.View.{members_view, view};
ghost use Rattle.rnv_pattern.specs.Turns.{Agrees, Asks};
ghost use Rattle.rnv_options.specs.Matchers.{IsMatcherBuilt, told_matcher};
ghost use Rattle.rnv_options.specs.Readings.{IsBuilt, Tells, told_rule_setting};
ghost use Rattle.rnv_options.specs.Table.{opt_named};
ghost use Rattle.rnv_config.specs.Roles.{role_of, unknown_option};
ghost use Rattle.rnv_config.specs.Settings.{IsRuleBuilt, IsRuleSettingBuilt};
ghost use Rattle.rnv_config.specs.Rules.{bad_of, empty_rule, joined_rule, matched, not_in_rules, rule_as, rule_matcher, rule_member, rule_members, rule_option, rule_value, set_to, told_rule_read, warned};

use crate::lists::{append, one};
use crate::role::{Role, role_of, unknown_option};
use rnv_base::{List, Text};
use rnv_options::{
    MatchOn, Matcher, Opt, Rule, RuleSetting, Values, Wrong, read_matcher, read_plain,
};
use rnv_pattern::Builder;
use serde_json::{Map, Value};
use std::alloc::{AllocError, Global};
use std::convert::AsStr;

/// A rule as far as its members were read.
#[derive(Drop)]
pub struct ReadRule {
    pub rule: Rule,
    pub warnings: List<Text>,
}

impl ReadRule {
    // Nothing read so far.
    fn empty(alloc: Global) -> ReadRule
        ensures told { told_rule_read result ≡ empty_rule }
        ensures built { IsRuleBuilt result.rule }
    {
        ReadRule {
            rule: Rule {
                matchers: List::empty(alloc),
                sets: List::empty(alloc),
            },
            warnings: List::empty(alloc),
        }
    }

    // A matcher alone.
    fn matched(alloc: Global, matcher: Matcher) -> Result<ReadRule, AllocError>
        ensures told { IfOk result (λ read. told_rule_read read ≡ matched (told_matcher matcher)) }
        ensures built { IfOk result (λ read. IsMatcherBuilt matcher → IsRuleBuilt read.rule) }
    {
        Ok(ReadRule {
            rule: Rule {
                matchers: one(alloc, matcher)?,
                sets: List::empty(alloc),
            },
            warnings: List::empty(alloc),
        })
    }

    // An option that is set, alone.
    fn set_to(alloc: Global, setting: RuleSetting) -> Result<ReadRule, AllocError>
        ensures told { IfOk result (λ read. told_rule_read read ≡ set_to (told_rule_setting setting)) }
        ensures built { IfOk result (λ read. IsRuleSettingBuilt setting → IsRuleBuilt read.rule) }
    {
        Ok(ReadRule {
            rule: Rule {
                matchers: List::empty(alloc),
                sets: one(alloc, setting)?,
            },
            warnings: List::empty(alloc),
        })
    }

    // A warning alone.
    fn warned(alloc: Global, text: Text) -> Result<ReadRule, AllocError>
        ensures told { IfOk result (λ read. told_rule_read read ≡ warned text) }
        ensures built { IfOk result (λ read. IsRuleBuilt read.rule) }
    {
        Ok(ReadRule {
            rule: Rule {
                matchers: List::empty(alloc),
                sets: List::empty(alloc),
            },
            warnings: one(alloc, text)?,
        })
    }

    // Puts what another member says at the end.
    fn join(&mut self, more: ReadRule) -> Result<(), AllocError>
        ensures told { OnOk result (told_rule_read self.new ≡ joined_rule (told_rule_read self.old) (told_rule_read more)) }
        ensures built { OnOk result (IsRuleBuilt self.old.rule → IsRuleBuilt more.rule → IsRuleBuilt self.new.rule) }
    {
        let ReadRule { rule, warnings } = more;
        let Rule { matchers, sets } = rule;
        append(&mut self.rule.matchers, matchers)?;
        append(&mut self.rule.sets, sets)?;
        append(&mut self.warnings, warnings)
    }
}

// What a wrong member makes of the rules.
fn bad_of(wrong: Wrong) -> Wrong
    ensures { result ≡ bad_of wrong }
{
    match wrong {
        Wrong::WrongKind | Wrong::BadValue => Wrong::BadValue,
        Wrong::Memory => Wrong::Memory,
    }
}

// A matcher, which is absent where it is `null`.
#[tactic(auto, using(rnv_pattern::proofs::Turns::asks_none))]
fn rule_matcher<E: Builder>(
    alloc: Global,
    engines: &mut E,
    on: MatchOn,
    value: &Value,
) -> Result<ReadRule, Wrong>
    ensures asks { Asks (E.refused engines.old) (E.took engines.old) (E.others engines.old) (E.refused engines.new) (E.took engines.new) (E.others engines.new) }
    ensures built { IfOk result (λ read. IsRuleBuilt read.rule) }
    ensures tells { (wrong : Items ℕ → Bool) → Agrees wrong (E.refused engines.old) (E.took engines.old) (E.refused engines.new) (E.took engines.new) → Tells told_rule_read result (rule_matcher wrong on (view value.now)) }
{
    if value.is_null() {
        return Ok(ReadRule::empty(alloc));
    }
    match read_matcher(alloc, engines, on, value) {
        Ok(matcher) => Ok(ReadRule::matched(alloc, matcher)?),
        Err(wrong) => Err(bad_of(wrong)),
    }
}

// What is said of an option of the repository.
fn not_in_rules(alloc: Global, name: &str) -> Result<Text, AllocError>
    ensures { IfOk result (λ text. text ≡ not_in_rules name.now) }
{
    let text = format!(in alloc; "option {name} is not read in a rule")?;
    Ok(Text::new(text))
}

// A warning of an option of the repository, alone.
fn warned_of(alloc: Global, name: &str) -> Result<ReadRule, AllocError>
    ensures told { IfOk result (λ read. told_rule_read read ≡ warned (not_in_rules name.now)) }
    ensures built { IfOk result (λ read. IsRuleBuilt read.rule) }
{
    ReadRule::warned(alloc, not_in_rules(alloc, name)?)
}

// A warning of an unknown name, alone.
fn unknown(alloc: Global, name: &str) -> Result<ReadRule, AllocError>
    ensures told { IfOk result (λ read. told_rule_read read ≡ warned (unknown_option name.now)) }
    ensures built { IfOk result (λ read. IsRuleBuilt read.rule) }
{
    ReadRule::warned(alloc, unknown_option(alloc, name)?)
}

// An option that a rule sets to one of these values.
#[tactic(auto, using(rnv_pattern::proofs::Turns::asks_none))]
fn rule_value<E: Builder>(
    alloc: Global,
    engines: &mut E,
    opt: Opt,
    values: Values,
    value: &Value,
) -> Result<ReadRule, Wrong>
    ensures asks { Asks (E.refused engines.old) (E.took engines.old) (E.others engines.old) (E.refused engines.new) (E.took engines.new) (E.others engines.new) }
    ensures built { IfOk result (λ read. IsRuleBuilt read.rule) }
    ensures tells { (wrong : Items ℕ → Bool) → Agrees wrong (E.refused engines.old) (E.took engines.old) (E.refused engines.new) (E.took engines.new) → Tells told_rule_read result (rule_value wrong opt values (view value.now)) }
{
    match read_plain(alloc, engines, values, value) {
        Ok(value) => Ok(ReadRule::set_to(alloc, RuleSetting { opt, value })?),
        Err(wrong) => Err(bad_of(wrong)),
    }
}

// An option in a rule.
#[tactic(auto, using(rnv_pattern::proofs::Turns::asks_none))]
fn rule_option<E: Builder>(
    alloc: Global,
    engines: &mut E,
    name: &str,
    value: &Value,
) -> Result<ReadRule, Wrong>
    ensures asks { Asks (E.refused engines.old) (E.took engines.old) (E.others engines.old) (E.refused engines.new) (E.took engines.new) (E.others engines.new) }
    ensures built { IfOk result (λ read. IsRuleBuilt read.rule) }
    ensures tells { (wrong : Items ℕ → Bool) → Agrees wrong (E.refused engines.old) (E.took engines.old) (E.refused engines.new) (E.took engines.new) → Tells told_rule_read result (rule_option wrong name.now (view value.now) (opt_named name.now)) }
{
    let Some(opt) = Opt::named(name) else {
        return Ok(unknown(alloc, name)?);
    };
    let Some(values) = opt.values_in_rules() else {
        return Ok(warned_of(alloc, name)?);
    };
    rule_value(alloc, engines, opt, values, value)
}

// A member that is no matcher.
#[tactic(auto, using(rnv_pattern::proofs::Turns::asks_none))]
fn rule_as<E: Builder>(
    alloc: Global,
    engines: &mut E,
    name: &str,
    value: &Value,
) -> Result<ReadRule, Wrong>
    ensures asks { Asks (E.refused engines.old) (E.took engines.old) (E.others engines.old) (E.refused engines.new) (E.took engines.new) (E.others engines.new) }
    ensures built { IfOk result (λ read. IsRuleBuilt read.rule) }
    ensures tells { (wrong : Items ℕ → Bool) → Agrees wrong (E.refused engines.old) (E.took engines.old) (E.refused engines.new) (E.took engines.new) → Tells told_rule_read result (rule_as (role_of name.now) wrong name.now (view value.now)) }
{
    match role_of(name) {
        Role::Extends => Err(Wrong::BadValue),
        Role::Ignored => Ok(warned_of(alloc, name)?),
        Role::Silent => Ok(ReadRule::empty(alloc)),
        Role::Named => rule_option(alloc, engines, name, value),
    }
}

// A member of a rule.
#[tactic(auto, using(rnv_pattern::proofs::Turns::asks_none))]
fn rule_member<E: Builder>(
    alloc: Global,
    engines: &mut E,
    name: &str,
    value: &Value,
) -> Result<ReadRule, Wrong>
    ensures asks { Asks (E.refused engines.old) (E.took engines.old) (E.others engines.old) (E.refused engines.new) (E.took engines.new) (E.others engines.new) }
    ensures built { IfOk result (λ read. IsRuleBuilt read.rule) }
    ensures tells { (wrong : Items ℕ → Bool) → Agrees wrong (E.refused engines.old) (E.took engines.old) (E.refused engines.new) (E.took engines.new) → Tells told_rule_read result (rule_member wrong name.now (view value.now)) }
{
    match MatchOn::named(name) {
        Some(on) => rule_matcher(alloc, engines, on, value),
        None => rule_as(alloc, engines, name, value),
    }
}

/// The members of a rule, in the order of their names. `BadValue` exactly where one is wrong.
#[tactic(auto, using(rnv_pattern::proofs::Turns::asks_none))]
pub fn rule_members<E: Builder>(
    alloc: Global,
    engines: &mut E,
    map: &Map<String, Value>,
) -> Result<ReadRule, Wrong>
    ensures asks { Asks (E.refused engines.old) (E.took engines.old) (E.others engines.old) (E.refused engines.new) (E.took engines.new) (E.others engines.new) }
    ensures built { IfOk result (λ read. IsRuleBuilt read.rule) }
    ensures tells { (wrong : Items ℕ → Bool) → Agrees wrong (E.refused engines.old) (E.took engines.old) (E.refused engines.new) (E.took engines.new) → Tells told_rule_read result (rule_members wrong (members_view map.now.entries)) }
{
    let mut read = ReadRule::empty(alloc);
    let mut left = map.iter();
    while let Some((name, value)) = left.next() {
        match rule_member(alloc, engines, name.as_str(), value) {
            Ok(more) => read.join(more)?,
            Err(wrong) => return Err(wrong),
        }
    }
    Ok(read)
}
