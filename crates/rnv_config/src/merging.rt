ghost use Rattle.std.specs.Prelude.{◌≡◌, ◌++◌, map, option_copied, option_map, IfOk, IfSome, OnOk};
ghost use Rattle.rnv_pattern.specs.Patterns.{ArePatterns};
ghost use Rattle.rnv_options.specs.Readings.{Each, IsBuilt, texts_set, told};
ghost use Rattle.rnv_options.specs.declared.opt.Opt.{Opt as OptValues};
ghost use Rattle.rnv_config.specs.Merged.{are_joined, is_joined, joined_plain, joined_value, later, merged, merged_settings, merged_value, same_opt, setting_for, told_in, value_in};
ghost use Rattle.rnv_config.specs.Settings.{IsSettingBuilt, IsValueBuilt, told_setting, told_value};

use crate::Config;
use rnv_base::{List, Share, Text};
use rnv_options::{ALL, Kind, Opt, OptValue, Plain, Setting, TaskOptions, Values, share_option};
use std::alloc::{AllocError, Global};
use std::convert::AsSlice;

// Whether both are the same option.
fn same_opt(a: Opt, b: Opt) -> bool
    ensures { result ≡ same_opt a b }
{
    a.name() == b.name()
}

impl Config {
    /// What the option is set to, None where it is not set. Takes no memory.
    pub fn get(&self, opt: Opt) -> Option<&OptValue>
        ensures { option_copied result ≡ value_in opt self.now.settings }
    {
        let mut left = self.settings.as_slice();
        while let [setting, rest @ ..] = left {
            if same_opt(opt, setting.opt) {
                return Some(&setting.value);
            }
            left = rest;
        }
        None
    }
}

// Whether values of this kind are put together where both configurations set the option.
fn is_joined(kind: Kind) -> bool
    ensures { result ≡ is_joined kind }
{
    match kind {
        Kind::Plain(Values::Words { joined, .. }) => joined,
        Kind::Plain(Values::Tasks) => true,
        Kind::Plain(_) => false,
        Kind::Rules => true,
        Kind::Customs => true,
    }
}

// Copies of the items of both lists.
fn both<T: Share>(alloc: Global, first: &List<T>, then: &List<T>) -> Result<List<T>, AllocError>
    ensures { IfOk result (λ list. list ≡ first.now ++ then.now) }
{
    let mut list = first.share(alloc)?;
    let mut left = then.as_slice();
    while let [item, rest @ ..] = left {
        list.push(item.share(alloc)?)?;
        left = rest;
    }
    Ok(list)
}

// The child's texts where they are set, else the parent's.
fn later(
    alloc: Global,
    parent: &Option<List<Text>>,
    child: &Option<List<Text>>,
) -> Result<Option<List<Text>>, AllocError>
    ensures { IfOk result (λ texts. texts ≡ later parent.now child.now) }
{
    match child {
        Some(texts) => Ok(Some(texts.share(alloc)?)),
        None => share_option(alloc, parent),
    }
}

// Each member of the tasks by itself. The patterns go with the filters.
fn joined_tasks(
    alloc: Global,
    parent: &TaskOptions,
    child: &TaskOptions,
) -> Result<TaskOptions, AllocError>
    ensures commands { IfOk result (λ tasks. tasks.commands ≡ later parent.now.commands child.now.commands) }
    ensures filters { IfOk result (λ tasks. tasks.filters ≡ later parent.now.filters child.now.filters) }
    ensures built { IfOk result (λ tasks. ArePatterns (texts_set parent.now.filters) parent.now.list → ArePatterns (texts_set child.now.filters) child.now.list → ArePatterns (texts_set tasks.filters) tasks.list) }
{
    let commands = later(alloc, &parent.commands, &child.commands)?;
    match &child.filters {
        Some(filters) => Ok(TaskOptions {
            commands,
            filters: Some(filters.share(alloc)?),
            list: child.list.share(alloc)?,
        }),
        None => Ok(TaskOptions {
            commands,
            filters: share_option(alloc, &parent.filters)?,
            list: parent.list.share(alloc)?,
        }),
    }
}

// The parent's words and then the child's, or each member of tasks; the child's value where they are neither.
fn joined_plain(alloc: Global, parent: &Plain, child: &Plain) -> Result<Plain, AllocError>
    ensures told { IfOk result (λ value. told value ≡ joined_plain (told parent.now) (told child.now)) }
    ensures built { IfOk result (λ value. IsBuilt parent.now → IsBuilt child.now → IsBuilt value) }
{
    match (parent, child) {
        (Plain::Words(first), Plain::Words(then)) => Ok(Plain::Words(both(alloc, first, then)?)),
        (Plain::Tasks(parent), Plain::Tasks(child)) => {
            Ok(Plain::Tasks(joined_tasks(alloc, parent, child)?))
        }
        _ => child.share(alloc),
    }
}

// The parent's list and then the child's; the child's value where they are no such lists.
fn joined_value(alloc: Global, parent: &OptValue, child: &OptValue) -> Result<OptValue, AllocError>
    ensures told { IfOk result (λ value. told_value value ≡ joined_value (told_value parent.now) (told_value child.now)) }
    ensures built { IfOk result (λ value. IsValueBuilt parent.now → IsValueBuilt child.now → IsValueBuilt value) }
{
    match (parent, child) {
        (OptValue::Plain(parent), OptValue::Plain(child)) => {
            Ok(OptValue::Plain(joined_plain(alloc, parent, child)?))
        }
        (OptValue::Rules(first), OptValue::Rules(then)) => {
            Ok(OptValue::Rules(both(alloc, first, then)?))
        }
        (OptValue::Customs(first), OptValue::Customs(then)) => {
            Ok(OptValue::Customs(both(alloc, first, then)?))
        }
        _ => child.share(alloc),
    }
}

// What an option is set to after a merge.
fn merged_value(
    alloc: Global,
    joined: bool,
    parent: Option<&OptValue>,
    child: Option<&OptValue>,
) -> Result<Option<OptValue>, AllocError>
    ensures told { IfOk result (λ value. option_map told_value value ≡ merged_value joined (option_map told_value (option_copied parent.entry)) (option_map told_value (option_copied child.entry))) }
    ensures built { IfOk result (λ value. IfSome (option_copied parent.entry) IsValueBuilt → IfSome (option_copied child.entry) IsValueBuilt → IfSome value IsValueBuilt) }
{
    match (parent, child) {
        (None, None) => Ok(None),
        (Some(parent), None) => Ok(Some(parent.share(alloc)?)),
        (None, Some(child)) => Ok(Some(child.share(alloc)?)),
        (Some(parent), Some(child)) => {
            if joined {
                Ok(Some(joined_value(alloc, parent, child)?))
            } else {
                Ok(Some(child.share(alloc)?))
            }
        }
    }
}

// The value of one option of two configurations as one.
fn merged_at(
    alloc: Global,
    opt: Opt,
    parent: &Config,
    child: &Config,
) -> Result<Option<OptValue>, AllocError>
    ensures told { IfOk result (λ value. option_map told_value value ≡ merged opt parent.now.settings child.now.settings) }
    ensures built { IfOk result (λ value. Each IsSettingBuilt parent.now.settings → Each IsSettingBuilt child.now.settings → IfSome value IsValueBuilt) }
{
    let joined = is_joined(opt.kind());
    merged_value(alloc, joined, parent.get(opt), child.get(opt))
}

// Puts the option at the end where it has a value.
fn add_setting(
    settings: &mut List<Setting>,
    opt: Opt,
    value: Option<OptValue>,
) -> Result<(), AllocError>
    ensures told { OnOk result (map told_setting settings.new ≡ map told_setting settings.old ++ setting_for opt (option_map told_value value)) }
    ensures built { OnOk result (Each IsSettingBuilt settings.old → IfSome value IsValueBuilt → Each IsSettingBuilt settings.new) }
{
    if let Some(value) = value {
        settings.push(Setting { opt, value })?;
    }
    Ok(())
}

// Adds the option as the two configurations set it.
fn add_merged(
    alloc: Global,
    settings: &mut List<Setting>,
    opt: Opt,
    parent: &Config,
    child: &Config,
) -> Result<(), AllocError>
    ensures told { OnOk result (map told_setting settings.new ≡ map told_setting settings.old ++ setting_for opt (merged opt parent.now.settings child.now.settings)) }
    ensures built { OnOk result (Each IsSettingBuilt parent.now.settings → Each IsSettingBuilt child.now.settings → Each IsSettingBuilt settings.old → Each IsSettingBuilt settings.new) }
{
    let value = merged_at(alloc, opt, parent, child)?;
    add_setting(settings, opt, value)
}

/// The two configurations as one, option by option: the child's value where it sets the option, else
/// the parent's. Of `addLabels`, `customManagers`, `ignoreDeps` and `packageRules` the parent's list and
/// then the child's; of `postUpgradeTasks` each member by itself. Only memory can fail.
pub fn merge(alloc: Global, parent: &Config, child: &Config) -> Result<Config, AllocError>
    ensures order { IfOk result (λ config. map told_setting config.settings ≡ merged_settings parent.now.settings child.now.settings) }
    ensures by_option { IfOk result (λ config. (opt : OptValues) → told_in opt config.settings ≡ merged opt parent.now.settings child.now.settings) }
    ensures built { IfOk result (λ config. Each IsSettingBuilt parent.now.settings → Each IsSettingBuilt child.now.settings → Each IsSettingBuilt config.settings) }
{
    let mut settings = List::empty(alloc);
    let mut left: &[Opt] = &ALL;
    while let [opt, rest @ ..] = left {
        add_merged(alloc, &mut settings, *opt, parent, child)?;
        left = rest;
    }
    Ok(Config { settings })
}
