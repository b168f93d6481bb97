use crate::{Config, ConfigError, MemEngines, ReadConfig};
use rnv_base::{List, Text};
use rnv_options::{Allowed, Matcher, OptValue, Plain, Rule, RuleSetting};
use std::alloc::{AllocError, Global};
use std::convert::{AsSlice, AsStr};
use std::test::Fail;

// Texts in brackets.
fn put_texts(out: &mut String, texts: &[Text]) -> Result<(), AllocError> {
    out.push_str("[")?;
    for text in texts {
        out.push_str(text.as_str())?;
        out.push_str(";")?;
    }
    out.push_str("]")
}

// A value.
fn put_plain(alloc: Global, out: &mut String, value: &Plain) -> Result<(), AllocError> {
    match value {
        Plain::Flag(flag) => out.push_str(if *flag { "true" } else { "false" }),
        Plain::Number(number) => out.push_str(format!(in alloc; "{number}")?.as_str()),
        Plain::Word(text) => out.push_str(text.as_str()),
        Plain::Nothing => out.push_str("null"),
        Plain::Words(texts) => put_texts(out, texts.as_slice()),
        Plain::Patterns(patterns) => put_texts(out, patterns.texts.as_slice()),
        Plain::Allowed(Allowed::Patterns { text, .. }) => out.push_str(text.as_str()),
        Plain::Allowed(Allowed::Range { text }) => out.push_str(text.as_str()),
        Plain::Tasks(_) => out.push_str("tasks"),
    }
}

// Matchers of a rule.
fn put_matchers(out: &mut String, matchers: &[Matcher]) -> Result<(), AllocError> {
    for matcher in matchers {
        out.push_str(matcher.on.name())?;
        put_texts(out, matcher.texts.as_slice())?;
        out.push_str(" ")?;
    }
    Ok(())
}

// What a rule sets.
fn put_sets(alloc: Global, out: &mut String, sets: &[RuleSetting]) -> Result<(), AllocError> {
    for set in sets {
        out.push_str(set.opt.name())?;
        out.push_str("=")?;
        put_plain(alloc, out, &set.value)?;
        out.push_str(" ")?;
    }
    Ok(())
}

// Rules in braces.
fn put_rules(alloc: Global, out: &mut String, rules: &[Rule]) -> Result<(), AllocError> {
    for rule in rules {
        out.push_str("{")?;
        put_matchers(out, rule.matchers.as_slice())?;
        put_sets(alloc, out, rule.sets.as_slice())?;
        out.push_str("}")?;
    }
    Ok(())
}

// What a configuration says: each option, then presets and warnings.
fn put_read(alloc: Global, out: &mut String, read: &ReadConfig) -> Result<(), AllocError> {
    for setting in read.config.settings.as_slice() {
        out.push_str(setting.opt.name())?;
        out.push_str("=")?;
        match &setting.value {
            OptValue::Plain(value) => put_plain(alloc, out, value)?,
            OptValue::Rules(rules) => put_rules(alloc, out, rules.as_slice())?,
            OptValue::Customs(customs) => {
                out.push_str(format!(in alloc; "{}", customs.len())?.as_str())?;
            }
        }
        out.push_str(" ")?;
    }
    put_texts(out, read.extends.as_slice())?;
    put_texts(out, read.ignored.as_slice())?;
    put_texts(out, read.warnings.as_slice())
}

// What the bytes are read as, where the engines refuse the builds with these numbers.
fn answer(alloc: Global, bytes: &[u8], failing: &[u64]) -> Result<String, AllocError> {
    let mut calls = List::empty(alloc);
    for call in failing {
        calls.push(*call)?;
    }
    let mut engines = MemEngines::new(alloc, calls, List::empty(alloc));
    let mut out = String::new(alloc);
    match Config::read(alloc, &mut engines, bytes) {
        Ok(read) => put_read(alloc, &mut out, &read)?,
        Err(ConfigError::NotJson) => out.push_str("not JSON")?,
        Err(ConfigError::NotObject) => out.push_str("not an object")?,
        Err(ConfigError::WrongKind { option }) => {
            out.push_str("kind of ")?;
            out.push_str(option.as_str())?;
        }
        Err(ConfigError::BadValue { option }) => {
            out.push_str("value of ")?;
            out.push_str(option.as_str())?;
        }
        Err(ConfigError::Memory) => return Err(AllocError),
    }
    Ok(out)
}

// A configuration, and what it is read as.
const CONFIGURATIONS: &str = r#"{}|[][][]
|not JSON
{"a":1|not JSON
{"a":1}x|not JSON
{"labels":["\ud800"]}|not JSON
[]|not an object
null|not an object
{"labels":1}|kind of labels
{"rangeStrategy":"newest"}|value of rangeStrategy
{"timezone":1,"labels":1,"schedule":"x"}|kind of labels
{"schedule":"x","timezone":1}|value of schedule
{"labels":"x","$schema":"s","automerge":true,"description":[1]}|labels=[x;] [][][unknown option automerge;]
{"labels":["a"],"labels":["b","c"]}|labels=[b;c;] [][][]
{"prHourlyLimit":1.0}|kind of prHourlyLimit
{"prHourlyLimit":1e2}|kind of prHourlyLimit
{"prHourlyLimit":9223372036854775808}|kind of prHourlyLimit
{"prPriority":-7,"enabled":false,"allowedVersions":"<2"}|allowedVersions=<2 enabled=false prPriority=-7 [][][]
{"rangeStrategy":"widen"}|rangeStrategy=widen [][][]
{"prConcurrentLimit":1}|prConcurrentLimit=1 [][][]
{"extends":["b","a"],"ignorePresets":"c"}|[b;a;][c;][]
{"extends":["config:recommended"]}|[config:recommended;][][]
{"extends":["group:all",":separatePatchReleases"]}|[group:all;:separatePatchReleases;][][]
{"extends":["github>a/b"]}|[github>a/b;][][]
{"extends":["local>acme/cfg:a"],"ignorePresets":[":prConcurrentLimit20"]}|[local>acme/cfg:a;][:prConcurrentLimit20;][]
{"$schema":"https://docs.renovatebot.com/renovate-schema.json","extends":["config:recommended"],"labels":["dependencies"],"packageRules":[{"matchPackageNames":["@types/*"],"groupName":"types"}]}|labels=[dependencies;] packageRules={matchPackageNames[@types/*;] groupName=types } [config:recommended;][][]
{"extends":null,"ignorePresets":null}|[][][]
{"extends":{}}|kind of extends
{"ignorePresets":[1]}|kind of ignorePresets
{"addLabels":null,"customManagers":null,"ignoreDeps":null,"packageRules":null}|addLabels=[] customManagers=0 ignoreDeps=[] packageRules= [][][]
{"labels":null,"enabled":null,"ignorePaths":null,"postUpgradeTasks":null}|enabled=null ignorePaths=null labels=null postUpgradeTasks=tasks [][][]
{"ignorePaths":["a","/(/"]}|value of ignorePaths
{"customManagers":[{"customType":"regex","fileMatch":"a","matchStrings":["b"]}]}|customManagers=1 [][][]
{"customManagers":[{"customType":"regex","fileMatch":"a"}]}|value of customManagers
{"customManagers":[1]}|kind of customManagers
{"packageRules":[{"matchPackageNames":["@types/*"],"groupName":"types"}]}|packageRules={matchPackageNames[@types/*;] groupName=types } [][][]
{"packageRules":[{},{"matchManagers":null,"enabled":null}]}|packageRules={}{enabled=null } [][][]
{"packageRules":[{"description":1,"$schema":1,"labels":"a","prHourlyLimit":"x"}]}|packageRules={labels=[a;] } [][][option prHourlyLimit is not read in a rule;]
{"packageRules":[{"ignorePresets":1,"automerge":1}]}|packageRules={} [][][unknown option automerge;option ignorePresets is not read in a rule;]
{"packageRules":[{"matchFoo":null,"enabled":"x","a":1},{"matchZ":1,"excludeBar":1,"match":1},{"enabled":true}]}|packageRules={enabled=true } [][][rule 1 has unknown matcher matchFoo;rule 2 has unknown matcher excludeBar;]
{"packageRules":[{"extends":["a"]}]}|value of packageRules
{"packageRules":[{"enabled":"x"}]}|value of packageRules
{"packageRules":[{"matchManagers":1}]}|value of packageRules
{"packageRules":[{"matchCurrentVersion":"/(/"}]}|value of packageRules
{"packageRules":[{"matchFoo":1},1]}|kind of packageRules
{"packageRules":{}}|kind of packageRules
{"z":1,"packageRules":[{"b":1,"a":1,"ignoreDeps":1},{"matchQ":1}],"a":1}|packageRules={} [][][unknown option a;unknown option a;unknown option b;option ignoreDeps is not read in a rule;rule 2 has unknown matcher matchQ;unknown option z;]"#;

#[test]
fn configurations(rt: HostRuntime) -> Result<(), Fail> {
    for line in CONFIGURATIONS.lines() {
        let mut cells = line.split('|');
        let bytes = cells.next().ok_or("a configuration")?.as_bytes();
        let wanted = cells.next().ok_or("an answer")?;
        let given = answer(rt.alloc(), bytes, &[])?;
        assert_eq!(rt; given.as_str(), wanted, "{line}");
    }
    Ok(())
}

// An object with lists in one another.
fn nested(alloc: Global, depth: u32) -> Result<String, AllocError> {
    let mut text = String::from_str(alloc, "{\"a\":")?;
    for _ in 0..depth {
        text.push_str("[")?;
    }
    for _ in 0..depth {
        text.push_str("]")?;
    }
    text.push_str("}")?;
    Ok(text)
}

// An object with a text of so many times 64 bytes.
fn long(alloc: Global, pieces: u32) -> Result<String, AllocError> {
    let mut text = String::from_str(alloc, "{\"a\":\"")?;
    for _ in 0..pieces {
        text.push_str("0123456789abcdef0123456789abcdef0123456789abcdef0123456789abcdef")?;
    }
    text.push_str("\"}")?;
    Ok(text)
}

#[test]
fn bytes_of_any_kind(rt: HostRuntime) -> Result<(), Fail> {
    let alloc = rt.alloc();
    let bom = answer(alloc, "\u{feff}{}".as_bytes(), &[])?;
    assert_eq!(rt; bom.as_str(), "not JSON");
    let bytes = answer(alloc, b"{\"a\":\"\xff\"}", &[])?;
    assert_eq!(rt; bytes.as_str(), "not JSON");
    let deep = answer(alloc, nested(alloc, 126)?.as_bytes(), &[])?;
    assert_eq!(rt; deep.as_str(), "[][][unknown option a;]");
    let deeper = answer(alloc, nested(alloc, 127)?.as_bytes(), &[])?;
    assert_eq!(rt; deeper.as_str(), "not JSON");
    let large = answer(alloc, long(alloc, 1_048_576)?.as_bytes(), &[])?;
    assert_eq!(rt; large.as_str(), "[][][unknown option a;]");
    Ok(())
}

// A configuration, and what it is read as where its first build is refused, its second, and so on up to one
// more than it has expressions: so each is built once.
const REFUSALS: &str =
    r#"{"timezone":1,"packageRules":[{"matchDepNames":"/b/"}],"ignorePaths":["/a/"]}|value of ignorePaths|value of packageRules|kind of timezone
{"customManagers":[{"customType":"regex","fileMatch":["^tools\\.txt$"],"matchStrings":["tool=(?P<depName>[a-z]+) v(?P<currentValue>[0-9]\\.[0-9]\\.[0-9])"],"datasourceTemplate":"npm"}]}|value of customManagers|value of customManagers|customManagers=1 [][][]
{"postUpgradeTasks":{"fileFilters":["/f/","*.txt"]},"allowedVersions":"/a/","ignorePaths":["x*","/d/"],"packageRules":[{"matchDepNames":["/c/","!/d/i"],"matchCurrentVersion":"/b/"}]}|value of allowedVersions|value of ignorePaths|value of packageRules|value of packageRules|value of packageRules|value of postUpgradeTasks|allowedVersions=/a/ ignorePaths=[x*;/d/;] packageRules={matchCurrentVersion[/b/;] matchDepNames[/c/;!/d/i;] } postUpgradeTasks=tasks [][][]"#;

#[test]
fn engines_that_refuse(rt: HostRuntime) -> Result<(), Fail> {
    for line in REFUSALS.lines() {
        let mut cells = line.split('|');
        let bytes = cells.next().ok_or("a configuration")?.as_bytes();
        let mut number: u64 = 0;
        for wanted in cells {
            let given = answer(rt.alloc(), bytes, &[number])?;
            assert_eq!(rt; given.as_str(), wanted, "{line} without {number}");
            number = number.saturating_add(1);
        }
    }
    Ok(())
}
