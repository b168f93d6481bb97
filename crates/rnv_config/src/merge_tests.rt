use crate::{Config, MemEngines, ReadConfig, merge};
use rnv_base::{List, Share};
use rnv_options::{Opt, OptValue, Plain};
use std::alloc::Global;
use std::convert::AsStr;
use std::test::Fail;

// What a JSON object sets.
fn config(alloc: Global, json: &str) -> Result<Config, Fail> {
    let mut engines = MemEngines::new(alloc, List::empty(alloc), List::empty(alloc));
    match Config::read(alloc, &mut engines, json.as_bytes()) {
        Ok(ReadConfig { config, .. }) => Ok(config),
        Err(_) => Err("a configuration".into()),
    }
}

// A parent, a child, and the text of both as one.
const MERGES: &str =
    r#"{"ignoreDeps":["a"],"labels":["x"]}|{"ignoreDeps":["b"],"labels":["y"]}|{"ignoreDeps":["a","b"],"labels":["y"]}
{}|{}|{}
{"enabled":false,"groupName":"a"}|{"prPriority":-3}|{"enabled":false,"groupName":"a","prPriority":-3}
{"rebaseWhen":"behind-base-branch","prHourlyLimit":6}|{"extends":["local>acme/cfg:b"],"prHourlyLimit":5}|{"prHourlyLimit":5,"rebaseWhen":"behind-base-branch"}
{"addLabels":["a"],"enabled":true}|{"addLabels":null,"enabled":null}|{"addLabels":["a"],"enabled":null}
{"addLabels":null}|{"addLabels":"b","labels":null}|{"addLabels":["b"],"labels":null}
{"packageRules":[{"matchDepNames":"a","enabled":false}]}|{"packageRules":[{"groupName":"g"},{}]}|{"packageRules":[{"enabled":false,"matchDepNames":["a"]},{"groupName":"g"},{}]}
{"packageRules":[{"matchPackageNames":["@x/*"],"groupName":"x"}]}|{"packageRules":[{"matchPackageNames":["!@x/b"],"enabled":false}]}|{"packageRules":[{"groupName":"x","matchPackageNames":["@x/*"]},{"enabled":false,"matchPackageNames":["!@x/b"]}]}
{"packageRules":[{}]}|{"packageRules":null}|{"packageRules":[{}]}
{"customManagers":[{"customType":"regex","fileMatch":"a","matchStrings":"b"}]}|{"customManagers":[{"customType":"regex","fileMatch":"c","matchStrings":"d"}]}|{"customManagers":[{"customType":"regex","fileMatch":["a"],"matchStrings":["b"]},{"customType":"regex","fileMatch":["c"],"matchStrings":["d"]}]}
{"postUpgradeTasks":{"commands":["x"],"fileFilters":["a"]}}|{"postUpgradeTasks":{"fileFilters":["b"]}}|{"postUpgradeTasks":{"commands":["x"],"fileFilters":["b"]}}
{"postUpgradeTasks":{"fileFilters":["a"]}}|{"postUpgradeTasks":{"commands":[]}}|{"postUpgradeTasks":{"commands":[],"fileFilters":["a"]}}
{"postUpgradeTasks":{"commands":["x"]}}|{"postUpgradeTasks":null}|{"postUpgradeTasks":{"commands":[],"fileFilters":[]}}"#;

#[test]
fn merges(rt: HostRuntime) -> Result<(), Fail> {
    let alloc = rt.alloc();
    for line in MERGES.lines() {
        let mut cells = line.split('|');
        let parent = config(alloc, cells.next().ok_or("a parent")?)?;
        let child = config(alloc, cells.next().ok_or("a child")?)?;
        let wanted = cells.next().ok_or("a text")?;
        let text = merge(alloc, &parent, &child)?.text(alloc)?;
        assert_eq!(rt; text.as_str(), wanted);
    }
    Ok(())
}

// A configuration, and its text.
const TEXTS: &str =
    r#"{"updateNotScheduled":false,"timezone":"UTC","prHourlyLimit":0}|{"prHourlyLimit":0,"timezone":"UTC","updateNotScheduled":false}
{"labels":"x","$schema":"s","automerge":true}|{"labels":["x"]}
{"labels":null,"addLabels":null,"postUpgradeTasks":null}|{"addLabels":[],"labels":null,"postUpgradeTasks":{"commands":[],"fileFilters":[]}}
{"extends":["config:recommended"],"labels":["dependencies"],"packageRules":[{"matchPackageNames":["@types/*"],"groupName":"types"}]}|{"labels":["dependencies"],"packageRules":[{"groupName":"types","matchPackageNames":["@types/*"]}]}
{"packageRules":[{"matchFoo":1,"enabled":false},{"matchManagers":null,"prHourlyLimit":1,"description":"d"}]}|{"packageRules":[{}]}
{"postUpgradeTasks":{"commands":"sort","fileFilters":["*.txt"]}}|{"postUpgradeTasks":{"commands":["sort"],"fileFilters":["*.txt"]}}
{"labels":"x\"\u00e9\n","branchPrefix":"b/","schedule":[]}|{"branchPrefix":"b/","labels":["x\"é\n"],"schedule":[]}
{"ignorePaths":["**/a/**","!/b/i"],"allowedVersions":"!/^2/"}|{"allowedVersions":"!/^2/","ignorePaths":["**/a/**","!/b/i"]}
{"allowedVersions":"<2","minimumReleaseAge":"3 days","rangeStrategy":null}|{"allowedVersions":"<2","minimumReleaseAge":"3 days","rangeStrategy":null}
{"postUpgradeTasks":{"executionMode":1}}|{"postUpgradeTasks":{}}
{"packageRules":[{"rangeStrategy":"pin","matchUpdateTypes":"pin","matchCurrentVersion":"<2","matchCurrentValue":"/^1/","addLabels":null,"enabled":null}]}|{"packageRules":[{"addLabels":[],"enabled":null,"matchCurrentValue":"/^1/","matchCurrentVersion":"<2","matchUpdateTypes":["pin"],"rangeStrategy":"pin"}]}
{"customManagers":[{"matchStrings":["c"],"fileMatch":["a","b"],"customType":"regex","depNameTemplate":"d","datasourceTemplate":"docker","x":1}]}|{"customManagers":[{"customType":"regex","datasourceTemplate":"docker","depNameTemplate":"d","fileMatch":["a","b"],"matchStrings":["c"]}]}"#;

#[test]
fn texts(rt: HostRuntime) -> Result<(), Fail> {
    let alloc = rt.alloc();
    for line in TEXTS.lines() {
        let mut cells = line.split('|');
        let config = config(alloc, cells.next().ok_or("a configuration")?)?;
        let wanted = cells.next().ok_or("a text")?;
        assert_eq!(rt; config.text(alloc)?.as_str(), wanted);
    }
    Ok(())
}

#[test]
fn gets(rt: HostRuntime) -> Result<(), Fail> {
    let alloc = rt.alloc();
    let config = config(alloc, r#"{"enabled":false,"timezone":"UTC"}"#)?.share(alloc)?;
    assert!(rt;
        matches!(
            config.get(Opt::Enabled),
            Some(OptValue::Plain(Plain::Flag(false)))
        )
    );
    assert!(rt;
        matches!(
            config.get(Opt::Timezone),
            Some(OptValue::Plain(Plain::Word(_)))
        )
    );
    assert!(rt; config.get(Opt::Labels).is_none());
    Ok(())
}
