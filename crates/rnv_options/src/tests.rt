use crate::{Kind, MatchOn, Opt, Wrong, customs, read_matcher, read_plain};
use rnv_base::List;
use rnv_pattern::MemBuilder;
use serde_json::Value;
use std::alloc::Global;
use std::test::Fail;

// What a reader answers.
fn answer<T: Drop>(read: Result<T, Wrong>) -> &'static str {
    match read {
        Ok(_) => "ok",
        Err(Wrong::WrongKind) => "kind",
        Err(Wrong::BadValue) => "value",
        Err(Wrong::Memory) => "memory",
    }
}

// What the value of an option is read as. None for a name that is none, and for JSON that is none.
fn option_answer(alloc: Global, name: &str, json: &str) -> Option<&'static str> {
    let mut engines = MemBuilder::new(alloc, List::empty(alloc));
    let Ok(value) = Value::from_str(alloc, json) else {
        return None;
    };
    match Opt::named(name)?.kind() {
        Kind::Plain(values) => Some(answer(read_plain(alloc, &mut engines, values, &value))),
        Kind::Customs => Some(answer(customs(alloc, &mut engines, &value))),
        Kind::Rules => None,
    }
}

// An option, its value, and whether it is read, of another kind or not among the values.
const OPTIONS: &str = r#"enabled|true|ok
enabled|null|ok
enabled|"true"|kind
prHourlyLimit|0|ok
prHourlyLimit|1000001|value
prHourlyLimit|-1|value
prHourlyLimit|1.0|kind
prHourlyLimit|1e2|kind
prHourlyLimit|-0|kind
prHourlyLimit|9223372036854775808|kind
prPriority|-1000000|ok
rangeStrategy|"update-lockfile"|ok
rangeStrategy|"newest"|value
rangeStrategy|["pin"]|kind
labels|"a"|ok
labels|["a",1]|kind
labels|1|kind
ignorePaths|["a","!/b/"]|ok
ignorePaths|["a","b["]|value
ignorePaths|["a","/(/"]|value
allowedVersions|"<2"|ok
allowedVersions|"/^1/"|ok
allowedVersions|"!/[/"|value
allowedVersions|"/a["|value
minimumReleaseAge|"3 days"|ok
minimumReleaseAge|"3"|value
schedule|["* 0-3 * * 1","at any time",""]|ok
schedule|"1 * * * *"|value
rebaseWhen|"never"|ok
branchPrefix|"a/b-"|ok
branchPrefix|""|value
branchPrefix|"A"|value
postUpgradeTasks|{"commands":["x"],"fileFilters":["*.txt"],"executionMode":1}|ok
postUpgradeTasks|{"commands":null}|ok
postUpgradeTasks|{"commands":1}|value
postUpgradeTasks|{"fileFilters":["["]}|value
postUpgradeTasks|[]|kind
customManagers|null|ok
customManagers|[{"customType":"regex","fileMatch":"a","matchStrings":["b"],"autoReplaceStringTemplate":1}]|ok
customManagers|[{"customType":"regex","fileMatch":"a","matchStrings":["b"],"datasourceTemplate":"npm","depNameTemplate":"x"}]|ok
customManagers|[{"customType":"regex","fileMatch":"a","matchStrings":["b"],"datasourceTemplate":null}]|value
customManagers|[{"customType":"jsonata","fileMatch":"a","matchStrings":["b"]}]|value
customManagers|[{"customType":"regex","fileMatch":[],"matchStrings":["b"]}]|value
customManagers|[{"customType":"regex","fileMatch":"a","matchStrings":["("]}]|value
customManagers|[1]|kind
customManagers|{}|kind"#;

#[test]
fn values_of_options(rt: HostRuntime) -> Result<(), Fail> {
    for line in OPTIONS.lines() {
        let mut cells = line.split('|');
        let name = cells.next().ok_or("a name")?;
        let json = cells.next().ok_or("a value")?;
        let wanted = cells.next().ok_or("an answer")?;
        let given = option_answer(rt.alloc(), name, json).ok_or("an option")?;
        assert_eq!(rt; given, wanted, "{line}");
    }
    Ok(())
}

// A matcher, its value, and the same.
const MATCHERS: &str = r#"matchManagers|"npm"|ok
matchPackageNames|["@types/*","!/x/i"]|ok
matchPackageNames|["a["]|value
matchPackageNames|1|kind
matchCurrentValue|"/^1/"|ok
matchCurrentValue|["/^1/"]|kind
matchCurrentVersion|"<2"|ok
matchCurrentVersion|"/abc"|ok
matchCurrentVersion|"!/(/"|value
matchUpdateTypes|["major","a["]|ok"#;

#[test]
fn values_of_matchers(rt: HostRuntime) -> Result<(), Fail> {
    let alloc = rt.alloc();
    for line in MATCHERS.lines() {
        let mut cells = line.split('|');
        let on = MatchOn::named(cells.next().ok_or("a name")?).ok_or("a matcher")?;
        let json = cells.next().ok_or("a value")?;
        let wanted = cells.next().ok_or("an answer")?;
        let mut engines = MemBuilder::new(alloc, List::empty(alloc));
        let value = Value::from_str(alloc, json)?;
        let given = answer(read_matcher(alloc, &mut engines, on, &value));
        assert_eq!(rt; given, wanted, "{line}");
    }
    Ok(())
}

#[test]
fn names_of_options(rt: HostRuntime) -> Result<(), Fail> {
    for opt in crate::ALL {
        assert!(rt; Opt::named(opt.name()) == Some(opt));
    }
    assert!(rt; Opt::named("automerge").is_none());
    assert!(rt; Opt::Enabled.is_read_in_rules() && !Opt::PrHourlyLimit.is_read_in_rules());
    Ok(())
}
