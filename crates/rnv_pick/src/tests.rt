ghost use Rattle.std.specs.Prelude.{◌≡◌, IfOk};

use crate::{Allowed, Dep, DepOptions, Listing, Picked, Rules, UpdateOptions, one_answer, updates};
use rnv_base::{List, ManagerKind, Share, SourceKind, Strategy, Text, UpdateKind};
use rnv_pattern::{MemBuilder, PatternList};
use rnv_release::Release;
use std::alloc::{AllocError, Global};
use std::cell::Cell;
use std::convert::{AsSlice, AsStr};
use std::test::Fail;

// The same options for all, and how often those of an update were asked for.
#[derive(Drop)]
struct Fixed {
    ignored: bool,
    enabled: bool,
    strategy: Strategy,
    allowed: Option<Allowed>,
    split_major: bool,
    split_patch: bool,
    update: UpdateOptions,
    asked: Cell<u64>,
}

fn copied(alloc: Global, allowed: &Option<Allowed>) -> Result<Option<Allowed>, AllocError>
    ensures { IfOk result (λ copy. copy ≡ allowed.now) }
{
    match allowed {
        Some(allowed) => Ok(Some(allowed.share(alloc)?)),
        None => Ok(None),
    }
}

impl Rules for Fixed {
    ghost options = { λ m. record {
      is_ignored = λ dep. m.ignored;
      at_dep = λ dep. record { enabled = m.enabled; strategy = m.strategy; allowed = m.allowed; split_major = m.split_major; split_patch = m.split_patch };
      at_update = λ dep kind text. m.update;
    } };

    fn is_ignored(&self, _dep: &Dep) -> bool {
        self.ignored
    }

    fn at_dep(&self, alloc: Global, _dep: &Dep) -> Result<DepOptions, AllocError> {
        Ok(DepOptions {
            enabled: self.enabled,
            strategy: self.strategy,
            allowed: copied(alloc, &self.allowed)?,
            split_major: self.split_major,
            split_patch: self.split_patch,
        })
    }

    fn at_update(
        &self,
        _alloc: Global,
        _dep: &Dep,
        _kind: UpdateKind,
        _new_value: &str,
    ) -> Result<UpdateOptions, AllocError> {
        self.asked.set(self.asked.get().wrapping_add(1));
        Ok(self.update)
    }
}

// The options where nothing is set but the strategy.
fn rules(strategy: Strategy) -> Fixed {
    Fixed {
        ignored: false,
        enabled: true,
        strategy,
        allowed: None,
        split_major: true,
        split_patch: false,
        update: UpdateOptions {
            enabled: true,
            age: None,
        },
        asked: Cell::new(0),
    }
}

fn strategy(word: &str) -> Strategy {
    match word {
        "pin" => Strategy::Pin,
        "bump" => Strategy::Bump,
        "replace" => Strategy::Replace,
        "widen" => Strategy::Widen,
        "in-range-only" => Strategy::InRangeOnly,
        _ => Strategy::Auto,
    }
}

// A release as `TEXT`, `TEXT!` where it was drawn back, and `TEXT@N` with a time.
fn release(alloc: Global, text: &str) -> Result<Release, AllocError> {
    let (text, yanked) = match text.strip_suffix('!') {
        Some(text) => (text, true),
        None => (text, false),
    };
    let (text, time) = match text.split_once('@') {
        Some((text, time)) => (text, time.parse().ok()),
        None => (text, None),
    };
    Ok(Release {
        text: Text::copied(alloc, text)?,
        time,
        yanked,
    })
}

fn releases(alloc: Global, texts: &str) -> Result<List<Release>, AllocError> {
    let mut list = List::empty(alloc);
    for text in texts.split(' ') {
        list.push(release(alloc, text)?)?;
    }
    Ok(list)
}

fn dep(alloc: Global, source: SourceKind, value: &str) -> Result<Dep, AllocError> {
    Ok(Dep {
        file: Text::copied(alloc, "package.json")?,
        manager: ManagerKind::Npm,
        source,
        place: Text::copied(alloc, "dependencies")?,
        name: Text::copied(alloc, "x")?,
        package: Text::copied(alloc, "x")?,
        value: Text::copied(alloc, value)?,
        start: 30,
        current: None,
    })
}

// The current version, the skip, and each update as `VERSION[VALUE]KIND`, with `?` where it is pending.
fn shown(alloc: Global, picked: &Picked) -> Result<String, AllocError> {
    let current = match &picked.current {
        Some(text) => text.as_str(),
        None => "-",
    };
    let mut line = format!(in alloc; "{current}")?;
    if let Some(skip) = picked.skip {
        line.push_str(format!(in alloc; " {skip:?}")?.as_str())?;
    }
    for update in picked.updates.as_slice() {
        let (version, value) = (update.new_version.as_str(), update.new_value.as_str());
        let mark = if update.pending { "?" } else { "" };
        line.push_str(format!(in alloc; " {version}[{value}]{:?}{mark}", update.kind)?.as_str())?;
    }
    Ok(line)
}

// What is shown at the moment 100.
fn listed(
    alloc: Global,
    rules: &Fixed,
    source: SourceKind,
    value: &str,
    texts: &str,
) -> Result<String, AllocError> {
    let releases = releases(alloc, texts)?;
    let dep = dep(alloc, source, value)?;
    let listing = Listing::read(alloc, source, releases)?;
    let picked = updates(alloc, &dep, Some(&listing), rules, 100)?;
    shown(alloc, &picked)
}

// What stands in a line before the first `;`, and behind it.
fn field(line: &str) -> (&str, &str) {
    line.split_once(';').unwrap_or((line, ""))
}

// A strategy, a value of npm, the releases, and the current version with the updates.
const NPM: &str = "\
auto;^4.17.0;4.17.0 4.17.21 5.0.0;4.17.21 5.0.0[^5.0.0]Major\n\
widen;^4.17.0;4.17.0 4.17.21 5.0.0;4.17.21 5.0.0[^4.17.0 || ^5.0.0]Major\n\
pin;^4.17.0;4.17.0 4.17.21 5.0.0;4.17.21 4.17.21[4.17.21]Pin\n\
bump;^4.17.0;4.17.0 4.17.21 5.0.0;4.17.21 4.17.21[^4.17.21]Patch 5.0.0[^5.0.0]Major\n\
bump;4.x;4.17.0 4.17.21 5.0.0;4.17.21 5.0.0[5.x]Major\n\
bump;^4.17.21;4.17.0 4.17.21;4.17.21\n\
bump;^1.0.0-beta.1;1.0.0-beta.2 1.0.0 1.0.1;1.0.1 1.0.1[^1.0.1]Patch\n\
bump;>=4 <5;4.17.0 4.17.21 5.0.0;4.17.21 5.0.0[>=4 <5 || ^5.0.0]Major\n\
bump;4.17.0;4.17.21 5.0.0;4.17.0 4.17.21[4.17.21]Patch 5.0.0[5.0.0]Major\n\
in-range-only;^4.17.0;4.17.0 4.17.21 5.0.0;4.17.21\n\
in-range-only;1.0.0;1.0.1;1.0.0\n\
replace;4.17;4.17.0 4.18.0 5.0.0;4.17.0 4.18.0[4.18]Minor 5.0.0[5.0]Major\n\
replace;>=4 <5;4.17.0 4.18.0 5.0.0;4.18.0 5.0.0[>=4 <5 || ^5.0.0]Major\n\
widen;4.17.0 - 4.18;4.17.0 4.18.0 5.0.0;4.18.0 5.0.0[4.17.0 - 4.18 || ^5.0.0]Major\n\
widen;1.0.0;1.0.0 2.0.0;1.0.0 2.0.0[2.0.0]Major\n\
pin;1.0.0;1.0.0 1.1.0 2.0.0;1.0.0 1.1.0[1.1.0]Minor 2.0.0[2.0.0]Major\n\
pin;*;1.0.0 2.0.0-rc.1 v1.1.0+b;v1.1.0+b v1.1.0+b[1.1.0]Pin\n\
auto; =v18.2.0 ;18.2.0 18.3.1 19.0.0 20.0.0! 20.0.0-rc.1 latest;18.2.0 18.3.1[ =v18.3.1 ]Minor 19.0.0[ =v19.0.0 ]Major\n\
auto;= v1.0.0-rc.1+b;1.0.0-rc.2 0.9.0;1.0.0-rc.1+b 1.0.0-rc.2[= v1.0.0-rc.2]Patch\n\
auto;1.0.0;1.1.0+a 1.1.0+b;1.0.0 1.1.0+b[1.1.0]Minor\n\
auto;1.0.0;1.1.0+b 1.1.0+a;1.0.0 1.1.0+b[1.1.0]Minor\n\
auto;1.x;1.0.0 2.0.0 2.1.0;1.0.0 2.1.0[2.x]Major\n\
auto;19.0.0;18.2.0 18.3.1 19.0.0;19.0.0\n\
auto;>=1.2.3-beta.1 <2 || 3.x;1.3.0-rc.1 3.0.0-a;- NoRelease\n\
auto;>=1.2.3-beta.1 <2 || 3.x;1.3.0-rc.1 1.2.3-beta.2 3.0.0-a;1.2.3-beta.2 1.3.0-rc.1[>=1.2.3-beta.1 <2 || 3.x || ^1.3.0-rc.1]Minor 3.0.0-a[>=1.2.3-beta.1 <2 || 3.x || ^3.0.0-a]Major\n\
auto;>=1.2.3-beta.1 <2 || 3.x;1.2.3-beta.2 3.0.0 3.0.0-a;3.0.0\n\
auto;git:x;1.0.1;- Unreadable\n\
auto;^3.0.0;1.0.1 2.0.0 3.0.0!;- NoRelease";

// The same of Cargo.
const CRATES: &str = "\
auto;1.2;1.2.9 1.9.0 2.0.0;1.9.0 2.0.0[2.0]Major\n\
auto;=1.2.3;1.2.4 1.3.0 2.0.0;1.2.3 1.3.0[=1.3.0]Minor 2.0.0[=2.0.0]Major\n\
pin;1.2;1.2.9 1.9.0 2.0.0;1.9.0 1.9.0[=1.9.0]Pin\n\
pin;=1.2.3-rc.1;1.2.3-rc.2;1.2.3-rc.1 1.2.3-rc.2[=1.2.3-rc.2]Patch\n\
bump;1.0.100;1.0.100 1.0.200;1.0.200 1.0.200[1.0.200]Patch\n\
bump;^1.0.0-beta.1;1.0.0-beta.2 1.0.0 1.0.1;1.0.1 1.0.1[^1.0.1]Patch\n\
bump;>=1, <2;1.5.0 2.5.0;1.5.0 2.5.0[2.5.0]Major\n\
replace;>=1, <2;1.5.0 1.6.0 2.5.0;1.6.0 2.5.0[2.5.0]Major\n\
widen;1.0.100;1.0.100 1.0.200 2.0.0;1.0.200 2.0.0[2.0.0]Major\n\
in-range-only;1;1.0.0 2.0.0;1.0.0\n\
auto;1.2 || 2;1.2.0;- Unreadable";

// The same of tags.
const TAGS: &str = "\
auto;20.1-alpine;20.2-alpine 21.0-alpine 22.0 latest 20.9-slim;20.1-alpine 20.2-alpine[20.2-alpine]Minor 21.0-alpine[21.0-alpine]Major\n\
pin;20.04;22.04 20.4 20.10;20.04 20.10[20.10]Minor 22.04[22.04]Major\n\
bump;v1;v2 3;v1 v2[v2]Major\n\
widen;1.2.3;1.2.4 1.2;1.2.3 1.2.4[1.2.4]Patch\n\
in-range-only;1.2.3;1.2.4;1.2.3\n\
auto;latest;1.2.4;- Unreadable";

#[test]
fn lists_updates(rt: HostRuntime) -> Result<(), Fail> {
    let tables = [
        (SourceKind::Npm, NPM),
        (SourceKind::Crates, CRATES),
        (SourceKind::Docker, TAGS),
    ];
    for (source, lines) in tables {
        for line in lines.split('\n') {
            let (word, line) = field(line);
            let (value, line) = field(line);
            let (texts, want) = field(line);
            let found = listed(rt.alloc(), &rules(strategy(word)), source, value, texts)?;
            assert_eq!(rt; found.as_str(), want, "{word} {value} among {texts}");
        }
    }
    Ok(())
}

// A range of npm, releases, and the greatest in the range: a row for each kind of comparator.
const CURRENT: &str = "\
*;1.0.0 2.0.0-a;1.0.0\n\
^*;1.0.0 2.0.0-a;1.0.0\n\
<=*;1.0.0 2.0.0;2.0.0\n\
>*;1.0.0 2.0.0;- NoRelease\n\
<*;0.0.0 1.0.0;- NoRelease\n\
1;1.0.0 1.9.9 2.0.0-0 2.0.0;1.9.9\n\
=1;0.9.9 1.0.0 2.0.0;1.0.0\n\
1.2;1.1.9 1.2.0 1.2.9 1.3.0;1.2.9\n\
=1.2.3;1.2.4;1.2.3\n\
~1;1.0.0 1.9.9 2.0.0;1.9.9\n\
~1.2;1.2.0 1.2.9 1.3.0;1.2.9\n\
~1.2.3;1.2.2 1.2.9 1.3.0;1.2.9\n\
~> 1.2;1.2.9 1.3.0;1.2.9\n\
^1.2.3;1.2.2 1.9.9 2.0.0-0 2.0.0;1.9.9\n\
^1.2.3;1.2.2 2.0.0;- NoRelease\n\
^0.2.3;0.2.2 0.2.9 0.3.0;0.2.9\n\
^0.0.3;0.0.2 0.0.3 0.0.4;0.0.3\n\
^0;0.9.9 1.0.0;0.9.9\n\
^1;1.0.0 1.9.9 2.0.0;1.9.9\n\
^1.2;1.1.9 1.2.0 1.9.9 2.0.0;1.9.9\n\
^0.2;0.1.9 0.2.0 0.2.9 0.3.0;0.2.9\n\
>1;1.9.9 2.0.0;2.0.0\n\
>1.2;1.2.9 1.3.0;1.3.0\n\
>=1;0.9.9 1.0.0;1.0.0\n\
>=1.2;1.1.9 1.2.0;1.2.0\n\
<1;0.9.9 1.0.0-a 1.0.0;0.9.9\n\
<1.2;1.1.9 1.2.0;1.1.9\n\
<=1;1.9.9 2.0.0;1.9.9\n\
<=1.2;1.2.9 1.3.0;1.2.9\n\
>1.2.3;1.2.3;- NoRelease\n\
>=1.2.3;1.2.2 1.2.3;1.2.3\n\
<1.2.3;1.2.2 1.2.3;1.2.2\n\
<=1.2.3;1.2.3 1.2.4;1.2.3\n\
1.2 - 2.3;2.3.9 2.4.0;2.3.9\n\
1.2.3 - 2.3.4;2.3.4 2.3.5;2.3.4\n\
^1.2.3-beta.2;1.2.3-beta.1 1.2.3-beta.3 1.2.4-beta.3;1.2.3-beta.3\n\
1 || 3;1.0.0 2.0.0 3.0.0+a 3.0.0+b;3.0.0+b";

#[test]
fn finds_the_current_version(rt: HostRuntime) -> Result<(), Fail> {
    let rules = rules(Strategy::InRangeOnly);
    for line in CURRENT.split('\n') {
        let (value, line) = field(line);
        let (texts, want) = field(line);
        let found = listed(rt.alloc(), &rules, SourceKind::Npm, value, texts)?;
        assert_eq!(rt; found.as_str(), want, "{value} among {texts}");
    }
    Ok(())
}

// What is allowed, and the updates of `1.0.0` among 1.1.0, 1.2.0, 2.0.0 and 3.0.0. Behind `/` stands a pattern.
const ALLOWED: &str = "\
<2;1.0.0 1.2.0[1.2.0]Minor\n\
2.x;1.0.0 2.0.0[2.0.0]Major\n\
latest;1.0.0\n\
/^1\\.1/;1.0.0 1.1.0[1.1.0]Minor\n\
!/^3/;1.0.0 1.2.0[1.2.0]Minor 2.0.0[2.0.0]Major";

fn allowed(alloc: Global, text: &str) -> Result<Allowed, Fail> {
    let copy = Text::copied(alloc, text)?;
    if text.starts_with('/') || text.starts_with("!/") {
        let mut engines = MemBuilder::new(alloc, List::empty(alloc));
        let list = PatternList::read(alloc, &mut engines, &[text])?;
        return Ok(Allowed::Patterns { text: copy, list });
    }
    Ok(Allowed::Range { text: copy })
}

#[test]
fn keeps_to_what_is_allowed(rt: HostRuntime) -> Result<(), Fail> {
    let mut rules = rules(Strategy::Auto);
    for line in ALLOWED.split('\n') {
        let (text, want) = field(line);
        rules.allowed = Some(allowed(rt.alloc(), text)?);
        let found = listed(
            rt.alloc(),
            &rules,
            SourceKind::Npm,
            "1.0.0",
            "1.1.0 1.2.0 2.0.0 3.0.0",
        )?;
        assert_eq!(rt; found.as_str(), want, "{text}");
    }
    Ok(())
}

const AGED: &str = "1.0.1@10 1.0.2@50 1.0.3@51 1.1.0@90 1.2.0@60 2.0.0 2.0.1@99";

// Whether majors, and patches, are chosen apart; the updates of `1.0.0` at the age 50; and how often the options
// of an update were asked for.
#[test]
fn waits_for_the_age(rt: HostRuntime) -> Result<(), Fail> {
    one_answer();
    let mut rules = rules(Strategy::Auto);
    rules.update.age = Some(50);
    let cases = [
        (false, false, "1.0.0 2.0.0[2.0.0]Major", 2),
        (false, true, "1.0.0 2.0.0[2.0.0]Major", 4),
        (true, false, "1.0.0 1.0.2[1.0.2]Patch 2.0.0[2.0.0]Major", 10),
        (
            true,
            true,
            "1.0.0 1.0.2[1.0.2]Patch 1.2.0[1.2.0]Minor? 2.0.0[2.0.0]Major",
            16,
        ),
    ];
    for (split_major, split_patch, want, asked) in cases {
        rules.split_major = split_major;
        rules.split_patch = split_patch;
        let found = listed(rt.alloc(), &rules, SourceKind::Npm, "1.0.0", AGED)?;
        assert_eq!(rt; found.as_str(), want);
        assert_eq!(rt; rules.asked.get(), asked);
    }
    Ok(())
}

#[test]
fn skips_for_the_first_reason(rt: HostRuntime) -> Result<(), Fail> {
    let alloc = rt.alloc();
    let mut rules = rules(Strategy::Pin);
    let cases = [
        (true, false, "git:x", "- Ignored"),
        (false, false, "git:x", "- Unreadable"),
        (false, false, "1.0.0", "1.0.0 Disabled"),
        (false, true, "^1.0.0", "1.1.0"),
    ];
    rules.update.enabled = false;
    for (ignored, enabled, value, want) in cases {
        rules.ignored = ignored;
        rules.enabled = enabled;
        let found = listed(alloc, &rules, SourceKind::Npm, value, "1.1.0 1.2.0!")?;
        assert_eq!(rt; found.as_str(), want, "{value}");
    }
    rules.enabled = false;
    let dep = dep(alloc, SourceKind::Npm, "1.0.0")?;
    let picked = updates(alloc, &dep, None, &rules, 100)?;
    let found = shown(alloc, &picked)?;
    assert_eq!(rt; found.as_str(), "1.0.0 NoIndex");
    Ok(())
}

// Ten thousand releases in rising order, and the options are asked for of the one that is chosen.
#[test]
fn asks_for_few(rt: HostRuntime) -> Result<(), Fail> {
    let alloc = rt.alloc();
    let mut texts = String::new(alloc);
    for number in 0..10000u32 {
        texts.push_str(format!(in alloc; "1.{number}.0 ")?.as_str())?;
    }
    let mut rules = rules(Strategy::Auto);
    rules.update.age = Some(50);
    let found = listed(alloc, &rules, SourceKind::Npm, "1.0.0", texts.as_str())?;
    assert_eq!(rt; found.as_str(), "1.0.0 1.9999.0[1.9999.0]Minor");
    assert_eq!(rt; rules.asked.get(), 1);
    Ok(())
}
