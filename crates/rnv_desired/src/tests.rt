use crate::texts::title;
use crate::{desired, givens, one_desired};
use rnv_base::{Bytes, List, ManagerKind, MemFile, MemFolder, SourceKind, Text, UpdateKind};
use rnv_outcome::{Item, ItemEdits};
use rnv_pick::{Dep, Update, UpdateOptions};
use rnv_plan::gather_folder;
use std::alloc::{AllocError, Global};
use std::convert::{AsSlice, AsStr};
use std::test::Fail;

// A folder of the files in a text of lines, each a path, a space and a text.
fn folder(alloc: Global, lines: &str) -> Result<MemFolder, Fail> {
    let mut list = List::empty(alloc);
    for line in lines.lines() {
        let (path, text) = line.split_once(' ').ok_or("no text")?;
        list.push(MemFile {
            path: Text::copied(alloc, path)?,
            bytes: Bytes::new(Vec::from_slice(alloc, text.as_bytes())?),
        })?;
    }
    Ok(MemFolder::new(alloc, list, List::empty(alloc))?.ok_or("order")?)
}

// The items of `acme/web` in a folder of these files.
fn items(alloc: Global, lines: &str) -> Result<List<Item>, Fail> {
    let mut folder = folder(alloc, lines)?;
    let Ok(planned) = gather_folder(alloc, &mut folder, "acme/web", 0) else {
        return Err("not gathered".into());
    };
    let Ok(items) = desired(alloc, &planned.inputs, &planned.files) else {
        return Err("not desired".into());
    };
    Ok(items)
}

// The branch of an item, the new value of each of its keys, and the path and the text of each of its files.
fn shown(alloc: Global, item: &Item) -> Result<String, Fail> {
    let mut line = String::from_str(alloc, item.branch.as_str())?;
    for key in item.updates.as_slice() {
        let value = key.new_value.as_str();
        line.push_str(format!(in alloc; " {value}")?.as_str())?;
    }
    let ItemEdits::Plain { files } = &item.edits else {
        return Err("not edited".into());
    };
    for file in files.as_slice() {
        let path = file.path.as_str();
        let Ok(text) = std::str::from_utf8(file.bytes.as_slice()) else {
            return Err("not a text".into());
        };
        line.push_str(format!(in alloc; " {path} {text}")?.as_str())?;
    }
    line.push('\n')?;
    Ok(line)
}

const REACT: &str = r#"index/npm/react.json {"versions":{"18.2.0":{},"18.3.1":{}}}
repos/acme/web/package.json {"dependencies":{"react":"18.2.0"}}"#;

const BODY: &str = "This request holds these updates:

- react (minor) in package.json: 18.2.0 to 18.3.1

";

#[test]
fn writes_texts(rt: HostRuntime) -> Result<(), Fail> {
    one_desired();
    givens();
    let items = items(rt.alloc(), REACT)?;
    let [item] = items.as_slice() else {
        return Err("not one item".into());
    };
    assert_eq!(rt; item.title.as_str(), "Update dependency react to 18.3.1");
    assert!(rt; item.body.as_str() == BODY);
    assert_eq!(rt;
        item.closing.as_str(),
        "<!-- renovate-branch=renovate/react-18.x -->\n"
    );
    Ok(())
}

const THREE: &str = r#"index/npm/a.json {"versions":{"1.0.0":{},"1.1.0":{}}}
index/npm/b.json {"versions":{"1.0.0":{},"1.1.0":{}}}
index/npm/c.json {"versions":{"1.0.0":{},"1.1.0":{}}}
repos/acme/web/README.md a
repos/acme/web/package.json {"dependencies":{"a":"1.0.0","b":"1.0.0","c":"1.0.0"}}
repos/acme/web/site/package.json {"devDependencies":{"a":"1.0.0"}}"#;

// What is shown of their items: each edits one value of a file, and its files stand by path.
const THREE_ITEMS: &str =
    r#"renovate/a-1.x 1.1.0 1.1.0 package.json {"dependencies":{"a":"1.1.0","b":"1.0.0","c":"1.0.0"}} site/package.json {"devDependencies":{"a":"1.1.0"}}
renovate/b-1.x 1.1.0 package.json {"dependencies":{"a":"1.0.0","b":"1.1.0","c":"1.0.0"}}
renovate/c-1.x 1.1.0 package.json {"dependencies":{"a":"1.0.0","b":"1.0.0","c":"1.1.0"}}
"#;

const MANAGED: &str = r#"index/crates/serde {"vers":"1.1.0"}
index/docker/node.json {"tags":["22.1.0"]}
repos/acme/web/Cargo.toml dependencies.serde = "=1.0.0" # newest
repos/acme/web/Dockerfile FROM node:20.1.0 AS web"#;

const MANAGED_ITEMS: &str =
    r#"renovate/serde-1.x =1.1.0 Cargo.toml dependencies.serde = "=1.1.0" # newest
renovate/node-22.x 22.1.0 Dockerfile FROM node:22.1.0 AS web
"#;

#[test]
fn edits_files(rt: HostRuntime) -> Result<(), Fail> {
    for (files, want) in [(THREE, THREE_ITEMS), (MANAGED, MANAGED_ITEMS)] {
        let items = items(rt.alloc(), files)?;
        let mut all = String::new(rt.alloc());
        for item in items.as_slice() {
            all.push_str(shown(rt.alloc(), item)?.as_str())?;
        }
        assert!(rt; all.as_str() == want, "{all}");
    }
    Ok(())
}

// An update of `a` to this version.
fn update(alloc: Global, version: &str, kind: UpdateKind) -> Result<Update, AllocError> {
    Ok(Update {
        dep: Dep {
            file: Text::copied(alloc, "package.json")?,
            manager: ManagerKind::Npm,
            source: SourceKind::Npm,
            place: Text::copied(alloc, "dependencies")?,
            name: Text::copied(alloc, "a")?,
            package: Text::copied(alloc, "a")?,
            value: Text::copied(alloc, "1.0.0")?,
            start: 0,
            current: None,
        },
        new_version: Text::copied(alloc, version)?,
        new_value: Text::copied(alloc, version)?,
        kind,
        pending: false,
        split_major: true,
        split_patch: false,
        options: UpdateOptions {
            enabled: true,
            age: None,
        },
    })
}

#[test]
fn writes_titles(rt: HostRuntime) -> Result<(), Fail> {
    let none = title(rt.alloc(), &[])?;
    assert_eq!(rt; none.as_str(), "");
    for (version, kind, want) in [
        ("1.1.0", UpdateKind::Pin, "Pin dependencies"),
        ("2.0.0", UpdateKind::Major, "Update dependency a to 2.0.0"),
        // Control characters from outside are spaces.
        (
            "1\u{0}\n\u{1f}\u{7f}é\u{80}",
            UpdateKind::Patch,
            "Update dependency a to 1    é\u{80}",
        ),
    ] {
        let title = title(rt.alloc(), [update(rt.alloc(), version, kind)?].as_slice())?;
        assert!(rt; title.as_str() == want);
    }
    Ok(())
}
