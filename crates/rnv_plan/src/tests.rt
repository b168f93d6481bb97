use crate::branch::branch_of;
use crate::grouping::item_order;
use crate::kept::kept;
use crate::managers::manager_of;
use crate::{
    Group, NamedUpdate, PickedFile, RunError, branch_name, gather_base, gather_folder, items,
    one_order, one_refusal, plan_folder,
};
use rnv_base::{Bytes, List, ManagerKind, MemFile, MemFolder, SourceKind, Text, UpdateKind};
use rnv_pick::{Dep, Update, UpdateOptions};
use std::alloc::{AllocError, Global};
use std::cmp::Ordering;
use std::convert::{AsSlice, AsStr};
use std::test::Fail;

// Packages, and the names of their branches to major version 20.
const BRANCHES: [(&str, &str); 8] = [
    ("lodash", "renovate/lodash-20.x"),
    ("@types/node", "renovate/types-node-20.x"),
    ("Left Pad!!", "renovate/left-pad-20.x"),
    ("--a..b__c--", "renovate/a..b__c-20.x"),
    ("a!?b", "renovate/a-b-20.x"),
    ("@@", "renovate/x-20.x"),
    ("---", "renovate/x-20.x"),
    (".", "renovate/x-20.x"),
];

#[test]
fn names_branches(rt: HostRuntime) -> Result<(), Fail> {
    for (package, branch) in BRANCHES {
        let name = branch_name(rt.alloc(), package, 20)?;
        assert_eq!(rt; name.as_str(), branch);
    }
    Ok(())
}

// Updates: the package, the new version and value, and the kind.
const UPDATES: [(&str, &str, &str, UpdateKind); 7] = [
    ("a", "2.0.0", "2.0.0", UpdateKind::Major),
    ("d", "1.0.0", "1.0.0", UpdateKind::Pin),
    ("b", "1.3.0", "=1.3.0", UpdateKind::Minor),
    ("c", "1.0.1", "1.0.1", UpdateKind::Patch),
    ("z", "latest", "latest", UpdateKind::Minor),
    ("b", "v1.3.0", "1.3.0", UpdateKind::Patch),
    ("@b", "2.0.0", "2.0.0", UpdateKind::Major),
];

// Their items: the branch, the kind, and how many updates there are.
const ITEMS: [(&str, UpdateKind, usize); 6] = [
    ("renovate/pin-dependencies", UpdateKind::Pin, 1),
    ("renovate/c-1.x", UpdateKind::Patch, 1),
    ("renovate/b-1.x", UpdateKind::Minor, 2),
    ("renovate/z-0.x", UpdateKind::Minor, 1),
    ("renovate/a-2.x", UpdateKind::Major, 1),
    ("renovate/b-2.x", UpdateKind::Major, 1),
];

#[test]
fn orders_items(rt: HostRuntime) -> Result<(), Fail> {
    let mut named = List::empty(rt.alloc());
    for (package, version, value, kind) in UPDATES {
        let update = update(rt.alloc(), package, version, value, kind)?;
        let branch = branch_of(rt.alloc(), &update)?;
        named.push(NamedUpdate { branch, update })?;
    }
    let items = items(rt.alloc(), named)?;
    assert_eq!(rt; items.len(), ITEMS.len());
    for (item, (branch, kind, len)) in items.as_slice().iter().zip(ITEMS) {
        assert_eq!(rt; item.branch.as_str(), branch);
        assert_eq!(rt; item.kind, kind);
        assert_eq!(rt; item.updates.len(), len);
    }
    match items.as_slice() {
        [_, _, item, ..] => match item.updates.as_slice() {
            [first, second] => {
                assert_eq!(rt; first.new_value.as_str(), "=1.3.0");
                assert_eq!(rt; second.new_value.as_str(), "1.3.0");
            }
            _ => panic!(rt; "not two updates"),
        },
        _ => panic!(rt; "too few items"),
    }
    Ok(())
}

// Priorities, kinds and names of items in order.
const ORDER: [(i64, UpdateKind, &str); 6] = [
    (7, UpdateKind::Major, "z"),
    (0, UpdateKind::Pin, "z"),
    (0, UpdateKind::Patch, "b"),
    (0, UpdateKind::Patch, "c"),
    (0, UpdateKind::Major, "a"),
    (-1, UpdateKind::Pin, "a"),
];

fn item(alloc: Global, row: (i64, UpdateKind, &str)) -> Result<Group, AllocError> {
    let (priority, kind, branch) = row;
    Ok(Group {
        branch: Text::copied(alloc, branch)?,
        kind,
        priority,
        updates: List::empty(alloc),
    })
}

#[test]
fn orders_by_priority(rt: HostRuntime) -> Result<(), Fail> {
    for (first, second) in ORDER.iter().zip(ORDER.iter().skip(1)) {
        let first = item(rt.alloc(), *first)?;
        let second = item(rt.alloc(), *second)?;
        assert!(rt; item_order(&first, &second) == Ordering::Less);
        assert!(rt; item_order(&second, &first) == Ordering::Greater);
    }
    Ok(())
}

// Of two updates to one first number, as the source counts it, the last stays.
#[test]
fn keeps_last_updates(rt: HostRuntime) -> Result<(), Fail> {
    for (source, versions, want) in [
        (
            SourceKind::Npm,
            "1.1.0 1.2.0 2.0.0 2.1.0 3.0.0",
            "a-1.x 1.2.0 a-2.x 2.1.0 a-3.x 3.0.0 ",
        ),
        (
            SourceKind::Crates,
            "1.1.0 1.2.0+3 2.0.0-rc.1",
            "a-1.x 1.2.0+3 a-2.x 2.0.0-rc.1 ",
        ),
        (
            SourceKind::Docker,
            "v3 18.2-alpine 18.10-alpine",
            "a-3.x v3 a-18.x 18.10-alpine ",
        ),
        (SourceKind::Npm, "v3 18.2-alpine", "a-0.x 18.2-alpine "),
    ] {
        let mut updates = Vec::new(rt.alloc());
        for version in versions.split(' ') {
            let mut update = update(rt.alloc(), "a", version, version, UpdateKind::Minor)?;
            update.dep.source = source;
            updates.push(update)?;
        }
        let mut said = String::new(rt.alloc());
        for named in kept(rt.alloc(), updates.as_slice())?.as_slice() {
            let branch = named
                .branch
                .as_str()
                .strip_prefix("renovate/")
                .ok_or("prefix")?;
            let version = named.update.new_version.as_str();
            said.push_str(format!(in rt.alloc(); "{branch} {version} ")?.as_str())?;
        }
        assert!(rt; said.as_str() == want, "{said}");
    }
    Ok(())
}

fn update(
    alloc: Global,
    package: &str,
    version: &str,
    value: &str,
    kind: UpdateKind,
) -> Result<Update, AllocError> {
    Ok(Update {
        dep: Dep {
            file: Text::copied(alloc, "package.json")?,
            manager: ManagerKind::Npm,
            source: SourceKind::Npm,
            place: Text::copied(alloc, "dependencies")?,
            name: Text::copied(alloc, package)?,
            package: Text::copied(alloc, package)?,
            value: Text::copied(alloc, "1.0.0")?,
            start: 0,
            current: None,
        },
        new_version: Text::copied(alloc, version)?,
        new_value: Text::copied(alloc, value)?,
        kind,
        pending: false,
        split_major: true,
        split_patch: false,
        options: UpdateOptions {
            enabled: true,
            age: None,
        },
    })
}

// Paths, and which manager takes their files.
const PATHS: [(&str, Option<ManagerKind>); 14] = [
    ("package.json", Some(ManagerKind::Npm)),
    ("a/b/package.json", Some(ManagerKind::Npm)),
    ("package.json/a", None),
    ("package.json5", None),
    ("a-package.json", None),
    ("Cargo.toml", Some(ManagerKind::Cargo)),
    ("crates/a/Cargo.toml", Some(ManagerKind::Cargo)),
    ("cargo.toml", None),
    ("Dockerfile", Some(ManagerKind::Dockerfile)),
    ("a/Containerfile", Some(ManagerKind::Dockerfile)),
    ("Dockerfile.dev", Some(ManagerKind::Dockerfile)),
    ("Dockerfile.", Some(ManagerKind::Dockerfile)),
    ("Dockerfiles", None),
    ("Containerfile.dev", None),
];

#[test]
fn names_managers(rt: HostRuntime) {
    for (path, manager) in PATHS {
        assert!(rt; manager_of(path) == manager, "of {path}");
    }
}

// A file's path and text.
type File = (&'static str, &'static str);

const A: File = (
    "index/npm/a.json",
    "{\"versions\":{\"1.0.0\":{},\"1.1.0\":{}}}",
);

const BAD_A: File = ("index/npm/a.json", "{}");

const BAD_B: File = ("index/npm/b.json", "[");

const A_AND_B: &str = "{\"dependencies\":{\"b\":\"1.0.0\",\"a\":\"1.0.0\"}}";

const A_TWICE: &str = "{\"dependencies\":{\"a\":\"1.0.1\"},\"devDependencies\":{\"a\":\"1.1.0\"}}";

const LODASH: File = (
    "index/npm/lodash.json",
    "{\"versions\":{\"4.17.0\":{},\"4.17.21\":{},\"5.0.0\":{}}}",
);

const CARET: &str = "{\"dependencies\":{\"lodash\":\"^4.17.0\"}}";

const NO_RANGE: &str = "{\"dependencies\":{\"b\":\"file:../b\"}}";

const B_OF_CRATES: &str = "[dependencies]\nb = \"1.2\"\n";

const NODE: &str = "FROM node:20.1.0\n";

const RANGE: &str = "{\"dependencies\":{\"b\":\"^1.0.0\"}}";

// The files of a folder, and what is said of the plan of `acme/web`.
const PLANS: [(&[File], &str); 17] = [
    (
        &[
            A,
            ("repos/acme/web/README.md", "a"),
            ("repos/acme/web/lib/package.json", "{\"a\":1"),
            ("repos/acme/web/package.json", A_AND_B),
            ("repos/acme/web/site/package.json", A_TWICE),
            ("repos/acme/website/package.json", RANGE),
        ],
        "renovate/a-1.x package.json 1.0.0 1.1.0 site/package.json 1.0.1 1.1.0 ",
    ),
    (&[A, ("repos/acme/web/README.md", "a")], ""),
    (&[A, ("repos/acme/website/package.json", "{}")], "unknown"),
    (
        &[
            BAD_B,
            ("repos/acme/web/Cargo.toml", ""),
            ("repos/acme/web/package.json", RANGE),
            ("repos/acme/web/renovate.json", "{}"),
        ],
        "not built renovate.json",
    ),
    (&[("repos/acme/web/a/renovate.json", "{}")], ""),
    // Documents are read by source, crates first and images last, and then by name.
    (
        &[
            ("index/crates/b", "{\"vers\":\"1.0.0\"}\nno"),
            BAD_A,
            ("repos/acme/web/Cargo.toml", B_OF_CRATES),
            ("repos/acme/web/package.json", A_AND_B),
        ],
        "refused index/crates/b 2",
    ),
    (
        &[
            ("index/docker/node.json", "["),
            BAD_B,
            ("repos/acme/web/Dockerfile", NODE),
            ("repos/acme/web/package.json", RANGE),
        ],
        "refused index/npm/b.json 1",
    ),
    (
        &[
            ("index/docker/node.json", "["),
            ("repos/acme/web/Dockerfile", NODE),
        ],
        "refused index/docker/node.json 1",
    ),
    (
        &[
            (
                "index/crates/b",
                "{\"vers\":\"1.2.0\"}\n{\"vers\":\"2.0.0\"}\n",
            ),
            ("index/docker/node.json", "{\"tags\":[\"22.1.0\"]}"),
            ("index/npm/b.json", "{\"versions\":{\"3.0.0\":{}}}"),
            ("repos/acme/web/Cargo.toml", B_OF_CRATES),
            ("repos/acme/web/Dockerfile", NODE),
        ],
        "renovate/b-2.x Cargo.toml 1.2 2.0 renovate/node-22.x Dockerfile 20.1.0 22.1.0 ",
    ),
    (&[("repos/acme/web/Containerfile", "")], ""),
    (
        &[BAD_A, BAD_B, ("repos/acme/web/package.json", A_AND_B)],
        "refused index/npm/a.json 1",
    ),
    (
        &[A, BAD_B, ("repos/acme/web/package.json", A_AND_B)],
        "refused index/npm/b.json 1",
    ),
    // The document of a package that no file names is not read, nor one for a value that is no range.
    (&[BAD_A, BAD_B, ("repos/acme/web/package.json", "{}")], ""),
    (&[BAD_B, ("repos/acme/web/package.json", NO_RANGE)], ""),
    // A range stays where the newest release is in it, and goes to the next first number.
    (
        &[LODASH, ("repos/acme/web/package.json", CARET)],
        "renovate/lodash-5.x package.json ^4.17.0 ^5.0.0 ",
    ),
    (&[("repos/acme/web/package.json", CARET)], ""),
    (&[], "unknown"),
];

// A folder of these files, whose calls with these numbers fail.
fn folder(alloc: Global, files: &[File], failing: &[u64]) -> Result<MemFolder, Fail> {
    let mut list = List::empty(alloc);
    for (path, text) in files {
        list.push(MemFile {
            path: Text::copied(alloc, path)?,
            bytes: Bytes::new(Vec::from_slice(alloc, text.as_bytes())?),
        })?;
    }
    let failing = List::new(Vec::from_slice(alloc, failing)?);
    Ok(MemFolder::new(alloc, list, failing)?.ok_or("order")?)
}

// The branch of each item, and of each of its updates the file, the value and the new value.
fn shown(alloc: Global, items: &[Group]) -> Result<String, AllocError> {
    let mut line = String::new(alloc);
    for item in items {
        line.push_str(item.branch.as_str())?;
        line.push(' ')?;
        for update in item.updates.as_slice() {
            let file = update.dep.file.as_str();
            let value = update.dep.value.as_str();
            let new_value = update.new_value.as_str();
            line.push_str(format!(in alloc; "{file} {value} {new_value} ")?.as_str())?;
        }
    }
    Ok(line)
}

// What a refusal says.
fn told(alloc: Global, error: RunError) -> Result<String, AllocError> {
    match error {
        RunError::Memory => String::from_str(alloc, "memory"),
        RunError::FolderFault => String::from_str(alloc, "fault"),
        RunError::DiskFault => String::from_str(alloc, "disk"),
        RunError::UnknownRepo => String::from_str(alloc, "unknown"),
        RunError::NotBuilt { path } => {
            let path = path.as_str();
            format!(in alloc; "not built {path}")
        }
        RunError::Limit { which, number } => {
            let which = which.as_str();
            format!(in alloc; "{which} above {number}")
        }
        RunError::IndexRefused { file, line } => {
            let file = file.as_str();
            format!(in alloc; "refused {file} {line}")
        }
    }
}

// What is said of the plan of `acme/web`.
fn said(alloc: Global, folder: &mut MemFolder) -> Result<String, AllocError> {
    match plan_folder(alloc, folder, "acme/web", 0) {
        Ok(items) => shown(alloc, items.as_slice()),
        Err(error) => told(alloc, error),
    }
}

#[test]
fn plans(rt: HostRuntime) -> Result<(), Fail> {
    one_order();
    one_refusal();
    for (files, want) in PLANS {
        let mut folder = folder(rt.alloc(), files, &[])?;
        let said = said(rt.alloc(), &mut folder)?;
        assert!(rt; said.as_str() == want, "{said}");
    }
    Ok(())
}

// The folder is asked for the list, the file and the two documents.
#[test]
fn tells_faults(rt: HostRuntime) -> Result<(), Fail> {
    let files = [A, ("repos/acme/web/package.json", A_AND_B)];
    for call in 0u64..5 {
        let mut folder = folder(rt.alloc(), files.as_slice(), [call].as_slice())?;
        let said = said(rt.alloc(), &mut folder)?;
        let want = if call < 4 {
            "fault"
        } else {
            "renovate/a-1.x package.json 1.0.0 1.1.0 "
        };
        assert!(rt; said.as_str() == want, "{said} at call {call}");
    }
    Ok(())
}

// A `package.json` of so many dependencies.
fn package(alloc: Global, count: u64) -> Result<Vec<u8>, AllocError> {
    let mut text = String::from_str(alloc, "{\"dependencies\":{\"a\":\"1.0.0\"")?;
    for number in 1..count {
        text.push_str(format!(in alloc; ",\"a{number}\":\"1.0.0\"")?.as_str())?;
    }
    text.push_str("}}")?;
    Vec::from_slice(alloc, text.as_bytes())
}

// A folder of two files, the first with so many dependencies and the second with 10,000.
fn large_folder(alloc: Global, count: u64) -> Result<MemFolder, Fail> {
    let mut list = List::empty(alloc);
    for (path, count) in [
        ("repos/acme/web/a/package.json", count),
        ("repos/acme/web/package.json", 10_000),
    ] {
        list.push(MemFile {
            path: Text::copied(alloc, path)?,
            bytes: Bytes::new(package(alloc, count)?),
        })?;
    }
    Ok(MemFolder::new(alloc, list, List::empty(alloc))?.ok_or("order")?)
}

#[test]
fn counts_dependencies(rt: HostRuntime) -> Result<(), Fail> {
    for (count, want) in [(10_000, ""), (10_001, "dependencies above 20000")] {
        let mut folder = large_folder(rt.alloc(), count)?;
        let said = said(rt.alloc(), &mut folder)?;
        assert!(rt; said.as_str() == want, "{said} of {count}");
    }
    Ok(())
}

// Files, each with the manager that takes it and its dependencies: the place, the package and the value.
const MANAGED: [(File, ManagerKind, &str); 5] = [
    (
        (
            "repos/acme/web/Cargo.toml",
            "[dependencies]\nlog = \"0.4\"\na = { version = \"1\", package = \"b\" }\n[dev-dependencies]\nc = \"=1.0.0\"\n",
        ),
        ManagerKind::Cargo,
        "dependencies log 0.4 dependencies b 1 dev-dependencies c =1.0.0 ",
    ),
    // Outside the grammar of a `Cargo.toml`.
    (
        (
            "repos/acme/web/a/Cargo.toml",
            "[dependencies]\nlog = \"0.4\"\n[",
        ),
        ManagerKind::Cargo,
        "",
    ),
    (
        (
            "repos/acme/web/Dockerfile",
            "FROM rust:1.79 AS build\nFROM debian:12-slim\n",
        ),
        ManagerKind::Dockerfile,
        "stage rust 1.79 final debian 12-slim ",
    ),
    (
        ("repos/acme/web/a/Dockerfile.dev", "FROM scratch\n"),
        ManagerKind::Dockerfile,
        "",
    ),
    (
        (
            "repos/acme/web/package.json",
            "{\"peerDependencies\":{\"a\":\"^1\"}}",
        ),
        ManagerKind::Npm,
        "peerDependencies a ^1 ",
    ),
];

// The place, the package and the value of each dependency of a file.
fn deps(alloc: Global, file: &PickedFile) -> Result<String, AllocError> {
    let mut line = String::new(alloc);
    for picked in file.deps.as_slice() {
        let place = picked.dep.place.as_str();
        let package = picked.dep.package.as_str();
        let value = picked.dep.value.as_str();
        line.push_str(format!(in alloc; "{place} {package} {value} ")?.as_str())?;
    }
    Ok(line)
}

#[test]
fn reads_by_manager(rt: HostRuntime) -> Result<(), Fail> {
    for (file, manager, want) in MANAGED {
        let mut folder = folder(rt.alloc(), [file].as_slice(), &[])?;
        let Ok(planned) = gather_folder(rt.alloc(), &mut folder, "acme/web", 0) else {
            return Err("not gathered".into());
        };
        let [picked] = planned.inputs.picked.as_slice() else {
            return Err("not one file".into());
        };
        assert_eq!(rt; picked.manager, manager);
        let deps = deps(rt.alloc(), picked)?;
        assert!(rt; deps.as_str() == want, "{deps}");
    }
    Ok(())
}

#[test]
fn gathers(rt: HostRuntime) -> Result<(), Fail> {
    let files = [
        A,
        ("repos/acme/web/README.md", "a"),
        ("repos/acme/web/package.json", A_AND_B),
        ("repos/acme/web/site/package.json", A_TWICE),
    ];
    let mut folder = folder(rt.alloc(), files.as_slice(), &[])?;
    let Ok(planned) = gather_folder(rt.alloc(), &mut folder, "acme/web", 7) else {
        return Err("not gathered".into());
    };
    let Ok(inputs) = gather_base(rt.alloc(), &mut folder, "acme/web", 8, &planned.files) else {
        return Err("not gathered again".into());
    };
    assert_eq!(rt; planned.inputs.moment, 7);
    assert_eq!(rt; planned.files.len(), 3);
    assert_eq!(rt; inputs.repo.as_str(), "acme/web");
    assert_eq!(rt; inputs.moment, 8);
    assert_eq!(rt; inputs.picked.len(), 2);
    for (file, path) in inputs
        .picked
        .as_slice()
        .iter()
        .zip(["package.json", "site/package.json"])
    {
        assert_eq!(rt; file.path.as_str(), path);
        assert_eq!(rt; file.manager, ManagerKind::Npm);
        assert_eq!(rt; file.deps.len(), 2);
    }
    Ok(())
}
