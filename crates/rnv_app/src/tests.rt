use crate::{Ended, Outside, renovate};
use rnv_base::{Bytes, List, MemFile, MemFolder, MemSink, SteadyFolder, SteadySink, Text};
use rnv_disk::{Content, SteadyDisk};
use std::alloc::{AllocError, Global};
use std::test::Fail;

// A file's path and text.
type File = (&'static str, &'static str);

const PLAN: &str = "plan acme/web --now 2024-06-03T10:15:00Z";

// The one file of the repository.
const PACKAGE: &str = "repos/acme/web/package.json";

const LEFT_PAD: File = ("index/npm/left-pad.json", "{\"versions\":{\"1.3.0\":{}}}");

const REACT: File = (
    "index/npm/react.json",
    "{\"versions\":{\"18.2.0\":{},\"18.3.1\":{},\"19.0.0\":{}}}",
);

const TWO: File = (
    PACKAGE,
    "{\"dependencies\":{\"react\":\"18.2.0\",\"left-pad\":\"1.3.0\"}}",
);

const TWO_PLAN: &str =
    "now 2024-06-03T10:15:00Z\npackage.json react 18.2.0 -> 18.3.1 (minor) renovate/react-18.x\npackage.json react 18.2.0 -> 19.0.0 (major) renovate/react-19.x\n2 updates, 2 branches\n";

const NO_PLAN: &str = "now 2024-06-03T10:15:00Z\n0 updates, 0 branches\n";

const UNKNOWN: &str = "error 3: unknown repository\n";

// The words between the spaces of a line.
fn words(alloc: Global, line: &str) -> Result<List<Text>, AllocError> {
    let mut words = List::empty(alloc);
    for word in line.split(' ') {
        if !word.is_empty() {
            words.push(Text::copied(alloc, word)?)?;
        }
    }
    Ok(words)
}

fn files(alloc: Global, files: &[File]) -> Result<List<MemFile>, AllocError> {
    let mut list = List::empty(alloc);
    for (path, text) in files {
        list.push(MemFile {
            path: Text::copied(alloc, path)?,
            bytes: Bytes::new(Vec::from_slice(alloc, text.as_bytes())?),
        })?;
    }
    Ok(list)
}

// A disk that holds nothing.
fn empty(alloc: Global) -> Result<SteadyDisk, AllocError> {
    SteadyDisk::new(alloc, Content::new(Vec::new(alloc), Vec::new(alloc)))
}

// What the words of a line do where nothing fails.
fn steady(
    alloc: Global,
    line: &str,
    held: &[File],
) -> Result<Ended<SteadySink, SteadyFolder, SteadyDisk>, Fail> {
    let folder = SteadyFolder::new(alloc, files(alloc, held)?)?.ok_or("order")?;
    let out = SteadySink::new(alloc);
    let disk = empty(alloc)?;
    Ok(renovate(alloc, &words(alloc, line)?, Outside { out, folder, disk }))
}

// What the words of a line do where these calls of the output and of the folder fail.
fn failing(
    alloc: Global,
    line: &str,
    writes: &[u64],
    reads: &[u64],
) -> Result<Ended<MemSink, MemFolder, SteadyDisk>, Fail> {
    let held = files(alloc, &[LEFT_PAD, REACT, TWO])?;
    let reads = List::new(Vec::from_slice(alloc, reads)?);
    let folder = MemFolder::new(alloc, held, reads)?.ok_or("order")?;
    let out = MemSink::new(alloc, List::new(Vec::from_slice(alloc, writes)?));
    let disk = empty(alloc)?;
    Ok(renovate(alloc, &words(alloc, line)?, Outside { out, folder, disk }))
}

const SERDE: &str = r#"[dependencies]
# serde = "0.1.0"
serde_x = { package = "serde", version = "1.0.100" } # "1.0.100"
[package.metadata]
note = """
[dependencies]
serde = "1.0.100"
"""
"#;

const STAGES: &str = "FROM --platform=linux/amd64 localhost:5000/base:1.2 AS build
from build
FROM ${IMG}:3
FROM node:20.1 AS web
FROM scratch
";

// The files, the status, and what is printed.
const PLANS: [(&[File], u8, &str); 20] = [
    (&[LEFT_PAD, REACT, TWO], 0, TWO_PLAN),
    (
        &[
            REACT,
            (PACKAGE, "{\"dependencies\":{\"react\":\"^18.2.0\"}}"),
        ],
        0,
        "now 2024-06-03T10:15:00Z\npackage.json react ^18.2.0 -> ^19.0.0 (major) renovate/react-19.x\n1 updates, 1 branches\n",
    ),
    (&[REACT, (PACKAGE, "{\"a\":1")], 0, NO_PLAN),
    (
        &[
            REACT,
            (PACKAGE, "{\"dependencies\":{\"react\":\"19.0.0\"}}"),
        ],
        0,
        NO_PLAN,
    ),
    (
        &[
            (
                "index/npm/@types/node.json",
                "{\"versions\":{\"20.1.0\":{},\"20.2.0\":{}}}",
            ),
            (PACKAGE, "{\"dependencies\":{\"@types/node\":\"20.1.0\"}}"),
        ],
        0,
        "now 2024-06-03T10:15:00Z\npackage.json @types/node 20.1.0 -> 20.2.0 (minor) renovate/types-node-20.x\n1 updates, 1 branches\n",
    ),
    (
        &[
            (
                "index/npm/a.json",
                "{\"versions\":{\"1.0.0\":{},\"1.1.0-rc.1\":{}}}",
            ),
            (PACKAGE, "{\"dependencies\":{\"a\":\"1.0.0\"}}"),
        ],
        0,
        NO_PLAN,
    ),
    (
        &[
            (
                "index/npm/a.json",
                "{\"versions\":{\"1.1.0-rc.1\":{},\"1.1.0-rc.2\":{}}}",
            ),
            (PACKAGE, "{\"dependencies\":{\"a\":\"1.1.0-rc.1\"}}"),
        ],
        0,
        "now 2024-06-03T10:15:00Z\npackage.json a 1.1.0-rc.1 -> 1.1.0-rc.2 (patch) renovate/a-1.x\n1 updates, 1 branches\n",
    ),
    // A value with an escape is no dependency.
    (
        &[
            ("index/npm/a.json", "{\"versions\":{\"1.0.1\":{}}}"),
            (PACKAGE, "{\"dependencies\":{\"a\":\"1.0.\\u0030\"}}"),
        ],
        0,
        NO_PLAN,
    ),
    (
        &[
            ("index/npm/@@.json", "{\"versions\":{\"1.0.1\":{}}}"),
            (PACKAGE, "{\"dependencies\":{\"@@\":\"1.0.0\"}}"),
        ],
        0,
        "now 2024-06-03T10:15:00Z\npackage.json @@ 1.0.0 -> 1.0.1 (patch) renovate/x-1.x\n1 updates, 1 branches\n",
    ),
    // No document, one outside its grammar, and two such.
    (&[TWO], 0, NO_PLAN),
    (
        &[LEFT_PAD, ("index/npm/react.json", "{}"), TWO],
        13,
        "error 13: index/npm/react.json line 1\n",
    ),
    (
        &[
            ("index/npm/left-pad.json", "{}"),
            ("index/npm/react.json", "{}"),
            TWO,
        ],
        13,
        "error 13: index/npm/left-pad.json line 1\n",
    ),
    // A `Cargo.toml` with an update of one of its texts alone, and Dockerfiles.
    (
        &[
            (
                "index/crates/serde",
                "{\"vers\":\"1.0.100\"}\n{\"vers\":\"1.0.200\"}\n{\"vers\":\"2.0.0\"}\n",
            ),
            ("repos/acme/web/Cargo.toml", SERDE),
        ],
        0,
        "now 2024-06-03T10:15:00Z\nCargo.toml serde 1.0.100 -> 2.0.0 (major) renovate/serde-2.x\n1 updates, 1 branches\n",
    ),
    (
        &[
            (
                "index/docker/localhost:5000/base.json",
                "{\"tags\":[\"1.2\",\"1.3\",\"1.4.0\"]}",
            ),
            ("index/docker/node.json", "{\"tags\":[\"20.2\",\"22.1\"]}"),
            ("repos/acme/web/Dockerfile", STAGES),
        ],
        0,
        "now 2024-06-03T10:15:00Z\nDockerfile localhost:5000/base 1.2 -> 1.3 (minor) renovate/localhost-5000-base-1.x\nDockerfile node 20.1 -> 20.2 (minor) renovate/node-20.x\nDockerfile node 20.1 -> 22.1 (major) renovate/node-22.x\n3 updates, 3 branches\n",
    ),
    (
        &[
            (
                "index/docker/node.json",
                "{\"tags\":[\"20.11.1-alpine\",\"20.12.0-alpine\",\"22.1.0\"]}",
            ),
            ("repos/acme/web/Dockerfile", "FROM node:20.11.1-alpine"),
        ],
        0,
        "now 2024-06-03T10:15:00Z\nDockerfile node 20.11.1-alpine -> 20.12.0-alpine (minor) renovate/node-20.x\n1 updates, 1 branches\n",
    ),
    // A configuration, another repository's file alone, and no file at all.
    (
        &[REACT, TWO, ("repos/acme/web/renovate.json", "{}")],
        15,
        "error 15: renovate.json is not built yet\n",
    ),
    (
        &[REACT, ("repos/acme/other/package.json", "{}")],
        3,
        UNKNOWN,
    ),
    (&[], 3, UNKNOWN),
    // A file in a folder, and one that is passed over.
    (
        &[
            ("index/npm/a.json", "{\"versions\":{\"1.2.0\":{}}}"),
            ("repos/acme/web/README.md", "a"),
            (
                "repos/acme/web/site/package.json",
                "{\"dependencies\":{\"a\":\"1.0.0\"}}",
            ),
        ],
        0,
        "now 2024-06-03T10:15:00Z\nsite/package.json a 1.0.0 -> 1.2.0 (minor) renovate/a-1.x\n1 updates, 1 branches\n",
    ),
    // One package at two places, with two values.
    (
        &[
            ("index/npm/a.json", "{\"versions\":{\"1.2.0\":{}}}"),
            (
                PACKAGE,
                "{\"dependencies\":{\"a\":\"1.0.0\"},\"devDependencies\":{\"a\":\"1.1.0\"}}",
            ),
        ],
        0,
        "now 2024-06-03T10:15:00Z\npackage.json a 1.0.0 -> 1.2.0 (minor) renovate/a-1.x\npackage.json a 1.1.0 -> 1.2.0 (minor) renovate/a-1.x\n2 updates, 1 branches\n",
    ),
];

#[test]
fn prints_plans(rt: HostRuntime) -> Result<(), Fail> {
    for (held, code, text) in PLANS {
        let ended = steady(rt.alloc(), PLAN, held)?;
        assert_eq!(rt; ended.status.code, code, "before {text}");
        assert!(rt; ended.outside.out.bytes() == text.as_bytes(), "not {text}");
    }
    Ok(())
}

#[test]
fn refuses_other_words(rt: HostRuntime) -> Result<(), Fail> {
    for line in [
        "",
        "plan",
        "plan acme/web",
        "plan acme/web --now",
        "plan acme/web --now 2024-06-03T10:15:00",
        "plan acme/web --then 2024-06-03T10:15:00Z",
        "plan acme --now 2024-06-03T10:15:00Z",
        "show",
        "show acme",
        "show acme/web again",
        "import acme/web --now 2024-06-03T10:15:00Z",
        "imports acme/web",
        "runs acme/web --now 2024-06-03T10:15:00Z",
        "run acme --now 2024-06-03T10:15:00Z",
        "run acme/web",
        "plan acme/web --now 2024-06-03T10:15:00Z again",
    ] {
        let ended = steady(rt.alloc(), line, &[LEFT_PAD, REACT, TWO])?;
        assert_eq!(rt; ended.status.code, 2, "at {line}");
        assert!(rt;
            ended.outside.out.bytes() == b"error 2: usage\n".as_slice(),
            "at {line}"
        );
    }
    Ok(())
}

// The plan of a repository without files.
const NO_FILE: &str = "plan acme/other --now 2024-06-03T10:15:00Z";

// The folder is asked for the list, the file and the two documents; the plan is one write.
#[test]
fn tells_faults(rt: HostRuntime) -> Result<(), Fail> {
    let none: &[u64] = &[];
    let first: &[u64] = &[0];
    for call in 0u64..5 {
        let ended = failing(rt.alloc(), PLAN, none, &[call])?;
        let (code, text) = if call < 4 {
            (5, "error 5: folder fault\n")
        } else {
            (0, TWO_PLAN)
        };
        assert_eq!(rt; ended.status.code, code, "at call {call}");
        assert!(rt;
            ended.outside.out.bytes() == text.as_bytes(),
            "at call {call}"
        );
    }
    for (line, writes, reads, code, text) in [
        (PLAN, first, none, 10, ""),
        (PLAN, first, first, 5, ""),
        ("show", first, none, 2, ""),
        (NO_FILE, first, none, 3, ""),
    ] {
        let ended = failing(rt.alloc(), line, writes, reads)?;
        assert_eq!(rt; ended.status.code, code, "at {line}");
        assert!(rt; ended.outside.out.bytes() == text.as_bytes(), "at {line}");
    }
    Ok(())
}
