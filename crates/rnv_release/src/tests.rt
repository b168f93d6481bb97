use crate::{
    CrateIndex, Datasource, DockerIndex, IndexError, NpmIndex, ReadIndexError, Release,
    read_releases,
};
use rnv_base::{Bytes, List, MemFile, MemFolder, Share, SourceKind, SteadyFolder, Text};
use std::alloc::{AllocError, Global};
use std::convert::{AsSlice, AsStr};
use std::test::Fail;

// Each release as `TEXT=TIME` and a space, with `!` where it was drawn back.
fn shown(alloc: Global, releases: &[Release]) -> Result<String, AllocError> {
    let mut line = String::new(alloc);
    for release in releases {
        line.push_str(release.text.as_str())?;
        match release.time {
            Some(time) => line.push_str(format!(in alloc; "={time}")?.as_str())?,
            None => line.push_str("=none")?,
        }
        line.push_str(if release.yanked { "! " } else { " " })?;
    }
    Ok(line)
}

#[test]
fn lists_the_releases_of_npm_documents(rt: HostRuntime) -> Result<(), Fail> {
    let alloc = rt.alloc();
    let rows = [
        ("{\"versions\":{}}", ""),
        (
            "{\"versions\":{\"2.0.0\":{},\"10.0.0\":{},\"1.0.0\":{}}}",
            "1.0.0=none 10.0.0=none 2.0.0=none ",
        ),
        ("{\"versions\":{\"1.0.0\":1,\"1.0.0\":2}}", "1.0.0=none "),
        (
            "{\"versions\":{\"1.0.0\":{}},\"time\":{\"1.0.0\":5}}",
            "1.0.0=none ",
        ),
        (
            "{\"versions\":{\"1.0.0\":{}},\"time\":{\"1.0.0\":\"2024-06-01T00:00:00.9Z\"}}",
            "1.0.0=1717200000 ",
        ),
        (
            "{\"versions\":{\"1.0.0\":{}},\"time\":{\"1.0.0\":\"2024-06-01T02:00:00+02:00\"}}",
            "1.0.0=1717200000 ",
        ),
        (
            "{\"versions\":{\"1.0.0\":{}},\"time\":{\"1.0.0\":\"nonsense\"}}",
            "1.0.0=none ",
        ),
        (
            "{\"versions\":{\"1.0.0\":{}},\"time\":{\"1.0.0\":\"1969-12-31T23:59:59Z\"}}",
            "1.0.0=none ",
        ),
        (
            "{\"versions\":{\"1.0.0\":{}},\"time\":{\"1.0.0\":\"1969-12-31T23:59:59.5Z\"}}",
            "1.0.0=none ",
        ),
        (
            "{\"versions\":{\"1.0.0\":{}},\"time\":{\"1.0.0\":\"9998-12-31T23:59:59Z\"}}",
            "1.0.0=253370764799 ",
        ),
        (
            "{\"versions\":{\"1.0.0\":{}},\"time\":{\"1.0.0\":\"9999-01-01T00:00:00Z\"}}",
            "1.0.0=none ",
        ),
    ];
    for (document, want) in rows {
        match NpmIndex.read(alloc, document.as_bytes()) {
            Ok(releases) => assert!(rt;
                shown(alloc, releases.as_slice())?.as_str() == want,
                "{document}"
            ),
            Err(_) => assert!(rt; false, "{document}"),
        }
    }
    Ok(())
}

#[test]
fn refuses_what_is_no_npm_document(rt: HostRuntime) {
    let alloc = rt.alloc();
    for document in [
        "{}",
        "",
        "{\"versions\":{}",
        "{\"versions\":[]}",
        "[{\"versions\":{}}]",
        "{\"versions\":{},\"time\":[]}",
        "{\"versions\":{},\"time\":null}",
    ] {
        assert!(rt;
            is_bad(NpmIndex.read(alloc, document.as_bytes())),
            "{document}"
        );
    }
    assert!(rt; is_bad(NpmIndex.read(alloc, b"{\"versions\":{\"\xff\":1}}")));
}

fn is_bad(read: Result<List<Release>, IndexError>) -> bool {
    matches!(read, Err(IndexError::BadIndex { line: 1 }))
}

// A document with so many releases.
fn long_document(alloc: Global, count: u32) -> Result<String, AllocError> {
    let mut document = String::from_str(alloc, "{\"versions\":{\"first\":{}")?;
    for number in 1..count {
        document.push_str(format!(in alloc; ",\"1.0.{number}\":{{}}")?.as_str())?;
    }
    document.push_str("}}")?;
    Ok(document)
}

#[test]
fn lists_at_most_50_000_releases(rt: HostRuntime) -> Result<(), Fail> {
    let alloc = rt.alloc();
    match NpmIndex.read(alloc, long_document(alloc, 50_000)?.as_bytes()) {
        Ok(releases) => assert_eq!(rt; releases.len(), 50_000),
        Err(_) => assert!(rt; false),
    }
    match NpmIndex.read(alloc, long_document(alloc, 50_001)?.as_bytes()) {
        Err(error) => assert!(rt; error == IndexError::TooManyReleases { number: 50_000 }),
        Ok(_) => assert!(rt; false),
    }
    Ok(())
}

// A folder's file.
fn file(alloc: Global, path: &str, bytes: &[u8]) -> Result<MemFile, AllocError> {
    Ok(MemFile {
        path: Text::copied(alloc, path)?,
        bytes: Bytes::new(Vec::from_slice(alloc, bytes)?),
    })
}

// What a document gives: its releases, or the line that is refused.
fn told(alloc: Global, read: Result<List<Release>, IndexError>) -> Result<String, AllocError> {
    match read {
        Ok(releases) => shown(alloc, releases.as_slice()),
        Err(IndexError::BadIndex { line }) => format!(in alloc; "line {line}"),
        Err(IndexError::TooManyReleases { number }) => format!(in alloc; "above {number}"),
        Err(IndexError::Memory) => Err(AllocError),
    }
}

#[test]
fn reads_documents_of_crates(rt: HostRuntime) -> Result<(), Fail> {
    let alloc = rt.alloc();
    let rows = [
        ("", ""),
        ("\n\n", ""),
        (" \t\r\n", ""),
        ("{\"vers\":\"1.0.0\"}", "1.0.0=none "),
        ("{\"vers\":\"1.0.0\"}\n", "1.0.0=none "),
        (
            "\n{\"vers\":\"1.0.0\"}\r\n\r\n{\"vers\":\"0.9.0\",\"yanked\":true}\r\n",
            "1.0.0=none 0.9.0=none! ",
        ),
        (
            "{\"name\":\"a\",\"vers\":\"1.0.0\",\"deps\":[],\"features\":{},\"yanked\":false,\"rust_version\":\"1.60\",\"pubtime\":\"2024-06-01T00:00:00Z\"}",
            "1.0.0=1717200000 ",
        ),
        (
            "{\"vers\":\"1.0.0\"}\n{\"vers\":\"1.0.0\"}",
            "1.0.0=none 1.0.0=none ",
        ),
        ("{\"vers\":\"1\",\"pubtime\":5}", "1=none "),
        ("{\"vers\":\"1\",\"pubtime\":\"nonsense\"}", "1=none "),
        (
            "{\"vers\":\"1\",\"pubtime\":\"1969-12-31T23:59:59.5Z\"}",
            "1=none ",
        ),
        ("{\"vers\":\"1\"}{\"vers\":\"2\"}", "line 1"),
        ("{\"vers\":\"1\"}\n\n{\"vers\":\"2\"", "line 3"),
        ("{\"vers\":\"1\"}\n{}\n[", "line 2"),
        ("{\"vers\":1}", "line 1"),
        ("{\"vers\":\"1\",\"yanked\":null}", "line 1"),
        ("{\"vers\":\"1\",\"yanked\":\"true\"}", "line 1"),
        ("[\"vers\"]", "line 1"),
        ("\x0c", "line 1"),
    ];
    for (document, want) in rows {
        let read = CrateIndex.read(alloc, document.as_bytes());
        assert!(rt; told(alloc, read)?.as_str() == want, "{document}");
    }
    let read = CrateIndex.read(alloc, b"{\"vers\":\"1\"}\n{\"vers\":\"\xff\"}");
    assert!(rt; told(alloc, read)?.as_str() == "line 2");
    Ok(())
}

#[test]
fn reads_documents_of_image_tags(rt: HostRuntime) -> Result<(), Fail> {
    let alloc = rt.alloc();
    let rows = [
        ("{\"tags\":[]}", ""),
        (
            "{\"name\":\"node\",\"tags\":[\"20.11.1-alpine\",\"latest\",\"9\",\"9\"]}",
            "20.11.1-alpine=none latest=none 9=none 9=none ",
        ),
        ("{\"tags\":[\"1\"],\"tags\":[\"2\"]}", "2=none "),
        ("", "line 1"),
        ("{}", "line 1"),
        ("\n\n[\"1\"]", "line 1"),
        ("{\"tags\":{}}", "line 1"),
        ("{\"tags\":null}", "line 1"),
        ("{\"tags\":[\"1\",2]}", "line 1"),
        ("{\"tags\":[\"1\",[\"2\"]]}", "line 1"),
        ("{\"tags\":[\"1\"]", "line 1"),
    ];
    for (document, want) in rows {
        let read = DockerIndex.read(alloc, document.as_bytes());
        assert!(rt; told(alloc, read)?.as_str() == want, "{document}");
    }
    Ok(())
}

// So many copies of a text, with the same end behind them.
fn many(
    alloc: Global,
    front: &str,
    each: &str,
    count: u32,
    end: &str,
) -> Result<String, AllocError> {
    let mut document = String::from_str(alloc, front)?;
    for _ in 0..count {
        document.push_str(each)?;
    }
    document.push_str(end)?;
    Ok(document)
}

#[test]
fn reads_at_most_50_000_lines_or_tags(rt: HostRuntime) -> Result<(), Fail> {
    let alloc = rt.alloc();
    let line = "{\"vers\":\"1\"}\n";
    let bad = many(alloc, "", line, 50_002, "x")?;
    let read = CrateIndex.read(alloc, bad.as_bytes());
    assert!(rt; told(alloc, read)?.as_str() == "line 50003");
    for (count, fits) in [(50_000, true), (50_001, false), (50_002, false)] {
        let lines = many(alloc, "\n", line, count, "")?;
        let tags = many(alloc, "{\"tags\":[\"1\"", ",\"1\"", count - 1, "]}")?;
        for read in [
            CrateIndex.read(alloc, lines.as_bytes()),
            DockerIndex.read(alloc, tags.as_bytes()),
        ] {
            match read {
                Ok(releases) => assert!(rt; fits && releases.len() == 50_000),
                Err(error) => assert!(rt;
                    !fits && error == IndexError::TooManyReleases { number: 50_000 }
                ),
            }
        }
    }
    Ok(())
}

#[test]
fn reads_the_releases_of_a_folder(rt: HostRuntime) -> Result<(), Fail> {
    let alloc = rt.alloc();
    let mut files = List::empty(alloc);
    files.push(file(
        alloc,
        "index/crates/serde",
        b"{\"vers\":\"1.0.0\"}\n{\"vers\":\"1.0.1\",\"yanked\":true}\n",
    )?)?;
    files.push(file(
        alloc,
        "index/docker/library/node.json",
        b"{\"tags\":[\"20.11.1-alpine\"]}",
    )?)?;
    files.push(file(
        alloc,
        "index/npm/@a/b.json",
        b"{\"versions\":{\"1.0.0\":{}}}",
    )?)?;
    files.push(file(alloc, "index/npm/bad.json", b"{}")?)?;
    let Some(mut folder) = SteadyFolder::new(alloc, files)? else {
        return Err(Fail::from("the paths do not rise"));
    };
    match read_releases(alloc, &mut folder, &NpmIndex, "@a/b") {
        Ok(Some(releases)) => assert!(rt;
            shown(alloc, releases.share(alloc)?.as_slice())?.as_str() == "1.0.0=none "
        ),
        _ => assert!(rt; false),
    }
    match read_releases(alloc, &mut folder, &SourceKind::Crates, "serde") {
        Ok(Some(releases)) => assert!(rt;
            shown(alloc, releases.as_slice())?.as_str() == "1.0.0=none 1.0.1=none! "
        ),
        _ => assert!(rt; false),
    }
    match read_releases(alloc, &mut folder, &SourceKind::Docker, "library/node") {
        Ok(Some(releases)) => assert!(rt;
            shown(alloc, releases.as_slice())?.as_str() == "20.11.1-alpine=none "
        ),
        _ => assert!(rt; false),
    }
    for name in ["lodash", "../x", ""] {
        assert!(rt;
            matches!(read_releases(alloc, &mut folder, &NpmIndex, name), Ok(None)),
            "{name}"
        );
    }
    match read_releases(alloc, &mut folder, &SourceKind::Npm, "bad") {
        Err(error) => assert!(rt; error == ReadIndexError::BadIndex { line: 1 }),
        Ok(_) => assert!(rt; false),
    }
    Ok(())
}

#[test]
fn tells_a_fault_of_the_folder(rt: HostRuntime) -> Result<(), Fail> {
    let alloc = rt.alloc();
    let mut failing = List::empty(alloc);
    failing.push(0)?;
    let Some(mut folder) = MemFolder::new(alloc, List::empty(alloc), failing)? else {
        return Err(Fail::from("the paths do not rise"));
    };
    match read_releases(alloc, &mut folder, &NpmIndex, "lodash") {
        Err(error) => assert!(rt; error == ReadIndexError::FolderFault),
        Ok(_) => assert!(rt; false),
    }
    Ok(())
}
