use crate::{
    Bytes, Failed, Folder, FolderError, List, MemFile, MemFolder, MemSink, Share, Sink,
    SteadyFolder, SteadySink, Text, moment_read, moment_text, name_ok, package_ok, path_ok,
    write_all,
};
use std::alloc::Global;
use std::convert::{AsSlice, AsStr};
use std::test::Fail;

#[test]
fn moments_both_ways(rt: HostRuntime) -> Result<(), Fail> {
    for (text, want) in [
        ("1970-01-01T00:00:00Z", 0),
        ("2000-02-29T00:00:00Z", 951_782_400),
        ("2024-02-29T23:59:59Z", 1_709_251_199),
        ("2024-06-03T10:15:00Z", 1_717_409_700),
        ("2100-03-01T00:00:00Z", 4_107_542_400),
        ("9998-12-31T23:59:59Z", 253_370_764_799),
    ] {
        let moment = moment_read(text).ok_or("no moment")?;
        assert_eq!(rt; moment, want, "at {text}");
        let again = moment_text(rt.alloc(), moment)?;
        assert_eq!(rt; again.as_str(), text);
    }
    Ok(())
}

#[test]
fn no_moments(rt: HostRuntime) {
    for text in [
        "",
        "2024-06-03",
        "2024-06-03T10:15:00",
        "2024-06-03T10:15:00z",
        "2024-06-03t10:15:00Z",
        "2024-06-03 10:15:00Z",
        "2024-06-03T10:15:00ZZ",
        "2024-06-03T10:15:00+00:00",
        "2024-6-03T10:15:00ZZ",
        "2024-00-01T00:00:00Z",
        "2024-13-01T00:00:00Z",
        "2024-06-00T00:00:00Z",
        "2024-06-31T00:00:00Z",
        "2023-02-29T00:00:00Z",
        "1900-02-29T00:00:00Z",
        "2100-02-29T00:00:00Z",
        "2024-06-03T24:00:00Z",
        "2024-06-03T10:60:00Z",
        "2024-06-30T23:59:60Z",
        "2024-06-03T10:15:0xZ",
        "1969-12-31T23:59:59Z",
        "9999-01-01T00:00:00Z",
        "２024-06-03T10:15:Z",
    ] {
        assert_eq!(rt; moment_read(text), None, "at {text}");
    }
}

#[test]
fn names(rt: HostRuntime) {
    for (name, want) in [
        ("acme/app", true),
        ("A.b_c-9/..d", true),
        ("acme", false),
        ("acme/", false),
        ("/app", false),
        ("acme/app/x", false),
        ("acme/..", false),
        ("./app", false),
        ("acme/a b", false),
        ("acme/\u{e4}", false),
    ] {
        assert_eq!(rt; name_ok(name), want, "at {name}");
    }
    for (path, want) in [
        ("Cargo.toml", true),
        ("a/.b/\u{e4} c", true),
        ("", false),
        ("/a", false),
        ("a//b", false),
        ("a/", false),
        ("a/../b", false),
        ("./a", false),
        ("a\nb", false),
        ("a\u{7f}", false),
    ] {
        assert_eq!(rt; path_ok(path), want, "at {path}");
    }
    for (name, want) in [
        ("serde", true),
        ("@types/node", true),
        ("ghcr.io:443/a_b-c", true),
        ("", false),
        ("a//b", false),
        ("../a", false),
        ("a b", false),
    ] {
        assert_eq!(rt; package_ok(name), want, "at {name}");
    }
}

#[test]
fn texts_and_lists(rt: HostRuntime) -> Result<(), Fail> {
    let a = Text::copied(rt.alloc(), "a")?;
    let b = Text::copied(rt.alloc(), "b")?;
    assert!(rt; a < b);
    let mut list = List::empty(rt.alloc());
    list.push(a)?;
    list.push(b)?;
    let copy = list.share(rt.alloc())?;
    assert!(rt; copy == list);
    assert_eq!(rt; copy.len(), 2);
    Ok(())
}

#[test]
fn bytes_with_room(rt: HostRuntime) -> Result<(), Fail> {
    let mut bytes = Bytes::with_room(rt.alloc(), 4)?;
    bytes.add(b"ab");
    bytes.add(b"cd");
    assert_eq!(rt; bytes.as_slice(), b"abcd".as_slice());
    Ok(())
}

#[test]
fn folders(rt: HostRuntime) -> Result<(), Fail> {
    let failing = List::new(Vec::from_array(rt.alloc(), [1])?);
    let mut folder = MemFolder::new(rt.alloc(), two_files(rt.alloc())?, failing)?.ok_or("order")?;
    let found = folder
        .read(rt.alloc(), "a/y")
        .map_err(|_| "fault")?
        .ok_or("no file")?;
    assert_eq!(rt; found.as_slice(), b"2".as_slice());
    assert_eq!(rt; folder.read(rt.alloc(), "a/x"), Err(FolderError::Failed));
    let paths = folder.list(rt.alloc(), "a/").map_err(|_| "fault")?;
    assert_eq!(rt; paths.len(), 2);
    let mut steady = SteadyFolder::new(rt.alloc(), two_files(rt.alloc())?)?.ok_or("order")?;
    assert!(rt; steady.read(rt.alloc(), "a")?.is_none());
    assert_eq!(rt; steady.list(rt.alloc(), "")?.len(), 2);
    Ok(())
}

fn two_files(alloc: Global) -> Result<List<MemFile>, Fail> {
    let mut files = List::empty(alloc);
    files.push(MemFile {
        path: Text::copied(alloc, "a/x")?,
        bytes: Bytes::new(Vec::from_slice(alloc, b"1")?),
    })?;
    files.push(MemFile {
        path: Text::copied(alloc, "a/y")?,
        bytes: Bytes::new(Vec::from_slice(alloc, b"2")?),
    })?;
    Ok(files)
}

#[test]
fn sinks(rt: HostRuntime) -> Result<(), Fail> {
    let failing = List::new(Vec::from_array(rt.alloc(), [1])?);
    let mut sink = MemSink::new(rt.alloc(), failing);
    write_all(&mut sink, b"ab")?;
    assert_eq!(rt; write_all(&mut sink, b"cd"), Err(Failed));
    write_all(&mut sink, b"ef")?;
    assert_eq!(rt; sink.bytes(), b"abef".as_slice());
    let mut steady = SteadySink::new(rt.alloc());
    write_all(&mut steady, b"gh")?;
    assert_eq!(rt; steady.bytes(), b"gh".as_slice());
    Ok(())
}
