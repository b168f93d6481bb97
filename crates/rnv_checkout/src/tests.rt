use crate::{BaseError, FolderBase, read_base};
use rnv_base::{Bytes, List, MemFile, MemFolder, Text};
use std::alloc::Global;
use std::convert::{AsSlice, AsStr};
use std::test::Fail;

// A folder of these files, whose calls with these numbers fail.
fn folder(alloc: Global, rows: &[(&str, &[u8])], failing: &[u64]) -> Result<MemFolder, Fail> {
    let mut files = List::empty(alloc);
    for (path, bytes) in rows {
        files.push(MemFile {
            path: Text::copied(alloc, path)?,
            bytes: Bytes::new(Vec::from_slice(alloc, bytes)?),
        })?;
    }
    let failing = List::new(Vec::from_slice(alloc, failing)?);
    Ok(MemFolder::new(alloc, files, failing)?.ok_or("the paths do not rise")?)
}

// The paths of the files that are kept, each with a space behind it.
fn paths(alloc: Global, base: &FolderBase) -> Result<String, Fail> {
    let mut paths = String::new(alloc);
    for file in base.files.as_slice() {
        paths.push_str(file.path.as_str())?;
        paths.push(' ')?;
    }
    Ok(paths)
}

// What a refusal says.
fn said(alloc: Global, error: &BaseError) -> Result<String, Fail> {
    Ok(match error {
        BaseError::FolderFault => String::from_str(alloc, "fault")?,
        BaseError::Limit { which, number } => {
            let which = which.as_str();
            format!(in alloc; "{which} {number}")?
        }
        BaseError::UnknownRepo => String::from_str(alloc, "unknown")?,
        BaseError::Memory => String::from_str(alloc, "memory")?,
    })
}

const ROWS: [(&str, &[u8]); 9] = [
    ("index/npm/react.json", b"{}"),
    ("repos/acme/web/.git/config", b"x"),
    ("repos/acme/web/Dockerfile", b"FROM node:20.11.1-alpine\n"),
    ("repos/acme/web/a\x07b", b""),
    ("repos/acme/web/a/.git", b""),
    ("repos/acme/web/a/.gitignore", b"out/\n"),
    ("repos/acme/web/latin1", b"caf\xe9"),
    ("repos/acme/web/package.json", b"{}"),
    ("repos/acme/website/package.json", b"{}"),
];

#[test]
fn bases(rt: HostRuntime) -> Result<(), Fail> {
    let alloc = rt.alloc();
    for (repo, want, passed) in [
        ("acme/web", "Dockerfile a/.gitignore package.json ", 4),
        ("acme/website", "package.json ", 0),
    ] {
        let mut folder = folder(alloc, &ROWS, &[])?;
        let base = read_base(alloc, &mut folder, repo).map_err(|_| "no base")?;
        assert_eq!(rt; paths(alloc, &base)?.as_str(), want);
        assert_eq!(rt; base.passed, passed, "of {repo}");
    }
    Ok(())
}

#[test]
fn refusals(rt: HostRuntime) -> Result<(), Fail> {
    let alloc = rt.alloc();
    for (repo, failing, want) in [
        ("acme/none", [99].as_slice(), "unknown"),
        ("acme/web", [0].as_slice(), "fault"),
        ("acme/web", [1].as_slice(), "fault"),
        ("acme/web", [4].as_slice(), "fault"),
    ] {
        let mut folder = folder(alloc, &ROWS, failing)?;
        match read_base(alloc, &mut folder, repo) {
            Ok(_) => return Err("a base".into()),
            Err(error) => assert_eq!(rt; said(alloc, &error)?.as_str(), want),
        }
    }
    Ok(())
}

#[test]
fn large_files(rt: HostRuntime) -> Result<(), Fail> {
    let alloc = rt.alloc();
    let most = vec![in alloc; 97u8; 1_048_576]?;
    let more = vec![in alloc; 97u8; 1_048_577]?;
    let mut rows = Vec::new(alloc);
    rows.push(("repos/acme/web/a", more.as_slice()))?;
    rows.push(("repos/acme/web/b", most.as_slice()))?;
    let mut one = folder(alloc, rows.as_slice(), &[])?;
    let base = read_base(alloc, &mut one, "acme/web").map_err(|_| "no base")?;
    assert_eq!(rt; paths(alloc, &base)?.as_str(), "b ");
    assert_eq!(rt; base.passed, 1);
    let names = "abcdefghijklmnopqrstuvwxyzABCDEFGHIJKLMNOPQRSTUVWXYZ0123456789-_+";
    let mut files = Vec::new(alloc);
    for name in names.chars() {
        files.push(format!(in alloc; "repos/acme/web/{name}")?)?;
    }
    files.sort()?;
    let mut many = Vec::new(alloc);
    for file in files.iter() {
        many.push((file.as_str(), most.as_slice()))?;
    }
    let mut all = folder(alloc, many.as_slice(), &[])?;
    match read_base(alloc, &mut all, "acme/web") {
        Ok(_) => return Err("a base".into()),
        Err(error) => assert_eq!(rt; said(alloc, &error)?.as_str(), "base 67108864"),
    }
    Ok(())
}
