use crate::{read_write, spell};
use rnv_base::{Bytes, List, Text};
use rnv_repo::{Branch, EditedFile, FileChange, Key, Write, is_orderly};
use std::alloc::{AllocError, Global};
use std::convert::AsSlice;
use std::test::Fail;

// The branch of the writes.
const X: &str = "renovate/x-1.x";

// The write of dropping branch `renovate/x-1.x` in `a/b`.
const DROP: [u8; 26] = [
    3, 0, 0, 0, 3, 97, 47, 98, 0, 0, 0, 14, 114, 101, 110, 111, 118, 97, 116, 101, 47, 120, 45, 49,
    46, 120,
];

fn text(alloc: Global, text: &str) -> Result<Text, AllocError> {
    Text::copied(alloc, text)
}

fn bytes(alloc: Global, bytes: &[u8]) -> Result<Bytes, AllocError> {
    Ok(Bytes::new(Vec::from_slice(alloc, bytes)?))
}

fn keys(alloc: Global) -> Result<List<Key>, AllocError> {
    let mut keys = List::empty(alloc);
    keys.push(Key {
        file: text(alloc, "package.json")?,
        package: text(alloc, "x")?,
        new_value: text(alloc, "1.2.3")?,
    })?;
    Ok(keys)
}

fn set_base(alloc: Global, new: Option<&[u8]>) -> Result<Write, AllocError> {
    let new = match new {
        Some(new) => Some(bytes(alloc, new)?),
        None => None,
    };
    let mut changes = List::empty(alloc);
    changes.push(FileChange {
        path: text(alloc, "package.json")?,
        bytes: new,
    })?;
    Ok(Write::SetBase {
        repo: text(alloc, "a/b")?,
        changes,
    })
}

fn put_branch(alloc: Global) -> Result<Write, AllocError> {
    let mut files = List::empty(alloc);
    files.push(EditedFile {
        path: text(alloc, "package.json")?,
        bytes: bytes(alloc, b"{}")?,
    })?;
    let branch = Branch {
        name: text(alloc, X)?,
        revision: 0,
        updates: keys(alloc)?,
        files,
        problem: text(alloc, "")?,
    };
    Ok(Write::PutBranch {
        repo: text(alloc, "a/b")?,
        branch,
    })
}

fn drop_branch(alloc: Global) -> Result<Write, AllocError> {
    Ok(Write::DropBranch {
        repo: text(alloc, "a/b")?,
        name: text(alloc, X)?,
    })
}

fn open(alloc: Global) -> Result<Write, AllocError> {
    Ok(Write::OpenRequest {
        repo: text(alloc, "a/b")?,
        number: 1,
        branch: text(alloc, X)?,
        updates: keys(alloc)?,
        title: text(alloc, "Update dependency x to 1.2.3")?,
        body: text(alloc, "x\n")?,
        labels: List::empty(alloc),
        made_at: 1_717_409_700,
    })
}

fn edit(alloc: Global) -> Result<Write, AllocError> {
    let mut labels = List::empty(alloc);
    labels.push(text(alloc, "deps")?)?;
    Ok(Write::EditRequest {
        repo: text(alloc, "a/b")?,
        number: 1,
        updates: keys(alloc)?,
        title: text(alloc, "Update dependency x to 1.2.4")?,
        body: text(alloc, "y\n")?,
        labels,
    })
}

fn autoclose(alloc: Global) -> Result<Write, AllocError> {
    Ok(Write::Autoclose {
        repo: text(alloc, "a/b")?,
        number: 1,
    })
}

fn finish(alloc: Global) -> Result<Write, AllocError> {
    Ok(Write::Finish {
        repo: text(alloc, "a/b")?,
        page: Some(text(alloc, "# page\n")?),
    })
}

// A write of each kind, and one that removes a file.
fn writes(alloc: Global) -> Result<Vec<Write>, AllocError> {
    let mut writes = Vec::new(alloc);
    writes.push(set_base(alloc, Some(b"{ }"))?)?;
    writes.push(put_branch(alloc)?)?;
    writes.push(open(alloc)?)?;
    writes.push(edit(alloc)?)?;
    writes.push(autoclose(alloc)?)?;
    writes.push(drop_branch(alloc)?)?;
    writes.push(finish(alloc)?)?;
    writes.push(set_base(alloc, None)?)?;
    Ok(writes)
}

#[test]
fn one_spelling_as_bytes(rt: HostRuntime) -> Result<(), Fail> {
    let spelled = spell(rt.alloc(), &drop_branch(rt.alloc())?)?;
    assert_eq!(rt; spelled.as_slice(), DROP.as_slice());
    Ok(())
}

#[test]
fn each_kind_is_read_again(rt: HostRuntime) -> Result<(), Fail> {
    let writes = writes(rt.alloc())?;
    for write in &writes {
        assert!(rt; is_orderly(write));
        let spelled = spell(rt.alloc(), write)?;
        let again = read_write(rt.alloc(), spelled.as_slice())?.ok_or("not read")?;
        let twice = spell(rt.alloc(), &again)?;
        assert_eq!(rt; twice.as_slice(), spelled.as_slice());
    }
    Ok(())
}
