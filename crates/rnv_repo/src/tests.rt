ghost use Rattle.std.specs.Prelude.{◌<◌, IfOk, IfSome};
ghost use Rattle.rnv_repo.specs.Store.{IsSound};

use crate::{
    ApplyError, Branch, EditedFile, FileChange, Key, Refusal, Repo, Write, apply, is_orderly,
};
use rnv_base::{Bytes, List, Text};
use std::alloc::{AllocError, Global};
use std::convert::AsSlice;
use std::test::Fail;

// A branch with a live request, one without, and a name that no branch has.
const X: &str = "renovate/x-1.x";

const Y: &str = "renovate/y-1.x";

const Z: &str = "renovate/z-1.x";

fn text(alloc: Global, text: &str) -> Result<Text, AllocError> {
    Text::copied(alloc, text)
}

fn bytes(alloc: Global, bytes: &[u8]) -> Result<Bytes, AllocError> {
    Ok(Bytes::new(Vec::from_slice(alloc, bytes)?))
}

fn keys(alloc: Global) -> Result<List<Key>, AllocError> {
    let mut keys = List::empty(alloc);
    keys.push(Key {
        file: text(alloc, "package.json")?,
        package: text(alloc, "x")?,
        new_value: text(alloc, "1.2.3")?,
    })?;
    Ok(keys)
}

// Sets `package.json`.
fn set_base(alloc: Global, new: &[u8]) -> Result<Write, AllocError> {
    let mut changes = List::empty(alloc);
    changes.push(FileChange {
        path: text(alloc, "package.json")?,
        bytes: Some(bytes(alloc, new)?),
    })?;
    Ok(Write::SetBase {
        repo: text(alloc, "a/b")?,
        changes,
    })
}

fn put_branch(alloc: Global, name: &str) -> Result<Write, AllocError> {
    let mut files = List::empty(alloc);
    files.push(EditedFile {
        path: text(alloc, "package.json")?,
        bytes: bytes(alloc, b"{}")?,
    })?;
    let branch = Branch {
        name: text(alloc, name)?,
        revision: 0,
        updates: keys(alloc)?,
        files,
        problem: text(alloc, "")?,
    };
    Ok(Write::PutBranch {
        repo: text(alloc, "a/b")?,
        branch,
    })
}

fn drop_branch(alloc: Global, name: &str) -> Result<Write, AllocError> {
    Ok(Write::DropBranch {
        repo: text(alloc, "a/b")?,
        name: text(alloc, name)?,
    })
}

fn open(alloc: Global, number: u32, branch: &str) -> Result<Write, AllocError> {
    Ok(Write::OpenRequest {
        repo: text(alloc, "a/b")?,
        number,
        branch: text(alloc, branch)?,
        updates: keys(alloc)?,
        title: text(alloc, "Update dependency x to 1.2.3")?,
        body: text(alloc, "x\n")?,
        labels: List::empty(alloc),
        made_at: 1_717_409_700,
    })
}

fn edit(alloc: Global, number: u32) -> Result<Write, AllocError> {
    let mut labels = List::empty(alloc);
    labels.push(text(alloc, "deps")?)?;
    Ok(Write::EditRequest {
        repo: text(alloc, "a/b")?,
        number,
        updates: keys(alloc)?,
        title: text(alloc, "Update dependency x to 1.2.4")?,
        body: text(alloc, "y\n")?,
        labels,
    })
}

fn autoclose(alloc: Global, number: u32) -> Result<Write, AllocError> {
    Ok(Write::Autoclose {
        repo: text(alloc, "a/b")?,
        number,
    })
}

fn finish(alloc: Global) -> Result<Write, AllocError> {
    Ok(Write::Finish {
        repo: text(alloc, "a/b")?,
        page: Some(text(alloc, "# page\n")?),
    })
}

#[test]
fn begins_with_its_base(rt: HostRuntime) -> Result<(), Fail> {
    let write = set_base(rt.alloc(), b"{ }")?;
    assert!(rt; is_orderly(&write));
    let Ok(repo) = apply(rt.alloc(), None, &write) else {
        return Err("refused")?;
    };
    assert_eq!(rt; repo.revision, 1);
    assert_eq!(rt; repo.files.len(), 1);
    assert!(rt; repo.due);
    Ok(())
}

#[test]
fn unknown_repositories(rt: HostRuntime) -> Result<(), Fail> {
    for write in [
        put_branch(rt.alloc(), X)?,
        drop_branch(rt.alloc(), X)?,
        open(rt.alloc(), 1, X)?,
        edit(rt.alloc(), 1)?,
        autoclose(rt.alloc(), 1)?,
        finish(rt.alloc())?,
    ] {
        assert!(rt; is_orderly(&write));
        assert!(rt;
            matches!(
                apply(rt.alloc(), None, &write),
                Err(ApplyError::Refused(Refusal::UnknownRepo))
            )
        );
    }
    Ok(())
}

// What a write makes of a repository, or of none.
fn next(alloc: Global, known: Option<Repo>, write: &Write) -> Result<Repo, Fail>
    requires sound { IfSome known IsSound }
    requires revision { IfSome known (λ repo. repo.revision < 4294967295) }
    ensures { IfOk result IsSound }
{
    if !is_orderly(write) {
        return Err("not orderly".into());
    }
    match apply(alloc, known, write) {
        Ok(repo) => Ok(repo),
        Err(_) => Err("refused".into()),
    }
}

// The repository behind a sound one and a write.
fn behind(alloc: Global, repo: Repo, write: &Write) -> Result<Repo, Fail>
    requires { IsSound repo }
    ensures { IfOk result IsSound }
{
    if repo.revision == u32::MAX {
        return Err("no revision is left".into());
    }
    next(alloc, Some(repo), write)
}

// A repository with two branches and a live request on the first.
fn built(alloc: Global) -> Result<Repo, Fail>
    ensures { IfOk result IsSound }
{
    let base = set_base(alloc, b"{}")?;
    let repo = next(alloc, None, &base)?;
    let repo = behind(alloc, repo, &put_branch(alloc, Y)?)?;
    let repo = behind(alloc, repo, &put_branch(alloc, X)?)?;
    behind(alloc, repo, &open(alloc, 1, X)?)
}

// Why a write is refused in that repository.
fn refusal(alloc: Global, write: &Write) -> Result<Option<Refusal>, Fail> {
    let repo = built(alloc)?;
    if repo.revision == u32::MAX || !is_orderly(write) {
        return Err("not to be applied".into());
    }
    match apply(alloc, Some(repo), write) {
        Ok(_) => Ok(None),
        Err(ApplyError::Refused(cause)) => Ok(Some(cause)),
        Err(ApplyError::Memory) => Err("out of memory".into()),
    }
}

// The refusal for this live request.
fn live(number: u32) -> Refusal {
    Refusal::HasLiveRequest { number }
}

#[test]
fn refusals_in_their_order(rt: HostRuntime) -> Result<(), Fail> {
    let alloc = rt.alloc();
    for (write, wanted) in [
        (set_base(alloc, b"{}")?, Refusal::NoChange),
        (drop_branch(alloc, Z)?, Refusal::NoBranch),
        (drop_branch(alloc, X)?, live(1)),
        (open(alloc, 1, Z)?, Refusal::NoBranch),
        (open(alloc, 1, X)?, live(1)),
        (open(alloc, 1, Y)?, Refusal::NumberTaken { number: 1 }),
        (open(alloc, 3, Y)?, Refusal::NumberTaken { number: 3 }),
        (edit(alloc, 2)?, Refusal::NotLive { number: 2 }),
        (autoclose(alloc, 2)?, Refusal::NotLive { number: 2 }),
    ] {
        assert_eq!(rt; refusal(alloc, &write)?, Some(wanted));
    }
    Ok(())
}
