use crate::show_text;
use rnv_base::{Bytes, List, Text};
use rnv_repo::{Branch, EditedFile, FileAt, Key, Repo, Request, RequestState};
use std::alloc::{AllocError, Global};
use std::test::Fail;

fn key(alloc: Global, package: &str) -> Result<Key, AllocError> {
    Ok(Key {
        file: Text::copied(alloc, "package.json")?,
        package: Text::copied(alloc, package)?,
        new_value: Text::copied(alloc, "1.1.0")?,
    })
}

fn branch(
    alloc: Global,
    name: &str,
    updates: List<Key>,
    problem: &str,
) -> Result<Branch, AllocError> {
    Ok(Branch {
        name: Text::copied(alloc, name)?,
        revision: 2,
        updates,
        files: List::<EditedFile>::empty(alloc),
        problem: Text::copied(alloc, problem)?,
    })
}

fn branches(alloc: Global) -> Result<List<Branch>, AllocError> {
    let mut updates = List::empty(alloc);
    updates.push(key(alloc, "a")?)?;
    updates.push(key(alloc, "b")?)?;
    let mut branches = List::empty(alloc);
    branches.push(branch(alloc, "renovate/a-1.x", updates, "")?)?;
    branches.push(branch(
        alloc,
        "renovate/b-1.x",
        List::empty(alloc),
        "a.txt: sort ended\twith 1",
    )?)?;
    Ok(branches)
}

fn request(
    alloc: Global,
    number: u32,
    branch: &str,
    state: RequestState,
) -> Result<Request, AllocError> {
    Ok(Request {
        number,
        branch: Text::copied(alloc, branch)?,
        updates: List::empty(alloc),
        title: Text::copied(alloc, "Update a\nto 1.1.0")?,
        body: Text::copied(alloc, "body")?,
        labels: List::empty(alloc),
        made_at: 0,
        state,
    })
}

// Requests by descending branch, in each state.
fn requests(alloc: Global) -> Result<List<Request>, AllocError> {
    let mut requests = List::empty(alloc);
    requests.push(request(alloc, 1, "renovate/c-1.x", RequestState::Merged)?)?;
    requests.push(request(alloc, 2, "renovate/b-1.x", RequestState::Live)?)?;
    requests.push(request(alloc, 3, "renovate/a-1.x", RequestState::Closed)?)?;
    requests.push(request(alloc, 14, "renovate/a-1.x", RequestState::Autoclosed)?)?;
    Ok(requests)
}

fn repo(alloc: Global, page: Option<Text>, due: bool) -> Result<Repo, AllocError> {
    let mut files = List::empty(alloc);
    files.push(FileAt {
        path: Text::copied(alloc, "package.json")?,
        bytes: Bytes::new(Vec::new(alloc)),
        changed: 1,
    })?;
    Ok(Repo {
        name: Text::copied(alloc, "acme/web")?,
        revision: 3,
        files,
        branches: branches(alloc)?,
        requests: requests(alloc)?,
        page,
        due,
        deliveries: List::empty(alloc),
    })
}

const REPO: &str = "repo acme/web revision 3 files 1 due ";

const MIDDLE: &str =
    "\nbranch renovate/a-1.x revision 2 updates 2 problem none\nbranch renovate/b-1.x revision 2 updates 0 problem a.txt: sort ended with 1\nrequest #1 merged renovate/c-1.x Update a to 1.1.0\nrequest #2 live renovate/b-1.x Update a to 1.1.0\nrequest #3 closed renovate/a-1.x Update a to 1.1.0\nrequest #14 autoclosed renovate/a-1.x Update a to 1.1.0\n";

#[test]
fn shows_a_repository(rt: HostRuntime) -> Result<(), Fail> {
    let alloc = rt.alloc();
    for (page, due, end) in [
        (None, true, "page none\n"),
        (Some("# page\n"), false, "page 7 bytes\n# page\n"),
        (Some("# page"), true, "page 6 bytes\n# page\n"),
        (Some(""), true, "page 0 bytes\n\n"),
    ] {
        let kept = match page {
            Some(page) => Some(Text::copied(alloc, page)?),
            None => None,
        };
        let text = show_text(alloc, &repo(alloc, kept, due)?)?;
        let word = if due { "yes" } else { "no" };
        let want = format!(in alloc; "{REPO}{word}{MIDDLE}{end}")?;
        assert!(rt; text.as_slice() == want.as_bytes(), "with {end}");
    }
    Ok(())
}
