ghost use Rattle.std.specs.Prelude.{◌≡◌, false, IfOk};

use crate::reporting::report_run;
use crate::{Summary, run_repo, run_text};
use rnv_base::{Bytes, List, MemFile, MemFolder, Text, name_ok};
use rnv_commands::import_base;
use rnv_disk::{Content, FileNo, MemDisk};
use rnv_forge::{Forge, JournalForge};
use rnv_repo::{Key, Repo, Request, RequestState, Write};
use std::alloc::{AllocError, Global};
use std::convert::{AsSlice, AsStr};
use std::test::Fail;

const NAME: &str = "acme/web";

// 2024-06-03T10:15:00Z
const MOMENT: u64 = 1_717_409_700;

// A forge over a disk with these bytes in file `Zero`, whose calls with these numbers fail.
fn started(alloc: Global, zero: &[u8], failing: &[u64]) -> Result<JournalForge<MemDisk>, Fail>
    ensures holds { IfOk result ⟦<JournalForge<MemDisk> as Forge>⟧.holds }
    ensures opened { IfOk result (λ forge. ⟦<JournalForge<MemDisk> as Forge>⟧.closed forge ≡ false) }
    ensures limit { IfOk result (λ forge. ⟦<JournalForge<MemDisk> as Forge>⟧.limit forge ≡ 268435456) }
{
    let content = Content::new(Vec::from_slice(alloc, zero)?, Vec::new(alloc));
    let failing = List::new(Vec::from_slice(alloc, failing)?);
    let disk = MemDisk::new(alloc, content, failing)?;
    match JournalForge::start(alloc, disk) {
        Ok(forge) => Ok(forge),
        Err(_) => Err("not started".into()),
    }
}

const TWO: &[u8] = b"{\"versions\":{\"1.0.0\":{},\"1.1.0\":{}}}";

// The documents of three packages with an update each, and a repository that uses them.
const FILES: [(&str, &[u8]); 4] = [
    ("index/npm/a.json", TWO),
    ("index/npm/b.json", TWO),
    ("index/npm/c.json", TWO),
    (
        "repos/acme/web/package.json",
        b"{\"dependencies\":{\"a\":\"1.0.0\",\"b\":\"1.0.0\",\"c\":\"1.0.0\"}}",
    ),
];

fn folder(alloc: Global) -> Result<MemFolder, Fail> {
    let mut files = List::empty(alloc);
    for (path, bytes) in FILES {
        files.push(MemFile {
            path: Text::copied(alloc, path)?,
            bytes: Bytes::new(Vec::from_slice(alloc, bytes)?),
        })?;
    }
    Ok(MemFolder::new(alloc, files, List::empty(alloc))?.ok_or("order")?)
}

// The bytes of a store with a repository of one file.
fn stored(alloc: Global) -> Result<Vec<u8>, Fail> {
    let name = Text::copied(alloc, NAME)?;
    if !name_ok(name.as_str()) {
        return Err("no name".into());
    }
    let mut folder = folder(alloc)?;
    let mut forge = started(alloc, b"", &[])?;
    match import_base(alloc, &mut forge, &mut folder, &name) {
        Ok(_) => {}
        Err(_) => return Err("not imported".into()),
    }
    let disk = forge.into_disk();
    Ok(Vec::from_slice(alloc, disk.part(FileNo::Zero))?)
}

// What a run prints over these bytes, nothing where a call of the disk failed, and the bytes after it.
fn run(alloc: Global, zero: &[u8], failing: &[u64]) -> Result<(List<u8>, Vec<u8>), Fail> {
    let name = Text::copied(alloc, NAME)?;
    let mut folder = folder(alloc)?;
    let mut forge = started(alloc, zero, failing)?;
    let text = match report_run(alloc, &mut forge, &mut folder, &name, MOMENT) {
        Ok(text) => text,
        Err(_) => List::empty(alloc),
    };
    let disk = forge.into_disk();
    Ok((text, Vec::from_slice(alloc, disk.part(FileNo::Zero))?))
}

const NOW: &str = "now 2024-06-03T10:15:00Z\n";

const FIRST: &str = "put renovate/a-1.x\n";

const REST: &str =
    "opened #1 renovate/a-1.x\nput renovate/b-1.x\nopened #2 renovate/b-1.x\nput renovate/c-1.x\nopened #3 renovate/c-1.x\nfinished\n";

#[test]
fn writes_once(rt: HostRuntime) -> Result<(), Fail> {
    let alloc = rt.alloc();
    let (text, after) = run(alloc, stored(alloc)?.as_slice(), &[])?;
    let want = format!(in alloc; "{NOW}{FIRST}{REST}done 7 writes\n")?;
    assert!(rt; text.as_slice() == want.as_bytes());
    let (text, again) = run(alloc, after.as_slice(), &[])?;
    let want = format!(in alloc; "{NOW}done 0 writes\n")?;
    assert!(rt; text.as_slice() == want.as_bytes());
    assert!(rt; again.as_slice() == after.as_slice());
    Ok(())
}

// A run answers its moment and its writes.
#[test]
fn answers_its_writes(rt: HostRuntime) -> Result<(), Fail> {
    let alloc = rt.alloc();
    let name = Text::copied(alloc, NAME)?;
    let mut folder = folder(alloc)?;
    let mut forge = started(alloc, stored(alloc)?.as_slice(), &[])?;
    let Ok(Summary { moment, writes }) = run_repo(alloc, &mut forge, &mut folder, &name, MOMENT)
    else {
        return Err("refused".into());
    };
    assert!(rt; moment == MOMENT);
    assert!(rt; writes.len() == 7);
    Ok(())
}

#[test]
fn goes_on_after_a_fault(rt: HostRuntime) -> Result<(), Fail> {
    let alloc = rt.alloc();
    let stored = stored(alloc)?;
    let (_, whole) = run(alloc, stored.as_slice(), &[])?;
    // A start makes two calls, and a write four.
    let (text, after) = run(alloc, stored.as_slice(), &[6])?;
    assert!(rt; text.is_empty());
    let (text, after) = run(alloc, after.as_slice(), &[])?;
    let want = format!(in alloc; "{NOW}{REST}done 6 writes\n")?;
    assert!(rt; text.as_slice() == want.as_bytes());
    assert!(rt; after.as_slice() == whole.as_slice());
    Ok(())
}

fn request(alloc: Global, number: u32, branch: &str) -> Result<Request, AllocError> {
    Ok(Request {
        number,
        branch: Text::copied(alloc, branch)?,
        updates: List::<Key>::empty(alloc),
        title: Text::copied(alloc, "title")?,
        body: Text::copied(alloc, "body")?,
        labels: List::<Text>::empty(alloc),
        made_at: MOMENT,
        state: RequestState::Live,
    })
}

// A repository with the requests 2 and 14.
fn repo(alloc: Global) -> Result<Repo, AllocError> {
    let mut requests = List::empty(alloc);
    requests.push(request(alloc, 2, "renovate/a-1.x")?)?;
    requests.push(request(alloc, 14, "renovate/b\t1.x")?)?;
    Ok(Repo {
        name: Text::copied(alloc, NAME)?,
        revision: 1,
        files: List::empty(alloc),
        branches: List::empty(alloc),
        requests,
        page: None,
        due: false,
        deliveries: List::empty(alloc),
    })
}

fn edit(alloc: Global, number: u32) -> Result<Write, AllocError> {
    Ok(Write::EditRequest {
        repo: Text::copied(alloc, NAME)?,
        number,
        updates: List::empty(alloc),
        title: Text::copied(alloc, "title")?,
        body: Text::copied(alloc, "body")?,
        labels: List::empty(alloc),
    })
}

#[test]
fn old_requests_have_branches(rt: HostRuntime) -> Result<(), Fail> {
    let alloc = rt.alloc();
    let mut writes = List::empty(alloc);
    writes.push(Write::Autoclose {
        repo: Text::copied(alloc, NAME)?,
        number: 2,
    })?;
    writes.push(Write::DropBranch {
        repo: Text::copied(alloc, NAME)?,
        name: Text::copied(alloc, "renovate/a-1.x")?,
    })?;
    writes.push(edit(alloc, 14)?)?;
    let text = run_text(alloc, MOMENT, &repo(alloc)?, &writes)?;
    let lines =
        "closed #2 renovate/a-1.x\ndropped renovate/a-1.x\nedited #14 renovate/b 1.x\ndone 3 writes\n";
    let want = format!(in alloc; "{NOW}{lines}")?;
    assert!(rt; text.as_slice() == want.as_bytes());
    Ok(())
}
