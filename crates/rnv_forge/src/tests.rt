ghost use Rattle.std.specs.Prelude.{◌≡◌, ◌↔◌, All, IfOk, IsTrue, OnOk};
ghost use Rattle.rnv_repo.specs.WellFormed.{IsOrderly};

use crate::{Forge, ForgePrepareError, JournalForge, MemForge, WriteError};
use rnv_base::{Bytes, List, Text};
use rnv_disk::{Content, FileNo, MemDisk};
use rnv_journal::StartError;
use rnv_repo::{FileChange, Refusal, Repo, Write, is_orderly};
use std::alloc::{AllocError, Global};
use std::convert::{AsSlice, AsStr};
use std::test::Fail;

// The head of a journal, and the gate of one without entries.
const EMPTY: &[u8] = b"\x01RNVFORGE\x00\x00\x00\x01\x00";

// A disk whose file `Zero` holds these bytes, and whose calls with these numbers fail.
fn disk(alloc: Global, zero: &[u8], failing: &[u64]) -> Result<MemDisk, Fail> {
    let content = Content::new(Vec::from_slice(alloc, zero)?, Vec::new(alloc));
    let failing = List::new(Vec::from_slice(alloc, failing)?);
    Ok(MemDisk::new(alloc, content, failing)?)
}

// A forge over a disk with at most so many bytes.
fn started(alloc: Global, disk: MemDisk, limit: u64) -> Result<JournalForge<MemDisk>, Fail>
    ensures { IfOk result ⟦<JournalForge<MemDisk> as Forge>⟧.holds }
{
    if limit < 14 || limit > 4_294_967_295 {
        return Err("no such limit".into());
    }
    match JournalForge::start_within(alloc, disk, limit) {
        Ok(forge) => Ok(forge),
        Err(_) => Err("not started".into()),
    }
}

fn set_base(alloc: Global, repo: &str, new: &[u8]) -> Result<Write, AllocError> {
    let mut changes = List::empty(alloc);
    changes.push(FileChange {
        path: Text::copied(alloc, "package.json")?,
        bytes: Some(Bytes::new(Vec::from_slice(alloc, new)?)),
    })?;
    Ok(Write::SetBase {
        repo: Text::copied(alloc, repo)?,
        changes,
    })
}

fn finish(alloc: Global, repo: &str) -> Result<Write, AllocError> {
    Ok(Write::Finish {
        repo: Text::copied(alloc, repo)?,
        page: None,
    })
}

// The first base of `a/b`, and the end of a run of a repository.
fn two(alloc: Global, repo: &str) -> Result<List<Write>, AllocError> {
    let mut list = List::empty(alloc);
    list.push(set_base(alloc, "a/b", b"{}")?)?;
    list.push(finish(alloc, repo)?)?;
    Ok(list)
}

// A base of a repository.
fn one(alloc: Global, repo: &str, new: &[u8]) -> Result<List<Write>, AllocError> {
    let mut list = List::empty(alloc);
    list.push(set_base(alloc, repo, new)?)?;
    Ok(list)
}

fn are_orderly(list: &[Write]) -> bool
    ensures { IsTrue result ↔ All IsOrderly list.now }
{
    list.iter().all(|write| is_orderly(write))
}

// Prepares orderly writes.
fn prepare<F: Forge>(
    forge: &mut F,
    alloc: Global,
    list: List<Write>,
) -> Result<Result<(), ForgePrepareError>, Fail>
    requires { F.holds forge.old }
    ensures holds { F.holds forge.new }
    ensures list { IfOk result (λ answer. OnOk answer (F.prepared forge.new ≡ list)) }
{
    if are_orderly(list.as_slice()) {
        Ok(forge.prepare(alloc, list))
    } else {
        Err("not orderly".into())
    }
}

// Prepares a write and does it.
fn write<F: Forge>(
    forge: &mut F,
    alloc: Global,
    repo: &str,
    new: &[u8],
) -> Result<Result<(), WriteError>, Fail>
    requires { F.holds forge.old }
    ensures { F.holds forge.new }
{
    let list = one(alloc, repo, new)?;
    if list.len() != 1 {
        return Err("not one write".into());
    }
    match prepare(forge, alloc, list)? {
        Ok(()) => Ok(forge.write_next()),
        Err(_) => Err("not prepared".into()),
    }
}

// Two writes of `a/b` behind one of another repository, and the answers to them.
fn write_three<F: Forge>(forge: &mut F, alloc: Global) -> Result<[Result<(), WriteError>; 3], Fail>
    requires { F.holds forge.old }
    ensures { F.holds forge.new }
{
    let first = write(forge, alloc, "c/d", b"{}")?;
    let second = write(forge, alloc, "a/b", b"{ }")?;
    let third = write(forge, alloc, "a/b", b"{}")?;
    Ok([first, second, third])
}

// How many repositories there are, and the first of them.
fn first_repo<F: Forge>(forge: &F, alloc: Global) -> Result<(usize, Repo), Fail>
    requires { F.holds forge.now }
{
    let names = forge.names(alloc)?;
    let name = names.as_slice().first().ok_or("no name")?;
    let repo = forge.repo(alloc, name)?.ok_or("no repository")?;
    Ok((names.len(), repo))
}

#[test]
fn writes_stand_after_a_start(rt: HostRuntime) -> Result<(), Fail> {
    let alloc = rt.alloc();
    let mut forge = started(alloc, disk(alloc, b"", &[])?, 1000)?;
    assert_eq!(rt; write_three(&mut forge, alloc)?, [Ok(()), Ok(()), Ok(())]);
    // Without entries 14, and 5 more and the payload for each: 35, 36 and 35 bytes.
    assert_eq!(rt; (forge.count(), forge.length()), (3, 135));
    let disk = forge.into_disk();
    let payload =
        b"\x01\x00\x00\x00\x03a/b\x00\x00\x00\x01\x00\x00\x00\x0cpackage.json\x01\x00\x00\x00\x02{}\x00";
    assert!(rt; disk.part(FileNo::Zero).ends_with(payload));
    let Ok(forge) = JournalForge::start(alloc, disk) else {
        return Err("not started again".into());
    };
    let (count, repo) = first_repo(&forge, alloc)?;
    assert_eq!(rt; (count, repo.name.as_str(), repo.revision), (2, "a/b", 2));
    Ok(())
}

#[test]
fn writes_stand_in_memory(rt: HostRuntime) -> Result<(), Fail> {
    let alloc = rt.alloc();
    let mut forge = MemForge::new(alloc, 1000, List::empty(alloc));
    assert_eq!(rt; write_three(&mut forge, alloc)?, [Ok(()), Ok(()), Ok(())]);
    assert_eq!(rt; (forge.count(), forge.length(alloc)?), (3, 135));
    let (count, repo) = first_repo(&forge, alloc)?;
    assert_eq!(rt; (count, repo.name.as_str(), repo.revision), (2, "a/b", 2));
    Ok(())
}

// What a start answers to these bytes.
fn refused(alloc: Global, zero: &[u8], failing: &[u64]) -> Result<Option<StartError>, Fail> {
    match JournalForge::start(alloc, disk(alloc, zero, failing)?) {
        Ok(_) => Ok(None),
        Err(refused) => Ok(Some(refused.error)),
    }
}

#[test]
fn starts_that_are_refused(rt: HostRuntime) -> Result<(), Fail> {
    let alloc = rt.alloc();
    // A whole entry that is no write.
    let entry = b"\x01RNVFORGE\x00\x00\x00\x01\x01\x00\x00\x00\x01M\x00";
    let no_write = Some(StartError::NotAJournal { offset: 13 });
    assert_eq!(rt; refused(alloc, entry, &[])?, no_write);
    let no_head = Some(StartError::NotAJournal { offset: 0 });
    assert_eq!(rt; refused(alloc, b"another file", &[])?, no_head);
    assert_eq!(rt; refused(alloc, EMPTY, &[0])?, Some(StartError::DiskFault));
    Ok(())
}

// The answers to two lists of writes.
fn prepare_both<F: Forge>(
    forge: &mut F,
    alloc: Global,
) -> Result<[Result<(), ForgePrepareError>; 2], Fail>
    requires { F.holds forge.old }
{
    let first = prepare(forge, alloc, two(alloc, "c/d")?)?;
    let second = prepare(forge, alloc, two(alloc, "a/b")?)?;
    Ok([first, second])
}

// Why both are refused: one write is of no known repository, and for the others 60 bytes are too few.
fn refusals() -> [Result<(), ForgePrepareError>; 2] {
    let unknown = ForgePrepareError::Refused {
        index: 1,
        cause: Refusal::UnknownRepo,
    };
    // Without entries 14, and 5 more and the payload for each: 35 and 9 bytes.
    let full = ForgePrepareError::Full {
        length: 68,
        limit: 60,
    };
    [Err(unknown), Err(full)]
}

#[test]
fn writes_that_are_refused(rt: HostRuntime) -> Result<(), Fail> {
    let alloc = rt.alloc();
    let mut forge = started(alloc, disk(alloc, EMPTY, &[])?, 60)?;
    assert_eq!(rt; prepare_both(&mut forge, alloc)?, refusals());
    let mut forge = MemForge::new(alloc, 60, List::empty(alloc));
    assert_eq!(rt; prepare_both(&mut forge, alloc)?, refusals());
    Ok(())
}

// The answer to a write, and to the writes that are to come then.
fn write_and_prepare<F: Forge>(
    forge: &mut F,
    alloc: Global,
) -> Result<(Result<(), WriteError>, Result<(), ForgePrepareError>), Fail>
    requires { F.holds forge.old }
{
    let written = write(forge, alloc, "a/b", b"{}")?;
    let prepared = prepare(forge, alloc, one(alloc, "a/b", b"{}")?)?;
    Ok((written, prepared))
}

// The answers where the first write meets a fault of the disk.
fn closed() -> (Result<(), WriteError>, Result<(), ForgePrepareError>) {
    (Err(WriteError::DiskFault), Err(ForgePrepareError::Closed))
}

#[test]
fn a_fault_closes_the_forge(rt: HostRuntime) -> Result<(), Fail> {
    let alloc = rt.alloc();
    // A start of a made journal makes two calls.
    let mut forge = started(alloc, disk(alloc, EMPTY, &[2])?, 1000)?;
    assert_eq!(rt; write_and_prepare(&mut forge, alloc)?, closed());
    let failing = List::new(Vec::from_slice(alloc, &[0])?);
    let mut forge = MemForge::new(alloc, 1000, failing);
    assert_eq!(rt; write_and_prepare(&mut forge, alloc)?, closed());
    Ok(())
}
