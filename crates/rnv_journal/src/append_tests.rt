use crate::{AppendError, Journal, PrepareError, StartError};
use rnv_base::{Bytes, List};
use rnv_disk::{Call, Content, FileNo, MemDisk};
use std::alloc::Global;
use std::convert::AsSlice;
use std::test::Fail;

const HEAD: &[u8] = b"\x01RNVFORGE\x00\x00\x00\x01";

// A disk whose file `Zero` holds these bytes, and whose calls with these numbers fail.
fn disk(alloc: Global, front: &[u8], behind: &[u8], failing: &[u64]) -> Result<MemDisk, Fail> {
    let mut zero = Vec::from_slice(alloc, front)?;
    zero.extend_from_slice(behind)?;
    let content = Content::new(zero, Vec::new(alloc));
    let failing = List::new(Vec::from_slice(alloc, failing)?);
    Ok(MemDisk::new(alloc, content, failing)?)
}

// These byte strings as a list.
fn list(alloc: Global, strings: &[&[u8]]) -> Result<List<Bytes>, Fail> {
    let mut list = List::empty(alloc);
    for string in strings {
        list.push(Bytes::new(Vec::from_slice(alloc, string)?))?;
    }
    Ok(list)
}

// Whether these are the entries.
fn holds(journal: &Journal, strings: &[&[u8]]) -> bool {
    journal.entries().len() == strings.len()
        && journal
            .entries()
            .iter()
            .zip(strings.iter())
            .all(|(entry, string)| entry.as_slice() == *string)
}

// Starts a journal and appends these strings: the journal, where all of it was done.
fn appended(alloc: Global, disk: &mut MemDisk, strings: &[&[u8]]) -> Result<Option<Journal>, Fail> {
    let strings = list(alloc, strings)?;
    let Ok(mut journal) = Journal::start(alloc, disk, 1000) else {
        return Ok(None);
    };
    match journal.prepare(alloc, strings) {
        Ok(()) => {}
        Err(_) => return Err("not prepared".into()),
    }
    match journal.append_all(disk) {
        Ok(()) => Ok(Some(journal)),
        Err(_) => Ok(None),
    }
}

// What a journal of at most 30 bytes answers to these strings, and the length of its file after them.
fn answered(alloc: Global, strings: &[&[u8]]) -> Result<(Result<(), PrepareError>, usize), Fail> {
    let strings = list(alloc, strings)?;
    let mut disk = disk(alloc, HEAD, b"\x00", &[])?;
    let Ok(mut journal) = Journal::start(alloc, &mut disk, 30) else {
        return Err("no journal".into());
    };
    let answer = match journal.prepare(alloc, strings) {
        Ok(()) => match journal.append_all(&mut disk) {
            Ok(()) => Ok(()),
            Err(_) => return Err("not appended".into()),
        },
        Err(error) => Err(error),
    };
    Ok((answer, disk.part(FileNo::Zero).len()))
}

#[test]
fn byte_strings_are_appended(rt: HostRuntime) -> Result<(), Fail> {
    let alloc = rt.alloc();
    let mut disk = disk(alloc, HEAD, b"\x07\x00\x00\x00\x03abc\x00", &[])?;
    let strings = [b"xy".as_slice(), b"".as_slice(), b"abc".as_slice()];
    let journal = appended(alloc, &mut disk, &strings)?.ok_or("not appended")?;
    assert!(rt; holds(&journal, &strings));
    let behind = b"\x01\x00\x00\x00\x02xy\x01\x00\x00\x00\x00\x01\x00\x00\x00\x03abc\x00";
    let mut whole = Vec::from_slice(alloc, HEAD)?;
    whole.extend_from_slice(behind)?;
    assert_eq!(rt; disk.part(FileNo::Zero), whole.as_slice());
    let mut places = Vec::new(alloc);
    for index in 0..journal.entries().len() {
        places.push(journal.place(index))?;
    }
    assert_eq!(rt; places.as_slice(), [13, 20, 25].as_slice());
    // After the three calls of the start, each append has two writes and a sync after each.
    assert_eq!(rt; disk.calls().len(), 3 + 3 * 4);
    Ok(())
}

#[test]
fn the_limit(rt: HostRuntime) -> Result<(), Fail> {
    let alloc = rt.alloc();
    let full = Err(PrepareError::Full {
        length: 31,
        limit: 30,
    });
    for (strings, answer) in [
        ([b"twelve bytes".as_slice()].as_slice(), (full, 14)),
        (
            [b"abc".as_slice(), b"abcd".as_slice()].as_slice(),
            (full, 14),
        ),
        ([b"eleven byte".as_slice()].as_slice(), (Ok(()), 30)),
    ] {
        assert_eq!(rt; answered(alloc, strings)?, answer);
    }
    Ok(())
}

// Whether a start gives one of these lists.
fn starts_with(alloc: Global, disk: &mut MemDisk, lists: &[&[&[u8]]]) -> bool {
    match Journal::start(alloc, disk, 1000) {
        Ok(journal) => lists.iter().any(|strings| holds(&journal, strings)),
        Err(_) => false,
    }
}

// Whether a start gives one of these lists after a stop within the call of this place, with these bytes in the range that it
// leaves open.
fn is_left(
    alloc: Global,
    disk: &MemDisk,
    place: usize,
    torn: &[u8],
    lists: &[&[&[u8]]],
) -> Result<bool, Fail> {
    let content = disk.stopped(alloc, place, torn)?;
    let mut left = MemDisk::new(alloc, content, List::empty(alloc))?;
    Ok(starts_with(alloc, &mut left, lists))
}

// What a write writes.
fn written(call: &Call) -> &[u8] {
    match call {
        Call::Write(_, _, bytes) => bytes.as_slice(),
        _ => &[],
    }
}

// A file in two parts, the strings that are appended, and the lists that a stop may leave, the last of them at the end.
const CASES: [(&[u8], &[u8], &[&[u8]], &[&[&[u8]]]); 5] = [
    (b"", b"", &[], &[&[]]),
    (b"\x00", b"", &[], &[&[]]),
    (HEAD, b"\x07\x00\x00\x00\x03abc\x00", &[], &[&[b"abc"], &[]]),
    (
        HEAD,
        b"\x01\x00\x00\x00\x03abc\x00",
        &[b"xy"],
        &[&[b"abc"], &[b"abc", b"xy"]],
    ),
    (
        b"",
        b"",
        &[b"a", b"", b"bc"],
        &[&[], &[b"a"], &[b"a", b""], &[b"a", b"", b"bc"]],
    ),
];

#[test]
fn stops(rt: HostRuntime) -> Result<(), Fail> {
    let alloc = rt.alloc();
    for (front, behind, strings, lists) in CASES {
        let mut disk = disk(alloc, front, behind, &[])?;
        assert!(rt; appended(alloc, &mut disk, strings)?.is_some());
        for (place, call) in disk.calls().iter().enumerate() {
            let whole = written(call);
            let half = whole.get(..whole.len() / 2).unwrap_or(&[]);
            for torn in [b"".as_slice(), half, whole, &[7; 64], &[1; 64]] {
                assert!(rt; is_left(alloc, &disk, place, torn, lists)?, "call {place}");
            }
        }
        let content = disk.stopped(alloc, disk.calls().len(), b"")?;
        let mut left = MemDisk::new(alloc, content, List::empty(alloc))?;
        let journal = Journal::start(alloc, &mut left, 1000).map_err(|_| "no journal")?;
        let last = lists.last().ok_or("no list")?;
        assert!(rt; holds(&journal, last), "after all calls");
    }
    Ok(())
}

#[test]
fn calls_that_fail(rt: HostRuntime) -> Result<(), Fail> {
    let alloc = rt.alloc();
    for (front, behind, strings, lists) in CASES {
        // A start makes two calls and at most six more, an append four.
        for number in 0..20 {
            let mut disk = disk(alloc, front, behind, &[number])?;
            let _ = appended(alloc, &mut disk, strings)?;
            assert!(rt;
                starts_with(alloc, &mut disk, lists) || starts_with(alloc, &mut disk, lists),
                "call {number}"
            );
        }
    }
    Ok(())
}

#[test]
fn a_fault_closes_the_journal(rt: HostRuntime) -> Result<(), Fail> {
    let alloc = rt.alloc();
    let first = list(alloc, &[b"xy".as_slice()])?;
    let second = list(alloc, &[b"xy".as_slice()])?;
    // The first call of the first start, and after the sync and the read of the second, a write.
    let mut disk = disk(alloc, HEAD, b"\x00", &[0, 3])?;
    let failed = Journal::start(alloc, &mut disk, 1000).err();
    assert_eq!(rt; failed, Some(StartError::DiskFault));
    let Ok(mut journal) = Journal::start(alloc, &mut disk, 1000) else {
        return Err("no journal".into());
    };
    match journal.prepare(alloc, first) {
        Ok(()) => {}
        Err(_) => return Err("not prepared".into()),
    }
    let answer = journal.append_all(&mut disk);
    assert_eq!(rt; answer, Err(AppendError::DiskFault));
    assert_eq!(rt; journal.prepare(alloc, second), Err(PrepareError::Closed));
    assert_eq!(rt; journal.prepared(), 0);
    Ok(())
}
