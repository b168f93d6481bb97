use crate::{Journal, StartError};
use rnv_base::List;
use rnv_disk::{Content, FileNo, MemDisk};
use std::alloc::Global;
use std::convert::AsSlice;
use std::test::Fail;

const HEAD: &[u8] = b"\x01RNVFORGE\x00\x00\x00\x01";

// A disk whose file `Zero` holds these bytes.
fn disk(alloc: Global, front: &[u8], behind: &[u8]) -> Result<MemDisk, Fail> {
    let mut zero = Vec::from_slice(alloc, front)?;
    zero.extend_from_slice(behind)?;
    let content = Content::new(zero, Vec::new(alloc));
    Ok(MemDisk::new(alloc, content, List::empty(alloc))?)
}

#[test]
fn files_that_are_none(rt: HostRuntime) -> Result<(), Fail> {
    let alloc = rt.alloc();
    for (front, behind, offset) in [
        (b"\x01RNVF".as_slice(), b"".as_slice(), 0),
        (HEAD, b"".as_slice(), 13),
        (HEAD, b"\x01\x01\x00\x00\x00".as_slice(), 13),
        (HEAD, b"\x01\x00\x00\x00\x03abc".as_slice(), 21),
        (
            b"\x01RNVFORGE\x00\x00\x00\x03".as_slice(),
            b"\x00".as_slice(),
            0,
        ),
        (&[0; 15], b"".as_slice(), 0),
    ] {
        let mut disk = disk(alloc, front, behind)?;
        match Journal::start(alloc, &mut disk, 1000) {
            Ok(_) => return Err("a journal".into()),
            Err(error) => assert_eq!(rt; error, StartError::NotAJournal { offset }),
        }
    }
    Ok(())
}

#[test]
fn files_that_are_made(rt: HostRuntime) -> Result<(), Fail> {
    let alloc = rt.alloc();
    for front in [b"".as_slice(), b"\x01".as_slice(), &[0; 14]] {
        let mut disk = disk(alloc, front, b"")?;
        let journal = Journal::start(alloc, &mut disk, 14).map_err(|_| "no journal")?;
        assert_eq!(rt; journal.entries().len(), 0);
        assert_eq!(rt;
            disk.part(FileNo::Zero),
            b"\x01RNVFORGE\x00\x00\x00\x01\x00".as_slice()
        );
    }
    Ok(())
}

#[test]
fn a_torn_gate_is_closed(rt: HostRuntime) -> Result<(), Fail> {
    let alloc = rt.alloc();
    let behind = b"\x01\x00\x00\x00\x02xy\x07\x00\x00\x00\x03abc\x00";
    let mut disk = disk(alloc, HEAD, behind)?;
    let journal = Journal::start(alloc, &mut disk, 1000).map_err(|_| "no journal")?;
    assert_eq!(rt; journal.entries().len(), 1);
    for entry in journal.entries() {
        assert_eq!(rt; entry.as_slice(), b"xy".as_slice());
    }
    let closed = b"\x01RNVFORGE\x00\x00\x00\x01\x01\x00\x00\x00\x02xy\x00\x00\x00\x00\x03abc\x00";
    assert_eq!(rt; disk.part(FileNo::Zero), closed.as_slice());
    Ok(())
}

// What is read of a file that is cut or changed: the entries that the file spells at its front, or the first gate that is missing
// or whose entry is.
fn read_of_damaged(alloc: Global, file: &[u8]) -> Result<bool, Fail> {
    let mut damaged = disk(alloc, file, b"")?;
    match Journal::start(alloc, &mut damaged, 1000) {
        Ok(journal) => Ok(file.len() <= 1 || spells(alloc, &journal, file)?),
        Err(StartError::NotAJournal { offset: 0 }) => Ok(!file.starts_with(HEAD)),
        Err(StartError::NotAJournal { offset }) => is_first_wrong(alloc, file, offset as usize),
        Err(_) => Ok(false),
    }
}

// Whether the file begins with these entries, and a gate that is not open stands behind them.
fn spells(alloc: Global, journal: &Journal, file: &[u8]) -> Result<bool, Fail> {
    let spelled = spelled(alloc, journal)?;
    Ok(
        file.starts_with(spelled.as_slice())
            && file.get(spelled.len()).is_some_and(|gate| *gate != 1),
    )
}

// The head and the entries.
fn spelled(alloc: Global, journal: &Journal) -> Result<Vec<u8>, Fail> {
    let mut spelled = Vec::from_slice(alloc, HEAD)?;
    for entry in journal.entries() {
        let payload = entry.as_slice();
        spelled.push(1)?;
        spelled.extend_from_slice(
            ((payload.len() % 4294967296) as u32)
                .to_be_bytes()
                .as_slice(),
        )?;
        spelled.extend_from_slice(payload)?;
    }
    Ok(spelled)
}

// Whether the front up to this offset is whole entries, and no gate, or an open one without its entry, stands there.
fn is_first_wrong(alloc: Global, file: &[u8], offset: usize) -> Result<bool, Fail> {
    let Some(front) = file.get(..offset) else {
        return Ok(false);
    };
    let mut ended = disk(alloc, front, b"\x00")?;
    let journal = Journal::start(alloc, &mut ended, 1000).map_err(|_| "no journal")?;
    let rest = file.get(offset..).unwrap_or(&[]);
    let missing = match rest {
        [] => true,
        [1, a, b, c, d, payload @ ..] => {
            (u32::from_be_bytes([*a, *b, *c, *d]) as usize) > payload.len()
        }
        [1, ..] => true,
        _ => false,
    };
    Ok(missing && spelled(alloc, &journal)?.as_slice() == front)
}

#[test]
fn damaged_files(rt: HostRuntime) -> Result<(), Fail> {
    let alloc = rt.alloc();
    let mut file = Vec::from_slice(alloc, HEAD)?;
    file.extend_from_slice(
        b"\x01\x00\x00\x00\x02xy\x01\x00\x00\x00\x00\x01\x00\x00\x00\x03abc\x00",
    )?;
    for length in 0..=file.len() {
        let front = file.get(..length).unwrap_or(&[]);
        assert!(rt; read_of_damaged(alloc, front)?, "the first {length} bytes");
    }
    for at in 0..file.len() {
        for byte in [0, 1, 7, 255] {
            let mut changed = Vec::from_slice(alloc, file.as_slice())?;
            if let Some(place) = changed.get_mut(at) {
                *place = byte;
            }
            assert!(rt;
                read_of_damaged(alloc, changed.as_slice())?,
                "{byte} at {at}"
            );
        }
    }
    Ok(())
}
