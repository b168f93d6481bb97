ghost use Rattle.std.specs.Prelude.{◌≡◌, IfOk};

use crate::{Call, Content, Disk, DiskError, FileNo, MemDisk, SteadyDisk};
use rnv_base::{Failed, List};
use std::alloc::{AllocError, Global};
use std::convert::AsSlice;
use std::test::Fail;

// A disk whose file `Zero` holds these bytes, and whose calls with these numbers fail.
fn disk_of(alloc: Global, zero: &[u8], failing: &[u64]) -> Result<MemDisk, AllocError>
    ensures { IfOk result (λ disk. (⟦<MemDisk as Disk>⟧.seen disk).zero ≡ zero.now) }
{
    let first = Content::new(Vec::from_slice(alloc, zero)?, Vec::new(alloc));
    MemDisk::new(alloc, first, List::new(Vec::from_slice(alloc, failing)?))
}

#[test]
fn calls_that_do_not_fail(rt: HostRuntime) -> Result<(), Fail> {
    let first = Content::new(Vec::from_slice(rt.alloc(), b"abcd")?, Vec::new(rt.alloc()));
    let mut disk = SteadyDisk::new(rt.alloc(), first)?;
    assert_eq!(rt; disk.write_at(FileNo::Zero, 2, b"xyz"), Ok(()));
    assert_eq!(rt; disk.part(FileNo::Zero), b"abxyz".as_slice());
    assert_eq!(rt; disk.write_at(FileNo::Zero, 1, b"-"), Ok(()));
    assert_eq!(rt; disk.write_at(FileNo::One, 0, b"other"), Ok(()));
    assert_eq!(rt; disk.sync(FileNo::One), Ok(()));
    assert_eq!(rt; disk.cut(FileNo::Zero, 4), Ok(()));
    assert_eq!(rt; disk.cut(FileNo::Zero, 9), Ok(()));
    let read = disk.read(rt.alloc(), FileNo::Zero).map_err(|_| "no bytes")?;
    assert_eq!(rt; read.as_slice(), b"a-xy".as_slice());
    assert_eq!(rt; disk.part(FileNo::One), b"other".as_slice());
    Ok(())
}

#[test]
fn listed_calls_fail(rt: HostRuntime) -> Result<(), Fail> {
    let mut disk = disk_of(rt.alloc(), b"abcd", &[0, 1, 3, 5])?;
    assert_eq!(rt;
        disk.read(rt.alloc(), FileNo::Zero).err(),
        Some(DiskError::Failed)
    );
    assert_eq!(rt; disk.write_at(FileNo::Zero, 0, b"1234"), Err(Failed));
    assert_eq!(rt; disk.part(FileNo::Zero), b"12cd".as_slice());
    assert_eq!(rt; disk.write_at(FileNo::Zero, 0, b"345"), Ok(()));
    assert_eq!(rt; disk.cut(FileNo::Zero, 1), Err(Failed));
    assert_eq!(rt; disk.cut(FileNo::Zero, 2), Ok(()));
    assert_eq!(rt; disk.sync(FileNo::Zero), Err(Failed));
    assert_eq!(rt; disk.sync(FileNo::Zero), Ok(()));
    let read = disk.read(rt.alloc(), FileNo::Zero).map_err(|_| "no bytes")?;
    assert_eq!(rt; read.as_slice(), b"34".as_slice());
    assert_eq!(rt; disk.calls().len(), 4);
    Ok(())
}

#[test]
fn stops(rt: HostRuntime) -> Result<(), Fail> {
    let mut disk = disk_of(rt.alloc(), b"abcd", &[])?;
    assert_eq!(rt; disk.write_at(FileNo::Zero, 3, b"123"), Ok(()));
    assert_eq!(rt; disk.sync(FileNo::Zero), Ok(()));
    assert_eq!(rt; disk.cut(FileNo::Zero, 2), Ok(()));
    assert!(rt; matches!(disk.calls().first(), Some(Call::Write(FileNo::Zero, 3, _))));
    for (call, torn, want) in [
        // Nothing of the write, a part of it, all of it, and other bytes.
        (0, "", "abcd"),
        (0, "1", "abc1"),
        (0, "12", "abc12"),
        (0, "123", "abc123"),
        (0, "7777", "abc777"),
        // Within the sync.
        (1, "7777", "abc123"),
        // The cut has happened, has not happened, and left other bytes.
        (2, "", "ab"),
        (2, "c123", "abc123"),
        (2, "77777", "ab7777"),
        // After all calls.
        (3, "7777", "ab"),
    ] {
        let left = disk.stopped(rt.alloc(), call, torn.as_bytes())?;
        assert_eq!(rt;
            left.part(FileNo::Zero),
            want.as_bytes(),
            "call {call}, {torn}"
        );
        let next = SteadyDisk::new(rt.alloc(), left)?;
        assert_eq!(rt; next.part(FileNo::Zero), want.as_bytes());
    }
    Ok(())
}
