use crate::outside::{Done, File, answer, disk, stopped, written, zero};
use rnv_disk::MemDisk;
use std::alloc::Global;
use std::convert::AsSlice;
use std::test::Fail;

const OLD: &[File] = &[
    ("repos/acme/web/Dockerfile", b"FROM node:18.0.0\n"),
    ("repos/acme/web/old.txt", b"old"),
];

const NEW: &[File] = &[
    ("repos/acme/web/Dockerfile", b"FROM node:20.11.1-alpine\n"),
    (
        "repos/acme/web/package.json",
        b"{\"dependencies\":{\"react\":\"18.2.0\"}}",
    ),
];

// What file `Zero` holds after an import of the old files.
fn before(alloc: Global) -> Result<Vec<u8>, Fail> {
    let empty = disk(alloc, b"", &[])?;
    let Done {
        code: _,
        text: _,
        disk,
    } = answer(alloc, "import acme/web", OLD, empty)?;
    Ok(zero(alloc, &disk)?)
}

// Whether an import without faults over this disk makes the base the new files, by one write of all
// that were done.
fn is_mended(alloc: Global, left: MemDisk) -> Result<bool, Fail> {
    let Done {
        code,
        text,
        disk: _,
    } = answer(alloc, "import acme/web", NEW, left)?;
    Ok(code == 0 && text.as_slice() == b"imported 2 files, revision 2\npassed over 0\n".as_slice())
}

// Whether it does so after a stop within the call of this place, with nothing of what it writes, with
// all of it, and with each byte of its range a 7.
fn is_mended_after(alloc: Global, ran: &MemDisk, place: usize, whole: &[u8]) -> Result<bool, Fail> {
    for torn in [b"".as_slice(), whole, [7u8; 400].as_slice()] {
        let left = stopped(alloc, ran, place, torn)?;
        if !is_mended(alloc, left)? {
            return Ok(false);
        }
    }
    Ok(true)
}

#[test]
fn stops_of_an_import(rt: HostRuntime) -> Result<(), Fail> {
    let alloc = rt.alloc();
    let start = before(alloc)?;
    let kept = disk(alloc, start.as_slice(), &[])?;
    let Done {
        code,
        text: _,
        disk: ran,
    } = answer(alloc, "import acme/web", NEW, kept)?;
    assert_eq!(rt; code, 0);
    for (place, call) in ran.calls().iter().enumerate() {
        assert!(rt;
            is_mended_after(alloc, &ran, place, written(call))?,
            "call {place}"
        );
    }
    Ok(())
}

// What an import leaves of a disk whose call of this number fails.
fn faulty(alloc: Global, start: &[u8], number: u64) -> Result<MemDisk, Fail> {
    let failing = disk(alloc, start, &[number])?;
    let Done { code, text, disk } = answer(alloc, "import acme/web", NEW, failing)?;
    if code != 7 || text.as_slice() != b"error 7: disk fault\n".as_slice() {
        return Err("no disk fault".into());
    }
    Ok(disk)
}

// A start makes two calls, the write four.
#[test]
fn faults_of_an_import(rt: HostRuntime) -> Result<(), Fail> {
    let alloc = rt.alloc();
    let start = before(alloc)?;
    for number in 0..6 {
        let left = faulty(alloc, start.as_slice(), number)?;
        assert!(rt; is_mended(alloc, left)?, "call {number}");
    }
    Ok(())
}
