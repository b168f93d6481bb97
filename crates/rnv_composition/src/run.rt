use crate::outside::{Done, Faults, File, answer, answer_with, disk, stopped, written, zero};
use rnv_disk::MemDisk;
use std::alloc::Global;
use std::convert::AsSlice;
use std::test::Fail;

const RUN: &str = "run acme/web --now 2024-06-03T10:15:00Z";

const TWO: &[u8] = b"{\"versions\":{\"1.0.0\":{},\"1.1.0\":{}}}";

// Three dependencies with an update each.
const THREE: &[File] = &[
    ("index/npm/a.json", TWO),
    ("index/npm/b.json", TWO),
    ("index/npm/c.json", TWO),
    (
        "repos/acme/web/package.json",
        b"{\"dependencies\":{\"a\":\"1.0.0\",\"b\":\"1.0.0\",\"c\":\"1.0.0\"}}",
    ),
];

// The first two of them, and the same with the first one's update done.
const PAIR: &[File] = &[
    ("index/npm/a.json", TWO),
    ("index/npm/b.json", TWO),
    (
        "repos/acme/web/package.json",
        b"{\"dependencies\":{\"a\":\"1.0.0\",\"b\":\"1.0.0\"}}",
    ),
];

const UPDATED: &[File] = &[
    ("index/npm/a.json", TWO),
    ("index/npm/b.json", TWO),
    (
        "repos/acme/web/package.json",
        b"{\"dependencies\":{\"a\":\"1.1.0\",\"b\":\"1.0.0\"}}",
    ),
];

// The same with the second one's update done, and a greater release of the first.
const GREATER: &[File] = &[
    (
        "index/npm/a.json",
        b"{\"versions\":{\"1.0.0\":{},\"1.1.0\":{},\"1.2.0\":{}}}",
    ),
    ("index/npm/b.json", TWO),
    (
        "repos/acme/web/package.json",
        b"{\"dependencies\":{\"a\":\"1.0.0\",\"b\":\"1.1.0\"}}",
    ),
];

const WHOLE: &[u8] = b"now 2024-06-03T10:15:00Z\n\
put renovate/a-1.x\nopened #1 renovate/a-1.x\n\
put renovate/b-1.x\nopened #2 renovate/b-1.x\n\
put renovate/c-1.x\nopened #3 renovate/c-1.x\n\
finished\ndone 7 writes\n";

const REST: &[u8] = b"now 2024-06-03T10:15:00Z\n\
opened #1 renovate/a-1.x\n\
put renovate/b-1.x\nopened #2 renovate/b-1.x\n\
put renovate/c-1.x\nopened #3 renovate/c-1.x\n\
finished\ndone 6 writes\n";

const CLEANED: &[u8] = b"now 2024-06-03T10:15:00Z\n\
closed #1 renovate/a-1.x\ndropped renovate/a-1.x\n\
put renovate/b-1.x\nfinished\ndone 4 writes\n";

const EDITED: &[u8] = b"now 2024-06-03T10:15:00Z\n\
closed #2 renovate/b-1.x\ndropped renovate/b-1.x\n\
put renovate/a-1.x\nedited #1 renovate/a-1.x\n\
finished\ndone 5 writes\n";

const NOTHING: &[u8] = b"now 2024-06-03T10:15:00Z\ndone 0 writes\n";

// What the words leave where they print this text.
fn printed(
    alloc: Global,
    line: &str,
    held: &[File],
    before: MemDisk,
    wanted: &[u8],
) -> Result<MemDisk, Fail> {
    let Done { code, text, disk } = answer(alloc, line, held, before)?;
    if code != 0 || text.as_slice() != wanted {
        return Err("another text".into());
    }
    Ok(disk)
}

// A disk with an import of these files.
fn imported(alloc: Global, held: &[File]) -> Result<MemDisk, Fail> {
    let empty = disk(alloc, b"", &[])?;
    let Done {
        code: _,
        text: _,
        disk,
    } = answer(alloc, "import acme/web", held, empty)?;
    Ok(disk)
}

#[test]
fn a_run_and_another(rt: HostRuntime) -> Result<(), Fail> {
    let alloc = rt.alloc();
    let before = imported(alloc, THREE)?;
    let ran = printed(alloc, RUN, THREE, before, WHOLE)?;
    printed(alloc, RUN, THREE, ran, NOTHING)?;
    Ok(())
}

#[test]
fn an_update_that_was_done(rt: HostRuntime) -> Result<(), Fail> {
    let alloc = rt.alloc();
    let again = updated(alloc, UPDATED)?;
    let cleaned = printed(alloc, RUN, UPDATED, again, CLEANED)?;
    printed(alloc, RUN, UPDATED, cleaned, NOTHING)?;
    Ok(())
}

// A disk with these bytes in file `Zero`, after a run over it.
fn whole(alloc: Global, start: &[u8]) -> Result<MemDisk, Fail> {
    let before = disk(alloc, start, &[])?;
    printed(alloc, RUN, THREE, before, WHOLE)
}

// A start makes two calls of the disk, and each write four.
#[test]
fn a_stop_after_the_first_write(rt: HostRuntime) -> Result<(), Fail> {
    let alloc = rt.alloc();
    let start = zero(alloc, &imported(alloc, THREE)?)?;
    let ran = whole(alloc, start.as_slice())?;
    let left = stopped(alloc, &ran, 6, b"")?;
    printed(alloc, RUN, THREE, left, REST)?;
    Ok(())
}

// Whether a run over a disk leaves these bytes in file `Zero`.
fn leaves(alloc: Global, held: &[File], left: MemDisk, wanted: &[u8]) -> Result<bool, Fail> {
    let Done {
        code,
        text: _,
        disk,
    } = answer(alloc, RUN, held, left)?;
    Ok(code == 0 && zero(alloc, &disk)?.as_slice() == wanted)
}

// Whether it does so after a stop within the call of this place, with nothing of what it writes, with
// all of it, with each byte of its range a 7, and with the first byte of it alone.
fn leaves_after(
    alloc: Global,
    held: &[File],
    ran: &MemDisk,
    place: usize,
    all: &[u8],
    wanted: &[u8],
) -> Result<bool, Fail> {
    let first = match all {
        [first, ..] => [*first],
        [] => [0],
    };
    for torn in [b"".as_slice(), all, [7u8; 400].as_slice(), first.as_slice()] {
        let left = stopped(alloc, ran, place, torn)?;
        if !leaves(alloc, held, left, wanted)? {
            return Ok(false);
        }
    }
    Ok(true)
}

// Whether it does so after a stop within each of the calls of the run that left this disk.
fn leaves_after_each(alloc: Global, held: &[File], ran: &MemDisk) -> Result<bool, Fail> {
    let wanted = zero(alloc, ran)?;
    for (place, call) in ran.calls().iter().enumerate() {
        if !leaves_after(alloc, held, ran, place, written(call), wanted.as_slice())? {
            return Ok(false);
        }
    }
    Ok(true)
}

#[test]
fn stops_of_a_run(rt: HostRuntime) -> Result<(), Fail> {
    let alloc = rt.alloc();
    let start = zero(alloc, &imported(alloc, THREE)?)?;
    let ran = whole(alloc, start.as_slice())?;
    assert!(rt; leaves_after_each(alloc, THREE, &ran)?);
    Ok(())
}

// A disk with a run of two updates, and an import of these files after it.
fn updated(alloc: Global, held: &[File]) -> Result<MemDisk, Fail> {
    let before = imported(alloc, PAIR)?;
    let Done {
        code: _,
        text: _,
        disk: ran,
    } = answer(alloc, RUN, PAIR, before)?;
    let Done {
        code: _,
        text: _,
        disk,
    } = answer(alloc, "import acme/web", held, ran)?;
    Ok(disk)
}

// Whether a run after that import prints this text, and leaves the same after a stop within each of
// its calls.
fn resumes(alloc: Global, held: &[File], wanted: &[u8]) -> Result<bool, Fail> {
    let start = zero(alloc, &updated(alloc, held)?)?;
    let before = disk(alloc, start.as_slice(), &[])?;
    let ran = printed(alloc, RUN, held, before, wanted)?;
    leaves_after_each(alloc, held, &ran)
}

#[test]
fn stops_of_runs_that_close_and_edit(rt: HostRuntime) -> Result<(), Fail> {
    let alloc = rt.alloc();
    assert!(rt; resumes(alloc, UPDATED, CLEANED)?);
    assert!(rt; resumes(alloc, GREATER, EDITED)?);
    Ok(())
}

// A stop within the call of the one place, and then within that of the other.
#[test]
fn two_stops_of_a_run(rt: HostRuntime) -> Result<(), Fail> {
    let alloc = rt.alloc();
    let start = zero(alloc, &imported(alloc, THREE)?)?;
    let ran = whole(alloc, start.as_slice())?;
    let wanted = zero(alloc, &ran)?;
    for (first, second) in [(3, 5), (5, 4), (7, 9), (9, 3), (13, 13), (22, 3), (29, 2)] {
        let left = stopped(alloc, &ran, first, b"")?;
        let Done {
            code: _,
            text: _,
            disk: again,
        } = answer(alloc, RUN, THREE, left)?;
        let left = stopped(alloc, &again, second, b"")?;
        assert!(rt;
            leaves(alloc, THREE, left, wanted.as_slice())?,
            "calls {first} and {second}"
        );
    }
    Ok(())
}

// What a run leaves of a disk whose call of this number fails.
fn faulty(alloc: Global, start: &[u8], number: u64) -> Result<MemDisk, Fail> {
    let failing = disk(alloc, start, &[number])?;
    let Done { code, text, disk } = answer(alloc, RUN, THREE, failing)?;
    if code != 7 || text.as_slice() != b"error 7: disk fault\n".as_slice() {
        return Err("no disk fault".into());
    }
    Ok(disk)
}

#[test]
fn faults_of_a_run(rt: HostRuntime) -> Result<(), Fail> {
    let alloc = rt.alloc();
    let start = zero(alloc, &imported(alloc, THREE)?)?;
    let wanted = zero(alloc, &whole(alloc, start.as_slice())?)?;
    for number in 0..30 {
        let left = faulty(alloc, start.as_slice(), number)?;
        assert!(rt;
            leaves(alloc, THREE, left, wanted.as_slice())?,
            "call {number}"
        );
    }
    Ok(())
}

// The words, the calls of the folder and of the output that fail, the status, what is printed, and
// whether the writes are done. The folder is asked for three documents; the text is one write.
const FAULTS: [(&str, &[u64], &[u64], u8, &[u8], bool); 7] = [
    (RUN, &[0], &[], 5, b"error 5: folder fault\n", false),
    (RUN, &[1], &[], 5, b"error 5: folder fault\n", false),
    (RUN, &[2], &[], 5, b"error 5: folder fault\n", false),
    (RUN, &[3], &[], 0, WHOLE, true),
    (RUN, &[], &[0], 10, b"", true),
    (
        "run acme/none --now 2024-06-03T10:15:00Z",
        &[0],
        &[],
        3,
        b"error 3: unknown repository\n",
        false,
    ),
    ("run", &[0], &[], 2, b"error 2: usage\n", false),
];

#[test]
fn faults_around_a_run(rt: HostRuntime) -> Result<(), Fail> {
    let alloc = rt.alloc();
    let start = zero(alloc, &imported(alloc, THREE)?)?;
    let wanted = zero(alloc, &whole(alloc, start.as_slice())?)?;
    for (line, reads, writes, status, printed, is_done) in FAULTS {
        let before = disk(alloc, start.as_slice(), &[])?;
        let Done { code, text, disk } = answer_with(
            alloc,
            line,
            THREE,
            before,
            Faults { reads, writes },
        )?;
        assert_eq!(rt; code, status, "at {line}");
        assert!(rt; text.as_slice() == printed, "at {line}");
        let after = zero(alloc, &disk)?;
        if is_done {
            assert!(rt; after.as_slice() == wanted.as_slice(), "at {line}");
        } else {
            assert!(rt; after.as_slice() == start.as_slice(), "at {line}");
        }
    }
    Ok(())
}
