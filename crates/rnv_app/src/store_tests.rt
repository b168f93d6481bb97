use crate::{Ended, Outside, renovate};
use rnv_base::{Bytes, List, MemFile, MemFolder, MemSink, Text};
use rnv_disk::{Content, FileNo, MemDisk};
use std::alloc::{AllocError, Global};
use std::convert::AsSlice;
use std::test::Fail;

type File = (&'static str, &'static [u8]);

// A realistic folder, and beside it another repository's file.
const FOLDER: &[File] = &[
    ("repos/acme/web/Dockerfile", b"FROM node:20.11.1-alpine\n"),
    (
        "repos/acme/web/package.json",
        b"{\"dependencies\":{\"react\":\"18.2.0\"}}",
    ),
    (
        "repos/acme/web/renovate.json",
        b"{\"extends\":[\"config:recommended\"]}",
    ),
    ("repos/acme/website/package.json", b"{}"),
];

const IMPORTED: &str = "imported 3 files, revision 1\npassed over 0\n";

const SHOWN: &str = "repo acme/web revision 1 files 3 due yes\npage none\n";

// The words between the spaces of a line.
fn words(alloc: Global, line: &str) -> Result<List<Text>, AllocError> {
    let mut words = List::empty(alloc);
    for word in line.split(' ') {
        words.push(Text::copied(alloc, word)?)?;
    }
    Ok(words)
}

fn files(alloc: Global, files: &[File]) -> Result<List<MemFile>, AllocError> {
    let mut list = List::empty(alloc);
    for (path, bytes) in files {
        list.push(MemFile {
            path: Text::copied(alloc, path)?,
            bytes: Bytes::new(Vec::from_slice(alloc, bytes)?),
        })?;
    }
    Ok(list)
}

fn numbers(alloc: Global, numbers: &[u64]) -> Result<List<u64>, AllocError> {
    Ok(List::new(Vec::from_slice(alloc, numbers)?))
}

// A disk whose file `Zero` holds these bytes, and whose calls with these numbers fail.
fn disk(alloc: Global, zero: &[u8], failing: &[u64]) -> Result<MemDisk, AllocError> {
    let content = Content::new(Vec::from_slice(alloc, zero)?, Vec::new(alloc));
    MemDisk::new(alloc, content, numbers(alloc, failing)?)
}

// The calls of the outside that fail.
#[derive(Clone, Copy)]
struct Faults<'a> {
    writes: &'a [u64],
    reads: &'a [u64],
}

const NONE: Faults = Faults {
    writes: &[],
    reads: &[],
};

// What the words of a line do over these files and this disk.
fn done(
    alloc: Global,
    line: &str,
    held: &[File],
    disk: MemDisk,
    faults: Faults,
) -> Result<Ended<MemSink, MemFolder, MemDisk>, Fail> {
    let reads = numbers(alloc, faults.reads)?;
    let folder = MemFolder::new(alloc, files(alloc, held)?, reads)?.ok_or("order")?;
    let out = MemSink::new(alloc, numbers(alloc, faults.writes)?);
    Ok(renovate(alloc, &words(alloc, line)?, Outside { out, folder, disk }))
}

// What file `Zero` holds after an import of the folder.
fn imported(alloc: Global) -> Result<Vec<u8>, Fail> {
    let ended = done(
        alloc,
        "import acme/web",
        FOLDER,
        disk(alloc, b"", &[])?,
        NONE,
    )?;
    Ok(Vec::from_slice(alloc, ended.outside.disk.part(FileNo::Zero))?)
}

#[test]
fn imports_and_shows(rt: HostRuntime) -> Result<(), Fail> {
    let alloc = rt.alloc();
    let stored = imported(alloc)?;
    for (line, code, text) in [
        ("import acme/web", 0, IMPORTED),
        ("show acme/web", 0, SHOWN),
        ("show acme/website", 3, "error 3: unknown repository\n"),
        ("import acme/none", 3, "error 3: unknown repository\n"),
    ] {
        let disk = disk(alloc, stored.as_slice(), &[])?;
        let ended = done(alloc, line, FOLDER, disk, NONE)?;
        assert_eq!(rt; ended.status.code, code, "at {line}");
        assert!(rt; ended.outside.out.bytes() == text.as_bytes(), "at {line}");
        // Nothing is appended.
        assert!(rt;
            ended.outside.disk.part(FileNo::Zero) == stored.as_slice(),
            "at {line}"
        );
    }
    Ok(())
}

#[test]
fn passes_files_over(rt: HostRuntime) -> Result<(), Fail> {
    let alloc = rt.alloc();
    let mut long = Vec::new(alloc);
    for _ in 0..1_048_577u32 {
        long.push(b'x')?;
    }
    let mut list = files(
        alloc,
        &[
            ("repos/acme/web/.git/config", b"x"),
            ("repos/acme/web/a\x07b", b"x"),
            ("repos/acme/web/kept", b"x"),
            ("repos/acme/web/latin1", b"caf\xe9"),
        ],
    )?;
    list.push(MemFile {
        path: Text::copied(alloc, "repos/acme/web/long")?,
        bytes: Bytes::new(long),
    })?;
    let folder = MemFolder::new(alloc, list, numbers(alloc, &[])?)?.ok_or("order")?;
    let out = MemSink::new(alloc, numbers(alloc, &[])?);
    let disk = disk(alloc, b"", &[])?;
    let ended = renovate(
        alloc,
        &words(alloc, "import acme/web")?,
        Outside { out, folder, disk },
    );
    assert!(rt;
        ended.outside.out.bytes() == b"imported 1 files, revision 1\npassed over 4\n".as_slice()
    );
    Ok(())
}

// The words, the number of the failing call of the folder, of the output and of the disk, and the
// status.
const FAULTS: [(&str, &[u64], &[u64], &[u64], u8, &str); 10] = [
    (
        "import acme/web",
        &[0],
        &[],
        &[],
        5,
        "error 5: folder fault\n",
    ),
    (
        "import acme/web",
        &[3],
        &[],
        &[],
        5,
        "error 5: folder fault\n",
    ),
    ("import acme/web", &[4], &[], &[], 0, IMPORTED),
    ("import acme/web", &[], &[0], &[], 10, ""),
    (
        "import acme/web",
        &[],
        &[],
        &[0],
        7,
        "error 7: disk fault\n",
    ),
    (
        "import acme/web",
        &[],
        &[],
        &[1],
        7,
        "error 7: disk fault\n",
    ),
    ("import acme/none", &[0], &[0], &[], 5, ""),
    ("show acme/web", &[], &[0], &[], 10, ""),
    ("show acme/web", &[0], &[], &[1], 7, "error 7: disk fault\n"),
    ("show acme/none", &[0], &[0], &[], 3, ""),
];

#[test]
fn faults_over_a_store(rt: HostRuntime) -> Result<(), Fail> {
    let alloc = rt.alloc();
    let stored = imported(alloc)?;
    for (line, reads, writes, calls, code, text) in FAULTS {
        let failing = disk(alloc, stored.as_slice(), calls)?;
        let ended = done(alloc, line, FOLDER, failing, Faults { writes, reads })?;
        assert_eq!(rt; ended.status.code, code, "at {line}");
        assert!(rt; ended.outside.out.bytes() == text.as_bytes(), "at {line}");
        assert!(rt;
            ended.outside.disk.part(FileNo::Zero) == stored.as_slice(),
            "at {line}"
        );
    }
    Ok(())
}

#[test]
fn damaged_stores(rt: HostRuntime) -> Result<(), Fail> {
    let alloc = rt.alloc();
    for (zero, text) in [
        (b"RNVFORGE".as_slice(), "error 8: not a journal at 0\n"),
        // An entry that spells no write.
        (
            b"\x01RNVFORGE\x00\x00\x00\x01\x01\x00\x00\x00\x01M\x00",
            "error 8: not a journal at 13\n",
        ),
    ] {
        for line in ["import acme/web", "show acme/web"] {
            let ended = done(alloc, line, FOLDER, disk(alloc, zero, &[])?, NONE)?;
            assert_eq!(rt; ended.status.code, 8, "at {line}");
            assert!(rt; ended.outside.out.bytes() == text.as_bytes(), "at {line}");
            assert!(rt; ended.outside.disk.part(FileNo::Zero) == zero, "at {line}");
        }
    }
    Ok(())
}
