use crate::here_disk::HereDisk;
use crate::here_folder::HereFolder;
use crate::notes::Progress;
use crate::stream_sink::StreamSink;
use rnv_base::{Failed, Folder, Sink};
use rnv_disk::{Disk, DiskError, FileNo};
use std::convert::{AsSlice, AsStr};
use std::test::Fail;
use std::{env, fs, process};

#[test]
fn files_here(rt: HostRuntime) -> Result<(), Fail> {
    let number = process::id(rt.process());
    let name = format!(in rt.alloc(); "rnv_here_folder_{number}")?;
    let place = env::temp_dir(&rt)?.join(rt.alloc(), name.as_str())?;
    fs::create_dir_all(&rt, place.as_path())?;
    env::set_current_dir(&rt, place.as_path())?;
    fs::create_dir_all(&rt, "repos/acme/web/app")?;
    fs::create_dir_all(&rt, "repos/bolt")?;
    for path in [
        "repos/acme/web/app/b",
        "repos/acme/web/app.json",
        "repos/acme/web/a",
        "repos/bolt/c",
        "repos.txt",
    ] {
        fs::write(&rt, path, path)?;
    }
    let mut folder = HereFolder::new(rt.clone()?, Progress::new(false));
    for (prefix, want) in [
        (
            "repos/acme/web/",
            "repos/acme/web/a repos/acme/web/app.json repos/acme/web/app/b ",
        ),
        ("repos/b", "repos/bolt/c "),
        ("repos.", "repos.txt "),
        ("repos/core/", ""),
        ("repos.txt/", ""),
        ("../", ""),
    ] {
        let mut got = String::new(rt.alloc());
        for path in folder.list(rt.alloc(), prefix)?.as_slice() {
            got.push_str(path.as_str())?;
            got.push(' ')?;
        }
        assert_eq!(rt; got.as_str(), want, "below {prefix}");
    }
    let bytes = folder
        .read(rt.alloc(), "repos/acme/web/app/b")?
        .ok_or("no file")?;
    assert_eq!(rt; bytes.as_slice(), b"repos/acme/web/app/b".as_slice());
    for path in [
        "repos/acme/web/b",
        "repos/acme",
        "repos.txt/b",
        "./repos.txt",
    ] {
        assert!(rt; folder.read(rt.alloc(), path)?.is_none(), "at {path}");
    }
    fs::remove_dir_all(&rt, place.as_path())?;
    Ok(())
}

#[test]
fn bytes_out(rt: HostRuntime) -> Result<(), Fail> {
    let mut room = [0u8; 3];
    {
        let mut sink = StreamSink::new(rt.clone()?, room.as_mut_slice(), "the test's stream");
        assert_eq!(rt; sink.write(b"ab"), Ok(2));
        assert_eq!(rt; sink.write(b"cd"), Ok(1));
        assert_eq!(rt; sink.write(b""), Ok(0));
        assert_eq!(rt; sink.write(b"d"), Err(Failed));
    }
    assert_eq!(rt; room.as_slice(), b"abc".as_slice());
    Ok(())
}

#[test]
fn two_files(rt: HostRuntime) -> Result<(), Fail> {
    let number = process::id(rt.process());
    let name = format!(in rt.alloc(); "rnv_here_disk_{number}")?;
    let place = env::temp_dir(&rt)?.join(rt.alloc(), name.as_str())?;
    fs::create_dir_all(&rt, place.as_path())?;
    env::set_current_dir(&rt, place.as_path())?;
    let mut disk = HereDisk::new(rt.clone()?, Progress::new(false));
    assert_eq!(rt; disk.write_at(FileNo::Zero, 0, b"abcdef"), Ok(()));
    assert_eq!(rt; disk.write_at(FileNo::Zero, 4, b"EFG"), Ok(()));
    assert_eq!(rt; disk.write_at(FileNo::One, 0, b"other"), Ok(()));
    assert_eq!(rt; disk.sync(FileNo::Zero), Ok(()));
    assert_eq!(rt; disk.cut(FileNo::Zero, 5), Ok(()));
    assert_eq!(rt; disk.cut(FileNo::One, 9), Ok(()));
    // Another adapter over the same files.
    let mut again = HereDisk::new(rt.clone()?, Progress::new(false));
    for (file, want) in [(FileNo::Zero, "abcdE"), (FileNo::One, "other")] {
        let bytes = again.read(rt.alloc(), file).map_err(|_| "no bytes")?;
        assert_eq!(rt; bytes.as_slice(), want.as_bytes());
    }
    fs::remove_dir_all(&rt, place.as_path())?;
    // A name that is a folder can't be opened.
    fs::create_dir_all(&rt, place.as_path())?;
    env::set_current_dir(&rt, place.as_path())?;
    fs::create_dir_all(&rt, "forge.0")?;
    let mut none = HereDisk::new(rt.clone()?, Progress::new(false));
    assert_eq!(rt; none.write_at(FileNo::Zero, 0, b"a"), Err(Failed));
    assert_eq!(rt; none.sync(FileNo::Zero), Err(Failed));
    assert_eq!(rt;
        none.read(rt.alloc(), FileNo::Zero).err(),
        Some(DiskError::Failed)
    );
    fs::remove_dir_all(&rt, place.as_path())?;
    Ok(())
}
