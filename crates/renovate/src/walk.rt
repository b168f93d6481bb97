ghost use Rattle.std.specs.Prelude.{◌≡◌, ◌≢◌, ◌↔◌, [], ◌∷◌, ◌++◌, All, IsTrue, IfOk, string_bytes, ◌==◌};
ghost use Rattle.std.specs.List.{starts_with};
ghost use Rattle.renovate.specs.Walk.{AreBelow};
ghost use Rattle.rnv_base.specs.Names.{IsSegment, segments};

use crate::notes::{is_absence, named};
use rnv_base::{DOCUMENT_BYTES, Text};
use std::alloc::{AllocError, Global};
use std::convert::AsStr;
use std::fs::ReadDir;
use std::io::{Eprint, ErrorKind, Read};
use std::rt::Files;
use std::{fs, io};

// One byte more than a file may have.
const MOST: u64 = DOCUMENT_BYTES + 1;

/// The file's first 67,108,865 bytes. None where the path leads to no file of the folder: a folder is
/// no file, nor is a pipe, a socket or a device, nor what would lie below a file. An error of the system
/// is noted on standard error.
pub fn front<R: Files + Eprint>(
    alloc: Global,
    rt: &R,
    path: &str,
) -> Result<Option<Vec<u8>>, ErrorKind> {
    if !stays_here(path) {
        return Ok(None);
    }
    match named(rt, path, read_front(alloc, rt, path)) {
        Ok(bytes) => Ok(bytes),
        Err(error) if is_absence(error.kind()) => Ok(None),
        Err(error) => Err(error.kind()),
    }
}

/// The paths of all files that begin with the prefix, in the order of their bytes. Links to files are
/// files; links to folders are not followed, save those that the prefix itself goes through. A name that
/// is not UTF-8 is passed over; that and an error of the system are noted on standard error.
pub fn paths_below<R: Files + Eprint>(
    alloc: Global,
    rt: &R,
    prefix: &str,
) -> Result<Vec<Text>, ErrorKind>
    ensures { IfOk result (λ paths. AreBelow prefix.now paths.items) }
{
    match sorted_paths(alloc, rt, prefix) {
        Ok(paths) => Ok(paths),
        Err(error) => Err(error.kind()),
    }
}

// Whether a path stays in the folder: no part between its slashes is empty, `.` or `..`.
fn stays_here(path: &str) -> bool
    ensures { IsTrue result ↔ All IsSegment (segments path.now) }
{
    path.split('/')
        .all(|part| !part.is_empty() && part != "." && part != "..")
}

fn read_front<R: Files + Eprint>(alloc: Global, rt: &R, path: &str) -> io::Result<Option<Vec<u8>>> {
    // (to open a pipe would wait for its other end)
    if !fs::metadata(rt, path)?.is_file() {
        return Ok(None);
    }
    let file = fs::open(rt, path)?;
    let mut bytes = Vec::new(alloc);
    file.take(MOST).read_to_end(&mut bytes)?;
    Ok(Some(bytes))
}

fn sorted_paths<R: Files + Eprint>(alloc: Global, rt: &R, prefix: &str) -> io::Result<Vec<Text>>
    ensures { IfOk result (λ paths. AreBelow prefix.now paths.items) }
{
    let paths = unsorted_paths(alloc, rt, prefix)?;
    sorted(prefix, paths)
}

#[tactic(auto, using(crate::proofs::Sorted::all_stay))]
fn sorted(prefix: &str, mut paths: Vec<Text>) -> io::Result<Vec<Text>>
    requires { AreBelow prefix.now paths.items }
    ensures { IfOk result (λ sorted. AreBelow prefix.now sorted.items) }
{
    let _ = prefix;
    paths.sort()?;
    Ok(paths)
}

fn unsorted_paths<R: Files + Eprint>(alloc: Global, rt: &R, prefix: &str) -> io::Result<Vec<Text>>
    ensures { IfOk result (λ paths. AreBelow prefix.now paths.items) }
{
    let Some(start) = start_of(prefix) else {
        return Ok(Vec::new(alloc));
    };
    let mut walk = Walk {
        prefix,
        folders: Vec::new(alloc),
        paths: Vec::new(alloc),
    };
    walk.begin(alloc, start)?;
    walk.end(alloc, rt)?;
    let Walk {
        prefix: _,
        folders: _,
        paths,
    } = walk;
    Ok(paths)
}

// The deepest folder that the prefix names, where it names one of this folder.
fn start_of(prefix: &str) -> Option<&str> {
    match prefix.rsplit_once('/') {
        Some((folder, _)) if stays_here(folder) => Some(folder),
        Some(_) => None,
        None => Some(""),
    }
}

// A walk through folders: those still to be looked into, and the files found.
#[derive(Drop)]
struct Walk<'a> {
    prefix: &'a str,
    folders: Vec<String>,
    paths: Vec<Text>,
    ghost within: { AreBelow prefix.now paths.items },
}

impl<'a> Walk<'a> {
    fn begin(&mut self, alloc: Global, folder: &str) -> Result<(), AllocError>
        ensures { self.new.prefix ≡ self.old.prefix }
    {
        self.folders.push(String::from_str(alloc, folder)?)?;
        Ok(())
    }

    // Looks into all folders, and those in them.
    fn end<R: Files + Eprint>(&mut self, alloc: Global, rt: &R) -> io::Result<()>
        ensures { self.new.prefix ≡ self.old.prefix }
    {
        for _ in 0..u64::MAX {
            match self.folders.pop() {
                Some(folder) => self.look_into(alloc, rt, folder.as_str())?,
                None => return Ok(()),
            }
        }
        Err(io::Error::from(ErrorKind::Other))
    }

    fn look_into<R: Files + Eprint>(
        &mut self,
        alloc: Global,
        rt: &R,
        folder: &str,
    ) -> io::Result<()>
        ensures { self.new.prefix ≡ self.old.prefix }
    {
        let Some(entries) = entries(alloc, rt, folder)? else {
            return Ok(());
        };
        for entry in entries {
            match entry {
                Ok(entry) => self.look_at(alloc, rt, folder, entry.file_name())?,
                Err(error) if error.kind() == ErrorKind::InvalidFilename => pass_over(rt, folder),
                Err(error) => return named(rt, folder, Err(error)),
            }
        }
        Ok(())
    }

    // Looks at a name in a folder.
    fn look_at<R: Files + Eprint>(
        &mut self,
        alloc: Global,
        rt: &R,
        folder: &str,
        name: &str,
    ) -> io::Result<()>
        ensures { self.new.prefix ≡ self.old.prefix }
    {
        let path = path_in(alloc, folder, name)?;
        if path.as_bytes().starts_with(self.prefix.as_bytes()) {
            self.note(rt, path)?;
        }
        Ok(())
    }

    fn note<R: Files + Eprint>(&mut self, rt: &R, path: String) -> io::Result<()>
        requires { IsTrue (starts_with ◌==◌ (string_bytes path) self.old.prefix.now) }
        ensures { self.new.prefix ≡ self.old.prefix }
    {
        match named(rt, path.as_str(), kind_of(rt, path.as_str()))? {
            Kind::Folder => self.folders.push(path)?,
            Kind::File => self.paths.push(Text::new(path))?,
            Kind::Other => {}
        }
        Ok(())
    }
}

// What a folder has, where there is such a folder. The folder where the program runs has no name.
fn entries<'a, R: Files + Eprint>(
    alloc: Global,
    rt: &'a R,
    folder: &str,
) -> io::Result<Option<ReadDir<(&'a R, Global)>>> {
    let name = if folder.is_empty() { "." } else { folder };
    match named(rt, name, fs::read_dir(&(rt, alloc), name)) {
        Ok(entries) => Ok(Some(entries)),
        Err(error) if is_absence(error.kind()) => Ok(None),
        Err(error) => Err(error),
    }
}

// Notes that a name in a folder is passed over, as it is not UTF-8. The folder where the program runs has
// no name.
fn pass_over<R: Eprint>(rt: &R, folder: &str) {
    let place = if folder.is_empty() { "." } else { folder };
    let _ = eprintln!(rt; "renovate: {place}: a name that is not UTF-8 is passed over");
}

// The path of a name in a folder.
fn path_in(alloc: Global, folder: &str, name: &str) -> Result<String, AllocError>
    ensures here { folder.now ≡ [] → IfOk result (λ path. string_bytes path ≡ name.now) }
    ensures below { folder.now ≢ [] → IfOk result (λ path. string_bytes path ≡ folder.now ++ 47 ∷ name.now) }
{
    let mut path = String::from_str(alloc, folder)?;
    if !folder.is_empty() {
        path.push('/')?;
    }
    path.push_str(name)?;
    Ok(path)
}

// What stands at a path.
#[derive(Drop)]
enum Kind {
    Folder,
    File,
    Other,
}

fn kind_of<R: Files + Eprint>(rt: &R, path: &str) -> io::Result<Kind> {
    match fs::symlink_metadata(rt, path) {
        Ok(found) if found.is_dir() => Ok(Kind::Folder),
        Ok(found) if found.is_file() => Ok(Kind::File),
        Ok(found) if found.is_symlink() => kind_behind(rt, path),
        Ok(_) => Ok(Kind::Other),
        Err(error) if is_absence(error.kind()) => Ok(Kind::Other),
        Err(error) => Err(error),
    }
}

// What a link leads to, where that is a file.
fn kind_behind<R: Files + Eprint>(rt: &R, link: &str) -> io::Result<Kind> {
    match fs::metadata(rt, link) {
        Ok(found) if found.is_file() => Ok(Kind::File),
        Ok(_) => Ok(Kind::Other),
        Err(error) if is_absence(error.kind()) => Ok(Kind::Other),
        Err(error) => Err(error),
    }
}
