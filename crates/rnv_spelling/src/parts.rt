ghost use Rattle.std.specs.Prelude.{◌≡◌, ◌++◌, OnOk};
ghost use Rattle.rnv_base.specs.Files.{bytes_inside};
ghost use Rattle.rnv_spelling.specs.Spelling.{spelled_bytes, spelled_option, spelled_key, spelled_file, spelled_change, spelled_branch};
ghost use Rattle.rnv_spelling.specs.Reading.{Gives, bytes_at, option_at, key_at, file_at, change_at, branch_at};

use crate::spelled::{ReadError, Spelled, put_bytes, put_number, read_bytes, read_number};
use rnv_base::{Bytes, List, Text};
use rnv_repo::{Branch, EditedFile, FileChange, Key};
use std::alloc::{AllocError, Global};
use std::convert::AsSlice;

impl Spelled for Key {
    ghost spelled = { spelled_key };

    ghost reading = { key_at };

    fn put(&self, out: &mut Vec<u8>) -> Result<(), AllocError> {
        self.file.put(out)?;
        self.package.put(out)?;
        self.new_value.put(out)
    }

    #[tactic(auto, unfolding(crate::specs::Reading::key_at))]
    fn read(alloc: Global, bytes: &[u8]) -> Result<(Key, &[u8]), ReadError> {
        let (file, rest) = Text::read(alloc, bytes)?;
        let (package, rest) = Text::read(alloc, rest)?;
        let (new_value, rest) = Text::read(alloc, rest)?;
        let key = Key {
            file,
            package,
            new_value,
        };
        Ok((key, rest))
    }
}

impl Spelled for EditedFile {
    ghost spelled = { spelled_file };

    ghost reading = { file_at };

    fn put(&self, out: &mut Vec<u8>) -> Result<(), AllocError> {
        self.path.put(out)?;
        put_bytes(self.bytes.as_slice(), out)
    }

    #[tactic(auto, unfolding(crate::specs::Reading::file_at))]
    fn read(alloc: Global, bytes: &[u8]) -> Result<(EditedFile, &[u8]), ReadError> {
        let (path, rest) = Text::read(alloc, bytes)?;
        let (bytes, rest) = read_bytes(alloc, rest)?;
        Ok((EditedFile { path, bytes }, rest))
    }
}

fn put_new_bytes(bytes: &Option<Bytes>, out: &mut Vec<u8>) -> Result<(), AllocError>
    ensures { OnOk result (out.new.items ≡ out.old.items ++ spelled_option spelled_bytes (bytes_inside bytes.now)) }
{
    match bytes {
        None => out.push(0)?,
        Some(bytes) => {
            out.push(1)?;
            put_bytes(bytes.as_slice(), out)?;
        }
    }
    Ok(())
}

#[tactic(auto, unfolding(crate::specs::Reading::option_at))]
fn read_new_bytes(alloc: Global, bytes: &[u8]) -> Result<(Option<Bytes>, &[u8]), ReadError>
    ensures { Gives (λ x. (bytes_inside x.0, x.1.now)) result (option_at bytes_at bytes.now) }
{
    match bytes {
        [0, rest @ ..] => Ok((None, rest)),
        [1, rest @ ..] => {
            let (found, rest) = read_bytes(alloc, rest)?;
            Ok((Some(found), rest))
        }
        _ => Err(ReadError::NotSpelled),
    }
}

impl Spelled for FileChange {
    ghost spelled = { spelled_change };

    ghost reading = { change_at };

    fn put(&self, out: &mut Vec<u8>) -> Result<(), AllocError> {
        self.path.put(out)?;
        put_new_bytes(&self.bytes, out)
    }

    #[tactic(auto, unfolding(crate::specs::Reading::change_at))]
    fn read(alloc: Global, bytes: &[u8]) -> Result<(FileChange, &[u8]), ReadError> {
        let (path, rest) = Text::read(alloc, bytes)?;
        let (bytes, rest) = read_new_bytes(alloc, rest)?;
        Ok((FileChange { path, bytes }, rest))
    }
}

impl Spelled for Branch {
    ghost spelled = { spelled_branch };

    ghost reading = { branch_at };

    fn put(&self, out: &mut Vec<u8>) -> Result<(), AllocError> {
        self.name.put(out)?;
        put_number(self.revision, out)?;
        self.updates.put(out)?;
        self.files.put(out)?;
        self.problem.put(out)
    }

    #[tactic(auto, unfolding(crate::specs::Reading::branch_at))]
    fn read(alloc: Global, bytes: &[u8]) -> Result<(Branch, &[u8]), ReadError> {
        let (name, rest) = Text::read(alloc, bytes)?;
        let (revision, rest) = read_number(rest)?;
        let (updates, rest) = List::<Key>::read(alloc, rest)?;
        let (files, rest) = List::<EditedFile>::read(alloc, rest)?;
        let (problem, rest) = Text::read(alloc, rest)?;
        let branch = Branch {
            name,
            revision,
            updates,
            files,
            problem,
        };
        Ok((branch, rest))
    }
}
