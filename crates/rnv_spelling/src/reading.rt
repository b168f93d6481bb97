ghost use Rattle.std.specs.Prelude.{◌≡◌, ℕ, List, Some, IfOk, IfSome};
ghost use Rattle.rnv_repo.specs.declared.write.Write.{Write};
ghost use Rattle.rnv_repo.specs.WellFormed.{HasTexts, IsWellFormed};
ghost use Rattle.rnv_spelling.specs.Spelling.{spelling};
ghost use Rattle.rnv_spelling.specs.Reading.{Gives, base_at, put_at, drop_at, open_at, edit_at, close_at, finish_at, fields_at, write_at, whole_write};

use crate::spelled::{ReadError, Spelled, read_long, read_number};
use rnv_base::{List, Text};
use rnv_repo::{Branch, FileChange, Key, Write, is_orderly};
use std::alloc::{AllocError, Global};

#[tactic(auto, unfolding(crate::specs::Reading::base_at))]
fn read_base(alloc: Global, bytes: &[u8]) -> Result<(Write, &[u8]), ReadError>
    ensures { Gives (λ x. (x.0, x.1.now)) result (base_at bytes.now) }
{
    let (repo, rest) = Text::read(alloc, bytes)?;
    let (changes, rest) = List::<FileChange>::read(alloc, rest)?;
    Ok((Write::SetBase { repo, changes }, rest))
}

#[tactic(auto, unfolding(crate::specs::Reading::put_at))]
fn read_put(alloc: Global, bytes: &[u8]) -> Result<(Write, &[u8]), ReadError>
    ensures { Gives (λ x. (x.0, x.1.now)) result (put_at bytes.now) }
{
    let (repo, rest) = Text::read(alloc, bytes)?;
    let (branch, rest) = Branch::read(alloc, rest)?;
    Ok((Write::PutBranch { repo, branch }, rest))
}

#[tactic(auto, unfolding(crate::specs::Reading::drop_at))]
fn read_drop(alloc: Global, bytes: &[u8]) -> Result<(Write, &[u8]), ReadError>
    ensures { Gives (λ x. (x.0, x.1.now)) result (drop_at bytes.now) }
{
    let (repo, rest) = Text::read(alloc, bytes)?;
    let (name, rest) = Text::read(alloc, rest)?;
    Ok((Write::DropBranch { repo, name }, rest))
}

#[tactic(auto, unfolding(crate::specs::Reading::open_at))]
fn read_open(alloc: Global, bytes: &[u8]) -> Result<(Write, &[u8]), ReadError>
    ensures { Gives (λ x. (x.0, x.1.now)) result (open_at bytes.now) }
{
    let (repo, rest) = Text::read(alloc, bytes)?;
    let (number, rest) = read_number(rest)?;
    let (branch, rest) = Text::read(alloc, rest)?;
    let (updates, rest) = List::<Key>::read(alloc, rest)?;
    let (title, rest) = Text::read(alloc, rest)?;
    let (body, rest) = Text::read(alloc, rest)?;
    let (labels, rest) = List::<Text>::read(alloc, rest)?;
    let (made_at, rest) = read_long(rest)?;
    let write = Write::OpenRequest {
        repo,
        number,
        branch,
        updates,
        title,
        body,
        labels,
        made_at,
    };
    Ok((write, rest))
}

#[tactic(auto, unfolding(crate::specs::Reading::edit_at))]
fn read_edit(alloc: Global, bytes: &[u8]) -> Result<(Write, &[u8]), ReadError>
    ensures { Gives (λ x. (x.0, x.1.now)) result (edit_at bytes.now) }
{
    let (repo, rest) = Text::read(alloc, bytes)?;
    let (number, rest) = read_number(rest)?;
    let (updates, rest) = List::<Key>::read(alloc, rest)?;
    let (title, rest) = Text::read(alloc, rest)?;
    let (body, rest) = Text::read(alloc, rest)?;
    let (labels, rest) = List::<Text>::read(alloc, rest)?;
    let write = Write::EditRequest {
        repo,
        number,
        updates,
        title,
        body,
        labels,
    };
    Ok((write, rest))
}

#[tactic(auto, unfolding(crate::specs::Reading::close_at))]
fn read_close(alloc: Global, bytes: &[u8]) -> Result<(Write, &[u8]), ReadError>
    ensures { Gives (λ x. (x.0, x.1.now)) result (close_at bytes.now) }
{
    let (repo, rest) = Text::read(alloc, bytes)?;
    let (number, rest) = read_number(rest)?;
    Ok((Write::Autoclose { repo, number }, rest))
}

#[tactic(auto, unfolding(crate::specs::Reading::finish_at))]
fn read_finish(alloc: Global, bytes: &[u8]) -> Result<(Write, &[u8]), ReadError>
    ensures { Gives (λ x. (x.0, x.1.now)) result (finish_at bytes.now) }
{
    let (repo, rest) = Text::read(alloc, bytes)?;
    let (page, rest) = Option::<Text>::read(alloc, rest)?;
    Ok((Write::Finish { repo, page }, rest))
}

// The fields of a write of this kind.
#[tactic(auto, unfolding(crate::specs::Reading::fields_at))]
fn read_fields(alloc: Global, kind: u8, bytes: &[u8]) -> Result<(Write, &[u8]), ReadError>
    ensures { Gives (λ x. (x.0, x.1.now)) result (fields_at kind bytes.now) }
{
    match kind {
        1 => read_base(alloc, bytes),
        2 => read_put(alloc, bytes),
        3 => read_drop(alloc, bytes),
        4 => read_open(alloc, bytes),
        5 => read_edit(alloc, bytes),
        6 => read_close(alloc, bytes),
        7 => read_finish(alloc, bytes),
        _ => Err(ReadError::NotSpelled),
    }
}

// The write that all the bytes spell.
#[tactic(auto, unfolding(crate::specs::Reading::write_at, crate::specs::Reading::whole_write))]
fn read_whole(alloc: Global, bytes: &[u8]) -> Result<Write, ReadError>
    ensures { Gives (λ w. w) result (whole_write bytes.now) }
{
    let [kind, fields @ ..] = bytes else {
        return Err(ReadError::NotSpelled);
    };
    let (write, rest) = read_fields(alloc, *kind, fields)?;
    if !rest.is_empty() {
        return Err(ReadError::NotSpelled);
    }
    Ok(write)
}

/// The write that all the bytes spell, if they spell one that is well-formed. Only memory can fail.
pub fn read_write(alloc: Global, bytes: &[u8]) -> Result<Option<Write>, AllocError>
    // What is read is spelled so.
    ensures read { IfOk result (λ found. IfSome found (λ write. IsWellFormed write × (bytes.now ≡ spelling write))) }
    // What is spelled so is read.
    ensures only { (write : Write) → IsWellFormed write → bytes.now ≡ spelling write → IfOk result (λ found. found ≡ Some write) }
{
    match read_whole(alloc, bytes) {
        Ok(write) => {
            if is_orderly(&write) {
                Ok(Some(write))
            } else {
                Ok(None)
            }
        }
        Err(ReadError::NotSpelled) => Ok(None),
        Err(ReadError::Memory) => Err(AllocError),
    }
}

/// No two writes have one spelling.
pub fn one_spelling()
    ensures { (v w : Write) → HasTexts v → HasTexts w → spelling v ≡ spelling w → v ≡ w }
{}
