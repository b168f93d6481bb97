ghost use Rattle.std.specs.Prelude.{◌≡◌, ◌∷◌, ◌++◌, IfOk, OnOk};
ghost use Rattle.rnv_spelling.specs.Spelling.{spelling, spelled_bytes, spelled_key, spelled_list};

use crate::spelled::{Spelled, put_long, put_number};
use rnv_base::{Bytes, List, Text};
use rnv_repo::{Key, Write};
use std::alloc::{AllocError, Global};

// The kind of a write, and the name of its repository.
fn put_head(kind: u8, repo: &Text, out: &mut Vec<u8>) -> Result<(), AllocError>
    ensures { OnOk result (out.new.items ≡ out.old.items ++ (kind ∷ spelled_bytes repo.now)) }
{
    out.push(kind)?;
    repo.put(out)
}

// What a request says.
fn put_texts(
    updates: &List<Key>,
    title: &Text,
    body: &Text,
    labels: &List<Text>,
    out: &mut Vec<u8>,
) -> Result<(), AllocError>
    ensures { OnOk result (out.new.items ≡ out.old.items ++ (spelled_list spelled_key updates.now ++ spelled_bytes title.now ++ spelled_bytes body.now ++ spelled_list spelled_bytes labels.now)) }
{
    updates.put(out)?;
    title.put(out)?;
    body.put(out)?;
    labels.put(out)
}

fn put_write(write: &Write, out: &mut Vec<u8>) -> Result<(), AllocError>
    ensures { OnOk result (out.new.items ≡ out.old.items ++ spelling write.now) }
{
    match write {
        Write::SetBase { repo, changes } => {
            put_head(1, repo, out)?;
            changes.put(out)
        }
        Write::PutBranch { repo, branch } => {
            put_head(2, repo, out)?;
            branch.put(out)
        }
        Write::DropBranch { repo, name } => {
            put_head(3, repo, out)?;
            name.put(out)
        }
        Write::OpenRequest {
            repo,
            number,
            branch,
            updates,
            title,
            body,
            labels,
            made_at,
        } => {
            put_head(4, repo, out)?;
            put_number(*number, out)?;
            branch.put(out)?;
            put_texts(updates, title, body, labels, out)?;
            put_long(*made_at, out)
        }
        Write::EditRequest {
            repo,
            number,
            updates,
            title,
            body,
            labels,
        } => {
            put_head(5, repo, out)?;
            put_number(*number, out)?;
            put_texts(updates, title, body, labels, out)
        }
        Write::Autoclose { repo, number } => {
            put_head(6, repo, out)?;
            put_number(*number, out)
        }
        Write::Finish { repo, page } => {
            put_head(7, repo, out)?;
            page.put(out)
        }
    }
}

/// The one spelling of a write. Only memory can fail: a text or a list of 2^32 or more is more than
/// there is memory for.
pub fn spell(alloc: Global, write: &Write) -> Result<Bytes, AllocError>
    ensures { IfOk result (λ spelled. spelled.bytes ≡ spelling write.now) }
{
    let mut out = Vec::new(alloc);
    put_write(write, &mut out)?;
    Ok(Bytes::new(out))
}
