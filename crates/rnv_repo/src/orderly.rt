ghost use Rattle.std.specs.Prelude.{◌≡◌, ◌↔◌, List, ℕ, IsTrue, All};
ghost use Rattle.rnv_base.specs.Names.{IsPath};
ghost use Rattle.rnv_repo.specs.Named.{IsRisingBy};
ghost use Rattle.rnv_repo.specs.WellFormed.{AreInOrder, HasOrder, IsOrderly, repo_of};

use crate::{EditedFile, FileChange, Write};
use rnv_base::{Text, name_ok, path_ok};
use std::cmp::Ordering;
use std::convert::{AsSlice, AsStr};

/// The last moment, 9998-12-31T23:59:59Z.
const LAST_MOMENT: u64 = 253_370_764_799;

// What has a path.
trait HasPath {
    ghost path: { Self → List ℕ };

    fn path(&self) -> &Text
        ensures { result.now ≡ path self.now };
}

impl HasPath for EditedFile {
    ghost path = { λ f. f.path };

    fn path(&self) -> &Text {
        &self.path
    }
}

impl HasPath for FileChange {
    ghost path = { λ c. c.path };

    fn path(&self) -> &Text {
        &self.path
    }
}

// Whether each path is below the next.
fn are_rising<T: HasPath>(items: &[T]) -> bool
    ensures { IsTrue result ↔ IsRisingBy T.path items.now }
{
    for at in 1..items.len() {
        match items[at - 1].path().cmp(items[at].path()) {
            Ordering::Less => {}
            _ => return false,
        }
    }
    true
}

fn are_paths<T: HasPath>(items: &[T]) -> bool
    ensures { IsTrue result ↔ All (λ item. IsPath (T.path item)) items.now }
{
    items.iter().all(|item| path_ok(item.path().as_str()))
}

fn are_in_order<T: HasPath>(items: &[T]) -> bool
    ensures { IsTrue result ↔ AreInOrder T.path items.now }
{
    are_paths(items) && are_rising(items)
}

/// The name of the repository that a write changes.
pub fn repo_of(write: &Write) -> &Text
    ensures { result.now ≡ repo_of write.now }
{
    match write {
        Write::SetBase { repo, .. }
        | Write::PutBranch { repo, .. }
        | Write::DropBranch { repo, .. }
        | Write::OpenRequest { repo, .. }
        | Write::EditRequest { repo, .. }
        | Write::Autoclose { repo, .. }
        | Write::Finish { repo, .. } => repo,
    }
}

// Whether the changes of a write, or the files of its branch, have paths that rise, and a request is
// opened at a moment.
fn has_order(write: &Write) -> bool
    ensures { IsTrue result ↔ HasOrder write.now }
{
    match write {
        Write::SetBase { changes, .. } => are_in_order(changes.as_slice()),
        Write::PutBranch { branch, .. } => are_in_order(branch.files.as_slice()),
        Write::OpenRequest { made_at, .. } => *made_at <= LAST_MOMENT,
        _ => true,
    }
}

/// Whether the write names a repository by a repository name, its changes, or the files of its
/// branch, have paths that are paths and rise, and the request that it opens is made at a moment, in
/// seconds since 1970 up to the year 9998. Takes no memory.
pub fn is_orderly(write: &Write) -> bool
    ensures { IsTrue result ↔ IsOrderly write.now }
{
    has_order(write) && name_ok(repo_of(write).as_str())
}
