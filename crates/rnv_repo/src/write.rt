use crate::repo::shared_page;
use crate::{Branch, FileChange, Key};
use rnv_base::{List, Share, Text};
use std::alloc::{AllocError, Global};

/// A write: it changes one thing of the repository with the name `repo`.
#[derive(Debug, Drop)]
pub enum Write {
    /// Sets or removes files of the base. The repository begins with it.
    SetBase {
        repo: Text,
        changes: List<FileChange>,
    },
    /// Sets the branch of this name.
    PutBranch {
        repo: Text,
        branch: Branch,
    },
    /// Drops the branch of this name.
    DropBranch {
        repo: Text,
        name: Text,
    },
    /// Opens a request on a branch.
    OpenRequest {
        repo: Text,
        number: u32,
        branch: Text,
        updates: List<Key>,
        title: Text,
        body: Text,
        labels: List<Text>,
        made_at: u64,
    },
    /// Sets the texts of a live request.
    EditRequest {
        repo: Text,
        number: u32,
        updates: List<Key>,
        title: Text,
        body: Text,
        labels: List<Text>,
    },
    /// Closes a live request whose branch is no longer wanted.
    Autoclose {
        repo: Text,
        number: u32,
    },
    /// Sets the page, at the end of a run.
    Finish {
        repo: Text,
        page: Option<Text>,
    },
}

impl Share for Write {
    fn share(&self, alloc: Global) -> Result<Write, AllocError> {
        match self {
            Write::SetBase { repo, changes } => Ok(Write::SetBase {
                repo: repo.share(alloc)?,
                changes: changes.share(alloc)?,
            }),
            Write::PutBranch { repo, branch } => Ok(Write::PutBranch {
                repo: repo.share(alloc)?,
                branch: branch.share(alloc)?,
            }),
            Write::DropBranch { repo, name } => Ok(Write::DropBranch {
                repo: repo.share(alloc)?,
                name: name.share(alloc)?,
            }),
            Write::OpenRequest {
                repo,
                number,
                branch,
                updates,
                title,
                body,
                labels,
                made_at,
            } => Ok(Write::OpenRequest {
                repo: repo.share(alloc)?,
                number: *number,
                branch: branch.share(alloc)?,
                updates: updates.share(alloc)?,
                title: title.share(alloc)?,
                body: body.share(alloc)?,
                labels: labels.share(alloc)?,
                made_at: *made_at,
            }),
            Write::EditRequest {
                repo,
                number,
                updates,
                title,
                body,
                labels,
            } => Ok(Write::EditRequest {
                repo: repo.share(alloc)?,
                number: *number,
                updates: updates.share(alloc)?,
                title: title.share(alloc)?,
                body: body.share(alloc)?,
                labels: labels.share(alloc)?,
            }),
            Write::Autoclose { repo, number } => Ok(Write::Autoclose {
                repo: repo.share(alloc)?,
                number: *number,
            }),
            Write::Finish { repo, page } => Ok(Write::Finish {
                repo: repo.share(alloc)?,
                page: shared_page(alloc, page)?,
            }),
        }
    }
}
