ghost use Rattle.std.specs.Prelude.{◌≡◌, ◌<◌, None, not, nat_eq, IfSome, IfOk};
ghost use Rattle.rnv_repo.specs.declared.applying.ApplyError.TheVariants.{Memory};
ghost use Rattle.rnv_repo.specs.declared.write.Write.TheVariants.{SetBase, PutBranch, DropBranch, OpenRequest, EditRequest, Autoclose, Finish};
ghost use Rattle.rnv_repo.specs.Applying.{Applies};
ghost use Rattle.rnv_repo.specs.Base.{path_of};
ghost use Rattle.rnv_repo.specs.Live.{IsLiveFor, number_on};
ghost use Rattle.rnv_repo.specs.Merging.{change_path};
ghost use Rattle.rnv_repo.specs.Named.{IsRisingBy};
ghost use Rattle.rnv_repo.specs.Store.{IsSound, applied_in, applied_to, begun, name_of, refusal_in, refusal_to, refusal_unknown, refused_branch, refused_if};
ghost use Rattle.rnv_repo.specs.declared.refusal.Refusal.TheVariants.{NumberTaken};
ghost use Rattle.rnv_repo.specs.Requests.{AreApart, next_number};
ghost use Rattle.rnv_repo.specs.WellFormed.{HasOrder, IsOrderly};

use crate::base::{is_over, merged};
use crate::change::{Autoclosing, Texts, change_request, drop_branch, put_branch};
use crate::lookup::{is_live_number, is_next, live_for, refused_branch};
use crate::repo::shared_page;
use crate::{Branch, FileChange, Refusal, Repo, Request, RequestState, Write};
use rnv_base::{List, Share, Text};
use std::alloc::{AllocError, AllocFailed, Global};
use std::convert::AsSlice;

/// Why a write was not applied.
#[derive(Debug, Drop)]
pub enum ApplyError {
    /// Want of memory.
    Memory,
    /// It is not permitted.
    Refused(Refusal),
}

impl From<AllocError> for ApplyError {
    ghost from_gives = { λ _ e. e ≡ Memory };

    fn from(_e: AllocError) -> ApplyError {
        ApplyError::Memory
    }
}

impl<T: Drop> From<AllocFailed<T>> for ApplyError {
    ghost from_gives = { λ _ e. e ≡ Memory };

    fn from(_e: AllocFailed<T>) -> ApplyError {
        ApplyError::Memory
    }
}

fn set_base(alloc: Global, repo: Repo, changes: &List<FileChange>) -> Result<Repo, ApplyError>
    requires files { IsRisingBy path_of repo.files }
    requires changes { IsRisingBy change_path changes.now }
    requires revision { repo.revision < 4294967295 }
    ensures { Applies result (refusal_in (SetBase repo.name changes.now) repo) (applied_in (SetBase repo.name changes.now) repo) }
{
    let revision = repo.revision + 1;
    let (files, changing) = merged(alloc, repo.files, changes.as_slice(), revision)?;
    if is_over(files.as_slice()) {
        return Err(ApplyError::Refused(Refusal::BaseFull));
    }
    if !changing {
        return Err(ApplyError::Refused(Refusal::NoChange));
    }
    Ok(Repo {
        name: repo.name,
        revision,
        files,
        branches: repo.branches,
        requests: repo.requests,
        page: repo.page,
        due: true,
        deliveries: repo.deliveries,
    })
}

fn put(alloc: Global, repo: Repo, branch: &Branch) -> Result<Repo, ApplyError>
    requires { IsRisingBy name_of repo.branches }
    ensures { Applies result None (applied_in (PutBranch repo.name branch.now) repo) }
{
    let branches = put_branch(alloc, repo.branches, branch)?;
    Ok(Repo { branches, ..repo })
}

fn drop(repo: Repo, name: &Text, live: Option<u32>) -> Result<Repo, ApplyError>
    requires branches { IsRisingBy name_of repo.branches }
    requires live { live ≡ number_on name.now repo.requests }
    ensures { Applies result (refusal_in (DropBranch repo.name name.now) repo) (applied_in (DropBranch repo.name name.now) repo) }
{
    if let Some(cause) = refused_branch(&repo, name, live) {
        return Err(ApplyError::Refused(cause));
    }
    let branches = drop_branch(repo.branches, name);
    Ok(Repo { branches, ..repo })
}

// Why a request with this number may not be opened on this branch.
fn refused_open(repo: &Repo, number: u32, branch: &Text, live: Option<u32>) -> Option<Refusal>
    requires branches { IsRisingBy name_of repo.now.branches }
    requires requests { AreApart repo.now.requests }
    requires live { live ≡ number_on branch.now repo.now.requests }
    ensures { result ≡ refused_branch branch.now repo.now (refused_if (not (nat_eq number (next_number repo.now.requests))) (NumberTaken number) None) }
{
    if let Some(cause) = refused_branch(repo, branch, live) {
        return Some(cause);
    }
    if is_next(repo.requests.as_slice(), number) {
        None
    } else {
        Some(Refusal::NumberTaken { number })
    }
}

fn open(
    alloc: Global,
    repo: Repo,
    number: u32,
    branch: &Text,
    texts: &Texts,
    made_at: u64,
    live: Option<u32>,
) -> Result<Repo, ApplyError>
    requires branches { IsRisingBy name_of repo.branches }
    requires requests { AreApart repo.requests }
    requires live { live ≡ number_on branch.now repo.requests }
    ensures { Applies result (refusal_in (OpenRequest repo.name number branch.now texts.now.updates.now texts.now.title.now texts.now.body.now texts.now.labels.now made_at) repo)
        (applied_in (OpenRequest repo.name number branch.now texts.now.updates.now texts.now.title.now texts.now.body.now texts.now.labels.now made_at) repo) }
{
    if let Some(cause) = refused_open(&repo, number, branch, live) {
        return Err(ApplyError::Refused(cause));
    }
    let request = Request {
        number,
        branch: branch.share(alloc)?,
        updates: texts.updates.share(alloc)?,
        title: texts.title.share(alloc)?,
        body: texts.body.share(alloc)?,
        labels: texts.labels.share(alloc)?,
        made_at,
        state: RequestState::Live,
    };
    let mut requests = repo.requests;
    requests.push(request)?;
    Ok(Repo { requests, ..repo })
}

fn edit(alloc: Global, repo: Repo, number: u32, texts: &Texts) -> Result<Repo, ApplyError>
    requires { AreApart repo.requests }
    ensures { Applies result (refusal_in (EditRequest repo.name number texts.now.updates.now texts.now.title.now texts.now.body.now texts.now.labels.now) repo)
        (applied_in (EditRequest repo.name number texts.now.updates.now texts.now.title.now texts.now.body.now texts.now.labels.now) repo) }
{
    if !is_live_number(repo.requests.as_slice(), number) {
        return Err(ApplyError::Refused(Refusal::NotLive { number }));
    }
    let requests = change_request(alloc, repo.requests, number, texts)?;
    Ok(Repo { requests, ..repo })
}

fn autoclose(alloc: Global, repo: Repo, number: u32) -> Result<Repo, ApplyError>
    requires { AreApart repo.requests }
    ensures { Applies result (refusal_in (Autoclose repo.name number) repo) (applied_in (Autoclose repo.name number) repo) }
{
    if !is_live_number(repo.requests.as_slice(), number) {
        return Err(ApplyError::Refused(Refusal::NotLive { number }));
    }
    let requests = change_request(alloc, repo.requests, number, &Autoclosing)?;
    Ok(Repo { requests, ..repo })
}

fn finish(alloc: Global, repo: Repo, page: &Option<Text>) -> Result<Repo, ApplyError>
    ensures { Applies result None (applied_in (Finish repo.name page.now) repo) }
{
    let page = shared_page(alloc, page)?;
    Ok(Repo {
        page,
        due: false,
        ..repo
    })
}

// A new repository with its first files.
fn begin(alloc: Global, name: &Text, changes: &List<FileChange>) -> Result<Repo, ApplyError>
    requires { IsRisingBy change_path changes.now }
    ensures { Applies result (refusal_unknown (SetBase name.now changes.now)) (begun (SetBase name.now changes.now)) }
{
    let (files, _) = merged(alloc, List::empty(alloc), changes.as_slice(), 1)?;
    if is_over(files.as_slice()) {
        return Err(ApplyError::Refused(Refusal::BaseFull));
    }
    Ok(Repo {
        name: name.share(alloc)?,
        revision: 1,
        files,
        branches: List::empty(alloc),
        requests: List::empty(alloc),
        page: None,
        due: true,
        deliveries: List::empty(alloc),
    })
}

pub(crate) fn apply_new(alloc: Global, write: &Write) -> Result<Repo, ApplyError>
    requires { HasOrder write.now }
    ensures { Applies result (refusal_unknown write.now) (begun write.now) }
{
    match write {
        Write::SetBase { repo, changes } => begin(alloc, repo, changes),
        _ => Err(ApplyError::Refused(Refusal::UnknownRepo)),
    }
}

// What a write makes of a sound repository, with the live request on the branch that it drops or opens a request on.
pub(crate) fn apply_known(
    alloc: Global,
    repo: Repo,
    write: &Write,
    live: Option<u32>,
) -> Result<Repo, ApplyError>
    requires sound { IsSound repo }
    requires revision { repo.revision < 4294967295 }
    requires order { HasOrder write.now }
    requires live { IsLiveFor write.now repo.requests live }
    ensures { Applies result (refusal_in write.now repo) (applied_in write.now repo) }
{
    match write {
        Write::SetBase { changes, .. } => set_base(alloc, repo, changes),
        Write::PutBranch { branch, .. } => put(alloc, repo, branch),
        Write::DropBranch { name, .. } => drop(repo, name, live),
        Write::OpenRequest {
            number,
            branch,
            updates,
            title,
            body,
            labels,
            made_at,
            ..
        } => {
            let texts = Texts {
                updates,
                title,
                body,
                labels,
            };
            open(alloc, repo, *number, branch, &texts, *made_at, live)
        }
        Write::EditRequest {
            number,
            updates,
            title,
            body,
            labels,
            ..
        } => {
            let texts = Texts {
                updates,
                title,
                body,
                labels,
            };
            edit(alloc, repo, *number, &texts)
        }
        Write::Autoclose { number, .. } => autoclose(alloc, repo, *number),
        Write::Finish { page, .. } => finish(alloc, repo, page),
    }
}

/// What an orderly write makes of the repository of its name, or of none; `Refused` exactly where it
/// is not permitted, with the first cause, unless memory runs out. The repository is sound, and so
/// is what is answered; its revision is below 4294967295.
pub fn apply(alloc: Global, known: Option<Repo>, write: &Write) -> Result<Repo, ApplyError>
    requires sound { IfSome known IsSound }
    requires revision { IfSome known (λ repo. repo.revision < 4294967295) }
    requires orderly { IsOrderly write.now }
    ensures applied { Applies result (refusal_to write.now known) (applied_to write.now known) }
    ensures sound { IfOk result IsSound }
{
    match known {
        None => apply_new(alloc, write),
        Some(repo) => {
            let live = live_for(repo.requests.as_slice(), write);
            apply_known(alloc, repo, write, live)
        }
    }
}
