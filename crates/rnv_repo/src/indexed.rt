ghost use Rattle.std.specs.Prelude.{◌≡◌, ◌<◌, ℕ, List, [], IfOk, IfSome, OnOk};
ghost use Rattle.std.specs.BTreeMap.{is_at};
ghost use Rattle.std.specs.Cmp.Lexicographic.{slice_cmp};
ghost use Rattle.std.specs.Map.{lookup};
ghost use Rattle.std.specs.Ordering.{nat_cmp};
ghost use Rattle.rnv_repo.specs.declared.request.Request.{Request as Opened};
ghost use Rattle.rnv_repo.specs.Applying.{Applies};
ghost use Rattle.rnv_repo.specs.Live.{AreLiveOf, IsBranchOf, IsClosedBy, IsLiveFor, live_after, opened_after};
ghost use Rattle.rnv_repo.specs.Requests.{AreApart};
ghost use Rattle.rnv_repo.specs.Store.{IsSound, applied_in, applied_to, begun, refusal_in, refusal_to, refusal_unknown};
ghost use Rattle.rnv_repo.specs.WellFormed.{HasOrder, IsOrderly};

use crate::applying::{apply_known, apply_new};
use crate::lookup::{is_live_at, place_of_number};
use crate::{ApplyError, Repo, Request, Write};
use rnv_base::{Share, Text};
use std::alloc::{AllocError, Global};
use std::collections::BTreeMap;
use std::convert::AsSlice;
use std::marker::Model;

/// A repository that keeps the numbers of its live requests by their branch, so that no write goes
/// through all requests. Contracts see the repository.
#[derive(Drop)]
pub struct Indexed {
    repo: Repo,
    live: BTreeMap<Text, u32>,
}

impl Model for Indexed {
    ghost use Rattle.rnv_repo.specs.declared.repo.Repo.{Repo as Record};
    ghost use Rattle.rnv_repo.specs.Live.{AreLiveOf};

    ghost Value = { Record };

    ghost view = { λ i. i.repo };

    ghost invariant = { λ i. AreLiveOf i.repo.requests i.live.entries };
}

impl Indexed {
    /// The repository.
    pub fn into_repo(self) -> Repo
        ensures { result ≡ self }
    {
        let Indexed { repo, live: _ } = self;
        repo
    }

    /// The repository, as it stands.
    pub fn repo(&self) -> &Repo
        ensures { result.now ≡ self.now }
    {
        &self.repo
    }

    /// The name of the repository.
    pub fn name(&self) -> &Text
        ensures { result.now ≡ self.now.name }
    {
        &self.repo.name
    }

    /// What an orderly write makes of the repository of its name, or of none, as `apply` does, in the
    /// logarithm of the number of its branches and requests.
    pub fn apply(
        alloc: Global,
        known: Option<Indexed>,
        write: &Write,
    ) -> Result<Indexed, ApplyError>
        requires sound { IfSome known IsSound }
        requires revision { IfSome known (λ repo. repo.revision < 4294967295) }
        requires orderly { IsOrderly write.now }
        ensures applied { Applies result (refusal_to write.now known) (applied_to write.now known) }
        ensures sound { IfOk result IsSound }
    {
        match known {
            None => begun(alloc, write),
            Some(indexed) => {
                let Indexed { repo, live } = indexed;
                applied(alloc, repo, live, write)
            }
        }
    }
}

fn begun(alloc: Global, write: &Write) -> Result<Indexed, ApplyError>
    requires { HasOrder write.now }
    ensures { Applies result (refusal_unknown write.now) (begun write.now) }
{
    let repo = apply_new(alloc, write)?;
    Ok(Indexed {
        repo,
        live: BTreeMap::new(alloc),
    })
}

// The number of the live request on the branch that a write drops or opens a request on.
fn live_for(live: &BTreeMap<Text, u32>, write: &Write) -> Option<u32>
    ensures { (requests : List Opened) → AreLiveOf requests live.now.entries → IsLiveFor write.now requests result }
{
    match write {
        Write::DropBranch { name, .. } => live.get(name).copied(),
        Write::OpenRequest { branch, .. } => live.get(branch).copied(),
        _ => None,
    }
}

// The branch of the live request of a number.
fn branch_of(alloc: Global, requests: &[Request], number: u32) -> Result<Option<Text>, AllocError>
    requires { AreApart requests.now }
    ensures { IfOk result (λ branch. IsBranchOf number requests.now branch) }
{
    let at = place_of_number(requests, number);
    if !is_live_at(requests, at, number) {
        return Ok(None);
    }
    Ok(Some(requests[at].branch.share(alloc)?))
}

// The branch whose live request a write closes.
fn closed_by(alloc: Global, repo: &Repo, write: &Write) -> Result<Option<Text>, AllocError>
    requires { AreApart repo.now.requests }
    ensures { IfOk result (λ branch. IsClosedBy write.now repo.now.requests branch) }
{
    match write {
        Write::Autoclose { number, .. } => branch_of(alloc, repo.requests.as_slice(), *number),
        _ => Ok(None),
    }
}

// Keeps the numbers by their branch, behind a write that closed none.
fn keep_opened(
    alloc: Global,
    live: &mut BTreeMap<Text, u32>,
    write: &Write,
) -> Result<(), AllocError>
    ensures { OnOk result ((branch : List ℕ) → lookup (is_at (slice_cmp nat_cmp branch)) live.new.entries ≡ opened_after write.now branch (lookup (is_at (slice_cmp nat_cmp branch)) live.old.entries)) }
{
    if let Write::OpenRequest { number, branch, .. } = write {
        live.insert(branch.share(alloc)?, *number)?;
    }
    Ok(())
}

// Keeps the numbers by their branch, behind a write that closed the request on this branch.
fn keep(
    alloc: Global,
    live: &mut BTreeMap<Text, u32>,
    write: &Write,
    closed: Option<Text>,
) -> Result<(), AllocError>
    ensures { OnOk result ((branch : List ℕ) → lookup (is_at (slice_cmp nat_cmp branch)) live.new.entries ≡ live_after write.now closed branch (lookup (is_at (slice_cmp nat_cmp branch)) live.old.entries)) }
{
    match closed {
        Some(branch) => {
            live.remove(&branch);
            Ok(())
        }
        None => keep_opened(alloc, live, write),
    }
}

fn applied(
    alloc: Global,
    repo: Repo,
    mut live: BTreeMap<Text, u32>,
    write: &Write,
) -> Result<Indexed, ApplyError>
    requires sound { IsSound repo }
    requires revision { repo.revision < 4294967295 }
    requires order { HasOrder write.now }
    requires live { AreLiveOf repo.requests live.entries }
    ensures { Applies result (refusal_in write.now repo) (applied_in write.now repo) }
{
    let on = live_for(&live, write);
    let closed = closed_by(alloc, &repo, write)?;
    let repo = apply_known(alloc, repo, write, on)?;
    keep(alloc, &mut live, write, closed)?;
    Ok(Indexed { repo, live })
}
