ghost use Rattle.std.specs.Prelude.{◌≡◌, ◌<◌, ◌≤◌, ◌&&◌, true, length, is_some, nat_eq, nat_lt, option_map, slice_index_or};
ghost use Rattle.std.specs.Cmp.Lexicographic.{slice_cmp};
ghost use Rattle.std.specs.List.{prefix_len};
ghost use Rattle.std.specs.Ordering.{is_lt, nat_cmp};
ghost use Rattle.std.specs.Str.{bytes_eq};
ghost use Rattle.rnv_repo.specs.declared.branch.Branch.{Branch as Kept};
ghost use Rattle.rnv_repo.specs.declared.request.Request.{Request as Opened};
ghost use Rattle.rnv_repo.specs.declared.refusal.Refusal.TheVariants.{HasLiveRequest};
ghost use Rattle.rnv_repo.specs.Live.{IsLiveFor, number_on};
ghost use Rattle.rnv_repo.specs.Named.{IsRisingBy, at};
ghost use Rattle.rnv_repo.specs.Requests.{AreApart, greatest, is_live, is_live_number, is_live_on, next_number};
ghost use Rattle.rnv_repo.specs.Store.{name_of, refused_branch};

use crate::{Branch, Refusal, Repo, Request, RequestState, Write};
use rnv_base::Text;
use std::convert::AsSlice;

// The place of a name: how many branches are below it.
pub(crate) fn place_of(branches: &[Branch], name: &Text) -> usize
    requires { IsRisingBy name_of branches.now }
    ensures count { result ≡ prefix_len (λ b. is_lt (slice_cmp nat_cmp b.name name.now)) branches.now }
    ensures within { result ≤ length branches.now }
{
    branches.partition_point(|branch| branch.name < *name)
}

// Whether the branch at this place has this name.
pub(crate) fn is_at(branches: &[Branch], at: usize, name: &Text) -> bool
    ensures within { result ≡ true → at < length branches.now }
    ensures same { (branch : Kept) → at < length branches.now → bytes_eq (slice_index_or branches.now at branch).name name.now ≡ result }
{
    match branches.get(at) {
        Some(branch) => branch.name == *name,
        None => false,
    }
}

fn has_branch(branches: &[Branch], name: &Text) -> bool
    requires { IsRisingBy name_of branches.now }
    ensures { result ≡ is_some (at name_of name.now branches.now) }
{
    is_at(branches, place_of(branches, name), name)
}

fn is_live(state: RequestState) -> bool
    ensures { result ≡ is_live state }
{
    matches!(state, RequestState::Live)
}

fn is_live_on(request: &Request, branch: &Text) -> bool
    ensures { result ≡ is_live_on branch.now request.now }
{
    is_live(request.state) && request.branch == *branch
}

// The place of a number: how many requests are below it.
pub(crate) fn place_of_number(requests: &[Request], number: u32) -> usize
    requires { AreApart requests.now }
    ensures count { result ≡ prefix_len (λ r. nat_lt r.number number) requests.now }
    ensures within { result ≤ length requests.now }
{
    requests.partition_point(|request| request.number < number)
}

// Whether the request at this place has this number.
pub(crate) fn is_at_number(requests: &[Request], at: usize, number: u32) -> bool
    ensures within { result ≡ true → at < length requests.now }
    ensures same { (request : Opened) → at < length requests.now → nat_eq (slice_index_or requests.now at request).number number ≡ result }
{
    match requests.get(at) {
        Some(request) => request.number == number,
        None => false,
    }
}

// Whether the request at this place has this number and is live.
pub(crate) fn is_live_at(requests: &[Request], at: usize, number: u32) -> bool
    ensures within { result ≡ true → at < length requests.now }
    ensures same { (request : Opened) → at < length requests.now → (nat_eq (slice_index_or requests.now at request).number number && is_live (slice_index_or requests.now at request).state) ≡ result }
{
    match requests.get(at) {
        Some(request) => request.number == number && is_live(request.state),
        None => false,
    }
}

// Whether a live request has this number.
pub(crate) fn is_live_number(requests: &[Request], number: u32) -> bool
    requires { AreApart requests.now }
    ensures { result ≡ is_live_number number requests.now }
{
    is_live_at(requests, place_of_number(requests, number), number)
}

// The number of the live request on a branch.
fn number_on(requests: &[Request], branch: &Text) -> Option<u32>
    ensures { result ≡ number_on branch.now requests.now }
{
    for request in requests {
        if is_live_on(request, branch) {
            return Some(request.number);
        }
    }
    None
}

// The number of the live request on the branch that a write drops or opens a request on.
pub(crate) fn live_for(requests: &[Request], write: &Write) -> Option<u32>
    ensures { IsLiveFor write.now requests.now result }
{
    match write {
        Write::DropBranch { name, .. } => number_on(requests, name),
        Write::OpenRequest { branch, .. } => number_on(requests, branch),
        _ => None,
    }
}

// Why a branch may not be dropped or have a request opened, where the request of this number is live on it.
fn refused_live(live: Option<u32>) -> Option<Refusal>
    ensures { result ≡ option_map HasLiveRequest live }
{
    match live {
        Some(number) => Some(Refusal::HasLiveRequest { number }),
        None => None,
    }
}

// Why a branch of the repository, with this live request on it, may not be dropped or have a request opened.
pub(crate) fn refused_branch(repo: &Repo, name: &Text, live: Option<u32>) -> Option<Refusal>
    requires rising { IsRisingBy name_of repo.now.branches }
    requires live { live ≡ number_on name.now repo.now.requests }
    ensures { result ≡ refused_branch name.now repo.now None }
{
    if !has_branch(repo.branches.as_slice(), name) {
        return Some(Refusal::NoBranch);
    }
    refused_live(live)
}

// The greatest number is that of the last request.
fn greatest(requests: &[Request]) -> u32
    requires { AreApart requests.now }
    ensures { result ≡ greatest requests.now }
{
    match requests.last() {
        Some(request) => request.number,
        None => 0,
    }
}

// Whether this is the number after the greatest one.
pub(crate) fn is_next(requests: &[Request], number: u32) -> bool
    requires { AreApart requests.now }
    ensures { result ≡ nat_eq number (next_number requests.now) }
{
    number as u64 == greatest(requests) as u64 + 1
}
