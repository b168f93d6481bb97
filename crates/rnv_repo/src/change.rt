ghost use Rattle.std.specs.Prelude.{◌≡◌, IfOk, OnOk};
ghost use Rattle.rnv_repo.specs.Named.{IsRisingBy, put, without};
ghost use Rattle.rnv_repo.specs.Requests.{AreApart, at_number, autoclosed, autoclosed_title, edited};
ghost use Rattle.rnv_repo.specs.Store.{name_of};

use crate::lookup::{is_at, is_at_number, place_of, place_of_number};
use crate::{Branch, Key, Request, RequestState};
use rnv_base::{List, Share, Text};
use std::alloc::{AllocError, Global};
use std::convert::AsSlice;

// The branches with a copy of this one in its place.
pub(crate) fn put_branch(
    alloc: Global,
    branches: List<Branch>,
    branch: &Branch,
) -> Result<List<Branch>, AllocError>
    requires { IsRisingBy name_of branches }
    ensures { IfOk result (λ after. after ≡ put name_of branch.now branches) }
{
    let copy = branch.share(alloc)?;
    let mut branches = branches.into_inner();
    let at = place_of(branches.as_slice(), &branch.name);
    if is_at(branches.as_slice(), at, &branch.name) {
        branches[at] = copy;
        return Ok(List::new(branches));
    }
    branches.insert(at, copy)?;
    Ok(List::new(branches))
}

// The branches without the one of this name.
pub(crate) fn drop_branch(branches: List<Branch>, name: &Text) -> List<Branch>
    requires { IsRisingBy name_of branches }
    ensures { result ≡ without name_of name.now branches }
{
    let mut branches = branches.into_inner();
    let at = place_of(branches.as_slice(), name);
    if !is_at(branches.as_slice(), at, name) {
        return List::new(branches);
    }
    branches.remove(at);
    List::new(branches)
}

// What an edit or the end of a run makes of a request.
pub(crate) trait Change {
    ghost use Rattle.rnv_repo.specs.declared.request.Request.{Request};

    ghost makes: { Self → Request → Request };

    fn change(&self, alloc: Global, request: &mut Request) -> Result<(), AllocError>
        ensures { OnOk result (request.new ≡ makes self.now request.old) };
}

// The texts of a request.
#[derive(Clone, Copy)]
pub(crate) struct Texts<'a> {
    pub(crate) updates: &'a List<Key>,
    pub(crate) title: &'a Text,
    pub(crate) body: &'a Text,
    pub(crate) labels: &'a List<Text>,
}

impl Change for Texts<'_> {
    ghost makes = { λ t. edited t.updates.now t.title.now t.body.now t.labels.now };

    fn change(&self, alloc: Global, request: &mut Request) -> Result<(), AllocError> {
        request.updates = self.updates.share(alloc)?;
        request.title = self.title.share(alloc)?;
        request.body = self.body.share(alloc)?;
        request.labels = self.labels.share(alloc)?;
        Ok(())
    }
}

// The end of a request whose branch is no longer wanted.
pub(crate) struct Autoclosing;

impl Change for Autoclosing {
    ghost makes = { λ _. autoclosed };

    fn change(&self, alloc: Global, request: &mut Request) -> Result<(), AllocError> {
        request.title = autoclosed_title(alloc, &request.title)?;
        request.state = RequestState::Autoclosed;
        Ok(())
    }
}

#[tactic(auto, unfolding(crate::specs::Requests::autoclosed_title))]
fn autoclosed_title(alloc: Global, title: &Text) -> Result<Text, AllocError>
    ensures { IfOk result (λ after. after ≡ autoclosed_title title.now) }
{
    let mut title = title.share(alloc)?.into_inner();
    title.push_str(" - autoclosed")?;
    Ok(Text::new(title))
}

// The requests with this change of the one with this number.
pub(crate) fn change_request<C: Change>(
    alloc: Global,
    requests: List<Request>,
    number: u32,
    change: &C,
) -> Result<List<Request>, AllocError>
    requires { AreApart requests }
    ensures { IfOk result (λ after. after ≡ at_number number (C.makes change.now) requests) }
{
    let mut requests = requests.into_inner();
    let at = place_of_number(requests.as_slice(), number);
    if !is_at_number(requests.as_slice(), at, number) {
        return Ok(List::new(requests));
    }
    change.change(alloc, &mut requests[at])?;
    Ok(List::new(requests))
}
