ghost use Rattle.std.specs.Prelude.{◌≡◌, List, ℕ, IfOk, map};
ghost use Rattle.std.specs.Cmp.Lexicographic.{slice_cmp};
ghost use Rattle.std.specs.Ordering.{nat_cmp};
ghost use Rattle.std.specs.BTreeMap.{get, IsOrdered};
ghost use Rattle.rnv_pick.specs.declared.update.Update.{Update as Of};
ghost use Rattle.rnv_plan.specs.Items.{AreGroups, item_cmp};
ghost use Rattle.rnv_plan.specs.Laws.{GroupsAreUnique};
ghost use Rattle.rnv_plan.specs.Groups.{group_in, greatest_kind, item_of};
ghost use Rattle.rnv_plan.specs.Named.{with_name};

use crate::Group;
use crate::named::NamedUpdate;
use rnv_base::{List, Text, UpdateKind};
use rnv_pick::Update;
use std::alloc::{AllocError, Global};
use std::cmp::Ordering;
use std::collections::BTreeMap;
use std::convert::AsSlice;

// The updates of each branch, in their order, by its name.
type Branches = BTreeMap<Text, List<Update>>;

/// The items of updates, of which these are with the names of their branches, in item order: the priority
/// falling, then the kind rising, then the branch's name by its bytes. Each branch has one item, with all its
/// updates in their order. A version that cannot be read counts as major version 0. Only memory can fail.
pub fn items(alloc: Global, named: List<NamedUpdate>) -> Result<List<Group>, AllocError>
    ensures { (updates : List Of) → named ≡ map with_name updates → IfOk result (AreGroups updates) }
{
    let branches = by_branch(alloc, named)?;
    let mut items = listed(alloc, branches)?;
    items.sort_by(item_order)?;
    Ok(List::new(items))
}

// The updates by their branches.
fn by_branch(alloc: Global, named: List<NamedUpdate>) -> Result<Branches, AllocError>
    ensures { IfOk result (λ branches. (q : List ℕ) → get (slice_cmp nat_cmp) branches q ≡ group_in q named) }
{
    let mut branches = BTreeMap::new(alloc);
    for one in named.into_inner() {
        let NamedUpdate { branch, update } = one;
        let mut group = branches.remove(&branch).unwrap_or(List::empty(alloc));
        group.push(update)?;
        branches.insert(branch, group)?;
    }
    Ok(branches)
}

// The items of branches, by name.
fn listed(alloc: Global, branches: Branches) -> Result<Vec<Group>, AllocError>
    ensures items { IfOk result (λ items. items.items ≡ map item_of branches.entries) }
    ensures ordered { IsOrdered (slice_cmp nat_cmp) branches }
{
    let mut items = Vec::new(alloc);
    for (branch, updates) in branches {
        let kind = greatest_kind(updates.as_slice());
        items.push(Group {
            branch,
            kind,
            priority: 0,
            updates,
        })?;
    }
    Ok(items)
}

// The greatest of the updates' kinds, `Pin` if there are no updates.
fn greatest_kind(updates: &[Update]) -> UpdateKind
    ensures { result ≡ greatest_kind updates.now }
{
    let mut kind = UpdateKind::Pin;
    for update in updates {
        kind = kind.max(update.kind);
    }
    kind
}

// Group order.
pub(crate) fn item_order(a: &Group, b: &Group) -> Ordering
    ensures { result ≡ item_cmp a.now b.now }
{
    b.priority
        .cmp(&a.priority)
        .then(a.kind.cmp(&b.kind))
        .then(a.branch.cmp(&b.branch))
}

/// Does nothing: its promise is the law that a list of updates has one list of items at most.
pub fn one_order()
    ensures { GroupsAreUnique }
{}
