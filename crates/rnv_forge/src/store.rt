ghost use Rattle.std.specs.Prelude.{◌≡◌, ◌<◌, [], map, option_copied, IfOk, IsErrOf, OnOk};
ghost use Rattle.std.specs.List.{AllByRecursion};
ghost use Rattle.std.specs.Map.{values_of};
ghost use Rattle.rnv_repo.specs.declared.applying.ApplyError.TheVariants.{Refused};
ghost use Rattle.rnv_repo.specs.declared.refusal.Refusal.{Refusal as Cause};
ghost use Rattle.rnv_repo.specs.Store.{IsPermitted, IsSoundStore, applied, known, refusal};
ghost use Rattle.rnv_repo.specs.WellFormed.{IsOrderly};

use rnv_base::{List, Share, Text};
use rnv_repo::{ApplyError, Indexed, Repo, Write, repo_of};
use std::alloc::{AllocError, Global};
use std::collections::BTreeMap;
use std::marker::Model;

// The repositories by name. Contracts see their list.
#[derive(Drop)]
pub(crate) struct Store {
    repos: BTreeMap<Text, Indexed>,
}

impl Model for Store {
    ghost use Rattle.std.specs.Prelude.{List};
    ghost use Rattle.std.specs.Map.{values_of};
    ghost use Rattle.rnv_repo.specs.declared.repo.Repo.{Repo};
    ghost use Rattle.rnv_forge.specs.ByName.{IsByName};

    ghost Value = { List Repo };

    ghost view = { λ s. values_of s.repos.entries };

    ghost invariant = { λ s. IsByName s.repos.entries };
}

impl Store {
    // No repositories. Takes no memory.
    pub(crate) fn empty(alloc: Global) -> Store
        ensures { result ≡ [] }
    {
        Store {
            repos: BTreeMap::new(alloc),
        }
    }

    // The names of the repositories, in order.
    pub(crate) fn names(&self, alloc: Global) -> Result<List<Text>, AllocError>
        ensures { IfOk result (λ names. names ≡ map (λ repo. repo.name) self.now) }
    {
        names_of(alloc, &self.repos)
    }

    // A copy of the repository of a name.
    pub(crate) fn repo(&self, alloc: Global, name: &Text) -> Result<Option<Repo>, AllocError>
        ensures { IfOk result (λ repo. repo ≡ known name.now self.now) }
    {
        let repo = copied(alloc, self.repos.get(name))?;
        Ok(repo)
    }

    // Takes the repository of a name out.
    pub(crate) fn into_repo(self, name: &Text) -> Option<Repo>
        ensures { result ≡ known name.now self }
    {
        let Store { mut repos } = self;
        unindexed(repos.remove(name))
    }

    // Applies an orderly write. After an error the store is of no more use.
    pub(crate) fn apply(&mut self, alloc: Global, write: &Write) -> Result<(), ApplyError>
        requires sound { IsSoundStore self.old }
        requires revisions { AllByRecursion (λ repo. repo.revision < 4294967295) self.old }
        requires orderly { IsOrderly write.now }
        ensures permitted { OnOk result (IsPermitted write.now self.old) }
        ensures ok { OnOk result (self.new ≡ applied write.now self.old) }
        ensures refused { (cause : Cause) → IsErrOf result (Refused cause) → refusal write.now self.old ≡ Some cause }
    {
        let known = self.repos.remove(repo_of(write));
        match Indexed::apply(alloc, known, write) {
            Ok(repo) => {
                self.repos.insert(repo.name().share(alloc)?, repo)?;
                Ok(())
            }
            Err(error) => Err(error),
        }
    }
}

// A copy of the repository that was found.
fn copied(alloc: Global, found: Option<&Indexed>) -> Result<Option<Repo>, AllocError>
    ensures { IfOk result (λ copy. copy ≡ option_copied found.entry) }
{
    match found {
        Some(repo) => Ok(Some(repo.repo().share(alloc)?)),
        None => Ok(None),
    }
}

// The names of repositories, in the order of the map.
fn names_of(alloc: Global, repos: &BTreeMap<Text, Indexed>) -> Result<List<Text>, AllocError>
    ensures { IfOk result (λ names. names ≡ map (λ repo. repo.name) (values_of repos.now.entries)) }
{
    let mut names = List::empty(alloc);
    for repo in repos.values() {
        names.push(repo.name().share(alloc)?)?;
    }
    Ok(names)
}

// The repository without its index.
fn unindexed(known: Option<Indexed>) -> Option<Repo>
    ensures { result ≡ known }
{
    match known {
        Some(repo) => Some(repo.into_repo()),
        None => None,
    }
}
