ghost use Rattle.std.specs.Prelude.{◌≡◌, ◌≢◌, ◌≤◌, ◌<◌, ◌++◌, ◌∷◌, ◌+◌, ℕ, [], false, List as Items, None, IfOk, IfErr, OnOk, IsErrOf, length, map};
ghost use Rattle.rnv_base.specs.Causes.{FaultsBy};
ghost use Rattle.rnv_base.specs.Files.{NamedFile};
ghost use Rattle.rnv_base.specs.Names.{IsRepositoryName};
ghost use Rattle.rnv_checkout.specs.Base.{IsWithin};
ghost use Rattle.rnv_commands.specs.declared.error.CommandError.TheVariants.{DiskFault as disk_fault, FolderFault as folder_fault};
ghost use Rattle.rnv_commands.specs.Import.{files_of, import_text, repo_after, revision_of, revision_with, IsFolderBase, IsImportRefusal, IsNoRoom, IsOldOrImport, IsPrepared, IsReadRefusal, IsReady, IsWriteRefusal, PrintsImport};
ghost use Rattle.rnv_repo.specs.Base.{path_of};
ghost use Rattle.rnv_repo.specs.Named.{IsRisingBy};
ghost use Rattle.rnv_repo.specs.WellFormed.{AreInOrder};
ghost use Rattle.rnv_repo.specs.declared.write.Write.TheVariants.{SetBase};
ghost use Rattle.rnv_repo.specs.Store.{IsPermitted, after};
ghost use Rattle.rnv_journal.specs.Readings.{IsAtRest, KeepsOne};
ghost use Rattle.rnv_spelling.specs.Spelling.{spelling};
ghost use Rattle.rnv_forge.specs.Forge.{IsOldOrNext, IsSamePast, LeavesWrites};
ghost use Rattle.rnv_forge.specs.Writes.{length_of};

use crate::CommandError;
use crate::difference::changes_of;
use crate::printing::{add, add_number_after};
use rnv_base::{Folder, List, Share, Text};
use rnv_checkout::{BaseError, FolderBase, read_base};
use rnv_forge::{Forge, ForgePrepareError, WriteError};
use rnv_repo::{FileAt, FileChange, Repo, Write};
use std::alloc::{AllocError, Global};
use std::convert::{AsSlice, AsStr};

// Puts the text of an import at the end.
#[tactic(auto, unfolding(crate::specs::Import::import_text))]
fn add_import(out: &mut Vec<u8>, count: usize, revision: u32, passed: u64) -> Result<(), AllocError>
    ensures { OnOk result (out.new.items ≡ out.old.items ++ import_text count revision passed) }
{
    add_number_after(out, "imported ", count as u64)?;
    add_number_after(out, " files, revision ", revision as u64)?;
    add_number_after(out, "\npassed over ", passed)?;
    add(out, "\n")
}

// The text of an import.
fn import_text(
    alloc: Global,
    count: usize,
    revision: u32,
    passed: u64,
) -> Result<Vec<u8>, AllocError>
    ensures { IfOk result (λ text. text.items ≡ import_text count revision passed) }
{
    let mut text = Vec::new(alloc);
    add_import(&mut text, count, revision, passed)?;
    Ok(text)
}

// The base of a repository, without files and at revision 0 where there is none.
#[derive(Drop)]
struct Known {
    files: List<FileAt>,
    revision: u32,
}

fn known_base(alloc: Global, repo: Option<Repo>) -> Known
    ensures files { result.files ≡ files_of repo }
    ensures revision { result.revision ≡ revision_of repo }
{
    match repo {
        Some(repo) => Known {
            files: repo.files,
            revision: repo.revision,
        },
        None => Known {
            files: List::empty(alloc),
            revision: 0,
        },
    }
}

// The revision after these changes.
fn revision_with(revision: u32, changes: &List<FileChange>) -> u32
    requires { revision < 4294967295 }
    ensures none { changes.now ≡ [] → result ≡ revision }
    ensures some { changes.now ≢ [] → result ≡ revision + 1 }
{
    if changes.is_empty() {
        revision
    } else {
        revision + 1
    }
}

// The changes that an import makes, and what is printed of it.
#[derive(Drop)]
struct Import {
    changes: List<FileChange>,
    text: List<u8>,
}

// The import of these files into a repository, or none.
fn import_into(alloc: Global, repo: Option<Repo>, base: FolderBase) -> Result<Import, AllocError>
    requires files { AreInOrder path_of (files_of repo) }
    requires small { revision_of repo < 4294967295 }
    requires order { AreInOrder (λ f. f.path) base.files }
    ensures { IfOk result (λ import. IsPrepared base.files base.passed repo import.changes import.text) }
{
    let known = known_base(alloc, repo);
    let count = base.files.len();
    let passed = base.passed;
    let changes = changes_of(alloc, known.files.as_slice(), base.files)?;
    let revision = revision_with(known.revision, &changes);
    let text = import_text(alloc, count, revision, passed)?;
    Ok(Import {
        changes,
        text: List::new(text),
    })
}

// The files of the folder, or why there are none.
fn folder_base<O: Folder>(
    alloc: Global,
    folder: &mut O,
    name: &Text,
) -> Result<FolderBase, CommandError>
    ensures base { IfOk result (λ base. IsFolderBase O.tells (O.files folder.old) name.now base.files base.passed) }
    ensures order { IfOk result (λ base. AreInOrder (λ f. f.path) base.files) }
    ensures refused { IfErr result (IsReadRefusal O.tells (O.files folder.old) name.now) }
    ensures same { O.tells → (O.files folder.new ≡ O.files folder.old) }
    ensures cause { FaultsBy (O.faults folder.old) (O.faults folder.new) result folder_fault }
{
    match read_base(alloc, folder, name.as_str()) {
        Ok(base) => Ok(base),
        Err(BaseError::FolderFault) => Err(CommandError::FolderFault),
        Err(BaseError::Limit { which, number }) => Err(CommandError::Limit { which, number }),
        Err(BaseError::UnknownRepo) => Err(CommandError::UnknownRepo),
        Err(BaseError::Memory) => Err(CommandError::Memory),
    }
}

// The import of these files into the repository of a name.
fn import_of<F: Forge>(
    alloc: Global,
    forge: &F,
    name: &Text,
    base: FolderBase,
) -> Result<Import, AllocError>
    requires holds { F.holds forge.now }
    requires order { AreInOrder (λ f. f.path) base.files }
    ensures { IfOk result (λ import. IsPrepared base.files base.passed (repo_after name.now (F.writes forge.now)) import.changes import.text) }
{
    let repo = forge.repo(alloc, name)?;
    import_into(alloc, repo, base)
}

// What is to be done for an import, which is found out before anything is written.
fn read_import<F: Forge, O: Folder>(
    alloc: Global,
    forge: &F,
    folder: &mut O,
    name: &Text,
) -> Result<Import, CommandError>
    requires holds { F.holds forge.now }
    ensures ready { IfOk result (λ import. IsReady O.tells (O.files folder.old) name.now (F.writes forge.now) import.changes import.text) }
    ensures refused { IfErr result (IsReadRefusal O.tells (O.files folder.old) name.now) }
    ensures same { O.tells → (O.files folder.new ≡ O.files folder.old) }
    ensures cause { FaultsBy (O.faults folder.old) (O.faults folder.new) result folder_fault }
{
    match folder_base(alloc, folder, name) {
        Ok(base) => match import_of(alloc, forge, name, base) {
            Ok(import) => Ok(import),
            Err(_) => Err(CommandError::Memory),
        },
        Err(error) => Err(error),
    }
}

// The list of the one write of an import.
fn one_write(
    alloc: Global,
    name: &Text,
    changes: List<FileChange>,
) -> Result<List<Write>, AllocError>
    ensures { IfOk result (λ list. list ≡ SetBase name.now changes ∷ []) }
{
    let mut list = List::empty(alloc);
    list.push(Write::SetBase {
        repo: name.share(alloc)?,
        changes,
    })?;
    Ok(list)
}

// The refusal of a journal without room.
fn no_room(alloc: Global, limit: u64) -> CommandError
    ensures { IsNoRoom limit result }
{
    match Text::copied(alloc, "journal") {
        Ok(which) => CommandError::Limit {
            which,
            number: limit,
        },
        Err(_) => CommandError::Memory,
    }
}

// Prepares the write of an import.
fn prepare_base<F: Forge>(
    alloc: Global,
    forge: &mut F,
    name: &Text,
    changes: List<FileChange>,
) -> Result<(), CommandError>
    requires holds { F.holds forge.old }
    requires opened { F.closed forge.old ≡ false }
    requires name { IsRepositoryName name.now }
    requires order { AreInOrder (λ c. c.path) changes }
    requires permitted { IsPermitted (SetBase name.now changes) (after (F.writes forge.old) []) }
    ensures holds { F.holds forge.new }
    ensures any_moment { LeavesWrites (F.limit forge.old) (F.past forge.old) (F.past forge.new) (λ ws. ws ≡ F.writes forge.old) }
    ensures past { IsSamePast (F.past forge.old) (F.past forge.new) }
    ensures ok { OnOk result (F.prepared forge.new ≡ SetBase name.now changes ∷ []) }
    ensures within { OnOk result (length_of (F.writes forge.old ++ SetBase name.now changes ∷ []) ≤ F.limit forge.old) }
    ensures writes { F.writes forge.new ≡ F.writes forge.old }
    ensures opened { F.closed forge.new ≡ false }
    ensures limit { F.limit forge.new ≡ F.limit forge.old }
    ensures faults { F.faults forge.new ≡ F.faults forge.old }
    ensures refused { IfErr result (IsWriteRefusal (F.limit forge.old) (F.writes forge.old ++ SetBase name.now changes ∷ [])) }
    ensures never { ¬ IsErrOf result disk_fault }
{
    let list = one_write(alloc, name, changes)?;
    match forge.prepare(alloc, list) {
        Ok(()) => Ok(()),
        Err(ForgePrepareError::Full { length: _, limit }) => Err(no_room(alloc, limit)),
        Err(ForgePrepareError::Memory) => Err(CommandError::Memory),
        Err(ForgePrepareError::Closed) => unreachable!(),
        Err(ForgePrepareError::Refused { index: _, cause: _ }) => unreachable!(),
    }
}

// Does the write of an import.
fn write_base<F: Forge>(
    alloc: Global,
    forge: &mut F,
    name: &Text,
    changes: List<FileChange>,
) -> Result<(), CommandError>
    requires holds { F.holds forge.old }
    requires opened { F.closed forge.old ≡ false }
    requires name { IsRepositoryName name.now }
    requires order { AreInOrder (λ c. c.path) changes }
    requires permitted { IsPermitted (SetBase name.now changes) (after (F.writes forge.old) []) }
    ensures holds { F.holds forge.new }
    ensures any_moment { LeavesWrites (F.limit forge.old) (F.past forge.old) (F.past forge.new) (IsOldOrNext (F.writes forge.old) (SetBase name.now changes ∷ [])) }
    ensures unwritten { IfErr result (λ error. error ≢ disk_fault → LeavesWrites (F.limit forge.old) (F.past forge.old) (F.past forge.new) (λ ws. ws ≡ F.writes forge.old)) }
    ensures other { KeepsOne (F.past forge.old) (F.past forge.new) }
    ensures ok { OnOk result (F.writes forge.new ≡ F.writes forge.old ++ SetBase name.now changes ∷ []) }
    ensures room { OnOk result (length_of (F.writes forge.old ++ SetBase name.now changes ∷ []) ≤ F.limit forge.old) }
    ensures opened { OnOk result (F.closed forge.new ≡ false) }
    ensures limit { F.limit forge.new ≡ F.limit forge.old }
    ensures refused { IfErr result (IsWriteRefusal (F.limit forge.old) (F.writes forge.old ++ SetBase name.now changes ∷ [])) }
    ensures cause { FaultsBy (F.faults forge.old) (F.faults forge.new) result disk_fault }
{
    match prepare_base(alloc, forge, name, changes) {
        Ok(()) => match forge.write_next() {
            Ok(()) => Ok(()),
            Err(WriteError::DiskFault) => Err(CommandError::DiskFault),
            Err(WriteError::Closed) => unreachable!(),
        },
        Err(error) => Err(error),
    }
}

/// Makes the base of a repository the files that the folder has for it, and gives the text
/// `imported N files, revision R` and `passed over P`. One write is done, or none where nothing
/// differs. `FolderFault` only where the folder's count of faults rose; `Limit` where the folder has
/// more than a base may have; `UnknownRepo` where it has none; `Limit` of `journal` exactly where the
/// one write, of the changes by which the files differ from the base, has no room; `DiskFault` only where the disk's count rose; `Memory`. No refusal but that of the
/// disk has written anything.
pub fn import_base<F: Forge, O: Folder>(
    alloc: Global,
    forge: &mut F,
    folder: &mut O,
    name: &Text,
) -> Result<List<u8>, CommandError>
    requires holds { F.holds forge.old }
    requires opened { F.closed forge.old ≡ false }
    requires name { IsRepositoryName name.now }
    ensures holds { F.holds forge.new }
    // A stop at any moment leaves the writes from before, or those and the one next write.
    ensures any_moment { LeavesWrites (F.limit forge.old) (F.past forge.old) (F.past forge.new) (IsOldOrImport O.tells (O.files folder.old) name.now (F.writes forge.old)) }
    ensures unwritten { IfErr result (λ error. error ≢ disk_fault → LeavesWrites (F.limit forge.old) (F.past forge.old) (F.past forge.new) (λ ws. ws ≡ F.writes forge.old)) }
    ensures other { KeepsOne (F.past forge.old) (F.past forge.new) }
    ensures done { IfOk result (PrintsImport O.tells (O.files folder.old) name.now (F.writes forge.old) (F.writes forge.new)) }
    ensures room { OnOk result (length_of (F.writes forge.new) ≤ F.limit forge.old) }
    ensures at_rest { OnOk result (IsAtRest (F.limit forge.old) (F.past forge.new) (map spelling (F.writes forge.new))) }
    ensures limit { F.limit forge.new ≡ F.limit forge.old }
    ensures refused { IfErr result (IsImportRefusal O.tells (O.files folder.old) name.now (F.limit forge.old) (F.writes forge.old)) }
    ensures same { O.tells → (O.files folder.new ≡ O.files folder.old) }
    ensures folder_cause { FaultsBy (O.faults folder.old) (O.faults folder.new) result folder_fault }
    ensures disk_cause { FaultsBy (F.faults forge.old) (F.faults forge.new) result disk_fault }
{
    match read_import(alloc, forge, folder, name) {
        Ok(Import { changes, text }) => {
            if changes.is_empty() {
                return Ok(text);
            }
            match write_base(alloc, forge, name, changes) {
                Ok(()) => Ok(text),
                Err(error) => Err(error),
            }
        }
        Err(error) => Err(error),
    }
}
