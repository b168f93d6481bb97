ghost use Rattle.std.specs.Prelude.{◌≡◌, ◌↔◌, ◌⊎◌, ◌≤◌, ℕ, List as Items, Result, IfOk, IfErr, IfSome};
ghost use Rattle.rnv_base.specs.Causes.{Rose, FaultsBy};
ghost use Rattle.rnv_base.specs.Files.{NamedFile};
ghost use Rattle.rnv_base.specs.Limits.{store_bytes};
ghost use Rattle.rnv_app.specs.Refusals.{line_of, status_of, IsCause, IsCauseOr, IsLine, IsStatus, IsTold};
ghost use Rattle.rnv_app.specs.Top.{refusing, HasNoImport, HasNoPlan, HasPlan, IsAnswered, IsDamagedOr, IsForImport, IsForRun, IsForShow, IsFree, IsFreeImport, IsFreeRun, IsFreeShow, IsImportCauseOr, IsImportEnd, IsLeftAlone, IsNamed, IsOfPlan, IsPrinted, IsPrintedInPart, IsRefusedWith, IsRunCauseOr, IsRunEnd, IsShowEnd, IsUnknownOr, LeavesNoStore, Tells, running};
ghost use Rattle.rnv_app.specs.Words.{IsImport, IsOfStore, IsPlan, IsRun, IsShow, IsUsage};
ghost use Rattle.rnv_app.specs.declared.refusal.Refusal.{Refusal as Cause};
ghost use Rattle.rnv_app.specs.declared.refusal.Refusal.TheVariants.{DiskFault as disk_fault, FolderFault as folder_fault, Memory as no_memory};
ghost use Rattle.rnv_commands.specs.declared.error.CommandError.{CommandError as StoreError};
ghost use Rattle.rnv_commands.specs.OnDisk.{IsDamaged, IsUnknownIn};
ghost use Rattle.rnv_journal.specs.Readings.{KeepsOne};
ghost use Rattle.rnv_plan.specs.declared.error.RunError.{RunError as Error};
ghost use Rattle.rnv_plan.specs.Plan.{IsPlanned, IsPlanRefusal};
ghost use Rattle.rnv_run.specs.OnDisk.{IsRefusedIn};

use crate::plan_text::plan_text;
use crate::refusal::{plan_refusal_of, refusal_of, run_refusal_of};
use crate::report::tell;
use crate::{Refusal, Words, WordsError};
use rnv_base::{Folder, List, Sink, Text};
use rnv_commands::{Answer, CommandError, import_on, show_on};
use rnv_disk::Disk;
use rnv_plan::{Group, plan_folder};
use rnv_run::{RunAnswer, RunRefusal, run_on};
use std::alloc::Global;
use std::convert::AsStr;

/// The objects of the outside: where the output goes, the operator's folder, and the disk of the store.
#[derive(Drop)]
pub struct Outside<K: Sink, O: Folder, D: Disk> {
    pub out: K,
    pub folder: O,
    pub disk: D,
}

/// The status of the program: 0 all done and printed, 1 out of memory, 2 usage, 3 unknown repository,
/// 5 folder fault, 7 disk fault, 8 not a journal, 10 write fault, 11 above a limit, 13 an index document
/// outside its grammar, 15 not built yet.
#[derive(Clone, Copy, Debug, PartialEq, Eq)]
pub struct Status {
    pub code: u8,
}

/// The end of the program, with the objects of the outside as it left them.
#[derive(Drop)]
pub struct Ended<K: Sink, O: Folder, D: Disk> {
    pub status: Status,
    pub outside: Outside<K, O, D>,
}

/// Does what the words ask for.
///
/// `plan REPO --now T` prints the plan of a repository of the operator's folder, a line `now T`, for
/// each update in item order `PATH PACKAGE OLD -> NEW (KIND) BRANCH`, and `N updates, M branches`; it
/// does not touch the disk. `import REPO` makes the base of a repository of the store its checked-out
/// files, by one write or none, and prints `imported N files, revision R` and `passed over P`.
/// `run REPO --now T` makes the branches and requests of a repository of the store what the rules give
/// for its base, each change by a write of its own, and prints the moment, a line for each write, and
/// how many there were; a run that was stopped and is given again does the rest.
/// `show REPO` prints a repository of the store: its line, one for each branch and each request, and
/// its page. A refusal other than of the output prints a line `error CODE: TEXT` as far as the output
/// takes it. The objects of the outside come back in every case.
pub fn renovate<K: Sink, O: Folder, D: Disk>(
    alloc: Global,
    words: &List<Text>,
    outside: Outside<K, O, D>,
) -> Ended<K, O, D>
    ensures statuses { IsStatus result.status.code }
    ensures usage { (result.status.code ≡ 2) ↔ IsUsage words.now }
    ensures folder_fault { result.status.code ≡ 5 → Rose (O.faults outside.folder) (O.faults result.outside.folder) }
    ensures disk_fault { result.status.code ≡ 7 → Rose (D.faults outside.disk) (D.faults result.outside.disk) }
    ensures write_fault { result.status.code ≡ 10 → Rose (K.faults outside.out) (K.faults result.outside.out) }

    // The cause of a plan's 3, 11, 13 and 15 in the folder's files, and each such cause but for want of memory or a
    // fault.
    ensures causes { (repo : Items ℕ) (now : ℕ) → IsPlan words.now repo now → O.tells → IsCause result.status.code → IsRefusedWith words.now (O.files outside.folder) result.status.code }
    ensures exactly { O.tells → (error : Error) → HasNoPlan words.now (O.files outside.folder) error → IsCauseOr (status_of error) result.status.code }

    // What a plan without such a cause answers where nothing fails.
    ensures complete { O.tells → IsFree words.now (O.files outside.folder) → ¬ Rose (O.faults outside.folder) (O.faults result.outside.folder) → ¬ Rose (K.faults outside.out) (K.faults result.outside.out) → (result.status.code ≡ 0) ⊎ (result.status.code ≡ 1) }

    // What is written of a plan: the whole text, a front part of it, or the refusal's line, whole where the output
    // took it, and else a front part of it. The disk is not touched.
    ensures printed { (repo : Items ℕ) (now : ℕ) → IsPlan words.now repo now → O.tells → K.tells → result.status.code ≡ 0 → IsPrinted words.now (O.files outside.folder) (K.held outside.out) (K.held result.outside.out) }
    ensures in_part { (repo : Items ℕ) (now : ℕ) → IsPlan words.now repo now → O.tells → K.tells → result.status.code ≡ 10 → IsPrintedInPart words.now (O.files outside.folder) (K.held outside.out) (K.held result.outside.out) }
    ensures named { (repo : Items ℕ) (now : ℕ) → IsPlan words.now repo now → O.tells → K.tells → IsCause result.status.code → IsNamed words.now (O.files outside.folder) (K.held outside.out) (K.held result.outside.out) (K.faults outside.out) (K.faults result.outside.out) }
    ensures refused { K.tells → IfSome (line_of result.status.code) (IsLine (K.held outside.out) (K.held result.outside.out) (K.faults outside.out) (K.faults result.outside.out)) }
    ensures plan_alone { (repo : Items ℕ) (now : ℕ) → IsPlan words.now repo now → result.outside.disk ≡ outside.disk }

    // What an import makes of the store, and what is written of it.
    ensures import { (repo : Items ℕ) → IsImport words.now repo → IsImportEnd (record { folder_tells = O.tells; files = O.files outside.folder; disk_tells = D.tells; seen = D.seen outside.disk; entry = D.past outside.disk; exit = D.past result.outside.disk; same_disk = result.outside.disk ≡ outside.disk })
        repo K.tells (K.held outside.out) (K.held result.outside.out) (K.faults outside.out) (K.faults result.outside.out) result.status.code }

    // What is shown of the store, and what is written of it.
    ensures show { (repo : Items ℕ) → IsShow words.now repo → IsShowEnd (record { folder_tells = O.tells; files = O.files outside.folder; disk_tells = D.tells; seen = D.seen outside.disk; entry = D.past outside.disk; exit = D.past result.outside.disk; same_disk = result.outside.disk ≡ outside.disk })
        repo K.tells (K.held outside.out) (K.held result.outside.out) (K.faults outside.out) (K.faults result.outside.out) result.status.code }

    // What a run makes of the store, also from where an earlier run was stopped, and what is written of it.
    ensures run { (repo : Items ℕ) (now : ℕ) → IsRun words.now repo now → IsRunEnd (record { folder_tells = O.tells; files = O.files outside.folder; disk_tells = D.tells; seen = D.seen outside.disk; entry = D.past outside.disk; exit = D.past result.outside.disk; same_disk = result.outside.disk ≡ outside.disk })
        repo now K.tells (K.held outside.out) (K.held result.outside.out) (K.faults outside.out) (K.faults result.outside.out) result.status.code }

    // File `One` of the disk is left alone, and so is what is no store, and the whole disk by words that ask for nothing.
    ensures other { KeepsOne (D.past outside.disk) (D.past result.outside.disk) }
    ensures left { D.tells → result.status.code ≡ 8 → IsLeftAlone store_bytes (D.seen outside.disk) (D.seen result.outside.disk) (D.past outside.disk) (D.past result.outside.disk) }
    ensures usage_alone { result.status.code ≡ 2 → result.outside.disk ≡ outside.disk }

    // What a command over the store answers where it has no cause of a refusal and nothing fails.
    ensures import_complete { (repo : Items ℕ) → IsImport words.now repo → O.tells → D.tells → IsFreeImport (O.files outside.folder) repo (D.seen outside.disk) → ¬ Rose (O.faults outside.folder) (O.faults result.outside.folder) → ¬ Rose (D.faults outside.disk) (D.faults result.outside.disk) → ¬ Rose (K.faults outside.out) (K.faults result.outside.out) → (result.status.code ≡ 0) ⊎ (result.status.code ≡ 1) }
    ensures show_complete { (repo : Items ℕ) → IsShow words.now repo → D.tells → IsFreeShow repo (D.seen outside.disk) → ¬ Rose (D.faults outside.disk) (D.faults result.outside.disk) → ¬ Rose (K.faults outside.out) (K.faults result.outside.out) → (result.status.code ≡ 0) ⊎ (result.status.code ≡ 1) }
    ensures run_complete { (repo : Items ℕ) (now : ℕ) → IsRun words.now repo now → O.tells → D.tells → IsFreeRun (O.files outside.folder) repo now (D.seen outside.disk) → ¬ Rose (O.faults outside.folder) (O.faults result.outside.folder) → ¬ Rose (D.faults outside.disk) (D.faults result.outside.disk) → ¬ Rose (K.faults outside.out) (K.faults result.outside.out) → (result.status.code ≡ 0) ⊎ (result.status.code ≡ 1) }

    // Each cause of its refusal, but for want of memory or a fault before it. First that the bytes are no store; then, but for an import,
    // that the store lacks the repository; then of an import and of a run the others. So a fault of the folder comes only where the bytes
    // are a store, and in a run where it has the repository.
    ensures damaged { (repo : Items ℕ) → IsOfStore words.now repo → D.tells → (offset : ℕ) → IsDamaged store_bytes (D.seen outside.disk) offset → IsDamagedOr result.status.code }
    ensures import_exactly { (repo : Items ℕ) → IsImport words.now repo → O.tells → D.tells → (error : StoreError) → HasNoImport (O.files outside.folder) repo (D.seen outside.disk) error → IsImportCauseOr error result.status.code }
    ensures show_exactly { (repo : Items ℕ) → IsShow words.now repo → D.tells → IsUnknownIn repo store_bytes (D.seen outside.disk) → IsUnknownOr result.status.code }
    ensures run_unknown { (repo : Items ℕ) (now : ℕ) → IsRun words.now repo now → D.tells → IsUnknownIn repo store_bytes (D.seen outside.disk) → IsUnknownOr result.status.code }
    ensures run_exactly { (repo : Items ℕ) (now : ℕ) → IsRun words.now repo now → O.tells → D.tells → (error : Error) → IsRefusedIn (O.files outside.folder) repo now store_bytes (D.seen outside.disk) error → IsRunCauseOr repo (D.seen outside.disk) error result.status.code }

    ensures same { O.tells → (O.files result.outside.folder ≡ O.files outside.folder) }
    ensures folder_later { O.faults outside.folder ≤ O.faults result.outside.folder }
    ensures disk_later { D.faults outside.disk ≤ D.faults result.outside.disk }
    ensures out_later { K.faults outside.out ≤ K.faults result.outside.out }
{
    let Outside {
        mut out,
        mut folder,
        disk,
    } = outside;
    let Answered { text, disk } = answer_to(alloc, words, &mut folder, disk);
    let code = tell(&mut out, &text);
    Ended {
        status: Status { code },
        outside: Outside { out, folder, disk },
    }
}

// The text that the words ask for, or why there is none, and the disk as that left it.
#[derive(Drop)]
struct Answered<D: Disk> {
    text: Result<List<u8>, Refusal>,
    disk: D,
}

// Does what the words ask for, but for printing.
fn answer_to<O: Folder, D: Disk>(
    alloc: Global,
    words: &List<Text>,
    folder: &mut O,
    disk: D,
) -> Answered<D>
    ensures answered { IsAnswered (record { folder_tells = O.tells; files = O.files folder.old; disk_tells = D.tells; seen = D.seen disk; entry = D.past disk; exit = D.past result.disk; same_disk = result.disk ≡ disk }) words.now result.text }
    ensures other { KeepsOne (D.past disk) (D.past result.disk) }
    ensures left { D.tells → IfErr result.text (LeavesNoStore store_bytes (D.seen disk) (D.seen result.disk) (D.past disk) (D.past result.disk)) }
    ensures same { O.tells → (O.files folder.new ≡ O.files folder.old) }
    ensures folder_cause { FaultsBy (O.faults folder.old) (O.faults folder.new) result.text folder_fault }
    ensures disk_cause { FaultsBy (D.faults disk) (D.faults result.disk) result.text disk_fault }
{
    match Words::read(alloc, words) {
        Ok(Words::Plan { repo, now }) => Answered {
            text: plan_for(alloc, words, folder, repo.as_str(), now),
            disk,
        },
        Ok(Words::Import { repo }) => import_for(alloc, words, folder, disk, &repo),
        Ok(Words::Run { repo, now }) => run_for(alloc, words, folder, disk, &repo, now),
        Ok(Words::Show { repo }) => show_for(alloc, words, folder, disk, &repo),
        Err(error) => Answered {
            text: Err(not_read(error)),
            disk,
        },
    }
}

// The refusal of words that ask for nothing.
fn not_read(error: WordsError) -> Refusal
    ensures usage { error ≡ WordsError.Usage → result ≡ Refusal.Usage }
    ensures memory { error ≡ WordsError.Memory → result ≡ Refusal.Memory }
{
    match error {
        WordsError::Usage => Refusal::Usage,
        WordsError::Memory => Refusal::Memory,
    }
}

fn refusing(text: Result<List<u8>, CommandError>) -> Result<List<u8>, Refusal>
    ensures { result ≡ refusing text }
{
    match text {
        Ok(text) => Ok(text),
        Err(error) => Err(refusal_of(error)),
    }
}

// Does the import that the words ask for.
fn import_for<O: Folder, D: Disk>(
    alloc: Global,
    words: &List<Text>,
    folder: &mut O,
    disk: D,
    repo: &Text,
) -> Answered<D>
    requires { IsImport words.now repo.now }
    ensures answered { IsForImport (record { folder_tells = O.tells; files = O.files folder.old; disk_tells = D.tells; seen = D.seen disk; entry = D.past disk; exit = D.past result.disk; same_disk = result.disk ≡ disk }) words.now result.text }
    ensures other { KeepsOne (D.past disk) (D.past result.disk) }
    ensures left { D.tells → IfErr result.text (LeavesNoStore store_bytes (D.seen disk) (D.seen result.disk) (D.past disk) (D.past result.disk)) }
    ensures same { O.tells → (O.files folder.new ≡ O.files folder.old) }
    ensures folder_cause { FaultsBy (O.faults folder.old) (O.faults folder.new) result.text folder_fault }
    ensures disk_cause { FaultsBy (D.faults disk) (D.faults result.disk) result.text disk_fault }
{
    let _ = words;
    let Answer { text, disk } = import_on(alloc, disk, folder, repo);
    Answered {
        text: refusing(text),
        disk,
    }
}

fn running(text: Result<List<u8>, RunRefusal>) -> Result<List<u8>, Refusal>
    ensures { result ≡ running text }
{
    match text {
        Ok(text) => Ok(text),
        Err(refusal) => Err(run_refusal_of(refusal)),
    }
}

// Does the run that the words ask for.
fn run_for<O: Folder, D: Disk>(
    alloc: Global,
    words: &List<Text>,
    folder: &mut O,
    disk: D,
    repo: &Text,
    now: u64,
) -> Answered<D>
    requires { IsRun words.now repo.now now }
    ensures answered { IsForRun (record { folder_tells = O.tells; files = O.files folder.old; disk_tells = D.tells; seen = D.seen disk; entry = D.past disk; exit = D.past result.disk; same_disk = result.disk ≡ disk }) words.now result.text }
    ensures other { KeepsOne (D.past disk) (D.past result.disk) }
    ensures left { D.tells → IfErr result.text (LeavesNoStore store_bytes (D.seen disk) (D.seen result.disk) (D.past disk) (D.past result.disk)) }
    ensures same { O.tells → (O.files folder.new ≡ O.files folder.old) }
    ensures folder_cause { FaultsBy (O.faults folder.old) (O.faults folder.new) result.text folder_fault }
    ensures disk_cause { FaultsBy (D.faults disk) (D.faults result.disk) result.text disk_fault }
{
    let _ = words;
    let RunAnswer { text, disk } = run_on(alloc, disk, folder, repo, now);
    Answered {
        text: running(text),
        disk,
    }
}

// Shows the repository that the words ask for. The folder is not looked at.
fn show_for<O: Folder, D: Disk>(
    alloc: Global,
    words: &List<Text>,
    folder: &mut O,
    disk: D,
    repo: &Text,
) -> Answered<D>
    requires { IsShow words.now repo.now }
    ensures answered { IsForShow (record { folder_tells = O.tells; files = O.files folder.old; disk_tells = D.tells; seen = D.seen disk; entry = D.past disk; exit = D.past result.disk; same_disk = result.disk ≡ disk }) words.now result.text }
    ensures other { KeepsOne (D.past disk) (D.past result.disk) }
    ensures left { D.tells → IfErr result.text (LeavesNoStore store_bytes (D.seen disk) (D.seen result.disk) (D.past disk) (D.past result.disk)) }
    ensures same { folder.new ≡ folder.old }
    ensures folder_cause { FaultsBy (O.faults folder.old) (O.faults folder.new) result.text folder_fault }
    ensures disk_cause { FaultsBy (D.faults disk) (D.faults result.disk) result.text disk_fault }
{
    let _ = words;
    let _ = folder;
    let Answer { text, disk } = show_on(alloc, disk, repo);
    Answered {
        text: refusing(text),
        disk,
    }
}

// The text of this plan, which the words ask for.
fn plan_for<O: Folder>(
    alloc: Global,
    words: &List<Text>,
    folder: &mut O,
    repo: &str,
    now: u64,
) -> Result<List<u8>, Refusal>
    requires { IsPlan words.now repo.now now }
    ensures asked { IsPlan words.now repo.now now }
    ensures plain { IfErr result IsOfPlan }
    ensures told { O.tells → Tells words.now (O.files folder.old) result }
    ensures same { O.tells → (O.files folder.new ≡ O.files folder.old) }
    ensures cause { FaultsBy (O.faults folder.old) (O.faults folder.new) result folder_fault }
{
    match plan_folder(alloc, folder, repo, now) {
        Ok(items) => text_for(alloc, words, repo, now, &items),
        Err(error) => Err(plan_refusal_of(error)),
    }
}

// The text of this plan with these items.
fn text_for(
    alloc: Global,
    words: &List<Text>,
    repo: &str,
    now: u64,
    items: &List<Group>,
) -> Result<List<u8>, Refusal>
    requires { IsPlan words.now repo.now now }
    ensures plan { (files : Items NamedFile) → IsPlanned repo.now now files items.now → ((error : Error) → ¬ IsPlanRefusal repo.now now files error) → IfOk result (HasPlan words.now files) }
    ensures memory { IfErr result (λ refusal. refusal ≡ no_memory) }
{
    let _ = words;
    let _ = repo;
    match plan_text(alloc, now, items) {
        Ok(text) => Ok(List::new(text)),
        Err(_) => Err(Refusal::Memory),
    }
}
