ghost use Rattle.std.specs.Prelude.{ℕ, List};
ghost use Rattle.rnv_base.specs.Files.{NamedFile};
ghost use Rattle.rnv_base.specs.Limits.{store_bytes};
ghost use Rattle.rnv_repo.specs.declared.repo.Repo.{Repo};
ghost use Rattle.rnv_repo.specs.declared.write.Write.{Write};
ghost use Rattle.rnv_journal.specs.Readings.{HasReadingsNow};
ghost use Rattle.rnv_outcome.specs.Given.{Given};
ghost use Rattle.rnv_outcome.specs.Steps.{steps};
ghost use Rattle.rnv_run.specs.OnDisk.{IsBegun, ReadsFront};
ghost use Rattle.rnv_composition.specs.History.{AreRuns, Compose, ComposeFrom, call_of};

use rnv_base::{Folder, Sink};
use rnv_disk::Disk;

/// Does nothing: its promise is the law that runs which are stopped at any moment, or fail, and are
/// given again, however often, make together what one run makes. It stands on the clause `run` of the
/// top call alone: the calls are numbered from 0, each has its disk before and after, its output and
/// its status, and each finds on its disk what a stop of the one before left there. The runs may go on
/// with a first one that is known (`from_one`), or begin at any disk that has readings, also where an
/// import was stopped (`from_any`).
pub fn composition<K: Sink, O: Folder, D: Disk>()
    ensures from_one { (files : List NamedFile) (name : List ℕ) (moment : ℕ) (start : List Write) (first : Repo) (g : Given) (entry exit : ℕ → D) (before after : ℕ → List ℕ) (faults now codes : ℕ → ℕ) (n : ℕ)
        → IsBegun files name moment start first g
        → AreRuns files name moment (λ i. call_of O.tells files D.tells (D.past (entry i)) (D.past (exit i)) (D.seen (entry i)) K.tells (before i) (after i) (faults i) (now i) (codes i)) n
        → ReadsFront store_bytes (D.past (entry 0)) start (steps g first) 0
        → Compose files name moment start first g (λ i. call_of O.tells files D.tells (D.past (entry i)) (D.past (exit i)) (D.seen (entry i)) K.tells (before i) (after i) (faults i) (now i) (codes i)) n }
    ensures from_any { (files : List NamedFile) (name : List ℕ) (moment : ℕ) (entry exit : ℕ → D) (before after : ℕ → List ℕ) (faults now codes : ℕ → ℕ) (n : ℕ)
        → AreRuns files name moment (λ i. call_of O.tells files D.tells (D.past (entry i)) (D.past (exit i)) (D.seen (entry i)) K.tells (before i) (after i) (faults i) (now i) (codes i)) n
        → HasReadingsNow store_bytes (D.past (entry 0))
        → ComposeFrom files name moment (λ i. call_of O.tells files D.tells (D.past (entry i)) (D.past (exit i)) (D.seen (entry i)) K.tells (before i) (after i) (faults i) (now i) (codes i)) n }
{}
