ghost use Rattle.std.specs.Prelude.{List, []};
ghost use Rattle.std.specs.List.{AllByRecursion};
ghost use Rattle.rnv_repo.specs.declared.repo.Repo.{Repo};
ghost use Rattle.rnv_repo.specs.declared.write.Write.{Write};
ghost use Rattle.rnv_repo.specs.Store.{ArePermitted, IsPermitted, IsSoundStore, after, applied};
ghost use Rattle.rnv_repo.specs.WellFormed.{IsOrderly};

/// A permitted write leaves a sound store sound, and so each store that permitted writes make of the
/// empty one is sound.
pub fn stays_sound()
    ensures one { (w : Write) (store : List Repo) → IsOrderly w → IsPermitted w store → IsSoundStore store → IsSoundStore (applied w store) }
    ensures all { (ws : List Write) → AllByRecursion IsOrderly ws → ArePermitted ws [] → IsSoundStore (after ws []) }
{}
