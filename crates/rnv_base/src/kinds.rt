ghost use Rattle.std.specs.Prelude.{◌≡◌};
ghost use Rattle.std.specs.Ordering.{nat_cmp};
ghost use Rattle.rnv_base.specs.Kinds.{rank};
ghost use Rattle.rnv_base.specs.declared.kinds.UpdateKind.{UpdateKind};

/// What reads the dependencies of a file.
#[derive(Clone, Copy, Debug, PartialEq, Eq)]
pub enum ManagerKind {
    Cargo,
    Npm,
    Dockerfile,
    Regex,
}

/// Where the releases of a package are listed.
#[derive(Clone, Copy, Debug, PartialEq, Eq)]
pub enum SourceKind {
    Crates,
    Npm,
    Docker,
}

/// How far an update goes, in rising order.
#[derive(Clone, Copy, Debug, PartialEq, Eq, PartialOrd, Ord)]
pub enum UpdateKind {
    Pin,
    Patch,
    Minor,
    Major,
}

/// How a range is rewritten to a new version.
#[derive(Clone, Copy, Debug, PartialEq, Eq)]
pub enum Strategy {
    Auto,
    Pin,
    Bump,
    Replace,
    Widen,
    InRangeOnly,
}

/// Does nothing: its promise is that kinds of updates compare by how far they go.
pub fn kinds_rise()
    ensures { (a b : UpdateKind) → ⟦<UpdateKind as Ord>⟧.cmp a b ≡ nat_cmp (rank a) (rank b) }
{}
