ghost use Rattle.std.specs.Prelude.{◌≡◌};
ghost use Rattle.rnv_options.specs.Table.{is_read_in_rules, kind_of, name_of, opt_named, row_of, values_in_rules};

use crate::{Kind, ReadAt, Texts, Values};

/// An option of a configuration, in the order of names.
#[derive(Clone, Copy, Debug, PartialEq, Eq)]
pub enum Opt {
    AddLabels,
    AllowedVersions,
    BranchConcurrentLimit,
    BranchPrefix,
    CustomManagers,
    DependencyDashboard,
    DependencyDashboardApproval,
    Enabled,
    EnabledManagers,
    GroupName,
    GroupSlug,
    IgnoreDeps,
    IgnorePaths,
    Labels,
    MinimumReleaseAge,
    PackageRules,
    PostUpgradeTasks,
    PrConcurrentLimit,
    PrHourlyLimit,
    PrPriority,
    RangeStrategy,
    RebaseWhen,
    Schedule,
    SeparateMajorMinor,
    SeparateMinorPatch,
    Timezone,
    UpdateNotScheduled,
}

/// All options, in the order of their names.
pub const ALL: [Opt; 27] = [
    Opt::AddLabels,
    Opt::AllowedVersions,
    Opt::BranchConcurrentLimit,
    Opt::BranchPrefix,
    Opt::CustomManagers,
    Opt::DependencyDashboard,
    Opt::DependencyDashboardApproval,
    Opt::Enabled,
    Opt::EnabledManagers,
    Opt::GroupName,
    Opt::GroupSlug,
    Opt::IgnoreDeps,
    Opt::IgnorePaths,
    Opt::Labels,
    Opt::MinimumReleaseAge,
    Opt::PackageRules,
    Opt::PostUpgradeTasks,
    Opt::PrConcurrentLimit,
    Opt::PrHourlyLimit,
    Opt::PrPriority,
    Opt::RangeStrategy,
    Opt::RebaseWhen,
    Opt::Schedule,
    Opt::SeparateMajorMinor,
    Opt::SeparateMinorPatch,
    Opt::Timezone,
    Opt::UpdateNotScheduled,
];

// A row of the table of options.
#[derive(Clone, Copy)]
struct Row {
    name: &'static str,
    kind: Kind,
    read_at: ReadAt,
}

impl Opt {
    // Its row.
    fn row(self) -> Row
        ensures name { result.name.now ≡ (row_of self).name }
        ensures kind { result.kind ≡ (row_of self).kind }
        ensures read_at { result.read_at ≡ (row_of self).read_at }
    {
        match self {
            Opt::AddLabels => cells(
                "addLabels",
                Kind::Plain(Values::Words {
                    of: Texts::Any,
                    joined: true,
                }),
                ReadAt::Update,
            ),
            Opt::AllowedVersions => cells(
                "allowedVersions",
                Kind::Plain(Values::Allowed),
                ReadAt::Dependency,
            ),
            Opt::BranchConcurrentLimit => cells(
                "branchConcurrentLimit",
                Kind::Plain(Values::Number {
                    least: 0,
                    greatest: 1_000_000,
                }),
                ReadAt::Repository,
            ),
            Opt::BranchPrefix => cells(
                "branchPrefix",
                Kind::Plain(Values::Word(Texts::Prefixes)),
                ReadAt::Update,
            ),
            Opt::CustomManagers => cells("customManagers", Kind::Customs, ReadAt::Repository),
            Opt::DependencyDashboard => cells(
                "dependencyDashboard",
                Kind::Plain(Values::Flag),
                ReadAt::Repository,
            ),
            Opt::DependencyDashboardApproval => cells(
                "dependencyDashboardApproval",
                Kind::Plain(Values::Flag),
                ReadAt::Update,
            ),
            Opt::Enabled => cells(
                "enabled",
                Kind::Plain(Values::Flag),
                ReadAt::DependencyAndUpdate,
            ),
            Opt::EnabledManagers => cells(
                "enabledManagers",
                Kind::Plain(Values::Words {
                    of: Texts::Any,
                    joined: false,
                }),
                ReadAt::Repository,
            ),
            Opt::GroupName => cells(
                "groupName",
                Kind::Plain(Values::Word(Texts::Any)),
                ReadAt::Update,
            ),
            Opt::GroupSlug => cells(
                "groupSlug",
                Kind::Plain(Values::Word(Texts::Any)),
                ReadAt::Update,
            ),
            Opt::IgnoreDeps => cells(
                "ignoreDeps",
                Kind::Plain(Values::Words {
                    of: Texts::Any,
                    joined: true,
                }),
                ReadAt::Repository,
            ),
            Opt::IgnorePaths => cells(
                "ignorePaths",
                Kind::Plain(Values::Patterns),
                ReadAt::Repository,
            ),
            Opt::Labels => cells(
                "labels",
                Kind::Plain(Values::Words {
                    of: Texts::Any,
                    joined: false,
                }),
                ReadAt::Update,
            ),
            Opt::MinimumReleaseAge => cells(
                "minimumReleaseAge",
                Kind::Plain(Values::Word(Texts::Ages)),
                ReadAt::Update,
            ),
            Opt::PackageRules => cells("packageRules", Kind::Rules, ReadAt::Repository),
            Opt::PostUpgradeTasks => cells(
                "postUpgradeTasks",
                Kind::Plain(Values::Tasks),
                ReadAt::Update,
            ),
            Opt::PrConcurrentLimit => cells(
                "prConcurrentLimit",
                Kind::Plain(Values::Number {
                    least: 0,
                    greatest: 1_000_000,
                }),
                ReadAt::Repository,
            ),
            Opt::PrHourlyLimit => cells(
                "prHourlyLimit",
                Kind::Plain(Values::Number {
                    least: 0,
                    greatest: 1_000_000,
                }),
                ReadAt::Repository,
            ),
            Opt::PrPriority => cells(
                "prPriority",
                Kind::Plain(Values::Number {
                    least: -1_000_000,
                    greatest: 1_000_000,
                }),
                ReadAt::Update,
            ),
            Opt::RangeStrategy => cells(
                "rangeStrategy",
                Kind::Plain(Values::Word(Texts::Strategies)),
                ReadAt::Dependency,
            ),
            Opt::RebaseWhen => cells(
                "rebaseWhen",
                Kind::Plain(Values::Word(Texts::Rebases)),
                ReadAt::Update,
            ),
            Opt::Schedule => cells(
                "schedule",
                Kind::Plain(Values::Words {
                    of: Texts::Schedules,
                    joined: false,
                }),
                ReadAt::Update,
            ),
            Opt::SeparateMajorMinor => cells(
                "separateMajorMinor",
                Kind::Plain(Values::Flag),
                ReadAt::Dependency,
            ),
            Opt::SeparateMinorPatch => cells(
                "separateMinorPatch",
                Kind::Plain(Values::Flag),
                ReadAt::Dependency,
            ),
            Opt::Timezone => cells(
                "timezone",
                Kind::Plain(Values::Word(Texts::Any)),
                ReadAt::Update,
            ),
            Opt::UpdateNotScheduled => cells(
                "updateNotScheduled",
                Kind::Plain(Values::Flag),
                ReadAt::Update,
            ),
        }
    }

    /// Its name.
    pub fn name(self) -> &'static str
        ensures { result.now ≡ name_of self }
    {
        self.row().name
    }

    /// Which values it takes.
    pub fn kind(self) -> Kind
        ensures { result ≡ kind_of self }
    {
        self.row().kind
    }

    /// Where it is read.
    pub fn read_at(self) -> ReadAt
        ensures { result ≡ (row_of self).read_at }
    {
        self.row().read_at
    }

    /// Whether a rule may set it. What is read of the repository alone is not read in a rule.
    pub fn is_read_in_rules(self) -> bool
        ensures { result ≡ is_read_in_rules self }
    {
        match self.read_at() {
            ReadAt::Repository => false,
            ReadAt::Dependency | ReadAt::Update | ReadAt::DependencyAndUpdate => true,
        }
    }

    /// The values that a rule may set it to. None where it is not read in a rule.
    pub fn values_in_rules(self) -> Option<Values>
        ensures { result ≡ values_in_rules self }
    {
        if !self.is_read_in_rules() {
            return None;
        }
        match self.kind() {
            Kind::Plain(values) => Some(values),
            Kind::Rules | Kind::Customs => None,
        }
    }

    /// The option of this name.
    pub fn named(name: &str) -> Option<Opt>
        ensures { result ≡ opt_named name.now }
    {
        let mut left: &[Opt] = &ALL;
        while let [opt, rest @ ..] = left {
            if name == opt.name() {
                return Some(*opt);
            }
            left = rest;
        }
        None
    }
}

// A row of these cells.
fn cells(name: &'static str, kind: Kind, read_at: ReadAt) -> Row
    ensures name { result.name.now ≡ name.now }
    ensures kind { result.kind ≡ kind }
    ensures read_at { result.read_at ≡ read_at }
{
    Row {
        name,
        kind,
        read_at,
    }
}
