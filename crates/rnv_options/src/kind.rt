/// Where an option is read.
#[derive(Clone, Copy, Debug, PartialEq, Eq)]
pub enum ReadAt {
    Repository,
    Dependency,
    Update,
    DependencyAndUpdate,
}

/// Which texts an option takes.
#[derive(Clone, Copy, Debug, PartialEq, Eq)]
pub enum Texts {
    /// All.
    Any,
    /// How ranges are rewritten.
    Strategies,
    /// When a branch is made anew.
    Rebases,
    /// The prefix of a branch's name.
    Prefixes,
    /// Ages, as `3 days`.
    Ages,
    /// Schedules.
    Schedules,
}

/// Which values an option takes, of those that a rule may have too.
#[derive(Clone, Copy, Debug, PartialEq, Eq)]
pub enum Values {
    /// True or false.
    Flag,
    /// A number from the least to the greatest.
    Number { least: i64, greatest: i64 },
    /// One of these texts.
    Word(Texts),
    /// A list of such texts, or one as a list of one. Joined lists are put together where
    /// configurations are merged.
    Words { of: Texts, joined: bool },
    /// Texts that are patterns.
    Patterns,
    /// A pattern where it begins with `/` or `!/`, else a range.
    Allowed,
    /// Post-upgrade tasks.
    Tasks,
}

/// What an option's value is.
#[derive(Clone, Copy, Debug, PartialEq, Eq)]
pub enum Kind {
    /// One of these values.
    Plain(Values),
    /// A list of rules.
    Rules,
    /// A list of custom managers.
    Customs,
}
