ghost use Rattle.std.specs.Prelude.{◌≡◌, IfOk};

use crate::Opt;
use rnv_base::{List, Share, SourceKind, Text};
use rnv_pattern::{Pattern, PatternList};
use std::alloc::{AllocError, Global};

/// Texts, and the patterns that they are.
#[derive(Drop)]
pub struct Patterns {
    pub texts: List<Text>,
    pub list: PatternList,
}

/// Which versions are allowed.
#[derive(Drop)]
pub enum Allowed {
    /// Those whose text the pattern matches.
    Patterns { text: Text, list: PatternList },
    /// Those in the range.
    Range { text: Text },
}

/// Tasks that are run on the files of a branch. A member that is not set is None.
#[derive(Drop)]
pub struct TaskOptions {
    pub commands: Option<List<Text>>,
    pub filters: Option<List<Text>>,
    /// The patterns of the filters, none where these are not set.
    pub list: PatternList,
}

/// The value of an option, as a rule may have it too.
#[derive(Drop)]
pub enum Plain {
    Flag(bool),
    Number(i64),
    Word(Text),
    /// What `null` sets.
    Nothing,
    Words(List<Text>),
    Patterns(Patterns),
    Allowed(Allowed),
    Tasks(TaskOptions),
}

/// An option that a rule sets, and its value.
#[derive(Drop)]
pub struct RuleSetting {
    pub opt: Opt,
    pub value: Plain,
}

/// A custom manager: the files that it takes, what it finds in them, and what stands for missing groups.
#[derive(Drop)]
pub struct Custom {
    pub files: List<Pattern>,
    pub strings: List<Pattern>,
    pub source: Option<SourceKind>,
    pub name: Option<Text>,
}

impl Share for Patterns {
    fn share(&self, alloc: Global) -> Result<Patterns, AllocError> {
        Ok(Patterns {
            texts: self.texts.share(alloc)?,
            list: self.list.share(alloc)?,
        })
    }
}

impl Share for Allowed {
    fn share(&self, alloc: Global) -> Result<Allowed, AllocError> {
        match self {
            Allowed::Patterns { text, list } => Ok(Allowed::Patterns {
                text: text.share(alloc)?,
                list: list.share(alloc)?,
            }),
            Allowed::Range { text } => Ok(Allowed::Range {
                text: text.share(alloc)?,
            }),
        }
    }
}

/// An equal copy of what may be there. Only memory can fail.
pub fn share_option<T: Share>(alloc: Global, value: &Option<T>) -> Result<Option<T>, AllocError>
    ensures { IfOk result (λ copy. copy ≡ value.now) }
{
    match value {
        Some(value) => Ok(Some(value.share(alloc)?)),
        None => Ok(None),
    }
}

impl Share for TaskOptions {
    fn share(&self, alloc: Global) -> Result<TaskOptions, AllocError> {
        Ok(TaskOptions {
            commands: share_option(alloc, &self.commands)?,
            filters: share_option(alloc, &self.filters)?,
            list: self.list.share(alloc)?,
        })
    }
}

impl Share for Plain {
    fn share(&self, alloc: Global) -> Result<Plain, AllocError> {
        match self {
            Plain::Flag(flag) => Ok(Plain::Flag(*flag)),
            Plain::Number(number) => Ok(Plain::Number(*number)),
            Plain::Word(text) => Ok(Plain::Word(text.share(alloc)?)),
            Plain::Nothing => Ok(Plain::Nothing),
            Plain::Words(texts) => Ok(Plain::Words(texts.share(alloc)?)),
            Plain::Patterns(patterns) => Ok(Plain::Patterns(patterns.share(alloc)?)),
            Plain::Allowed(allowed) => Ok(Plain::Allowed(allowed.share(alloc)?)),
            Plain::Tasks(tasks) => Ok(Plain::Tasks(tasks.share(alloc)?)),
        }
    }
}

impl Share for RuleSetting {
    fn share(&self, alloc: Global) -> Result<RuleSetting, AllocError> {
        Ok(RuleSetting {
            opt: self.opt,
            value: self.value.share(alloc)?,
        })
    }
}

impl Share for Custom {
    fn share(&self, alloc: Global) -> Result<Custom, AllocError> {
        Ok(Custom {
            files: self.files.share(alloc)?,
            strings: self.strings.share(alloc)?,
            source: self.source,
            name: share_option(alloc, &self.name)?,
        })
    }
}
