use crate::{Custom, Matcher, Opt, Plain, RuleSetting};
use rnv_base::{List, Share};
use std::alloc::{AllocError, Global};

/// A rule: what it matches, and the options that it sets there.
#[derive(Drop)]
pub struct Rule {
    pub matchers: List<Matcher>,
    pub sets: List<RuleSetting>,
}

/// The value of an option.
#[derive(Drop)]
pub enum OptValue {
    Plain(Plain),
    Rules(List<Rule>),
    Customs(List<Custom>),
}

/// An option that is set, and its value.
#[derive(Drop)]
pub struct Setting {
    pub opt: Opt,
    pub value: OptValue,
}

impl Share for Rule {
    fn share(&self, alloc: Global) -> Result<Rule, AllocError> {
        Ok(Rule {
            matchers: self.matchers.share(alloc)?,
            sets: self.sets.share(alloc)?,
        })
    }
}

impl Share for OptValue {
    fn share(&self, alloc: Global) -> Result<OptValue, AllocError> {
        match self {
            OptValue::Plain(value) => Ok(OptValue::Plain(value.share(alloc)?)),
            OptValue::Rules(rules) => Ok(OptValue::Rules(rules.share(alloc)?)),
            OptValue::Customs(customs) => Ok(OptValue::Customs(customs.share(alloc)?)),
        }
    }
}

impl Share for Setting {
    fn share(&self, alloc: Global) -> Result<Setting, AllocError> {
        Ok(Setting {
            opt: self.opt,
            value: self.value.share(alloc)?,
        })
    }
}
