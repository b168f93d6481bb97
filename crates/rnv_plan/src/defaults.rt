ghost use Rattle.std.specs.Prelude.{◌≡◌, IfOk};
ghost use Rattle.rnv_plan.specs.Plain.{plain};

use rnv_base::{Strategy, UpdateKind};
use rnv_pick::{Dep, DepOptions, Rules, UpdateOptions};
use std::alloc::{AllocError, Global};

// What a repository without a configuration says: the defaults of all options.
pub(crate) struct Defaults;

impl Rules for Defaults {
    ghost options = { λ _. plain };

    fn is_ignored(&self, _dep: &Dep) -> bool {
        false
    }

    fn at_dep(&self, _alloc: Global, _dep: &Dep) -> Result<DepOptions, AllocError> {
        Ok(DepOptions {
            enabled: true,
            strategy: Strategy::Auto,
            allowed: None,
            split_major: true,
            split_patch: false,
        })
    }

    fn at_update(
        &self,
        _alloc: Global,
        _dep: &Dep,
        _kind: UpdateKind,
        _new_value: &str,
    ) -> Result<UpdateOptions, AllocError> {
        Ok(UpdateOptions {
            enabled: true,
            age: None,
        })
    }
}
