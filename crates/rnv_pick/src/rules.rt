ghost use Rattle.std.specs.Prelude.{◌≡◌, IfOk};
ghost use Rattle.rnv_pick.specs.Options.{Options};

use crate::{Dep, DepOptions, UpdateOptions};
use rnv_base::UpdateKind;
use std::alloc::{AllocError, Global};

/// What a configuration says of dependencies, which have their current version, and of updates.
pub trait Rules {
    /// What it says.
    ghost options: { Self → Options };

    /// Whether the dependency is passed over by its name or its package.
    fn is_ignored(&self, dep: &Dep) -> bool
        ensures { result ≡ (options self.now).is_ignored dep.now };

    /// The options at a dependency. Only memory can fail.
    fn at_dep(&self, alloc: Global, dep: &Dep) -> Result<DepOptions, AllocError>
        ensures { IfOk result (λ o. o ≡ (options self.now).at_dep dep.now) };

    /// The options at an update of this kind to this value. Only memory can fail.
    fn at_update(
        &self,
        alloc: Global,
        dep: &Dep,
        kind: UpdateKind,
        new_value: &str,
    ) -> Result<UpdateOptions, AllocError>
        ensures { IfOk result (λ o. o ≡ (options self.now).at_update dep.now kind new_value.now) };
}
