ghost use Rattle.std.specs.Prelude.{◌≡◌, IfOk};
ghost use Rattle.rnv_config.specs.Roles.{role_of, unknown_option};

use rnv_base::Text;
use std::alloc::{AllocError, Global};

/// What a member is by its name.
#[derive(Clone, Copy, Debug, PartialEq, Eq)]
pub enum Role {
    /// The presets that it extends.
    Extends,
    /// The presets that it passes over.
    Ignored,
    /// Passed over without a word.
    Silent,
    /// An option, or unknown.
    Named,
}

pub fn role_of(name: &str) -> Role
    ensures { result ≡ role_of name.now }
{
    if name == "extends" {
        Role::Extends
    } else if name == "ignorePresets" {
        Role::Ignored
    } else if name == "$schema" || name == "description" {
        Role::Silent
    } else {
        Role::Named
    }
}

// What is said of an unknown name.
pub fn unknown_option(alloc: Global, name: &str) -> Result<Text, AllocError>
    ensures { IfOk result (λ text. text ≡ unknown_option name.now) }
{
    let text = format!(in alloc; "unknown option {name}")?;
    Ok(Text::new(text))
}
