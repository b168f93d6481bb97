ghost use Rattle.rnv_config.specs.Configs.{IsErrorOf};

use rnv_base::Text;
use rnv_options::Wrong;
use std::alloc::{AllocError, Global};

/// Why bytes are no configuration.
#[derive(Debug, Drop)]
pub enum ConfigError {
    /// They are no JSON.
    NotJson,
    /// The value is no object.
    NotObject,
    /// The option's value is of another kind.
    WrongKind { option: Text },
    /// The option's value is of its kind, and not among its values.
    BadValue { option: Text },
    /// Want of memory.
    Memory,
}

impl From<AllocError> for ConfigError {
    ghost use Rattle.rnv_config.specs.declared.error.ConfigError.TheVariants.{Memory};
    ghost use Rattle.std.specs.Prelude.{◌≡◌};

    ghost from_gives = { λ _ e. e ≡ Memory };

    fn from(_: AllocError) -> ConfigError {
        ConfigError::Memory
    }
}

// What is wrong, with the name of the option.
pub fn error_of(alloc: Global, name: &str, wrong: Wrong) -> ConfigError
    ensures { IsErrorOf result name.now wrong }
{
    let Ok(option) = Text::copied(alloc, name) else {
        return ConfigError::Memory;
    };
    match wrong {
        Wrong::WrongKind => ConfigError::WrongKind { option },
        Wrong::BadValue => ConfigError::BadValue { option },
        Wrong::Memory => ConfigError::Memory,
    }
}
