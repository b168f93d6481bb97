ghost use Rattle.std.specs.Prelude.{◌≡◌, IfOk, OnOk};
ghost use Rattle.rnv_config.specs.Configs.{AreBuilt, extended, ignoring, joined, nothing_read, settled, told_read, warned};
ghost use Rattle.rnv_config.specs.Settings.{IsValueBuilt, told_value};

use crate::Config;
use crate::lists::{append, one};
use rnv_base::{List, Text};
use rnv_options::{Opt, OptValue, Setting};
use std::alloc::{AllocError, Global};

/// What a configuration's text says: what it sets, the presets that it extends and those that it passes
/// over, and the warnings, in the order of the names in it.
#[derive(Drop)]
pub struct ReadConfig {
    pub config: Config,
    pub extends: List<Text>,
    pub ignored: List<Text>,
    pub warnings: List<Text>,
}

impl ReadConfig {
    // Nothing read so far.
    pub(crate) fn empty(alloc: Global) -> ReadConfig
        ensures told { told_read result ≡ nothing_read }
        ensures built { AreBuilt result }
    {
        ReadConfig {
            config: Config {
                settings: List::empty(alloc),
            },
            extends: List::empty(alloc),
            ignored: List::empty(alloc),
            warnings: List::empty(alloc),
        }
    }

    // Presets that it extends, alone.
    pub(crate) fn extended(alloc: Global, texts: List<Text>) -> ReadConfig
        ensures told { told_read result ≡ extended texts }
        ensures built { AreBuilt result }
    {
        ReadConfig {
            config: Config {
                settings: List::empty(alloc),
            },
            extends: texts,
            ignored: List::empty(alloc),
            warnings: List::empty(alloc),
        }
    }

    // Presets that it passes over, alone.
    pub(crate) fn ignoring(alloc: Global, texts: List<Text>) -> ReadConfig
        ensures told { told_read result ≡ ignoring texts }
        ensures built { AreBuilt result }
    {
        ReadConfig {
            config: Config {
                settings: List::empty(alloc),
            },
            extends: List::empty(alloc),
            ignored: texts,
            warnings: List::empty(alloc),
        }
    }

    // A warning alone.
    pub(crate) fn warned(alloc: Global, text: Text) -> Result<ReadConfig, AllocError>
        ensures told { IfOk result (λ read. told_read read ≡ warned text) }
        ensures built { IfOk result AreBuilt }
    {
        Ok(ReadConfig {
            config: Config {
                settings: List::empty(alloc),
            },
            extends: List::empty(alloc),
            ignored: List::empty(alloc),
            warnings: one(alloc, text)?,
        })
    }

    // An option that is set, and the warnings of its value.
    pub(crate) fn settled(
        alloc: Global,
        opt: Opt,
        warnings: List<Text>,
        value: OptValue,
    ) -> Result<ReadConfig, AllocError>
        ensures told { IfOk result (λ read. told_read read ≡ settled opt warnings (told_value value)) }
        ensures built { IfOk result (λ read. IsValueBuilt value → AreBuilt read) }
    {
        Ok(ReadConfig {
            config: Config {
                settings: one(alloc, Setting { opt, value })?,
            },
            extends: List::empty(alloc),
            ignored: List::empty(alloc),
            warnings,
        })
    }

    // Puts what another member says at the end.
    pub(crate) fn join(&mut self, more: ReadConfig) -> Result<(), AllocError>
        ensures told { OnOk result (told_read self.new ≡ joined (told_read self.old) (told_read more)) }
        ensures built { OnOk result (AreBuilt self.old → AreBuilt more → AreBuilt self.new) }
    {
        let ReadConfig {
            config,
            extends,
            ignored,
            warnings,
        } = more;
        let Config { settings } = config;
        append(&mut self.config.settings, settings)?;
        append(&mut self.extends, extends)?;
        append(&mut self.ignored, ignored)?;
        append(&mut self.warnings, warnings)
    }
}
