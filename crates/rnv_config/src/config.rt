use rnv_base::{List, Share};
use rnv_options::Setting;
use std::alloc::{AllocError, Global};

/// The options that are set, in the order of their names.
#[derive(Drop)]
pub struct Config {
    pub settings: List<Setting>,
}

impl Share for Config {
    fn share(&self, alloc: Global) -> Result<Config, AllocError> {
        Ok(Config {
            settings: self.settings.share(alloc)?,
        })
    }
}
