//! The configurations of reloads that were read before. Rollbacks and periodic reloads repeat a
//! configuration, and it takes several times the memory of its text, so equal ones are shared.
ghost use Rattle.std.specs.Prelude.{◌≡◌, IfSome, IfOk, OnOk, string_bytes};
ghost use Rattle.std.specs.Coded.{codes};
ghost use Rattle.amr_labels.specs.Map as map;
ghost use Rattle.amr_events.specs.ReloadCache.{Spells};

use crate::buckets::Buckets;
use crate::text_cache::hash_of_text;
use amr_config::Config;
use std::alloc::{AllocError, Global};

/// A configuration, and the JSON text of the value that it was read from.
#[derive(Drop)]
struct CachedReload {
    text: String,
    config: Config,
    ghost spelled: { Spells (string_bytes text) config } by { Prim.hlevel (codes, map.code) },
}

/// Configurations that were read before, by the hashes of the texts of their values.
#[derive(Drop)]
pub(crate) struct ReloadCache {
    reloads: Buckets<CachedReload>,
}

impl ReloadCache {
    /// Returns a cache that holds no configuration.
    pub(crate) fn new(alloc: Global) -> ReloadCache {
        ReloadCache {
            reloads: Buckets::new(alloc),
        }
    }

    /// Returns the configuration that was read from the value of a text, if it was kept.
    pub(crate) fn get(&self, text: &str) -> Result<Option<Config>, AllocError>
        ensures { IfOk result (λ found. IfSome found (λ config. Spells text.now config)) }
    {
        match self.reloads.get(hash_of_text(text)) {
            Some(cached) if cached.text.as_str() == text => Ok(Some(cached.config.clone()?)),
            _ => Ok(None),
        }
    }

    /// Keeps a configuration that was read from the value of a text.
    pub(crate) fn keep(&mut self, text: String, config: &Config) -> Result<(), AllocError>
        requires { Spells (string_bytes text) config.now }
    {
        let config = config.clone()?;
        let hash_value = hash_of_text(text.as_str());
        self.reloads
            .insert(hash_value, CachedReload { text, config })?;
        Ok(())
    }
}
