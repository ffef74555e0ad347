//! Loading a configuration from its JSON value: `walk` parses it, `refusal` validates it, and
//! `Config` resolves the settings of its routes.
ghost use Rattle.serde_json.specs.View.{view};
ghost use Rattle.amr_config.specs.Read.Answers.{Answers};
ghost use Rattle.amr_config.specs.Read.Reading.{ConfigIs};

use crate::Config;
use crate::read::error::{Cause, ConfigError, Refusal};
use crate::read::read::walk;
use crate::read::read_routes::is_too_deep;
use crate::read::validate::refusal;
use amr_labels::matcher::Patterns;
use serde_json::Value;
use std::alloc::Global;

/// Reads a configuration: the tree of Alertmanager's configuration file, as JSON. A member that is
/// `null` counts as absent; unknown keys are ignored. Each pattern is built once, when it is met;
/// if `regex` refuses it, its value is faulty.
///
/// If there are several faults, `TooDeep` is answered first, then `BadConfig` with the first faulty
/// value, walking through members by key in byte order and through lists in order, then the refusal
/// with the least number.
pub fn load_config(alloc: Global, value: &Value) -> Result<Config, ConfigError>
    ensures { Answers (λ config. config) result (ConfigIs (view value.now)) }
{
    config_of(alloc, &mut Patterns::new(alloc), value)
}

/// Returns the configuration of a JSON value, as `load_config` does. Its matchers share their
/// patterns with the matchers that were made before with these.
#[tactic(auto, using(crate::proofs::ReadLemmas::TreeOrder::parents_first), unfolding(crate::specs::Read::Reading::reading_of, crate::specs::Read::Readings::next))]
pub fn config_of(alloc: Global, built: &mut Patterns, value: &Value) -> Result<Config, ConfigError>
    ensures { Answers (λ config. config) result (ConfigIs (view value.now)) }
{
    if is_too_deep(value) {
        return Err(ConfigError::Refused(Refusal::Other(Cause::TooDeep)));
    }
    let stated = walk(alloc, built, value)?;
    if let Some(refusal) = refusal(alloc, &stated)? {
        return Err(ConfigError::Refused(refusal));
    }
    Ok(Config::from_stated(alloc, stated)?)
}
