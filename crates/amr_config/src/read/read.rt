//! Reads a whole configuration from its JSON value. `load_config` calls `walk`, and then validates
//! the result. Nothing is inherited or defaulted here, except `resolve_timeout`.
ghost use Rattle.std.specs.Prelude.{◌≡◌, [], codes};
ghost use Rattle.serde_json.specs.View.{view};
ghost use Rattle.amr_config.specs.Read.Answers.{Gives, Reads};
ghost use Rattle.amr_config.specs.Read.Members.{optional_member};
ghost use Rattle.amr_config.specs.Read.Paths.{path_text};
ghost use Rattle.amr_config.specs.Read.Timeout.{timeout_in, timeout_stated, timeout_at};
ghost use Rattle.amr_config.specs.Read.Walking.{walked_at};

use crate::read::error::ConfigError;
use crate::read::members::{member, span_member};
use crate::read::read_intervals::{read_intervals, read_mute_time_intervals};
use crate::read::read_receivers::read_receivers;
use crate::read::read_routes::read_routes;
use crate::read::read_rules::read_rules;
use crate::read::value_path::ValuePath;
use crate::stated::Stated;
use amr_labels::matcher::Patterns;
use amr_time::Span;
use serde_json::Value;
use std::alloc::Global;

/// Reads a configuration. It visits members by key in byte order, and lists in order, and fails
/// with the path of the first faulty value. It builds each pattern when it meets it, unless it was
/// seen before. Callers check `is_too_deep` first; the depth limit here only bounds the recursion.
#[tactic(auto, unfolding(crate::specs::Read::Walking::walked_at, crate::specs::Read::Readings::next))]
pub(crate) fn walk(
    alloc: Global,
    built: &mut Patterns,
    value: &Value,
) -> Result<Stated, ConfigError>
    ensures { Reads (λ stated. stated) result (walked_at (view value.now)) }
{
    let resolve_timeout = read_timeout(alloc, value)?;
    let rules = read_rules(alloc, built, value)?;
    let mute = read_mute_time_intervals(alloc, value)?;
    let receivers = read_receivers(alloc, value)?;
    let routes = read_routes(alloc, built, value)?;
    let time_intervals = read_intervals(alloc, value, "time_intervals", mute)?;
    Ok(Stated {
        routes,
        receivers,
        rules,
        resolve_timeout,
        time_intervals,
    })
}

/// Reads the timeout of a whole configuration, which must be an object.
#[tactic(auto, unfolding(crate::specs::Read::Timeout::timeout_at, crate::specs::Read::Readings::next))]
fn read_timeout(alloc: Global, value: &Value) -> Result<Span, ConfigError>
    ensures { Gives (λ span. span) result (timeout_at (view value.now)) }
{
    if !value.is_object() {
        return Err(ValuePath::Top.faulty(alloc));
    }
    let timeout = timeout_member(alloc, value)?;
    Ok(stated_timeout(timeout))
}

/// Returns the stated timeout, or 5 minutes, the default of Alertmanager's `resolve_timeout`.
fn stated_timeout(timeout: Option<Option<Span>>) -> Span
    ensures { result ≡ timeout_stated timeout }
{
    match timeout {
        Some(Some(span)) => span,
        Some(None) => Span::from_minutes(5),
        None => Span::from_minutes(5),
    }
}

/// Reads `resolve_timeout` of `global`; `None` if there is no `global`.
#[tactic(auto, unfolding(crate::specs::Read::Readings::next))]
fn timeout_member(alloc: Global, value: &Value) -> Result<Option<Option<Span>>, ConfigError>
    ensures { Gives (λ o. o) result
        (optional_member timeout_in [] (codes "global") (view value.now)) }
{
    match member(value, "global") {
        Some(found) => {
            let here = ValuePath::Member(&ValuePath::Top, "global");
            Ok(Some(timeout(alloc, &here, found)?))
        }
        None => Ok(None),
    }
}

/// Reads `resolve_timeout` of the object under `global`.
#[tactic(auto, unfolding(crate::specs::Read::Timeout::timeout_in, crate::specs::Read::Readings::next))]
fn timeout(alloc: Global, path: &ValuePath, value: &Value) -> Result<Option<Span>, ConfigError>
    ensures { Gives (λ o. o) result (timeout_in (path_text path.now) (view value.now)) }
{
    if !value.is_object() {
        return Err(path.faulty(alloc));
    }
    span_member(alloc, path, value, "resolve_timeout")
}
