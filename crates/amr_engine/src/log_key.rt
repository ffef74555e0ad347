//! The key of the notification log under which a flush enters what it told an integration.
ghost use Rattle.std.specs.Prelude.{◌≡◌, IfOk};
ghost use Rattle.amr_engine.specs.Flush.{log_key_of};

use crate::state::LogKey;
use amr_config::stated::Integration;
use amr_config::{Config, RouteLabels};
use std::alloc::{AllocError, Global};

/// Returns the notification log's key for a group and an integration of its receiver.
pub(crate) fn log_key(
    alloc: Global,
    config: &Config,
    group: &RouteLabels,
    integration: &Integration,
) -> Result<LogKey, AllocError>
    ensures { IfOk result (λ key. key ≡ log_key_of config.now group.now integration.now) }
{
    Ok(LogKey {
        receiver: config.receiver_name(alloc, group.route)?,
        kind: integration.kind.clone()?,
        place: integration.place,
        group: group.labels.clone()?,
        path: config.path(alloc, group.route)?,
    })
}
