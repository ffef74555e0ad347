//! The keys of members and of groups: a route, with the labels of an alert or of a group.
ghost use Rattle.std.specs.Prelude.{◌≡◌, IfOk};
ghost use Rattle.amr_config.specs.RouteLabels.{on_route};
ghost use Rattle.amr_engine.specs.State.State.{group_key};

use amr_config::{Config, RouteLabels};
use amr_labels::Labels;
use std::alloc::{AllocError, Global};

/// Returns the key of a member of a group: the labels of the alert, on the route of the group.
pub fn member_key(group: &RouteLabels, labels: &Labels) -> Result<RouteLabels, AllocError>
    ensures { IfOk result (λ member. member ≡ on_route group.now.route labels.now) }
{
    Ok(RouteLabels {
        route: group.route,
        labels: labels.clone()?,
    })
}

/// Returns the group of an alert on a route.
pub fn group_key(
    alloc: Global,
    config: &Config,
    route: usize,
    labels: &Labels,
) -> Result<RouteLabels, AllocError>
    ensures { IfOk result (λ group. group ≡ group_key config.now (on_route route labels.now)) }
{
    let labels = config.group_of(alloc, route, labels)?;
    Ok(RouteLabels { route, labels })
}
