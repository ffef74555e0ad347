//! Resolves the inherited settings of each route. Alertmanager's `route` reference says which are
//! inherited: receiver, grouping and the three intervals, but not matchers, `continue` or time
//! intervals.
ghost use Rattle.std.specs.Prelude.{◌≡◌, IfOk, option_and_then, slice_get};
ghost use Rattle.std.specs.Option.{option_copied};
ghost use Rattle.amr_config.specs.Settled.{stated_config, settings_of_all, settled_under, receiver_under, grouping_under, path_under, AreParentsFirst};

use crate::defaults::{GROUP_INTERVAL_MINUTES, GROUP_WAIT_SECONDS, REPEAT_INTERVAL_HOURS};
use crate::route_path::RoutePath;
use crate::settings::Settings;
use crate::sorted::sorted;
use crate::stated::{Grouping, Route, Stated};
use amr_labels::{Listing, Text};
use amr_time::Span;
use std::alloc::{AllocError, Global};

/// Returns the settings of all routes. A parent comes before its children, so one pass is enough.
#[tactic(auto, using(crate::proofs::Settling::settled_all), unfolding(crate::specs::Settled::settled_to))]
pub(crate) fn inherit(alloc: Global, stated: &Stated) -> Result<Listing<Settings>, AllocError>
    requires { AreParentsFirst (stated_config stated.now) }
    ensures { IfOk result (λ settings. settings ≡ settings_of_all (stated_config stated.now)) }
{
    let mut settings = Vec::with_capacity(alloc, stated.routes.len())?;
    for route in stated.routes.as_slice() {
        let made = settings_under(alloc, route, above(settings.as_slice(), route.parent))?;
        settings.push(made)?;
    }
    Ok(Listing::from_vec(settings))
}

/// Returns the settings of a parent, if there is one.
fn above<'a>(settings: &'a [Settings], parent: Option<usize>) -> Option<&'a Settings>
    ensures { option_copied result ≡ option_and_then (slice_get settings.now) parent }
{
    match parent {
        Some(parent) => settings.get(parent),
        None => None,
    }
}

/// Returns the settings of a route, given those of its parent, if it has one.
#[tactic(auto, unfolding(crate::specs::Settled::settled_under))]
fn settings_under(
    alloc: Global,
    route: &Route,
    above: Option<&Settings>,
) -> Result<Settings, AllocError>
    ensures { IfOk result (λ settings. settings
        ≡ settled_under route.now (option_copied above.entry)) }
{
    let group_wait = match above {
        Some(settings) => settings.group_wait,
        None => Span::from_seconds(GROUP_WAIT_SECONDS),
    };
    let group_interval = match above {
        Some(settings) => settings.group_interval,
        None => Span::from_minutes(GROUP_INTERVAL_MINUTES),
    };
    let repeat_interval = match above {
        Some(settings) => settings.repeat_interval,
        None => Span::from_hours(REPEAT_INTERVAL_HOURS),
    };
    Ok(Settings {
        parent: route.parent,
        matchers: route.matchers.clone()?,
        continues: route.continues,
        receiver: receiver_under(alloc, route, above)?,
        group_by: grouping_under(route, above)?,
        group_wait: route.group_wait.unwrap_or(group_wait),
        group_interval: route.group_interval.unwrap_or(group_interval),
        repeat_interval: route.repeat_interval.unwrap_or(repeat_interval),
        active_time_intervals: route.active_time_intervals.clone()?,
        mute_time_intervals: route.mute_time_intervals.clone()?,
        path: path_under(alloc, route, above)?,
    })
}

/// Returns the parent's path with the route's own matchers, sorted, at its end.
fn path_under(
    alloc: Global,
    route: &Route,
    above: Option<&Settings>,
) -> Result<RoutePath, AllocError>
    ensures { IfOk result (λ path. path
        ≡ path_under route.now (option_copied above.entry)) }
{
    let own = sorted(alloc, &route.matchers)?;
    match above {
        Some(settings) => settings.path.below(alloc, own),
        None => RoutePath::root(alloc, own),
    }
}

/// Returns how a route groups alerts: its own `group_by`, or else its parent's.
fn grouping_under(route: &Route, above: Option<&Settings>) -> Result<Option<Grouping>, AllocError>
    ensures { IfOk result (λ grouping. grouping
        ≡ grouping_under route.now (option_copied above.entry)) }
{
    match (&route.group_by, above) {
        (Some(grouping), _) => Ok(Some(grouping.clone()?)),
        (None, Some(settings)) => settings.group_by.clone(),
        (None, None) => Ok(None),
    }
}

/// Returns the name of a route's receiver: its own, or else its parent's.
fn receiver_under(
    alloc: Global,
    route: &Route,
    above: Option<&Settings>,
) -> Result<Text, AllocError>
    ensures { IfOk result (λ name. name
        ≡ receiver_under route.now (option_copied above.entry)) }
{
    match (&route.receiver, above) {
        (Some(name), _) => name.clone(),
        (None, Some(settings)) => settings.receiver.clone(),
        (None, None) => Text::from_str(alloc, ""),
    }
}
