//! Explains why an alert was or wasn't in a notification: the verdicts that the command `explain`
//! prints. It asks the same stages as a flush (`stages.rt`), at the clock, and changes nothing.
ghost use Rattle.std.specs.Prelude.{◌≡◌, ◌++◌, IfOk, OnOk, option_map};
ghost use Rattle.std.specs.Option.{option_copied};
ghost use Rattle.std.specs.List.{flat_map};
ghost use Rattle.amr_config.specs.Routing.{chosen_routes};
ghost use Rattle.amr_engine.specs.Explain.{waiting, finding_of_entry, heard, finding, kind_and_place, verdict_at, verdicts_of_group, verdicts_at, verdicts_of_stored, verdicts};

use crate::log_key::log_key;
use crate::stages::taken_away;
use crate::state::{GroupTimer, Store, group_key};
use crate::verdict::{Finding, Verdict};
use amr_config::RouteLabels;
use amr_config::stated::Integration;
use amr_labels::{Labels, Shared, Text};
use amr_rules::{Alert, LogEntry};
use std::alloc::AllocError;

/// Returns the verdicts for the alert with these labels, as of the clock.
#[tactic(auto, unfolding(crate::specs::Explain::verdicts))]
pub(crate) fn verdicts(store: &Store, labels: &Labels) -> Result<Vec<Verdict>, AllocError>
    ensures { IfOk result (λ found. found.items ≡ verdicts store.now.state labels.now) }
{
    verdicts_of_stored(store, labels, store.alerts().get(labels))
}

/// Returns the verdicts for a stored alert, or the one for an alert that isn't stored.
fn verdicts_of_stored(
    store: &Store,
    labels: &Labels,
    alert: Option<&Alert>,
) -> Result<Vec<Verdict>, AllocError>
    ensures { IfOk result (λ found. found.items
        ≡ verdicts_of_stored store.now.state labels.now (option_copied alert.entry)) }
{
    match alert {
        None => Ok(vec![in store.alloc(); Verdict::Unknown]?),
        Some(alert) if alert.is_resolved_at(store.moment()) => {
            Ok(vec![in store.alloc(); Verdict::Ended]?)
        }
        Some(_) => verdicts_of_routes(store, labels),
    }
}

/// Returns the verdicts for each route that takes the alert.
fn verdicts_of_routes(store: &Store, labels: &Labels) -> Result<Vec<Verdict>, AllocError>
    ensures { IfOk result (λ found. found.items
        ≡ flat_map (verdicts_at store.now.state labels.now)
        (chosen_routes store.now.state.config labels.now)) }
{
    let routes = store.config().routes_of(store.alloc(), labels)?;
    let mut found = Vec::new(store.alloc());
    for route in &routes {
        add_verdicts(store, labels, *route, &mut found)?;
    }
    Ok(found)
}

/// Appends the verdicts for a route, if the alert's group exists there. That of a stored alert that
/// isn't resolved does.
fn add_verdicts(
    store: &Store,
    labels: &Labels,
    route: usize,
    found: &mut Vec<Verdict>,
) -> Result<(), AllocError>
    ensures { OnOk result (found.new.items ≡ found.old.items
        ++ verdicts_at store.now.state labels.now route) }
{
    let group = group_key(store.alloc(), store.config(), route, labels)?;
    match store.timers().get(&group) {
        Some(timer) => add_verdicts_of_group(store, &group, labels, timer, found),
        None => Ok(()),
    }
}

/// Appends the verdicts for a group: one for each integration, or one if the receiver has none.
fn add_verdicts_of_group(
    store: &Store,
    group: &RouteLabels,
    labels: &Labels,
    timer: &GroupTimer,
    found: &mut Vec<Verdict>,
) -> Result<(), AllocError>
    ensures { OnOk result (found.new.items ≡ found.old.items
        ++ verdicts_of_group store.now.state group.now labels.now timer.now) }
{
    let integrations = store.config().integrations(group.route);
    if integrations.is_empty() {
        found.push(verdict_at(store, group, labels, timer, None)?)?;
        return Ok(());
    }
    for integration in integrations {
        found.push(verdict_at(store, group, labels, timer, Some(integration))?)?;
    }
    Ok(())
}

/// Returns the verdict for an integration, or for a receiver without one.
fn verdict_at(
    store: &Store,
    group: &RouteLabels,
    labels: &Labels,
    timer: &GroupTimer,
    integration: Option<&Integration>,
) -> Result<Verdict, AllocError>
    ensures { IfOk result (λ verdict. verdict
        ≡ verdict_at store.now.state group.now labels.now timer.now
        (option_copied integration.entry)) }
{
    Ok(Verdict::AtRoute {
        route: group.route,
        receiver: store.config().receiver_name(store.alloc(), group.route)?,
        integration: kind_and_place(integration)?,
        finding: first_finding(store, group, labels, integration, timer)?,
    })
}

/// Returns the kind and the index of an integration, if there is one.
fn kind_and_place(integration: Option<&Integration>) -> Result<Option<(Text, usize)>, AllocError>
    ensures { IfOk result (λ named. named
        ≡ option_map kind_and_place (option_copied integration.entry)) }
{
    match integration {
        None => Ok(None),
        Some(integration) => Ok(Some((integration.kind.clone()?, integration.place))),
    }
}

/// Returns the first finding that applies.
fn first_finding(
    store: &Store,
    group: &RouteLabels,
    labels: &Labels,
    integration: Option<&Integration>,
    timer: &GroupTimer,
) -> Result<Finding, AllocError>
    ensures { IfOk result (λ found. found
        ≡ finding store.now.state group.now labels.now (option_copied integration.entry)
        timer.now) }
{
    if let Some(found) = waiting(timer) {
        return Ok(found);
    }
    let number = store.number_of(labels);
    if let Some(found) = taken_away(store, store.moment(), group.route, number, labels)? {
        return Ok(found);
    }
    heard(store, group, labels, timer, integration)
}

/// Returns what the notification log says of the alert at an integration, or that the receiver has
/// none.
fn heard(
    store: &Store,
    group: &RouteLabels,
    labels: &Labels,
    timer: &GroupTimer,
    integration: Option<&Integration>,
) -> Result<Finding, AllocError>
    ensures { IfOk result (λ found. found
        ≡ heard store.now.state group.now labels.now timer.now (option_copied integration.entry)) }
{
    match integration {
        None => Ok(Finding::Nowhere),
        Some(integration) => {
            let key = log_key(store.alloc(), store.config(), group, integration)?;
            Ok(logged(labels, timer, store.log().get(&key)))
        }
    }
}

/// Returns what the log entry says: the integration was notified that the alert fires, or the next
/// flush decides.
fn logged(labels: &Labels, timer: &GroupTimer, entry: Option<&Shared<LogEntry>>) -> Finding
    ensures { result ≡ finding_of_entry labels.now timer.now (option_copied entry.entry) }
{
    match entry {
        Some(entry) if entry.get().firing.contains(labels) => Finding::Told {
            at: entry.get().time,
        },
        _ => Finding::Due {
            at: timer.next_flush,
        },
    }
}

/// Returns the finding of a group that hasn't been flushed yet.
fn waiting(timer: &GroupTimer) -> Option<Finding>
    ensures { result ≡ waiting timer.now }
{
    if timer.flushed {
        None
    } else {
        Some(Finding::Waiting {
            due: timer.next_flush,
        })
    }
}
