//! Until when the flushes of a group only set its timer, and until when nothing changes that may
//! mute an alert. Most groups of which it is known are those whose members all fire and were all
//! notified of: then it doesn't matter what mutes them, and nobody is asked.
ghost use Rattle.std.specs.Prelude.{◌≡◌, ◌≤◌, ◌<◌, true, IfOk, IfSome};
ghost use Rattle.std.specs.List.{list_all};
ghost use Rattle.std.specs.Option.{option_copied};
ghost use Rattle.amr_labels.specs.Map.{get};
ghost use Rattle.amr_config.specs.Routing.{integrations_of};
ghost use Rattle.amr_engine.specs.State.State as state;
ghost use Rattle.amr_engine.specs.Flush.{let_through, labels_of, log_key_of};
ghost use Rattle.amr_engine.specs.Quiet.{is_outside, no_alert_ends, no_silence_turns, all_fire_until, is_untimed, is_notified, are_notified, IsStill, IsQuiet, IsAllNotified};

use crate::log_key::log_key;
use crate::state::{Member, Store};
use amr_config::stated::Integration;
use amr_config::{Config, RouteLabels};
use amr_labels::Shared;
use amr_rules::{LogEntry, is_due_while_firing};
use amr_time::Moment;
use std::alloc::AllocError;

/// Returns until when a group with these members is quiet from a moment on, at the latest until
/// `until`. Returns `None` if it isn't quiet at the moment.
pub(crate) fn quiet_until(
    store: &Store,
    at: Moment,
    group: &RouteLabels,
    members: &[Member],
    through: &[Member],
    until: u128,
) -> Result<Option<u128>, AllocError>
    requires still { IsStill store.now.state at until }
    requires members { members.now ≡ state.members store.now.state group.now }
    requires through { through.now ≡ let_through store.now.state at group.now.route members.now }
    ensures { IfOk result (λ found. IfSome found
        (λ end. (at < end) × IsQuiet store.now.state group.now at end)) }
{
    if !is_untimed(store.config(), group.route) {
        return Ok(None);
    }
    let until = first_end(members, until);
    if until <= at.nanoseconds() {
        return Ok(None);
    }
    match notified_until(store, at, group, through, until)? {
        Some(end) if at.nanoseconds() < end => Ok(Some(end)),
        _ => Ok(None),
    }
}

/// Returns until when a group with these members is quiet from a moment on, whatever mutes them: all
/// integrations were notified of all of them. Returns `None` if one may not have been or may have to
/// be notified again, or if a member is resolved at the moment.
pub(crate) fn all_notified_until(
    store: &Store,
    at: Moment,
    group: &RouteLabels,
    members: &[Member],
) -> Result<Option<u128>, AllocError>
    requires { members.now ≡ state.members store.now.state group.now }
    ensures { IfOk result (λ found. IfSome found
        (λ end. (at < end)
        × IsAllNotified store.now.state group.now at end
        (state.members store.now.state group.now))) }
{
    let until = first_end(members, u128::MAX);
    if until <= at.nanoseconds() {
        return Ok(None);
    }
    match notified_until(store, at, group, members, until)? {
        Some(end) if at.nanoseconds() < end => Ok(Some(end)),
        _ => Ok(None),
    }
}

/// Returns whether a route has neither active nor mute time intervals.
fn is_untimed(config: &Config, route: usize) -> bool
    ensures { result ≡ is_untimed config.now route }
{
    if config.route_count() <= route {
        return true;
    }
    let settings = config.route(route);
    settings.active_time_intervals.is_empty() && settings.mute_time_intervals.is_empty()
}

/// Returns the earliest end of these members if it is before `until`, and else `until`.
pub(crate) fn first_end(members: &[Member], until: u128) -> u128
    ensures within { result ≤ until }
    ensures fire { all_fire_until result members.now ≡ true }
{
    let mut until = until;
    for (_, alert) in members {
        until = until.min(alert.get().ends_at.nanoseconds());
    }
    until
}

/// Returns until when no integration of the group's receiver is to be notified of these members, at
/// the latest until `until`. Returns `None` if one may have to be notified at the moment.
fn notified_until(
    store: &Store,
    at: Moment,
    group: &RouteLabels,
    through: &[Member],
    until: u128,
) -> Result<Option<u128>, AllocError>
    ensures { IfOk result (λ found. IfSome found (λ end. (end ≤ until)
        × (are_notified store.now.state group.now at end through.now ≡ true))) }
{
    if through.is_empty() {
        return Ok(Some(until));
    }
    each_notified_until(store, at, group, through, until)
}

/// Returns until when no integration of the group's receiver is to be notified that these members
/// fire, at the latest until `until`. Returns `None` if one may have to be notified at the moment.
fn each_notified_until(
    store: &Store,
    at: Moment,
    group: &RouteLabels,
    through: &[Member],
    until: u128,
) -> Result<Option<u128>, AllocError>
    ensures { IfOk result (λ found. IfSome found (λ end. (end ≤ until)
        × (list_all (is_notified store.now.state group.now at end (labels_of through.now))
        (integrations_of store.now.state.config group.now.route) ≡ true))) }
{
    let mut until = until;
    for integration in store.config().integrations(group.route) {
        match repeat_of(store, at, group, through, integration)? {
            None => return Ok(None),
            Some(repeat) => until = until.min(repeat),
        }
    }
    Ok(Some(until))
}

/// Returns the first moment at which an integration that was notified that these members fire is
/// notified of them again. Returns `None` if it may have to be notified now, or never was. It
/// compares no labels if the entry has fewer, as after the post of a new alert.
fn repeat_of(
    store: &Store,
    at: Moment,
    group: &RouteLabels,
    through: &[Member],
    integration: &Integration,
) -> Result<Option<u128>, AllocError>
    ensures { IfOk result (λ found. IfSome found (λ end.
        is_notified store.now.state group.now at end (labels_of through.now) integration.now
        ≡ true)) }
{
    let Some(entry) = logged_entry(store, group, integration)? else {
        return Ok(None);
    };
    let entry = entry.get();
    if entry.firing.len() < through.len() {
        return Ok(None);
    }
    let interval = store.config().repeat_interval(group.route);
    if is_due_while_firing(entry, through, at, interval) {
        return Ok(None);
    }
    Ok(Some(entry.time.nanoseconds() + u128::from(interval.nanoseconds()) + 1))
}

/// Returns the entry of the notification log for a group and an integration of its receiver.
fn logged_entry<'s>(
    store: &'s Store,
    group: &RouteLabels,
    integration: &Integration,
) -> Result<Option<&'s Shared<LogEntry>>, AllocError>
    ensures { IfOk result (λ entry. option_copied entry ≡ get store.now.state.log
        (log_key_of store.now.state.config group.now integration.now)) }
{
    let key = log_key(store.alloc(), store.config(), group, integration)?;
    Ok(store.log().get(&key))
}

/// Returns a moment until which nothing that may mute an alert changes.
pub(crate) fn still_until(store: &Store, at: Moment) -> u128
    ensures { IsStill store.now.state at result }
{
    let until = silence_turn(store, at, u128::MAX);
    if store.config().rules().is_empty() {
        return until;
    }
    alert_end(store, at, until)
}

/// Returns the first start or end of a silence after a moment if it is before `until`, and else
/// `until`.
fn silence_turn(store: &Store, at: Moment, until: u128) -> u128
    ensures within { result ≤ until }
    ensures still { no_silence_turns at result store.now.state.silences ≡ true }
{
    let mut until = until;
    for silence in store.silences().values() {
        until = sooner(at, silence.starts_at, until);
        until = sooner(at, silence.ends_at, until);
    }
    until
}

/// Returns the first end of a stored alert after a moment if it is before `until`, and else
/// `until`.
fn alert_end(store: &Store, at: Moment, until: u128) -> u128
    ensures within { result ≤ until }
    ensures still { no_alert_ends at result store.now.state.alerts ≡ true }
{
    let mut until = until;
    for alert in store.alerts().values() {
        until = sooner(at, alert.get().ends_at, until);
    }
    until
}

/// Returns `moment` if it is after `at` and before `until`, and else `until`.
fn sooner(at: Moment, moment: Moment, until: u128) -> u128
    ensures within { result ≤ until }
    ensures outside { is_outside at result moment ≡ true }
{
    if at < moment && moment.nanoseconds() < until {
        moment.nanoseconds()
    } else {
        until
    }
}
