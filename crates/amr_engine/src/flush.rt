//! The flush of a group, as in Alertmanager's dispatcher and its notification pipeline: set the
//! group timer, mute members, run the dedup check for each integration, notify, and drop resolved
//! members. `moves.rt` calls `flush` when a group timer fires. Most flushes change nothing but the
//! timer, and are recognized: by the cache of quiet groups (`quiet.rt`) or by what is asked here.
ghost use Rattle.std.specs.Prelude.{◌≡◌, ◌≤◌, ◌+◌, ◌*◌, ◌++◌, true, map, length, OnOk, IfOk};
ghost use Rattle.std.specs.List.{fold, list_all};
ghost use Rattle.std.specs.Option.{option_map_or, option_to_list};
ghost use Rattle.amr_labels.specs.Map.{get};
ghost use Rattle.amr_config.specs.Routing.{group_interval_of, integrations_of};
ghost use Rattle.amr_time.specs.Time.{latest_read};
ghost use Rattle.amr_rules.specs.Alerts.{is_resolved_at};
ghost use Rattle.amr_engine.specs.State.State as state;
ghost use Rattle.amr_engine.specs.State.Kept.{GrownBy, before_open_record};
ghost use Rattle.amr_engine.specs.Flush.{let_through, firing_of, resolved_of, notified_firing, notified_resolved, notifications_of, notify_if_due, notify_receiver, set_timer, drop_member, drop_resolved, run_pipeline, flush};
ghost use Rattle.amr_engine.specs.Quiet.{with_timer_reset, IsStill};
ghost use Rattle.amr_engine.specs.Notifying.{entry_of};
ghost use Rattle.amr_engine.specs.CachedQuiet.{IsTrueOf};
ghost use Rattle.amr_engine.specs.Weight.{turns, flush_weight};

use crate::log_key::log_key;
use crate::quiet::QuietGroups;
use crate::quiet_until::{all_notified_until, quiet_until, still_until};
use crate::stages::let_through;
use crate::state::{
    Change, FiringAlert, GroupTimer, LogKey, Member, Notification, ResolvedAlert, Store, member_key,
};
use amr_config::RouteLabels;
use amr_config::stated::Integration;
use amr_labels::{Listing, Shared};
use amr_rules::LogEntry;
use amr_time::Moment;
use std::alloc::{AllocError, Global};

/// Flushes a group at a moment. For a group that is cached as quiet, or found so, it only sets the
/// group timer. It asks the cache first, then whether all integrations were notified of all
/// members, and only then what mutes the members. Returns whether the flush is known to have set
/// the group timer alone.
#[tactic(auto, using(crate::proofs::CachedQuiet::reset_true))]
pub(crate) fn flush(
    store: &mut Store,
    quiet_groups: &mut QuietGroups,
    at: Moment,
    group: &RouteLabels,
) -> Result<bool, AllocError>
    requires late { at ≤ latest_read }
    requires cache { IsTrueOf quiet_groups.old store.old.state }
    ensures ok { OnOk result (store.new.state ≡ flush at group.now store.old.state) }
    ensures quiet { IfOk result (λ quiet. quiet ≡ true
        → flush at group.now store.old.state ≡ with_timer_reset at group.now store.old.state) }
    ensures kept { before_open_record store.new ≡ before_open_record store.old }
    ensures grown { GrownBy (2 * flush_weight store.old.state group.now) store.old store.new }
    ensures cache { OnOk result (IsTrueOf quiet_groups.new store.new.state) }
{
    if quiet_groups.is_quiet_at(at, group) {
        reset_timer(store, at, group)?;
        return Ok(true);
    }
    let members = store.members_of(group)?;
    if is_all_notified(store, quiet_groups, at, group, members.as_slice())? {
        reset_timer(store, at, group)?;
        return Ok(true);
    }
    flush_unnotified(store, quiet_groups, at, group, members.as_slice())
}

/// Flushes the group with these members. It finds out what mutes them once, to find out whether the
/// group is quiet and to notify of them.
#[tactic(auto, using(crate::proofs::CachedQuiet::reset_true))]
fn flush_unnotified(
    store: &mut Store,
    quiet_groups: &mut QuietGroups,
    at: Moment,
    group: &RouteLabels,
    members: &[Member],
) -> Result<bool, AllocError>
    requires late { at ≤ latest_read }
    requires cache { IsTrueOf quiet_groups.old store.old.state }
    requires members { members.now ≡ state.members store.old.state group.now }
    ensures ok { OnOk result (store.new.state ≡ flush at group.now store.old.state) }
    ensures quiet { IfOk result (λ quiet. quiet ≡ true
        → flush at group.now store.old.state ≡ with_timer_reset at group.now store.old.state) }
    ensures kept { before_open_record store.new ≡ before_open_record store.old }
    ensures grown { GrownBy (2 * flush_weight store.old.state group.now) store.old store.new }
    ensures cache { OnOk result (IsTrueOf quiet_groups.new store.new.state) }
{
    let through = let_through(store, at, group.route, members)?;
    if is_quiet(store, quiet_groups, at, group, members, &through)? {
        reset_timer(store, at, group)?;
        return Ok(true);
    }
    quiet_groups.forget_flushed(store.config(), group);
    flush_in_full(store, at, group, members, or_all(members, &through))?;
    Ok(false)
}

/// Returns the members that are let through, which are all of them if there is no list of those.
fn or_all<'m>(members: &'m [Member], through: &'m Option<Vec<Member>>) -> &'m [Member]
    ensures { result.now ≡ option_map_or (λ through. through.items) through.now members.now }
{
    match through {
        None => members,
        Some(through) => through.as_slice(),
    }
}

/// Returns true only if a flush of the group with these members only sets its timer, whatever mutes
/// them, and notes until when.
#[tactic(auto, using(crate::proofs::QuietLaws::notified_flush))]
fn is_all_notified(
    store: &Store,
    quiet_groups: &mut QuietGroups,
    at: Moment,
    group: &RouteLabels,
    members: &[Member],
) -> Result<bool, AllocError>
    requires cache { IsTrueOf quiet_groups.old store.now.state }
    requires members { members.now ≡ state.members store.now.state group.now }
    ensures quiet { IfOk result (λ quiet. quiet ≡ true
        → flush at group.now store.now.state ≡ with_timer_reset at group.now store.now.state) }
    ensures cache { OnOk result (IsTrueOf quiet_groups.new store.now.state) }
{
    match all_notified_until(store, at, group, members)? {
        None => Ok(false),
        Some(until) => {
            quiet_groups.note_notified(store, at, group, until);
            Ok(true)
        }
    }
}

/// Returns true only if a flush of the group with these members, of which `through` lists those that
/// no stage mutes, only sets its timer, and notes until when. If no stage mutes any, it isn't asked,
/// since the group isn't one that is quiet whatever mutes its members.
#[tactic(auto, using(crate::proofs::QuietLaws::quiet_flush))]
fn is_quiet(
    store: &Store,
    quiet_groups: &mut QuietGroups,
    at: Moment,
    group: &RouteLabels,
    members: &[Member],
    through: &Option<Vec<Member>>,
) -> Result<bool, AllocError>
    requires cache { IsTrueOf quiet_groups.old store.now.state }
    requires members { members.now ≡ state.members store.now.state group.now }
    requires through { option_map_or (λ through. through.items) through.now members.now
        ≡ let_through store.now.state at group.now.route members.now }
    ensures quiet { IfOk result (λ quiet. quiet ≡ true
        → flush at group.now store.now.state ≡ with_timer_reset at group.now store.now.state) }
    ensures cache { OnOk result (IsTrueOf quiet_groups.new store.now.state) }
{
    let Some(through) = through else {
        return Ok(false);
    };
    let still = still(store, quiet_groups, at);
    match quiet_until(store, at, group, members, through.as_slice(), still)? {
        None => Ok(false),
        Some(until) => {
            quiet_groups.note_quiet(store, at, group, until);
            Ok(true)
        }
    }
}

/// Returns a moment until which nothing that may mute an alert changes. That is the next nanosecond
/// if the cache has no other and a scan of all stored alerts and silences doesn't pay yet.
fn still(store: &Store, quiet_groups: &mut QuietGroups, at: Moment) -> u128
    requires { IsTrueOf quiet_groups.old store.now.state }
    ensures still { IsStill store.now.state at result }
    ensures cache { IsTrueOf quiet_groups.new store.now.state }
{
    if let Some(until) = quiet_groups.still_at(at) {
        return until;
    }
    if !quiet_groups.allows_scan() {
        return at.nanoseconds() + 1;
    }
    let until = still_until(store, at);
    quiet_groups.note_still(store, at, until);
    until
}

/// Flushes a group at a moment: sets its timer, notifies, and drops its resolved members. `members`
/// are the group's members, and `through` are those that no stage mutes.
#[tactic(auto, unfolding(crate::specs::Flush::flush))]
fn flush_in_full(
    store: &mut Store,
    at: Moment,
    group: &RouteLabels,
    members: &[Member],
    through: &[Member],
) -> Result<(), AllocError>
    requires late { at ≤ latest_read }
    requires members { members.now ≡ state.members store.old.state group.now }
    requires through { through.now ≡ let_through store.old.state at group.now.route members.now }
    ensures ok { OnOk result (store.new.state ≡ flush at group.now store.old.state) }
    ensures kept { before_open_record store.new ≡ before_open_record store.old }
    ensures grown { GrownBy (2 * flush_weight store.old.state group.now) store.old store.new }
{
    reset_timer(store, at, group)?;
    run_pipeline(store, at, group, members, through)
}

/// Schedules the next flush, `group_interval` from now, and marks the group as flushed.
pub(crate) fn reset_timer(
    store: &mut Store,
    at: Moment,
    group: &RouteLabels,
) -> Result<(), AllocError>
    requires { at ≤ latest_read }
    ensures ok { OnOk result (store.new.state
        ≡ set_timer group.now
        (λ timer.
        record timer {
          next_flush = at + group_interval_of store.old.state.config group.now.route;
          flushed = true;
        }) store.old.state) }
    ensures kept { before_open_record store.new ≡ before_open_record store.old }
    ensures grown { GrownBy 1 store.old store.new }
{
    let interval = store.config().group_interval(group.route);
    store.reset_timer(group, at.plus(interval))
}

/// Notifies of the members that nothing mutes, then drops the resolved members from the group. Does
/// nothing for a group without members.
fn run_pipeline(
    store: &mut Store,
    at: Moment,
    group: &RouteLabels,
    members: &[Member],
    through: &[Member],
) -> Result<(), AllocError>
    requires { through.now ≡ let_through store.old.state at group.now.route members.now }
    ensures ok { OnOk result (store.new.state
        ≡ run_pipeline at group.now members.now store.old.state) }
    ensures kept { before_open_record store.new ≡ before_open_record store.old }
    ensures grown { GrownBy (1 + 2 * turns store.old.state group.now + length members.now)
        store.old store.new }
{
    if members.is_empty() {
        return Ok(());
    }
    notify_receiver(store, at, group, through)?;
    drop_resolved(store, at, group, members)
}

/// Runs the dedup check for each integration of the group's receiver, and notifies those that are
/// due. Does nothing if all members are muted.
fn notify_receiver(
    store: &mut Store,
    at: Moment,
    group: &RouteLabels,
    through: &[Member],
) -> Result<(), AllocError>
    ensures ok { OnOk result (store.new.state
        ≡ notify_receiver at group.now through.now store.old.state) }
    ensures kept { before_open_record store.new ≡ before_open_record store.old }
    ensures grown { GrownBy (2 * turns store.old.state group.now) store.old store.new }
{
    if through.is_empty() {
        return Ok(());
    }
    let entry = LogEntry::of_alerts(store.alloc(), at, through)?;
    let entry = Shared::new(store.alloc(), entry)?;
    notify_integrations(store, at, group, through, &entry)
}

/// Runs the dedup check for each integration of the group's receiver, in order, and notifies those
/// that are due. The log entries share the label sets.
fn notify_integrations(
    store: &mut Store,
    at: Moment,
    group: &RouteLabels,
    through: &[Member],
    entry: &Shared<LogEntry>,
) -> Result<(), AllocError>
    requires { entry.now ≡ entry_of at through.now }
    ensures ok { OnOk result (store.new.state
        ≡ fold (notify_if_due at group.now through.now) store.old.state
        (integrations_of store.old.state.config group.now.route)) }
    ensures kept { before_open_record store.new ≡ before_open_record store.old }
    ensures grown { GrownBy (2 * turns store.old.state group.now) store.old store.new }
{
    let config = store.config().clone()?;
    for integration in config.integrations(group.route) {
        notify_if_due(store, at, group, through, entry, integration)?;
    }
    Ok(())
}

/// Runs the dedup check for one integration, and writes the log entry and appends the notification
/// if they are due.
#[tactic(auto, unfolding(crate::specs::Flush::notify_if_due))]
fn notify_if_due(
    store: &mut Store,
    at: Moment,
    group: &RouteLabels,
    through: &[Member],
    entry: &Shared<LogEntry>,
    integration: &Integration,
) -> Result<(), AllocError>
    requires { entry.now ≡ entry_of at through.now }
    ensures ok { OnOk result (store.new.state
        ≡ notify_if_due at group.now through.now store.old.state integration.now) }
    ensures kept { before_open_record store.new ≡ before_open_record store.old }
    ensures grown { GrownBy 2 store.old store.new }
{
    let key = log_key(store.alloc(), store.config(), group, integration)?;
    let send_resolved = integration.send_resolved;
    let repeat_interval = store.config().repeat_interval(group.route);
    if store.write_log_if_due(&key, entry, send_resolved, repeat_interval)? {
        let alloc = store.alloc();
        let notification = notification_of(alloc, at, group, key, send_resolved, through)?;
        append(store, notification)?;
    }
    Ok(())
}

/// Returns the notification for an integration about these members. Returns `None` if none of them
/// fires and the integration doesn't send resolved alerts.
fn notification_of(
    alloc: Global,
    at: Moment,
    group: &RouteLabels,
    key: LogKey,
    send_resolved: bool,
    members: &[Member],
) -> Result<Option<Notification>, AllocError>
    ensures { IfOk result (λ notification. option_to_list notification
        ≡ notifications_of at group.now key send_resolved (firing_of at members.now)
        (resolved_of at members.now)) }
{
    let firing = notified_firing(alloc, at, members)?;
    if firing.is_empty() && !send_resolved {
        return Ok(None);
    }
    let resolved = if send_resolved {
        notified_resolved(alloc, at, members)?
    } else {
        Listing::new(alloc)
    };
    Ok(Some(Notification {
        at,
        route: group.route,
        key,
        firing,
        resolved,
    }))
}

/// Returns what a notification says of the members that fire.
fn notified_firing(
    alloc: Global,
    at: Moment,
    members: &[Member],
) -> Result<Listing<FiringAlert>, AllocError>
    ensures { IfOk result (λ notified. notified
        ≡ map notified_firing (firing_of at members.now)) }
{
    let mut notified = Vec::with_capacity(alloc, members.len())?;
    for (labels, alert) in members {
        if !alert.get().is_resolved_at(at) {
            notified.push(FiringAlert {
                labels: labels.clone()?,
                starts_at: alert.get().starts_at,
                annotations: alert.get().annotations.clone()?,
            })?;
        }
    }
    Ok(Listing::from_vec(notified))
}

/// Returns what a notification says of the members that are resolved.
fn notified_resolved(
    alloc: Global,
    at: Moment,
    members: &[Member],
) -> Result<Listing<ResolvedAlert>, AllocError>
    ensures { IfOk result (λ notified. notified
        ≡ map notified_resolved (resolved_of at members.now)) }
{
    let mut notified = Vec::new(alloc);
    for (labels, alert) in members {
        if alert.get().is_resolved_at(at) {
            notified.push(ResolvedAlert {
                labels: labels.clone()?,
                starts_at: alert.get().starts_at,
                ends_at: alert.get().ends_at,
                annotations: alert.get().annotations.clone()?,
            })?;
        }
    }
    Ok(Listing::from_vec(notified))
}

/// Appends the notification to the transcript, if there is one.
fn append(store: &mut Store, notification: Option<Notification>) -> Result<(), AllocError>
    ensures ok { OnOk result (store.new.state
        ≡ record store.old.state { notes = store.old.state.notes ++ option_to_list notification }) }
    ensures kept { before_open_record store.new ≡ before_open_record store.old }
    ensures grown { GrownBy 1 store.old store.new }
{
    match notification {
        None => Ok(()),
        Some(notification) => store.append_notification(notification),
    }
}

/// Drops the resolved members from the group, even those that a stage muted, and marks a group
/// without members as empty.
#[tactic(auto, unfolding(crate::specs::Flush::drop_resolved))]
fn drop_resolved(
    store: &mut Store,
    at: Moment,
    group: &RouteLabels,
    members: &[Member],
) -> Result<(), AllocError>
    ensures ok { OnOk result (store.new.state
        ≡ drop_resolved at group.now members.now store.old.state) }
    ensures kept { before_open_record store.new ≡ before_open_record store.old }
    ensures grown { GrownBy (1 + length members.now) store.old store.new }
{
    drop_each_resolved(store, at, group, members)?;
    if are_resolved(at, members) {
        return mark_empty(store, at, group);
    }
    Ok(())
}

/// Removes the resolved members from the group.
fn drop_each_resolved(
    store: &mut Store,
    at: Moment,
    group: &RouteLabels,
    members: &[Member],
) -> Result<(), AllocError>
    ensures ok { OnOk result (store.new.state
        ≡ fold (drop_member group.now) store.old.state (resolved_of at members.now)) }
    ensures kept { before_open_record store.new ≡ before_open_record store.old }
    ensures grown { GrownBy (length members.now) store.old store.new }
{
    for (labels, alert) in members {
        if alert.get().is_resolved_at(at) {
            store.change(Change::OfMember(member_key(group, labels)?, None))?;
        }
    }
    Ok(())
}

/// Returns whether all members are resolved.
fn are_resolved(at: Moment, members: &[Member]) -> bool
    ensures { result ≡ list_all (λ member. is_resolved_at at member.1) members.now }
{
    for (_, alert) in members {
        if !alert.get().is_resolved_at(at) {
            return false;
        }
    }
    true
}

/// Marks a group as empty since a moment. Its timer is removed later, by the clean-up of groups.
fn mark_empty(store: &mut Store, at: Moment, group: &RouteLabels) -> Result<(), AllocError>
    ensures ok { OnOk result (store.new.state
        ≡ set_timer group.now (λ timer. record timer { empty_since = Some at }) store.old.state) }
    ensures kept { before_open_record store.new ≡ before_open_record store.old }
    ensures grown { GrownBy 1 store.old store.new }
{
    match store.timers().get(group).copied() {
        None => Ok(()),
        Some(timer) => {
            let empty = GroupTimer {
                empty_since: Some(at),
                ..timer
            };
            store.change(Change::OfTimer(group.clone()?, Some(empty)))
        }
    }
}
