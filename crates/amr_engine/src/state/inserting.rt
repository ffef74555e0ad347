//! Inserts alerts into their groups, as Alertmanager's dispatcher does: an alert goes to one group
//! on each route that takes it. A post and a change of the configuration call `insert_into_groups`.
//! It sets group timers, but flushes nothing.
ghost use Rattle.std.specs.Prelude.{◌≡◌, ◌+◌, ◌*◌, ◌≤◌, Some, length, true, OnOk, nat_lt};
ghost use Rattle.amr_config.specs.Routing.{chosen_routes};
ghost use Rattle.amr_config.specs.Groups.{group_at, groups_of};
ghost use Rattle.amr_labels.specs.Map as map;
ghost use Rattle.amr_time.specs.Time.{latest_read};
ghost use Rattle.amr_engine.specs.State.State.{timer_with, insert_into_group, insert_into_groups};
ghost use Rattle.amr_engine.specs.State.Kept.{GrownBy, before_open_record};

use crate::state::change::Change;
use crate::state::keys::member_key;
use crate::state::notification::GroupTimer;
use crate::state::store::Store;
use amr_config::RouteLabels;
use amr_labels::{Labels, Shared};
use amr_rules::Alert;
use amr_time::{Moment, Span};
use std::alloc::AllocError;

/// Inserts an alert into its group on each route that takes it.
pub fn insert_into_groups(
    store: &mut Store,
    labels: &Labels,
    alert: &Shared<Alert>,
) -> Result<(), AllocError>
    ensures ok { OnOk result (store.new.state
        ≡ insert_into_groups store.old.state (labels.now, alert.now)) }
    ensures kept { before_open_record store.new ≡ before_open_record store.old }
    ensures grown { GrownBy (2 * length (chosen_routes store.old.state.config labels.now))
        store.old store.new }
{
    let number = store.number_of(labels);
    let groups = store.groups_of(number, labels)?;
    insert_into_each(store, groups.get().as_slice(), labels, alert)
}

/// Inserts an alert into its groups, which are these.
pub(crate) fn insert_into_each(
    store: &mut Store,
    groups: &[RouteLabels],
    labels: &Labels,
    alert: &Shared<Alert>,
) -> Result<(), AllocError>
    requires { groups.now ≡ groups_of store.old.state.config labels.now }
    ensures ok { OnOk result (store.new.state
        ≡ insert_into_groups store.old.state (labels.now, alert.now)) }
    ensures kept { before_open_record store.new ≡ before_open_record store.old }
    ensures grown { GrownBy (2 * length (chosen_routes store.old.state.config labels.now))
        store.old store.new }
{
    for group in groups {
        insert_into_group(store, group, labels, alert)?;
    }
    Ok(())
}

/// Returns whether a group timer stays as it was. `before` is `None` if there was none.
fn stays(before: &Option<GroupTimer>, after: &GroupTimer) -> bool
    ensures { result ≡ true → before.now ≡ Some after.now }
{
    *before == Some(*after)
}

/// Sets a group timer that is `before` now. Does nothing if both are equal, as when an alert is
/// posted again whose group has it already.
fn change_timer(
    store: &mut Store,
    group: &RouteLabels,
    before: Option<GroupTimer>,
    after: GroupTimer,
) -> Result<(), AllocError>
    requires { before ≡ map.get store.old.state.timers group.now }
    ensures ok { OnOk result (store.new.state
        ≡ record store.old.state { timers = map.insert store.old.state.timers group.now after }) }
    ensures kept { before_open_record store.new ≡ before_open_record store.old }
    ensures grown { GrownBy 1 store.old store.new }
{
    if stays(&before, &after) {
        return Ok(());
    }
    store.change(Change::OfTimer(group.clone()?, Some(after)))
}

/// Inserts an alert into a group, and sets the group timer.
fn insert_into_group(
    store: &mut Store,
    group: &RouteLabels,
    labels: &Labels,
    alert: &Shared<Alert>,
) -> Result<(), AllocError>
    requires { group.now ≡ group_at store.old.state.config labels.now group.now.route }
    ensures ok { OnOk result (store.new.state
        ≡ insert_into_group labels.now alert.now store.old.state group.now.route) }
    ensures kept { before_open_record store.new ≡ before_open_record store.old }
    ensures grown { GrownBy 2 store.old store.new }
{
    let member = member_key(group, labels)?;
    let before = store.put_member(group, member, alert.clone()?)?;
    let wait = store.config().group_wait(group.route);
    let after = timer_with(store.moment(), wait, alert.get(), before);
    change_timer(store, group, before, after)
}

/// Returns the group timer after an alert is inserted. A new group is flushed first after
/// `group_wait`. If the alert's own wait is over, a group that was never flushed is flushed now, as
/// in Alertmanager's dispatcher.
fn timer_with(now: Moment, wait: Span, alert: &Alert, timer: Option<GroupTimer>) -> GroupTimer
    requires { now ≤ latest_read }
    ensures { result ≡ timer_with now wait alert.now timer }
{
    let is_over = has_waited(alert.starts_at, wait, now);
    let (flush, flushed) = match timer {
        None => (now.plus(wait), false),
        Some(timer) => (timer.next_flush, timer.flushed),
    };
    let next_flush = if !flushed && is_over { now } else { flush };
    GroupTimer {
        next_flush,
        flushed,
        empty_since: None,
    }
}

/// Returns whether `group_wait`, counted from the alert's start, is over before now.
fn has_waited(starts_at: Moment, wait: Span, now: Moment) -> bool
    ensures { result ≡ nat_lt (starts_at + wait) now }
{
    starts_at.nanoseconds() + (wait.nanoseconds() as u128) < now.nanoseconds()
}
