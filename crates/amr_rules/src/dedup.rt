//! The notification log's dedup check, after `needsUpdate` in Alertmanager's notify package:
//! whether the notification log is due for a new entry. A flush calls `needs_update` for each
//! integration.
ghost use Rattle.std.specs.Prelude.{◌≡◌, ◌+◌, nat_lt, IfOk, IfSome, map, not, Some, Bool, true};
ghost use Rattle.std.specs.List.{filter, list_all};
ghost use Rattle.std.specs.Option.{option_map};
ghost use Rattle.amr_labels.specs.Map.{empty};
ghost use Rattle.amr_labels.specs.Set as set;

use crate::alert::Alert;
use crate::label_sets::LabelSets;
use amr_labels::{Labels, Shared};
use amr_time::{Moment, Span};
use std::alloc::{AllocError, Global};

/// An entry of the notification log: the alerts of a group for which an integration was last due.
/// It is also written, and nobody notified, if only resolved alerts are left and the integration
/// doesn't send them.
#[derive(Drop)]
pub struct LogEntry {
    pub time: Moment,
    /// The label sets of the alerts that fired.
    pub firing: LabelSets,
    /// The label sets of the alerts that were resolved.
    pub resolved: LabelSets,
}

impl LogEntry {
    /// Builds the entry for a notification at a moment about these alerts.
    pub fn of_alerts(
        alloc: Global,
        time: Moment,
        alerts: &[(Labels, Shared<Alert>)],
    ) -> Result<LogEntry, AllocError>
        ensures time { IfOk result (λ entry. entry.time ≡ time) }
        ensures firing { IfOk result (λ entry. entry.firing ≡ set.from_list (map (λ alert. alert.0)
            (filter (λ alert. not (is_resolved_at time alert.1)) alerts.now))) }
        ensures resolved { IfOk result (λ entry. entry.resolved ≡ set.from_list
            (map (λ alert. alert.0) (filter (λ alert. is_resolved_at time alert.1) alerts.now))) }
    {
        let mut firing = LabelSets::new(alloc);
        let mut resolved = LabelSets::new(alloc);
        for (labels, alert) in alerts {
            if alert.get().is_resolved_at(time) {
                resolved.insert(labels.clone()?)?;
            } else {
                firing.insert(labels.clone()?)?;
            }
        }
        Ok(LogEntry {
            time,
            firing,
            resolved,
        })
    }
}

ghost use Rattle.amr_rules.specs.Alerts.{is_resolved_at};
ghost use Rattle.amr_rules.specs.Dedup.{differs, needs_update};

/// Returns whether the log is due for a new entry, which comes with a notification unless there is
/// nothing to send. Without an entry, something has to fire. With one, something new has to fire,
/// or nothing fires any more, or something new is resolved and the integration sends resolved
/// alerts (`send_resolved`), or the entry is older than `repeat_interval`. If nothing fires any
/// more the answer doesn't depend on `send_resolved`, so that the entry is cleared.
#[tactic(auto, unfolding(crate::specs::Dedup::needs_update))]
pub fn needs_update(
    entry: Option<&Shared<LogEntry>>,
    firing: &LabelSets,
    resolved: &LabelSets,
    send_resolved: bool,
    now: Moment,
    repeat_interval: Span,
) -> bool
    ensures { result ≡ needs_update (option_map (λ entry. entry.now) entry.entry)
        firing.now resolved.now send_resolved now repeat_interval }
{
    match entry {
        None => !firing.is_empty(),
        Some(entry) => differs(
            entry.get(),
            firing,
            resolved,
            send_resolved,
            now,
            repeat_interval,
        ),
    }
}

/// Returns whether a new entry is due, given the last one.
fn differs(
    entry: &LogEntry,
    firing: &LabelSets,
    resolved: &LabelSets,
    send_resolved: bool,
    now: Moment,
    repeat_interval: Span,
) -> bool
    ensures { result ≡ differs entry.now firing.now resolved.now send_resolved now repeat_interval }
{
    if !is_subset(firing, &entry.firing) {
        return true;
    }
    if firing.is_empty() {
        return !entry.firing.is_empty();
    }
    send_resolved && !is_subset(resolved, &entry.resolved)
        || is_before(entry.time, repeat_interval, now)
}

/// Returns whether a new entry is due, given the last one, while these alerts fire and none is
/// resolved. It answers as `needs_update` does for the set of their labels, which it doesn't make.
pub fn is_due_while_firing(
    entry: &LogEntry,
    firing: &[(Labels, Shared<Alert>)],
    now: Moment,
    repeat_interval: Span,
) -> bool
    ensures { (send_resolved : Bool) → result ≡ needs_update (Some entry.now)
        (set.from_list (map (λ alert. alert.0) firing.now)) empty send_resolved now
        repeat_interval }
{
    if firing.is_empty() {
        return !entry.firing.is_empty();
    }
    !has_each(&entry.firing, firing) || is_before(entry.time, repeat_interval, now)
}

/// Returns whether the labels of each of these alerts are in a set. Alerts in the order of a set
/// that has their labels alone take one comparison each.
fn has_each(fired: &LabelSets, alerts: &[(Labels, Shared<Alert>)]) -> bool
    ensures { result ≡ list_all (set.contains fired.now) (map (λ alert. alert.0) alerts.now) }
{
    let items = fired.as_slice();
    for (index, (labels, _)) in alerts.iter().enumerate() {
        if !has(fired, labels, items.get(index)) {
            return false;
        }
    }
    true
}

/// Returns whether each label set of `a` is in `b`. Equal sets take one comparison for each.
fn is_subset(a: &LabelSets, b: &LabelSets) -> bool
    ensures { result ≡ set.is_subset a.now b.now }
{
    let items = b.as_slice();
    for (index, labels) in a.as_slice().iter().enumerate() {
        if !has(b, labels, items.get(index)) {
            return false;
        }
    }
    true
}

/// Returns whether labels are in a set. It looks for them only if they aren't this item of it.
fn has(label_sets: &LabelSets, labels: &Labels, item: Option<&Labels>) -> bool
    requires { IfSome item (λ item. set.contains label_sets.now item.now ≡ true) }
    ensures { result ≡ set.contains label_sets.now labels.now }
{
    if let Some(next) = item {
        if labels == next {
            return true;
        }
    }
    label_sets.contains(labels)
}

/// Returns whether a moment plus a span is strictly before now.
fn is_before(moment: Moment, span: Span, now: Moment) -> bool
    ensures { result ≡ nat_lt (moment + span) now }
{
    moment.nanoseconds() + u128::from(span.nanoseconds()) < now.nanoseconds()
}
