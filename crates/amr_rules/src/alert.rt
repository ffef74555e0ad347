//! Alerts: filling in the times that a post leaves out, and merging a posted alert with the stored
//! one of the same labels. The engine calls these when it makes a post. Nothing here reads or
//! changes the state.
ghost use Rattle.std.specs.Prelude.{◌≡◌, ◌+◌, ◌<◌, IfOk, min, max, unwrap_or};
ghost use Rattle.std.specs.Option.{option_copied, option_or};
ghost use Rattle.amr_time.specs.Time.{before_year_10000};

use amr_events::posts::PostedAlert;
use amr_labels::{Labels, Shared, TextMap};
use amr_time::{Moment, Span};
use std::alloc::AllocError;

/// A stored alert without its labels.
#[derive(Drop)]
pub struct Alert {
    pub starts_at: Moment,
    /// The end of the alert. It is resolved from this moment on.
    pub ends_at: Moment,
    /// Whether the post gave no end, so that the end is the post plus `resolve_timeout`.
    pub timed_out: bool,
    pub annotations: TextMap,
    /// The moment of the last post with these labels. The removal of the alert counts from it.
    pub last_post: Moment,
}

ghost use Rattle.amr_rules.specs.Alerts.{completed_alert, alert_to_store, is_resolved_at, with_times, overlaps, old_end_counts, merged_alert};

impl Alert {
    /// Returns whether the alert is resolved at a moment: at its end and from then on.
    pub fn is_resolved_at(&self, moment: Moment) -> bool
        ensures { result ≡ is_resolved_at moment self.now }
    {
        self.ends_at <= moment
    }
}

/// Returns the alert of a post with its times filled in, as Alertmanager's API v2 does: a missing
/// start is the end if the post gives one, and else now; a missing end is now plus `timeout`
/// (`resolve_timeout` of the configuration).
fn with_times(now: Moment, timeout: Span, posted: &PostedAlert) -> Result<Alert, AllocError>
    requires { now + timeout < before_year_10000 }
    ensures { IfOk result (λ alert. alert ≡ with_times now timeout posted.now) }
{
    let (start, end) = (posted.starts_at.get(), posted.ends_at.get());
    Ok(Alert {
        starts_at: start.or(end).unwrap_or(now),
        ends_at: end.unwrap_or(now.plus(timeout)),
        timed_out: end.is_none(),
        annotations: posted.annotations.clone()?,
        last_post: now,
    })
}

/// Returns the labels and the alert of a post. Returns `None` if the post isn't valid: it has no
/// label, or an empty label name, or it ends before it starts (postable alerts of Alertmanager's
/// API v2).
#[tactic(auto, unfolding(crate::specs::Alerts::completed_alert))]
pub fn complete_alert(
    now: Moment,
    timeout: Span,
    posted: &PostedAlert,
) -> Result<Option<(Labels, Alert)>, AllocError>
    requires { now + timeout < before_year_10000 }
    ensures { IfOk result (λ alert. alert ≡ completed_alert now timeout posted.now) }
{
    let alert = with_times(now, timeout, posted)?;
    match posted.labels.label_set() {
        None => Ok(None),
        Some(labels) => {
            if labels.is_empty() || alert.ends_at < alert.starts_at {
                Ok(None)
            } else {
                Ok(Some((labels.clone()?, alert)))
            }
        }
    }
}

/// Returns whether the two alerts overlap, which is when a start or an end of the new alert lies
/// strictly inside the old one.
fn overlaps(old: &Alert, new: &Alert) -> bool
    ensures { result ≡ overlaps old.now new.now }
{
    old.starts_at < new.ends_at && new.ends_at < old.ends_at
        || old.starts_at < new.starts_at && new.starts_at < old.ends_at
}

/// Returns whether the old end counts in the merge. If the new alert is resolved, it counts if the
/// old alert is resolved too. Otherwise it counts unless it was only a timeout, which a new post
/// supersedes.
fn old_end_counts(now: Moment, old: &Alert, new: &Alert) -> bool
    ensures { result ≡ old_end_counts now old.now new.now }
{
    if new.is_resolved_at(now) {
        old.is_resolved_at(now)
    } else {
        !old.timed_out
    }
}

/// Returns the earlier of two moments.
fn earlier(a: Moment, b: Moment) -> Moment
    ensures { result ≡ min a b }
{
    if b < a { b } else { a }
}

/// Returns the later of two moments.
fn later(a: Moment, b: Moment) -> Moment
    ensures { result ≡ max a b }
{
    if a < b { b } else { a }
}

/// Merges a new alert with the stored one of the same labels, if there is one. If they overlap, the
/// result has the earlier start, and the later end if the stored end counts; otherwise the new alert
/// replaces the old. Annotations are always those of the new alert.
#[tactic(auto, unfolding(crate::specs::Alerts::alert_to_store))]
pub fn merge(now: Moment, stored: Option<&Shared<Alert>>, new: Alert) -> Alert
    ensures { result ≡ alert_to_store now (option_copied stored.entry) new }
{
    let Some(stored) = stored else {
        return new;
    };
    let stored = stored.get();
    let mut new = new;
    if overlaps(stored, &new) {
        if old_end_counts(now, stored, &new) {
            new.ends_at = later(stored.ends_at, new.ends_at);
        }
        new.starts_at = earlier(stored.starts_at, new.starts_at);
    }
    new
}
