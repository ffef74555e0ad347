//! Pending timers: when a stored alert or an empty group is removed and when a group is flushed,
//! and how a timer is named. `moves.rt` fires them; nothing is changed here.
ghost use Rattle.std.specs.Prelude.{◌≡◌};
ghost use Rattle.amr_engine.specs.State.Dues.{alert_removal_at, group_removal_at};

use crate::state::notification::GroupTimer;
use amr_config::RouteLabels;
use amr_labels::Labels;
use amr_rules::Alert;
use amr_time::{Moment, Span, next_multiple};
use std::marker::Model;

/// The kinds of timers, in the order in which those of one moment fire.
#[derive(Clone, Copy)]
pub enum Kind {
    AlertRemoval,
    GroupRemoval,
    GroupFlush,
}

/// What a timer does when it fires.
#[derive(Drop)]
pub enum Timer {
    /// It removes the stored alert with these labels.
    AlertRemoval(Labels),
    /// It removes this group, which is empty.
    GroupRemoval(RouteLabels),
    /// It flushes this group.
    GroupFlush(RouteLabels),
}

/// A pending timer.
#[derive(Drop)]
pub struct Due {
    /// When it fires, in nanoseconds since 1970.
    pub moment: u128,
    /// What it does then, and of which alert or group it is.
    pub timer: Timer,
}

impl Model for Due {
    ghost use Rattle.std.specs.Coded.{codes};
    ghost use Rattle.amr_labels.specs.Map as map;
    ghost use Rattle.amr_engine.specs.State.Dues.{Due, due_at};

    ghost Value = { Due };

    ghost coded = { Prim.hlevel (codes, map.code) };

    ghost view = { λ due. due_at due.moment due.timer };
}

/// Returns when a stored alert is removed, in nanoseconds since 1970: at the first multiple of 30
/// minutes, the interval of Alertmanager's alert garbage collection, that is after its last post
/// and not before its end.
pub(crate) fn alert_removal(alert: &Alert) -> u128
    ensures { result ≡ alert_removal_at alert.now }
{
    let end = alert.ends_at.nanoseconds().saturating_sub(1);
    let after = Moment::from_nanoseconds(alert.last_post.nanoseconds().max(end));
    next_multiple(after, Span::from_minutes(30))
}

/// Returns when an empty group is removed, in nanoseconds since 1970: at the first multiple of 30
/// seconds, the interval of the dispatcher's maintenance, after it became empty. Returns `None` if
/// the group has members.
pub(crate) fn group_removal(timer: &GroupTimer) -> Option<u128>
    ensures { result ≡ group_removal_at timer.now }
{
    let since = timer.empty_since?;
    Some(next_multiple(since, Span::from_seconds(30)))
}
