//! A post of alerts: whether one is valid, before the moves of the event, and storing the valid ones
//! after. `state` merges them as `amr_rules` decides, and inserts them into their groups.
ghost use Rattle.std.specs.Prelude.{◌≡◌, ◌+◌, ◌<◌, ◌==◌, length, not, OnOk, IfOk};
ghost use Rattle.std.specs.List.{fold, filter_map};
ghost use Rattle.amr_time.specs.Time.{before_year_10000};
ghost use Rattle.amr_events.specs.Actions.Events.{Act as act};
ghost use Rattle.amr_rules.specs.Alerts.{completed_alert};
ghost use Rattle.amr_engine.specs.State.Kept.{GrownBy, before_open_record};
ghost use Rattle.amr_engine.specs.CachedQuiet.{IsTrueOf};
ghost use Rattle.amr_engine.specs.Events.{put, skipped_of, valid_alerts};
ghost use Rattle.amr_engine.specs.Weight.{alert_weight, alerts_weight};

use crate::quiet::QuietGroups;
use crate::state::{Store, insert_into_each};
use amr_events::posts::PostedAlert;
use amr_labels::{Labels, Listing};
use amr_rules::{Alert, complete_alert};
use amr_time::{Moment, Span};
use std::alloc::AllocError;

/// Returns whether an alert of a post is valid at a moment. It stops at the first that is.
pub(crate) fn has_valid(
    now: Moment,
    timeout: Span,
    posted: &[PostedAlert],
) -> Result<bool, AllocError>
    requires { now + timeout < before_year_10000 }
    ensures { IfOk result (λ has_valid. has_valid
        ≡ not (length (filter_map (completed_alert now timeout) posted.now) == 0)) }
{
    for alert in posted {
        if complete_alert(now, timeout, alert)?.is_some() {
            return Ok(true);
        }
    }
    Ok(false)
}

/// Stores a valid alert, merged with the stored one of its labels, and inserts it into its groups.
/// The cache of quiet groups forgets what that may change.
#[tactic(auto, unfolding(crate::specs::Events::put))]
fn put(
    store: &mut Store,
    quiet_groups: &mut QuietGroups,
    labels: &Labels,
    alert: Alert,
) -> Result<(), AllocError>
    requires { IsTrueOf quiet_groups.old store.old.state }
    ensures ok { OnOk result (store.new.state ≡ put store.old.state (labels.now, alert)) }
    ensures kept { before_open_record store.new ≡ before_open_record store.old }
    ensures grown { GrownBy (alert_weight store.old.state.config labels.now) store.old store.new }
    ensures cache { OnOk result (IsTrueOf quiet_groups.new store.new.state) }
{
    let (number, stored) = store.put_alert(labels, alert)?;
    let groups = store.groups_of(Some(number), labels)?;
    let groups = groups.get().as_slice();
    quiet_groups.forget_joined(groups);
    insert_into_each(store, groups, labels, &stored)
}

/// Stores the valid alerts of a post, in order. Returns the positions of the others, from 1. If it has
/// more alerts than there are groups that may be cached as quiet, it forgets all of these at once,
/// so that looking there for the groups of each alert takes next to no time.
pub(crate) fn put_all(
    store: &mut Store,
    quiet_groups: &mut QuietGroups,
    posted: &[PostedAlert],
) -> Result<Listing<usize>, AllocError>
    requires { IsTrueOf quiet_groups.old store.old.state }
    ensures ok { OnOk result (store.new.state
        ≡ fold put store.old.state (valid_alerts store.old.state posted.now)) }
    ensures skipped { IfOk result (λ skipped. skipped
        ≡ skipped_of store.old.state (act.Post posted.now)) }
    ensures kept { before_open_record store.new ≡ before_open_record store.old }
    ensures grown { GrownBy (alerts_weight store.old.state.config
        (valid_alerts store.old.state posted.now)) store.old store.new }
    ensures cache { OnOk result (IsTrueOf quiet_groups.new store.new.state) }
{
    if posted.len() > quiet_groups.known() {
        quiet_groups.clear();
    }
    let now = store.moment();
    let timeout = store.config().resolve_timeout();
    let mut skipped = Listing::new(store.alloc());
    for (index, alert) in posted.iter().enumerate() {
        match complete_alert(now, timeout, alert)? {
            Some((labels, alert)) => put(store, quiet_groups, &labels, alert)?,
            None => skipped.push(index + 1)?,
        }
    }
    Ok(skipped)
}
