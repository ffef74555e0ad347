//! Many moves at once. While nothing is due but flushes of groups that stay quiet, each group's timer
//! is set once, past the last moment of which that is known, however often the group is flushed
//! before. `moves.rt` looks for this after some moves of an event, since few events make so many.
ghost use Rattle.std.specs.Prelude.{◌≡◌, ◌≤◌, ◌<◌, ◌+◌, ◌*◌, ◌-◌, ◌/◌, ℕ, length, OnOk, IfOk, IfSome};
ghost use Rattle.amr_time.specs.Time.{latest_read};
ghost use Rattle.amr_engine.specs.State.Kept.{GrownBy, before_open_record};
ghost use Rattle.amr_engine.specs.declared.quiet.QuietGroups.{QuietGroups as cached};
ghost use Rattle.amr_engine.specs.CachedQuiet.{IsTrueOf};
ghost use Rattle.amr_engine.specs.Moves.{advance, counted_run, moves_to};
ghost use Rattle.amr_engine.specs.Weight.{first_weight};
ghost use Rattle.amr_engine.specs.Calm.{AreNoneRemoved, IsCalm, IsQuietBeyond, IsPartMade, weight_left};

use crate::flush::reset_timer;
use crate::quiet::QuietGroups;
use crate::state::{Due, GroupTimer, Store, Timer};
use amr_config::RouteLabels;
use amr_time::{Moment, Span};
use std::alloc::AllocError;

/// Makes at once those of the moves up to a moment that are flushes of groups that stay quiet, and
/// before which no other is due. Returns how many it made, or `None` if more than `left` are due.
pub(crate) fn make_at_once(
    store: &mut Store,
    quiet_groups: &QuietGroups,
    at: Moment,
    left: usize,
) -> Result<Option<usize>, AllocError>
    requires late { at ≤ latest_read }
    requires cache { IsTrueOf quiet_groups.now store.old.state }
    ensures made { IfOk result (λ made. IsPartMade left at store.old.state store.new.state made) }
    ensures kept { before_open_record store.new ≡ before_open_record store.old }
    ensures grown { IfOk result (λ made. length store.new.current
        + 2 * weight_left left at store.new.state made
        ≤ length store.old.current + 2 * first_weight left at store.old.state) }
    ensures cache { OnOk result (IsTrueOf quiet_groups.now store.new.state) }
{
    match calm_until(store, quiet_groups, at) {
        None => Ok(Some(0)),
        Some(until) => {
            let made = make_calm_moves(store, until, left)?;
            Ok(made)
        }
    }
}

/// Returns the last moment up to which nothing is due but flushes of groups that are cached as quiet
/// until after it, if such a moment is found. It isn't later than `at`.
fn calm_until(store: &Store, quiet_groups: &QuietGroups, at: Moment) -> Option<Moment>
    requires late { at ≤ latest_read }
    requires cache { IsTrueOf quiet_groups.now store.now.state }
    ensures { IfSome result (λ until. (until ≤ at) × IsCalm until store.now.state) }
{
    let end = calm_end(store, quiet_groups, at);
    if end == 0 {
        return None;
    }
    let until = Moment::from_nanoseconds(end - 1);
    if store.is_removal_due(until) {
        return None;
    }
    Some(until)
}

/// Returns until when all groups that are flushed are cached as quiet, in nanoseconds since 1970. It
/// looks no further than `at`. It takes no memory.
fn calm_end(store: &Store, quiet_groups: &QuietGroups, at: Moment) -> u128
    requires { IsTrueOf quiet_groups.now store.now.state }
    ensures within { result ≤ at + 1 }
    ensures calm { (last : ℕ) → last < result
        → AreNoneRemoved last store.now.state.alerts store.now.state.timers
        → IsCalm last store.now.state }
{
    let mut end = at.nanoseconds() + 1;
    let timers = store.timers();
    for number in 0..timers.next_number() {
        let Some(group) = timers.key_at(number) else {
            continue;
        };
        let Some(timer) = timers.at(number) else {
            continue;
        };
        end = end.min(calm_end_of(store, quiet_groups, group, timer));
    }
    end
}

/// Returns until when each flush of a group with this timer is known to be quiet, in nanoseconds
/// since 1970.
fn calm_end_of(
    store: &Store,
    quiet_groups: &QuietGroups,
    group: &RouteLabels,
    timer: &GroupTimer,
) -> u128
    requires { IsTrueOf quiet_groups.now store.now.state }
    ensures { (last : ℕ) → last < result → timer.now.next_flush ≤ last
        → IsQuietBeyond last store.now.state group.now timer.now }
{
    if store.config().group_interval(group.route).nanoseconds() == 0 {
        return timer.next_flush.nanoseconds();
    }
    quiet_groups.quiet_from(group, timer.next_flush)
}

/// Makes every move due at or before a moment, which are all flushes of groups that stay quiet.
/// Returns how many there were, or `None` if there are more than `left`.
fn make_calm_moves(store: &mut Store, at: Moment, left: usize) -> Result<Option<usize>, AllocError>
    requires late { at ≤ latest_read }
    requires calm { IsCalm at store.old.state }
    ensures made { IfOk result (λ made. moves_to store.new.state made
        ≡ counted_run (advance left at store.old.state)) }
    ensures within { IfOk result (λ made. IfSome made (λ moves. moves ≤ left)) }
    ensures kept { before_open_record store.new ≡ before_open_record store.old }
    ensures grown { OnOk result (GrownBy (2 * first_weight left at store.old.state)
        store.old store.new) }
    ensures cache { OnOk result ((cache : cached) → IsTrueOf cache store.old.state
        → IsTrueOf cache store.new.state) }
{
    let mut made: usize = 0;
    while let Some(due) = store.next_due(at)? {
        let Due { moment, timer } = due;
        let Timer::GroupFlush(group) = timer else {
            unreachable!()
        };
        let interval = store.config().group_interval(group.route);
        let flushes = flushes_until(moment, at, interval);
        if flushes > (left - made) as u128 {
            return Ok(None);
        }
        reset_timer(store, last_flush(moment, at, interval), &group)?;
        made += flushes as usize;
    }
    Ok(Some(made))
}

/// Returns how often a group is flushed up to a moment, first at `next`.
fn flushes_until(next: u128, at: Moment, interval: Span) -> u128
    requires due { next ≤ at }
    requires apart { 0 < interval }
    ensures { result ≡ (at - next) / interval + 1 }
{
    (at.nanoseconds() - next) / u128::from(interval.nanoseconds()) + 1
}

/// Returns the moment of the last flush of a group up to a moment, if it is flushed first at `next`.
fn last_flush(next: u128, at: Moment, interval: Span) -> Moment
    requires due { next ≤ at }
    requires apart { 0 < interval }
    ensures { result ≡ next + (at - next) / interval * interval }
{
    let since = (at.nanoseconds() - next) % u128::from(interval.nanoseconds());
    Moment::from_nanoseconds(at.nanoseconds() - since)
}
