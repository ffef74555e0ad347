//! Whether one group alone is flushed more often than an event may make moves. Such an event is
//! refused without making all its moves first, and keeping their notifications until they are
//! undone.
ghost use Rattle.std.specs.Prelude.{◌≡◌, ◌≤◌, ◌<◌, ◌+◌, true, length, IfOk, None};
ghost use Rattle.amr_engine.specs.State.State as state;
ghost use Rattle.amr_engine.specs.declared.state.notification.GroupTimer as specs;
ghost use Rattle.amr_engine.specs.Events.{move_limit};
ghost use Rattle.amr_engine.specs.Moves.{advance};
ghost use Rattle.amr_engine.specs.Quiet.{all_fire_until};
ghost use Rattle.amr_engine.specs.Lasting.{IsFlushedBeyond};

use crate::quiet_until::first_end;
use crate::state::{Member, Store};
use amr_config::RouteLabels;
use amr_time::Moment;
use std::alloc::AllocError;

/// The most moves that one event may make. It bounds the work of an event far in the future.
pub(crate) const MOST_MOVES: usize = 1_000_000;

/// Returns true only if one group alone is flushed more than `left` times up to a moment. It takes
/// the groups in the order of their numbers, since it needs no other.
#[tactic(auto, using(crate::proofs::Lasting::too_many))]
pub(crate) fn is_one_beyond(store: &Store, at: Moment, left: usize) -> Result<bool, AllocError>
    requires { left ≤ move_limit }
    ensures { IfOk result (λ beyond. beyond ≡ true → advance left at store.now.state ≡ None) }
{
    let timers = store.timers();
    for number in 0..timers.next_number() {
        let Some(group) = timers.key_at(number) else {
            continue;
        };
        if is_beyond(store, at, left, group)? {
            return Ok(true);
        }
    }
    Ok(false)
}

/// Returns true only if a group is flushed more than `left` times up to a moment. It looks at the
/// members only if the group timer says so.
fn is_beyond(
    store: &Store,
    at: Moment,
    left: usize,
    group: &RouteLabels,
) -> Result<bool, AllocError>
    requires { left ≤ move_limit }
    ensures { IfOk result (λ beyond. beyond ≡ true
        → (timer : specs.GroupTimer) × IsFlushedBeyond left store.now.state at group.now timer) }
{
    let Some(timer) = store.timers().get(group) else {
        return Ok(false);
    };
    if timer.empty_since.is_some() {
        return Ok(false);
    }
    let next = timer.next_flush.nanoseconds();
    if at.nanoseconds() < next {
        return Ok(false);
    }
    let interval = store.config().group_interval(group.route).nanoseconds();
    if at.nanoseconds() - next < left as u128 * interval as u128 {
        return Ok(false);
    }
    let members = store.members_of(group)?;
    Ok(do_all_fire(store, at, group, members.as_slice()))
}

/// Returns whether the group with these members has some, and all of them fire until after a
/// moment.
fn do_all_fire(store: &Store, at: Moment, group: &RouteLabels, members: &[Member]) -> bool
    requires { members.now ≡ state.members store.now.state group.now }
    ensures { result ≡ true → (0 < length (state.members store.now.state group.now))
        × (all_fire_until (at + 1) (state.members store.now.state group.now) ≡ true) }
{
    if members.is_empty() {
        return false;
    }
    let end = first_end(members, u128::MAX);
    if end <= at.nanoseconds() {
        return false;
    }
    true
}
