//! The moves of an event: the timers that fire at or before a moment, the earliest first. A move is
//! the removal of an alert, the removal of a group, or the flush of a group (`flush.rt`).
ghost use Rattle.std.specs.Prelude.{◌≡◌, ◌≤◌, ◌+◌, ◌-◌, ◌*◌, true, length, OnOk, IfOk};
ghost use Rattle.amr_time.specs.Time.{latest_read};
ghost use Rattle.amr_engine.specs.State.Kept.{GrownBy, before_open_record};
ghost use Rattle.amr_engine.specs.CachedQuiet.{IsTrueOf};
ghost use Rattle.amr_engine.specs.Moves.{move, advance, counted_run, moves_to};
ghost use Rattle.amr_engine.specs.Events.{move_limit};
ghost use Rattle.amr_engine.specs.Weight.{move_weight, first_weight};
ghost use Rattle.amr_engine.specs.Calm.{IsPartMade, weight_left};
ghost use Rattle.amr_engine.specs.QuietMoves.{OnlySets, AreQuietMoves};

use crate::calm::make_at_once;
use crate::flush::{flush, reset_timer};
use crate::quiet::QuietGroups;
use crate::quiet_moves::QuietMoves;
use crate::state::{Change, Due, Store, Timer};
use crate::too_many::{MOST_MOVES, is_one_beyond};
use amr_time::Moment;
use std::alloc::AllocError;

/// After how many moves an event looks at all groups at the earliest.
const FEWEST_BEFORE_LOOK: usize = 64;

/// Makes every move due at or before a moment, and returns how many there were. Returns `None` if
/// there are more than `MOST_MOVES`, which it may find out before it makes so many; the caller then
/// undoes those that were made. Moves that `quiet_moves` knows to set a group timer alone do just
/// that, and it notes of the others whether they do.
pub(crate) fn advance(
    store: &mut Store,
    quiet_groups: &mut QuietGroups,
    quiet_moves: &mut QuietMoves,
    at: Moment,
) -> Result<Option<usize>, AllocError>
    requires late { at ≤ latest_read }
    requires cache { IsTrueOf quiet_groups.old store.old.state }
    requires quiet { AreQuietMoves quiet_moves.old store.old.state }
    ensures ok { IfOk result (λ made. moves_to store.new.state made
        ≡ counted_run (advance move_limit at store.old.state)) }
    ensures kept { before_open_record store.new ≡ before_open_record store.old }
    ensures grown { OnOk result (GrownBy (2 * first_weight move_limit at store.old.state)
        store.old store.new) }
    ensures cache { OnOk result (IsTrueOf quiet_groups.new store.new.state) }
    ensures quiet { AreQuietMoves quiet_moves.new store.old.state }
{
    let mut look = Look::new(store);
    let mut made: usize = 0;
    while let Some(due) = store.next_due(at)? {
        if made >= MOST_MOVES {
            return Ok(None);
        }
        let is_quiet = make(store, quiet_groups, due, quiet_moves.is_quiet(made))?;
        // (without memory for it, neither this move nor those after it are noted)
        let _forgotten = quiet_moves.note(made, is_quiet);
        made += 1;
        let Some(more) = look_ahead(store, quiet_groups, &mut look, at, made)? else {
            return Ok(None);
        };
        made += more;
    }
    Ok(Some(made))
}

/// When an event next looks at all groups, counted in moves: first after two moves for each group,
/// but at least `FEWEST_BEFORE_LOOK`, and each time that a look doesn't pay, after twice as many.
#[derive(Drop)]
struct Look {
    wait: usize,
    next: usize,
}

impl Look {
    /// Builds it for an event before its first move.
    fn new(store: &Store) -> Look {
        let wait = store.timers().next_number().saturating_mul(2);
        let wait = wait.max(FEWEST_BEFORE_LOOK);
        Look { wait, next: wait }
    }

    /// Puts the next look off, given how many moves the last one was worth.
    fn put_off(&mut self, made: usize, worth: usize) {
        if worth < self.wait {
            self.wait = self.wait.saturating_mul(2);
        }
        self.next = made.saturating_add(worth).saturating_add(self.wait);
    }
}

/// Looks at all groups if it is time to: whether one alone is flushed too often, and which moves can
/// be made at once. Returns how many it made, or `None` if more than are left after `made` are due.
fn look_ahead(
    store: &mut Store,
    quiet_groups: &QuietGroups,
    look: &mut Look,
    at: Moment,
    made: usize,
) -> Result<Option<usize>, AllocError>
    requires late { at ≤ latest_read }
    requires within { made ≤ move_limit }
    requires cache { IsTrueOf quiet_groups.now store.old.state }
    ensures made { IfOk result (λ more.
        IsPartMade (move_limit - made) at store.old.state store.new.state more) }
    ensures kept { before_open_record store.new ≡ before_open_record store.old }
    ensures grown { IfOk result (λ more. length store.new.current
        + 2 * weight_left (move_limit - made) at store.new.state more
        ≤ length store.old.current + 2 * first_weight (move_limit - made) at store.old.state) }
    ensures cache { OnOk result (IsTrueOf quiet_groups.now store.new.state) }
{
    if made < look.next {
        return Ok(Some(0));
    }
    let left = MOST_MOVES - made;
    if is_one_beyond(store, at, left)? {
        return Ok(None);
    }
    let more = make_at_once(store, quiet_groups, at, left)?;
    look.put_off(made, more.unwrap_or(0));
    Ok(more)
}

/// Fires a timer: removes an alert or a group, or flushes a group. Returns whether this is known to
/// have set a group timer alone.
fn fire(store: &mut Store, quiet_groups: &mut QuietGroups, due: Due) -> Result<bool, AllocError>
    requires late { due.moment ≤ latest_read }
    requires cache { IsTrueOf quiet_groups.old store.old.state }
    ensures ok { OnOk result (store.new.state ≡ move due store.old.state) }
    ensures quiet { IfOk result (λ quiet. quiet ≡ true → OnlySets store.old.state due) }
    ensures kept { before_open_record store.new ≡ before_open_record store.old }
    ensures grown { GrownBy (2 * move_weight store.old.state due due.kind) store.old store.new }
    ensures cache { OnOk result (IsTrueOf quiet_groups.new store.new.state) }
{
    let Due { moment, timer } = due;
    match timer {
        Timer::AlertRemoval(labels) => {
            quiet_groups.alert_leaves(store, &labels);
            store.change(Change::OfAlert(labels, None))?;
            Ok(false)
        }
        Timer::GroupRemoval(group) => {
            store.change(Change::OfTimer(group, None))?;
            Ok(false)
        }
        Timer::GroupFlush(group) => {
            let at = Moment::from_nanoseconds(moment);
            flush(store, quiet_groups, at, &group)
        }
    }
}

/// Makes a move, at its own moment and not at the event's. If the move is known to only set a group
/// timer, it does just that. Returns whether the move is known to have done only that.
#[tactic(auto, using(crate::proofs::CachedQuiet::reset_true))]
fn make(
    store: &mut Store,
    quiet_groups: &mut QuietGroups,
    due: Due,
    is_quiet: bool,
) -> Result<bool, AllocError>
    requires late { due.moment ≤ latest_read }
    requires cache { IsTrueOf quiet_groups.old store.old.state }
    requires quiet { is_quiet ≡ true → OnlySets store.old.state due }
    ensures ok { OnOk result (store.new.state ≡ move due store.old.state) }
    ensures quiet { IfOk result (λ quiet. quiet ≡ true → OnlySets store.old.state due) }
    ensures kept { before_open_record store.new ≡ before_open_record store.old }
    ensures grown { GrownBy (2 * move_weight store.old.state due due.kind) store.old store.new }
    ensures cache { OnOk result (IsTrueOf quiet_groups.new store.new.state) }
{
    match due {
        Due {
            moment,
            timer: Timer::GroupFlush(group),
        } if is_quiet => {
            reset_timer(store, Moment::from_nanoseconds(moment), &group)?;
            Ok(true)
        }
        due => fire(store, quiet_groups, due),
    }
}
