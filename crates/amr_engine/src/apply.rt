//! One event, applied in place: whether it is refused, the moves that are due before it, and its
//! action. `Engine::apply_noting` calls `attempt` with an empty open record, and puts the record back
//! if memory runs out.
ghost use Rattle.std.specs.Prelude.{◌≡◌, ◌≤◌, ◌+◌, ◌*◌, [], OnOk, IfOk, drop};
ghost use Rattle.amr_time.specs.Time.{latest_read};
ghost use Rattle.amr_engine.specs.State.Kept.{GrownBy, before_open_record};
ghost use Rattle.amr_engine.specs.CachedQuiet.{IsTrueOf};
ghost use Rattle.amr_engine.specs.Moves.{advance, moves_to};
ghost use Rattle.amr_engine.specs.Events.{move_limit, outcome_of};
ghost use Rattle.amr_engine.specs.Outcomes.{outcome_view};
ghost use Rattle.amr_engine.specs.Applied.{IsDone, run_moved};
ghost use Rattle.amr_engine.specs.Prepared.{after_prepared, skipped_by, entries_of};
ghost use Rattle.amr_engine.specs.Weight.{first_weight};
ghost use Rattle.amr_engine.specs.QuietMoves.{AreQuietMoves};
ghost use Rattle.amr_engine.specs.Kept.{IsLightIfDone, Settled};

use crate::moves::advance;
use crate::outcome::Outcome;
use crate::post::put_all;
use crate::prepare::{Prepared, prepare};
use crate::quiet::QuietGroups;
use crate::quiet_moves::QuietMoves;
use crate::reload::reload;
use crate::silencing::store_update;
use crate::state::{Change, Notification, Store};
use amr_events::actions::Event;
use amr_events::posts::Reason;
use amr_labels::{Listing, Shared};
use amr_time::Moment;
use std::alloc::{AllocError, Global};

/// Applies an event to the store in place. A refused event is undone. If an allocation fails, the
/// store is left half-changed: the caller must then put the open record back and clear
/// `quiet_groups`, which is what the engine caches of quiet groups. What `quiet_moves` holds and
/// notes is true of the state before the event.
pub(crate) fn attempt(
    store: &mut Store,
    quiet_groups: &mut QuietGroups,
    quiet_moves: &mut QuietMoves,
    event: &Event,
) -> Result<Outcome, AllocError>
    requires empty { store.old.current ≡ [] }
    requires cache { IsTrueOf quiet_groups.old store.old.state }
    requires quiet { AreQuietMoves quiet_moves.old store.old.state }
    ensures outcome { IfOk result (λ outcome. outcome_view outcome
        ≡ outcome_of store.old.state event.now) }
    ensures settled { IfOk result (λ outcome. Settled store.old event.now store.new outcome) }
    ensures kept { before_open_record store.new ≡ before_open_record store.old }
    ensures cache { OnOk result (IsTrueOf quiet_groups.new store.new.state) }
    ensures quiet { AreQuietMoves quiet_moves.new store.old.state }
{
    let earlier = store.notes().len();
    match apply_in_order(store, quiet_groups, quiet_moves, event)? {
        Ok(done) => {
            let notes = notes_from(store.alloc(), store.notes(), earlier)?;
            Ok(Outcome::Accepted {
                moves: done.moves,
                notes,
                skipped: done.skipped,
            })
        }
        Err(reason) => {
            store.undo_open();
            quiet_groups.clear();
            Ok(Outcome::Refused(reason))
        }
    }
}

/// What an accepted event did: how many moves it made, and the positions of the posted alerts that
/// it skipped, from 1.
#[derive(Drop)]
struct Done {
    moves: usize,
    skipped: Listing<usize>,
}

/// Prepares the event's action, makes the moves that are due up to the event, and performs the
/// action. The action's own reason is decided before the first move, so it counts before too many
/// moves. Does nothing for a label, whatever its moment.
fn apply_in_order(
    store: &mut Store,
    quiet_groups: &mut QuietGroups,
    quiet_moves: &mut QuietMoves,
    event: &Event,
) -> Result<Result<Done, Reason>, AllocError>
    requires cache { IsTrueOf quiet_groups.old store.old.state }
    requires quiet { AreQuietMoves quiet_moves.old store.old.state }
    ensures done { IfOk result (λ done. IsDone store.old.state event.now store.new.state done) }
    ensures kept { before_open_record store.new ≡ before_open_record store.old }
    ensures light { IfOk result (λ done. IsLightIfDone store.old event.now store.new done) }
    ensures cache { OnOk result (IsTrueOf quiet_groups.new store.new.state) }
    ensures quiet { AreQuietMoves quiet_moves.new store.old.state }
{
    let act = event.act();
    if act.is_label() {
        let skipped = Listing::new(store.alloc());
        return Ok(Ok(Done { moves: 0, skipped }));
    }
    let at = event.at();
    if at.nanoseconds() < store.moment().nanoseconds() {
        return Ok(Err(Reason::Backwards));
    }
    match prepare(store, at, act)? {
        Err(reason) => Ok(Err(reason)),
        Ok(prepared) => match advance_to(store, quiet_groups, quiet_moves, at)? {
            None => Ok(Err(Reason::TooManyMoves)),
            Some(moves) => {
                let skipped = perform(store, quiet_groups, prepared)?;
                Ok(Ok(Done { moves, skipped }))
            }
        },
    }
}

/// Makes every move due at or before `at`, then advances the clock to `at`. Returns the number of
/// moves, or `None` if more than 1,000,000 are due.
#[tactic(auto, using(crate::proofs::CachedQuiet::stays_true))]
fn advance_to(
    store: &mut Store,
    quiet_groups: &mut QuietGroups,
    quiet_moves: &mut QuietMoves,
    at: Moment,
) -> Result<Option<usize>, AllocError>
    requires late { at ≤ latest_read }
    requires cache { IsTrueOf quiet_groups.old store.old.state }
    requires quiet { AreQuietMoves quiet_moves.old store.old.state }
    ensures made { IfOk result (λ made. moves_to store.new.state made
        ≡ run_moved at (advance move_limit at store.old.state)) }
    ensures kept { before_open_record store.new ≡ before_open_record store.old }
    ensures grown { OnOk result (GrownBy (1 + 2 * first_weight move_limit at store.old.state)
        store.old store.new) }
    ensures cache { OnOk result (IsTrueOf quiet_groups.new store.new.state) }
    ensures quiet { AreQuietMoves quiet_moves.new store.old.state }
{
    let made = advance(store, quiet_groups, quiet_moves, at)?;
    store.change(Change::OfMoment(at))?;
    Ok(made)
}

/// Performs a prepared action. Returns the positions of the alerts that it skips, from 1. The cache
/// of quiet groups first forgets what the action may change, which is nothing for a tick.
fn perform(
    store: &mut Store,
    quiet_groups: &mut QuietGroups,
    prepared: Prepared<'_>,
) -> Result<Listing<usize>, AllocError>
    requires { IsTrueOf quiet_groups.old store.old.state }
    ensures done { IfOk result (λ skipped. store.new.state
        ≡ after_prepared prepared.entry store.old.state) }
    ensures skipped { IfOk result (λ skipped. skipped ≡ skipped_by prepared.entry store.old.state) }
    ensures kept { before_open_record store.new ≡ before_open_record store.old }
    ensures grown { OnOk result (GrownBy (entries_of prepared.entry store.old.state store.new.state)
        store.old store.new) }
    ensures cache { OnOk result (IsTrueOf quiet_groups.new store.new.state) }
{
    match prepared {
        Prepared::Put(posted) => return put_all(store, quiet_groups, posted),
        Prepared::Silence {
            id,
            new_id,
            silence_update,
        } => {
            quiet_groups.forget_muting();
            store_update(store, id, new_id, silence_update)?
        }
        Prepared::Expire { id, ended } => {
            quiet_groups.forget_muting();
            store.change(Change::OfSilence(id, Some(ended)))?
        }
        Prepared::Reload(config) => {
            quiet_groups.clear();
            reload(store, config)?
        }
        Prepared::Tick => {}
    }
    Ok(Listing::new(store.alloc()))
}

/// Returns the notifications of the transcript from an index on.
fn notes_from(
    alloc: Global,
    notes: &[Shared<Notification>],
    from: usize,
) -> Result<Listing<Shared<Notification>>, AllocError>
    ensures { IfOk result (λ added. added ≡ drop from notes.now) }
{
    if notes.len() < from {
        return Ok(Listing::new(alloc));
    }
    let mut added = Vec::with_capacity(alloc, notes.len() - from)?;
    for notification in &notes[from..] {
        added.push(notification.clone()?)?;
    }
    Ok(Listing::from_vec(added))
}
