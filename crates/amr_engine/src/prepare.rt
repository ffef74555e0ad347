//! Preparing an event's action, before the moves: the reason that refuses it, or what it will do.
//! `apply.rt` calls `prepare` and performs the result after the moves. Nothing is stored here.
ghost use Rattle.std.specs.Prelude.{◌≤◌, ℕ, IfOk};
ghost use Rattle.amr_time.specs.Time.{latest_read};
ghost use Rattle.amr_events.specs.Actions.Acts.{act_of, by_number};
ghost use Rattle.amr_events.specs.Actions.Events.{Act as act};

use crate::post::has_valid;
use crate::state::Store;
use amr_config::Config;
use amr_events::actions::Act;
use amr_events::posts::{PostedAlert, PostedSilence, Reason, SilenceId};
use amr_rules::{Silence, SilenceUpdate, set_silence, silence_expire};
use amr_time::Moment;
use std::alloc::AllocError;

/// What an action will do after the moves of its event, as far as it is decided before them.
#[derive(Drop)]
pub(crate) enum Prepared<'a> {
    /// Stores the valid alerts of a post.
    Put(&'a [PostedAlert]),
    /// Stores what was decided of a post of a silence.
    Silence {
        id: Option<SilenceId>,
        new_id: SilenceId,
        silence_update: SilenceUpdate,
    },
    /// Stores the expired form of a silence.
    Expire {
        id: SilenceId,
        ended: Silence,
    },
    /// Replaces the configuration.
    Reload(Config),
    /// Changes nothing more, as a tick does.
    Tick,
}

ghost use Rattle.amr_engine.specs.State.State.{State};
ghost use Rattle.amr_engine.specs.Prepared.{IsPrepared};

/// Prepares an action at a moment, or returns the first reason against it.
#[tactic(auto, using(crate::proofs::Preparing::some_tick, crate::proofs::Preparing::some_label))]
pub(crate) fn prepare<'a>(
    store: &Store,
    at: Moment,
    act: &'a Act,
) -> Result<Result<Prepared<'a>, Reason>, AllocError>
    requires { at ≤ latest_read }
    ensures { IfOk result (λ prepared. IsPrepared store.now.state at (act_of act.now) prepared) }
{
    match act {
        Act::Post(posted) => prepare_post(store, at, posted.as_slice()),
        Act::Silence(posted) => prepare_silence(store, at, posted),
        Act::Expire(id) => prepare_expiry(store, at, *id),
        Act::Reload(read) => prepare_reload(read),
        Act::Tick => Ok(Ok(Prepared::Tick)),
        Act::Label(_) => Ok(Ok(Prepared::Tick)),
    }
}

/// Prepares a post of alerts. It is refused if no alert is valid.
#[tactic(auto, using(crate::proofs::Preparing::no_valid, crate::proofs::Preparing::some_valid))]
fn prepare_post<'a>(
    store: &Store,
    at: Moment,
    posted: &'a [PostedAlert],
) -> Result<Result<Prepared<'a>, Reason>, AllocError>
    requires { at ≤ latest_read }
    ensures { IfOk result
        (λ prepared. IsPrepared store.now.state at (act.Post posted.now) prepared) }
{
    let timeout = store.config().resolve_timeout();
    if !has_valid(at, timeout, posted)? {
        return Ok(Err(Reason::BadAlert));
    }
    Ok(Ok(Prepared::Put(posted)))
}

/// Prepares a post of a silence.
#[tactic(auto, using(crate::proofs::Preparing::no_silence, crate::proofs::Preparing::some_silence))]
fn prepare_silence(
    store: &Store,
    at: Moment,
    posted: &PostedSilence,
) -> Result<Result<Prepared<'static>, Reason>, AllocError>
    ensures { IfOk result
        (λ prepared. IsPrepared store.now.state at (act.Silence posted.now) prepared) }
{
    match set_silence(store.alloc(), at, posted, store.silences())? {
        Err(reason) => Ok(Err(reason)),
        Ok(silence_update) => Ok(Ok(Prepared::Silence {
            id: posted.id,
            new_id: posted.new_id,
            silence_update,
        })),
    }
}

/// Prepares the expiry of a silence. It is refused if no silence has the id.
#[tactic(auto, using(crate::proofs::Preparing::no_expiry, crate::proofs::Preparing::some_expiry))]
fn prepare_expiry(
    store: &Store,
    at: Moment,
    id: SilenceId,
) -> Result<Result<Prepared<'static>, Reason>, AllocError>
    ensures { IfOk result (λ prepared. IsPrepared store.now.state at (act.Expire id) prepared) }
{
    match store.silences().get(&id) {
        None => Ok(Err(Reason::UnknownSilence)),
        Some(silence) => {
            let ended = silence_expire(at, silence.clone()?);
            Ok(Ok(Prepared::Expire { id, ended }))
        }
    }
}

/// Prepares a reload. It is refused if the configuration was.
fn prepare_reload(
    read: &Result<Config, Reason>,
) -> Result<Result<Prepared<'static>, Reason>, AllocError>
    ensures { IfOk result (λ prepared. (s : State) (at : ℕ)
        → IsPrepared s at (act.Reload (by_number read.now)) prepared) }
{
    match read {
        Ok(config) => Ok(Ok(Prepared::Reload(config.clone()?))),
        Err(reason) => Ok(Err(*reason)),
    }
}
