//! Storing a posted silence. What is stored was decided by `amr_rules::set_silence`, before the
//! moves of the event.
ghost use Rattle.std.specs.Prelude.{◌≡◌, OnOk};
ghost use Rattle.amr_rules.specs.Silences.{stored_under};
ghost use Rattle.amr_rules.specs.Silencing.{update_stored};
ghost use Rattle.amr_engine.specs.State.Kept.{GrownBy, before_open_record};
ghost use Rattle.amr_engine.specs.Events.{with_silences};

use crate::state::{Change, Store};
use amr_events::posts::SilenceId;
use amr_rules::{Silence, SilenceUpdate};
use std::alloc::AllocError;

/// Stores what was decided of a post of a silence. `id` is that of the silence it names, and
/// `new_id` that of a new one.
pub(crate) fn store_update(
    store: &mut Store,
    id: Option<SilenceId>,
    new_id: SilenceId,
    silence_update: SilenceUpdate,
) -> Result<(), AllocError>
    ensures ok { OnOk result (store.new.state
        ≡ with_silences store.old.state
        (update_stored id new_id silence_update store.old.state.silences)) }
    ensures kept { before_open_record store.new ≡ before_open_record store.old }
    ensures grown { GrownBy 2 store.old store.new }
{
    match silence_update {
        SilenceUpdate::InPlace(silence) => store_under(store, id, Some(silence)),
        SilenceUpdate::New(silence, old) => {
            store_under(store, id, old)?;
            store.change(Change::OfSilence(new_id, Some(silence)))
        }
    }
}

/// Stores a silence under an id, if there are both.
fn store_under(
    store: &mut Store,
    id: Option<SilenceId>,
    silence: Option<Silence>,
) -> Result<(), AllocError>
    ensures ok { OnOk result (store.new.state
        ≡ with_silences store.old.state (stored_under id silence store.old.state.silences)) }
    ensures kept { before_open_record store.new ≡ before_open_record store.old }
    ensures grown { GrownBy 1 store.old store.new }
{
    match (id, silence) {
        (Some(id), Some(silence)) => store.change(Change::OfSilence(id, Some(silence))),
        _ => Ok(()),
    }
}
