//! Posting a silence among the stored ones: `set_silence` decides what to store, or returns the
//! reason that refuses the post. The engine calls it before the moves of the event, and stores the
//! result after them.
ghost use Rattle.std.specs.Prelude.{◌≡◌, IfOk};
ghost use Rattle.std.specs.Option.{option_copied};
ghost use Rattle.std.specs.Ordering.{nat_cmp};
ghost use Rattle.amr_tables.specs.Numbered.{map_of};
ghost use Rattle.amr_rules.specs.Silences.{named_silence, with_update, after_post};
ghost use Rattle.amr_rules.specs.Silencing.{after_decision};

use crate::silence::Silence;
use crate::silence_update::{SilenceUpdate, decided_post};
use amr_events::posts::{PostedSilence, Reason, SilenceId};
use amr_tables::Keyed;
use amr_time::Moment;
use std::alloc::{AllocError, Global};

/// Decides what a post of a silence stores. Returns the first reason against it: the silence isn't
/// valid now, the post names a silence that isn't stored, or the id for a new silence is taken.
#[tactic(auto, unfolding(crate::specs::Silences::after_post))]
pub fn set_silence(
    alloc: Global,
    now: Moment,
    posted: &PostedSilence,
    silences: &Keyed<SilenceId, Silence>,
) -> Result<Result<SilenceUpdate, Reason>, AllocError>
    ensures { IfOk result
        (λ decision. after_decision posted.now (map_of nat_cmp silences.now) decision
        ≡ after_post now posted.now (map_of nat_cmp silences.now)) }
{
    let old = named(silences, posted);
    match decided_post(alloc, now, posted, old)? {
        None => Ok(Err(Reason::BadSilence)),
        Some(silence_update) => {
            if posted.id.is_some() && old.is_none() {
                Ok(Err(Reason::UnknownSilence))
            } else {
                Ok(with_free_id(silences, posted, silence_update))
            }
        }
    }
}

/// Returns the stored silence that a post names, if it names one.
fn named<'a>(silences: &'a Keyed<SilenceId, Silence>, posted: &PostedSilence) -> Option<&'a Silence>
    ensures { option_copied result ≡ named_silence posted.now (map_of nat_cmp silences.now) }
{
    silences.get(&posted.id?)
}

/// Returns what a post stores. Fails if that is a new silence and its id is taken.
fn with_free_id(
    silences: &Keyed<SilenceId, Silence>,
    posted: &PostedSilence,
    silence_update: SilenceUpdate,
) -> Result<SilenceUpdate, Reason>
    ensures { after_decision posted.now (map_of nat_cmp silences.now) result
        ≡ with_update posted.now (map_of nat_cmp silences.now) silence_update }
{
    match silence_update {
        SilenceUpdate::InPlace(silence) => Ok(SilenceUpdate::InPlace(silence)),
        SilenceUpdate::New(silence, old) => {
            if silences.get(&posted.new_id).is_some() {
                Err(Reason::SilenceIdTaken)
            } else {
                Ok(SilenceUpdate::New(silence, old))
            }
        }
    }
}
