//! Deciding a post of a silence: whether it is valid, and whether it updates the stored silence it
//! names or creates a new one. `silencing.rt` calls `decided_post`. Nothing is stored here.
ghost use Rattle.std.specs.Prelude.{◌≡◌, ◌==◌, ◌&&◌, ◌||◌, IfOk, ok_or, option_map, nat_lt, nat_le};
ghost use Rattle.std.specs.List.{list_any};
ghost use Rattle.std.specs.Option.{option_copied, option_map_or};
ghost use Rattle.std.specs.Ordering.{eq_by_cmp};
ghost use Rattle.std.specs.Cmp.Lexicographic.{slice_cmp};
ghost use Rattle.amr_labels.specs.Map as map;
ghost use Rattle.amr_labels.specs.Matcher.Matchers.{matcher_cmp};

use crate::silence::{Silence, silence_expire};
use amr_events::posts::PostedSilence;
use amr_labels::Labels;
use amr_labels::matcher::{Matcher, Matchers, Operator};
use amr_time::Moment;
use std::alloc::{AllocError, Global};

/// What a post of a silence stores.
#[derive(Drop)]
pub enum SilenceUpdate {
    /// The stored silence that the post names is updated to this one, and keeps its id.
    InPlace(Silence),
    /// The silence is stored under a new id. The second is the stored silence that the post names,
    /// if it names one, in its expired form.
    New(Silence, Option<Silence>),
}

ghost use Rattle.amr_events.specs.Posts.Reasons.{reason_number};
ghost use Rattle.amr_events.specs.declared.posts.reason.Reason.TheVariants.{BadSilence};
ghost use Rattle.amr_rules.specs.Silences.{is_negative, narrows, posted_silence, changes_in_place, from_now, update_over, decided_post};

/// Decides what a post of a silence stores, given the stored silence that it names (postable
/// silences of Alertmanager's API v2). Returns `None` if the silence isn't valid now.
#[tactic(auto, unfolding(crate::specs::Silences::decided_post))]
pub(crate) fn decided_post(
    alloc: Global,
    now: Moment,
    posted: &PostedSilence,
    old: Option<&Silence>,
) -> Result<Option<SilenceUpdate>, AllocError>
    ensures { IfOk result (λ silence_update. ok_or silence_update
        (reason_number BadSilence)
        ≡ decided_post now posted.now (option_copied old.entry)) }
{
    match &posted.matchers {
        None => Ok(None),
        Some(matchers) => {
            let silence = Silence {
                matchers: matchers.clone()?,
                starts_at: posted.starts_at,
                ends_at: posted.ends_at,
            };
            if may_be_posted(alloc, now, &silence)? {
                Ok(Some(update_over(now, old, silence)?))
            } else {
                Ok(None)
            }
        }
    }
}

/// Returns what a valid post stores: an update of the stored silence it names if that is possible,
/// and else a new silence, with the stored one expired.
fn update_over(
    now: Moment,
    old: Option<&Silence>,
    silence: Silence,
) -> Result<SilenceUpdate, AllocError>
    ensures { IfOk result (λ silence_update. silence_update
        ≡ update_over now (option_copied old.entry) silence) }
{
    match old {
        None => Ok(SilenceUpdate::New(from_now(now, silence), None)),
        Some(old) => {
            if changes_in_place(now, old, &silence) {
                Ok(SilenceUpdate::InPlace(silence))
            } else {
                let expired = silence_expire(now, old.clone()?);
                Ok(SilenceUpdate::New(from_now(now, silence), Some(expired)))
            }
        }
    }
}

/// Returns the silence with its start moved to now if it is in the past.
fn from_now(now: Moment, silence: Silence) -> Silence
    ensures { result ≡ from_now now silence }
{
    let mut silence = silence;
    if silence.starts_at < now {
        silence.starts_at = now;
    }
    silence
}

/// Returns whether a stored silence may be updated in place: its matchers don't change, and, if it
/// is active, the second of its start doesn't either; a pending one may start at any moment from
/// now on.
fn changes_in_place(now: Moment, old: &Silence, new: &Silence) -> bool
    ensures { result ≡ changes_in_place now old.now new.now }
{
    are_same(&old.matchers, &new.matchers)
        && (old.is_active_at(now)
            && old.starts_at.in_same_second(new.starts_at)
            && now <= new.ends_at
            || old.is_pending_at(now) && now <= new.starts_at)
}

/// Returns whether two silences have the same matchers, in the same order.
#[tactic(auto, using(amr_labels::proofs::EqualLists::pointwise_by_cmp))]
fn are_same(matchers: &Matchers, others: &Matchers) -> bool
    ensures { result ≡ eq_by_cmp (slice_cmp matcher_cmp) matchers.now others.now }
{
    matchers == others
}

/// Returns whether a silence may be posted now: some matcher narrows it, it starts before it ends,
/// and it doesn't end in the past.
fn may_be_posted(alloc: Global, now: Moment, silence: &Silence) -> Result<bool, AllocError>
    ensures { IfOk result (λ may. may ≡ (list_any narrows silence.now.matchers
        && nat_lt silence.now.starts_at silence.now.ends_at && nat_le now silence.now.ends_at)) }
{
    if !some_narrows(alloc, silence.matchers.as_slice())? {
        return Ok(false);
    }
    Ok(silence.starts_at < silence.ends_at && now <= silence.ends_at)
}

/// Returns whether some matcher narrows what the silence mutes.
fn some_narrows(alloc: Global, matchers: &[Matcher]) -> Result<bool, AllocError>
    ensures { IfOk result (λ found. found ≡ list_any narrows matchers.now) }
{
    let none = Labels::empty(alloc)?;
    for matcher in matchers {
        if narrows(alloc, matcher, &none)? {
            return Ok(true);
        }
    }
    Ok(false)
}

/// Returns whether a matcher is negative or doesn't match the empty value. Alertmanager refuses a
/// silence without such a matcher, since it could mute every alert. `none` is the label set without
/// labels.
fn narrows(alloc: Global, matcher: &Matcher, none: &Labels) -> Result<bool, AllocError>
    requires { none.now ≡ map.empty }
    ensures { IfOk result (λ found. found ≡ narrows matcher.now) }
{
    if is_negative(matcher.operator()) {
        return Ok(true);
    }
    let holds = matcher.matches(alloc, none)?;
    Ok(!holds)
}

/// Returns whether the operator is `!=` or `!~`.
fn is_negative(operator: Operator) -> bool
    ensures { result ≡ is_negative operator }
{
    match operator {
        Operator::Equal | Operator::Matches => false,
        Operator::NotEqual | Operator::NotMatches => true,
    }
}
