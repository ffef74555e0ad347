//! The stages of a flush that mute alerts, in the order of Alertmanager's notification pipeline. A
//! flush notifies of no member that one of them mutes, and `explain` names the first that does.
ghost use Rattle.std.specs.Prelude.{◌≡◌, is_some, IfOk};
ghost use Rattle.std.specs.Option.{option_map_or};
ghost use Rattle.amr_rules.specs.Muting.{inhibition_from};
ghost use Rattle.amr_engine.specs.Flush.{let_through};
ghost use Rattle.amr_engine.specs.Stages.{taken_away};

use crate::state::{Member, Store};
use crate::verdict::Finding;
use amr_labels::Labels;
use amr_rules::inhibited_by;
use amr_time::Moment;
use std::alloc::{AllocError, Global};

/// Returns the first stage that mutes the alert of the label set with a number on a route:
/// inhibition, active time intervals, mute time intervals, silences. Returns `None` if none does.
#[tactic(auto, unfolding(crate::specs::Stages::taken_away))]
pub(crate) fn taken_away(
    store: &Store,
    at: Moment,
    route: usize,
    number: Option<usize>,
    labels: &Labels,
) -> Result<Option<Finding>, AllocError>
    ensures { IfOk result (λ found. found ≡ taken_away store.now.state at route labels.now) }
{
    if let Some((rule, source)) = inhibition(store, at, number, labels)? {
        return Ok(Some(Finding::Inhibited { rule, source }));
    }
    let config = store.config();
    if !config.is_active_at(route, at) {
        return Ok(Some(Finding::OutsideActive));
    }
    if config.is_muted_at(route, at) {
        return Ok(Some(Finding::TimeMuted));
    }
    match store.silenced_by(at, number, labels)? {
        Some(id) => Ok(Some(Finding::Silenced { id })),
        None => Ok(None),
    }
}

/// Returns the members that no stage mutes, or `None` if that is all of them, as it mostly is.
pub(crate) fn let_through(
    store: &mut Store,
    at: Moment,
    route: usize,
    members: &[Member],
) -> Result<Option<Vec<Member>>, AllocError>
    ensures through { IfOk result (λ through.
        option_map_or (λ through. through.items) through members.now
        ≡ let_through store.old.state at route members.now) }
    ensures same { store.new ≡ store.old }
{
    let mut through = None;
    for (index, (labels, alert)) in members.iter().enumerate() {
        if is_muted(store, at, route, labels)? {
            through = Some(or_copied(store.alloc(), through, &members[..index])?);
        } else if let Some(kept) = &mut through {
            kept.push((labels.clone()?, alert.clone()?))?;
        }
    }
    Ok(through)
}

/// Returns a list of members, or if there is none a copy of these.
fn or_copied(
    alloc: Global,
    listed: Option<Vec<Member>>,
    members: &[Member],
) -> Result<Vec<Member>, AllocError>
    ensures { IfOk result (λ copied. copied.items
        ≡ option_map_or (λ listed. listed.items) listed members.now) }
{
    if let Some(listed) = listed {
        return Ok(listed);
    }
    let mut copied = Vec::with_capacity(alloc, members.len())?;
    for (labels, alert) in members {
        copied.push((labels.clone()?, alert.clone()?))?;
    }
    Ok(copied)
}

/// Returns whether a stage mutes the alert of a label set on a route. It works out first which
/// silences match the label set, and which label sets can be sources of the rules that have it as a
/// target, where that isn't cached.
fn is_muted(
    store: &mut Store,
    at: Moment,
    route: usize,
    labels: &Labels,
) -> Result<bool, AllocError>
    ensures muted { IfOk result (λ muted. muted
        ≡ is_some (taken_away store.old.state at route labels.now)) }
    ensures same { store.new ≡ store.old }
{
    let number = number_to_mute(store, labels);
    store.cache_silences(at, number, labels);
    cache_sources(store, number, labels)?;
    Ok(taken_away(store, at, route, number, labels)?.is_some())
}

/// Returns the number of a label set, at which what mutes it is cached. Without rules and silences it
/// looks nothing up.
fn number_to_mute(store: &Store, labels: &Labels) -> Option<usize> {
    if store.config().rules().is_empty() && store.silences().values().next().is_none() {
        return None;
    }
    store.number_of(labels)
}

/// Works out which label sets can be sources of the rules that have the label set with a number as
/// a target, where that isn't cached. Without rules it looks nothing up.
pub(crate) fn cache_sources(
    store: &mut Store,
    number: Option<usize>,
    labels: &Labels,
) -> Result<(), AllocError>
    ensures { store.new ≡ store.old }
{
    if store.config().rules().is_empty() {
        return Ok(());
    }
    let matched = store.rule_matches(number, labels)?;
    store.cache_sources(matched.get().as_slice());
    Ok(())
}

/// Returns the inhibition rule that mutes the alert of the label set with a number, and the labels
/// of the alert by which it does. Without rules it looks nothing up.
fn inhibition(
    store: &Store,
    at: Moment,
    number: Option<usize>,
    labels: &Labels,
) -> Result<Option<(usize, Labels)>, AllocError>
    ensures { IfOk result (λ found. found ≡ inhibition_from 0 at labels.now
        store.now.state.alerts store.now.state.config.rules) }
{
    let rules = store.config().rules();
    if rules.is_empty() {
        return Ok(None);
    }
    let matched = store.rule_matches(number, labels)?;
    let matched = matched.get().as_slice();
    inhibited_by(store.alloc(), rules, matched, store.alerts(), at, labels)
}
