//! Validates a configuration that parsed, by the rules of Alertmanager's configuration reference.
//! `load_config` calls `refusal`. Nothing is changed or resolved here.
ghost use Rattle.std.specs.Prelude.{◌≡◌, IfOk};
ghost use Rattle.std.specs.List.{list_any};
ghost use Rattle.amr_config.specs.Read.NameSets.{names_of as receiver_names, is_missing as missing_of};
ghost use Rattle.amr_config.specs.Read.Judging.{is_lost as lost_of, is_zero as zero_of, has_zero as zeros_of, is_bad_name as bad_of, has_bad_names as bad_names_of, is_badly_grouped as badly_of, has_intervals as intervals_of, is_bad_root as bad_root_of, root_is_bad, are_named_apart as apart_of, refusal_of};

use crate::read::error::{Cause, Refusal};
use crate::read::members::same;
use crate::read::names::{are_apart, set_of};
use crate::stated::{Grouping, Receiver, Route, Stated};
use amr_labels::Text;
use amr_time::Span;
use std::alloc::{AllocError, Global};
use std::collections::BTreeSet;

/// Returns the first reason against a configuration, in the order of their numbers.
#[tactic(auto, unfolding(crate::specs::Read::Judging::refusal_of))]
pub(crate) fn refusal(alloc: Global, stated: &Stated) -> Result<Option<Refusal>, AllocError>
    ensures { IfOk result (λ refusal. refusal ≡ refusal_of stated.now) }
{
    let routes = stated.routes.as_slice();
    let receivers = stated.receivers.as_slice();
    if any_lost(alloc, receivers, routes)? {
        return Ok(Some(Refusal::Other(Cause::UnknownReceiver)));
    }
    if !are_named_apart(alloc, receivers)? {
        return Ok(Some(Refusal::Other(Cause::DuplicateReceiver)));
    }
    if is_root_bad(routes) {
        return Ok(Some(Refusal::Other(Cause::RootRoute)));
    }
    if any_zero(routes) {
        return Ok(Some(Refusal::Other(Cause::ZeroInterval)));
    }
    if any_badly_grouped(alloc, routes)? {
        return Ok(Some(Refusal::Other(Cause::BadGroupBy)));
    }
    Ok(None)
}

/// Returns whether all receivers have different names.
#[tactic(auto, using(crate::proofs::ReadLemmas::NameSets::named_apart))]
fn are_named_apart(alloc: Global, receivers: &[Receiver]) -> Result<bool, AllocError>
    ensures { IfOk result (λ apart. apart ≡ apart_of receivers.now) }
{
    let names = names_of(alloc, receivers)?;
    are_apart(alloc, names.as_slice())
}

/// Returns whether the root is faulty: it has matchers, `continue` or time intervals, or it has no
/// receiver.
fn is_root_bad(routes: &[Route]) -> bool
    ensures { result ≡ root_is_bad routes.now }
{
    match routes {
        [] => true,
        [root, ..] => is_bad_root(root),
    }
}

/// Returns whether the route has time intervals.
fn has_intervals(route: &Route) -> bool
    ensures { result ≡ intervals_of route.now }
{
    !route.active_time_intervals.is_empty() || !route.mute_time_intervals.is_empty()
}

/// Returns whether the root has matchers, `continue` or time intervals, or no receiver.
#[tactic(auto, unfolding(crate::specs::Read::Judging::is_bad_root))]
fn is_bad_root(route: &Route) -> bool
    ensures { result ≡ bad_root_of route.now }
{
    !route.matchers.is_empty()
        || route.continues
        || route.receiver.is_none()
        || has_intervals(route)
}

/// Returns whether the `group_by` of some route has a bad or repeated name.
fn any_badly_grouped(alloc: Global, routes: &[Route]) -> Result<bool, AllocError>
    ensures { IfOk result (λ bad. bad ≡ list_any badly_of routes.now) }
{
    for route in routes {
        if is_badly_grouped(alloc, route)? {
            return Ok(true);
        }
    }
    Ok(false)
}

/// Returns whether the route's `group_by` has a bad or repeated name.
#[tactic(auto, unfolding(crate::specs::Read::Judging::is_badly_grouped))]
fn is_badly_grouped(alloc: Global, route: &Route) -> Result<bool, AllocError>
    ensures { IfOk result (λ bad. bad ≡ badly_of route.now) }
{
    match &route.group_by {
        Some(Grouping::Named(names)) => has_bad_names(alloc, names.as_slice()),
        Some(Grouping::AllLabels) => Ok(false),
        None => Ok(false),
    }
}

/// Returns whether some name is bad or repeated.
#[tactic(auto, unfolding(crate::specs::Read::Judging::has_bad_names))]
fn has_bad_names(alloc: Global, names: &[Text]) -> Result<bool, AllocError>
    ensures { IfOk result (λ bad. bad ≡ bad_names_of names.now) }
{
    if any_bad_name(names) {
        return Ok(true);
    }
    Ok(!are_apart(alloc, names)?)
}

/// Returns whether some name is bad.
fn any_bad_name(names: &[Text]) -> bool
    ensures { result ≡ list_any bad_of names.now }
{
    names.iter().any(|name| is_bad_name(name))
}

/// Returns whether a name in `group_by` is empty, or is `...`, which must be alone in its list.
fn is_bad_name(name: &Text) -> bool
    ensures { result ≡ bad_of name.now }
{
    name.is_empty() || same(name.as_str(), "...")
}

/// Returns whether some route sets such an interval to zero.
fn any_zero(routes: &[Route]) -> bool
    ensures { result ≡ list_any zeros_of routes.now }
{
    routes.iter().any(|route| has_zero(route))
}

/// Returns whether the route sets `group_interval` or `repeat_interval` to zero. `group_wait` may
/// be zero.
#[tactic(auto, unfolding(crate::specs::Read::Judging::has_zero))]
fn has_zero(route: &Route) -> bool
    ensures { result ≡ zeros_of route.now }
{
    is_zero(route.group_interval) || is_zero(route.repeat_interval)
}

/// Returns whether an interval is set to zero.
fn is_zero(span: Option<Span>) -> bool
    ensures { result ≡ zero_of span }
{
    match span {
        Some(span) => span.nanoseconds() == 0,
        None => false,
    }
}

/// Returns whether some route names a receiver that doesn't exist.
#[tactic(auto, using(crate::proofs::ReadLemmas::NameSets::any_missing))]
fn any_lost(alloc: Global, receivers: &[Receiver], routes: &[Route]) -> Result<bool, AllocError>
    ensures { IfOk result (λ lost. lost ≡ list_any (lost_of receivers.now) routes.now) }
{
    let names = names_of(alloc, receivers)?;
    let set = set_of(alloc, names.as_slice())?;
    Ok(any_missing(&set, routes))
}

/// Returns whether some route names a receiver whose name isn't in the set.
fn any_missing(set: &BTreeSet<Text>, routes: &[Route]) -> bool
    ensures { result ≡ list_any (missing_of set.now) routes.now }
{
    routes.iter().any(|route| is_missing(set, route))
}

/// Returns whether the route names a receiver whose name isn't in the set.
fn is_missing(set: &BTreeSet<Text>, route: &Route) -> bool
    ensures { result ≡ missing_of set.now route.now }
{
    match &route.receiver {
        Some(name) => !set.contains(name),
        None => false,
    }
}

/// Returns the names of the receivers, in their order.
fn names_of(alloc: Global, receivers: &[Receiver]) -> Result<Vec<Text>, AllocError>
    ensures { IfOk result (λ names. names.items ≡ receiver_names receivers.now) }
{
    let mut names = Vec::new(alloc);
    for receiver in receivers {
        names.push(receiver.name.clone()?)?;
    }
    Ok(names)
}
