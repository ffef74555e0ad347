//! Reads the routing tree into a list of routes in preorder. `read.rt` calls `read_routes`, and
//! callers of `walk` call `is_too_deep` before. A route has only what it states itself;
//! `Config` resolves what it inherits.
ghost use Rattle.std.specs.Prelude.{◌≡◌, IfOk};
ghost use Rattle.serde_json.specs.View.{view, items_view};
ghost use Rattle.amr_config.specs.Read.Paths.{path_text, under};
ghost use Rattle.amr_config.specs.Read.Answers.{Gives, Reads, ReadsInto};
ghost use Rattle.amr_config.specs.Read.RouteParts.{is_all as all_of, grouping_of, grouping_stated, children_at, is_deeper as deeper_of, is_too_deep as too_deep_of};
ghost use Rattle.amr_config.specs.Read.ReadRoutes.{route_at, own_into, add_route, routes_at};

use crate::read::error::{Cause, ConfigError, Refusal};
use crate::read::interval_names::names_member;
use crate::read::members::{
    flag_member, items, member, same, span_member, text_member, texts_member,
};
use crate::read::read_matchers::read_matchers;
use crate::read::value_path::ValuePath;
use crate::read::whole::Whole;
use crate::stated::{Grouping, Route};
use amr_labels::matcher::Patterns;
use amr_labels::{Listing, Names, Text};
use amr_time::Span;
use serde_json::Value;
use std::alloc::{AllocError, Global};

/// Reads the routing tree of a whole configuration, in preorder.
#[tactic(auto, unfolding(crate::specs::Read::ReadRoutes::routes_at, crate::specs::Read::Readings::next))]
pub(crate) fn read_routes(
    alloc: Global,
    built: &mut Patterns,
    value: &Value,
) -> Result<Listing<Route>, ConfigError>
    ensures { Reads (λ rs. rs) result (routes_at (view value.now)) }
{
    let top = ValuePath::Top;
    let here = ValuePath::Member(&top, "route");
    let Some(route) = member(value, "route") else {
        return Err(here.faulty(alloc));
    };
    let mut routes = Listing::new(alloc);
    let whole = Whole::new(alloc, value)?;
    add_route(alloc, built, &whole, 32, &here, None, route, &mut routes)?;
    Ok(routes)
}

/// Returns whether the routing tree has more than 32 levels.
#[tactic(auto, unfolding(crate::specs::Read::RouteParts::is_too_deep))]
pub(crate) fn is_too_deep(value: &Value) -> bool
    ensures { result ≡ too_deep_of (view value.now) }
{
    match member(value, "route") {
        Some(route) => is_deeper(32, route),
        None => false,
    }
}

/// Returns whether a route has more than `left` levels, itself included.
#[tactic(auto, unfolding(crate::specs::Read::RouteParts::is_deeper))]
fn is_deeper(left: u32, value: &Value) -> bool
    ensures { result ≡ deeper_of left (view value.now) }
{
    if left == 0 {
        return true;
    }
    let found = member(value, "routes").and_then(Value::as_array);
    let Some(items) = found else {
        return false;
    };
    for item in items {
        if is_deeper(left - 1, item) {
            return true;
        }
    }
    false
}

/// Appends a route and those below it in preorder, down to `left` levels.
fn add_route(
    alloc: Global,
    built: &mut Patterns,
    whole: &Whole,
    left: u32,
    path: &ValuePath,
    parent: Option<usize>,
    value: &Value,
    routes: &mut Listing<Route>,
) -> Result<(), ConfigError>
    ensures { ReadsInto (λ rs. rs) result routes.new
        (add_route (view whole.now.value.now) left (path_text path.now) parent (view value.now)
        routes.old) }
{
    if left == 0 {
        return Err(ConfigError::Refused(Refusal::Other(Cause::TooDeep)));
    }
    let index = routes.len();
    add_own(alloc, built, whole, path, parent, value, routes)?;
    let children = children(alloc, path, value)?;
    let below = ValuePath::Member(&*path, "routes");
    for (i, child) in children.iter().enumerate() {
        add_route(
            alloc,
            built,
            whole,
            left - 1,
            &ValuePath::Item(&below, i),
            Some(index),
            child,
            routes,
        )?;
    }
    Ok(())
}

/// Returns the items of a route's `routes`; none if the member is absent.
#[tactic(auto, unfolding(crate::specs::Read::RouteParts::children_at, crate::specs::Read::Readings::next))]
fn children<'v>(
    alloc: Global,
    path: &ValuePath,
    value: &'v Value,
) -> Result<&'v [Value], ConfigError>
    ensures { Gives (λ s. items_view s.now) result
        (children_at (path_text path.now) (view value.now)) }
{
    match member(value, "routes") {
        Some(found) => items(alloc, &ValuePath::Member(path, "routes"), found),
        None => Ok(&[]),
    }
}

/// Appends a route with what it states itself.
#[tactic(auto, unfolding(crate::specs::Read::ReadRoutes::own_into, crate::specs::Read::Readings::next))]
fn add_own(
    alloc: Global,
    built: &mut Patterns,
    whole: &Whole,
    path: &ValuePath,
    parent: Option<usize>,
    value: &Value,
    routes: &mut Listing<Route>,
) -> Result<(), ConfigError>
    ensures { ReadsInto (λ rs. rs) result routes.new
        (own_into (view whole.now.value.now) (path_text path.now) parent (view value.now)
        routes.old) }
{
    let route = read_route(alloc, built, whole, path, parent, value)?;
    routes.push(route)?;
    Ok(())
}

/// Reads what a route states itself, key by key in byte order.
#[tactic(auto, unfolding(crate::specs::Read::ReadRoutes::route_at, crate::specs::Read::Readings::next))]
fn read_route(
    alloc: Global,
    built: &mut Patterns,
    whole: &Whole,
    path: &ValuePath,
    parent: Option<usize>,
    value: &Value,
) -> Result<Route, ConfigError>
    ensures { Reads (λ route. route) result
        (route_at (view whole.now.value.now) (path_text path.now) parent (view value.now)) }
{
    if !value.is_object() {
        return Err(path.faulty(alloc));
    }
    let active = names_member(alloc, whole, path, value, "active_time_intervals")?;
    let continues = flag_member(alloc, path, value, "continue")?;
    let group_by = texts_member(alloc, path, value, "group_by")?;
    let group_interval = span_member(alloc, path, value, "group_interval")?;
    let group_wait = span_member(alloc, path, value, "group_wait")?;
    let matchers = read_matchers(alloc, built, path, "match", "match_re", "matchers", value)?;
    let mute = names_member(alloc, whole, path, value, "mute_time_intervals")?;
    let receiver = text_member(alloc, path, value, "receiver")?;
    let repeat_interval = span_member(alloc, path, value, "repeat_interval")?;
    let grouping = stated_grouping(alloc, group_by)?;
    Ok(Route {
        parent,
        matchers,
        continues: continues.unwrap_or(false),
        receiver,
        group_by: grouping,
        group_wait,
        group_interval,
        repeat_interval,
        active_time_intervals: active.unwrap_or(Listing::new(alloc)),
        mute_time_intervals: mute.unwrap_or(Listing::new(alloc)),
    })
}

/// Returns the grouping by these names, if `group_by` is present.
fn stated_grouping(
    alloc: Global,
    names: Option<Listing<Text>>,
) -> Result<Option<Grouping>, AllocError>
    ensures { IfOk result (λ grouping. grouping ≡ grouping_stated names) }
{
    match names {
        Some(names) => Ok(Some(grouping(alloc, names)?)),
        None => Ok(None),
    }
}

/// Returns the grouping by these names.
fn grouping(alloc: Global, names: Listing<Text>) -> Result<Grouping, AllocError>
    ensures { IfOk result (λ grouping. grouping ≡ grouping_of names) }
{
    if is_all(names.as_slice()) {
        return Ok(Grouping::AllLabels);
    }
    Ok(Grouping::Named(Names::new(alloc, names)?))
}

/// Returns whether the names are `...` alone, which means all labels in Alertmanager.
#[tactic(auto, using(crate::proofs::ReadLemmas::OnlyDots::not_alone, crate::proofs::ReadLemmas::OnlyDots::alone))]
fn is_all(names: &[Text]) -> bool
    ensures { result ≡ all_of names.now }
{
    if names.len() != 1 {
        return false;
    }
    same(names[0].as_str(), "...")
}
