//! Which receiver each route has, by its index in the configuration. A map from names to indexes
//! tells. Only a route that states its receiver is looked up there by name, and one that inherits
//! it takes its parent's index, since many routes can inherit one long name. So the time grows
//! little faster than the configuration.
ghost use Rattle.std.specs.Prelude.{◌≡◌, IfOk};
ghost use Rattle.std.specs.BTreeMap.{get};
ghost use Rattle.std.specs.Option.{option_map_or};
ghost use Rattle.amr_labels.specs.Labels.{text_cmp};
ghost use Rattle.amr_config.specs.Receivers.{AreIndexes, AreReceivers, index_at, receiver_parent};
ghost use Rattle.amr_config.specs.Settled.{stated_config, settings_of_all, AreParentsFirst};

use crate::settings::Settings;
use crate::stated::{Receiver, Route, Stated};
use amr_labels::{Listing, Text};
use std::alloc::{AllocError, Global};
use std::collections::BTreeMap;

/// Returns for each route the index of its receiver, if there is a receiver with that name. A
/// parent comes before its children, so one pass is enough.
pub(crate) fn receiver_indexes(
    alloc: Global,
    stated: &Stated,
    settings: &[Settings],
) -> Result<Listing<Option<usize>>, AllocError>
    requires parents { AreParentsFirst (stated_config stated.now) }
    requires settings { settings.now ≡ settings_of_all (stated_config stated.now) }
    ensures { IfOk result (λ indexes. AreReceivers stated.now.receivers settings.now indexes) }
{
    let known = indexes_by_name(alloc, stated.receivers.as_slice())?;
    let routes = stated.routes.as_slice();
    let mut indexes = Vec::new(alloc);
    for (number, its) in settings.iter().enumerate() {
        let index = index_of(&known, indexes.as_slice(), &routes[number], its);
        indexes.push(index)?;
    }
    Ok(Listing::from_vec(indexes))
}

/// Returns the index of a route's receiver, given those of the routes before it: the parent's if
/// the route inherits its receiver, and otherwise the index under its name.
fn index_of(
    known: &BTreeMap<Text, usize>,
    indexes: &[Option<usize>],
    route: &Route,
    its: &Settings,
) -> Option<usize>
    ensures { result ≡ option_map_or (index_at indexes.now) (receiver_parent route.now)
        (get text_cmp known.now its.now.receiver) }
{
    match receiver_parent(route) {
        Some(parent) => index_at(indexes, parent),
        None => known.get(&its.receiver).copied(),
    }
}

/// Returns the parent from which a route inherits its receiver. Returns `None` if the route states
/// one.
fn receiver_parent(route: &Route) -> Option<usize>
    ensures { result ≡ receiver_parent route.now }
{
    match &route.receiver {
        Some(_) => None,
        None => route.parent,
    }
}

/// Returns the index of a route's receiver, or `None` if there is no such route or receiver.
fn index_at(indexes: &[Option<usize>], route: usize) -> Option<usize>
    ensures { result ≡ index_at indexes.now route }
{
    match indexes.get(route) {
        Some(index) => *index,
        None => None,
    }
}

/// Returns the index of the first receiver with each name.
#[tactic(auto, using(std::proofs::lemmas::List::drop_more, std::proofs::lemmas::Option::slice_get_read))]
fn indexes_by_name(
    alloc: Global,
    receivers: &[Receiver],
) -> Result<BTreeMap<Text, usize>, AllocError>
    ensures { IfOk result (λ indexes. AreIndexes receivers.now indexes) }
{
    let mut indexes = BTreeMap::new(alloc);
    for index in (0..receivers.len()).rev() {
        indexes.insert(receivers[index].name.clone()?, index)?;
    }
    Ok(indexes)
}
