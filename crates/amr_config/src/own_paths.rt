//! Which routes have a path of their own. The path of a route is its parent's with the route's own
//! matchers at the end, so the first route with the parent's path and those matchers tell it. What
//! routes share with their parent is then never compared, and the time is about linear in the size
//! of the configuration, whatever the parents' matchers.
ghost use Rattle.std.specs.Prelude.{◌≡◌, ◌-◌, [], length, IfOk, option_and_then, slice_get, unwrap_or};
ghost use Rattle.amr_config.specs.Paths.{AreFirsts, AreFirstIndexes, AreAlone, AreOwn, path_hash};
ghost use Rattle.amr_config.specs.Settled.{stated_config, settings_of_all, AreParentsFirst};

use crate::route_path::RoutePath;
use crate::settings::Settings;
use crate::stated::Stated;
use amr_labels::Listing;
use amr_labels::matcher::Matchers;
use std::alloc::{AllocError, Global};
use std::collections::BTreeMap;

/// What tells a path from others: a number made of it, by which most differ, the first route with
/// the parent's path, if there is a parent, and the route's own matchers, sorted.
type PathKey = (usize, (Option<usize>, Matchers));

/// Returns for each route whether no other route has its path.
pub(crate) fn own_paths(
    alloc: Global,
    stated: &Stated,
    settings: &[Settings],
) -> Result<Listing<bool>, AllocError>
    requires parents { AreParentsFirst (stated_config stated.now) }
    requires settings { settings.now ≡ settings_of_all (stated_config stated.now) }
    ensures { IfOk result (λ own. AreOwn (stated_config stated.now) own) }
{
    let firsts = first_routes(alloc, stated, settings)?;
    alone(alloc, firsts.as_slice())
}

/// Returns for each route the first route with its path. A parent comes before its children, so one
/// pass is enough.
fn first_routes(
    alloc: Global,
    stated: &Stated,
    settings: &[Settings],
) -> Result<Vec<usize>, AllocError>
    requires parents { AreParentsFirst (stated_config stated.now) }
    requires settings { settings.now ≡ settings_of_all (stated_config stated.now) }
    ensures { IfOk result (λ firsts.
        AreFirsts (stated_config stated.now) (length stated.now.routes) firsts.items) }
{
    let mut known = BTreeMap::new(alloc);
    let mut firsts = Vec::with_capacity(alloc, settings.len())?;
    for (number, route) in stated.routes.as_slice().iter().enumerate() {
        let first_above = above(firsts.as_slice(), route.parent);
        let key = path_key(alloc, &settings[number].path, first_above)?;
        let first = *known.entry(key)?.or_insert(number);
        firsts.push(first)?;
    }
    Ok(firsts)
}

/// Returns what tells a route's path from others, given the first route with the parent's path.
fn path_key(
    alloc: Global,
    path: &RoutePath,
    first_above: Option<usize>,
) -> Result<PathKey, AllocError>
    ensures { IfOk result (λ key. key ≡ (
      path_hash path.now,
      (first_above, unwrap_or (slice_get path.now (length path.now - 1)) []),
    )) }
{
    Ok((path.hash_value(), (first_above, own_matchers(alloc, path)?)))
}

/// Returns the matchers of the route of a path, which are the last of the path.
fn own_matchers(alloc: Global, path: &RoutePath) -> Result<Matchers, AllocError>
    ensures { IfOk result (λ own.
        own ≡ unwrap_or (slice_get path.now (length path.now - 1)) []) }
{
    match path.get().as_slice().last() {
        Some(own) => own.clone(),
        None => Matchers::none(alloc),
    }
}

/// Returns the first route with the path of a parent, if there is a parent.
fn above(firsts: &[usize], parent: Option<usize>) -> Option<usize>
    ensures { result ≡ option_and_then (slice_get firsts.now) parent }
{
    match parent {
        Some(parent) => firsts.get(parent).copied(),
        None => None,
    }
}

/// Returns for each index whether no other index has its number, where each number is the first
/// index that has it.
fn alone(alloc: Global, numbers: &[usize]) -> Result<Listing<bool>, AllocError>
    requires { AreFirstIndexes numbers.now }
    ensures { IfOk result (λ alone. AreAlone numbers.now (length numbers.now) alone) }
{
    let mut alone = Vec::with_capacity(alloc, numbers.len())?;
    for (index, first) in numbers.iter().enumerate() {
        if *first < index {
            alone[*first] = false;
            alone.push(false)?;
        } else {
            alone.push(true)?;
        }
    }
    Ok(Listing::from_vec(alone))
}
