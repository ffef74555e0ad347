//! Where the routes below each route end, so that routing passes over them if the route doesn't
//! match. Routes are numbered in preorder, so those below a route come right after it.
ghost use Rattle.std.specs.Prelude.{◌≡◌, ◌<◌, ◌≤◌, length, IfOk, IsSomeAnd};
ghost use Rattle.std.specs.Bool.{Decides};
ghost use Rattle.amr_config.specs.Subtrees.{IsSubtreeEnd, AreSubtreeEnds};

use crate::stated::Route;
use amr_labels::Listing;
use std::alloc::{AllocError, Global};

/// Returns for each route where those below it end.
pub(crate) fn subtree_ends(alloc: Global, routes: &[Route]) -> Result<Listing<usize>, AllocError>
    ensures { IfOk result (λ ends. AreSubtreeEnds routes.now ends) }
{
    let mut ends = Listing::new(alloc);
    for number in 0..routes.len() {
        ends.push(subtree_end(routes, number))?;
    }
    Ok(ends)
}

/// Returns the number of the first route after this one whose parent comes before it, or the number
/// of routes. It takes as many turns as there are routes below.
fn subtree_end(routes: &[Route], number: usize) -> usize
    requires { number < length routes.now }
    ensures { IsSubtreeEnd routes.now number result }
{
    for later in number + 1..routes.len() {
        if !has_parent_from(&routes[later], number) {
            return later;
        }
    }
    routes.len()
}

/// Returns whether a route has a parent that is the route with a number or comes after it.
fn has_parent_from(route: &Route, number: usize) -> bool
    ensures { Decides result (IsSomeAnd route.now.parent (λ parent. number ≤ parent)) }
{
    match route.parent {
        Some(parent) => number <= parent,
        None => false,
    }
}
