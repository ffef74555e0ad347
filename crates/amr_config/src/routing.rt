//! Routing: which routes take an alert. One pass over the routes in preorder gives each its standing, and
//! its parent if it matches.
ghost use Rattle.std.specs.Prelude.{◌≡◌, ℕ, ◌+◌, ◌<◌, ◌≤◌, length, vec_len, IfOk, OnOk, Some, false};
ghost use Rattle.amr_labels.specs.Labels.{LabelSet};
ghost use Rattle.amr_config.specs.Routing.{chosen_routes, parent_of, matches_route};
ghost use Rattle.amr_config.specs.Standings.{AreChosenBy, IsMoreSeen, is_open, standings_at, is_chosen_standing};

use crate::config::Config;
use amr_labels::Labels;
use amr_labels::matcher::MatchCache;
use std::alloc::{AllocError, Global};

/// What is known of a route when some of the routes after it have been seen.
#[derive(Clone, Copy)]
pub(crate) struct Standing {
    /// The alert gets to the route, and the route matches it.
    is_open: bool,
    /// A child matches the alert.
    is_taken: bool,
    /// A child matches the alert and doesn't have `continue`, so no later child gets it.
    is_closed: bool,
}

impl Standing {
    /// Returns the standing of a route when it is first seen.
    fn new(is_open: bool) -> Standing
        ensures { result ≡ record { is_open = is_open; is_taken = false; is_closed = false } }
    {
        Standing {
            is_open,
            is_taken: false,
            is_closed: false,
        }
    }

    /// Returns whether the route takes the alert, once all routes have been seen.
    fn is_chosen(self) -> bool
        ensures { result ≡ is_chosen_standing self }
    {
        self.is_open && !self.is_taken
    }
}

/// Returns the numbers of the routes that are chosen by these standings. It passes over the routes
/// below one that isn't open.
fn chosen_numbers(
    alloc: Global,
    config: &Config,
    standings: &[Standing],
) -> Result<Vec<usize>, AllocError>
    requires { length standings.now ≡ length config.now.routes }
    ensures { IfOk result (λ indexes. AreChosenBy config.now standings.now
        (length standings.now) indexes.items) }
{
    let mut indexes = Vec::new(alloc);
    let mut route = 0;
    while route < standings.len() {
        if standings[route].is_chosen() {
            indexes.push(route)?;
        }
        route = next_to_see(config, standings, route);
    }
    Ok(indexes)
}

/// Returns the number of the next route that may be chosen: the one after this, or the first that
/// isn't below it if it isn't open.
fn next_to_see(config: &Config, standings: &[Standing], route: usize) -> usize
    requires all { length standings.now ≡ length config.now.routes }
    requires within { route < length standings.now }
    ensures within { (route < result) × (result ≤ length standings.now) }
    ensures none { (labels : LabelSet)
        → standings.now ≡ standings_at config.now labels (length standings.now)
        → (m : ℕ) → route < m → m < result → is_open config.now labels m ≡ false }
{
    if standings[route].is_open {
        route + 1
    } else {
        config.subtree_end(route)
    }
}

/// Returns the standings of all routes.
#[tactic(auto, unfolding(crate::specs::Standings::standings_at))]
fn standings(
    alloc: Global,
    answers: &mut MatchCache,
    config: &Config,
    labels: &Labels,
) -> Result<Vec<Standing>, AllocError>
    ensures { IfOk result (λ standings. standings.items
        ≡ standings_at config.now labels.now (length config.now.routes)) }
{
    let mut standings = Vec::with_capacity(alloc, config.route_count())?;
    while standings.len() < config.route_count() {
        note_next(answers, config, labels, &mut standings)?;
    }
    Ok(standings)
}

/// Notes the next route, and those below it if it isn't open.
#[tactic(auto, using(crate::proofs::Chosen::root_step, std::proofs::lemmas::Option::slice_get_cases), unfolding(crate::specs::Settled::settings_of))]
fn note_next(
    answers: &mut MatchCache,
    config: &Config,
    labels: &Labels,
    standings: &mut Vec<Standing>,
) -> Result<(), AllocError>
    requires next { vec_len standings.old < length config.now.routes }
    requires so_far { standings.old.items
        ≡ standings_at config.now labels.now (vec_len standings.old) }
    ensures { OnOk result (IsMoreSeen config.now labels.now (vec_len standings.old)
        (vec_len standings.new) standings.new.items) }
{
    let settings = config.route(standings.len());
    match settings.parent {
        None => {
            let is_open = settings.matchers.matches_all(answers, labels)?;
            standings.push(Standing::new(is_open))?;
            Ok(())
        }
        Some(parent) => note_child(answers, config, labels, parent, standings),
    }
}

/// Notes the next route, which has a parent, and those below it if it isn't open.
#[tactic(auto, using(crate::proofs::Chosen::found_standing, crate::proofs::Chosen::taken_step, std::proofs::lemmas::Option::slice_get_cases), unfolding(crate::specs::Settled::settings_of))]
fn note_child(
    answers: &mut MatchCache,
    config: &Config,
    labels: &Labels,
    parent: usize,
    standings: &mut Vec<Standing>,
) -> Result<(), AllocError>
    requires next { vec_len standings.old < length config.now.routes }
    requires child { parent_of config.now (vec_len standings.old) ≡ Some parent }
    requires so_far { standings.old.items
        ≡ standings_at config.now labels.now (vec_len standings.old) }
    ensures { OnOk result (IsMoreSeen config.now labels.now (vec_len standings.old)
        (vec_len standings.new) standings.new.items) }
{
    let settings = config.route(standings.len());
    let above = standings[parent];
    if !above.is_open || above.is_closed || !settings.matchers.matches_all(answers, labels)? {
        return pass_over(config, standings);
    }
    standings[parent] = Standing {
        is_open: true,
        is_taken: true,
        is_closed: !settings.continues,
    };
    standings.push(Standing::new(true))?;
    Ok(())
}

/// Notes that the next route isn't open, and so none of those below it.
fn pass_over(config: &Config, standings: &mut Vec<Standing>) -> Result<(), AllocError>
    requires next { vec_len standings.old < length config.now.routes }
    ensures { OnOk result ((labels : LabelSet)
        → standings.old.items ≡ standings_at config.now labels (vec_len standings.old)
        → is_open config.now labels (vec_len standings.old) ≡ false
        → IsMoreSeen config.now labels (vec_len standings.old) (vec_len standings.new)
        standings.new.items) }
{
    let end = config.subtree_end(standings.len());
    standings.resize(end, Standing::new(false))
}

impl Config {
    /// Returns the numbers of the routes that take an alert with these labels, in ascending order.
    ///
    /// An alert enters at the root and goes to the children in order. It stops after the first
    /// child that matches it, unless that child has `continue: true`. If no child of a route
    /// matches, the route takes the alert itself (`route` of Alertmanager's configuration).
    pub fn routes_of(&self, alloc: Global, labels: &Labels) -> Result<Vec<usize>, AllocError>
        ensures { IfOk result (λ routes. routes.items ≡ chosen_routes self.now labels.now) }
    {
        chosen_routes(alloc, &mut MatchCache::none(alloc), self, labels)
    }
}

/// Returns the numbers of the routes that take an alert with these labels, in ascending order. It
/// asks the patterns of the matchers through the cached answers.
pub(crate) fn chosen_routes(
    alloc: Global,
    answers: &mut MatchCache,
    config: &Config,
    labels: &Labels,
) -> Result<Vec<usize>, AllocError>
    ensures { IfOk result (λ routes. routes.items ≡ chosen_routes config.now labels.now) }
{
    let standings = standings(alloc, answers, config, labels)?;
    chosen_numbers(alloc, config, standings.as_slice())
}
