//! Whether two configurations route and group alerts alike, and have inhibition rules with the same
//! matchers. Then `Router` keeps what it worked out when one replaces the other.
ghost use Rattle.std.specs.Prelude.{◌≡◌, map};
ghost use Rattle.std.specs.Bool.{Decides};
ghost use Rattle.amr_config.specs.Alike.{AreAlike, routing_part, sides};

use crate::config::Config;
use crate::stated::{Grouping, InhibitRule, Route};
use amr_labels::Names;

impl Config {
    /// Returns whether another configuration has the same routes and rules as far as the groups of
    /// alerts and the sides of the rules go. It compares neither times nor receivers.
    pub(crate) fn is_alike(&self, other: &Config) -> bool
        ensures { Decides result (AreAlike self.now other.now) }
    {
        are_routes_alike(self.routes(), other.routes())
            && are_rules_alike(self.rules(), other.rules())
    }
}

/// Returns whether each route is like the other one at its index.
#[tactic(auto, using(crate::proofs::Alike::unlike_at))]
fn are_routes_alike(routes: &[Route], others: &[Route]) -> bool
    ensures { Decides result (map routing_part routes.now ≡ map routing_part others.now) }
{
    if routes.len() != others.len() {
        return false;
    }
    for (index, route) in routes.iter().enumerate() {
        if !is_route_alike(route, &others[index]) {
            return false;
        }
    }
    true
}

/// Returns whether two routes take the same alerts, given that those before them do, and group them
/// alike.
fn is_route_alike(route: &Route, other: &Route) -> bool
    ensures { Decides result (routing_part route.now ≡ routing_part other.now) }
{
    is_parent_alike(route, other) && takes_alike(route, other)
}

/// Returns whether two routes have the same parent, and the same `continue`.
fn is_parent_alike(route: &Route, other: &Route) -> bool
    ensures { Decides result ((route.now.parent ≡ other.now.parent)
        × (route.now.continues ≡ other.now.continues)) }
{
    route.parent == other.parent && route.continues == other.continues
}

/// Returns whether two routes have the same matchers, and state the same grouping.
#[tactic(auto, using(crate::proofs::Alike::matchers_decide))]
fn takes_alike(route: &Route, other: &Route) -> bool
    ensures { Decides result ((route.now.matchers ≡ other.now.matchers)
        × (route.now.group_by ≡ other.now.group_by)) }
{
    route.matchers == other.matchers && is_grouping_alike(&route.group_by, &other.group_by)
}

/// Returns whether two routes state the same grouping, or none.
fn is_grouping_alike(grouping: &Option<Grouping>, other: &Option<Grouping>) -> bool
    ensures { Decides result (grouping.now ≡ other.now) }
{
    match (grouping, other) {
        (None, None) => true,
        (Some(grouping), Some(other)) => groups_alike(grouping, other),
        _ => false,
    }
}

/// Returns whether two groupings are the same.
fn groups_alike(grouping: &Grouping, other: &Grouping) -> bool
    ensures { Decides result (grouping.now ≡ other.now) }
{
    match (grouping, other) {
        (Grouping::AllLabels, Grouping::AllLabels) => true,
        (Grouping::Named(names), Grouping::Named(others)) => are_names_alike(names, others),
        _ => false,
    }
}

/// Returns whether two groupings have the same names of labels.
#[tactic(auto, using(crate::proofs::Alike::names_decide))]
fn are_names_alike(names: &Names, others: &Names) -> bool
    ensures { Decides result (names.now ≡ others.now) }
{
    names.as_slice() == others.as_slice()
}

/// Returns whether each rule is like the other one at its index.
#[tactic(auto, using(crate::proofs::Alike::unlike_at))]
fn are_rules_alike(rules: &[InhibitRule], others: &[InhibitRule]) -> bool
    ensures { Decides result (map sides rules.now ≡ map sides others.now) }
{
    if rules.len() != others.len() {
        return false;
    }
    for (index, rule) in rules.iter().enumerate() {
        if !is_rule_alike(rule, &others[index]) {
            return false;
        }
    }
    true
}

/// Returns whether two rules have the same matchers.
#[tactic(auto, using(crate::proofs::Alike::matchers_decide))]
fn is_rule_alike(rule: &InhibitRule, other: &InhibitRule) -> bool
    ensures { Decides result (sides rule.now ≡ sides other.now) }
{
    rule.source == other.source && rule.target == other.target
}
