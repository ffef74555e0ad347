//! A configuration that caches, of each label set it has seen, the groups and the sides of the
//! inhibition rules. The state of a replay holds it in place of the configuration. A reload, and
//! undoing it, hand on what was worked out if the two configurations are alike. Contracts see nothing
//! of what it caches.
ghost use Rattle.std.specs.Prelude.{◌≡◌, IfOk, IfSome};
ghost use Rattle.amr_config.specs.Groups.{groups_of, group_at, routing_to_cache};
ghost use Rattle.amr_config.specs.Stated.RuleMatches.{rule_matches};

use crate::config::Config;
use crate::group_labels::GroupLabels;
use crate::route_labels::RouteLabels;
use crate::routing::chosen_routes;
use crate::stated::{RuleMatch, rule_matches};
use amr_labels::matcher::MatchCache;
use amr_labels::{LabelMap, Labels, Listing, Shared};
use amr_tables::make_place;
use std::alloc::{AllocError, Global};
use std::marker::Model;
use std::mem;

/// A configuration that caches what it worked out of label sets. Contracts see the configuration.
#[derive(Drop)]
pub struct Router {
    alloc: Global,
    config: Config,
    /// What the patterns of the matchers answered.
    answers: MatchCache,
    /// The group labels that were made, which equal groups share.
    group_labels: GroupLabels,
    /// What is cached of label sets, by their numbers.
    cache: Vec<Option<CachedRouting>>,
    /// The sides of the rules, by the labels that the rules' matchers name.
    sides: LabelMap<Shared<Listing<RuleMatch>>>,
}

/// What is cached of a label set: its groups, and the sides of the inhibition rules that it is on.
#[derive(Drop)]
pub(crate) struct CachedRouting {
    pub(crate) labels: Labels,
    pub(crate) groups: Shared<Listing<RouteLabels>>,
    pub(crate) rules: Shared<Listing<RuleMatch>>,
}

impl Model for Router {
    ghost use Rattle.amr_config.specs.Stated.Config.{Config};
    ghost use Rattle.amr_config.specs.Groups.{IsCacheOf, AreSides};

    ghost Value = { Config };

    ghost view = { λ router. router.config };

    ghost invariant = { λ router. IsCacheOf router.config router.cache.items
        × AreSides router.config router.sides };
}

impl Router {
    /// Takes a configuration, of which nothing is cached yet.
    #[tactic(auto, using(crate::proofs::Cached::none_given))]
    pub fn new(alloc: Global, config: Config) -> Router
        ensures { result ≡ config }
    {
        Router {
            alloc,
            config,
            answers: MatchCache::new(alloc),
            group_labels: GroupLabels::new(alloc),
            cache: Vec::new(alloc),
            sides: LabelMap::new(alloc),
        }
    }

    /// Returns the configuration.
    pub fn config(&self) -> &Config
        ensures { result.now ≡ self.now }
    {
        &self.config
    }

    /// Returns the groups that take an alert with these labels, by route. It asks the routes once
    /// for each label set that has a number. The state gives each of its label sets its own.
    pub fn groups_of(
        &mut self,
        number: Option<usize>,
        labels: &Labels,
    ) -> Result<Shared<Listing<RouteLabels>>, AllocError>
        ensures groups { IfOk result (λ groups. groups ≡ groups_of self.old labels.now) }
        ensures same { self.new ≡ self.old }
    {
        match self.cached(number, labels) {
            Some(cached) => cached.groups.clone(),
            None => self.work_out(number, labels),
        }
    }

    /// Returns which sides of the configuration's inhibition rules these labels are on. It asks no
    /// matcher if it has been asked for the groups of these labels, with this number, before.
    pub fn rule_matches(
        &self,
        number: Option<usize>,
        labels: &Labels,
    ) -> Result<Shared<Listing<RuleMatch>>, AllocError>
        ensures { IfOk result (λ found. found ≡ rule_matches labels.now self.now.rules) }
    {
        match self.cached(number, labels) {
            Some(cached) => cached.rules.clone(),
            None => {
                let mut answers = MatchCache::none(self.alloc);
                sides_of(self.alloc, &self.config, &mut answers, labels)
            }
        }
    }

    /// Returns what is cached of a label set with this number.
    #[tactic(auto, using(crate::proofs::Cached::routing_found))]
    fn cached(&self, number: Option<usize>, labels: &Labels) -> Option<&CachedRouting>
        ensures { IfSome result (λ cached. cached.now ≡ routing_to_cache self.now labels.now) }
    {
        match self.cache.get(number?) {
            Some(Some(cached)) if cached.labels == *labels => Some(cached),
            _ => None,
        }
    }

    /// Swaps what doesn't depend on the configuration with another router: what patterns answered,
    /// and the group labels that were made. If the two configurations are alike, it also swaps the
    /// groups and the sides of each label set. So a reload, and undoing it, lose none of these. If
    /// they aren't alike, the other router forgets them, so that records don't keep them.
    pub fn swap_cache(&mut self, other: &mut Router)
        ensures same { self.new ≡ self.old }
        ensures other { other.new ≡ other.old }
    {
        mem::swap(&mut self.answers, &mut other.answers);
        mem::swap(&mut self.group_labels, &mut other.group_labels);
        if self.config.is_alike(&other.config) {
            mem::swap(&mut self.cache, &mut other.cache);
            mem::swap(&mut self.sides, &mut other.sides);
        } else {
            other.forget();
        }
    }

    /// Forgets the groups and the sides of all label sets. It takes no memory.
    #[tactic(auto, using(crate::proofs::Cached::none_given))]
    fn forget(&mut self)
        ensures { self.new ≡ self.old }
    {
        self.cache = Vec::new(self.alloc);
        self.sides = LabelMap::new(self.alloc);
    }

    /// Works out the groups that take an alert with these labels, and caches them if there is a
    /// number and room.
    fn work_out(
        &mut self,
        number: Option<usize>,
        labels: &Labels,
    ) -> Result<Shared<Listing<RouteLabels>>, AllocError>
        ensures groups { IfOk result (λ groups. groups ≡ groups_of self.old labels.now) }
        ensures same { self.new ≡ self.old }
    {
        let found = groups_of(
            self.alloc,
            &self.config,
            &mut self.answers,
            &mut self.group_labels,
            labels,
        )?;
        let groups = Shared::new(self.alloc, found)?;
        if let Some(number) = number {
            let _forgotten = self.cache_groups(number, labels, groups.clone()?);
        }
        Ok(groups)
    }

    /// Caches the groups of this label set, and the sides of the inhibition rules that it is on.
    fn cache_groups(
        &mut self,
        number: usize,
        labels: &Labels,
        groups: Shared<Listing<RouteLabels>>,
    ) -> Result<(), AllocError>
        requires { groups ≡ groups_of self.old labels.now }
        ensures { self.new ≡ self.old }
    {
        let rules = self.sides_of(labels)?;
        let labels = labels.clone()?;
        make_place(&mut self.cache, number)?;
        self.cache[number] = Some(CachedRouting {
            labels,
            groups,
            rules,
        });
        Ok(())
    }

    /// Returns which sides of the inhibition rules these labels are on. It asks the matchers once
    /// for all label sets that have the same of the labels that the matchers name.
    fn sides_of(&mut self, labels: &Labels) -> Result<Shared<Listing<RuleMatch>>, AllocError>
        ensures sides { IfOk result (λ found. found ≡ rule_matches labels.now self.old.rules) }
        ensures same { self.new ≡ self.old }
    {
        match self.config.kept_for_rules(self.alloc, labels)? {
            Some(kept) => self.sides_of_kept(kept),
            None => sides_of(self.alloc, &self.config, &mut self.answers, labels),
        }
    }

    /// Returns which sides of the inhibition rules these labels are on, cached or worked out.
    fn sides_of_kept(&mut self, kept: Labels) -> Result<Shared<Listing<RuleMatch>>, AllocError>
        ensures sides { IfOk result (λ found. found ≡ rule_matches kept self.old.rules) }
        ensures same { self.new ≡ self.old }
    {
        match self.sides.get(&kept) {
            Some(sides) => sides.clone(),
            None => self.work_out_sides(kept),
        }
    }

    /// Works out which sides of the inhibition rules these labels are on, and caches them if
    /// there is room.
    fn work_out_sides(&mut self, kept: Labels) -> Result<Shared<Listing<RuleMatch>>, AllocError>
        ensures sides { IfOk result (λ found. found ≡ rule_matches kept self.old.rules) }
        ensures same { self.new ≡ self.old }
    {
        let sides = sides_of(self.alloc, &self.config, &mut self.answers, &kept)?;
        let _forgotten = self.cache_sides(kept, sides.clone()?);
        Ok(sides)
    }

    /// Caches which sides of the inhibition rules these labels are on.
    #[tactic(auto, using(crate::proofs::Cached::sides_more))]
    fn cache_sides(
        &mut self,
        kept: Labels,
        sides: Shared<Listing<RuleMatch>>,
    ) -> Result<(), AllocError>
        requires { sides ≡ rule_matches kept self.old.rules }
        ensures { self.new ≡ self.old }
    {
        self.sides.insert(kept, sides)?;
        Ok(())
    }
}

/// Works out which sides of the configuration's inhibition rules these labels are on.
fn sides_of(
    alloc: Global,
    config: &Config,
    answers: &mut MatchCache,
    labels: &Labels,
) -> Result<Shared<Listing<RuleMatch>>, AllocError>
    ensures { IfOk result (λ found. found ≡ rule_matches labels.now config.now.rules) }
{
    Shared::new(alloc, rule_matches(alloc, answers, config.rules(), labels)?)
}

/// Works out the groups that take an alert with these labels, by route.
#[tactic(auto, unfolding(crate::specs::Groups::groups_of))]
fn groups_of(
    alloc: Global,
    config: &Config,
    answers: &mut MatchCache,
    group_labels: &mut GroupLabels,
    labels: &Labels,
) -> Result<Listing<RouteLabels>, AllocError>
    ensures { IfOk result (λ groups. groups ≡ groups_of config.now labels.now) }
{
    let mut groups = Listing::new(alloc);
    for route in &chosen_routes(alloc, answers, config, labels)? {
        groups.push(group_at(alloc, config, group_labels, *route, labels)?)?;
    }
    Ok(groups)
}

/// Works out the group of an alert with these labels at a route. Equal groups share their labels.
#[tactic(auto, unfolding(crate::specs::Routing::group_of))]
fn group_at(
    alloc: Global,
    config: &Config,
    group_labels: &mut GroupLabels,
    route: usize,
    labels: &Labels,
) -> Result<RouteLabels, AllocError>
    ensures { IfOk result (λ group. group ≡ group_at config.now labels.now route) }
{
    let grouping = config.grouping(route);
    Ok(RouteLabels {
        route,
        labels: group_labels.grouped_by(alloc, grouping, labels)?,
    })
}
