//! A configuration that was read and validated, with the settings of each route resolved. The
//! engine asks it for routing, grouping, timing and receivers. Its content is shared, so a clone is
//! cheap.
ghost use Rattle.std.specs.Prelude.{◌≡◌, ℕ, ◌<◌, ◌≤◌, length, IfOk, IfSome, MatchOption, map};
ghost use Rattle.std.specs.Bool.{Decides};
ghost use Rattle.std.specs.Option.{option_copied};
ghost use Rattle.std.specs.Ordering.{eq_by_cmp};
ghost use Rattle.std.specs.List.{find, list_any};
ghost use Rattle.amr_labels.specs.Labels.{text_cmp};
ghost use Rattle.amr_config.specs.Intervals.{interval_at, interval_named};
ghost use Rattle.amr_config.specs.Receivers.{receiver_at, receiver_named};
ghost use Rattle.amr_config.specs.Routing.{group_wait_of, group_interval_of, repeat_interval_of, receiver_name_of, integrations_of, path_of, HasOwnPath, inherited_value, group_of, grouped_by, is_within, is_active_at, is_muted_at};
ghost use Rattle.amr_config.specs.RuleNames.{kept_for};
ghost use Rattle.amr_config.specs.Settled.{settings_of, stated_config, AreParentsFirst};
ghost use Rattle.amr_config.specs.Subtrees.{IsSubtreeEnd};

use crate::defaults::{GROUP_INTERVAL_MINUTES, GROUP_WAIT_SECONDS, REPEAT_INTERVAL_HOURS};
use crate::inherit::inherit;
use crate::interval_indexes::interval_indexes;
use crate::own_paths::own_paths;
use crate::receiver_indexes::receiver_indexes;
use crate::route_path::RoutePath;
use crate::rule_names::rule_names;
use crate::settings::Settings;
use crate::stated::{Grouping, InhibitRule, Integration, NamedInterval, Receiver, Route, Stated};
use crate::subtrees::subtree_ends;
use amr_labels::matcher::Matchers;
use amr_labels::{Exact, Labels, Listing, Names, Text};
use amr_time::{Moment, Span};
use std::alloc::{AllocError, Global};
use std::cmp::Ordering;
use std::collections::BTreeMap;
use std::marker::Model;
use std::rc::Rc;

/// The content of a configuration: what the file says, the resolved settings of each route, and the
/// names of the labels that the rules' matchers name.
#[derive(Drop)]
pub(crate) struct Parts {
    pub(crate) stated: Stated,
    pub(crate) settings: Listing<Settings>,
    /// For each route, the index of its receiver.
    pub(crate) receiver_indexes: Listing<Option<usize>>,
    /// For each route, whether no other route has its path.
    pub(crate) own_paths: Listing<bool>,
    /// For each route, where the routes below it end.
    pub(crate) subtree_ends: Listing<usize>,
    /// For each name of a time interval, its index.
    pub(crate) interval_indexes: BTreeMap<Text, usize>,
    pub(crate) rule_names: Option<Names>,
}

/// A configuration. Clones share its content.
///
/// Routes are named by their numbers, which count them in preorder; the root is 0.
#[derive(Drop)]
pub struct Config {
    shared: Rc<Parts>,
}

impl Model for Config {
    ghost use Rattle.amr_config.specs.Stated.Config.{Config};

    ghost Value = { Config };

    ghost use Rattle.amr_config.specs.Settled.{config_of_parts, AreSettled};

    ghost view = { λ a. config_of_parts a.shared.value };

    ghost invariant = { λ a. AreSettled a.shared.value };
}

impl Clone for Config {
    ghost is_clone = { λ a b. b ≡ a };

    fn clone(&self) -> Result<Config, AllocError> {
        Ok(Config {
            shared: self.shared.clone()?,
        })
    }
}

impl Exact for Config {
    ghost exact = { λ x y same. same };
}

impl Config {
    /// Builds the configuration, and resolves the settings of its routes.
    pub fn from_stated(alloc: Global, stated: Stated) -> Result<Config, AllocError>
        requires { AreParentsFirst (stated_config stated) }
        ensures { IfOk result (λ config. config ≡ stated_config stated) }
    {
        let settings = inherit(alloc, &stated)?;
        let rule_names = rule_names(alloc, stated.rules.as_slice())?;
        let receiver_indexes = receiver_indexes(alloc, &stated, settings.as_slice())?;
        let interval_indexes = interval_indexes(alloc, stated.time_intervals.as_slice())?;
        let own_paths = own_paths(alloc, &stated, settings.as_slice())?;
        let subtree_ends = subtree_ends(alloc, stated.routes.as_slice())?;
        let parts = Parts {
            stated,
            settings,
            receiver_indexes,
            own_paths,
            subtree_ends,
            interval_indexes,
            rule_names,
        };
        Ok(Config {
            shared: Rc::new(alloc, parts)?,
        })
    }

    /// Returns the settings of a route, or `None` if there is no such route.
    #[tactic(auto, using(crate::proofs::Inherited::settings_found))]
    fn settings_at(&self, route: usize) -> Option<&Settings>
        ensures found { MatchOption result (length self.now.routes ≤ route)
            (λ found. (route < length self.now.routes) × (found.now ≡ settings_of self.now route)) }
        ensures parents { AreParentsFirst self.now }
    {
        self.shared.settings.as_slice().get(route)
    }

    /// Returns the number of routes, with the root.
    pub fn route_count(&self) -> usize
        ensures { result ≡ length self.now.routes }
    {
        self.shared.stated.routes.len()
    }

    /// Returns where the routes below a route end: they are those after it and before this number.
    pub(crate) fn subtree_end(&self, route: usize) -> usize
        requires { route < length self.now.routes }
        ensures value { IsSubtreeEnd self.now.routes route result }
        ensures parents { AreParentsFirst self.now }
    {
        match self.shared.subtree_ends.as_slice().get(route) {
            Some(end) => *end,
            None => unreachable!(),
        }
    }

    /// Returns the number of receivers.
    pub fn receiver_count(&self) -> usize
        ensures { result ≡ length self.now.receivers }
    {
        self.shared.stated.receivers.len()
    }

    /// Returns the inhibition rules (`inhibit_rules` of Alertmanager's configuration).
    pub fn rules(&self) -> &[InhibitRule]
        ensures { result.now ≡ self.now.rules }
    {
        self.shared.stated.rules.as_slice()
    }

    /// Returns the labels that matchers of the inhibition rules name. Returns `None` if it is better
    /// to ask the rules for each label set.
    pub(crate) fn kept_for_rules(
        &self,
        alloc: Global,
        labels: &Labels,
    ) -> Result<Option<Labels>, AllocError>
        ensures { IfOk result (λ found. IfSome found (λ kept.
            kept ≡ kept_for self.now.rules labels.now)) }
    {
        match &self.shared.rule_names {
            Some(names) => Ok(Some(labels.kept_by_names(alloc, names)?)),
            None => Ok(None),
        }
    }

    /// Returns the routes, in preorder.
    pub(crate) fn routes(&self) -> &[Route]
        ensures { result.now ≡ self.now.routes }
    {
        self.shared.stated.routes.as_slice()
    }

    /// Returns how long after its post an alert without an end is resolved (`resolve_timeout`).
    pub fn resolve_timeout(&self) -> Span
        ensures { result ≡ self.now.resolve_timeout }
    {
        self.shared.stated.resolve_timeout
    }
}

#[tactic(auto, using(crate::proofs::Inherited::inherited_past), unfolding(crate::specs::Settled::settings_of))]
impl Config {
    /// Returns how long a new group of the route waits for its first flush (`group_wait`).
    pub fn group_wait(&self, route: usize) -> Span
        ensures { result ≡ group_wait_of self.now route }
    {
        match self.settings_at(route) {
            Some(settings) => settings.group_wait,
            None => Span::from_seconds(GROUP_WAIT_SECONDS),
        }
    }

    /// Returns how long a group of the route waits between flushes (`group_interval`).
    pub fn group_interval(&self, route: usize) -> Span
        ensures { result ≡ group_interval_of self.now route }
    {
        match self.settings_at(route) {
            Some(settings) => settings.group_interval,
            None => Span::from_minutes(GROUP_INTERVAL_MINUTES),
        }
    }

    /// Returns how long a notification isn't repeated if nothing changes (`repeat_interval`).
    pub fn repeat_interval(&self, route: usize) -> Span
        ensures { result ≡ repeat_interval_of self.now route }
    {
        match self.settings_at(route) {
            Some(settings) => settings.repeat_interval,
            None => Span::from_hours(REPEAT_INTERVAL_HOURS),
        }
    }

    /// Returns the name of the route's receiver.
    pub fn receiver_name(&self, alloc: Global, route: usize) -> Result<Text, AllocError>
        ensures { IfOk result (λ name. name ≡ receiver_name_of self.now route) }
    {
        match self.settings_at(route) {
            Some(settings) => settings.receiver.clone(),
            None => Text::from_str(alloc, ""),
        }
    }

    /// Returns the matchers of each route from the root down to this one, each list sorted by name,
    /// value and operator. It is part of the notification log's key, so that two routes with the
    /// same receiver share entries only if their paths are equal.
    pub fn path(&self, alloc: Global, route: usize) -> Result<RoutePath, AllocError>
        ensures { IfOk result (λ path. path ≡ path_of self.now route) }
    {
        match self.settings_at(route) {
            Some(settings) => settings.path.clone(),
            None => RoutePath::root(alloc, Matchers::none(alloc)?),
        }
    }

    /// Returns whether no other route has the path of this one. Then no group of another route has a
    /// key of this route's groups in the notification log.
    pub fn has_own_path(&self, route: usize) -> bool
        ensures { Decides result (HasOwnPath self.now route) }
    {
        match self.shared.own_paths.as_slice().get(route) {
            Some(is_own) => *is_own,
            None => false,
        }
    }

    /// Returns how the route groups alerts (`group_by`).
    #[tactic(auto, using(crate::proofs::Inherited::inherited_past), unfolding(crate::specs::Settled::settings_of))]
    pub(crate) fn grouping(&self, route: usize) -> Option<&Grouping>
        ensures { option_copied result
            ≡ inherited_value (λ route. route.group_by) self.now route }
    {
        self.settings_at(route)?.group_by.as_ref()
    }

    /// Returns the group labels of an alert at the route.
    #[tactic(auto, unfolding(crate::specs::Routing::group_of))]
    pub fn group_of(
        &self,
        alloc: Global,
        route: usize,
        labels: &Labels,
    ) -> Result<Labels, AllocError>
        ensures { IfOk result (λ group. group ≡ group_of self.now route labels.now) }
    {
        grouped_by(alloc, self.grouping(route), labels)
    }

    /// Returns the receiver with a name.
    pub fn receiver(&self, name: &str) -> Option<&Receiver>
        ensures { option_copied result
            ≡ find (λ receiver. eq_by_cmp text_cmp receiver.name name.now) self.now.receivers }
    {
        receiver_named(self.shared.stated.receivers.as_slice(), name)
    }

    /// Returns the integrations of the route's receiver, by kind and then by index.
    pub fn integrations(&self, route: usize) -> &[Integration]
        ensures { result.now ≡ integrations_of self.now route }
    {
        match self.receiver_of(route) {
            Some(receiver) => receiver.integrations.as_slice(),
            None => &[],
        }
    }

    /// Returns the route's receiver.
    fn receiver_of(&self, route: usize) -> Option<&Receiver>
        ensures { option_copied result
            ≡ receiver_named self.now.receivers (receiver_name_of self.now route) }
    {
        match self.shared.receiver_indexes.as_slice().get(route) {
            Some(index) => receiver_at(self.shared.stated.receivers.as_slice(), *index),
            None => self.receiver(""),
        }
    }

    /// Returns whether the route notifies at a moment: it has no `active_time_intervals`, or the
    /// moment is in one of them.
    pub fn is_active_at(&self, route: usize, moment: Moment) -> bool
        ensures { result ≡ is_active_at self.now route moment }
    {
        match self.settings_at(route) {
            Some(settings) => {
                settings.active_time_intervals.is_empty()
                    || self.is_in_one(settings.active_time_intervals.as_slice(), moment)
            }
            None => true,
        }
    }

    /// Returns whether the route is muted at a moment, by one of its `mute_time_intervals`.
    pub fn is_muted_at(&self, route: usize, moment: Moment) -> bool
        ensures { result ≡ is_muted_at self.now route moment }
    {
        match self.settings_at(route) {
            Some(settings) => self.is_in_one(settings.mute_time_intervals.as_slice(), moment),
            None => false,
        }
    }

    /// Returns whether a moment is in one of the intervals with these names.
    fn is_in_one(&self, names: &[Text], moment: Moment) -> bool
        ensures { result ≡ list_any (is_within self.now moment) names.now }
    {
        names.iter().any(|name| self.is_within(name, moment))
    }

    /// Returns whether a moment is in the interval with a name.
    #[tactic(auto, unfolding(crate::specs::Routing::is_within))]
    fn is_within(&self, name: &Text, moment: Moment) -> bool
        ensures { result ≡ is_within self.now moment name.now }
    {
        match self.interval_named(name) {
            Some(found) => found.interval.contains(moment),
            None => false,
        }
    }

    /// Returns the time interval with a name.
    fn interval_named(&self, name: &Text) -> Option<&NamedInterval>
        ensures { option_copied result ≡ interval_named self.now.time_intervals name.now }
    {
        let index = self.shared.interval_indexes.get(name).copied();
        interval_at(self.shared.stated.time_intervals.as_slice(), index)
    }

    /// Returns the settings of a route: its own, inherited, or default.
    pub fn route(&self, id: usize) -> &Settings
        requires { id < length self.now.routes }
        ensures value { result.now ≡ settings_of self.now id }
        ensures parents { AreParentsFirst self.now }
    {
        match self.settings_at(id) {
            Some(settings) => settings,
            None => unreachable!(),
        }
    }
}

/// Returns the time interval at an index, if there is one.
fn interval_at(intervals: &[NamedInterval], index: Option<usize>) -> Option<&NamedInterval>
    ensures { option_copied result ≡ interval_at intervals.now index }
{
    match index {
        Some(index) => intervals.get(index),
        None => None,
    }
}

/// Returns the receiver at an index, if there is one.
fn receiver_at(receivers: &[Receiver], index: Option<usize>) -> Option<&Receiver>
    ensures { option_copied result ≡ receiver_at receivers.now index }
{
    match index {
        Some(index) => receivers.get(index),
        None => None,
    }
}

/// Returns the receiver with a name.
fn receiver_named<'a>(receivers: &'a [Receiver], name: &str) -> Option<&'a Receiver>
    ensures { option_copied result
        ≡ find (λ receiver. eq_by_cmp text_cmp receiver.name name.now) receivers.now }
{
    for receiver in receivers {
        if receiver.name.as_str().cmp(name) == Ordering::Equal {
            return Some(receiver);
        }
    }
    None
}

/// Returns the labels that a grouping keeps.
pub(crate) fn grouped_by(
    alloc: Global,
    grouping: Option<&Grouping>,
    labels: &Labels,
) -> Result<Labels, AllocError>
    ensures { IfOk result (λ group.
        group ≡ grouped_by (option_copied grouping.entry) labels.now) }
{
    match grouping {
        None => Labels::empty(alloc),
        Some(Grouping::AllLabels) => labels.clone(),
        Some(Grouping::Named(names)) => labels.kept_by_names(alloc, names),
    }
}
