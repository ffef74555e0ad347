//! The stored alerts by label set, with the moment at which each is removed, and with the label sets
//! that can be sources of inhibition rules. `Store` changes the alerts here, and the moments follow;
//! inhibition asks for a rule's sources. It neither merges alerts nor decides when one is removed.
ghost use Rattle.std.specs.Prelude.{◌≡◌, None, Some, option_map, IfOk};
ghost use Rattle.std.specs.Option.{option_copied};
ghost use Rattle.amr_labels.specs.Labels.{label_set_cmp};
ghost use Rattle.amr_labels.specs.Map as map;
ghost use Rattle.amr_labels.specs.Set as set;
ghost use Rattle.amr_tables.specs.Places.{values_of};
ghost use Rattle.amr_tables.specs.Numbered.{map_of, number_of, KeepsPlaces, SamePlaces, IsNumber, IsNumbering, IsSetAt, IsValueOf};
ghost use Rattle.amr_rules.specs.Muting.{sources_of};
ghost use Rattle.amr_engine.specs.Indexes.RuleSources.{pairs_of, stored_of};
ghost use Rattle.amr_config.specs.RouteLabels.{route_labels_cmp};
ghost use Rattle.amr_engine.specs.State.Dues.{dues_of};
ghost use Rattle.amr_engine.specs.declared.state.due.Kind.TheVariants.{AlertRemoval};
ghost use Rattle.amr_engine.specs.declared.state.notification.GroupTimer.{GroupTimer};
ghost use Rattle.amr_engine.specs.State.Timed.{IsScheduled, IsFirstOfKind, alert_moment, due_of};

use crate::indexes::RuleSources;
use crate::state::due::alert_removal;
use crate::state::pending::{Pending, TimerRef, count_with_next};
use amr_config::stated::{InhibitRule, RuleMatch};
use amr_labels::{LabelMap, Labels, Shared};
use amr_rules::{Alert, AlertStore, is_agreeing};
use amr_tables::{Earliest, Keyed, Schedule, Values};
use std::alloc::{AllocError, Global};
use std::cmp::Ordering;
use std::marker::Model;

/// The stored alerts by label set. The sources know each label set that has a place. A place is
/// never lost, so nothing leaves the sources. Every change of an alert updates its moment, which goes
/// by the number of its label set.
#[derive(Drop)]
pub struct AlertTable {
    alerts: Keyed<Labels, Shared<Alert>>,
    sources: RuleSources,
    /// When each alert is removed.
    removals: Earliest,
}

impl Model for AlertTable {
    ghost use Rattle.std.specs.Coded.{codes};
    ghost use Rattle.amr_labels.specs.Map as map;
    ghost use Rattle.amr_labels.specs.Labels.{LabelSet};
    ghost use Rattle.amr_rules.specs.declared.alert.Alert.{Alert};
    ghost use Rattle.amr_tables.specs.Numbered.{Numbered};
    ghost use Rattle.amr_engine.specs.Indexes.RuleSources.{AllArrived};
    ghost use Rattle.amr_engine.specs.State.Timed.{AreRemoved};

    ghost Value = { Numbered LabelSet Alert };

    ghost coded = { Prim.hlevel (codes, map.code) };

    ghost view = { λ t. t.alerts };

    ghost invariant = { λ t. AreRemoved t.alerts t.removals × AllArrived t.alerts t.sources };
}

impl AlertTable {
    /// Builds a table without alerts.
    pub fn new(alloc: Global) -> AlertTable
        ensures shown { map_of label_set_cmp result ≡ map.empty }
    {
        AlertTable {
            alerts: Keyed::new(alloc),
            sources: RuleSources::new(alloc),
            removals: Earliest::new(alloc),
        }
    }

    /// Returns the alert with these labels.
    pub fn get(&self, labels: &Labels) -> Option<&Alert>
        ensures { option_copied result ≡ map.get (map_of label_set_cmp self.now) labels.now }
    {
        Some(self.alerts.get(labels)?.get())
    }

    /// Returns the stored alerts by label set, with the numbers of the label sets.
    pub fn by_number(&self) -> &Keyed<Labels, Shared<Alert>>
        ensures { result.now ≡ self.now }
    {
        &self.alerts
    }

    /// Returns the alerts with their labels, in the order of the labels. It sorts them, so it is for
    /// listings.
    pub fn sorted(&self, alloc: Global) -> Result<Vec<(&Labels, &Shared<Alert>)>, AllocError>
        ensures { IfOk result (λ found. pairs_of found.items
            ≡ map.entries (map_of label_set_cmp self.now)) }
    {
        self.alerts.sorted(alloc)
    }

    /// Returns the alerts, in the order in which their labels came. It takes no memory.
    pub fn values(&self) -> Values<'_, Shared<Alert>>
        ensures { result ≡ values_of self.now.cells }
    {
        self.alerts.values()
    }

    /// Returns the first removal of an alert.
    #[inline(always)]
    pub(crate) fn first_removal(&self) -> Option<Pending<'_>>
        ensures { (timers : map.Map route_labels_cmp GroupTimer) → IsFirstOfKind AlertRemoval
            (dues_of (map_of label_set_cmp self.now) timers) (option_map due_of result) }
    {
        let alerts = &self.alerts;
        AlertRemovals { alerts }.first(&self.removals)
    }

    /// Works out which label sets can be sources of those rules that have a label set as a target,
    /// given which sides of each rule it is on, so that `sources` needn't ask the matchers of these
    /// rules. It asks them once for each label set. It works nothing out if there is no room for it.
    pub fn cache_sources(&mut self, rules: &[InhibitRule], matched: &[RuleMatch])
        ensures { self.new ≡ self.old }
    {
        cache_sides(&mut self.sources, rules, matched);
    }

    /// Forgets which rules the indexes of the configuration have. Each event does it, and each undoing
    /// of one, since another configuration may be in force then.
    pub fn forget_indexes(&mut self)
        ensures { self.new ≡ self.old }
    {
        self.sources.forget_indexes();
    }

    /// Swaps the alert of the label set with a number, or `None` if it has none, with another. It
    /// takes no memory.
    pub fn swap_at(&mut self, number: usize, alert: &mut Option<Shared<Alert>>)
        requires { IsNumber label_set_cmp self.old number }
        ensures former { IsValueOf label_set_cmp self.old number alert.new }
        ensures shown { IsSetAt label_set_cmp self.old number alert.old self.new }
        ensures places { SamePlaces label_set_cmp self.old self.new }
    {
        self.alerts.swap_at(number, alert);
        // `alert` is the former one now.
        let former = alert_moment(alert.as_ref());
        let alerts = &self.alerts;
        self.removals
            .update(&AlertRemovals { alerts }, number, former);
    }

    /// Returns the number of a label set's place. Makes the place if there is none.
    pub fn place(&mut self, labels: &Labels) -> Result<usize, AllocError>
        ensures number { IfOk result (λ number.
            number_of label_set_cmp self.new labels.now ≡ Some number) }
        ensures shown { map_of label_set_cmp self.new ≡ map_of label_set_cmp self.old }
        ensures places { KeepsPlaces label_set_cmp self.old self.new }
    {
        match self.alerts.number_of(labels) {
            Some(number) => Ok(number),
            None => self.add(labels),
        }
    }

    /// Makes a place for a label set that has none, with room for its moment, and adds it to the
    /// sources. Returns its number.
    fn add(&mut self, labels: &Labels) -> Result<usize, AllocError>
        requires { number_of label_set_cmp self.old labels.now ≡ None }
        ensures number { IfOk result (λ number.
            number_of label_set_cmp self.new labels.now ≡ Some number) }
        ensures shown { map_of label_set_cmp self.new ≡ map_of label_set_cmp self.old }
        ensures places { KeepsPlaces label_set_cmp self.old self.new }
    {
        let copy = labels.clone()?;
        let count = count_with_next(&self.alerts)?;
        self.removals.reserve(count)?;
        self.sources.add(labels.clone()?)?;
        let number = self.alerts.make_place(copy)?;
        Ok(number)
    }
}

impl AlertStore for AlertTable {
    ghost alerts = { map_of label_set_cmp };

    fn sources(
        &self,
        alloc: Global,
        index: usize,
        rule: &InhibitRule,
        target: &Labels,
    ) -> Result<Vec<(&Labels, &Alert)>, AllocError> {
        let cached = self.sources.agreeing(index, rule, target)?;
        let Some(listed) = cached else {
            return sources_among(alloc, &self.alerts, rule, target);
        };
        match listed {
            None => Ok(Vec::new(alloc)),
            Some(listed) => stored_of(alloc, &self.alerts, listed),
        }
    }
}

/// Lists those of the stored alerts that match a rule's source matchers and agree with a target on
/// the labels in `equal`. It looks at each of them.
fn sources_among<'a>(
    alloc: Global,
    alerts: &'a Keyed<Labels, Shared<Alert>>,
    rule: &InhibitRule,
    target: &Labels,
) -> Result<Vec<(&'a Labels, &'a Alert)>, AllocError>
    ensures { IfOk result (λ found. pairs_of found.items
        ≡ sources_of rule.now target.now (map_of label_set_cmp alerts.now)) }
{
    let stored = alerts.sorted(alloc)?;
    let mut found = Vec::new(alloc);
    for &(labels, alert) in stored.as_slice() {
        if is_agreeing(alloc, rule, target, labels)? {
            found.push((labels, alert.get()))?;
        }
    }
    Ok(found)
}

/// Lists those of the label sets under which alerts are stored, with the alerts.
fn stored_of<'a>(
    alloc: Global,
    alerts: &'a Keyed<Labels, Shared<Alert>>,
    listed: &'a LabelMap<()>,
) -> Result<Vec<(&'a Labels, &'a Alert)>, AllocError>
    ensures { IfOk result (λ found. pairs_of found.items
        ≡ stored_of (map_of label_set_cmp alerts.now) (set.items listed.now)) }
{
    let mut found = Vec::new(alloc);
    for (labels, _) in listed.iter() {
        if let Some(alert) = alerts.get(labels) {
            found.push((labels, alert.get()))?;
        }
    }
    Ok(found)
}

/// Works out which label sets can be sources of those rules that have a label set as a target,
/// given which sides of each rule it is on.
fn cache_sides(sources: &mut RuleSources, rules: &[InhibitRule], matched: &[RuleMatch])
    ensures { sources.new ≡ sources.old }
{
    for (index, rule) in rules.iter().enumerate() {
        match matched.get(index) {
            Some(side) if side.is_target => sources.cache(index, rule),
            _ => {}
        }
    }
}

/// The removals of alerts. Of several at one moment, the label sets decide which is first.
#[derive(Clone, Copy)]
struct AlertRemovals<'a> {
    alerts: &'a Keyed<Labels, Shared<Alert>>,
}

impl Schedule for AlertRemovals<'_> {
    ghost use Rattle.amr_labels.specs.Labels.{label_set_cmp, label_set_cmp_total};
    ghost use Rattle.amr_tables.specs.Numbered.{rank_of};
    ghost use Rattle.amr_tables.proofs.Keying.{rank_of-total};
    ghost use Rattle.amr_engine.specs.State.Timed.{alert_moment, moments_in};

    ghost rank = { λ s. rank_of label_set_cmp s.alerts.now };

    ghost ranked = { λ s. rank_of-total label_set_cmp_total s.alerts.now };

    ghost moments = { λ s. moments_in alert_moment s.alerts.now };

    fn compare(&self, a: usize, b: usize) -> Ordering {
        self.alerts.compare_at(a, b)
    }

    fn moment(&self, number: usize) -> Option<u128> {
        alert_moment(self.alerts.at(number))
    }
}

impl<'a> AlertRemovals<'a> {
    /// Returns the first of the removals.
    #[inline(always)]
    fn first(self, earliest: &Earliest) -> Option<Pending<'a>>
        requires numbering { IsNumbering label_set_cmp self.alerts.now }
        requires scheduled { IsScheduled label_set_cmp alert_moment self.alerts.now earliest.now }
        ensures { (timers : map.Map route_labels_cmp GroupTimer) → IsFirstOfKind AlertRemoval
            (dues_of (map_of label_set_cmp self.entry.alerts.now) timers)
            (option_map due_of result) }
    {
        let first = earliest.first(&self)?;
        let labels = self.alerts.key_at(first.number)?;
        Some(Pending {
            moment: first.moment,
            timer: TimerRef::AlertRemoval(labels),
        })
    }
}

/// Returns when an alert is removed, in nanoseconds since 1970, or `None` without an alert.
fn alert_moment(alert: Option<&Shared<Alert>>) -> Option<u128>
    ensures { result ≡ alert_moment (option_copied alert.entry) }
{
    Some(alert_removal(alert?.get()))
}
