//! The configuration in force with the groups: their timers and their members. `Store` changes it.
//! The group of a member depends on the configuration, so both are kept together. This is all that a
//! change of the configuration drops.
ghost use Rattle.std.specs.Prelude.{◌≡◌, ◌++◌, [], Some, None, option_map, OnOk, IfOk};
ghost use Rattle.amr_labels.specs.Labels.{label_set_cmp};
ghost use Rattle.amr_labels.specs.Map as map;
ghost use Rattle.amr_config.specs.Groups.{groups_of};
ghost use Rattle.amr_config.specs.Stated.RuleMatches.{rule_matches};
ghost use Rattle.amr_tables.specs.Numbered.{map_of, number_of, IsNumber, IsSetAt, IsValueOf, KeepsPlaces, SamePlaces};
ghost use Rattle.std.specs.List.{cons_option};
ghost use Rattle.amr_config.specs.RouteLabels.{route_labels_cmp};
ghost use Rattle.amr_engine.specs.State.State.{group_key, members_among};
ghost use Rattle.amr_engine.specs.State.Dues.{dues_of};
ghost use Rattle.amr_engine.specs.declared.state.due.Kind.TheVariants.{GroupRemoval, GroupFlush};
ghost use Rattle.amr_engine.specs.State.Timed.{IsFirstOfKind, due_of};
ghost use Rattle.amr_engine.specs.State.Rostered.{member_at};

use crate::state::due::Kind;
use crate::state::group_timers::{GroupTimers, group_moment};
use crate::state::keys::group_key;
use crate::state::members::Member;
use crate::state::notification::GroupTimer;
use crate::state::pending::{Pending, count_with_next};
use amr_config::stated::RuleMatch;
use amr_config::{Config, RouteLabels, Router};
use amr_labels::{Labels, Listing, Shared};
use amr_rules::Alert;
use amr_tables::{Earliest, Grouped, Keyed};
use std::alloc::{AllocError, Global};
use std::cmp::Ordering;
use std::marker::Model;
use std::mem;

/// The configuration in force, and the groups with their timers and members. A member that comes or
/// leaves joins the numbers of its group or is taken out, and every change of a timer updates its
/// moments.
#[derive(Drop)]
pub(crate) struct Roster {
    alloc: Global,
    config: Router,
    placements: Keyed<RouteLabels, Shared<Alert>>,
    timers: Keyed<RouteLabels, GroupTimer>,
    /// The group that each place of a member belongs to, and the members that it has now.
    members: Grouped,
    /// When each group without members is removed, by their numbers.
    removals: Earliest,
    /// When each group is flushed, by their numbers.
    flushes: Earliest,
}

impl Model for Roster {
    ghost use Rattle.std.specs.Coded.{codes};
    ghost use Rattle.amr_labels.specs.Map as map;
    ghost use Rattle.amr_engine.specs.State.Rostered.{Rostered, IsGrouped};
    ghost use Rattle.amr_engine.specs.State.Timed.{AreTimed};

    ghost Value = { Rostered };

    ghost coded = { Prim.hlevel (codes, map.code) };

    ghost view = { λ r. record { config = r.config; placements = r.placements; timers = r.timers } };

    ghost invariant = { λ r. IsGrouped r.config r.placements r.timers r.members
        × AreTimed r.timers r.removals r.flushes };
}

impl Roster {
    /// Builds a roster without groups.
    pub(crate) fn new(alloc: Global, config: Config) -> Roster
        ensures config { result.config ≡ config }
        ensures shown { map_of route_labels_cmp result.placements ≡ map.empty }
        ensures timers { map_of route_labels_cmp result.timers ≡ map.empty }
    {
        Roster {
            alloc,
            config: Router::new(alloc, config),
            placements: Keyed::new(alloc),
            timers: Keyed::new(alloc),
            members: Grouped::new(alloc),
            removals: Earliest::new(alloc),
            flushes: Earliest::new(alloc),
        }
    }

    /// Returns the configuration in force.
    pub(crate) fn config(&self) -> &Config
        ensures { result.now ≡ self.now.config }
    {
        self.config.config()
    }

    /// Returns the group of this label set on each route that takes it, by route.
    pub(crate) fn groups_of(
        &mut self,
        number: Option<usize>,
        labels: &Labels,
    ) -> Result<Shared<Listing<RouteLabels>>, AllocError>
        ensures groups { IfOk result (λ groups. groups ≡ groups_of self.old.config labels.now) }
        ensures same { self.new ≡ self.old }
    {
        self.config.groups_of(number, labels)
    }

    /// Returns which sides of the configuration's inhibition rules this label set is on.
    pub(crate) fn rule_matches(
        &self,
        number: Option<usize>,
        labels: &Labels,
    ) -> Result<Shared<Listing<RuleMatch>>, AllocError>
        ensures { IfOk result (λ found. found ≡ rule_matches labels.now self.now.config.rules) }
    {
        self.config.rule_matches(number, labels)
    }

    /// Returns the members of all groups, by route and labels.
    pub(crate) fn placements(&self) -> &Keyed<RouteLabels, Shared<Alert>>
        ensures { result.now ≡ self.now.placements }
    {
        &self.placements
    }

    /// Returns the timers of groups.
    pub(crate) fn timers(&self) -> &Keyed<RouteLabels, GroupTimer>
        ensures { result.now ≡ self.now.timers }
    {
        &self.timers
    }

    /// Returns the first removal of a group.
    #[inline(always)]
    pub(crate) fn first_removal(&self) -> Option<Pending<'_>>
        ensures { (alerts : map.Map label_set_cmp Alert) → IsFirstOfKind GroupRemoval
            (dues_of alerts (map_of route_labels_cmp self.now.timers)) (option_map due_of result) }
    {
        let kind = Kind::GroupRemoval;
        let timers = &self.timers;
        GroupTimers { timers, kind }.first(&self.removals)
    }

    /// Returns the first flush of a group.
    pub(crate) fn first_flush(&self) -> Option<Pending<'_>>
        ensures { (alerts : map.Map label_set_cmp Alert) → IsFirstOfKind GroupFlush
            (dues_of alerts (map_of route_labels_cmp self.now.timers)) (option_map due_of result) }
    {
        let kind = Kind::GroupFlush;
        let timers = &self.timers;
        GroupTimers { timers, kind }.first(&self.flushes)
    }

    /// Returns the members of a group, by labels. Its time doesn't grow with the number of members
    /// of other groups.
    pub(crate) fn members_of(&self, group: &RouteLabels) -> Result<Vec<Member>, AllocError>
        ensures { IfOk result (λ found. found.items
            ≡ members_among self.now.config (map_of route_labels_cmp self.now.placements)
            group.now) }
    {
        let Some(number) = self.timers.number_of(group) else {
            return Ok(Vec::new(self.alloc));
        };
        let numbers = self.members.numbers_of(number);
        let mut found = Vec::with_capacity(self.alloc, numbers.len())?;
        for &member in numbers {
            push_member(&mut found, &self.placements, member)?;
        }
        found.sort_by(
            |a: &Member, b: &Member| -> Ordering
                ensures { result ≡ label_set_cmp a.now.0 b.now.0 }
            { a.0.cmp(&b.0) },
        )?;
        Ok(found)
    }

    /// Returns the number of a member's place. Makes the place if there is none, in the group that
    /// the configuration gives it.
    pub(crate) fn place_member(&mut self, member: &RouteLabels) -> Result<usize, AllocError>
        ensures number { IfOk result (λ number.
            number_of route_labels_cmp self.new.placements member.now ≡ Some number) }
        ensures shown { map_of route_labels_cmp self.new.placements
            ≡ map_of route_labels_cmp self.old.placements }
        ensures places { KeepsPlaces route_labels_cmp self.old.placements self.new.placements }
        ensures timers { map_of route_labels_cmp self.new.timers
            ≡ map_of route_labels_cmp self.old.timers }
        ensures timer_places { KeepsPlaces route_labels_cmp self.old.timers self.new.timers }
        ensures config { self.new.config ≡ self.old.config }
    {
        if let Some(number) = self.placements.number_of(member) {
            return Ok(number);
        }
        let config = self.config.config();
        let group = group_key(self.alloc, config, member.route, &member.labels)?;
        self.place_in_group(member, &group)
    }

    /// Returns the number of a member's place. Makes the place if there is none, in this group,
    /// which is the one that the configuration gives it.
    pub(crate) fn place_in_group(
        &mut self,
        member: &RouteLabels,
        group: &RouteLabels,
    ) -> Result<usize, AllocError>
        requires { group.now ≡ group_key self.old.config member.now }
        ensures number { IfOk result (λ number.
            number_of route_labels_cmp self.new.placements member.now ≡ Some number) }
        ensures shown { map_of route_labels_cmp self.new.placements
            ≡ map_of route_labels_cmp self.old.placements }
        ensures places { KeepsPlaces route_labels_cmp self.old.placements self.new.placements }
        ensures timers { map_of route_labels_cmp self.new.timers
            ≡ map_of route_labels_cmp self.old.timers }
        ensures timer_places { KeepsPlaces route_labels_cmp self.old.timers self.new.timers }
        ensures config { self.new.config ≡ self.old.config }
    {
        if let Some(number) = self.placements.number_of(member) {
            return Ok(number);
        }
        let home = self.place_group(group)?;
        self.add_member(member, home)
    }

    /// Swaps the alert of a member of its group, or `None` if it is no member, with another, given
    /// the number of its place. It takes no memory.
    pub(crate) fn swap_member(&mut self, number: usize, alert: &mut Option<Shared<Alert>>)
        requires { IsNumber route_labels_cmp self.old.placements number }
        ensures former { IsValueOf route_labels_cmp self.old.placements number alert.new }
        ensures shown { IsSetAt route_labels_cmp self.old.placements number alert.old
            self.new.placements }
        ensures places { SamePlaces route_labels_cmp self.old.placements self.new.placements }
        ensures keys { self.new.placements.numbers ≡ self.old.placements.numbers }
        ensures timers { self.new.timers ≡ self.old.timers }
        ensures config { self.new.config ≡ self.old.config }
    {
        self.members.set(number, alert.is_some());
        self.placements.swap_at(number, alert);
    }

    /// Returns the timer of a member's group, given the number of the member's place. It compares no
    /// keys.
    pub(crate) fn group_timer_of(&self, number: usize) -> Option<GroupTimer>
        ensures { (member : RouteLabels)
            → number_of route_labels_cmp self.now.placements member ≡ Some number
            → result ≡ map.get (map_of route_labels_cmp self.now.timers)
            (group_key self.now.config member) }
    {
        let home = self.members.group_of(number)?;
        self.timers.at(home).copied()
    }

    /// Swaps it with another, which takes over what doesn't depend on the configuration, such as what
    /// patterns answered. It takes no memory.
    pub(crate) fn swap(&mut self, other: &mut Roster)
        ensures here { self.new ≡ other.old }
        ensures other { other.new ≡ self.old }
    {
        mem::swap(self, other);
        self.config.swap_cache(&mut other.config);
    }

    /// Swaps the timer of the group with a number, or `None` if it has none, with another. It takes no
    /// memory.
    #[inline(always)]
    pub(crate) fn swap_timer(&mut self, number: usize, timer: &mut Option<GroupTimer>)
        requires { IsNumber route_labels_cmp self.old.timers number }
        ensures former { IsValueOf route_labels_cmp self.old.timers number timer.new }
        ensures shown { IsSetAt route_labels_cmp self.old.timers number timer.old self.new.timers }
        ensures places { SamePlaces route_labels_cmp self.old.timers self.new.timers }
        ensures placements { self.new.placements ≡ self.old.placements }
        ensures config { self.new.config ≡ self.old.config }
    {
        self.timers.swap_at(number, timer);
        // `timer` is the former one now.
        let flush = group_moment(Kind::GroupFlush, timer.as_ref());
        let removal = group_moment(Kind::GroupRemoval, timer.as_ref());
        let timers = &self.timers;
        let kind = Kind::GroupFlush;
        self.flushes
            .update(&GroupTimers { timers, kind }, number, flush);
        let kind = Kind::GroupRemoval;
        self.removals
            .update(&GroupTimers { timers, kind }, number, removal);
    }

    /// Returns the number of a group's place. Makes the place if there is none.
    pub(crate) fn place_group(&mut self, group: &RouteLabels) -> Result<usize, AllocError>
        ensures number { IfOk result (λ number.
            number_of route_labels_cmp self.new.timers group.now ≡ Some number) }
        ensures shown { map_of route_labels_cmp self.new.timers
            ≡ map_of route_labels_cmp self.old.timers }
        ensures places { KeepsPlaces route_labels_cmp self.old.timers self.new.timers }
        ensures placements { self.new.placements ≡ self.old.placements }
        ensures config { self.new.config ≡ self.old.config }
    {
        match self.timers.number_of(group) {
            Some(number) => Ok(number),
            None => self.add_group(group),
        }
    }

    /// Makes a place for a group that has none, with room for its members and its moments. Returns
    /// its number.
    fn add_group(&mut self, group: &RouteLabels) -> Result<usize, AllocError>
        requires { number_of route_labels_cmp self.old.timers group.now ≡ None }
        ensures number { IfOk result (λ number.
            number_of route_labels_cmp self.new.timers group.now ≡ Some number) }
        ensures shown { map_of route_labels_cmp self.new.timers
            ≡ map_of route_labels_cmp self.old.timers }
        ensures places { KeepsPlaces route_labels_cmp self.old.timers self.new.timers }
        ensures placements { self.new.placements ≡ self.old.placements }
        ensures config { self.new.config ≡ self.old.config }
    {
        let key = group.clone()?;
        let count = count_with_next(&self.timers)?;
        self.members.reserve_groups(count)?;
        self.flushes.reserve(count)?;
        self.removals.reserve(count)?;
        // Groups are flushed in turn. Without room in the queue, their moments take longer.
        drop(self.flushes.reserve_queue());
        let number = self.timers.make_place(key)?;
        Ok(number)
    }

    /// Makes a place for a member that has none, in the group with a number. Returns its number.
    fn add_member(&mut self, member: &RouteLabels, home: usize) -> Result<usize, AllocError>
        requires new { number_of route_labels_cmp self.old.placements member.now ≡ None }
        requires home { number_of route_labels_cmp self.old.timers
            (group_key self.old.config member.now) ≡ Some home }
        ensures number { IfOk result (λ number.
            number_of route_labels_cmp self.new.placements member.now ≡ Some number) }
        ensures shown { map_of route_labels_cmp self.new.placements
            ≡ map_of route_labels_cmp self.old.placements }
        ensures places { KeepsPlaces route_labels_cmp self.old.placements self.new.placements }
        ensures timers { self.new.timers ≡ self.old.timers }
        ensures config { self.new.config ≡ self.old.config }
    {
        let key = member.clone()?;
        self.members.reserve(home)?;
        let number = self.placements.make_place(key)?;
        self.members.add(home);
        Ok(number)
    }
}

/// Appends a copy of the labels and the alert of the member at a number, if there is one.
fn push_member(
    found: &mut Vec<Member>,
    placements: &Keyed<RouteLabels, Shared<Alert>>,
    number: usize,
) -> Result<(), AllocError>
    ensures { OnOk result (found.new.items
        ≡ found.old.items ++ cons_option (member_at placements.now number) []) }
{
    if let (Some(key), Some(alert)) = (placements.key_at(number), placements.at(number)) {
        found.push((key.labels.clone()?, alert.clone()?))?;
    }
    Ok(())
}
