//! The representation of the state: the clock, the tables and the notifications. `Store` owns it,
//! appends notifications and drops them; `displace` is the one way to change it otherwise.
ghost use Rattle.std.specs.Prelude.{◌≡◌, ◌↔◌, false, Some, IsTrue, IfOk};
ghost use Rattle.amr_tables.specs.Numbered.{map_of, has_place, number_of, KeepsPlaces};
ghost use Rattle.amr_labels.specs.Labels.{label_set_cmp};
ghost use Rattle.amr_config.specs.RouteLabels.{route_labels_cmp};
ghost use Rattle.amr_engine.specs.State.State.{group_key, log_key_cmp};
ghost use Rattle.amr_engine.specs.State.Dues.{dues_of, due_by, least_due};
ghost use Rattle.amr_engine.specs.Calm.{AreNoneRemoved};
ghost use Rattle.amr_engine.specs.State.Records.{after_change};
ghost use Rattle.amr_engine.specs.State.Stored.{shown_by, change_back, with_roster, SameValues, MorePlaces, IsSound, IsPlaceOf};

use crate::indexes::SilenceTable;
use crate::state::alert_table::AlertTable;
use crate::state::change::Change;
use crate::state::due::Due;
use crate::state::notification::{LogKey, Notification};
use crate::state::pending::{earlier, if_due, is_due};
use crate::state::roster::Roster;
use amr_config::RouteLabels;
use amr_labels::Shared;
use amr_rules::LogEntry;
use amr_tables::{Key, Keyed};
use amr_time::Moment;
use std::alloc::AllocError;
use std::mem;

/// The clock, the tables and the notifications.
#[derive(Drop)]
pub(crate) struct Tables {
    pub(crate) moment: Moment,
    pub(crate) alerts: AlertTable,
    pub(crate) silences: SilenceTable,
    pub(crate) roster: Roster,
    pub(crate) log: Keyed<LogKey, Shared<LogEntry>>,
    pub(crate) notes: Vec<Shared<Notification>>,
}

impl Tables {
    /// Returns the number of a change's place. Makes the place if there is none.
    #[inline(always)]
    pub(crate) fn place(&mut self, change: &Change) -> Result<usize, AllocError>
        ensures number { IfOk result (λ number. IsPlaceOf self.new change.now number) }
        ensures values { SameValues self.old self.new }
        ensures places { MorePlaces self.old self.new }
    {
        match change {
            Change::OfAlert(labels, _) => self.alerts.place(labels),
            Change::OfSilence(id, _) => self.silences.place(id),
            Change::OfMember(member, _) => self.roster.place_member(member),
            Change::OfTimer(group, _) => self.roster.place_group(group),
            Change::OfLog(key, _) => place_log(&mut self.log, key),
            Change::OfMoment(_) | Change::OfRoster(_) | Change::OfNotes(_) => Ok(0),
        }
    }

    /// Returns the number of the place of a member of a group. Makes the place if there is none.
    pub(crate) fn place_in_group(
        &mut self,
        member: &RouteLabels,
        group: &RouteLabels,
    ) -> Result<usize, AllocError>
        requires { group.now ≡ group_key self.old.roster.config member.now }
        ensures number { IfOk result (λ number.
            number_of route_labels_cmp self.new.roster.placements member.now ≡ Some number) }
        ensures values { SameValues self.old self.new }
        ensures places { MorePlaces self.old self.new }
    {
        self.roster.place_in_group(member, group)
    }

    /// Returns the number of a change's place, which there is.
    pub(crate) fn find(&self, change: &Change) -> usize
        requires { IsSound self.now change.now }
        ensures { IsPlaceOf self.now change.now result }
    {
        match change {
            Change::OfAlert(labels, _) => number_in(self.alerts.by_number(), labels),
            Change::OfSilence(id, _) => number_in(self.silences.silences(), id),
            Change::OfMember(member, _) => number_in(self.roster.placements(), member),
            Change::OfTimer(group, _) => number_in(self.roster.timers(), group),
            Change::OfLog(key, _) => number_in(&self.log, key),
            Change::OfMoment(_) | Change::OfRoster(_) | Change::OfNotes(_) => 0,
        }
    }

    /// Makes a change, given the number of its place. `change` becomes the one that leads back. It
    /// takes no memory.
    #[inline(always)]
    pub(crate) fn displace(&mut self, number: usize, change: &mut Change)
        requires { IsPlaceOf self.old change.old number }
        ensures state { shown_by self.new ≡ after_change (shown_by self.old) change.old }
        ensures back { change.new ≡ change_back self.old change.old }
        ensures places { MorePlaces (with_roster self.old change.old) self.new }
    {
        match change {
            Change::OfMoment(at) => mem::swap(&mut self.moment, at),
            Change::OfRoster(roster) => roster.swap(&mut self.roster),
            Change::OfAlert(_, alert) => self.alerts.swap_at(number, alert),
            Change::OfSilence(id, silence) => self.silences.swap_at(id, number, silence),
            Change::OfMember(_, alert) => self.roster.swap_member(number, alert),
            Change::OfTimer(_, timer) => self.roster.swap_timer(number, timer),
            Change::OfLog(_, entry) => self.log.swap_at(number, entry),
            Change::OfNotes(count) => {
                let was = self.notes.len();
                self.notes.truncate(*count);
                *count = was;
            }
        }
    }

    /// Returns the first pending timer at or before a moment, or `None` if no timer is pending then.
    pub(crate) fn next_due(&self, at: Moment) -> Result<Option<Due>, AllocError>
        ensures { IfOk result (λ due. due ≡ due_by at (least_due
            (dues_of (map_of label_set_cmp self.now.alerts)
            (map_of route_labels_cmp self.now.roster.timers)))) }
    {
        let alert = self.alerts.first_removal();
        let removal = self.roster.first_removal();
        let flush = self.roster.first_flush();
        if_due(at, earlier(alert, earlier(removal, flush)))
    }

    /// Returns whether an alert or a group is removed at or before a moment.
    pub(crate) fn is_removal_due(&self, at: Moment) -> bool
        ensures { result ≡ false ↔ AreNoneRemoved at (map_of label_set_cmp self.now.alerts)
            (map_of route_labels_cmp self.now.roster.timers) }
    {
        is_due(at, self.alerts.first_removal()) || is_due(at, self.roster.first_removal())
    }
}

/// Returns the number of the place of a key of the notification log. Makes the place if there is
/// none.
fn place_log(log: &mut Keyed<LogKey, Shared<LogEntry>>, key: &LogKey) -> Result<usize, AllocError>
    ensures number { IfOk result (λ number. number_of log_key_cmp log.new key.now ≡ Some number) }
    ensures shown { map_of log_key_cmp log.new ≡ map_of log_key_cmp log.old }
    ensures places { KeepsPlaces log_key_cmp log.old log.new }
{
    if let Some(number) = log.number_of(key) {
        return Ok(number);
    }
    log.make_place(key.clone()?)
}

/// Returns the number of a key that has a place.
#[tactic(auto, unfolding(amr_tables::specs::Numbered::has_place))]
fn number_in<K: Key + Drop, V: Drop>(table: &Keyed<K, V>, key: &K) -> usize
    requires { IsTrue (has_place K.cmp table.now key.now) }
    ensures { number_of K.cmp table.now key.now ≡ Some result }
{
    match table.number_of(key) {
        Some(number) => number,
        None => unreachable!(),
    }
}
