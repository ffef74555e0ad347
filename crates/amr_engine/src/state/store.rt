//! The state of the replayed instance and its journal. The engine changes the state only through
//! `Store`, which enters for each change the one that leads back into the open record, so that an
//! event can be undone. It decides nothing about alerts, groups or silences, but it asks `amr_rules`
//! whether an entry of the notification log is due, and what is stored of a new alert, since it finds
//! what was there before.
ghost use Rattle.std.specs.Prelude.{◌≡◌, ◌↔◌, ◌≤◌, ◌<◌, ◌+◌, ◌++◌, ◌∷◌, ◌==◌, [], false, Option, Some, None, length, OnOk, IfOk, IfSome};
ghost use Rattle.std.specs.Prelude.{if◌then◌else◌, is_some, option_map, slice_get};
ghost use Rattle.std.specs.Ordering.{nat_cmp};
ghost use Rattle.amr_labels.specs.Labels.{label_set_cmp};
ghost use Rattle.amr_config.specs.Groups.{groups_of};
ghost use Rattle.amr_config.specs.Stated.RuleMatches.{rule_matches};
ghost use Rattle.amr_labels.specs.Map as map;
ghost use Rattle.amr_tables.specs.Numbered.{map_of};
ghost use Rattle.amr_time.specs.Time.{latest_read};
ghost use Rattle.amr_rules.specs.Alerts.{alert_to_store};
ghost use Rattle.amr_rules.specs.Muting.{is_silenced, silencer_of};
ghost use Rattle.amr_config.specs.RouteLabels.{route_labels_cmp};
ghost use Rattle.amr_engine.specs.State.State.{start, group_key, members, timers_after_flush, log_key_cmp};
ghost use Rattle.amr_engine.specs.State.Dues.{next_due};
ghost use Rattle.amr_engine.specs.Calm.{AreNoneRemoved};
ghost use Rattle.amr_engine.specs.State.Logged.{is_due};
ghost use Rattle.amr_engine.specs.State.Kept.{GrownBy, before_open_record};
ghost use Rattle.amr_engine.specs.State.Records.{after_change};
ghost use Rattle.amr_engine.specs.State.Allowed.{IsAllowed};

use crate::indexes::SilenceTable;
use crate::state::alert_table::AlertTable;
use crate::state::change::{BoxedRoster, Change};
use crate::state::due::Due;
use crate::state::entering::{enter, make_room};
use crate::state::members::Member;
use crate::state::notification::{GroupTimer, LogKey, Notification};
use crate::state::roster::Roster;
use crate::state::tables::Tables;
use amr_config::stated::RuleMatch;
use amr_config::{Config, RouteLabels};
use amr_events::posts::SilenceId;
use amr_labels::{Labels, Listing, Shared};
use amr_rules::{Alert, LogEntry, Silence, merge, needs_update};
use amr_tables::{Journal, Keyed};
use amr_time::{Moment, Span};
use std::alloc::{AllocError, Global};
use std::marker::Model;

/// The state of the replayed instance. Each change enters the one that leads back into the open
/// record of the journal, so that the event can be undone without taking memory. That of a reload has
/// the configuration with all groups, which are put back at once.
#[derive(Drop)]
pub struct Store {
    alloc: Global,
    tables: Tables,
    journal: Journal<Change>,
}

impl Model for Store {
    ghost use Rattle.std.specs.Coded.{codes};
    ghost use Rattle.amr_labels.specs.Map as map;
    ghost use Rattle.amr_engine.specs.State.Kept.{Kept};
    ghost use Rattle.amr_engine.specs.contracts.state.change.Change as change;

    ghost Value = { Kept };

    ghost coded = { Prim.hlevel (codes, map.code, change.the_row.coded) };

    ghost use Rattle.amr_engine.specs.State.Stored.{kept_of, IsKept};

    ghost view = { kept_of };

    ghost invariant = { IsKept };
}

impl Store {
    /// Builds the state before the first event, with an empty journal.
    pub fn new(alloc: Global, config: Config) -> Store
        ensures state { result.state ≡ start config }
        ensures current { result.current ≡ [] }
        ensures records { result.records ≡ [] }
    {
        Store {
            alloc,
            tables: Tables {
                moment: Moment::START,
                alerts: AlertTable::new(alloc),
                silences: SilenceTable::new(alloc),
                roster: Roster::new(alloc, config),
                log: Keyed::new(alloc),
                notes: Vec::new(alloc),
            },
            journal: Journal::new(alloc),
        }
    }

    // ---- the journal

    /// Makes room in the journal for one more record.
    pub fn begin(&mut self) -> Result<(), AllocError>
        ensures room { OnOk result (0 < self.new.room) }
        ensures state { self.new.state ≡ self.old.state }
        ensures current { self.new.current ≡ self.old.current }
        ensures records { self.new.records ≡ self.old.records }
    {
        self.journal.reserve(0)
    }

    /// Closes the open record at the end of an event. It takes no memory.
    pub fn close(&mut self)
        requires { 0 < self.old.room }
        ensures state { self.new.state ≡ self.old.state }
        ensures current { self.new.current ≡ [] }
        ensures records { self.new.records ≡ self.old.records ++ self.old.current ∷ [] }
    {
        self.journal.close();
        self.tables.alerts.forget_indexes();
    }

    /// Opens the last record again, to undo its event.
    pub fn reopen(&mut self)
        requires some { 0 < length self.old.records }
        requires empty { self.old.current ≡ [] }
        ensures state { self.new.state ≡ self.old.state }
        ensures records { self.old.records ≡ self.new.records ++ self.new.current ∷ [] }
    {
        self.journal.reopen();
        self.tables.alerts.forget_indexes();
    }

    /// Undoes the last entry of the open record. It takes no memory.
    #[tactic(auto, using(crate::proofs::StateLemmas::Soundness::last_is_sound))]
    pub fn undo_entry(&mut self)
        requires { 0 < length self.old.current }
        ensures kept { before_open_record self.new ≡ before_open_record self.old }
        ensures shorter { length self.new.current + 1 ≡ length self.old.current }
    {
        let mut back = self.journal.pop();
        let number = self.tables.find(&back);
        self.tables.displace(number, &mut back);
    }

    /// Undoes all entries of the open record. It takes no memory.
    pub fn undo_open(&mut self)
        ensures { self.new ≡ before_open_record self.old }
    {
        while !self.is_current_empty() {
            self.undo_entry();
        }
    }

    /// Drops all records, so that no event can be undone.
    #[tactic(auto, using(crate::proofs::StateLemmas::Soundness::kept_forgotten))]
    pub fn forget(&mut self)
        ensures state { self.new.state ≡ self.old.state }
        ensures current { self.new.current ≡ self.old.current }
        ensures records { self.new.records ≡ [] }
    {
        self.journal.forget();
    }

    /// Drops the notifications so far. No record may be left, since undoing one would need them.
    pub fn drop_notifications(&mut self)
        requires current { self.old.current ≡ [] }
        requires records { self.old.records ≡ [] }
        ensures state { self.new.state ≡ record self.old.state { notes = [] } }
        ensures current { self.new.current ≡ [] }
        ensures records { self.new.records ≡ [] }
    {
        self.tables.notes.clear();
    }

    /// Returns the number of closed records.
    pub fn records(&self) -> usize
        ensures { result ≡ length self.now.records }
    {
        self.journal.len()
    }

    /// Returns the number of entries of the record number `index`, from 0.
    pub fn record_len(&self, index: usize) -> usize
        requires { index < length self.now.records }
        ensures { option_map length (slice_get self.now.records index) ≡ Some result }
    {
        self.journal.record_len(index)
    }

    /// Returns whether the open record is empty.
    fn is_current_empty(&self) -> bool
        ensures { result ≡ (length self.now.current == 0) }
    {
        self.journal.is_current_empty()
    }

    // ---- the state

    /// Returns the allocator.
    pub fn alloc(&self) -> Global {
        self.alloc
    }

    /// Returns the moment of the clock, which is that of the last accepted event.
    pub fn moment(&self) -> Moment
        ensures value { result ≡ self.now.state.moment }
        ensures bound { self.now.state.moment ≤ latest_read }
    {
        self.tables.moment
    }

    /// Returns the configuration in force.
    pub fn config(&self) -> &Config
        ensures { result.now ≡ self.now.state.config }
    {
        self.tables.roster.config()
    }

    /// Returns the stored alerts, by labels.
    pub fn alerts(&self) -> &AlertTable
        ensures { map_of label_set_cmp result.now ≡ self.now.state.alerts }
    {
        &self.tables.alerts
    }

    /// Returns the silences, by id.
    pub fn silences(&self) -> &Keyed<SilenceId, Silence>
        ensures { map_of nat_cmp result.now ≡ self.now.state.silences }
    {
        self.tables.silences.silences()
    }

    /// Returns the number of a label set, if an alert with it was ever stored. What is cached of the
    /// label set stands at its number. No answer depends on it.
    pub fn number_of(&self, labels: &Labels) -> Option<usize> {
        self.tables.alerts.by_number().number_of(labels)
    }

    /// Returns the least id of a silence that mutes the label set with a number at a moment, or
    /// `None` if no silence does.
    pub fn silenced_by(
        &self,
        at: Moment,
        number: Option<usize>,
        labels: &Labels,
    ) -> Result<Option<SilenceId>, AllocError>
        ensures named { IfOk result (λ found. found
            ≡ silencer_of at labels.now self.now.state.silences) }
        ensures exactly { IfOk result (λ found. is_silenced self.now.state.silences at labels.now
            ≡ is_some found) }
    {
        self.tables.silences.silenced_by(at, number, labels)
    }

    /// Works out when silences that match the label set with a number are active, so that
    /// `silenced_by` needn't ask their matchers at this moment or later. It does so once for each
    /// label set until a silence changes. It may do so for others that have a number, too.
    pub fn cache_silences(&mut self, at: Moment, number: Option<usize>, labels: &Labels)
        ensures { self.new ≡ self.old }
    {
        if let Some(number) = number {
            let alerts = self.tables.alerts.by_number();
            self.tables.silences.cache(at, number, labels, alerts);
        }
    }

    /// Works out which label sets can be sources of the inhibition rules that have a label set as a
    /// target, given which sides of each rule it is on, so that inhibition needn't look for them
    /// among all stored alerts. It asks the source matchers of such a rule once for each label set.
    pub fn cache_sources(&mut self, matched: &[RuleMatch])
        ensures { self.new ≡ self.old }
    {
        self.tables
            .alerts
            .cache_sources(self.tables.roster.config().rules(), matched);
    }

    /// Returns the members of all groups, by route and labels.
    pub(crate) fn placements(&self) -> &Keyed<RouteLabels, Shared<Alert>>
        ensures { map_of route_labels_cmp result.now ≡ self.now.state.placements }
    {
        self.tables.roster.placements()
    }

    /// Returns the members of a group, by labels.
    #[tactic(auto, unfolding(crate::specs::State::State::members))]
    pub fn members_of(&self, group: &RouteLabels) -> Result<Vec<Member>, AllocError>
        ensures { IfOk result (λ found. found.items ≡ members self.now.state group.now) }
    {
        self.tables.roster.members_of(group)
    }

    /// Returns the group timers, by group.
    pub fn timers(&self) -> &Keyed<RouteLabels, GroupTimer>
        ensures { map_of route_labels_cmp result.now ≡ self.now.state.timers }
    {
        self.tables.roster.timers()
    }

    /// Returns the notification log.
    pub fn log(&self) -> &Keyed<LogKey, Shared<LogEntry>>
        ensures { map_of log_key_cmp result.now ≡ self.now.state.log }
    {
        &self.tables.log
    }

    /// Returns the first pending timer at or before a moment, or `None` if no timer is pending then.
    #[tactic(auto, unfolding(crate::specs::State::Dues::next_due, crate::specs::State::Dues::dues))]
    pub fn next_due(&self, at: Moment) -> Result<Option<Due>, AllocError>
        ensures due { IfOk result (λ due. due ≡ next_due at self.now.state) }
        ensures within { IfOk result (λ due. IfSome due (λ d. d.moment ≤ at)) }
    {
        self.tables.next_due(at)
    }

    /// Returns whether an alert or a group is removed at or before a moment.
    pub fn is_removal_due(&self, at: Moment) -> bool
        ensures { result ≡ false
            ↔ AreNoneRemoved at self.now.state.alerts self.now.state.timers }
    {
        self.tables.is_removal_due(at)
    }

    /// Returns all notifications so far, in order.
    pub fn notes(&self) -> &[Shared<Notification>]
        ensures { result.now ≡ self.now.state.notes }
    {
        self.tables.notes.as_slice()
    }

    /// Returns the group of the label set with a number on each route that takes it, by route. It
    /// computes them once for each label set and configuration.
    pub fn groups_of(
        &mut self,
        number: Option<usize>,
        labels: &Labels,
    ) -> Result<Shared<Listing<RouteLabels>>, AllocError>
        ensures groups { IfOk result (λ groups. groups
            ≡ groups_of self.old.state.config labels.now) }
        ensures same { self.new ≡ self.old }
    {
        self.tables.roster.groups_of(number, labels)
    }

    /// Returns which sides of the configuration's inhibition rules the label set with a number is on.
    /// It asks no matcher if the groups of the label set were computed under this configuration.
    pub fn rule_matches(
        &self,
        number: Option<usize>,
        labels: &Labels,
    ) -> Result<Shared<Listing<RuleMatch>>, AllocError>
        ensures { IfOk result (λ found. found
            ≡ rule_matches labels.now self.now.state.config.rules) }
    {
        self.tables.roster.rule_matches(number, labels)
    }

    // ---- changes

    /// Makes a change, and enters the one that leads back into the open record.
    #[inline(always)]
    #[tactic(auto, using(crate::proofs::StateLemmas::Soundness::kept_roomier, crate::proofs::StateLemmas::Soundness::kept_put, crate::proofs::StateLemmas::Soundness::undone_put))]
    pub fn change(&mut self, change: Change) -> Result<(), AllocError>
        requires { IsAllowed change }
        ensures ok { OnOk result (self.new.state ≡ after_change self.old.state change) }
        ensures kept { before_open_record self.new ≡ before_open_record self.old }
        ensures grown { GrownBy 1 self.old self.new }
    {
        let number = make_room(&mut self.tables, &mut self.journal, None, &change)?;
        enter(&mut self.tables, &mut self.journal, number, change);
        Ok(())
    }

    /// Stores an alert, merged with the stored one of the same labels if there is one. Returns the
    /// number of the labels and what it stored. It looks for the labels once.
    #[tactic(auto, using(crate::proofs::StateLemmas::Soundness::kept_roomier))]
    pub fn put_alert(
        &mut self,
        labels: &Labels,
        alert: Alert,
    ) -> Result<(usize, Shared<Alert>), AllocError>
        ensures stored { IfOk result (λ put. put.1 ≡ alert_to_store self.old.state.moment
            (map.get self.old.state.alerts labels.now) alert) }
        ensures ok { IfOk result (λ put. self.new.state ≡ record self.old.state
            { alerts = map.insert self.old.state.alerts labels.now put.1 }) }
        ensures kept { before_open_record self.new ≡ before_open_record self.old }
        ensures grown { GrownBy 1 self.old self.new }
    {
        let alerts = self.tables.alerts.by_number();
        let (number, former) = alerts.look_up_number(labels);
        let stored = Shared::new(self.alloc, merge(self.tables.moment, former, alert))?;
        let change = Change::OfAlert(labels.clone()?, Some(stored.clone()?));
        let number = make_room(&mut self.tables, &mut self.journal, number, &change)?;
        enter(&mut self.tables, &mut self.journal, number, change);
        Ok((number, stored))
    }

    /// Puts an alert into its group, in place of one with the same labels if there is one. Returns
    /// the group timer. If the labels are in the group already, it looks for nothing but these.
    #[tactic(auto, using(crate::proofs::StateLemmas::Soundness::kept_roomier, crate::proofs::StateLemmas::Soundness::placed_first))]
    pub(crate) fn put_member(
        &mut self,
        group: &RouteLabels,
        member: RouteLabels,
        alert: Shared<Alert>,
    ) -> Result<Option<GroupTimer>, AllocError>
        requires { group.now ≡ group_key self.old.state.config member }
        ensures timer { IfOk result (λ timer. timer ≡ map.get self.old.state.timers group.now) }
        ensures ok { OnOk result (self.new.state
            ≡ record self.old.state
            { placements = map.insert self.old.state.placements member alert }) }
        ensures kept { before_open_record self.new ≡ before_open_record self.old }
        ensures grown { GrownBy 1 self.old self.new }
    {
        let number = self.tables.place_in_group(&member, group)?;
        let timer = self.tables.roster.group_timer_of(number);
        let change = Change::OfMember(member, Some(alert));
        let number = make_room(&mut self.tables, &mut self.journal, Some(number), &change)?;
        enter(&mut self.tables, &mut self.journal, number, change);
        Ok(timer)
    }

    /// Sets the next flush of a group and marks the group as flushed. Does nothing if there is no
    /// such group. It looks for the group once.
    pub fn reset_timer(&mut self, group: &RouteLabels, next: Moment) -> Result<(), AllocError>
        ensures ok { OnOk result (self.new.state
            ≡ record self.old.state
            { timers = timers_after_flush next group.now self.old.state.timers }) }
        ensures kept { before_open_record self.new ≡ before_open_record self.old }
        ensures grown { GrownBy 1 self.old self.new }
    {
        let (number, former) = self.tables.roster.timers().look_up_number(group);
        let (Some(number), Some(former)) = (number, former.copied()) else {
            return Ok(());
        };
        let timer = GroupTimer {
            next_flush: next,
            flushed: true,
            ..former
        };
        let change = Change::OfTimer(group.clone()?, Some(timer));
        self.journal.reserve_entry()?;
        enter(&mut self.tables, &mut self.journal, number, change);
        Ok(())
    }

    /// Sets an entry of the notification log if the dedup check says that it is due. Returns whether
    /// it is. It looks for a former entry once.
    #[tactic(auto, using(crate::proofs::StateLemmas::Soundness::kept_roomier))]
    pub fn write_log_if_due(
        &mut self,
        key: &LogKey,
        entry: &Shared<LogEntry>,
        send_resolved: bool,
        repeat_interval: Span,
    ) -> Result<bool, AllocError>
        ensures due { IfOk result (λ due. due
            ≡ is_due (map.get self.old.state.log key.now) entry.now send_resolved
            repeat_interval) }
        ensures ok { IfOk result (λ due. self.new.state ≡ (if due
            then record self.old.state { log = map.insert self.old.state.log key.now entry.now }
            else self.old.state)) }
        ensures kept { before_open_record self.new ≡ before_open_record self.old }
        ensures grown { GrownBy 1 self.old self.new }
    {
        let (number, former) = self.tables.log.look_up_number(key);
        let written = entry.get();
        let is_due = needs_update(
            former,
            &written.firing,
            &written.resolved,
            send_resolved,
            written.time,
            repeat_interval,
        );
        if !is_due {
            return Ok(false);
        }
        let change = Change::OfLog(key.clone()?, Some(entry.clone()?));
        let number = make_room(&mut self.tables, &mut self.journal, number, &change)?;
        enter(&mut self.tables, &mut self.journal, number, change);
        Ok(true)
    }

    /// Appends a notification.
    pub fn append_notification(&mut self, notification: Notification) -> Result<(), AllocError>
        ensures ok { OnOk result (self.new.state
            ≡ record self.old.state { notes = self.old.state.notes ++ notification ∷ [] }) }
        ensures kept { before_open_record self.new ≡ before_open_record self.old }
        ensures grown { GrownBy 1 self.old self.new }
    {
        let notification = Shared::new(self.alloc, notification)?;
        self.tables.notes.reserve(1)?;
        self.journal.reserve_entry()?;
        self.journal.push(Change::OfNotes(self.tables.notes.len()));
        self.tables.notes.push_reserved(notification);
        Ok(())
    }

    /// Replaces the configuration, and drops all groups with their members, as one value.
    pub fn replace_config(&mut self, config: Config) -> Result<(), AllocError>
        ensures ok { OnOk result (self.new.state
            ≡ record self.old.state
            { config = config; placements = map.empty; timers = map.empty }) }
        ensures kept { before_open_record self.new ≡ before_open_record self.old }
        ensures grown { GrownBy 1 self.old self.new }
    {
        let roster = BoxedRoster::new(self.alloc, config)?;
        self.change(Change::OfRoster(roster))
    }
}
