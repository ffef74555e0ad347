//! The cache of the groups whose flushes only set the group timer, and until when. Most moves of a
//! long replay are such flushes. `flush.rt` asks it before a flush and notes in it what it finds.
//! The cache is no part of the state: it only holds what the state implies, and it forgets a group
//! for which there is no room.
ghost use Rattle.std.specs.Prelude.{◌≡◌, ◌≤◌, ◌<◌, true, OnOk, OnErr, IfSome};
ghost use Rattle.std.specs.List.{fold};
ghost use Rattle.amr_labels.specs.Map as map;
ghost use Rattle.amr_time.specs.Time.{Moment as moment};
ghost use Rattle.amr_engine.specs.State.State.{State};
ghost use Rattle.amr_engine.specs.State.State as state;
ghost use Rattle.amr_engine.specs.Flush.{flush};
ghost use Rattle.amr_engine.specs.Quiet.{with_timer_reset, IsStill, IsQuiet, IsAllNotified};
ghost use Rattle.amr_engine.specs.Events.{put};
ghost use Rattle.amr_config.specs.Groups.{groups_of};
ghost use Rattle.amr_labels.specs.Labels.{LabelSet};
ghost use Rattle.amr_rules.specs.declared.alert.Alert.{Alert};

use crate::scan_budget::ScanBudget;
use crate::state::Store;
use amr_config::{Config, RouteLabels};
use amr_labels::Labels;
use amr_tables::Keyed;
use amr_time::Moment;
use std::alloc::{AllocError, Global};

/// The moments from one until just before another, both in nanoseconds since 1970. The end may be
/// after the last moment, so it isn't a `Moment`.
#[derive(Clone, Copy)]
struct Period {
    from: u128,
    until: u128,
}

impl Period {
    /// Returns the period from a moment until another.
    fn new(at: Moment, until: u128) -> Period
        ensures from { result.from ≡ at }
        ensures until { result.until ≡ until }
    {
        Period {
            from: at.nanoseconds(),
            until,
        }
    }

    /// Returns whether a moment is in the period.
    fn covers(self, at: Moment) -> bool
        ensures { result ≡ true → (self.from ≤ at) × (at < self.until) }
    {
        self.from <= at.nanoseconds() && at.nanoseconds() < self.until
    }
}

/// When a group is quiet.
#[derive(Clone, Copy)]
struct QuietTime {
    period: Period,
    /// The generation in which this was found out, if it depends on what mutes the members.
    generation: Option<u64>,
}

/// When groups are quiet, by route and labels.
type Times = Keyed<RouteLabels, QuietTime>;

/// The groups that are quiet.
#[derive(Drop)]
pub(crate) struct QuietGroups {
    alloc: Global,
    /// How often something happened that may change what mutes an alert. Entries of an earlier
    /// generation don't count any more.
    generation: u64,
    /// When no source of an inhibition rule ends and no silence starts or ends.
    still: Option<Period>,
    times: Times,
    budget: ScanBudget,
}

ghost use Rattle.amr_engine.specs.CachedQuiet.{times_in, Outlasts, IsTrueOf};

impl QuietGroups {
    /// Returns a cache of no group.
    #[tactic(auto, using(crate::proofs::CachedQuiet::nothing_cached))]
    pub(crate) fn new(alloc: Global) -> QuietGroups
        ensures { (s : State) → IsTrueOf result s }
    {
        QuietGroups {
            alloc,
            generation: 0,
            still: None,
            times: Keyed::new(alloc),
            budget: ScanBudget::new(),
        }
    }

    // ---- what it answers

    /// Returns true only if the group is cached as quiet at a moment.
    pub(crate) fn is_quiet_at(&mut self, at: Moment, group: &RouteLabels) -> bool
        ensures quiet { result ≡ true → (s : State) → IsTrueOf self.old s
            → flush at group.now s ≡ with_timer_reset at group.now s }
        ensures cache { (s : State) → IsTrueOf self.old s → IsTrueOf self.new s }
    {
        let Some(time) = self.times.get(group) else {
            return false;
        };
        if !time.period.covers(at) {
            return false;
        }
        match time.generation {
            None => true,
            Some(generation) if generation == self.generation => {
                self.budget.note_saved();
                true
            }
            Some(_) => false,
        }
    }

    /// Returns how many groups there are of which something may be cached.
    pub(crate) fn known(&self) -> usize {
        self.times.next_number()
    }

    /// Returns until when a group is cached as quiet from a moment on, in nanoseconds since 1970.
    /// That is the moment itself if it isn't cached as quiet then.
    pub(crate) fn quiet_from(&self, group: &RouteLabels, first: Moment) -> u128
        ensures { (last : moment) → last < result → first ≤ last → (s : State) → IsTrueOf self.now s
            → (from : moment) × (until : moment) × (from ≤ first) × (last < until)
            × IsQuiet s group.now from until }
    {
        let Some(time) = self.times.get(group) else {
            return first.nanoseconds();
        };
        if !time.period.covers(first) {
            return first.nanoseconds();
        }
        match time.generation {
            None => time.period.until,
            Some(generation) if generation == self.generation => time.period.until,
            Some(_) => first.nanoseconds(),
        }
    }

    /// Returns until when nothing that may mute an alert changes, if that is cached of this moment.
    pub(crate) fn still_at(&self, at: Moment) -> Option<u128>
        ensures { IfSome result (λ until. (s : State) → IsTrueOf self.now s → IsStill s at until) }
    {
        match self.still {
            Some(period) if period.covers(at) => Some(period.until),
            _ => None,
        }
    }

    /// Returns whether a scan for the end of this is paid for by the flushes since the last one.
    /// Counts a flush if it isn't.
    pub(crate) fn allows_scan(&mut self) -> bool
        ensures { (s : State) → IsTrueOf self.old s → IsTrueOf self.new s }
    {
        if self.budget.allows_scan() {
            return true;
        }
        self.budget.count_flush();
        false
    }

    // ---- what it notes

    /// Notes what a scan found: nothing that may mute an alert changes from a moment until another.
    pub(crate) fn note_still(&mut self, store: &Store, at: Moment, until: u128)
        requires cache { IsTrueOf self.old store.now.state }
        requires still { IsStill store.now.state at until }
        ensures { IsTrueOf self.new store.now.state }
    {
        let alerts = store.alerts().by_number().next_number();
        self.still = Some(Period::new(at, until));
        self.budget
            .note_scan(alerts.saturating_add(store.silences().next_number()));
    }

    /// Notes that a group was notified of all its members from a moment until another. If no other
    /// route has the path of its route, no other group changes its entries in the notification log.
    pub(crate) fn note_notified(
        &mut self,
        store: &Store,
        at: Moment,
        group: &RouteLabels,
        until: u128,
    )
        requires cache { IsTrueOf self.old store.now.state }
        requires notified { IsAllNotified store.now.state group.now at until
            (state.members store.now.state group.now) }
        ensures { IsTrueOf self.new store.now.state }
    {
        if !store.config().has_own_path(group.route) {
            return self.note_quiet(store, at, group, until);
        }
        let time = QuietTime {
            period: Period::new(at, until),
            generation: None,
        };
        let _ = insert(&mut self.times, group, time);
    }

    /// Notes that a group is quiet from a moment until another, unless its next flush comes later.
    #[tactic(auto, using(crate::proofs::CachedQuiet::kept_if))]
    pub(crate) fn note_quiet(&mut self, store: &Store, at: Moment, group: &RouteLabels, until: u128)
        requires cache { IsTrueOf self.old store.now.state }
        requires quiet { IsQuiet store.now.state group.now at until }
        ensures { IsTrueOf self.new store.now.state }
    {
        let config = store.config();
        let interval = u128::from(config.group_interval(group.route).nanoseconds());
        let next = at.nanoseconds().saturating_add(interval);
        if until <= next || config.route_count() <= group.route {
            return;
        }
        let time = QuietTime {
            period: Period::new(at, until),
            generation: Some(self.generation),
        };
        let _ = insert(&mut self.times, group, time);
    }

    // ---- what it forgets

    /// Forgets all.
    #[tactic(auto, using(crate::proofs::CachedQuiet::nothing_cached))]
    pub(crate) fn clear(&mut self)
        ensures { (s : State) → IsTrueOf self.new s }
    {
        self.still = None;
        self.times = Keyed::new(self.alloc);
    }

    /// Forgets all that depends on what mutes alerts, by a new generation.
    pub(crate) fn forget_muting(&mut self)
        ensures { (s : State) → (t : State) → t.config ≡ s.config → Outlasts self.old s t
            → IsTrueOf self.old s → IsTrueOf self.new t }
    {
        match self.generation.checked_add(1) {
            None => self.clear(),
            Some(next) => {
                self.generation = next;
                self.still = None;
            }
        }
    }

    /// Forgets what the post of an alert that joins these groups may change: all that is cached of
    /// them, and all that depends on what mutes alerts.
    pub(crate) fn forget_joined(&mut self, groups: &[RouteLabels])
        ensures { (s : State) → (alert : LabelSet × Alert) → groups.now ≡ groups_of s.config alert.0
            → IsTrueOf self.old s → IsTrueOf self.new (put s alert) }
    {
        remove_all(&mut self.times, groups);
        self.forget_muting();
    }

    /// Forgets what the removal of a stored alert may change, which is nothing if there are no
    /// inhibition rules.
    pub(crate) fn alert_leaves(&mut self, store: &Store, labels: &Labels)
        requires { IsTrueOf self.old store.now.state }
        ensures { IsTrueOf self.new (record store.now.state {
          alerts = map.remove store.now.state.alerts labels.now;
        }) }
    {
        if !store.config().rules().is_empty() {
            self.forget_muting();
        }
    }

    /// Forgets what a flush that does more than set the timer may change. If no other route has the
    /// path of its route, that is what is cached of the group itself. Otherwise other groups may
    /// share its entries in the notification log.
    pub(crate) fn forget_flushed(&mut self, config: &Config, group: &RouteLabels)
        ensures { (s : State) → (at : moment) → s.config ≡ config.now → IsTrueOf self.old s
            → IsTrueOf self.new (flush at group.now s) }
    {
        if config.has_own_path(group.route) {
            remove(&mut self.times, group);
        } else if group.route < config.route_count() {
            self.forget_muting();
        } else {
            self.clear();
        }
    }
}

/// Sets when a group is quiet.
fn insert(times: &mut Times, group: &RouteLabels, time: QuietTime) -> Result<(), AllocError>
    ensures ok { OnOk result (times_in times.new ≡ map.insert (times_in times.old) group.now time) }
    ensures err { OnErr result (times_in times.new ≡ times_in times.old) }
{
    times.insert(group.clone()?, time)
}

/// Removes a group.
fn remove(times: &mut Times, group: &RouteLabels)
    ensures { times_in times.new ≡ map.remove (times_in times.old) group.now }
{
    let (number, _) = times.look_up_number(group);
    match number {
        None => {}
        Some(number) => {
            times.swap_at(number, &mut None);
        }
    }
}

/// Removes groups.
fn remove_all(times: &mut Times, groups: &[RouteLabels])
    ensures { times_in times.new ≡ fold map.remove (times_in times.old) groups.now }
{
    for group in groups {
        remove(times, group);
    }
}
