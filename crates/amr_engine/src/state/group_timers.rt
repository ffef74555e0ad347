//! The timers of groups by number: when one is due, and the first of a kind. `roster.rt` keeps them.
ghost use Rattle.std.specs.Prelude.{◌≡◌, ◌≢◌, option_map};
ghost use Rattle.std.specs.Option.{option_copied};
ghost use Rattle.amr_labels.specs.Labels.{label_set_cmp};
ghost use Rattle.amr_labels.specs.Map as map;
ghost use Rattle.amr_rules.specs.declared.alert.Alert.{Alert};
ghost use Rattle.amr_tables.specs.Numbered.{map_of, IsNumbering};
ghost use Rattle.amr_config.specs.RouteLabels.{route_labels_cmp};
ghost use Rattle.amr_engine.specs.State.Dues.{dues_of, kind_of, group_of};
ghost use Rattle.amr_engine.specs.declared.state.due.Kind.TheVariants.{AlertRemoval};
ghost use Rattle.amr_engine.specs.State.Timed.{IsScheduled, IsFirstOfKind, group_moment, timer_of, due_of};

use crate::state::due::{Kind, group_removal};
use crate::state::notification::GroupTimer;
use crate::state::pending::{Pending, TimerRef};
use amr_config::RouteLabels;
use amr_tables::{Earliest, Keyed, Schedule};
use std::cmp::Ordering;

/// The timers of one kind of groups. Of several at one moment, the groups decide which is first.
#[derive(Clone, Copy)]
pub(crate) struct GroupTimers<'a> {
    pub(crate) timers: &'a Keyed<RouteLabels, GroupTimer>,
    pub(crate) kind: Kind,
}

impl Schedule for GroupTimers<'_> {
    ghost use Rattle.amr_tables.specs.Numbered.{rank_of};
    ghost use Rattle.amr_tables.proofs.Keying.{rank_of-total};
    ghost use Rattle.amr_config.specs.RouteLabels.{route_labels_cmp, route_labels_cmp_total};
    ghost use Rattle.amr_engine.specs.State.Timed.{group_moment, moments_in};

    ghost rank = { λ s. rank_of route_labels_cmp s.timers.now };

    ghost ranked = { λ s. rank_of-total route_labels_cmp_total s.timers.now };

    ghost moments = { λ s. moments_in (group_moment s.kind) s.timers.now };

    fn compare(&self, a: usize, b: usize) -> Ordering {
        self.timers.compare_at(a, b)
    }

    fn moment(&self, number: usize) -> Option<u128> {
        group_moment(self.kind, self.timers.at(number))
    }
}

impl<'a> GroupTimers<'a> {
    /// Returns the first of the timers.
    #[inline(always)]
    pub(crate) fn first(self, earliest: &Earliest) -> Option<Pending<'a>>
        requires group { self.kind ≢ AlertRemoval }
        requires numbering { IsNumbering route_labels_cmp self.timers.now }
        requires scheduled { IsScheduled route_labels_cmp (group_moment self.kind) self.timers.now
            earliest.now }
        ensures { (alerts : map.Map label_set_cmp Alert) → IsFirstOfKind self.entry.kind
            (dues_of alerts (map_of route_labels_cmp self.entry.timers.now))
            (option_map due_of result) }
    {
        let first = earliest.first(&self)?;
        let group = self.timers.key_at(first.number)?;
        Some(Pending {
            moment: first.moment,
            timer: timer_of_kind(group, self.kind),
        })
    }
}

/// Returns the timer of a kind of a group.
fn timer_of_kind<'a>(group: &'a RouteLabels, kind: Kind) -> TimerRef<'a>
    requires { kind ≢ AlertRemoval }
    ensures kind { kind_of (timer_of result) ≡ kind }
    ensures group { group_of (timer_of result) ≡ group.now }
{
    match kind {
        Kind::AlertRemoval => unreachable!(),
        Kind::GroupRemoval => TimerRef::GroupRemoval(group),
        Kind::GroupFlush => TimerRef::GroupFlush(group),
    }
}

/// Returns when the timer of a kind of a group is due, in nanoseconds since 1970, or `None` if it
/// isn't pending, as the removal of a group that has members.
#[inline(always)]
pub(crate) fn group_moment(kind: Kind, timer: Option<&GroupTimer>) -> Option<u128>
    ensures { result ≡ group_moment kind (option_copied timer.entry) }
{
    let timer = timer?;
    match kind {
        Kind::AlertRemoval => None,
        Kind::GroupRemoval => group_removal(timer),
        Kind::GroupFlush => Some(timer.next_flush.nanoseconds()),
    }
}
