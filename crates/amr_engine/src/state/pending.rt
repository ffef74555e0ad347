//! The pending timers of alerts and groups: for how many of them room is made, and the first of them,
//! which borrows its labels or its group. `alert_table.rt` and `roster.rt` keep the moments, which go
//! by the numbers of what they are of; nothing is fired here.
ghost use Rattle.std.specs.Prelude.{◌≡◌, ◌+◌, ◌<◌, ◌≤◌, true, false, option_map, IfOk, IfSome, IsSomeAnd};
ghost use Rattle.amr_tables.specs.Numbered.{next_number, IsNumbering};
ghost use Rattle.amr_engine.specs.State.Dues.{due_by};
ghost use Rattle.amr_engine.specs.State.Timed.{timer_of, due_of, earlier};

use crate::state::due::{Due, Timer};
use amr_config::RouteLabels;
use amr_labels::Labels;
use amr_tables::{Key, Keyed};
use amr_time::Moment;
use std::alloc::AllocError;

/// Returns how many keys a table has when the next one has come.
pub(crate) fn count_with_next<K: Key + Drop, V: Drop>(
    table: &Keyed<K, V>,
) -> Result<usize, AllocError>
    ensures count { IfOk result (λ count. count ≡ next_number table.now + 1) }
    ensures numbering { IsNumbering K.cmp table.now }
{
    match table.next_number().checked_add(1) {
        Some(count) => Ok(count),
        None => Err(AllocError),
    }
}

/// What a timer does when it fires, with the labels or the group borrowed.
#[derive(Clone, Copy)]
pub(crate) enum TimerRef<'a> {
    AlertRemoval(&'a Labels),
    GroupRemoval(&'a RouteLabels),
    GroupFlush(&'a RouteLabels),
}

impl TimerRef<'_> {
    /// Copies the timer, with what it borrows.
    fn to_timer(self) -> Result<Timer, AllocError>
        ensures { IfOk result (λ timer. timer ≡ timer_of self.entry) }
    {
        match self {
            TimerRef::AlertRemoval(labels) => Ok(Timer::AlertRemoval(labels.clone()?)),
            TimerRef::GroupRemoval(group) => Ok(Timer::GroupRemoval(group.clone()?)),
            TimerRef::GroupFlush(group) => Ok(Timer::GroupFlush(group.clone()?)),
        }
    }
}

/// A pending timer that borrows its labels or its group.
#[derive(Clone, Copy)]
pub(crate) struct Pending<'a> {
    /// When it fires, in nanoseconds since 1970.
    pub(crate) moment: u128,
    pub(crate) timer: TimerRef<'a>,
}

/// Returns whether a timer is pending at or before a moment.
pub(crate) fn is_due(at: Moment, first: Option<Pending<'_>>) -> bool
    ensures later { result ≡ false
        → IfSome (option_map due_of first.entry) (λ due. at < due.moment) }
    ensures due { result ≡ true
        → IsSomeAnd (option_map due_of first.entry) (λ due. due.moment ≤ at) }
{
    match first {
        None => false,
        Some(first) => first.moment <= at.nanoseconds(),
    }
}

/// Copies a timer, with what it borrows, if it is pending at or before a moment.
pub(crate) fn if_due(at: Moment, first: Option<Pending<'_>>) -> Result<Option<Due>, AllocError>
    ensures { IfOk result (λ due. due ≡ due_by at (option_map due_of first.entry)) }
{
    match first {
        None => Ok(None),
        Some(first) => {
            if first.moment <= at.nanoseconds() {
                let timer = first.timer.to_timer()?;
                Ok(Some(Due {
                    moment: first.moment,
                    timer,
                }))
            } else {
                Ok(None)
            }
        }
    }
}

/// Returns the earlier of two timers. If both are of one moment, that is the first.
pub(crate) fn earlier<'a>(a: Option<Pending<'a>>, b: Option<Pending<'a>>) -> Option<Pending<'a>>
    ensures { option_map due_of result
        ≡ earlier (option_map due_of a.entry) (option_map due_of b.entry) }
{
    match (a, b) {
        (Some(x), Some(y)) => { if y.moment < x.moment { b } else { a } }
        (None, _) => b,
        (_, None) => a,
    }
}
