//! Which of the moments of numbers is the earliest. The pending timers are found like this, by the
//! numbers of alerts and groups. All memory is taken before a moment changes, so that undoing an
//! event takes none.
ghost use Rattle.std.specs.Prelude.{◌≡◌, ◌<◌, ◌≤◌, ◌⊎◌, true, false, ℕ, Option, None, Some, OnOk, IfSome, IfNone, slice_get};
ghost use Rattle.std.specs.List.{last_or};
ghost use Rattle.std.specs.declared.cmp.Ordering.{Ordering};
ghost use Rattle.amr_tables.specs.Moments.{is_after};
ghost use Rattle.amr_tables.specs.Heap.{standing_at};
ghost use Rattle.amr_tables.specs.Earliest.{room, changed_back, StandsIn, IsHeld, IsCurrent, IsOutdated, AreAmong, AreKept, IsOrdered, IsEarliest};

use crate::heap::Heap;
use crate::schedule::{NumberedMoment, Schedule, is_after};
use std::alloc::{AllocError, Global};
use std::collections::VecDeque;
use std::marker::Model;

/// Which number of a schedule has the earliest moment. Most groups that are flushed are flushed again
/// after all others, so moments that come in order stand in a queue, where one more takes no search.
/// The others stand in a heap. Of a number that got another moment, the former stays where it is
/// until it is an end of the queue or the first of the heap.
#[derive(Drop)]
pub struct Earliest {
    queue: VecDeque<NumberedMoment>,
    rest: Heap,
}

impl Model for Earliest {
    ghost use Rattle.std.specs.Coded.{codes};
    ghost use Rattle.amr_tables.specs.Earliest.{Earliest};

    ghost Value = { Earliest };

    ghost coded = { Prim.hlevel codes };

    ghost view = { λ e. record { queue = e.queue.items; rest = e.rest } };
}

impl Earliest {
    /// Builds it for a schedule without moments.
    pub fn new(alloc: Global) -> Earliest
        ensures held { (n : ℕ) → IsHeld result n → ⊥ }
        ensures kept { (rank : ℕ → ℕ → Ordering) (moments : ℕ → Option ℕ)
            → ((n : ℕ) → moments n ≡ None) → IsOrdered rank moments result }
    {
        Earliest {
            queue: VecDeque::new(alloc),
            rest: Heap::new(alloc),
        }
    }

    /// Makes room for the numbers below `count`.
    pub fn reserve(&mut self, count: usize) -> Result<(), AllocError>
        ensures room { OnOk result (count ≤ room self.new) }
        ensures more { room self.old ≤ room self.new }
        ensures held { (n : ℕ) → IsHeld self.new n → IsHeld self.old n }
        ensures kept { (rank : ℕ → ℕ → Ordering) (moments : ℕ → Option ℕ)
            → IsOrdered rank moments self.old → IsOrdered rank moments self.new }
    {
        self.rest.reserve(count)
    }

    /// Makes room in the queue for as many moments as there are numbers. Without it, fewer stand
    /// there, or none.
    pub fn reserve_queue(&mut self) -> Result<(), AllocError>
        ensures { self.new ≡ self.old }
    {
        let more = self.rest.room().saturating_sub(self.queue.len());
        self.queue.reserve(more)
    }

    /// Takes up the moment that a number has in the schedule now, given the one that it had before.
    /// It takes no memory, and next to no time if the moment is the last or the first of the queue.
    #[inline(always)]
    #[tactic(auto, using(crate::proofs::Firsts::changed_nothing, crate::proofs::Firsts::without))]
    pub fn update<S: Schedule>(&mut self, schedule: &S, number: usize, former: Option<u128>)
        requires room { number < room self.old }
        requires kept { IsOrdered (S.rank schedule.now)
            (changed_back (S.moments schedule.now) number former) self.old }
        ensures room { room self.new ≡ room self.old }
        ensures held { (n : ℕ) → IsHeld self.new n → IsHeld self.old n ⊎ (n ≡ number) }
        ensures kept { IsOrdered (S.rank schedule.now) (S.moments schedule.now) self.new }
    {
        let moment = schedule.moment(number);
        if moment == former {
            return;
        }
        if let Some(moment) = moment {
            self.insert(schedule, NumberedMoment { moment, number });
        }
        self.drop_front(schedule);
        self.drop_first(schedule);
    }

    /// Returns the earliest moment with its number; of equal moments, the one whose number the order
    /// puts first.
    pub fn first<S: Schedule>(&self, schedule: &S) -> Option<NumberedMoment>
        requires { IsOrdered (S.rank schedule.now) (S.moments schedule.now) self.now }
        ensures some { IfSome result (IsEarliest (S.rank schedule.now) (S.moments schedule.now)) }
        ensures none { IfNone result ((n : ℕ) → S.moments schedule.now n ≡ None) }
    {
        let front = self.front();
        let first = self.rest.first();
        if is_after(schedule, front, first) {
            first
        } else {
            front
        }
    }

    /// Returns the first moment of the queue.
    fn front(&self) -> Option<NumberedMoment>
        ensures { result ≡ slice_get self.now.queue 0 }
    {
        self.queue.front().copied()
    }

    /// Returns the last moment of the queue.
    fn last(&self) -> Option<NumberedMoment>
        ensures { result ≡ last_or None self.now.queue }
    {
        self.queue.back().copied()
    }

    /// Lets the moment that a number has now stand: at an end of the queue if it is in order there,
    /// else among the rest. Those of all other numbers stand already.
    #[inline(never)]
    fn insert<S: Schedule>(&mut self, schedule: &S, standing: NumberedMoment)
        requires room { standing.number < room self.old }
        requires current { IsCurrent (S.moments schedule.now) standing }
        requires kept { AreKept (S.rank schedule.now)
            (changed_back (S.moments schedule.now) standing.number None) self.old }
        ensures room { room self.new ≡ room self.old }
        ensures held { (n : ℕ) → IsHeld self.new n → IsHeld self.old n ⊎ (n ≡ standing.number) }
        ensures kept { AreKept (S.rank schedule.now) (S.moments schedule.now) self.new }
    {
        let has_room = self.queue.len() < self.queue.capacity();
        if has_room && !is_after(schedule, self.last(), Some(standing)) {
            self.queue.push_back_reserved(standing);
            return;
        }
        self.drop_last(schedule);
        self.insert_before(schedule, standing);
    }

    /// Lets the moment that a number has now stand: at the front of the queue if it is in order
    /// there, else among the rest.
    #[inline(never)]
    #[tactic(auto, using(crate::proofs::Queueing::kept_first))]
    fn insert_before<S: Schedule>(&mut self, schedule: &S, standing: NumberedMoment)
        requires room { standing.number < room self.old }
        requires current { IsCurrent (S.moments schedule.now) standing }
        requires kept { AreKept (S.rank schedule.now)
            (changed_back (S.moments schedule.now) standing.number None) self.old }
        ensures room { room self.new ≡ room self.old }
        ensures held { (n : ℕ) → IsHeld self.new n → IsHeld self.old n ⊎ (n ≡ standing.number) }
        ensures kept { AreKept (S.rank schedule.now) (S.moments schedule.now) self.new }
    {
        let has_room = self.queue.len() < self.queue.capacity();
        if has_room && !is_after(schedule, Some(standing), self.front()) {
            self.queue.push_front_reserved(standing);
        } else {
            self.rest.insert(schedule, standing);
        }
    }

    /// Drops moments from the end of the queue, as long as they aren't current.
    fn drop_last<S: Schedule>(&mut self, schedule: &S)
        ensures rest { self.new.rest ≡ self.old.rest }
        ensures queue { (s : NumberedMoment)
            → StandsIn self.new.queue s → StandsIn self.old.queue s }
        ensures kept { (rank : ℕ → ℕ → Ordering) (moments : ℕ → Option ℕ)
            → AreAmong moments (S.moments schedule.now) → AreKept rank moments self.old
            → AreKept rank moments self.new }
        ensures last { IfSome (last_or None self.new.queue) (IsCurrent (S.moments schedule.now)) }
    {
        while is_outdated(schedule, self.last()) {
            self.queue.pop_back();
        }
    }

    /// Drops moments from the front of the queue, as long as they aren't current.
    #[tactic(auto, using(crate::proofs::Queueing::front_leaves))]
    fn drop_front<S: Schedule>(&mut self, schedule: &S)
        ensures rest { self.new.rest ≡ self.old.rest }
        ensures queue { (s : NumberedMoment)
            → StandsIn self.new.queue s → StandsIn self.old.queue s }
        ensures kept { AreKept (S.rank schedule.now) (S.moments schedule.now) self.old
            → AreKept (S.rank schedule.now) (S.moments schedule.now) self.new }
        ensures front { IfSome (slice_get self.new.queue 0) (IsCurrent (S.moments schedule.now)) }
    {
        while is_outdated(schedule, self.front()) {
            self.queue.pop_front();
        }
    }

    /// Takes the first of the rest out, as long as it isn't current.
    fn drop_first<S: Schedule>(&mut self, schedule: &S)
        requires { AreKept (S.rank schedule.now) (S.moments schedule.now) self.old }
        ensures queue { self.new.queue ≡ self.old.queue }
        ensures room { room self.new ≡ room self.old }
        ensures held { (n : ℕ) → IsHeld self.new n → IsHeld self.old n }
        ensures kept { AreKept (S.rank schedule.now) (S.moments schedule.now) self.new }
        ensures first { IfSome (standing_at self.new.rest 0) (IsCurrent (S.moments schedule.now)) }
    {
        while is_outdated(schedule, self.rest.first()) {
            self.rest.remove_first(schedule);
        }
    }
}

/// Returns whether there is a moment that its number doesn't have any more.
fn is_outdated<S: Schedule>(schedule: &S, standing: Option<NumberedMoment>) -> bool
    ensures outdated { result ≡ true → IsOutdated (S.moments schedule.now) standing }
    ensures current { result ≡ false → IfSome standing (IsCurrent (S.moments schedule.now)) }
{
    match standing {
        None => false,
        Some(standing) => schedule.moment(standing.number) != Some(standing.moment),
    }
}
