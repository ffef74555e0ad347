//! A heap of moments with their numbers, the earliest first. `earliest.rt` inserts the moments that
//! don't come in order.
ghost use Rattle.std.specs.Prelude.{◌≡◌, ◌≢◌, ◌↔◌, ◌<◌, ◌≤◌, ◌+◌, ℕ, [], Some, length, slice_get, OnOk, IfSome, IfNone};
ghost use Rattle.amr_tables.specs.Heap.{standing_at, number_at, swapped, HoldSame, IsInserted, IsRemoved, IsBelow, IsNotAfter, IsHeap, MayRise, MaySink, IsFirstBelow};

use crate::schedule::{NumberedMoment, Schedule, is_after};
use std::alloc::{AllocError, Global};
use std::marker::Model;

/// Moments of numbers, in nanoseconds since 1970, of each number at most one. Each number has an
/// entry, and those that stand in the heap are in front, so that a number comes or leaves by changing
/// places with one other. The moment at place k isn't after those at 2k + 1 and 2k + 2, which are
/// below it.
#[derive(Drop)]
pub(crate) struct Heap {
    entries: Vec<NumberedMoment>,
    /// The place of the entry of each number.
    places: Vec<usize>,
    size: usize,
}

impl Model for Heap {
    ghost use Rattle.std.specs.Coded.{codes};
    ghost use Rattle.amr_tables.specs.Heap.{Heap, IsPlaced};

    ghost Value = { Heap };

    ghost coded = { Prim.hlevel codes };

    ghost view = { λ h. record { entries = h.entries.items; size = h.size } };

    ghost invariant = { λ h. IsPlaced h.entries.items h.places.items h.size };
}

impl Heap {
    /// Builds a heap for no numbers.
    pub fn new(alloc: Global) -> Heap
        ensures { result ≡ record { entries = []; size = 0 } }
    {
        Heap {
            entries: Vec::new(alloc),
            places: Vec::new(alloc),
            size: 0,
        }
    }

    /// Returns how many numbers may have a moment.
    pub fn room(&self) -> usize
        ensures { result ≡ length self.now.entries }
    {
        self.entries.len()
    }

    /// Makes room for the numbers below `count`.
    pub fn reserve(&mut self, count: usize) -> Result<(), AllocError>
        ensures room { OnOk result (count ≤ length self.new.entries) }
        ensures more { length self.old.entries ≤ length self.new.entries }
        ensures same { (place : ℕ) → standing_at self.new place ≡ standing_at self.old place }
    {
        while self.room() < count {
            self.add()?;
        }
        Ok(())
    }

    /// Makes room for one more number.
    fn add(&mut self) -> Result<(), AllocError>
        ensures room { OnOk result (length self.new.entries ≡ length self.old.entries + 1) }
        ensures more { length self.old.entries ≤ length self.new.entries }
        ensures same { (place : ℕ) → standing_at self.new place ≡ standing_at self.old place }
    {
        let number = self.room();
        self.entries.reserve(1)?;
        self.places.push(number)?;
        self.entries
            .push_reserved(NumberedMoment { moment: 0, number });
        Ok(())
    }

    /// Returns the moment that is first.
    pub fn first(&self) -> Option<NumberedMoment>
        ensures { result ≡ standing_at self.now 0 }
    {
        self.at(0)
    }

    /// Returns the moment at a place of the heap.
    fn at(&self, place: usize) -> Option<NumberedMoment>
        ensures { result ≡ standing_at self.now place }
    {
        if place < self.size {
            Some(self.entries[place])
        } else {
            None
        }
    }

    /// Lets a moment stand in the heap, in place of another of its number. It takes no memory.
    pub fn insert<S: Schedule>(&mut self, schedule: &S, standing: NumberedMoment)
        requires room { standing.number < length self.old.entries }
        requires kept { IsHeap (S.rank schedule.now) self.old }
        ensures room { length self.new.entries ≡ length self.old.entries }
        ensures inserted { IsInserted standing self.old self.new }
        ensures kept { IsHeap (S.rank schedule.now) self.new }
    {
        let (place, former) = self.enter(standing.number);
        self.entries[place] = standing;
        if is_after(schedule, former, Some(standing)) {
            self.raise(schedule, place);
        } else {
            self.sink(schedule, place);
        }
    }

    /// Takes out the moment that is first.
    pub fn remove_first<S: Schedule>(&mut self, schedule: &S)
        requires some { 0 < self.old.size }
        requires kept { IsHeap (S.rank schedule.now) self.old }
        ensures room { length self.new.entries ≡ length self.old.entries }
        ensures fewer { self.new.size < self.old.size }
        ensures removed { IsRemoved self.old self.new }
        ensures kept { IsHeap (S.rank schedule.now) self.new }
    {
        let last = self.size - 1;
        self.swap(0, last);
        self.size = last;
        self.sink(schedule, 0);
    }

    /// Lets a number that has no place in the heap have the next one. Returns its place, and the moment
    /// that it had there.
    fn enter(&mut self, number: usize) -> (usize, Option<NumberedMoment>)
        requires { number < length self.old.entries }
        ensures room { length self.new.entries ≡ length self.old.entries }
        ensures within { result.0 < self.new.size }
        ensures former { result.1 ≡ standing_at self.old result.0 }
        ensures own { number_at self.new.entries result.0 ≡ Some number }
        ensures others { (place : ℕ) → place ≢ result.0
            → standing_at self.new place ≡ standing_at self.old place }
        ensures one { (place : ℕ) (s : NumberedMoment) → standing_at self.old place ≡ Some s
            → (s.number ≡ number) ↔ (place ≡ result.0) }
    {
        let place = self.places[number];
        let former = self.at(place);
        if former.is_some() {
            return (place, former);
        }
        let last = self.size;
        self.swap(place, last);
        self.size = last + 1;
        (last, None)
    }

    /// Lets a moment change places with the one above it, as long as that is after it.
    fn raise<S: Schedule>(&mut self, schedule: &S, place: usize)
        requires within { place < self.old.size }
        requires kept { MayRise (S.rank schedule.now) self.old place }
        ensures room { length self.new.entries ≡ length self.old.entries }
        ensures same { HoldSame self.old self.new }
        ensures kept { IsHeap (S.rank schedule.now) self.new }
    {
        let mut place = place;
        while place > 0 {
            let above = (place - 1) / 2;
            if !is_after(schedule, self.at(above), self.at(place)) {
                return;
            }
            self.swap(above, place);
            place = above;
        }
    }

    /// Lets a moment change places with the first below it, as long as it is after that.
    fn sink<S: Schedule>(&mut self, schedule: &S, place: usize)
        requires { MaySink (S.rank schedule.now) self.old place }
        ensures room { length self.new.entries ≡ length self.old.entries }
        ensures size { self.new.size ≡ self.old.size }
        ensures same { HoldSame self.old self.new }
        ensures kept { IsHeap (S.rank schedule.now) self.new }
    {
        let mut place = place;
        while let Some(below) = self.first_below(schedule, place) {
            self.swap(place, below);
            place = below;
        }
    }

    /// Returns which of the two places below one has the first moment, if the moment at this place is
    /// after it.
    fn first_below<S: Schedule>(&self, schedule: &S, place: usize) -> Option<usize>
        ensures some { IfSome result (IsFirstBelow (S.rank schedule.now) self.now place) }
        ensures none { IfNone result ((below : ℕ) → IsBelow place below
            → IsNotAfter (S.rank schedule.now) self.now place below) }
    {
        if place >= self.size / 2 {
            return None;
        }
        let left = place * 2 + 1;
        let right = left + 1;
        let below = if is_after(schedule, self.at(left), self.at(right)) {
            right
        } else {
            left
        };
        if is_after(schedule, self.at(place), self.at(below)) {
            Some(below)
        } else {
            None
        }
    }

    /// Lets the entries at two places change places.
    fn swap(&mut self, i: usize, j: usize)
        requires i { i < length self.old.entries }
        requires j { j < length self.old.entries }
        ensures size { self.new.size ≡ self.old.size }
        ensures room { length self.new.entries ≡ length self.old.entries }
        ensures entries { (place : ℕ) → slice_get self.new.entries place
            ≡ slice_get self.old.entries (swapped i j place) }
    {
        let number = self.entries[i].number;
        let other = self.entries[j].number;
        self.places.swap(number, other);
        self.entries.swap(i, j);
    }
}
