//! The journal: one record for each event that can be undone, with what the event displaced, and
//! the open record of the event under way. `Store` writes it; the journal doesn't know what its
//! entries mean.
ghost use Rattle.std.specs.Prelude.{◌≡◌, ◌+◌, ◌<◌, ◌≤◌, [], ◌∷◌, ◌++◌, length, OnOk, Some, ◌==◌, option_map};
ghost use Rattle.std.specs.Prelude.{slice_get, drop};

use std::alloc::{AllocError, Global};
use std::marker::Model;

/// A journal of records. Contracts see the closed records, the open one, and the room that is
/// reserved. All records lie one after another in `entries`, so that an event needs no vector of
/// its own: `sizes` has the sizes of the closed ones, and the open one begins at `opened`.
#[derive(Drop)]
pub struct Journal<E> {
    entries: Vec<E>,
    sizes: Vec<usize>,
    opened: usize,
}

impl<E> Model for Journal<E> {
    ghost use Rattle.std.specs.Prelude.{◌-◌, ◌≡◌, ◌≤◌, drop, length, sum, vec_len, vec_capacity};
    ghost use Rattle.amr_tables.specs.Records.{Records, records_code, records_of};

    ghost Value = { Records E };

    ghost coded = { records_code E.code };

    ghost view = { λ journal. record {
      closed = records_of journal.sizes.items journal.entries.items;
      current = drop journal.opened journal.entries.items;
      entry_room = vec_capacity journal.entries - vec_len journal.entries;
      record_room = vec_capacity journal.sizes - vec_len journal.sizes;
    } };

    ghost invariant = { λ journal.
        (journal.opened ≡ sum journal.sizes.items)
        × (journal.opened ≤ length journal.entries.items) };
}

impl<E> Journal<E> {
    /// Builds an empty journal.
    #[tactic(auto, unfolding(crate::specs::Records::records_of))]
    pub fn new(alloc: Global) -> Self
        ensures closed { result.closed ≡ [] }
        ensures current { result.current ≡ [] }
    {
        Journal {
            entries: Vec::new(alloc),
            sizes: Vec::new(alloc),
            opened: 0,
        }
    }

    /// Makes room for `n` more entries in the open record, and for one more record.
    pub fn reserve(&mut self, n: usize) -> Result<(), AllocError>
        ensures closed { self.new.closed ≡ self.old.closed }
        ensures current { self.new.current ≡ self.old.current }
        ensures entries { OnOk result (n ≤ self.new.entry_room) }
        ensures records { OnOk result (0 < self.new.record_room) }
    {
        self.sizes.reserve(1)?;
        self.entries.reserve(n)
    }

    /// Makes room for one more entry in the open record.
    pub fn reserve_entry(&mut self) -> Result<(), AllocError>
        ensures closed { self.new.closed ≡ self.old.closed }
        ensures current { self.new.current ≡ self.old.current }
        ensures entries { OnOk result (0 < self.new.entry_room) }
        ensures records { self.new.record_room ≡ self.old.record_room }
    {
        self.entries.reserve(1)
    }

    /// Adds an entry to the open record. It takes no memory.
    #[tactic(auto, using(crate::proofs::Closing::records_before))]
    pub fn push(&mut self, entry: E)
        requires { 0 < self.old.entry_room }
        ensures closed { self.new.closed ≡ self.old.closed }
        ensures current { self.new.current ≡ self.old.current ++ entry ∷ [] }
        ensures entries { self.new.entry_room + 1 ≡ self.old.entry_room }
        ensures records { self.new.record_room ≡ self.old.record_room }
    {
        self.entries.push_reserved(entry);
    }

    /// Closes the open record and opens an empty one. It takes no memory.
    #[tactic(auto, using(crate::proofs::Closing::closed_last))]
    pub fn close(&mut self)
        requires { 0 < self.old.record_room }
        ensures closed { self.new.closed ≡ self.old.closed ++ self.old.current ∷ [] }
        ensures current { self.new.current ≡ [] }
    {
        self.sizes.push_reserved(self.entries.len() - self.opened);
        self.opened = self.entries.len();
    }

    /// Removes the last entry of the open record, and returns it.
    #[tactic(auto, using(crate::proofs::Closing::records_before_last))]
    pub fn pop(&mut self) -> E
        requires { 0 < length self.old.current }
        ensures closed { self.new.closed ≡ self.old.closed }
        ensures current { self.old.current ≡ self.new.current ++ result ∷ [] }
        ensures records { self.new.record_room ≡ self.old.record_room }
    {
        match self.entries.pop() {
            Some(entry) => entry,
            None => unreachable!(),
        }
    }

    /// Opens the last closed record again, in place of the empty open one.
    #[tactic(auto, using(crate::proofs::Closing::count_of_records, crate::proofs::Closing::reopened_last))]
    pub fn reopen(&mut self)
    where
        E: Drop,
        requires some { 0 < length self.old.closed }
        requires empty { self.old.current ≡ [] }
        ensures { self.old.closed ≡ self.new.closed ++ self.new.current ∷ [] }
    {
        match self.sizes.pop() {
            Some(size) => self.opened -= size,
            None => unreachable!(),
        }
    }

    /// Drops all closed records.
    #[tactic(auto, unfolding(crate::specs::Records::records_of))]
    pub fn forget(&mut self)
    where
        E: Drop,
        ensures closed { self.new.closed ≡ [] }
        ensures current { self.new.current ≡ self.old.current }
    {
        remove_first(&mut self.entries, self.opened);
        self.sizes.clear();
        self.opened = 0;
    }

    /// Returns whether the open record is empty.
    pub fn is_current_empty(&self) -> bool
        ensures { result ≡ (length self.now.current == 0) }
    {
        self.opened == self.entries.len()
    }

    /// Returns the number of closed records.
    #[tactic(auto, using(crate::proofs::Closing::count_of_records))]
    pub fn len(&self) -> usize
        ensures { result ≡ length self.now.closed }
    {
        self.sizes.len()
    }

    /// Returns the number of entries of the closed record number `index`, from 0.
    #[tactic(auto, using(crate::proofs::Closing::count_of_records, crate::proofs::Closing::size_of_record))]
    pub fn record_len(&self, index: usize) -> usize
        requires { index < length self.now.closed }
        ensures { option_map length (slice_get self.now.closed index) ≡ Some result }
    {
        self.sizes[index]
    }
}

/// Removes the first `count` entries. It takes no memory, and keeps the room of all entries.
fn remove_first<E>(entries: &mut Vec<E>, count: usize)
where
    E: Drop,
    requires { count ≤ length entries.old.items }
    ensures { entries.new.items ≡ drop count entries.old.items }
{
    if count == entries.len() {
        entries.clear();
    } else {
        let left = entries.len() - count;
        entries.rotate_left(count);
        entries.truncate(left);
    }
}
