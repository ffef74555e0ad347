//! Numbers in groups: each number belongs to one group for good, and is in it or not. The members of
//! alert groups are kept like this. All memory is taken when a number is added, so that undoing an
//! event takes none.
ghost use Rattle.std.specs.Prelude.{◌≡◌, ◌==◌, ◌+◌, ◌<◌, ◌≤◌, ◌++◌, ℕ, [], ◌∷◌, Some, false, true, cond, length, map, slice_get, OnOk, IfOk};
ghost use Rattle.amr_tables.specs.Places.{is_marked};
ghost use Rattle.amr_tables.specs.Grouped.{Grouped, AreNumbersOf};

use std::alloc::{AllocError, Global};
use std::marker::Model;

/// Numbers, each of one group, and in it or not.
#[derive(Drop)]
pub struct Grouped {
    alloc: Global,
    seats: Vec<Seat>,
    rows: Vec<Row>,
}

/// The group of a number, and its position in the row of that group.
#[derive(Clone, Copy)]
struct Seat {
    group: usize,
    position: usize,
}

/// The numbers of a group. Those that are in it stand in front, so that a number comes or leaves by
/// changing places with one other.
#[derive(Drop)]
struct Row {
    numbers: Vec<usize>,
    count: usize,
}

impl Model for Grouped {
    ghost use Rattle.std.specs.Coded.{codes};
    ghost use Rattle.std.specs.Prelude.{map, nat_lt};
    ghost use Rattle.std.specs.Vec.{vec_len, vec_capacity};
    ghost use Rattle.amr_tables.specs.Grouped.{Grouped};
    ghost use Rattle.amr_tables.specs.Seats.{IsSeating, is_seated_in, has_room};

    ghost Value = { Grouped };

    ghost coded = { Prim.hlevel codes };

    ghost view = { λ g. record {
      homes = map (λ seat. seat.group) g.seats.items;
      present = map (is_seated_in g.rows.items) g.seats.items;
      rooms = map (has_room (nat_lt (vec_len g.seats) (vec_capacity g.seats))) g.rows.items;
    } };

    ghost invariant = { λ g. IsSeating g.seats.items g.rows.items };
}

impl Grouped {
    /// Builds a table without numbers and groups.
    pub fn new(alloc: Global) -> Grouped
        ensures { result ≡ record { homes = []; present = []; rooms = [] } }
    {
        Grouped {
            alloc,
            seats: Vec::new(alloc),
            rows: Vec::new(alloc),
        }
    }

    /// Makes room for so many groups, which is at most one more than there is. A new one has no
    /// numbers.
    #[tactic(auto, using(crate::proofs::Present::present_same, crate::proofs::Present::count_more))]
    pub fn reserve_groups(&mut self, count: usize) -> Result<(), AllocError>
        requires { count ≤ length self.old.rooms + 1 }
        ensures room { OnOk result (count ≤ length self.new.rooms) }
        ensures more { length self.old.rooms ≤ length self.new.rooms }
        ensures homes { self.new.homes ≡ self.old.homes }
        ensures present { self.new.present ≡ self.old.present }
    {
        if count <= self.rows.len() {
            return Ok(());
        }
        self.rows.push(Row {
            numbers: Vec::new(self.alloc),
            count: 0,
        })?;
        Ok(())
    }

    /// Makes room for one more number in a group.
    pub fn reserve(&mut self, group: usize) -> Result<(), AllocError>
        requires { group < length self.old.rooms }
        ensures room { OnOk result (is_marked self.new.rooms group ≡ true) }
        ensures groups { length self.new.rooms ≡ length self.old.rooms }
        ensures homes { self.new.homes ≡ self.old.homes }
        ensures present { self.new.present ≡ self.old.present }
    {
        self.seats.reserve(1)?;
        self.rows[group].numbers.reserve(1)
    }

    /// Adds the next number, which belongs to a group, but isn't in it yet. It takes no memory.
    pub fn add(&mut self, group: usize)
        requires { is_marked self.old.rooms group ≡ true }
        ensures homes { self.new.homes ≡ self.old.homes ++ group ∷ [] }
        ensures present { self.new.present ≡ self.old.present ++ false ∷ [] }
        ensures groups { length self.new.rooms ≡ length self.old.rooms }
    {
        let number = self.seats.len();
        let row = &mut self.rows[group];
        let position = row.numbers.len();
        row.numbers.push_reserved(number);
        self.seats.push_reserved(Seat { group, position });
    }

    /// Puts a number into its group, or takes it out. It takes no memory.
    pub fn set(&mut self, number: usize, is_in: bool)
        requires { number < length self.old.homes }
        ensures present { (n : ℕ) → is_marked self.new.present n
            ≡ cond (n == number) is_in (is_marked self.old.present n) }
        ensures homes { self.new.homes ≡ self.old.homes }
        ensures groups { length self.new.rooms ≡ length self.old.rooms }
    {
        let seat = self.seats[number];
        let row = &mut self.rows[seat.group];
        if (seat.position < row.count) == is_in {
            return;
        }
        // It changes places with the first that isn't in the group, or with the last that is.
        let position = row.count - usize::from(!is_in);
        let other = row.numbers[position];
        row.numbers[seat.position] = other;
        row.numbers[position] = number;
        row.count = position + usize::from(is_in);
        self.seats[other].position = seat.position;
        self.seats[number].position = position;
    }

    /// Returns the group that a number belongs to.
    pub fn group_of(&self, number: usize) -> Option<usize>
        ensures { result ≡ slice_get self.now.homes number }
    {
        let seat = self.seats.get(number)?;
        Some(seat.group)
    }

    /// Returns the numbers that are in a group, in no particular order.
    pub fn numbers_of(&self, group: usize) -> &[usize]
        requires { group < length self.now.rooms }
        ensures { AreNumbersOf self.now group result.now }
    {
        let row = &self.rows[group];
        &row.numbers.as_slice()[..row.count]
    }
}
