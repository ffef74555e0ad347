//! Values by key. Each key has a number, and its value is at the place with that number, so that a
//! value can be swapped without memory. The state keeps alerts, silences, members, timers and the
//! notification log in such tables.
ghost use Rattle.std.specs.Prelude.{◌≡◌, ◌+◌, ℕ, [], IsTrue, Some, is_some, false, OnOk, OnErr, IfOk, map, slice_set};
ghost use Rattle.std.specs.Map.Iter.{deref_pair};
ghost use Rattle.std.specs.Option.{option_copied};
ghost use Rattle.amr_labels.specs.Map as map;
ghost use Rattle.amr_tables.specs.Places.{value_at, values_of};
ghost use Rattle.amr_tables.specs.Numbered.{map_of, has_place, next_number, number_of, KeepsPlaces, GetsNumber, IsValueOf, IsNumber, IsSetAt, SamePlaces, IsNumbering, key_at, rank_of};

use crate::key::Key;
use crate::numbers::Numbers;
use crate::values::Values;
use std::alloc::{AllocError, Global};
use std::cmp::Ordering;
use std::marker::Model;
use std::mem;

/// A table of values by key. A key gets the next number, and its place, when it is first seen, and
/// keeps both. Contracts see the numbers of the keys, in the order of the keys, and the value at
/// each place; `shown` is the finite map that they make.
#[derive(Drop)]
pub struct Keyed<K: Key, V> {
    numbers: Numbers<K>,
    cells: Vec<Option<V>>,
}

impl<K: Key, V> Model for Keyed<K, V> {
    ghost use Rattle.std.specs.Prelude.{◌≡◌, length};
    ghost use Rattle.amr_tables.specs.Numbered.{Numbered, numbered_code, IsNumbering};

    ghost Value = { Numbered K V };

    ghost coded = { numbered_code K.code V.code };

    ghost view = { λ t. record { numbers = t.numbers.list; cells = t.cells.items } };

    ghost invariant = { λ t. IsNumbering K.cmp (record { numbers = t.numbers.list; cells = t.cells.items })
        × (length t.numbers.list ≡ length t.cells.items) };
}

impl<K: Key + Drop, V: Drop> Keyed<K, V> {
    /// Builds a table without keys.
    #[tactic(auto, using(crate::proofs::Numbering::shown_none))]
    pub fn new(alloc: Global) -> Keyed<K, V>
        ensures shown { map_of K.cmp result ≡ map.empty }
        ensures keys { result.numbers ≡ [] }
        ensures cells { result.cells ≡ [] }
        ensures numbering { IsNumbering K.cmp result }
    {
        Keyed {
            numbers: Numbers::new(alloc),
            cells: Vec::new(alloc),
        }
    }

    /// Returns the value of a key.
    #[tactic(auto, using(crate::proofs::Numbering::shown))]
    pub fn get(&self, key: &K) -> Option<&V>
        ensures { option_copied result ≡ map.get (map_of K.cmp self.now) key.now }
    {
        match self.numbers.get(key) {
            None => None,
            Some(number) => self.at(number),
        }
    }

    /// Returns the values with their keys, in the order of the keys. It sorts them, so it is for
    /// listings.
    pub fn sorted(&self, alloc: Global) -> Result<Vec<(&K, &V)>, AllocError>
        ensures { IfOk result (λ found. map deref_pair found.items
            ≡ map.entries (map_of K.cmp self.now)) }
    {
        let numbers = self.numbers.sorted(alloc)?;
        let mut found = Vec::with_capacity(alloc, numbers.len())?;
        for (key, number) in numbers.as_slice() {
            if let Some(value) = self.at(*number) {
                found.push((*key, value))?;
            }
        }
        Ok(found)
    }

    /// Returns the values, in the order in which their keys came. It takes no memory.
    pub fn values(&self) -> Values<'_, V>
        ensures { result ≡ values_of self.now.cells }
    {
        Values {
            cells: self.cells.as_slice(),
        }
    }

    /// Returns the number of a key, if it has a place, and its value. With the number, `swap_at` needn't
    /// look for the key again.
    #[tactic(auto, using(crate::proofs::Numbering::shown))]
    pub fn look_up_number(&self, key: &K) -> (Option<usize>, Option<&V>)
        ensures number { result.0 ≡ number_of K.cmp self.now key.now }
        ensures value { option_copied result.1 ≡ map.get (map_of K.cmp self.now) key.now }
        ensures placed { IsTrue (is_some result.1) → IsTrue (is_some result.0) }
    {
        match self.numbers.get(key) {
            None => (None, None),
            Some(number) => (Some(number), self.at(number)),
        }
    }

    /// Returns the number of a key, if it has a place.
    pub fn number_of(&self, key: &K) -> Option<usize>
        ensures number { result ≡ number_of K.cmp self.now key.now }
        ensures numbering { IsNumbering K.cmp self.now }
    {
        self.numbers.get(key)
    }

    /// Returns the key with a number.
    pub fn key_at(&self, number: usize) -> Option<&K>
        ensures key { option_copied result ≡ key_at self.now number }
        ensures numbering { IsNumbering K.cmp self.now }
    {
        self.numbers.key_at(number)
    }

    /// Compares the keys that have two numbers.
    pub fn compare_at(&self, a: usize, b: usize) -> Ordering
        ensures { result ≡ rank_of K.cmp self.now a b }
    {
        self.key_at(a).cmp(&self.key_at(b))
    }

    /// Returns the number that the next new key gets.
    pub fn next_number(&self) -> usize
        ensures next { result ≡ next_number self.now }
        ensures numbering { IsNumbering K.cmp self.now }
    {
        self.cells.len()
    }

    /// Returns the value at a place. It compares no keys, so it is faster than `get`.
    #[tactic(auto, using(crate::proofs::Numbering::shown))]
    pub fn at(&self, number: usize) -> Option<&V>
        ensures place { option_copied result ≡ value_at self.now.cells number }
        ensures key { IsValueOf K.cmp self.now number (option_copied result) }
    {
        self.cells.get(number)?.as_ref()
    }

    /// Makes an empty place for a key, unless it has one. Returns its number.
    #[tactic(auto, using(crate::proofs::Numbering::placed), unfolding(crate::specs::Numbered::has_place))]
    pub fn make_place(&mut self, key: K) -> Result<usize, AllocError>
        ensures made { IfOk result (λ number. number_of K.cmp self.new key ≡ Some number) }
        ensures places { KeepsPlaces K.cmp self.old self.new }
        ensures shown { map_of K.cmp self.new ≡ map_of K.cmp self.old }
        ensures values { (n : ℕ) → value_at self.new.cells n ≡ value_at self.old.cells n }
        ensures numbers { IsTrue (has_place K.cmp self.old key)
            → self.new.numbers ≡ self.old.numbers }
        ensures number { OnOk result (has_place K.cmp self.old key ≡ false
            → GetsNumber K.cmp self.old self.new key (next_number self.old)) }
        ensures numbering { IsNumbering K.cmp self.new }
        ensures next { OnOk result (has_place K.cmp self.old key ≡ false
            → next_number self.new ≡ next_number self.old + 1) }
        ensures err { OnErr result (SamePlaces K.cmp self.old self.new) }
        ensures kept { OnErr result (self.new.numbers ≡ self.old.numbers) }
        ensures same_next { OnErr result (next_number self.new ≡ next_number self.old) }
    {
        if let Some(number) = self.numbers.get(&key) {
            return Ok(number);
        }
        let number = self.cells.len();
        self.numbers.reserve()?;
        self.cells.reserve(1)?;
        self.numbers.insert(key);
        self.cells.push_reserved(None);
        Ok(number)
    }

    /// Puts a value under a key. The former value is dropped.
    pub fn insert(&mut self, key: K, value: V) -> Result<(), AllocError>
        ensures ok { OnOk result
            (map_of K.cmp self.new ≡ map.insert (map_of K.cmp self.old) key value) }
        ensures err { OnErr result (map_of K.cmp self.new ≡ map_of K.cmp self.old) }
    {
        let number = self.make_place(key)?;
        self.swap_at(number, &mut Some(value));
        Ok(())
    }

    /// Swaps the value of the key with a number, or `None` if it has none, with another. It compares
    /// no keys and takes no memory.
    #[tactic(auto, using(crate::proofs::Numbering::shown), unfolding(crate::specs::Numbered::has_place))]
    pub fn swap_at(&mut self, number: usize, value: &mut Option<V>)
        requires { IsNumber K.cmp self.old number }
        ensures former { IsValueOf K.cmp self.old number value.new }
        ensures shown { IsSetAt K.cmp self.old number value.old self.new }
        ensures places { SamePlaces K.cmp self.old self.new }
        ensures keys { self.new.numbers ≡ self.old.numbers }
        ensures value { value.new ≡ value_at self.old.cells number }
        ensures cells { self.new.cells ≡ slice_set self.old.cells number value.old }
        ensures numbering { IsNumbering K.cmp self.new }
    {
        mem::swap(&mut self.cells[number], value);
    }
}
