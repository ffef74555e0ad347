//! The numbers of the keys of a table, in the order in which the keys came. `Keyed` looks its keys up
//! here.
ghost use Rattle.std.specs.Prelude.{◌≡◌, ◌<◌, None, [], map, length, IfOk, OnOk};
ghost use Rattle.std.specs.FinMap.{find, put};
ghost use Rattle.std.specs.Option.{option_copied};
ghost use Rattle.amr_tables.specs.Numbered.{numbered_key, key_with};

use crate::key::Key;
use indexmap::IndexSet;
use std::alloc::{AllocError, Global};
use std::marker::Model;

/// A number for each key, which is how many keys came before it. Contracts see the keys with their
/// numbers, in the order of the keys, and how many more keys there is room for.
#[derive(Drop)]
pub(crate) struct Numbers<K: Key> {
    keys: IndexSet<K>,
}

impl<K: Key> Model for Numbers<K> {
    ghost use Rattle.indexmap.specs.IndexSet.{IsUnique, spare};
    ghost use Rattle.amr_tables.specs.Numbered.{Numbering, numbering_code, numbered_from};

    ghost Value = { Numbering K };

    ghost coded = { numbering_code K.code };

    ghost view = { λ numbers. record { list = numbered_from K.cmp 0 numbers.keys.keys; room = spare numbers.keys } };

    ghost invariant = { λ numbers. IsUnique K.eq numbers.keys };
}

impl<K: Key + Drop> Numbers<K> {
    /// Builds the numbers of no keys.
    pub(crate) fn new(alloc: Global) -> Numbers<K>
        ensures { result.list ≡ [] }
    {
        Numbers {
            keys: IndexSet::new(alloc),
        }
    }

    /// Returns the number of a key.
    pub(crate) fn get(&self, key: &K) -> Option<usize>
        ensures { result ≡ find K.cmp key.now self.now.list }
    {
        self.keys.get_index_of(key)
    }

    /// Returns the key with a number.
    pub(crate) fn key_at(&self, number: usize) -> Option<&K>
        ensures { option_copied result ≡ key_with self.now.list number }
    {
        self.keys.get_index(number)
    }

    /// Makes room for one more key.
    pub(crate) fn reserve(&mut self) -> Result<(), AllocError>
        ensures list { self.new.list ≡ self.old.list }
        ensures room { OnOk result (0 < self.new.room) }
    {
        self.keys.reserve(1)
    }

    /// Gives the next number to a key that has none. It takes no memory.
    pub(crate) fn insert(&mut self, key: K)
        requires absent { find K.cmp key self.old.list ≡ None }
        requires room { 0 < self.old.room }
        ensures { self.new.list ≡ put K.cmp key (length self.old.list) self.old.list }
    {
        match self.keys.insert(key) {
            Ok(_) => (),
            Err(_) => unreachable!(),
        }
    }

    /// Returns the keys with their numbers, in the order of the keys.
    pub(crate) fn sorted(&self, alloc: Global) -> Result<Vec<(&K, usize)>, AllocError>
        ensures { IfOk result (λ sorted. map numbered_key sorted.items ≡ self.now.list) }
    {
        let mut sorted = Vec::with_capacity(alloc, self.keys.len())?;
        for (number, key) in self.keys.as_slice().iter().enumerate() {
            sorted.push((key, number))?;
        }
        sorted.sort()?;
        Ok(sorted)
    }
}
