//! Iterates over the values of a table, in the order of their places. `Keyed::values` returns it.
ghost use Rattle.std.specs.Prelude.{◌≡◌, length};
ghost use Rattle.std.specs.Iterator.{at_most};
ghost use Rattle.std.specs.Map.Iter.{TakesFirst, deref};

use std::marker::Model;

/// An iterator over the values of a table. Contracts see the values that are left.
#[derive(Drop)]
pub struct Values<'a, V> {
    pub(crate) cells: &'a [Option<V>],
}

impl<'a, V> Model for Values<'a, V> {
    ghost use Rattle.std.specs.Prelude.{List};
    ghost use Rattle.amr_tables.specs.Places.{values_of};

    ghost Value = { List V };

    ghost view = { λ values. values_of values.cells.now };
}

impl<'a, V> Iterator for Values<'a, V> {
    type Item = &'a V;

    ghost next_gives = { TakesFirst deref };

    ghost remaining = { λ values. at_most (length values) };

    fn next(&mut self) -> Option<&'a V> {
        while let Some((cell, rest)) = self.cells.split_first() {
            self.cells = rest;
            if let Some(value) = cell {
                return Some(value);
            }
        }
        None
    }
}
