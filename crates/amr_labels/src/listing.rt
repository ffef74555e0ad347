//! A `Vec` that contracts see as a list, for lists that are parts of other values: matchers,
//! routes, alerts of a notification.
ghost use Rattle.std.specs.Prelude.{◌≡◌, ◌==◌, List, [], ◌∷◌, ◌++◌, length, OnOk, OnErr};
ghost use Rattle.std.specs.Cmp.Lexicographic as lists;
ghost use Rattle.std.specs.Fn.{CalledAt};
ghost use Rattle.std.specs.List.Retain.{IsFiltered};

use crate::exact::Exact;
use std::alloc::{AllocError, Global};
use std::cmp::Ordering;
use std::hash::{Hash, Hasher};
use std::marker::Model;

/// A list of values.
#[derive(Drop)]
pub struct Listing<T> {
    items: Vec<T>,
}

impl<T> Model for Listing<T> {
    ghost use Rattle.std.specs.Prelude.{List};

    ghost Value = { List T };

    ghost view = { λ listing. listing.items.items };
}

impl<T> Listing<T> {
    /// Returns an empty list.
    pub fn new(alloc: Global) -> Listing<T>
        ensures { result ≡ [] }
    {
        Listing {
            items: Vec::new(alloc),
        }
    }

    /// Returns the list of the values of a `Vec`.
    pub fn from_vec(items: Vec<T>) -> Listing<T>
        ensures { result ≡ items.items }
    {
        Listing { items }
    }

    /// Returns the values as a slice.
    pub fn as_slice(&self) -> &[T]
        ensures { result.now ≡ self.now }
    {
        self.items.as_slice()
    }

    /// Returns the number of values.
    pub fn len(&self) -> usize
        ensures { result ≡ length self.now }
    {
        self.items.len()
    }

    /// Returns whether there is no value.
    pub fn is_empty(&self) -> bool
        ensures { result ≡ (length self.now == 0) }
    {
        self.items.is_empty()
    }
}

impl<T: Drop> Listing<T> {
    /// Appends a value.
    pub fn push(&mut self, item: T) -> Result<(), AllocError>
        ensures ok { OnOk result (self.new ≡ self.old ++ item ∷ []) }
        ensures err { OnErr result (self.new ≡ self.old) }
    {
        self.items.push(item)?;
        Ok(())
    }

    /// Keeps the values that a test picks, in their order. It takes no memory.
    pub fn retain<F: FnMut(&T) -> bool>(&mut self, test: F)
        requires { F.IsAlwaysCallable test }
        ensures { IsFiltered (CalledAt F.FnMut) test self.old self.new }
    {
        self.items.retain(test);
    }
}

impl<T: Exact + Drop> Clone for Listing<T> {
    ghost is_clone = { λ a b. b ≡ a };

    fn clone(&self) -> Result<Listing<T>, AllocError> {
        Ok(Listing {
            items: self.items.clone()?,
        })
    }
}

impl<T: Exact + Drop> Exact for Listing<T> {
    ghost exact = { λ x y same. same };
}

impl<T: PartialEq> PartialEq for Listing<T> {
    ghost eq = { lists.pointwise T.eq };

    ghost laws = { lists.lists_per T.laws };

    fn eq(&self, other: &Listing<T>) -> bool {
        self.items == other.items
    }
}

impl<T: Eq> Eq for Listing<T> {
    ghost laws = { lists.lists_equiv T.Eq.laws };
}

impl<T: PartialOrd> PartialOrd for Listing<T> {
    ghost partial_cmp = { lists.slice_partial_cmp T.partial_cmp };

    ghost laws = { lists.lists_po T.PartialOrd.laws };

    fn partial_cmp(&self, other: &Listing<T>) -> Option<Ordering> {
        self.items.partial_cmp(&other.items)
    }
}

impl<T: Ord> Ord for Listing<T> {
    ghost cmp = { lists.slice_cmp T.cmp };

    ghost total = { lists.lists_total T.total };

    ghost matches_partial_cmp = { lists.lists_agrees T.matches_partial_cmp };

    ghost matches_eq = { lists.lists_ties T.cmp T.matches_eq };

    fn cmp(&self, other: &Listing<T>) -> Ordering {
        self.items.cmp(&other.items)
    }
}

impl<T: Hash> Hash for Listing<T> {
    ghost use Rattle.std.specs.Hash as fed;

    ghost hash_input = { fed.slice T.hash_input };

    ghost respects_eq = { (fed.items_Alike (record { fed = T.respects_eq })).fed };

    fn hash<H: Hasher>(&self, state: &mut H) {
        self.items.hash(state);
    }
}
