//! Names of labels, as `group_by` lists them. One is found among many by a search that halves.
ghost use Rattle.std.specs.Prelude.{◌≡◌, List, IfOk, IsSorted};
ghost use Rattle.std.specs.List.{list_any};
ghost use Rattle.std.specs.Ordering.{eq_by_cmp};
ghost use Rattle.amr_labels.specs.Labels.{text_cmp};

use crate::listing::Listing;
use crate::shared::Shared;
use crate::text::Text;
use std::alloc::{AllocError, Global};
use std::marker::Model;

/// Up to how many names are compared one by one. Equality of names mostly asks only for lengths, so
/// this is faster than a search that halves.
const FEW_NAMES: usize = 16;

/// Names of labels. Contracts see them in the order in which they were given. Clones share them.
#[derive(Drop)]
pub struct Names {
    given: Shared<Listing<Text>>,
    sorted: Shared<Listing<Text>>,
}

impl Model for Names {
    ghost use Rattle.std.specs.Prelude.{List, ℕ, IsSorted, IsPermutation};
    ghost use Rattle.std.specs.Coded.{coded_ℕ, coded_list};
    ghost use Rattle.amr_labels.specs.Labels.{text_cmp};

    ghost Value = { List (List ℕ) };

    ghost view = { λ names. names.given };

    ghost invariant = { λ names. IsSorted text_cmp names.sorted × IsPermutation names.given names.sorted };
}

impl Names {
    /// Returns whether a name is one of these.
    pub fn contains(&self, name: &Text) -> bool
        ensures { result ≡ list_any (eq_by_cmp text_cmp name.now) self.now }
    {
        if self.given.get().len() <= FEW_NAMES {
            is_among(name, self.as_slice())
        } else {
            is_found(name, self.sorted.get().as_slice())
        }
    }

    /// Returns these names.
    pub fn new(alloc: Global, names: Listing<Text>) -> Result<Names, AllocError>
        ensures { IfOk result (λ made. made ≡ names) }
    {
        let mut sorted = copies(alloc, names.as_slice())?;
        sorted.sort()?;
        Ok(Names {
            given: Shared::new(alloc, names)?,
            sorted: Shared::new(alloc, Listing::from_vec(sorted))?,
        })
    }

    /// Returns the names, in the order in which they were given.
    pub fn as_slice(&self) -> &[Text]
        ensures { result.now ≡ self.now }
    {
        self.given.get().as_slice()
    }
}

impl Clone for Names {
    ghost is_clone = { λ a b. b ≡ a };

    fn clone(&self) -> Result<Names, AllocError> {
        Ok(Names {
            given: self.given.clone()?,
            sorted: self.sorted.clone()?,
        })
    }
}

/// Clones names.
fn copies(alloc: Global, names: &[Text]) -> Result<Vec<Text>, AllocError>
    ensures { IfOk result (λ copies. copies.items ≡ names.now) }
{
    let mut copies = Vec::with_capacity(alloc, names.len())?;
    for name in names {
        copies.push(name.clone()?)?;
    }
    Ok(copies)
}

/// Returns whether a name is one of the names. It compares one after the other.
fn is_among(name: &Text, names: &[Text]) -> bool
    ensures { result ≡ list_any (eq_by_cmp text_cmp name.now) names.now }
{
    names.iter().any(|other| name == other)
}

/// Searches for a name, given names in ascending order, and returns whether it is one of them.
fn is_found(name: &Text, names: &[Text]) -> bool
    requires { IsSorted text_cmp names.now }
    ensures { result ≡ list_any (eq_by_cmp text_cmp name.now) names.now }
{
    match names.binary_search(name) {
        Ok(_) => true,
        Err(_) => false,
    }
}
