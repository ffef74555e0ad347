//! Lists of matchers, shared by their clones, since routes and silences are cloned often.
ghost use Rattle.std.specs.Prelude.{◌≡◌, ◌==◌, [], length, map, IfOk};
ghost use Rattle.amr_labels.specs.Matcher.Candidates.{matches_each};
ghost use Rattle.amr_labels.specs.Matcher.Matchers.{all_hold};
ghost use Rattle.amr_labels.specs.Matcher.ValueBits.{value_bits};

use crate::matcher::candidates::match_each;
use crate::matcher::match_cache::MatchCache;
use crate::matcher::matcher::Matcher;
use crate::{Exact, Labels, Listing, Shared};
use std::alloc::{AllocError, Global};
use std::marker::Model;

/// A list of matchers. Contracts see the list. Clones share it.
#[derive(PartialEq, Eq, PartialOrd, Ord, Drop)]
pub struct Matchers {
    shared: Shared<Listing<Matcher>>,
}

impl Model for Matchers {
    ghost use Rattle.std.specs.Prelude.{List};
    ghost use Rattle.amr_labels.specs.Matcher.Matchers as matchers;

    ghost Value = { List matchers.Matcher };

    ghost view = { λ a. a.shared };

    ghost inverse = { λ list. record { shared = list } };
}

impl Matchers {
    /// Returns an empty list.
    pub fn none(alloc: Global) -> Result<Matchers, AllocError>
        ensures { IfOk result (λ matchers. matchers ≡ []) }
    {
        Matchers::from_vec(alloc, Vec::new(alloc))
    }

    /// Returns the list of these matchers.
    pub fn from_vec(alloc: Global, matchers: Vec<Matcher>) -> Result<Matchers, AllocError>
        ensures { IfOk result (λ made. made ≡ matchers.items) }
    {
        Ok(Matchers {
            shared: Shared::new(alloc, Listing::from_vec(matchers))?,
        })
    }

    /// Returns the matchers as a slice.
    pub fn as_slice(&self) -> &[Matcher]
        ensures { result.now ≡ self.now }
    {
        self.shared.get().as_slice()
    }

    /// Returns the number of matchers.
    pub fn len(&self) -> usize
        ensures { result ≡ length self.now }
    {
        self.shared.get().len()
    }

    /// Returns whether there is no matcher.
    pub fn is_empty(&self) -> bool
        ensures { result ≡ (length self.now == 0) }
    {
        self.shared.get().is_empty()
    }

    /// Returns whether all matchers match the labels. An empty list always does. It asks their
    /// patterns through the cache.
    pub fn matches_all(&self, answers: &mut MatchCache, labels: &Labels) -> Result<bool, AllocError>
        ensures { IfOk result (λ hold. hold ≡ all_hold self.now labels.now) }
    {
        for matcher in self.as_slice() {
            if !matcher.holds(answers, labels)? {
                return Ok(false);
            }
        }
        Ok(true)
    }

    /// Returns for each label set whether all matchers match it. The caller gives the bits of each
    /// (`bits_of`), which are made once for many lists of matchers.
    pub fn match_each(
        &self,
        alloc: Global,
        label_sets: &[Labels],
        bits: &[u64],
    ) -> Result<Vec<bool>, AllocError>
        requires { bits.now ≡ map value_bits label_sets.now }
        ensures { IfOk result (λ found. found.items ≡ matches_each self.now label_sets.now) }
    {
        match_each(alloc, self.as_slice(), label_sets, bits)
    }
}

impl Clone for Matchers {
    ghost is_clone = { λ a b. b ≡ a };

    fn clone(&self) -> Result<Matchers, AllocError> {
        Ok(Matchers {
            shared: self.shared.clone()?,
        })
    }
}

impl Exact for Matchers {
    ghost exact = { λ x y same. same };
}
