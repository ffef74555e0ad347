//! The time intervals that were read so far, with a set of their names. A new name is looked up in
//! the set, so the time grows little faster than the number of intervals.
ghost use Rattle.std.specs.Prelude.{◌≡◌, ◌∷◌, [], ◌++◌, IfOk};
ghost use Rattle.amr_config.specs.Read.ReadIntervals.{is_taken as taken_of};
ghost use Rattle.amr_config.specs.Read.DefinedNames.{AreTakenIn};

use crate::stated::NamedInterval;
use amr_labels::{Listing, Text};
use std::alloc::{AllocError, Global};
use std::collections::BTreeSet;

/// Intervals in their order, and their names.
#[derive(Drop)]
pub(crate) struct DefinedIntervals {
    pub(crate) intervals: Listing<NamedInterval>,
    names: BTreeSet<Text>,
    ghost taken: { AreTakenIn intervals names },
}

impl DefinedIntervals {
    /// Collects the names of the intervals.
    pub(crate) fn new(
        alloc: Global,
        intervals: Listing<NamedInterval>,
    ) -> Result<DefinedIntervals, AllocError>
        ensures { IfOk result (λ known. known.intervals ≡ intervals) }
    {
        let names = names_of(alloc, intervals.as_slice())?;
        Ok(DefinedIntervals { intervals, names })
    }

    /// Returns whether an interval has the name.
    pub(crate) fn is_taken(&self, name: &Text) -> bool
        ensures { result ≡ taken_of name.now self.now.intervals }
    {
        self.names.contains(name)
    }

    /// Appends an interval.
    pub(crate) fn with(self, interval: NamedInterval) -> Result<DefinedIntervals, AllocError>
        ensures { IfOk result (λ known. known.intervals ≡ self.intervals ++ interval ∷ []) }
    {
        let DefinedIntervals {
            mut intervals,
            mut names,
        } = self;
        names.insert(interval.name.clone()?)?;
        intervals.push(interval)?;
        Ok(DefinedIntervals { intervals, names })
    }
}

/// Returns the set of the intervals' names.
fn names_of(alloc: Global, intervals: &[NamedInterval]) -> Result<BTreeSet<Text>, AllocError>
    ensures { IfOk result (λ names. AreTakenIn intervals.now names) }
{
    let mut names = BTreeSet::new(alloc);
    for interval in intervals {
        names.insert(interval.name.clone()?)?;
    }
    Ok(names)
}
