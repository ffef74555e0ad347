//! Where each time interval is, by its name. There may be thousands, and a route may name one of them
//! tens of thousands of times; each flush asks for all that its route names.
ghost use Rattle.std.specs.Prelude.{◌≡◌, IfOk};
ghost use Rattle.amr_config.specs.Intervals.{AreIntervals};

use crate::stated::NamedInterval;
use amr_labels::Text;
use std::alloc::{AllocError, Global};
use std::collections::BTreeMap;

/// Returns the index of the first time interval with each name.
#[tactic(auto, using(std::proofs::lemmas::List::drop_more, std::proofs::lemmas::Option::slice_get_read))]
pub(crate) fn interval_indexes(
    alloc: Global,
    intervals: &[NamedInterval],
) -> Result<BTreeMap<Text, usize>, AllocError>
    ensures { IfOk result (λ indexes. AreIntervals intervals.now indexes) }
{
    let mut indexes = BTreeMap::new(alloc);
    for index in (0..intervals.len()).rev() {
        indexes.insert(intervals[index].name.clone()?, index)?;
    }
    Ok(indexes)
}
