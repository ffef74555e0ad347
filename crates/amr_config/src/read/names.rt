//! Lists of names that may be long: whether the names differ, and which texts are among them. Both
//! are asked of ordered sets, so the time grows little faster than the list.
ghost use Rattle.std.specs.Prelude.{◌≡◌, IfOk};
ghost use Rattle.amr_config.specs.Read.Shape.{are_different};
ghost use Rattle.amr_config.specs.Read.NameSets.{IsSetOf};

use amr_labels::Text;
use std::alloc::{AllocError, Global};
use std::collections::BTreeSet;

/// Returns whether all names differ.
#[tactic(auto, using(crate::proofs::ReadLemmas::NameSets::repeated, crate::proofs::ReadLemmas::NameSets::still_apart, crate::proofs::ReadLemmas::NameSets::one_before))]
pub(crate) fn are_apart(alloc: Global, names: &[Text]) -> Result<bool, AllocError>
    ensures { IfOk result (λ apart. apart ≡ are_different names.now) }
{
    let mut built = BTreeSet::new(alloc);
    for index in (0..names.len()).rev() {
        if !built.insert(names[index].clone()?)? {
            return Ok(false);
        }
    }
    Ok(true)
}

/// Returns the set of the names.
#[tactic(auto, using(crate::proofs::ReadLemmas::NameSets::one_after))]
pub(crate) fn set_of(alloc: Global, names: &[Text]) -> Result<BTreeSet<Text>, AllocError>
    ensures { IfOk result (λ set. IsSetOf names.now set) }
{
    let mut set = BTreeSet::new(alloc);
    for name in names {
        set.insert(name.clone()?)?;
    }
    Ok(set)
}
