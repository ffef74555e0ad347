//! What a type needs to be that of a table's keys.
ghost use Rattle.std.specs.FinMap.{IsAntisymmetric};

use amr_labels::{Exact, Labels};
use std::hash::Hash;

/// A type of keys. Keys that compare equal are the same value.
pub trait Key: Ord + Hash + Exact {
    ghost exact: { IsAntisymmetric Self.Ord.cmp };
}

impl Key for Labels {
    ghost use Rattle.amr_labels.specs.Labels.{label_set_cmp-IsAntisymmetric};

    ghost exact = { label_set_cmp-IsAntisymmetric };
}
