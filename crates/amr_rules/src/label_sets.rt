//! Sets of label sets, as the entries of the notification log have them. A set of many sources, to
//! which label sets are added in any order, is a `LabelMap` of `amr_labels`.
ghost use Rattle.std.specs.Prelude.{◌≡◌, ◌==◌, OnOk, OnErr};
ghost use Rattle.amr_labels.specs.Map as map;
ghost use Rattle.amr_labels.specs.Set as set;

use amr_labels::Labels;
use std::alloc::{AllocError, Global};
use std::marker::Model;

/// A set of label sets, in order. Most have one or a few, and a list of these takes less memory and
/// time than a tree.
#[derive(Drop)]
pub struct LabelSets {
    sorted: Vec<Labels>,
}

impl Model for LabelSets {
    ghost use Rattle.std.specs.Prelude.{T};
    ghost use Rattle.std.specs.Coded.{coded_ℕ, coded_list};
    ghost use base.Stored.{coded_unit};
    ghost use Rattle.std.specs.FinMap.{is_sorted};
    ghost use Rattle.amr_labels.specs.Map as map;
    ghost use Rattle.amr_labels.specs.Set.{Set};
    ghost use Rattle.amr_labels.specs.Labels.{label_set_cmp};
    ghost use Rattle.amr_rules.specs.LabelSets.{as_entries};

    ghost Value = { Set label_set_cmp };

    ghost coded = { map.code (map.code (coded_list coded_ℕ) (coded_list coded_ℕ)) coded_unit };

    ghost view = { λ sets. map.from_sorted (as_entries sets.sorted.items) };

    ghost invariant = { λ sets. T (is_sorted label_set_cmp (as_entries sets.sorted.items)) };
}

impl LabelSets {
    /// Returns an empty set.
    pub fn new(alloc: Global) -> LabelSets
        ensures { result ≡ map.empty }
    {
        LabelSets {
            sorted: Vec::new(alloc),
        }
    }

    /// Adds a label set. One that comes after all others is only appended.
    pub fn insert(&mut self, labels: Labels) -> Result<(), AllocError>
        ensures ok { OnOk result (self.new ≡ map.insert self.old labels tt) }
        ensures err { OnErr result (self.new ≡ self.old) }
    {
        if let Err(at) = self.sorted.binary_search(&labels) {
            self.sorted.insert(at, labels)?;
        }
        Ok(())
    }

    /// Returns whether a label set is in the set.
    pub fn contains(&self, labels: &Labels) -> bool
        ensures { result ≡ set.contains self.now labels.now }
    {
        self.sorted.binary_search(labels).is_ok()
    }

    /// Returns the label sets, in order.
    pub fn as_slice(&self) -> &[Labels]
        ensures { result.now ≡ set.items self.now }
    {
        self.sorted.as_slice()
    }

    /// Returns the number of label sets.
    pub fn len(&self) -> usize
        ensures { result ≡ map.len self.now }
    {
        self.as_slice().len()
    }

    /// Returns whether the set is empty.
    pub fn is_empty(&self) -> bool
        ensures { result ≡ (map.len self.now == 0) }
    {
        self.len() == 0
    }
}
