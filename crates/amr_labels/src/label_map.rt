//! A map from label sets to values, such as the sources of an inhibition rule. The tables of the
//! state are no such maps, but each a `Keyed` of `amr_tables`.
ghost use Rattle.std.specs.Prelude.{◌≡◌, List, ℕ, OnOk, OnErr};
ghost use Rattle.std.specs.Option.{option_copied};
ghost use Rattle.amr_labels.specs.Map as map;

use crate::labels::Labels;
use std::alloc::{AllocError, Global};
use std::collections::BTreeMap;
use std::collections::btree_map::Iter;
use std::marker::Model;

/// Values under label sets, in the order of the label sets.
#[derive(Drop)]
pub struct LabelMap<V> {
    tree: BTreeMap<Labels, V>,
}

impl<V> Model for LabelMap<V> {
    ghost use Rattle.std.specs.Prelude.{List, ℕ};
    ghost use Rattle.std.specs.Coded.{coded_ℕ, coded_list};
    ghost use Rattle.std.specs.BTreeMap.{IsOrdered};
    ghost use Rattle.amr_labels.specs.Map as map;
    ghost use Rattle.amr_labels.specs.Labels.{label_set_cmp};

    ghost Value = { map.Map label_set_cmp V };

    ghost coded = { map.code (map.code (coded_list coded_ℕ) (coded_list coded_ℕ)) V.code };

    ghost view = { λ values. map.from_sorted values.tree.entries };

    ghost invariant = { λ values. IsOrdered label_set_cmp values.tree };
}

impl<V: Drop> LabelMap<V> {
    /// Returns an empty map.
    #[tactic(auto, using(crate::proofs::Trees::empty_of_tree))]
    pub fn new(alloc: Global) -> LabelMap<V>
        ensures { result ≡ map.empty }
    {
        LabelMap {
            tree: BTreeMap::new(alloc),
        }
    }

    /// Returns the value under a label set.
    #[tactic(auto, using(crate::proofs::Trees::get_of_tree))]
    pub fn get(&self, labels: &Labels) -> Option<&V>
        ensures { option_copied result ≡ map.get self.now labels.now }
    {
        self.tree.get(labels)
    }

    /// Puts a value under a label set, and drops the value that was there.
    pub fn insert(&mut self, labels: Labels, value: V) -> Result<(), AllocError>
        ensures ok { OnOk result (self.new ≡ map.insert self.old labels value) }
        ensures err { OnErr result (self.new ≡ self.old) }
    {
        self.tree.insert(labels, value)?;
        Ok(())
    }

    /// Returns an iterator over the label sets and their values, in the order of the label sets.
    #[tactic(auto, using(crate::proofs::Trees::entries_of_tree))]
    pub fn iter(&self) -> Iter<'_, Labels, V>
        ensures { result ≡ map.entries self.now }
    {
        self.tree.iter()
    }
}
