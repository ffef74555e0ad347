//! Label sets, by which alerts, groups and sources of inhibition are identified.
ghost use Rattle.std.specs.Prelude.{◌≡◌, ◌≢◌, ◌==◌, true, false, List, ℕ, IfOk, IfSome};
ghost use Rattle.std.proofs.Common.{rules};
ghost use Rattle.std.specs.Cmp.{partial_order_from_own_ties};
ghost use Rattle.std.specs.Cmp.Rules.{comparing};
ghost use Rattle.std.specs.List.{list_any};
ghost use Rattle.std.specs.Option.{option_copied};
ghost use Rattle.std.specs.Ordering.{as_partial_cmp, eq_by_cmp};
ghost use Rattle.amr_labels.specs.Map as map;
ghost use Rattle.amr_labels.specs.Labels.{text_cmp, value_of, label_set_cmp, label_set_cmp_total, labels_of_pairs, IsLabelSet};
ghost use Rattle.amr_labels.specs.Hashes.{label_set_hash};
ghost use Rattle.amr_labels.specs.ObjectText.{plain_object};
ghost use Rattle.amr_labels.specs.Lent.{lent_texts};

use crate::exact::Exact;
use crate::keyed_texts::KeyedTexts;
use crate::names::Names;
use crate::shared::Shared;
use crate::text::Text;
use crate::text_map::TextMap;
use std::alloc::{AllocError, Global};
use std::cmp::Ordering;
use std::hash::{Hash, Hasher};
use std::marker::Model;

/// A label set: values under the names of labels (`LabelSet` of Alertmanager's API v2). An absent
/// label counts as empty. Clones share the texts.
#[derive(Drop)]
pub struct Labels {
    shared: Shared<KeyedTexts>,
}

impl Model for Labels {
    ghost use Rattle.std.specs.Prelude.{List, ℕ};
    ghost use Rattle.std.specs.Coded.{coded_ℕ, coded_list};
    ghost use Rattle.amr_labels.specs.Map as map;
    ghost use Rattle.amr_labels.specs.Labels.{text_cmp};

    ghost Value = { map.Map text_cmp (List ℕ) };

    ghost coded = { map.code (coded_list coded_ℕ) (coded_list coded_ℕ) };

    ghost view = { λ labels. labels.shared };
}

impl Labels {
    /// Returns the label set without labels.
    pub fn empty(alloc: Global) -> Result<Labels, AllocError>
        ensures { IfOk result (λ labels. labels ≡ map.empty) }
    {
        Labels::of_texts(alloc, TextMap::empty(alloc)?)
    }

    /// Returns the label set of names and values. If a name is repeated, the last value counts;
    /// then labels with an empty value are dropped. Returns `None` if a name that is left is empty.
    pub fn of_pairs(alloc: Global, pairs: &[(Text, Text)]) -> Result<Option<Labels>, AllocError>
        ensures made { IfOk result (λ found. found ≡ labels_of_pairs pairs.now) }
        ensures proper { IfOk result (λ found. IfSome found IsLabelSet) }
    {
        let last = TextMap::from_pairs(alloc, pairs)?;
        let texts = last.without_empty_texts(alloc)?;
        if texts.get("").is_some() {
            return Ok(None);
        }
        Ok(Some(Labels::of_texts(alloc, texts)?))
    }

    /// Returns the label set of these texts.
    fn of_texts(alloc: Global, texts: TextMap) -> Result<Labels, AllocError>
        ensures { IfOk result (λ labels. labels ≡ texts) }
    {
        let keyed = KeyedTexts::new(alloc, texts)?;
        Ok(Labels {
            shared: Shared::new(alloc, keyed)?,
        })
    }

    /// Returns the texts.
    fn texts(&self) -> &TextMap
        ensures { result.now ≡ self.now }
    {
        self.shared.get().texts()
    }

    /// Returns the value of a label, if the set has it.
    pub fn get(&self, name: &str) -> Option<&Text>
        ensures { option_copied result ≡ map.get self.now name.now }
    {
        self.texts().get(name)
    }

    /// Returns the value of a label; an absent label has the empty value.
    pub fn value_of(&self, name: &str) -> &str
        ensures { result.now ≡ value_of self.now name.now }
    {
        self.texts().text_of(name)
    }

    /// Returns the names and values, in the order of the names.
    pub fn entries(&self) -> &[(Text, Text)]
        ensures { result.now ≡ map.entries self.now }
    {
        self.texts().entries()
    }

    /// Returns whether these are the names and values, in the order of the names. It is faster than
    /// comparing them one by one.
    pub fn has_entries(&self, stated: &[(&str, &str)]) -> bool
        ensures equal { result ≡ true → map.entries self.now ≡ lent_texts stated.now }
        ensures other { result ≡ false → map.entries self.now ≢ lent_texts stated.now }
    {
        self.shared.get().has_entries(stated)
    }

    /// Returns the number of labels.
    pub fn len(&self) -> usize
        ensures { result ≡ map.len self.now }
    {
        self.shared.get().len()
    }

    /// Returns whether there is no label.
    pub fn is_empty(&self) -> bool
        ensures { result ≡ (map.len self.now == 0) }
    {
        self.len() == 0
    }

    /// Returns the hash that the label set keeps.
    pub fn hash_value(&self) -> usize
        ensures { result ≡ label_set_hash self.now }
    {
        self.shared.get().hash_value()
    }

    /// Returns the text of the labels as an object, `{"name":"value"}`, in the order of the names.
    /// Returns `None` if a name or a value can't stand between quotes as it is.
    pub fn printed(&self) -> Option<&str>
        ensures { option_copied result ≡ plain_object self.now }
    {
        self.shared.get().printed()
    }

    /// Returns the labels with these names.
    pub fn kept_by_names(&self, alloc: Global, names: &Names) -> Result<Labels, AllocError>
        ensures { IfOk result (λ kept. kept
            ≡ map.retain_keys self.now (λ name. list_any (eq_by_cmp text_cmp name) names.now)) }
    {
        Labels::of_texts(alloc, self.texts().kept_by_names(alloc, names)?)
    }
}

impl Clone for Labels {
    ghost is_clone = { λ a b. b ≡ a };

    fn clone(&self) -> Result<Labels, AllocError> {
        Ok(Labels {
            shared: self.shared.clone()?,
        })
    }
}

impl Exact for Labels {
    ghost exact = { λ x y same. same };
}

impl PartialEq for Labels {
    ghost eq = { eq_by_cmp label_set_cmp };

    ghost laws = { Prim.search (comparing, rules, label_set_cmp_total) };

    fn eq(&self, other: &Labels) -> bool {
        self.shared.get().is_equal(other.shared.get())
    }
}

impl Eq for Labels {
    ghost laws = { Prim.search (comparing, rules, label_set_cmp_total) };
}

impl Ord for Labels {
    ghost cmp = { label_set_cmp };

    ghost total = { label_set_cmp_total };

    ghost matches_partial_cmp = { Prim.search (comparing, rules) };

    ghost matches_eq = { Prim.search (comparing, rules) };

    fn cmp(&self, other: &Labels) -> Ordering {
        self.shared.get().cmp(other.shared.get())
    }
}

impl PartialOrd for Labels {
    ghost partial_cmp = { as_partial_cmp label_set_cmp };

    ghost laws = { partial_order_from_own_ties (Prim.search (comparing, rules, label_set_cmp_total)) (Prim.search (comparing, rules)) };

    fn partial_cmp(&self, other: &Labels) -> Option<Ordering> {
        Some(self.cmp(other))
    }
}

impl Hash for Labels {
    ghost use Rattle.std.specs.Hash as fed;
    ghost use Rattle.std.proofs.Common.{ap};
    ghost use Rattle.std.proofs.lemmas.Map.Views.{tells_apart};
    ghost use Rattle.amr_labels.specs.Labels.{label_set_cmp-IsAntisymmetric};
    ghost use Rattle.amr_labels.specs.Hashes.{label_set_hash};

    ghost hash_input = { λ labels. fed.usize (label_set_hash labels) };

    ghost respects_eq = { λ x y h. ap (λ labels. fed.usize (label_set_hash labels)) (tells_apart label_set_cmp-IsAntisymmetric x y h) };

    fn hash<H: Hasher>(&self, state: &mut H) {
        state.write_usize(self.hash_value());
    }
}
