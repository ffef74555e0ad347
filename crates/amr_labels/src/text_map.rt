//! A map from names to texts, sorted by name. Annotations are one; `Labels` is one with the rules
//! of label sets.
ghost use Rattle.std.specs.Prelude.{◌≡◌, ◌==◌, ℕ, List, T, not, length, reverse, IfOk};
ghost use Rattle.std.specs.List.{filter, list_all, list_any};
ghost use Rattle.std.specs.Ordering.{eq_by_cmp, is_lt};
ghost use Rattle.std.specs.Option.{option_copied};
ghost use Rattle.std.specs.Str.{bytes_eq};
ghost use Rattle.std.specs.BTreeMap.{IsOrdered};
ghost use Rattle.std.specs.FinMap.{find, is_sorted};
ghost use Rattle.amr_labels.specs.Map as map;
ghost use Rattle.amr_labels.specs.Labels.{text_cmp, value_of, is_empty};

use crate::exact::Exact;
use crate::names::Names;
use crate::text::Text;
use std::alloc::{AllocError, Global};
use std::cmp::Ordering;
use std::collections::BTreeMap;
use std::marker::Model;
use std::rc::Rc;

/// Texts under names, in the order of the names. Clones share the texts.
#[derive(Drop)]
pub struct TextMap {
    pairs: Rc<Vec<(Text, Text)>>,
}

impl Model for TextMap {
    ghost use Rattle.std.specs.Prelude.{List, ℕ, T};
    ghost use Rattle.std.specs.Coded.{coded_ℕ, coded_list};
    ghost use Rattle.std.specs.FinMap.{is_sorted};
    ghost use Rattle.amr_labels.specs.Map as map;
    ghost use Rattle.amr_labels.specs.Labels.{text_cmp};

    ghost Value = { map.Map text_cmp (List ℕ) };

    ghost coded = { map.code (coded_list coded_ℕ) (coded_list coded_ℕ) };

    ghost view = { λ texts. map.from_sorted texts.pairs.value.items };

    ghost invariant = { λ texts. T (is_sorted text_cmp texts.pairs.value.items) };
}

/// Returns whether the names strictly ascend, as those of a JSON object do.
fn ascend(pairs: &[(Text, Text)]) -> bool
    ensures { result ≡ is_sorted text_cmp pairs.now }
{
    let is_before = |former: &(Text, Text), latter: &(Text, Text)| -> bool
        ensures { result ≡ is_lt (text_cmp former.now.0 latter.now.0) }
    { former.0.cmp(&latter.0).is_lt() };
    pairs.is_sorted_by(is_before)
}

/// Clones pairs.
fn copies(alloc: Global, pairs: &[(Text, Text)]) -> Result<Vec<(Text, Text)>, AllocError>
    ensures { IfOk result (λ copies. copies.items ≡ pairs.now) }
{
    let mut copies = Vec::with_capacity(alloc, pairs.len())?;
    for pair in pairs {
        copies.push(copied(pair)?)?;
    }
    Ok(copies)
}

/// Returns the tree of the pairs. If a name is repeated, the last text counts.
#[tactic(auto, using(crate::proofs::Trees::empty_of_tree))]
fn tree_of(alloc: Global, pairs: &[(Text, Text)]) -> Result<BTreeMap<Text, Text>, AllocError>
    ensures ordered { IfOk result (λ tree. IsOrdered text_cmp tree) }
    ensures made { IfOk result (λ tree. map.from_sorted {R = text_cmp} tree.entries
        ≡ map.from_entries (reverse pairs.now)) }
{
    let mut tree = BTreeMap::new(alloc);
    for pair in pairs {
        tree.insert(pair.0.clone()?, pair.1.clone()?)?;
    }
    Ok(tree)
}

/// Returns the pairs of a tree, in order.
fn pairs_of(alloc: Global, tree: BTreeMap<Text, Text>) -> Result<Vec<(Text, Text)>, AllocError>
    ensures { IfOk result (λ pairs. pairs.items ≡ tree.entries) }
{
    tree.into_iter().collect(alloc)
}

/// Clones a pair.
fn copied(pair: &(Text, Text)) -> Result<(Text, Text), AllocError>
    ensures { IfOk result (λ copy. copy ≡ pair.now) }
{
    Ok((pair.0.clone()?, pair.1.clone()?))
}

/// Returns whether no text is empty.
fn are_filled(pairs: &[(Text, Text)]) -> bool
    ensures { result ≡ list_all (λ pair. not (is_empty pair.1)) pairs.now }
{
    pairs.iter().all(|pair| !pair.1.is_empty())
}

/// Returns the pairs whose texts aren't empty.
fn filled(alloc: Global, pairs: &[(Text, Text)]) -> Result<Vec<(Text, Text)>, AllocError>
    ensures { IfOk result (λ kept. kept.items ≡ filter (λ pair. not (is_empty pair.1)) pairs.now) }
{
    let mut kept = Vec::new(alloc);
    for pair in pairs {
        if !pair.1.is_empty() {
            kept.push(copied(pair)?)?;
        }
    }
    Ok(kept)
}

/// Returns the pairs whose names are among the names.
fn named(
    alloc: Global,
    pairs: &[(Text, Text)],
    names: &Names,
) -> Result<Vec<(Text, Text)>, AllocError>
    ensures { IfOk result (λ kept. kept.items
        ≡ filter (λ pair. list_any (eq_by_cmp text_cmp pair.0) names.now) pairs.now) }
{
    let mut kept = Vec::new(alloc);
    for pair in pairs {
        if names.contains(&pair.0) {
            kept.push(copied(pair)?)?;
        }
    }
    Ok(kept)
}

/// Up to how many pairs are compared one by one. Equality of names mostly asks only for lengths, so
/// this is faster than a search that halves.
const FEW: usize = 16;

/// Returns the text under a name, given pairs in strictly ascending order of names.
fn text_under<'a>(pairs: &'a [(Text, Text)], name: &str) -> Option<&'a Text>
    requires { T (is_sorted text_cmp pairs.now) }
    ensures { option_copied result ≡ find text_cmp name.now pairs.now }
{
    if pairs.len() <= FEW {
        first_under(pairs, name)
    } else {
        searched(pairs, name)
    }
}

/// Returns the text under a name. It compares one name after the other.
#[tactic(auto, using(crate::proofs::Firsts::found_from))]
fn first_under<'a>(pairs: &'a [(Text, Text)], name: &str) -> Option<&'a Text>
    ensures { option_copied result ≡ find text_cmp name.now pairs.now }
{
    for pair in pairs {
        if is_named(&pair.0, name) {
            return Some(&pair.1);
        }
    }
    None
}

/// Returns whether two names are equal. Names of different lengths aren't compared any further,
/// which is so for most labels of a label set.
fn is_named(own: &Text, name: &str) -> bool
    ensures { result ≡ bytes_eq own.now name.now }
{
    own.as_str().len() == name.len() && own.as_str() == name
}

/// Searches for the text under a name, given pairs in strictly ascending order of names.
fn searched<'a>(pairs: &'a [(Text, Text)], name: &str) -> Option<&'a Text>
    requires { T (is_sorted text_cmp pairs.now) }
    ensures { option_copied result ≡ find text_cmp name.now pairs.now }
{
    let by_name = |pair: &(Text, Text)| -> Ordering
        ensures { result ≡ text_cmp pair.now.0 name.entry.now }
    { pair.0.as_str().cmp(name) };
    match pairs.binary_search_by(by_name) {
        Ok(at) => Some(&pairs[at].1),
        Err(_) => None,
    }
}

impl TextMap {
    /// Returns an empty map.
    #[tactic(auto, using(crate::proofs::Trees::empty_of_entries))]
    pub fn empty(alloc: Global) -> Result<TextMap, AllocError>
        ensures { IfOk result (λ texts. texts ≡ map.empty) }
    {
        TextMap::of_sorted(alloc, Vec::new(alloc))
    }

    /// Returns the map of pairs in strictly ascending order of names.
    fn of_sorted(alloc: Global, pairs: Vec<(Text, Text)>) -> Result<TextMap, AllocError>
        requires { T (is_sorted text_cmp pairs.items) }
        ensures { IfOk result (λ texts. texts ≡ map.from_sorted pairs.items) }
    {
        Ok(TextMap {
            pairs: Rc::new(alloc, pairs)?,
        })
    }

    /// Returns the map of names and texts. If a name is repeated, the last text counts. Pairs in
    /// ascending order of names are only cloned, and no tree is built.
    #[tactic(auto, using(crate::proofs::Trees::sorted_entries))]
    pub fn from_pairs(alloc: Global, pairs: &[(Text, Text)]) -> Result<TextMap, AllocError>
        ensures { IfOk result (λ texts. texts ≡ map.from_entries (reverse pairs.now)) }
    {
        if ascend(pairs) {
            let copies = copies(alloc, pairs)?;
            return TextMap::of_sorted(alloc, copies);
        }
        let tree = tree_of(alloc, pairs)?;
        let sorted = pairs_of(alloc, tree)?;
        TextMap::of_sorted(alloc, sorted)
    }

    /// Returns the names and texts, in the order of the names.
    pub fn entries(&self) -> &[(Text, Text)]
        ensures { result.now ≡ map.entries self.now }
    {
        self.pairs.as_slice()
    }

    /// Returns the text under a name.
    pub fn get(&self, name: &str) -> Option<&Text>
        ensures { option_copied result ≡ map.get self.now name.now }
    {
        text_under(self.entries(), name)
    }

    /// Returns the text under a name, or the empty text.
    pub fn text_of(&self, name: &str) -> &str
        ensures { result.now ≡ value_of self.now name.now }
    {
        match self.get(name) {
            Some(text) => text.as_str(),
            None => "",
        }
    }

    /// Returns the map without its empty texts. It shares the texts if none is empty.
    pub fn without_empty_texts(&self, alloc: Global) -> Result<TextMap, AllocError>
        ensures { IfOk result (λ kept. kept
            ≡ map.retain_keys self.now (λ name. not (is_empty (value_of self.now name)))) }
    {
        if are_filled(self.entries()) {
            return Ok(self.clone()?);
        }
        let kept = filled(alloc, self.entries())?;
        TextMap::of_sorted(alloc, kept)
    }

    /// Returns the texts under these names.
    pub fn kept_by_names(&self, alloc: Global, names: &Names) -> Result<TextMap, AllocError>
        ensures { IfOk result (λ kept. kept
            ≡ map.retain_keys self.now (λ name. list_any (eq_by_cmp text_cmp name) names.now)) }
    {
        let kept = named(alloc, self.entries(), names)?;
        TextMap::of_sorted(alloc, kept)
    }

    /// Returns the number of names.
    pub fn len(&self) -> usize
        ensures { result ≡ map.len self.now }
    {
        self.entries().len()
    }

    /// Returns whether there is no name.
    pub fn is_empty(&self) -> bool
        ensures { result ≡ (map.len self.now == 0) }
    {
        self.entries().is_empty()
    }
}

impl Clone for TextMap {
    ghost is_clone = { λ a b. b ≡ a };

    fn clone(&self) -> Result<TextMap, AllocError> {
        Ok(TextMap {
            pairs: self.pairs.clone()?,
        })
    }
}

impl Exact for TextMap {
    ghost exact = { λ x y same. same };
}
