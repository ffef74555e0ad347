//! The texts of a label set with their sort key, by which label sets are compared, and their text as
//! an object, which is printed. `Labels` shares one of these between its clones.
ghost use Rattle.std.specs.Prelude.{◌≡◌, ◌≢◌, ◌++◌, List, ℕ, get_or, false, true, string_bytes, IfOk, IfSome, IfNone, OnOk};
ghost use Rattle.std.specs.Option.{option_copied};
ghost use Rattle.std.specs.Ordering.{eq_by_cmp};
ghost use Rattle.amr_labels.specs.Labels.{text_cmp, label_set_cmp};
ghost use Rattle.amr_labels.specs.SortKey.{key_of_text, key_of_label, sort_key, has_zero, label_has_zero, has_zeros};
ghost use Rattle.amr_labels.specs.Hashes.{text_sip_hash, label_set_hash};
ghost use Rattle.amr_labels.specs.Head.{text_head, with_head};
ghost use Rattle.amr_labels.specs.ObjectText.{plain_object};
ghost use Rattle.amr_labels.specs.Lent.{lent_texts};
ghost use Rattle.amr_labels.specs.Map as map;

use crate::object_text::object_text;
use crate::text::{Text, are_stated};
use crate::text_map::TextMap;
use std::alloc::{AllocError, Global};
use std::cmp::Ordering;
use std::hash::{DefaultHasher, Hasher};
use std::marker::Model;

/// Texts under names, with their sort key. Contracts see the texts. What a look-up and a comparison
/// read stands first, so that it lies close together.
#[derive(Drop)]
pub(crate) struct KeyedTexts {
    /// A hash of the sort key.
    hash_value: usize,
    /// A number made of the head of the sort key, or 0 if there is none. If two of them differ, the
    /// sort key with the lesser one is the lesser, so many comparisons don't need the keys.
    head: u64,
    /// How many texts there are. It is kept here because the texts are further away.
    count: usize,
    /// All names and values, with a zero byte after each, or `None` if one of them has a zero byte
    /// itself. Most label sets differ only in their last labels, so comparing one text is much
    /// faster than following the texts one by one.
    key: Option<String>,
    texts: TextMap,
    /// All names and values as an object, or `None` if one of them can't stand between quotes as it
    /// is.
    printed: Option<String>,
}

impl Model for KeyedTexts {
    ghost use Rattle.std.specs.Prelude.{◌≡◌, List, ℕ, IfSome, IfNone, true, false, length, string_bytes};
    ghost use Rattle.std.specs.Coded.{coded_ℕ, coded_list};
    ghost use Rattle.amr_labels.specs.Map as map;
    ghost use Rattle.amr_labels.specs.Labels.{text_cmp};
    ghost use Rattle.amr_labels.specs.SortKey.{sort_key, has_zeros};
    ghost use Rattle.amr_labels.specs.Hashes.{label_set_hash};
    ghost use Rattle.amr_labels.specs.Head.{text_head};
    ghost use Rattle.amr_labels.specs.ObjectText.{are_plain, object_text};

    ghost Value = { map.Map text_cmp (List ℕ) };

    ghost coded = { map.code (coded_list coded_ℕ) (coded_list coded_ℕ) };

    ghost view = { λ keyed. keyed.texts };

    ghost invariant = { λ keyed. IfSome keyed.key (λ key.
        (string_bytes key ≡ sort_key (map.entries keyed.texts))
        × (has_zeros (map.entries keyed.texts) ≡ false))
        × (keyed.hash_value ≡ label_set_hash keyed.texts)
        × IfSome keyed.printed (λ text. (string_bytes text ≡ object_text (map.entries keyed.texts))
        × (are_plain (map.entries keyed.texts) ≡ true))
        × IfNone keyed.printed (are_plain (map.entries keyed.texts) ≡ false)
        × IfSome keyed.key (λ key. keyed.head ≡ text_head (string_bytes key))
        × (keyed.count ≡ length (map.entries keyed.texts)) };
}

impl KeyedTexts {
    /// Works out the sort key of the texts, and their text as an object.
    #[tactic(auto, unfolding(crate::specs::Hashes::label_set_hash))]
    pub(crate) fn new(alloc: Global, texts: TextMap) -> Result<KeyedTexts, AllocError>
        ensures { IfOk result (λ keyed. keyed ≡ texts) }
    {
        let joined = joined(alloc, texts.entries())?;
        let hash_value = sip_hash(joined.as_str());
        let key = if has_zeros(texts.entries()) {
            None
        } else {
            Some(joined)
        };
        let head = match &key {
            Some(key) => head_of(key.as_str()),
            None => 0,
        };
        let printed = object_text(alloc, texts.entries())?;
        Ok(KeyedTexts {
            count: texts.len(),
            texts,
            key,
            head,
            hash_value,
            printed,
        })
    }

    /// Returns the number of texts.
    pub(crate) fn len(&self) -> usize
        ensures { result ≡ map.len self.now }
    {
        self.count
    }

    /// Returns a number made of the texts.
    pub(crate) fn hash_value(&self) -> usize
        ensures { result ≡ label_set_hash self.now }
    {
        self.hash_value
    }

    /// Returns the text of the names and values as an object, if they can stand between quotes as
    /// they are.
    pub(crate) fn printed(&self) -> Option<&str>
        ensures { option_copied result ≡ plain_object self.now }
    {
        match &self.printed {
            Some(text) => Some(text.as_str()),
            None => None,
        }
    }

    /// Returns the texts.
    pub(crate) fn texts(&self) -> &TextMap
        ensures { result.now ≡ self.now }
    {
        &self.texts
    }

    /// Returns whether these are the names and values, in their order. It compares them with the sort
    /// key.
    pub(crate) fn has_entries(&self, stated: &[(&str, &str)]) -> bool
        ensures equal { result ≡ true → map.entries self.now ≡ lent_texts stated.now }
        ensures other { result ≡ false → map.entries self.now ≢ lent_texts stated.now }
    {
        match &self.key {
            Some(key) => self.count == stated.len() && is_joined(key.as_str(), stated),
            None => are_stated(self.texts.entries(), stated),
        }
    }

    /// Compares the texts as label sets are compared.
    #[tactic(auto, using(crate::proofs::SortKeys::by_sort_key))]
    pub(crate) fn cmp(&self, other: &KeyedTexts) -> Ordering
        ensures { result ≡ label_set_cmp self.now other.now }
    {
        match (&self.key, &other.key) {
            (Some(key), Some(other_key)) => {
                keys_cmp(self.head, key.as_str(), other.head, other_key.as_str())
            }
            _ => self.texts.entries().cmp(other.texts.entries()),
        }
    }

    /// Returns whether the texts are equal. Equal sort keys have the same bytes.
    #[tactic(auto, using(crate::proofs::SortKeys::by_sort_key, crate::proofs::Firsts::same_texts))]
    pub(crate) fn is_equal(&self, other: &KeyedTexts) -> bool
        ensures { result ≡ eq_by_cmp label_set_cmp self.now other.now }
    {
        match (&self.key, &other.key) {
            (Some(key), Some(other_key)) => key.as_str() == other_key.as_str(),
            _ => self.texts.entries().cmp(other.texts.entries()) == Ordering::Equal,
        }
    }
}

/// Returns the hash of a text, SipHash-1-3 with both keys zero. Nobody knows how to write many texts
/// with one hash but by trying.
#[tactic(auto, unfolding(crate::specs::Hashes::text_sip_hash))]
fn sip_hash(text: &str) -> usize
    ensures { result ≡ text_sip_hash text.now }
{
    let mut hasher = DefaultHasher::new();
    hasher.write(text.as_bytes());
    hasher.finish() as usize
}

/// Returns whether a name or a value has a zero byte.
fn has_zeros(labels: &[(Text, Text)]) -> bool
    ensures { result ≡ has_zeros labels.now }
{
    labels.iter().any(|label| label_has_zero(label))
}

/// Returns whether the name or the value of a label has a zero byte.
fn label_has_zero(label: &(Text, Text)) -> bool
    ensures { result ≡ label_has_zero label.now }
{
    has_zero(&label.0) || has_zero(&label.1)
}

/// Returns whether a text has a zero byte.
fn has_zero(text: &Text) -> bool
    ensures { result ≡ has_zero text.now }
{
    text.as_str().as_bytes().contains(&0)
}

/// Joins names and values, with a zero byte after each. Most labels take no more than the bytes that
/// are reserved for each.
fn joined(alloc: Global, labels: &[(Text, Text)]) -> Result<String, AllocError>
    ensures { IfOk result (λ key. string_bytes key ≡ sort_key labels.now) }
{
    let mut key = String::with_capacity(alloc, labels.len().saturating_mul(32))?;
    for label in labels {
        push_label(&mut key, label)?;
    }
    Ok(key)
}

/// Appends the key of a name and its value.
fn push_label(key: &mut String, label: &(Text, Text)) -> Result<(), AllocError>
    ensures { OnOk result (string_bytes key.new ≡ string_bytes key.old ++ key_of_label label.now) }
{
    push_text(key, &label.0)?;
    push_text(key, &label.1)
}

/// Appends the key of a text.
fn push_text(key: &mut String, text: &Text) -> Result<(), AllocError>
    ensures { OnOk result (string_bytes key.new ≡ string_bytes key.old ++ key_of_text text.now) }
{
    key.push_str(text.as_str())?;
    key.push('\0')
}

/// Returns whether a key is that of these names and values.
fn is_joined(key: &str, stated: &[(&str, &str)]) -> bool
    ensures equal { result ≡ true → key.now ≡ sort_key (lent_texts stated.now) }
    ensures other { result ≡ false → key.now ≢ sort_key (lent_texts stated.now) }
{
    let mut rest = key.as_bytes();
    for (name, value) in stated {
        match after_label(rest, name, value) {
            Some(after) => rest = after,
            None => return false,
        }
    }
    rest.is_empty()
}

/// Returns what follows the key of a name and its value, if a key begins with it.
#[tactic(auto, using(crate::proofs::KeyTexts::not_both))]
fn after_label<'a>(key: &'a [u8], name: &str, value: &str) -> Option<&'a [u8]>
    ensures rest { IfSome result (λ rest. key.now
        ≡ key_of_label (name.now, value.now) ++ rest.now) }
    ensures none { IfNone result ((rest : List ℕ)
        → key.now ≢ key_of_label (name.now, value.now) ++ rest) }
{
    after_text(after_text(key, name)?, value)
}

/// Returns what follows the key of a text, if a key begins with it.
#[tactic(auto, using(crate::proofs::KeyTexts::after_end, crate::proofs::KeyTexts::not_ended, crate::proofs::KeyTexts::not_begun))]
fn after_text<'a>(key: &'a [u8], text: &str) -> Option<&'a [u8]>
    ensures rest { IfSome result (λ rest. key.now ≡ key_of_text text.now ++ rest.now) }
    ensures none { IfNone result ((rest : List ℕ) → key.now ≢ key_of_text text.now ++ rest) }
{
    let ended = key.strip_prefix(text.as_bytes())?;
    ended.strip_prefix(&[0])
}

/// Compares sort keys, given their heads.
fn keys_cmp(head: u64, key: &str, other_head: u64, other_key: &str) -> Ordering
    requires own { head ≡ text_head key.now }
    requires other { other_head ≡ text_head other_key.now }
    ensures { result ≡ text_cmp key.now other_key.now }
{
    if head == other_head {
        key.cmp(other_key)
    } else {
        head.cmp(&other_head)
    }
}

/// Returns the head of a sort key.
#[tactic(auto, using(crate::proofs::Heads::head_inside, crate::proofs::Heads::head_outside), unfolding(crate::specs::Head::text_head))]
fn head_of(key: &str) -> u64
    ensures { result ≡ text_head key.now }
{
    let usual_name = "alertname\0";
    match key.as_bytes().strip_prefix(usual_name.as_bytes()) {
        Some(rest) => headed(1, rest),
        None if key < usual_name => headed(0, key.as_bytes()),
        None => headed(2, key.as_bytes()),
    }
}

/// Returns the number whose bytes are this one and the first seven of a text, with zeros after its
/// end.
fn headed(first: u8, text: &[u8]) -> u64
    ensures { result ≡ with_head 7 first text.now }
{
    u64::from_be_bytes([
        first,
        byte_at(text, 0),
        byte_at(text, 1),
        byte_at(text, 2),
        byte_at(text, 3),
        byte_at(text, 4),
        byte_at(text, 5),
        byte_at(text, 6),
    ])
}

/// Returns the byte at an index, or 0 if the text ends before it.
fn byte_at(text: &[u8], index: usize) -> u8
    ensures { result ≡ get_or text.now index 0 }
{
    text.get(index).copied().unwrap_or(0)
}
