//! A text whose clones share its bytes. Labels are cloned often, into groups, the log and
//! notifications.
ghost use Rattle.std.specs.Prelude.{◌≡◌, ◌≢◌, true, false, IfOk};
ghost use Rattle.std.proofs.Common.{rules};
ghost use Rattle.std.specs.Cmp.{partial_order_from_own_ties};
ghost use Rattle.std.specs.Cmp.Rules.{comparing};
ghost use Rattle.std.specs.Ordering.{as_partial_cmp, nat_cmp, eq_by_cmp};
ghost use Rattle.std.specs.Cmp.Lexicographic.{slice_cmp};
ghost use Rattle.amr_labels.specs.Labels.{is_empty};
ghost use Rattle.amr_labels.specs.Hashes.{text_fnv_hash};
ghost use Rattle.amr_labels.specs.Lent.{lent_texts};

use crate::exact::Exact;
use std::alloc::{AllocError, Global};
use std::cmp::Ordering;
use std::fmt;
use std::hash::{Hash, Hasher};
use std::marker::Model;
use std::rc::RcStr;

/// A text. Contracts see its UTF-8 bytes. Clones share the bytes.
#[derive(Drop)]
pub struct Text {
    shared: RcStr,
}

impl Model for Text {
    ghost use Rattle.std.specs.Prelude.{List, ℕ};
    ghost use Rattle.std.specs.Rc.{rc_str_bytes};

    ghost Value = { List ℕ };

    ghost view = { λ text. rc_str_bytes text.shared };
}

impl Text {
    /// Copies a text.
    pub fn from_str(alloc: Global, text: &str) -> Result<Text, AllocError>
        ensures { IfOk result (λ copy. copy ≡ text.now) }
    {
        Ok(Text {
            shared: RcStr::from_str(alloc, text)?,
        })
    }

    /// Returns the text as a `&str`.
    pub fn as_str(&self) -> &str
        ensures { result.now ≡ self.now }
    {
        self.shared.as_str()
    }

    /// Returns whether the text is empty.
    pub fn is_empty(&self) -> bool
        ensures { result ≡ is_empty self.now }
    {
        self.as_str().is_empty()
    }
}

impl Clone for Text {
    ghost is_clone = { λ a b. b ≡ a };

    fn clone(&self) -> Result<Text, AllocError> {
        Ok(Text {
            shared: self.shared.clone()?,
        })
    }
}

impl Exact for Text {
    ghost exact = { λ x y same. same };
}

impl PartialEq for Text {
    ghost eq = { eq_by_cmp (slice_cmp nat_cmp) };

    ghost laws = { Prim.search (comparing, rules) };

    #[tactic(auto, using(crate::proofs::Firsts::same_texts))]
    fn eq(&self, other: &Text) -> bool {
        self.as_str() == other.as_str()
    }
}

impl Eq for Text {
    ghost laws = { Prim.search (comparing, rules) };
}

impl Ord for Text {
    ghost cmp = { slice_cmp nat_cmp };

    ghost total = { Prim.search (comparing, rules) };

    ghost matches_partial_cmp = { Prim.search (comparing, rules) };

    ghost matches_eq = { Prim.search (comparing, rules) };

    fn cmp(&self, other: &Text) -> Ordering {
        self.as_str().cmp(other.as_str())
    }
}

impl PartialOrd for Text {
    ghost partial_cmp = { as_partial_cmp (slice_cmp nat_cmp) };

    ghost laws = { partial_order_from_own_ties (Prim.search (comparing, rules)) (Prim.search (comparing, rules)) };

    fn partial_cmp(&self, other: &Text) -> Option<Ordering> {
        Some(self.cmp(other))
    }
}

impl Hash for Text {
    ghost use Rattle.std.specs.Hash as fed;
    ghost use Rattle.std.proofs.Common.{ap};
    ghost use Rattle.std.proofs.lemmas.Map.Views.{tells_apart};
    ghost use Rattle.amr_labels.specs.Labels.{text_cmp-IsAntisymmetric};

    ghost hash_input = { fed.str };

    ghost respects_eq = { λ x y h. ap fed.str (tells_apart text_cmp-IsAntisymmetric x y h) };

    fn hash<H: Hasher>(&self, state: &mut H) {
        self.as_str().hash(state);
    }
}

impl fmt::Debug for Text {
    fn fmt<W: fmt::Write>(&self, f: &mut fmt::Formatter<W>) -> fmt::Result {
        fmt::Debug::fmt(&self.as_str(), f)
    }
}

/// Returns whether these are the same names and texts, in the same order.
pub fn are_stated(pairs: &[(Text, Text)], stated: &[(&str, &str)]) -> bool
    ensures equal { result ≡ true → pairs.now ≡ lent_texts stated.now }
    ensures other { result ≡ false → pairs.now ≢ lent_texts stated.now }
{
    if pairs.len() != stated.len() {
        return false;
    }
    for (index, pair) in pairs.iter().enumerate() {
        let (name, text) = stated[index];
        if !is_stated(pair, name, text) {
            return false;
        }
    }
    true
}

/// Returns whether this is the same name and text.
fn is_stated(pair: &(Text, Text), name: &str, text: &str) -> bool
    ensures equal { result ≡ true → pair.now ≡ (name.now, text.now) }
    ensures other { result ≡ false → pair.now ≢ (name.now, text.now) }
{
    pair.0.as_str() == name && pair.1.as_str() == text
}

/// Returns FNV-1a, the hash of Fowler, Noll and Vo, of the bytes of a text.
#[tactic(auto, unfolding(crate::specs::Hashes::text_fnv_hash))]
pub fn fnv_hash(text: &str) -> usize
    ensures { result ≡ text_fnv_hash text.now }
{
    let mut hash_value: usize = 0xcbf2_9ce4_8422_2325;
    for byte in text.as_bytes() {
        hash_value = (hash_value ^ usize::from(*byte)).wrapping_mul(0x100_0000_01b3);
    }
    hash_value
}
