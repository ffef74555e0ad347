//! The texts and the labels of a script that were read before. Names and values of labels are
//! repeated in most lines, and most alerts are posted again, so `Draft` shares them: it
//! holds each text once, and the labels of an alert once, however often they are posted. They are
//! found by comparing them with what a line states, before any text is copied. It also keeps the
//! patterns of silences and reloads, so that each is built once, and the configurations of reloads.
ghost use Rattle.std.specs.Prelude.{◌≡◌, reverse, IfOk};
ghost use Rattle.amr_labels.specs.Map as map;
ghost use Rattle.amr_labels.specs.Lent.{lent_texts};

use crate::buckets::Buckets;
use crate::posts::PostedLabels;
use crate::reload_cache::ReloadCache;
use amr_labels::matcher::Patterns;
use amr_labels::{Text, TextMap, are_stated};
use std::alloc::{AllocError, Global};
use std::hash::{FoldHasher, Hasher};

/// Texts, labels, patterns and configurations that were read before. Looking up a text or labels
/// mostly takes one or two comparisons.
#[derive(Drop)]
pub(crate) struct TextCache {
    /// The texts, by their hashes.
    texts: Buckets<Text>,
    /// The labels, by the hashes of their names and values.
    labels: Buckets<PostedLabels>,
    /// The annotations, by the hashes of their names and values.
    annotations: Buckets<TextMap>,
    /// An empty map, if one was needed. All alerts without annotations share it.
    none: Option<TextMap>,
    patterns: Patterns,
    pub(crate) reloads: ReloadCache,
}

impl TextCache {
    /// Returns a cache of texts, labels, patterns and configurations that holds none.
    pub(crate) fn new(alloc: Global) -> TextCache {
        TextCache {
            texts: Buckets::new(alloc),
            labels: Buckets::new(alloc),
            annotations: Buckets::new(alloc),
            none: None,
            patterns: Patterns::new(alloc),
            reloads: ReloadCache::new(alloc),
        }
    }

    /// Returns the patterns that were built before, with the whole room for those of one more line.
    pub(crate) fn patterns_for_line(&mut self) -> &mut Patterns {
        self.patterns.begin_line();
        &mut self.patterns
    }

    /// Returns the labels of names and texts. They are shared with equal labels that were returned
    /// before.
    pub(crate) fn labels_of(
        &mut self,
        alloc: Global,
        stated: &[(&str, &str)],
    ) -> Result<PostedLabels, AllocError>
        ensures { IfOk result (λ labels. labels ≡ lent_texts stated.now) }
    {
        let hash_value = hash_of_texts(stated);
        match self.labels.get(hash_value) {
            Some(cached) if cached.are(stated) => return Ok(cached.clone()?),
            _ => {}
        }
        let pairs = self.share_pairs(alloc, stated)?;
        let labels = PostedLabels::new(alloc, pairs)?;
        self.labels.insert(hash_value, labels.clone()?)?;
        Ok(labels)
    }

    /// Returns the map of names and texts. It is shared with an equal map that was returned before
    /// for texts in the order of their names.
    #[tactic(auto, using(crate::proofs::Counts::from_own))]
    pub(crate) fn annotations_of(
        &mut self,
        alloc: Global,
        stated: &[(&str, &str)],
    ) -> Result<TextMap, AllocError>
        ensures { IfOk result (λ texts. texts
            ≡ map.from_entries (reverse (lent_texts stated.now))) }
    {
        let hash_value = hash_of_texts(stated);
        match self.annotations.get(hash_value) {
            Some(cached) if are_stated(cached.entries(), stated) => return Ok(cached.clone()?),
            _ => {}
        }
        let pairs = self.share_pairs(alloc, stated)?;
        let annotations = TextMap::from_pairs(alloc, pairs.as_slice())?;
        self.annotations.insert(hash_value, annotations.clone()?)?;
        Ok(annotations)
    }

    /// Returns an empty map, which is shared by all to which it is returned.
    pub(crate) fn no_texts(&mut self, alloc: Global) -> Result<TextMap, AllocError>
        ensures { IfOk result (λ none. none ≡ map.empty) }
    {
        if let Some(none) = &self.none {
            if none.is_empty() {
                return Ok(none.clone()?);
            }
        }
        let none = TextMap::empty(alloc)?;
        self.none = Some(none.clone()?);
        Ok(none)
    }

    /// Returns the names and texts, each shared with an equal text that was returned before.
    fn share_pairs(
        &mut self,
        alloc: Global,
        stated: &[(&str, &str)],
    ) -> Result<Vec<(Text, Text)>, AllocError>
        ensures { IfOk result (λ shared. shared.items ≡ lent_texts stated.now) }
    {
        let mut shared = Vec::with_capacity(alloc, stated.len())?;
        for (name, text) in stated {
            shared.push((self.share(alloc, name)?, self.share(alloc, text)?))?;
        }
        Ok(shared)
    }

    /// Returns the text. It shares its bytes with an equal text that was returned before.
    fn share(&mut self, alloc: Global, text: &str) -> Result<Text, AllocError>
        ensures { IfOk result (λ shared. shared ≡ text.now) }
    {
        let hash_value = hash_of_text(text);
        match self.texts.get(hash_value) {
            Some(cached) if cached.as_str() == text => return Ok(cached.clone()?),
            _ => {}
        }
        let shared = Text::from_str(alloc, text)?;
        self.texts.insert(hash_value, shared.clone()?)?;
        Ok(shared)
    }
}

/// Returns a hash of a text.
pub(crate) fn hash_of_text(text: &str) -> u64 {
    let mut hasher = FoldHasher::default();
    hasher.write(text.as_bytes());
    hasher.finish()
}

/// Returns a hash of names and texts.
fn hash_of_texts(stated: &[(&str, &str)]) -> u64 {
    let mut hasher = FoldHasher::default();
    for (name, text) in stated {
        hasher.write(name.as_bytes());
        hasher.write(text.as_bytes());
    }
    hasher.finish()
}
