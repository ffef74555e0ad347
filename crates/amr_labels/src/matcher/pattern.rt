//! Patterns that have to match a whole value. `regex` builds and runs them; a pattern that it
//! refuses makes no matcher.
ghost use Rattle.std.specs.Prelude.{◌≡◌, ◌≤◌, ◌^◌, length, IfOk, IfErr, IfSome, IfNone, OnOk};
ghost use Rattle.amr_labels.specs.Matcher.Candidates.{kept_where, found_or_not};
ghost use Rattle.amr_labels.specs.Matcher.Patterns.{pattern_matches, MayRefuse};
ghost use Rattle.amr_labels.specs.Matcher.Searches.{IsFoundAs, search_pattern};
ghost use Rattle.amr_labels.specs.Matcher.MatcherRefusals.{RefusedOnlyIf};

use crate::matcher::error::MatcherError;
use crate::matcher::search::{Built, Search};
use crate::{Labels, Text, fnv_hash};
use regex::RegexBuilder;
use std::alloc::{AllocError, Global};
use std::marker::Model;

/// A pattern that was built. Contracts see its text.
#[derive(Drop)]
pub struct Pattern {
    text: Text,
    built: Built,
    /// A hash of the text. Contracts don't see it.
    hash_value: usize,
}

impl Model for Pattern {
    ghost use Rattle.std.specs.Prelude.{List, ℕ};
    ghost use Rattle.amr_labels.specs.Matcher.Searches.{IsFoundAs, built_pattern};

    ghost Value = { List ℕ };

    ghost view = { λ pattern. pattern.text };

    ghost invariant = { λ pattern. IsFoundAs (built_pattern pattern.built) pattern.text };
}

impl Pattern {
    /// Builds the pattern of a text, anchored at both ends as Alertmanager does, or returns `None` if
    /// it would take more than about `most` bytes.
    pub(crate) fn within(
        alloc: Global,
        text: &Text,
        most: usize,
    ) -> Result<Option<Pattern>, MatcherError>
        requires { most ≤ 2 ^ 34 }
        ensures read { IfOk result (λ built. IfSome built (λ pattern. pattern ≡ text.now)) }
        ensures large { IfOk result (λ built. IfNone built (MayRefuse text.now)) }
        ensures refused { IfErr result (RefusedOnlyIf (MayRefuse text.now)) }
    {
        let bare = text.as_str();
        let anchored = format!(in alloc; "^(?:{bare})$")?;
        let builder = RegexBuilder::new(anchored.as_str()).size_limit(most);
        match builder.build(alloc) {
            Ok(regex) => Ok(Some(Pattern {
                text: text.clone()?,
                built: Built::new(alloc, regex, most)?,
                hash_value: fnv_hash(text.as_str()),
            })),
            Err(regex::Error::CompiledTooBig) => Ok(None),
            Err(regex::Error::OutOfMemory) => Err(MatcherError::Memory),
            Err(_) => Err(MatcherError::BadPattern),
        }
    }

    /// Returns the text of the pattern.
    pub fn text(&self) -> &Text
        ensures { result.now ≡ self.now }
    {
        &self.text
    }

    /// Returns a number made of the text.
    pub(crate) fn hash_value(&self) -> usize {
        self.hash_value
    }

    /// Rules out the label sets whose value of the label with this name the pattern doesn't match, or
    /// matches if `negated`. One search serves all of them, because it takes longer to prepare a
    /// search than to run it.
    pub(crate) fn keep(
        &self,
        alloc: Global,
        name: &str,
        negated: bool,
        label_sets: &[Labels],
        candidates: &mut [bool],
    ) -> Result<(), AllocError>
        requires { length candidates.old ≡ length label_sets.now }
        ensures { OnOk result (candidates.new
            ≡ kept_where (found_or_not negated self.now) name.now label_sets.now candidates.old) }
    {
        let mut search = self.built.search(alloc)?;
        self.ask_each(&mut search, name, negated, label_sets, candidates);
        Ok(())
    }

    /// Rules out the same label sets. It searches in the values of the candidates alone.
    #[tactic(auto, using(crate::proofs::MatcherLemmas::Asking::marked_more))]
    fn ask_each(
        &self,
        search: &mut Search<'_>,
        name: &str,
        negated: bool,
        label_sets: &[Labels],
        candidates: &mut [bool],
    )
        requires search { IsFoundAs (search_pattern search.old) self.now }
        requires candidates { length candidates.old ≡ length label_sets.now }
        ensures { candidates.new
            ≡ kept_where (found_or_not negated self.now) name.now label_sets.now candidates.old }
    {
        for (index, labels) in label_sets.iter().enumerate() {
            candidates[index] = candidates[index]
                && self.passes(search, negated, labels.value_of(name));
        }
    }

    /// Returns whether the pattern matches the whole value, or whether it doesn't if `negated`.
    #[tactic(auto, unfolding(crate::specs::Matcher::Searches::IsFoundAs))]
    fn passes(&self, search: &mut Search<'_>, negated: bool, value: &str) -> bool
        requires { IsFoundAs (search_pattern search.old) self.now }
        ensures found { result ≡ found_or_not negated self.now value.now }
        ensures same { search_pattern search.new ≡ search_pattern search.old }
    {
        let found = search.is_match(value);
        if negated { !found } else { found }
    }

    /// Returns whether the pattern matches the whole value.
    #[tactic(auto, unfolding(crate::specs::Matcher::Searches::IsFoundAs))]
    pub fn matches(&self, alloc: Global, value: &str) -> Result<bool, AllocError>
        ensures { IfOk result (λ found. found ≡ pattern_matches self.now value.now) }
    {
        self.built.is_match(alloc, value)
    }
}
