//! Reading a list of matchers from a text. `amr_config` calls `Patterns::matchers_of` for
//! `matchers` in a configuration.
ghost use Rattle.std.specs.Prelude.{◌≡◌, Some, IfOk, IfErr, chars};
ghost use Rattle.amr_labels.specs.Matcher.MatcherText.{Spells};
ghost use Rattle.amr_labels.specs.Matcher.MatcherReading.{matchers_of};
ghost use Rattle.amr_labels.specs.Matcher.MatcherRefusals.{MayBeRefused, OneMayBeRefused, RefusedOnlyIf, Explains};

use crate::matcher::error::MatcherError;
use crate::matcher::matcher::Matcher;
use crate::matcher::matcher_reader::{Draft, Reader};
use crate::matcher::matchers::Matchers;
use crate::matcher::patterns::Patterns;
use std::alloc::Global;

/// Reads the matchers that a text spells. Their patterns aren't built yet.
fn drafts_of(alloc: Global, text: &str) -> Result<Vec<Draft>, MatcherError>
    ensures read { IfOk result (λ drafts. matchers_of text.now ≡ Some drafts.items) }
    ensures refused { IfErr result (Explains text.now) }
{
    let mut reader = Reader::new(alloc);
    let mut at = 0;
    for c in text.chars() {
        let goes_on = reader.read(alloc, c)?;
        if !goes_on {
            return Err(MatcherError::BadMatcher { at });
        }
        at += c.len_utf8();
    }
    match reader.finish(alloc)? {
        Some(drafts) => Ok(drafts),
        None => Err(MatcherError::BadMatcher { at: text.len() }),
    }
}

/// Builds a matcher with its pattern.
fn matcher_of(patterns: &mut Patterns, draft: &Draft) -> Result<Matcher, MatcherError>
    ensures built { IfOk result (λ matcher. matcher ≡ draft.now) }
    ensures refused { IfErr result (RefusedOnlyIf (MayBeRefused draft.now)) }
{
    let name = draft.name.clone()?;
    let value = draft.value.clone()?;
    Matcher::new(patterns, name, draft.operator, value)
}

/// Builds the matchers with their patterns.
fn build(
    alloc: Global,
    patterns: &mut Patterns,
    drafts: &[Draft],
) -> Result<Vec<Matcher>, MatcherError>
    ensures built { IfOk result (λ matchers. matchers.items ≡ drafts.now) }
    ensures refused { IfErr result (RefusedOnlyIf (OneMayBeRefused drafts.now)) }
{
    let mut built = Vec::new(alloc);
    for draft in drafts {
        let matcher = matcher_of(patterns, draft)?;
        built.push(matcher)?;
    }
    Ok(built)
}

impl Matchers {
    /// Reads a list of matchers, in the matcher syntax of Alertmanager's configuration reference,
    /// like `{alertname="X", team=~"a|b"}` or `severity!=info`: matchers separated by commas, in
    /// braces or not, with names and values unquoted or in double quotes.
    ///
    /// Fails with `BadMatcher` if the text isn't of this form, even if a pattern in it is bad too,
    /// and else with `BadPattern` if `regex` refuses the pattern of a `=~` or `!~`. No contract
    /// says which patterns it refuses.
    pub fn parse(alloc: Global, text: &str) -> Result<Matchers, MatcherError>
        ensures read { IfOk result (λ matchers. matchers_of text.now ≡ Some matchers) }
        ensures spelled { IfOk result (λ matchers. Spells (chars text.now) matchers) }
        ensures refused { IfErr result (Explains text.now) }
    {
        Patterns::new(alloc).matchers_of(alloc, text)
    }
}

impl Patterns {
    /// Reads a list of matchers, as `Matchers::parse` does. They share their patterns with the
    /// matchers that were made before with these.
    #[tactic(auto, using(crate::proofs::MatcherLemmas::MatcherRead::read_is_spelled))]
    pub fn matchers_of(&mut self, alloc: Global, text: &str) -> Result<Matchers, MatcherError>
        ensures read { IfOk result (λ matchers. matchers_of text.now ≡ Some matchers) }
        ensures spelled { IfOk result (λ matchers. Spells (chars text.now) matchers) }
        ensures refused { IfErr result (Explains text.now) }
    {
        let drafts = drafts_of(alloc, text)?;
        let built = build(alloc, self, drafts.as_slice())?;
        Ok(Matchers::from_vec(alloc, built)?)
    }
}
