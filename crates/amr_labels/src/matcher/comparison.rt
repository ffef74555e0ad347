//! How a matcher compares the value of a label with its own value. `matcher.rt` uses it.
ghost use Rattle.std.specs.Prelude.{◌≡◌, length, IfOk, IfErr, IsOk, OnOk, false, true};
ghost use Rattle.amr_labels.specs.Matcher.Matchers.{compares, takes_pattern};
ghost use Rattle.amr_labels.specs.Matcher.Candidates.{kept_where, equal_or_not};
ghost use Rattle.amr_labels.specs.Matcher.Comparisons.{operator_of, own_value};
ghost use Rattle.amr_labels.specs.Matcher.Patterns.{MayRefuse};
ghost use Rattle.amr_labels.specs.Matcher.MatcherRefusals.{RefusedOnlyIf};

use crate::matcher::Operator;
use crate::matcher::error::MatcherError;
use crate::matcher::match_cache::MatchCache;
use crate::matcher::pattern::Pattern;
use crate::matcher::patterns::Patterns;
use crate::{Labels, Shared, Text};
use std::alloc::{AllocError, Global};
use std::cmp::Ordering;

/// How a matcher compares a label's value with its own. Clones share the pattern.
#[derive(Drop)]
pub(crate) enum Comparison {
    Is(Text),
    IsNot(Text),
    Matches(Shared<Pattern>),
    MatchesNot(Shared<Pattern>),
}

impl Comparison {
    /// Makes the comparison for an operator and the matcher's own value.
    pub(crate) fn new(
        patterns: &mut Patterns,
        operator: Operator,
        own: Text,
    ) -> Result<Comparison, MatcherError>
        ensures operator { IfOk result (λ comparison. operator_of comparison ≡ operator) }
        ensures own { IfOk result (λ comparison. own_value comparison ≡ own) }
        ensures refused { IfErr result
            (RefusedOnlyIf ((takes_pattern operator ≡ true) × MayRefuse own)) }
    {
        match operator {
            Operator::Equal => Ok(Comparison::Is(own)),
            Operator::NotEqual => Ok(Comparison::IsNot(own)),
            Operator::Matches => Ok(Comparison::Matches(patterns.pattern(own)?)),
            Operator::NotMatches => Ok(Comparison::MatchesNot(patterns.pattern(own)?)),
        }
    }

    /// Returns the operator.
    pub(crate) fn operator(&self) -> Operator
        ensures { result ≡ operator_of self.now }
    {
        match self {
            Comparison::Is(_) => Operator::Equal,
            Comparison::IsNot(_) => Operator::NotEqual,
            Comparison::Matches(_) => Operator::Matches,
            Comparison::MatchesNot(_) => Operator::NotMatches,
        }
    }

    /// Returns the matcher's own value.
    pub(crate) fn own(&self) -> &Text
        ensures { result.now ≡ own_value self.now }
    {
        match self {
            Comparison::Is(own) => own,
            Comparison::IsNot(own) => own,
            Comparison::Matches(pattern) => pattern.get().text(),
            Comparison::MatchesNot(pattern) => pattern.get().text(),
        }
    }

    /// Rules out the label sets whose value of the label with this name doesn't pass the comparison.
    /// It compares the values of the candidates alone.
    pub(crate) fn keep(
        &self,
        alloc: Global,
        name: &str,
        label_sets: &[Labels],
        candidates: &mut [bool],
    ) -> Result<(), AllocError>
        requires { length candidates.old ≡ length label_sets.now }
        ensures { OnOk result (candidates.new
            ≡ kept_where (compares (operator_of self.now) (own_value self.now))
            name.now label_sets.now candidates.old) }
    {
        match self {
            Comparison::Is(own) => keep_equal(own, false, name, label_sets, candidates),
            Comparison::IsNot(own) => keep_equal(own, true, name, label_sets, candidates),
            Comparison::Matches(pattern) => {
                pattern
                    .get()
                    .keep(alloc, name, false, label_sets, candidates)?;
            }
            Comparison::MatchesNot(pattern) => {
                pattern
                    .get()
                    .keep(alloc, name, true, label_sets, candidates)?;
            }
        }
        Ok(())
    }

    /// Returns whether a label's value passes the comparison. Only patterns' answers are
    /// cached.
    pub(crate) fn compares(&self, answers: &mut MatchCache, value: &str) -> Result<bool, AllocError>
        ensures answer { IfOk result (λ found. found
            ≡ compares (operator_of self.now) (own_value self.now) value.now) }
        ensures plain { takes_pattern (operator_of self.now) ≡ false → IsOk result }
    {
        match self {
            Comparison::Is(own) => Ok(value.cmp(own.as_str()) == Ordering::Equal),
            Comparison::IsNot(own) => Ok(value.cmp(own.as_str()) != Ordering::Equal),
            Comparison::Matches(pattern) => answers.matches(pattern.get(), value),
            Comparison::MatchesNot(pattern) => Ok(!answers.matches(pattern.get(), value)?),
        }
    }
}

/// Rules out the label sets whose value of the label with this name isn't the matcher's own value, or
/// is if `negated`.
#[tactic(auto, using(crate::proofs::MatcherLemmas::Asking::marked_more))]
fn keep_equal(own: &Text, negated: bool, name: &str, label_sets: &[Labels], candidates: &mut [bool])
    requires { length candidates.old ≡ length label_sets.now }
    ensures { candidates.new
        ≡ kept_where (equal_or_not negated own.now) name.now label_sets.now candidates.old }
{
    for (index, labels) in label_sets.iter().enumerate() {
        candidates[index] = candidates[index] && is_equal(own, negated, labels.value_of(name));
    }
}

/// Returns whether a label's value equals the matcher's own value, or whether it doesn't if
/// `negated`.
fn is_equal(own: &Text, negated: bool, value: &str) -> bool
    ensures { result ≡ equal_or_not negated own.now value.now }
{
    let is_own = value.cmp(own.as_str()) == Ordering::Equal;
    if negated { !is_own } else { is_own }
}

impl Clone for Comparison {
    ghost is_clone = { λ a b. b ≡ a };

    fn clone(&self) -> Result<Comparison, AllocError> {
        match self {
            Comparison::Is(own) => Ok(Comparison::Is(own.clone()?)),
            Comparison::IsNot(own) => Ok(Comparison::IsNot(own.clone()?)),
            Comparison::Matches(pattern) => Ok(Comparison::Matches(pattern.clone()?)),
            Comparison::MatchesNot(pattern) => Ok(Comparison::MatchesNot(pattern.clone()?)),
        }
    }
}
