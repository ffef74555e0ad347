//! Matchers: whether one matches a label set, and their order, which is by name, value and
//! operator.
ghost use Rattle.std.specs.Prelude.{◌≡◌, length, IfOk, IfErr, IsOk, OnOk, false, true};
ghost use Rattle.std.proofs.Common.{rules};
ghost use Rattle.std.specs.Cmp.{partial_order_from_own_ties};
ghost use Rattle.std.specs.Cmp.Rules.{comparing};
ghost use Rattle.std.specs.Ordering.{as_partial_cmp, eq_by_cmp};
ghost use Rattle.amr_labels.specs.Matcher.Candidates.{kept_by};
ghost use Rattle.amr_labels.specs.Matcher.Matchers.{holds, takes_pattern, operator_rank, matcher_cmp, matcher_cmp_total};
ghost use Rattle.amr_labels.specs.Matcher.Patterns.{MayRefuse};
ghost use Rattle.amr_labels.specs.Matcher.MatcherRefusals.{RefusedOnlyIf};

use crate::matcher::Operator;
use crate::matcher::comparison::Comparison;
use crate::matcher::error::MatcherError;
use crate::matcher::match_cache::MatchCache;
use crate::matcher::patterns::Patterns;
use crate::{Exact, Labels, Text};
use std::alloc::{AllocError, Global};
use std::cmp::Ordering;
use std::marker::Model;

/// A matcher: a label's name, an operator, and a value, like Alertmanager's `alertname="X"`,
/// `team!="a"`, `zone=~"a|b"` and `zone!~"a|b"`. An absent label counts as empty, and a pattern has
/// to match the whole value. Clones share the pattern, which is built once.
#[derive(Drop)]
pub struct Matcher {
    name: Text,
    comparison: Comparison,
}

impl Model for Matcher {
    ghost use Rattle.amr_labels.specs.Matcher.Matchers as matchers;
    ghost use Rattle.amr_labels.specs.Matcher.Comparisons.{operator_of, own_value};

    ghost Value = { matchers.Matcher };

    ghost view = { λ matcher. record { name = matcher.name; operator = operator_of matcher.comparison; value = own_value matcher.comparison } };
}

impl Matcher {
    /// Makes a matcher. It shares its pattern with the matchers that were made before with these
    /// patterns. Fails with `BadPattern` if `regex` refuses the value of `=~` or `!~` as a pattern;
    /// no contract says which patterns it refuses.
    pub fn new(
        patterns: &mut Patterns,
        name: Text,
        operator: Operator,
        value: Text,
    ) -> Result<Matcher, MatcherError>
        ensures made { IfOk result (λ matcher. matcher
            ≡ record { name = name; operator = operator; value = value }) }
        ensures refused { IfErr result
            (RefusedOnlyIf ((takes_pattern operator ≡ true) × MayRefuse value)) }
    {
        let comparison = Comparison::new(patterns, operator, value)?;
        Ok(Matcher { name, comparison })
    }

    /// Returns the name of the label.
    pub fn name(&self) -> &Text
        ensures { result.now ≡ self.now.name }
    {
        &self.name
    }

    /// Returns the operator.
    pub fn operator(&self) -> Operator
        ensures { result ≡ self.now.operator }
    {
        self.comparison.operator()
    }

    /// Returns the matcher's own value, which is the text of the pattern for `=~` and `!~`.
    pub fn value(&self) -> &Text
        ensures { result.now ≡ self.now.value }
    {
        self.comparison.own()
    }

    /// Returns whether the matcher matches the labels.
    pub fn matches(&self, alloc: Global, labels: &Labels) -> Result<bool, AllocError>
        ensures answer { IfOk result (λ found. found ≡ holds self.now labels.now) }
        ensures plain { takes_pattern self.now.operator ≡ false → IsOk result }
    {
        self.holds(&mut MatchCache::none(alloc), labels)
    }

    /// Returns whether the matcher matches the labels. It asks its pattern through the cache.
    pub(crate) fn holds(
        &self,
        answers: &mut MatchCache,
        labels: &Labels,
    ) -> Result<bool, AllocError>
        ensures answer { IfOk result (λ found. found ≡ holds self.now labels.now) }
        ensures plain { takes_pattern self.now.operator ≡ false → IsOk result }
    {
        self.comparison
            .compares(answers, labels.value_of(self.name.as_str()))
    }

    /// Rules out the label sets that the matcher doesn't match. It asks for the candidates
    /// alone.
    pub(crate) fn keep(
        &self,
        alloc: Global,
        label_sets: &[Labels],
        candidates: &mut [bool],
    ) -> Result<(), AllocError>
        requires { length candidates.old ≡ length label_sets.now }
        ensures { OnOk result (candidates.new ≡ kept_by self.now label_sets.now candidates.old) }
    {
        let name = self.name.as_str();
        self.comparison.keep(alloc, name, label_sets, candidates)
    }
}

/// Returns the rank of an operator in the order of matchers.
fn rank(operator: Operator) -> u8
    ensures { result ≡ operator_rank operator }
{
    match operator {
        Operator::Equal => 0,
        Operator::NotEqual => 1,
        Operator::Matches => 2,
        Operator::NotMatches => 3,
    }
}

impl Clone for Matcher {
    ghost is_clone = { λ a b. b ≡ a };

    fn clone(&self) -> Result<Matcher, AllocError> {
        Ok(Matcher {
            name: self.name.clone()?,
            comparison: self.comparison.clone()?,
        })
    }
}

impl Exact for Matcher {
    ghost exact = { λ x y same. same };
}

impl PartialEq for Matcher {
    ghost eq = { eq_by_cmp matcher_cmp };

    ghost laws = { Prim.search (comparing, rules, matcher_cmp_total) };

    fn eq(&self, other: &Matcher) -> bool {
        self.value() == other.value()
            && self.name == other.name
            && rank(self.operator()) == rank(other.operator())
    }
}

impl Eq for Matcher {
    ghost laws = { Prim.search (comparing, rules, matcher_cmp_total) };
}

impl Ord for Matcher {
    ghost cmp = { matcher_cmp };

    ghost total = { matcher_cmp_total };

    ghost matches_partial_cmp = { Prim.search (comparing, rules) };

    ghost matches_eq = { Prim.search (comparing, rules) };

    fn cmp(&self, other: &Matcher) -> Ordering {
        let by_operator = rank(self.operator()).cmp(&rank(other.operator()));
        self.name
            .cmp(&other.name)
            .then(self.value().cmp(other.value()).then(by_operator))
    }
}

impl PartialOrd for Matcher {
    ghost partial_cmp = { as_partial_cmp matcher_cmp };

    ghost laws = { partial_order_from_own_ties (Prim.search (comparing, rules, matcher_cmp_total)) (Prim.search (comparing, rules)) };

    fn partial_cmp(&self, other: &Matcher) -> Option<Ordering> {
        Some(self.cmp(other))
    }
}
