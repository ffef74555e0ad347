//! The sides of the inhibition rules that a label set is on. A pattern costs far more than a
//! look-up, so `Router` caches these answers, and `amr_rules` takes them in place of the
//! matchers.
ghost use Rattle.std.specs.Prelude.{◌≡◌, IfOk};
ghost use Rattle.amr_config.specs.Stated.RuleMatches.{rule_match, rule_matches};

use crate::stated::rule::InhibitRule;
use amr_labels::matcher::MatchCache;
use amr_labels::{Labels, Listing};
use std::alloc::{AllocError, Global};

/// Whether a label set matches the source matchers and the target matchers of an inhibition rule.
#[derive(Clone, Copy, PartialEq, Eq)]
pub struct RuleMatch {
    pub is_source: bool,
    pub is_target: bool,
}

/// Works out which sides of each of these inhibition rules a label set is on, in the rules' order.
/// It asks the patterns of the matchers through the cached answers.
#[tactic(auto, unfolding(crate::specs::Stated::RuleMatches::rule_matches))]
pub fn rule_matches(
    alloc: Global,
    answers: &mut MatchCache,
    rules: &[InhibitRule],
    labels: &Labels,
) -> Result<Listing<RuleMatch>, AllocError>
    ensures { IfOk result (λ found. found ≡ rule_matches labels.now rules.now) }
{
    let mut found = Listing::new(alloc);
    for rule in rules {
        found.push(rule_match(answers, rule, labels)?)?;
    }
    Ok(found)
}

/// Works out which sides of an inhibition rule a label set is on.
fn rule_match(
    answers: &mut MatchCache,
    rule: &InhibitRule,
    labels: &Labels,
) -> Result<RuleMatch, AllocError>
    ensures { IfOk result (λ found. found ≡ rule_match labels.now rule.now) }
{
    Ok(RuleMatch {
        is_source: rule.source.matches_all(answers, labels)?,
        is_target: rule.target.matches_all(answers, labels)?,
    })
}
