//! Laws of matcher texts, as functions that do nothing: their contracts are the laws. Nothing calls
//! them.
ghost use Rattle.amr_labels.specs.Matcher.MatcherLaws.{ReadIsSpelled, SpelledIsRead};

/// Says that a text that is read as a list of matchers spells that list: matchers separated by
/// commas, in braces or not.
#[tactic(auto, using(crate::proofs::MatcherLemmas::MatcherRead::read_is_spelled))]
pub fn what_is_read_is_spelled()
    ensures { ReadIsSpelled }
{}

/// Says that a text that spells a list of matchers is read as that list.
pub fn what_is_spelled_is_read()
    ensures { SpelledIsRead }
{}
