//! Asking a list of matchers for many label sets at once, one matcher after the other. The label
//! sets whose values have the bits that the matchers ask for are candidates, each until the first
//! matcher that doesn't match it. Flushes with several new members ask silences like this.
ghost use Rattle.std.specs.Prelude.{◌≡◌, length, map, IfOk, OnOk};
ghost use Rattle.std.specs.List.{list_any};
ghost use Rattle.amr_labels.specs.Matcher.Candidates.{candidates_by_bits, kept_by_all, matches_each};
ghost use Rattle.amr_labels.specs.Matcher.ValueBits.{value_bits};

use crate::Labels;
use crate::matcher::bits::required_bits;
use crate::matcher::matcher::Matcher;
use std::alloc::{AllocError, Global};

/// Returns for each label set whether all matchers match it. The bits are those of the label sets.
pub(crate) fn match_each(
    alloc: Global,
    matchers: &[Matcher],
    label_sets: &[Labels],
    bits: &[u64],
) -> Result<Vec<bool>, AllocError>
    requires { bits.now ≡ map value_bits label_sets.now }
    ensures { IfOk result (λ found. found.items ≡ matches_each matchers.now label_sets.now) }
{
    let mut candidates = candidates_by_bits(alloc, required_bits(matchers), bits)?;
    keep_matching(alloc, matchers, label_sets, candidates.as_mut_slice())?;
    Ok(candidates)
}

/// Returns which of these bits of label sets include those that are required.
fn candidates_by_bits(alloc: Global, required: u64, bits: &[u64]) -> Result<Vec<bool>, AllocError>
    ensures { IfOk result (λ found. found.items ≡ candidates_by_bits required bits.now) }
{
    bits.iter()
        .map(|own| *own | required == *own)
        .collect(alloc)
}

/// Rules out the label sets that one of the matchers doesn't match. It asks no more once no
/// candidate is left.
#[tactic(auto, using(crate::proofs::MatcherLemmas::Asking::tested_in_vain))]
fn keep_matching(
    alloc: Global,
    matchers: &[Matcher],
    label_sets: &[Labels],
    candidates: &mut [bool],
) -> Result<(), AllocError>
    requires { length candidates.old ≡ length label_sets.now }
    ensures { OnOk result (candidates.new
        ≡ kept_by_all matchers.now label_sets.now candidates.old) }
{
    for matcher in matchers {
        if !is_any_left(candidates) {
            return Ok(());
        }
        matcher.keep(alloc, label_sets, candidates)?;
    }
    Ok(())
}

/// Returns whether a label set is still a candidate.
fn is_any_left(candidates: &[bool]) -> bool
    ensures { result ≡ list_any (λ candidate. candidate) candidates.now }
{
    candidates.iter().any(|candidate| *candidate)
}
