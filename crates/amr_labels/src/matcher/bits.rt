//! Bits of label values: numbers of 64 bits, of which each value sets two. Comparing the bits of
//! a label set with those that matchers ask for shows at once of most silences that they don't
//! match.
ghost use Rattle.std.specs.Prelude.{◌≡◌, map, IfOk};
ghost use Rattle.amr_labels.specs.Matcher.ValueBits.{value_bit, value_bits, required_bit, required_bits};

use crate::matcher::Operator;
use crate::matcher::matcher::Matcher;
use crate::{Labels, fnv_hash};
use std::alloc::{AllocError, Global};

/// Returns for each label set the bits of its values.
pub fn bits_of(alloc: Global, label_sets: &[Labels]) -> Result<Vec<u64>, AllocError>
    ensures { IfOk result (λ bits. bits.items ≡ map value_bits label_sets.now) }
{
    label_sets.iter().map(value_bits).collect(alloc)
}

/// Returns the bits of the values of a label set.
pub fn value_bits(labels: &Labels) -> u64
    ensures { result ≡ value_bits labels.now }
{
    let mut bits: u64 = 0;
    for (_name, value) in labels.entries() {
        bits |= value_bit(value.as_str());
    }
    bits
}

/// Returns the bits that each label set has that all these matchers match.
pub fn required_bits(matchers: &[Matcher]) -> u64
    ensures { result ≡ required_bits matchers.now }
{
    let mut bits: u64 = 0;
    for matcher in matchers {
        bits |= required_bit(matcher);
    }
    bits
}

/// Returns the bits that each label set has that the matcher matches: those of the value that `=`
/// asks for, or none for the empty value and for other operators.
fn required_bit(matcher: &Matcher) -> u64
    ensures { result ≡ required_bit matcher.now }
{
    match matcher.operator() {
        Operator::Equal if !matcher.value().is_empty() => value_bit(matcher.value().as_str()),
        _ => 0,
    }
}

/// Returns the bits of a value: two of 64, or one. Other values seldom have the same.
fn value_bit(value: &str) -> u64
    ensures { result ≡ value_bit value.now }
{
    let hash_value = fnv_hash(value);
    (1 << (hash_value % 64)) | (1 << (hash_value / 64 % 64))
}
