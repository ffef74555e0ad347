//! Label matchers, lists of them, and reading them from texts. Routes, inhibition rules and
//! silences have matchers. A pattern is built once, when its matcher is read.

mod bits;
mod candidates;
mod comparison;
mod error;
pub mod laws;
mod match_cache;
mod matcher;
mod matcher_reader;
mod matcher_steps;
mod matchers;
mod parse;
mod pattern;
mod patterns;
mod search;
mod ungrouped;

pub use bits::{bits_of, required_bits, value_bits};
pub use error::MatcherError;
pub use match_cache::MatchCache;
pub use matcher::Matcher;
pub use matchers::Matchers;
pub use pattern::Pattern;
pub use patterns::Patterns;

/// How a matcher compares a label's value with its own.
#[derive(Clone, Copy, PartialEq, Eq)]
pub enum Operator {
    Equal,
    NotEqual,
    Matches,
    NotMatches,
}
