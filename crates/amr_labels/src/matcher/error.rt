//! The error of making matchers, from texts or from parts.
use std::alloc::{AllocError, AllocFailed};
use thiserror::Error;

/// Why matchers aren't made.
#[derive(Debug, Drop, Error)]
pub enum MatcherError {
    #[error("out of memory")]
    Memory,
    /// The text isn't a matcher text. `at` is the byte offset of the first character that no valid
    /// matcher list could have there.
    #[error("no list of matchers continues at byte {at} as the text does")]
    BadMatcher { at: usize },
    /// `regex` refuses the value of a `=~` or `!~` as a pattern.
    #[error("a pattern is refused")]
    BadPattern,
}

impl From<AllocError> for MatcherError {
    ghost use Rattle.std.specs.Prelude.{◌≡◌};
    ghost use Rattle.amr_labels.specs.declared.matcher.error.MatcherError.TheVariants.{Memory};

    ghost from_gives = { λ _ e. e ≡ Memory };

    fn from(_error: AllocError) -> MatcherError {
        MatcherError::Memory
    }
}

impl<T: Drop> From<AllocFailed<T>> for MatcherError {
    ghost use Rattle.std.specs.Prelude.{◌≡◌};
    ghost use Rattle.amr_labels.specs.declared.matcher.error.MatcherError.TheVariants.{Memory};

    ghost from_gives = { λ _ e. e ≡ Memory };

    fn from(_error: AllocFailed<T>) -> MatcherError {
        MatcherError::Memory
    }
}
