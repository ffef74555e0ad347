//! The error of reading a moment or a duration from a text.
use thiserror::Error;

/// Why a text isn't read as a moment or as a duration.
#[derive(Clone, Copy, Debug, PartialEq, Eq, Error)]
pub enum TimeError {
    #[error("the text isn't a moment of RFC 3339")]
    BadTime,
    #[error("the text isn't a duration")]
    BadDuration,
}
