//! The faults of a script, and the errors of reading one. A fault is the script's; running out of
//! memory says nothing about it.
ghost use Rattle.std.specs.Prelude.{◌≡◌};
ghost use Rattle.amr_events.specs.Faults.{name_of_fault};

use amr_time::TimeError;
use std::alloc::{AllocError, AllocFailed};
use thiserror::Error;

/// The first fault of a script. Lines are counted from 1, blank ones too.
#[derive(Clone, Copy, Debug, PartialEq, Eq, Error)]
pub enum Fault {
    #[error("line {line} isn't an event")]
    BadLine { line: u64 },
    /// The line has more than 1,048,576 bytes before its end.
    #[error("line {line} is too long")]
    LineTooLong { line: u64 },
    #[error("there are more than 1,000,000 events")]
    TooManyEvents,
}

impl Fault {
    /// Returns the number and the name that are printed.
    pub fn printed_name(self) -> &'static str
        ensures { result.now ≡ name_of_fault self }
    {
        match self {
            Fault::BadLine { line: _ } => "13 BadLine",
            Fault::LineTooLong { line: _ } => "14 LineTooLong",
            Fault::TooManyEvents => "15 TooManyEvents",
        }
    }
}

/// Why a script isn't read.
#[derive(Debug, Drop, Error)]
pub enum ScriptError {
    #[error("out of memory")]
    Memory,
    #[error("{0}")]
    Refused(Fault),
}

impl From<AllocError> for ScriptError {
    ghost use Rattle.std.specs.Prelude.{◌≡◌};
    ghost use Rattle.amr_events.specs.declared.error.ScriptError.TheVariants.{Memory};

    ghost from_gives = { λ _ e. e ≡ Memory };

    fn from(_error: AllocError) -> ScriptError {
        ScriptError::Memory
    }
}

impl<T: Drop> From<AllocFailed<T>> for ScriptError {
    ghost use Rattle.std.specs.Prelude.{◌≡◌};
    ghost use Rattle.amr_events.specs.declared.error.ScriptError.TheVariants.{Memory};

    ghost from_gives = { λ _ e. e ≡ Memory };

    fn from(_error: AllocFailed<T>) -> ScriptError {
        ScriptError::Memory
    }
}

/// Why a line, or a value in it, isn't read.
#[derive(Debug, Drop, Error)]
pub enum LineError {
    #[error("out of memory")]
    Memory,
    #[error("the text doesn't have the shape that is wanted")]
    Faulty,
}

impl From<AllocError> for LineError {
    ghost use Rattle.std.specs.Prelude.{◌≡◌};
    ghost use Rattle.amr_events.specs.declared.error.LineError.TheVariants.{Memory};

    ghost from_gives = { λ _ e. e ≡ Memory };

    fn from(_error: AllocError) -> LineError {
        LineError::Memory
    }
}

impl<T: Drop> From<AllocFailed<T>> for LineError {
    ghost use Rattle.std.specs.Prelude.{◌≡◌};
    ghost use Rattle.amr_events.specs.declared.error.LineError.TheVariants.{Memory};

    ghost from_gives = { λ _ e. e ≡ Memory };

    fn from(_error: AllocFailed<T>) -> LineError {
        LineError::Memory
    }
}

impl From<TimeError> for LineError {
    ghost use Rattle.std.specs.Prelude.{◌≡◌};
    ghost use Rattle.amr_events.specs.declared.error.LineError.TheVariants.{Faulty};

    ghost from_gives = { λ _ e. e ≡ Faulty };

    fn from(_error: TimeError) -> LineError {
        LineError::Faulty
    }
}
