//! Why a JSON value is refused as a configuration. The reader and the validation return these
//! errors; the program prints them with their numbers.
ghost use Rattle.std.specs.Prelude.{◌≡◌};
ghost use Rattle.amr_config.specs.declared.read.error.ConfigError.TheVariants.{Memory};
ghost use Rattle.amr_config.specs.Read.Refusals.{number_of, printed_name_of, cause_of};

use amr_labels::Text;
use std::alloc::{AllocError, AllocFailed};
use thiserror::Error;

/// The cause of a refusal, with its number. A reload is refused for the same causes.
#[derive(Clone, Copy, Debug, PartialEq, Eq, Error)]
pub enum Cause {
    /// A value has a wrong shape, or is no valid text, duration, matcher, pattern or name of a time
    /// interval.
    #[error("the configuration has a faulty value")]
    BadConfig = 5,
    #[error("a route names a receiver that doesn't exist")]
    UnknownReceiver = 6,
    #[error("two receivers have the same name")]
    DuplicateReceiver = 7,
    #[error("the root route has matchers, `continue` or time intervals, or no receiver")]
    RootRoute = 8,
    #[error("`group_interval` or `repeat_interval` is zero")]
    ZeroInterval = 9,
    #[error("`group_by` has an empty or a repeated name, or has `...` beside other names")]
    BadGroupBy = 10,
    #[error("the routing tree has more than 32 levels")]
    TooDeep = 11,
}

impl Cause {
    /// Returns the number that is printed.
    pub fn number(self) -> u64
        ensures { result ≡ number_of self }
    {
        self as u64
    }

    /// Returns the number and the name that are printed.
    pub fn printed_name(self) -> &'static str
        ensures { result.now ≡ printed_name_of self }
    {
        match self {
            Cause::BadConfig => "5 BadConfig",
            Cause::UnknownReceiver => "6 UnknownReceiver",
            Cause::DuplicateReceiver => "7 DuplicateReceiver",
            Cause::RootRoute => "8 RootRoute",
            Cause::ZeroInterval => "9 ZeroInterval",
            Cause::BadGroupBy => "10 BadGroupBy",
            Cause::TooDeep => "11 TooDeep",
        }
    }
}

/// Why a value is refused as a configuration.
#[derive(Debug, Drop, Error)]
pub enum Refusal {
    /// The path is that of the first faulty value: keys are joined by `.`, and an index in a list is
    /// written `[i]`, from 0, as in `route.routes[0].group_wait`.
    #[error("{} at `{}`", Cause::BadConfig, .path.as_str())]
    BadConfig { path: Text },
    /// Another cause, which has no path.
    #[error("{0}")]
    Other(Cause),
}

impl Refusal {
    /// Returns the cause.
    pub fn cause(&self) -> Cause
        ensures { result ≡ cause_of self.now }
    {
        match self {
            Refusal::BadConfig { path: _ } => Cause::BadConfig,
            Refusal::Other(cause) => *cause,
        }
    }
}

/// The error of reading a configuration: the value is refused, or memory ran out.
#[derive(Debug, Drop, Error)]
pub enum ConfigError {
    #[error("out of memory")]
    Memory,
    #[error("{0}")]
    Refused(Refusal),
}

impl From<AllocError> for ConfigError {
    ghost from_gives = { λ _ e. e ≡ Memory };

    fn from(_error: AllocError) -> ConfigError {
        ConfigError::Memory
    }
}

impl<T: Drop> From<AllocFailed<T>> for ConfigError {
    ghost from_gives = { λ _ e. e ≡ Memory };

    fn from(_error: AllocFailed<T>) -> ConfigError {
        ConfigError::Memory
    }
}
