//! The reasons that refuse an event, with the numbers that `docs/RULES.md` lists. Those of a
//! reload are the causes that refuse its configuration.
ghost use Rattle.std.specs.Prelude.{◌≡◌};
ghost use Rattle.amr_events.specs.Posts.Reasons.{reason_number};

use amr_config::read::Cause;
use thiserror::Error;

/// Why an event is refused. A refused event changes nothing.
#[derive(Clone, Copy, Debug, PartialEq, Eq, Error)]
pub enum Reason {
    /// The configuration of a reload is refused.
    #[error("{0}")]
    BadReload(Cause),
    #[error("no alert of the post is valid")]
    BadAlert,
    #[error("the silence isn't valid now")]
    BadSilence,
    #[error("no silence has the id")]
    UnknownSilence,
    #[error("a silence with the new id is stored already")]
    SilenceIdTaken,
    #[error("the event is before the clock")]
    Backwards,
    #[error("more moves are due than one event may make")]
    TooManyMoves,
}

impl Reason {
    /// Returns the number that is printed.
    pub fn number(self) -> u64
        ensures { result ≡ reason_number self }
    {
        match self {
            Reason::BadReload(cause) => cause.number(),
            Reason::BadAlert => 16,
            Reason::BadSilence => 17,
            Reason::UnknownSilence => 18,
            Reason::SilenceIdTaken => 19,
            Reason::Backwards => 20,
            Reason::TooManyMoves => 21,
        }
    }
}
