//! Changes of silences, as the table of silences lists them. Each notes what shows at once of most
//! label sets that the silence doesn't mute them.
ghost use Rattle.std.specs.Prelude.{◌≡◌};
ghost use Rattle.std.specs.Option.{option_copied};

use amr_events::posts::SilenceId;
use amr_labels::matcher::required_bits;
use amr_rules::Silence;
use amr_time::Moment;

/// A change of a silence.
#[derive(Clone, Copy)]
pub(crate) struct SilenceChange {
    pub(crate) id: SilenceId,
    /// The end of the silence since the change. If there is no silence, it is the first moment.
    pub(crate) ends_at: Moment,
    /// The bits that each label set has that the silence matches.
    pub(crate) required: u64,
}

ghost use Rattle.amr_engine.specs.Indexes.CachedSilences.{change_of, may_concern};

impl SilenceChange {
    /// Returns the note that this is the silence with this id from now on, or that there is none.
    pub(crate) fn new(id: &SilenceId, silence: Option<&Silence>) -> SilenceChange
        ensures { result ≡ change_of id.now (option_copied silence.entry) }
    {
        match silence {
            Some(silence) => SilenceChange {
                id: *id,
                ends_at: silence.ends_at,
                required: required_bits(silence.matchers.as_slice()),
            },
            None => SilenceChange {
                id: *id,
                ends_at: Moment::START,
                required: 0,
            },
        }
    }

    /// Returns whether the silence may mute, after a moment, a label set whose values have these
    /// bits.
    pub(crate) fn may_concern(&self, from: Moment, bits: u64) -> bool
        ensures { result ≡ may_concern from bits self.now }
    {
        bits | self.required == bits && from < self.ends_at
    }
}
