//! Silences: when a silence is pending, active or expired, and expiring it. A silence mutes only
//! while it is active.
ghost use Rattle.std.specs.Prelude.{◌≡◌};

use amr_labels::Exact;
use amr_labels::matcher::Matchers;
use amr_time::Moment;
use std::alloc::AllocError;

/// A silence without its id.
#[derive(Drop)]
pub struct Silence {
    pub matchers: Matchers,
    pub starts_at: Moment,
    /// The end of the silence. It is expired from this moment on.
    pub ends_at: Moment,
}

impl Clone for Silence {
    ghost is_clone = { λ a b. b ≡ a };

    fn clone(&self) -> Result<Silence, AllocError> {
        Ok(Silence {
            matchers: self.matchers.clone()?,
            starts_at: self.starts_at,
            ends_at: self.ends_at,
        })
    }
}

impl Exact for Silence {
    ghost exact = { λ x y same. same };
}

ghost use Rattle.amr_rules.specs.Silences.{is_pending_at, is_active_at, is_expired_at, expired_form};

impl Silence {
    /// Returns whether the silence hasn't started yet.
    pub fn is_pending_at(&self, moment: Moment) -> bool
        ensures { result ≡ is_pending_at moment self.now }
    {
        moment < self.starts_at
    }

    /// Returns whether the silence mutes: from its start to just before its end.
    pub fn is_active_at(&self, moment: Moment) -> bool
        ensures { result ≡ is_active_at moment self.now }
    {
        self.starts_at <= moment && moment < self.ends_at
    }

    /// Returns whether the silence has ended.
    pub fn is_expired_at(&self, moment: Moment) -> bool
        ensures { result ≡ is_expired_at moment self.now }
    {
        self.ends_at <= moment
    }
}

/// Expires a silence: an active one ends now, a pending one starts and ends now, and an expired one
/// doesn't change.
pub fn silence_expire(now: Moment, silence: Silence) -> Silence
    ensures { result ≡ expired_form now silence }
{
    let mut silence = silence;
    if !silence.is_expired_at(now) {
        if silence.is_pending_at(now) {
            silence.starts_at = now;
        }
        silence.ends_at = now;
    }
    silence
}
