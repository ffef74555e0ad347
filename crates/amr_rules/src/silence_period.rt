//! The silences that match one label set, worked out once for all moments from one on. The state
//! caches them, so that a flush doesn't ask the matchers of every silence again.
ghost use Rattle.std.specs.Prelude.{◌≡◌, ◌≤◌, ℕ, IfOk};
ghost use Rattle.std.specs.Ordering.{nat_cmp};
ghost use Rattle.amr_labels.specs.Labels.{LabelSet};
ghost use Rattle.amr_tables.specs.Numbered.{map_of};
ghost use Rattle.amr_time.specs.Time.{Moment};
ghost use Rattle.amr_rules.specs.Muting.{silencer_of};
ghost use Rattle.amr_rules.specs.Silences.{Silences};

use crate::silence::Silence;
use amr_events::posts::SilenceId;
use amr_labels::matcher::MatchCache;
use amr_labels::{Labels, Listing};
use amr_tables::Keyed;
use amr_time::Moment;
use std::alloc::{AllocError, Global};

/// When a silence is active.
#[derive(Clone, Copy)]
pub struct SilencePeriod {
    pub id: SilenceId,
    pub starts_at: Moment,
    /// The end of the silence. It is expired from this moment on.
    pub ends_at: Moment,
}

ghost use Rattle.amr_rules.specs.SilencePeriods.{may_silence, period_of, covers, periods_among, silence_periods, is_active_in, unexpired_silences, IsLeastId, IsListed};

impl SilencePeriod {
    /// Returns when the silence with this id is active.
    pub fn of(id: SilenceId, silence: &Silence) -> SilencePeriod
        ensures { result ≡ period_of (id, silence.now) }
    {
        SilencePeriod {
            id,
            starts_at: silence.starts_at,
            ends_at: silence.ends_at,
        }
    }

    /// Returns whether the silence is active at a moment.
    fn covers(&self, moment: Moment) -> bool
        ensures { result ≡ covers moment self.now }
    {
        self.starts_at <= moment && moment < self.ends_at
    }
}

/// Lists the silences that aren't expired at a moment, with their ids, in the order of the ids. At
/// this moment or later, no other silence mutes.
pub fn unexpired(
    alloc: Global,
    silences: &Keyed<SilenceId, Silence>,
    from: Moment,
) -> Result<Vec<(SilenceId, Silence)>, AllocError>
    ensures { IfOk result (λ listed. listed.items
        ≡ unexpired_silences from (map_of nat_cmp silences.now)) }
{
    let stored = silences.sorted(alloc)?;
    let mut listed = Vec::new(alloc);
    for &(id, silence) in stored.as_slice() {
        if !silence.is_expired_at(from) {
            listed.push((*id, silence.clone()?))?;
        }
    }
    Ok(listed)
}

/// Lists those of these silences that match labels and aren't expired at a moment, with their
/// periods. It asks the patterns of the matchers through the cached answers.
#[tactic(auto, using(std::proofs::lemmas::Grind::common_steps, crate::proofs::LaterSilences::periods_later))]
pub fn silence_periods(
    alloc: Global,
    answers: &mut MatchCache,
    listed: &[(SilenceId, Silence)],
    from: Moment,
    labels: &Labels,
) -> Result<Listing<SilencePeriod>, AllocError>
    ensures among { IfOk result (λ periods. periods
        ≡ periods_among from labels.now listed.now) }
    ensures all { IfOk result (λ periods. (earlier : Moment) (silences : Silences)
        → earlier ≤ from → listed.now ≡ unexpired_silences earlier silences
        → periods ≡ silence_periods from labels.now silences) }
{
    let mut periods = Listing::new(alloc);
    for (id, silence) in listed {
        if may_silence(answers, from, silence, labels)? {
            periods.push(SilencePeriod::of(*id, silence))?;
        }
    }
    Ok(periods)
}

/// Returns whether a silence matches labels and isn't expired at a moment.
pub fn may_silence(
    answers: &mut MatchCache,
    from: Moment,
    silence: &Silence,
    labels: &Labels,
) -> Result<bool, AllocError>
    ensures { IfOk result (λ may. may ≡ may_silence from labels.now silence.now) }
{
    if silence.is_expired_at(from) {
        return Ok(false);
    }
    silence.matchers.matches_all(answers, labels)
}

/// Returns the least id of these periods that a moment is in. That is the silence that mutes the
/// labels if each silence is listed as `silence_periods` does for them, at this moment or before.
pub fn silenced_in(now: Moment, periods: &[SilencePeriod]) -> Option<SilenceId>
    ensures least { IsLeastId (is_active_in now periods.now) result }
    ensures silencer { (from : Moment) (labels : LabelSet) (silences : Silences) → from ≤ now
        → ((id : ℕ) → IsListed from labels silences periods.now id)
        → result ≡ silencer_of now labels silences }
{
    let mut least: Option<SilenceId> = None;
    for period in periods {
        if period.covers(now) {
            least = Some(least.map_or(period.id, |least| least.min(period.id)));
        }
    }
    least
}
