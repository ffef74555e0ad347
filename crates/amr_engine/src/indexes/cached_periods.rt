//! What is cached of a label set: when the silences that match it are active. When silences change,
//! only those are asked that did. `silence_table.rt` keeps one of these for each label set that
//! flushes asked about.
ghost use Rattle.std.specs.Prelude.{◌≡◌, ◌≤◌, [], ◌++◌, length, OnOk, OnErr, IfOk, IfSome};
ghost use Rattle.std.specs.List.{filter, cons_option};
ghost use Rattle.std.specs.Ordering.{nat_cmp};
ghost use Rattle.amr_tables.specs.Numbered.{map_of};

use crate::indexes::silence_change::SilenceChange;
use amr_events::posts::SilenceId;
use amr_labels::matcher::MatchCache;
use amr_labels::{Labels, Listing};
use amr_rules::{Silence, SilencePeriod, may_silence};
use amr_tables::Keyed;
use amr_time::Moment;
use std::alloc::AllocError;

/// When silences that match a label set are active, from a moment on.
#[derive(Drop)]
pub(crate) struct CachedPeriods {
    pub(crate) labels: Labels,
    /// The bits of their values.
    pub(crate) bits: u64,
    /// The moment from which on the periods are complete. Silences that were expired by then are
    /// left out.
    pub(crate) from: Moment,
    /// How many changes of silences the periods take in.
    pub(crate) version: usize,
    pub(crate) periods: Listing<SilencePeriod>,
}

ghost use Rattle.amr_engine.specs.Indexes.CachedSilences.{ends_after, without_silence, noted_period, AreNoted, IsCached};

impl CachedPeriods {
    /// Takes in the changes of silences that it hasn't seen, so that the periods are those of the
    /// silences as they are now. If there are any, it leaves out what has ended by this moment. If
    /// memory runs out, it has taken in some of them.
    pub(crate) fn catch_up(
        &mut self,
        answers: &mut MatchCache,
        silences: &Keyed<SilenceId, Silence>,
        changes: &[SilenceChange],
        at: Moment,
    ) -> Result<(), AllocError>
        requires before { self.old.from ≤ at }
        requires noted { AreNoted (map_of nat_cmp silences.now) changes.now }
        requires cached { IsCached (map_of nat_cmp silences.now) changes.now self.old }
        ensures cached { IsCached (map_of nat_cmp silences.now) changes.now self.new }
        ensures version { OnOk result (self.new.version ≡ length changes.now) }
        ensures labels { self.new.labels ≡ self.old.labels }
        ensures from { self.new.from ≤ at }
    {
        if self.version >= changes.len() {
            return Ok(());
        }
        self.leave_out_ended(at);
        for index in self.version..changes.len() {
            self.take_in(answers, silences, &changes[index])?;
            self.version = index + 1;
        }
        Ok(())
    }

    /// Leaves out the periods that have ended by a moment, and is complete from then on. It takes no
    /// memory.
    fn leave_out_ended(&mut self, at: Moment)
        ensures { self.new ≡ record self.old {
          from = at;
          periods = filter (ends_after at) self.old.periods;
        } }
    {
        self.periods.retain(|period| at < period.ends_at);
        self.from = at;
    }

    /// Takes in that a silence changed. If memory runs out, it has left out the silence's period.
    fn take_in(
        &mut self,
        answers: &mut MatchCache,
        silences: &Keyed<SilenceId, Silence>,
        change: &SilenceChange,
    ) -> Result<(), AllocError>
        ensures ok { OnOk result (self.new ≡ record self.old {
          periods = without_silence change.now.id self.old.periods
              ++ cons_option (noted_period (map_of nat_cmp silences.now) change.now self.old) [];
        }) }
        ensures err { OnErr result (self.new ≡ record self.old {
          periods = without_silence change.now.id self.old.periods;
        }) }
    {
        keep_others(&mut self.periods, &change.id);
        if let Some(period) = self.period(answers, silences, change)? {
            self.periods.push(period)?;
        }
        Ok(())
    }

    /// Returns when a silence that changed mutes the labels, if it may. It looks for the silence
    /// only if its change doesn't show that it can't.
    fn period(
        &self,
        answers: &mut MatchCache,
        silences: &Keyed<SilenceId, Silence>,
        change: &SilenceChange,
    ) -> Result<Option<SilencePeriod>, AllocError>
        ensures { IfOk result (λ period. period
            ≡ noted_period (map_of nat_cmp silences.now) change.now self.now) }
    {
        if !change.may_concern(self.from, self.bits) {
            return Ok(None);
        }
        match silences.get(&change.id) {
            Some(silence) if may_silence(answers, self.from, silence, &self.labels)? => {
                Ok(Some(SilencePeriod::of(change.id, silence)))
            }
            _ => Ok(None),
        }
    }
}

/// Keeps the periods of other silences. It takes no memory.
fn keep_others(periods: &mut Listing<SilencePeriod>, id: &SilenceId)
    ensures { periods.new ≡ without_silence id.now periods.old }
{
    if !periods.is_empty() {
        periods.retain(|period| *id != period.id);
    }
}

/// Returns whether what is cached at a place is of these labels and complete from a moment on. It
/// first takes in the changes of silences.
pub(crate) fn is_caught_up(
    place: &mut Option<CachedPeriods>,
    answers: &mut MatchCache,
    silences: &Keyed<SilenceId, Silence>,
    changes: &[SilenceChange],
    at: Moment,
    labels: &Labels,
) -> Result<bool, AllocError>
    requires noted { AreNoted (map_of nat_cmp silences.now) changes.now }
    requires cached { IfSome place.old (IsCached (map_of nat_cmp silences.now) changes.now) }
    ensures { IfSome place.new (IsCached (map_of nat_cmp silences.now) changes.now) }
{
    match place {
        Some(cached) if cached.from <= at && cached.labels == *labels => {
            cached.catch_up(answers, silences, changes, at)?;
            Ok(true)
        }
        _ => Ok(false),
    }
}
