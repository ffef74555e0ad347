//! The silences that match each of many label sets. The state asks for label sets of which nobody
//! asked yet, many at a time.
ghost use Rattle.std.specs.Prelude.{◌≡◌, ◌≤◌, [], length, map, IfOk, OnOk};
ghost use Rattle.amr_time.specs.Time.{Moment};
ghost use Rattle.amr_rules.specs.Silences.{Silences};
ghost use Rattle.amr_rules.specs.SilencePeriods.{added_where, periods_among, silence_periods, unexpired_silences};

use crate::silence::Silence;
use crate::silence_period::SilencePeriod;
use amr_events::posts::SilenceId;
use amr_labels::matcher::bits_of;
use amr_labels::{Labels, Listing};
use amr_time::Moment;
use std::alloc::{AllocError, Global};

/// Lists for each of these label sets those of these silences that match it and aren't expired at a
/// moment, with their periods. It asks one silence after the other: a search that is prepared for a
/// pattern serves all label sets, and their bits are made once for all silences.
pub fn periods_of_each(
    alloc: Global,
    listed: &[(SilenceId, Silence)],
    from: Moment,
    label_sets: &[Labels],
) -> Result<Vec<Listing<SilencePeriod>>, AllocError>
    ensures among { IfOk result (λ each. each.items
        ≡ map (λ labels. periods_among from labels listed.now) label_sets.now) }
    ensures all { IfOk result (λ each. (earlier : Moment) (silences : Silences)
        → earlier ≤ from → listed.now ≡ unexpired_silences earlier silences
        → each.items ≡ map (λ labels. silence_periods from labels silences) label_sets.now) }
{
    let bits = bits_of(alloc, label_sets)?;
    let mut each = none_for_each(alloc, label_sets)?;
    for (id, silence) in listed {
        if !silence.is_expired_at(from) {
            let matches = silence.matchers.match_each(alloc, label_sets, &bits)?;
            add_where(
                &mut each,
                matches.as_slice(),
                &SilencePeriod::of(*id, silence),
            )?;
        }
    }
    Ok(each)
}

/// Makes an empty list for each of these label sets.
fn none_for_each(
    alloc: Global,
    label_sets: &[Labels],
) -> Result<Vec<Listing<SilencePeriod>>, AllocError>
    ensures { IfOk result (λ each. each.items ≡ map (λ labels. []) label_sets.now) }
{
    label_sets
        .iter()
        .map(|_labels| Listing::new(alloc))
        .collect(alloc)
}

/// Appends the period of a silence to the lists of the label sets that it matches.
fn add_where(
    each: &mut [Listing<SilencePeriod>],
    matches: &[bool],
    period: &SilencePeriod,
) -> Result<(), AllocError>
    requires { length each.old ≡ length matches.now }
    ensures { OnOk result (each.new ≡ added_where period.now matches.now each.old) }
{
    for (index, is_match) in matches.iter().enumerate() {
        if *is_match {
            each[index].push(*period)?;
        }
    }
    Ok(())
}
