//! Muting: inhibition rules and silences. Each function returns what mutes, so that an explanation
//! can name it. The stages of a flush call `inhibited_by`, and `SilenceTable` of `amr_engine` calls
//! `silenced_by` for label sets of which it caches nothing.
ghost use Rattle.std.specs.Prelude.{◌≡◌, true, map, IfOk, is_some};
ghost use Rattle.std.specs.List.{list_all};
ghost use Rattle.std.specs.Option.{option_copied};
ghost use Rattle.std.specs.Ordering.{nat_cmp};
ghost use Rattle.std.specs.Map.Iter.{deref_pair};
ghost use Rattle.amr_labels.specs.Matcher.Matchers.{all_hold};
ghost use Rattle.amr_config.specs.Stated.RuleMatches.{rule_match, rule_matches};
ghost use Rattle.amr_tables.specs.Numbered.{map_of};
ghost use Rattle.amr_rules.specs.Muting.{has_value, agree_on, is_agreeing, first_source, rule_mutes, is_inhibited, inhibitor_by, inhibition_from, silences_labels, is_silenced, silencer_of};

use crate::alert::Alert;
use crate::alert_store::AlertStore;
use crate::silence::Silence;
use amr_config::stated::{InhibitRule, RuleMatch};
use amr_events::posts::SilenceId;
use amr_labels::matcher::MatchCache;
use amr_labels::{Labels, Text};
use amr_tables::Keyed;
use amr_time::Moment;
use std::alloc::{AllocError, Global};
use std::cmp::Ordering;

/// Returns the least id of a silence that mutes labels at a moment, or `None` if no silence does.
#[tactic(auto, using(std::proofs::lemmas::Grind::common_steps, crate::proofs::MutingLaws::named))]
pub fn silenced_by(
    alloc: Global,
    silences: &Keyed<SilenceId, Silence>,
    now: Moment,
    labels: &Labels,
) -> Result<Option<SilenceId>, AllocError>
    ensures named { IfOk result (λ found. found
        ≡ silencer_of now labels.now (map_of nat_cmp silences.now)) }
    ensures exactly { IfOk result (λ found. is_silenced (map_of nat_cmp silences.now) now labels.now
        ≡ is_some found) }
{
    let stored = silences.sorted(alloc)?;
    for &(id, silence) in stored.as_slice() {
        if silences_labels(alloc, now, silence, labels)? {
            return Ok(Some(*id));
        }
    }
    Ok(None)
}

/// Returns whether a silence is active and matches the labels.
fn silences_labels(
    alloc: Global,
    now: Moment,
    silence: &Silence,
    labels: &Labels,
) -> Result<bool, AllocError>
    ensures { IfOk result (λ mutes. mutes ≡ silences_labels now silence.now labels.now) }
{
    if !silence.is_active_at(now) {
        return Ok(false);
    }
    silence
        .matchers
        .matches_all(&mut MatchCache::none(alloc), labels)
}

/// Returns what inhibits labels at a moment: the index of the first rule that does, from 0, and the
/// least label set of a stored alert by which it does. Returns `None` if nothing inhibits them
/// (`inhibit_rules` of Alertmanager's configuration). `matched` says which sides of each rule the
/// labels are on (`rule_matches` of `amr_config`), so no matcher is asked for them.
#[tactic(auto, using(std::proofs::lemmas::Grind::common_steps, crate::proofs::MutingLaws::named))]
pub fn inhibited_by<A: AlertStore>(
    alloc: Global,
    rules: &[InhibitRule],
    matched: &[RuleMatch],
    alerts: &A,
    now: Moment,
    target: &Labels,
) -> Result<Option<(usize, Labels)>, AllocError>
    requires { matched.now ≡ rule_matches target.now rules.now }
    ensures named { IfOk result (λ found. found
        ≡ inhibition_from 0 now target.now (A.alerts alerts.now) rules.now) }
    ensures exactly { IfOk result (λ found.
        is_inhibited rules.now (A.alerts alerts.now) now target.now ≡ is_some found) }
{
    for (index, rule) in rules.iter().enumerate() {
        if let Some(source) = inhibitor_by(
            alloc,
            now,
            target,
            alerts,
            index,
            rule,
            matched[index],
        )? {
            return Ok(Some((index, source.clone()?)));
        }
    }
    Ok(None)
}

/// Returns the least label set of a stored alert that mutes a target by the rule at an index of the
/// configuration. `side` says which sides of the rule the target is on.
fn inhibitor_by<'a, A: AlertStore>(
    alloc: Global,
    now: Moment,
    target: &Labels,
    alerts: &'a A,
    index: usize,
    rule: &InhibitRule,
    side: RuleMatch,
) -> Result<Option<&'a Labels>, AllocError>
    requires { side ≡ rule_match target.now rule.now }
    ensures { IfOk result (λ found. option_copied found
        ≡ inhibitor_by now target.now (A.alerts alerts.now) rule.now) }
{
    if !side.is_target {
        return Ok(None);
    }
    let sources = alerts.sources(alloc, index, rule, target)?;
    first_source(alloc, now, target, side.is_source, &sources, rule)
}

/// Returns the labels of the first of these alerts that mutes a target that the rule's target
/// matchers match. A resolved alert never does. Each of the alerts matches the rule's source
/// matchers and agrees with the target on the labels in `equal`, so neither is asked again.
fn first_source<'a>(
    alloc: Global,
    now: Moment,
    target: &Labels,
    is_source: bool,
    sources: &[(&'a Labels, &'a Alert)],
    rule: &InhibitRule,
) -> Result<Option<&'a Labels>, AllocError>
    requires target { all_hold rule.now.target target.now ≡ true }
    requires source { is_source ≡ all_hold rule.now.source target.now }
    requires agreeing { list_all (λ source. is_agreeing rule.now target.now source.0)
        (map deref_pair sources.now) ≡ true }
    ensures { IfOk result (λ found. option_copied found
        ≡ first_source now rule.now target.now (map deref_pair sources.now)) }
{
    for &(labels, alert) in sources {
        if !alert.is_resolved_at(now) && mutes_target(alloc, rule, labels, target, is_source)? {
            return Ok(Some(labels));
        }
    }
    Ok(None)
}

/// Returns whether a rule lets a source mute a target that its target matchers match, given that
/// the source matches the rule's source matchers and agrees with the target on the labels in
/// `equal`. An alert that matches both sides of a rule isn't muted by another such alert, nor by
/// itself, as in Alertmanager.
fn mutes_target(
    alloc: Global,
    rule: &InhibitRule,
    source: &Labels,
    target: &Labels,
    is_source: bool,
) -> Result<bool, AllocError>
    requires target { all_hold rule.now.target target.now ≡ true }
    requires source { is_source ≡ all_hold rule.now.source target.now }
    requires agreeing { is_agreeing rule.now target.now source.now ≡ true }
    ensures { IfOk result (λ mutes. mutes ≡ rule_mutes rule.now source.now target.now) }
{
    if !is_source {
        return Ok(true);
    }
    let is_target = rule
        .target
        .matches_all(&mut MatchCache::none(alloc), source)?;
    Ok(!is_target)
}

/// Returns whether a label set matches the source matchers of a rule and agrees with a target on
/// the labels in `equal`. The labels are compared first, because a pattern costs far more.
pub fn is_agreeing(
    alloc: Global,
    rule: &InhibitRule,
    target: &Labels,
    source: &Labels,
) -> Result<bool, AllocError>
    ensures { IfOk result (λ agrees. agrees ≡ is_agreeing rule.now target.now source.now) }
{
    if !agree_on(rule.equal.as_slice(), source, target) {
        return Ok(false);
    }
    rule.source
        .matches_all(&mut MatchCache::none(alloc), source)
}

/// Returns whether each of these labels (`equal` of an inhibition rule) has the same value in both
/// sets, an absent label being empty.
fn agree_on(names: &[Text], a: &Labels, b: &Labels) -> bool
    ensures { result ≡ agree_on names.now a.now b.now }
{
    names
        .iter()
        .all(|name| has_value(a, name, b.value_of(name.as_str())))
}

/// Returns whether a label has a value, an absent label being empty.
fn has_value(labels: &Labels, name: &Text, value: &str) -> bool
    ensures { result ≡ has_value name.now value.now labels.now }
{
    labels.value_of(name.as_str()).cmp(value) == Ordering::Equal
}
