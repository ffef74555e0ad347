//! Reading posted silences from a line of a script. The shape is checked first, and patterns are
//! built last, each once.
ghost use Rattle.std.specs.Prelude.{◌≡◌, codes, option_map, IfOk, IfErr, Any};
ghost use Rattle.std.specs.List.{list_any};
ghost use Rattle.serde_json.specs.View.{view};
ghost use Rattle.serde_json.specs.Find.{get};
ghost use Rattle.amr_labels.specs.Labels.{is_empty};
ghost use Rattle.amr_labels.specs.Matcher.MatcherRefusals.{MayBeRefused, RefusedOnlyIf};
ghost use Rattle.amr_config.specs.Read.Members.{unless_null};
ghost use Rattle.amr_events.specs.Answers.{Reads, ReadsBut};
ghost use Rattle.amr_events.specs.PostedSilences.{operator_by, matcher_of, matchers_of, if_named, id_at, named_id as named_id_of, named_id_at, named_id_in, new_id_in, silence_of};
ghost use Rattle.amr_events.specs.Refused.{MatchersAre, SilenceIs};

use crate::error::LineError;
use crate::posts::{PostedSilence, SilenceId};
use crate::shapes::{flag, member, moment, text};
use amr_labels::Text;
use amr_labels::matcher::{Matcher, MatcherError, Matchers, Operator, Patterns};
use serde_json::Value;
use std::alloc::{AllocError, Global};
use std::marker::Model;

/// A matcher as the line has it. Its pattern isn't built yet.
#[derive(Drop)]
struct StatedMatcher {
    name: Text,
    operator: Operator,
    value: Text,
}

impl Model for StatedMatcher {
    ghost use Rattle.amr_labels.specs.Matcher.Matchers.{Matcher};

    ghost Value = { Matcher };

    ghost view = { λ stated. record { name = stated.name; operator = stated.operator; value = stated.value } };
}

/// Reads the silence that a line posts. The line has `newId` beside it.
#[tactic(auto, unfolding(crate::specs::PostedSilences::silence_of))]
pub(crate) fn silence(
    alloc: Global,
    patterns: &mut Patterns,
    line: &Value,
    silence: &Value,
) -> Result<PostedSilence, LineError>
    ensures { ReadsBut SilenceIs result (silence_of (view line.now) (view silence.now)) }
{
    let new_id = new_id(line)?;
    let id = changed_id(silence)?;
    let stated = matchers(alloc, silence.get("matchers").ok_or(LineError::Faulty)?)?;
    let starts_at = moment(silence, "startsAt")?;
    let ends_at = moment(silence, "endsAt")?;
    let matchers = built_matchers(alloc, patterns, stated.as_slice())?;
    Ok(PostedSilence {
        id,
        new_id,
        matchers,
        starts_at,
        ends_at,
    })
}

/// Reads the id for a new silence.
#[tactic(auto, unfolding(crate::specs::PostedSilences::new_id_in))]
fn new_id(line: &Value) -> Result<SilenceId, LineError>
    ensures { Reads (λ id. id) result (new_id_in (view line.now)) }
{
    id(line.get("newId").ok_or(LineError::Faulty)?)
}

/// Reads the id of the silence that the post updates, if it names one.
#[tactic(auto, unfolding(crate::specs::PostedSilences::named_id_in))]
fn changed_id(silence: &Value) -> Result<Option<SilenceId>, LineError>
    ensures { Reads (λ id. id) result (named_id_in (view silence.now)) }
{
    match member(silence, "id") {
        Some(value) => named_id(value.as_str().ok_or(LineError::Faulty)?),
        None => Ok(None),
    }
}

impl StatedMatcher {
    /// Builds the pattern.
    fn build(&self, patterns: &mut Patterns) -> Result<Matcher, MatcherError>
        ensures made { IfOk result (λ matcher. matcher ≡ self.now) }
        ensures refused { IfErr result (RefusedOnlyIf (MayBeRefused self.now)) }
    {
        Matcher::new(
            patterns,
            self.name.clone()?,
            self.operator,
            self.value.clone()?,
        )
    }
}

/// Reads an id from a text. The empty text names none, as in the API.
#[tactic(auto, unfolding(crate::specs::PostedSilences::named_id))]
fn named_id(text: &str) -> Result<Option<SilenceId>, LineError>
    ensures { Reads (λ id. id) result (named_id_of text.now) }
{
    if text.is_empty() {
        return Ok(None);
    }
    let id = SilenceId::read(text).ok_or(LineError::Faulty)?;
    Ok(Some(id))
}

/// Reads the id of a silence.
#[tactic(auto, unfolding(crate::specs::PostedSilences::id_at))]
pub(crate) fn id(value: &Value) -> Result<SilenceId, LineError>
    ensures { Reads (λ id. id) result (id_at (view value.now)) }
{
    let text = value.as_str().ok_or(LineError::Faulty)?;
    SilenceId::read(text).ok_or(LineError::Faulty)
}

/// Returns the matchers, or `None` if a name is empty or `regex` refuses a pattern.
fn built_matchers(
    alloc: Global,
    patterns: &mut Patterns,
    stated: &[StatedMatcher],
) -> Result<Option<Matchers>, AllocError>
    ensures { IfOk result (λ matchers. MatchersAre (if_named stated.now) matchers) }
{
    if some_nameless(stated) {
        return Ok(None);
    }
    match build(alloc, patterns, stated) {
        Ok(matchers) => Ok(Some(matchers)),
        Err(MatcherError::Memory) => Err(AllocError),
        Err(_) => Ok(None),
    }
}

/// Returns whether some matcher has an empty name.
fn some_nameless(stated: &[StatedMatcher]) -> bool
    ensures { result ≡ list_any (λ matcher. is_empty matcher.name) stated.now }
{
    stated.iter().any(|matcher| matcher.name.is_empty())
}

/// Builds the patterns, each once.
fn build(
    alloc: Global,
    patterns: &mut Patterns,
    stated: &[StatedMatcher],
) -> Result<Matchers, MatcherError>
    ensures made { IfOk result (λ matchers. matchers ≡ stated.now) }
    ensures refused { IfErr result (RefusedOnlyIf (Any MayBeRefused stated.now)) }
{
    let mut matchers = Vec::new(alloc);
    for matcher in stated {
        matchers.push(matcher.build(patterns)?)?;
    }
    Ok(Matchers::from_vec(alloc, matchers)?)
}

/// Reads a list of matchers, in order.
#[tactic(auto, unfolding(crate::specs::PostedSilences::matchers_of))]
fn matchers(alloc: Global, value: &Value) -> Result<Vec<StatedMatcher>, LineError>
    ensures { Reads (λ matchers. matchers.items) result (matchers_of (view value.now)) }
{
    let items = value.as_array().ok_or(LineError::Faulty)?;
    let mut matchers = Vec::new(alloc);
    for item in items {
        matchers.push(matcher(alloc, item)?)?;
    }
    Ok(matchers)
}

/// Reads a matcher, without building its pattern.
#[tactic(auto, unfolding(crate::specs::PostedSilences::matcher_of))]
fn matcher(alloc: Global, value: &Value) -> Result<StatedMatcher, LineError>
    ensures { Reads (λ matcher. matcher) result (matcher_of (view value.now)) }
{
    let name = text(alloc, value, "name")?;
    let own = text(alloc, value, "value")?;
    let is_regex = flag(value, "isRegex", false)?;
    let is_equal = flag(value, "isEqual", true)?;
    Ok(StatedMatcher {
        name,
        operator: operator(is_regex, is_equal),
        value: own,
    })
}

/// Returns the operator for `isRegex` and `isEqual` of the API.
fn operator(is_regex: bool, is_equal: bool) -> Operator
    ensures { result ≡ operator_by is_regex is_equal }
{
    match (is_regex, is_equal) {
        (false, true) => Operator::Equal,
        (false, false) => Operator::NotEqual,
        (true, true) => Operator::Matches,
        (true, false) => Operator::NotMatches,
    }
}
