//! Reading a line of a script: an object with a moment and exactly one action. `read_event` in
//! `script.rt` says which keys it has.
ghost use Rattle.std.specs.Prelude.{◌≡◌, ◌≤◌, codes, option_map, IfOk};
ghost use Rattle.serde_json.specs.Data.{depth};
ghost use Rattle.serde_json.specs.Read.{max_depth};
ghost use Rattle.serde_json.specs.View.{view};
ghost use Rattle.amr_events.specs.Answers.{Reads, ReadsSuch};
ghost use Rattle.amr_events.specs.Actions.Acts.{by_number, act_of};
ghost use Rattle.amr_events.specs.Actions.Events as events;
ghost use Rattle.amr_events.specs.Lines.{json_of, count_of as count_in, label_in, act_count as count_of_acts, tick_of, labelling_of, act_in, event_in, event_of_line};
ghost use Rattle.amr_events.specs.Refused.{ReloadIs, ActIs, EventIs, LineIs};

use crate::actions::{Act, Event};
use crate::error::LineError;
use crate::post_line::read_post;
use crate::posted::alerts;
use crate::posted_silence::{id, silence};
use crate::posts::Reason;
use crate::shapes::moment;
use crate::text_cache::TextCache;
use crate::version::Version;
use amr_config::Config;
use amr_config::read::{ConfigError, config_of};
use amr_labels::Text;
use json::Scratch;
use serde_json::Value;
use std::alloc::{AllocError, Global};

/// Reads the event of a line that is in no script.
pub(crate) fn read_single_line(
    alloc: Global,
    version: Version,
    line: &[u8],
) -> Result<Event, LineError>
    ensures { ReadsSuch (λ event. LineIs version line.now event) result
        (event_of_line version line.now) }
{
    let mut scratch = Scratch::new(alloc);
    let mut cache = TextCache::new(alloc);
    read_line(alloc, version, &mut scratch, &mut cache, line)
}

/// Reads the event of a line. It shares the texts of its alerts with those that were seen. A line
/// of the usual shape of a post is read without a JSON value.
#[tactic(auto, unfolding(crate::specs::Lines::event_of_line))]
pub(crate) fn read_line(
    alloc: Global,
    version: Version,
    scratch: &mut Scratch,
    cache: &mut TextCache,
    line: &[u8],
) -> Result<Event, LineError>
    ensures { ReadsSuch (λ event. LineIs version line.now event) result
        (event_of_line version line.now) }
{
    if let Some(event) = read_post(alloc, scratch, cache, line)? {
        return Ok(event);
    }
    let stated = json(alloc, line)?;
    event(alloc, version, cache, &stated)
}

/// Reads an event from its JSON value.
#[tactic(auto, unfolding(crate::specs::Lines::event_in))]
fn event(
    alloc: Global,
    version: Version,
    cache: &mut TextCache,
    line: &Value,
) -> Result<Event, LineError>
    requires { depth (view line.now) ≤ max_depth }
    ensures { ReadsSuch (λ event. EventIs version (view line.now) event) result
        (event_in version (view line.now)) }
{
    let at = moment(line, "at")?;
    let act = act(alloc, version, cache, line)?;
    Ok(Event::new(at, act))
}

/// Reads the action of the object. It fails unless there is exactly one.
#[tactic(auto, unfolding(crate::specs::Lines::act_in, crate::specs::Lines::post_of, crate::specs::Lines::silencing_of, crate::specs::Lines::expiry_of))]
fn act(
    alloc: Global,
    version: Version,
    cache: &mut TextCache,
    line: &Value,
) -> Result<Act, LineError>
    requires { depth (view line.now) ≤ max_depth }
    ensures { ReadsSuch (λ act. ActIs version (view line.now) (act_of act)) result
        (act_in version (view line.now)) }
{
    if act_count(version, line) != 1 {
        return Err(LineError::Faulty);
    }
    if let Some(stated) = line.get("alerts") {
        return Ok(Act::Post(alerts(alloc, cache, stated)?));
    }
    if let Some(stated) = line.get("silence") {
        let silence = silence(alloc, cache.patterns_for_line(), line, stated)?;
        return Ok(Act::Silence(Box::new(alloc, silence)?));
    }
    if let Some(stated) = line.get("expire") {
        return Ok(Act::Expire(id(stated)?));
    }
    if let Some(stated) = line.get("reload") {
        return Ok(Act::Reload(reload(alloc, cache, stated)?));
    }
    if let Some(stated) = line.get("tick") {
        tick(stated)?;
        return Ok(Act::Tick);
    }
    let stated = label_member(version, line).ok_or(LineError::Faulty)?;
    Ok(Act::Label(label(alloc, stated)?))
}

/// Returns the member under `label`. In version 1 `label` is no action, so there is none.
fn label_member(version: Version, line: &Value) -> Option<&Value>
    ensures { option_map (λ v. view v.now) result ≡ label_in version (view line.now) }
{
    match version {
        Version::One => None,
        Version::Two => line.get("label"),
    }
}

/// Reads a label, which is a text.
#[tactic(auto, unfolding(crate::specs::Lines::labelling_of))]
fn label(alloc: Global, value: &Value) -> Result<Text, LineError>
    ensures { Reads (λ text. events.Act.Label text) result (labelling_of (view value.now)) }
{
    let text = value.as_str().ok_or(LineError::Faulty)?;
    Ok(Text::from_str(alloc, text)?)
}

/// Reads the configuration of a reload, or returns why it can't be loaded. It shares the
/// configuration with that of an equal value that was read before.
fn reload(
    alloc: Global,
    cache: &mut TextCache,
    value: &Value,
) -> Result<Result<Config, Reason>, AllocError>
    requires { depth (view value.now) ≤ max_depth }
    ensures { IfOk result (λ read. ReloadIs (view value.now) (by_number read)) }
{
    let text = value.to_string(alloc)?;
    if let Some(cached) = cache.reloads.get(text.as_str())? {
        return Ok(Ok(cached));
    }
    match config_of(alloc, cache.patterns_for_line(), value) {
        Ok(config) => {
            cache.reloads.keep(text, &config)?;
            Ok(Ok(config))
        }
        Err(ConfigError::Refused(refusal)) => Ok(Err(Reason::BadReload(refusal.cause()))),
        Err(ConfigError::Memory) => Err(AllocError),
    }
}

/// Reads a tick, which must be `true`.
#[tactic(auto, unfolding(crate::specs::Lines::tick_of))]
fn tick(value: &Value) -> Result<(), LineError>
    ensures { Reads (λ _. events.Act.Tick) result (tick_of (view value.now)) }
{
    match value.as_bool() {
        Some(true) => Ok(()),
        _ => Err(LineError::Faulty),
    }
}

/// Returns how many actions the object has, on a line of this version.
#[tactic(auto, unfolding(crate::specs::Lines::act_count))]
fn act_count(version: Version, value: &Value) -> u64
    ensures { result ≡ count_of_acts version (view value.now) }
{
    count_of(value, "alerts")
        + count_of(value, "silence")
        + count_of(value, "expire")
        + count_of(value, "reload")
        + count_of(value, "tick")
        + u64::from(label_member(version, value).is_some())
}

/// Returns 1 if the object has the key, whatever its value, and else 0.
fn count_of(value: &Value, key: &str) -> u64
    ensures { result ≡ count_in key.now (view value.now) }
{
    u64::from(value.get(key).is_some())
}

/// Returns the JSON value that a text spells.
#[tactic(auto, unfolding(crate::specs::Lines::json_of))]
pub(crate) fn json(alloc: Global, line: &[u8]) -> Result<Value, LineError>
    ensures read { Reads view result (json_of line.now) }
    ensures nests { IfOk result (λ value. depth (view value) ≤ max_depth) }
{
    match Value::from_slice(alloc, line) {
        Ok(value) => Ok(value),
        Err(error) => {
            if error.is_memory() {
                Err(LineError::Memory)
            } else {
                Err(LineError::Faulty)
            }
        }
    }
}
