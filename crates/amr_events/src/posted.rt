//! Reading posted alerts from a line of a script. Only the shape is checked; whether an alert is
//! valid is decided when it is posted.
ghost use Rattle.std.specs.Prelude.{◌≡◌, option_map, IfErr};
ghost use Rattle.std.specs.Result.{result_ok};
ghost use Rattle.serde_json.specs.View.{view};
ghost use Rattle.amr_time.specs.declared.error.TimeError.TheVariants.{BadTime};
ghost use Rattle.amr_events.specs.Answers.{Reads};
ghost use Rattle.amr_events.specs.Posted.{is_missing as is_missing_text, time_of, time_in, annotations_in, alert_of, alerts_of};

use crate::error::LineError;
use crate::posts::{PostedAlert, PostedTime, lent};
use crate::shapes::{member, texts};
use crate::text_cache::TextCache;
use amr_labels::{Listing, TextMap};
use amr_time::{Moment, TimeError, read_moment};
use serde_json::Value;
use std::alloc::Global;

/// The first moment of the year 1, which Alertmanager writes for a missing time (Go's zero time).
const MISSING_MARKS: [&str; 10] = [
    "0001-01-01T00:00:00Z",
    "0001-01-01T00:00:00.0Z",
    "0001-01-01T00:00:00.00Z",
    "0001-01-01T00:00:00.000Z",
    "0001-01-01T00:00:00.0000Z",
    "0001-01-01T00:00:00.00000Z",
    "0001-01-01T00:00:00.000000Z",
    "0001-01-01T00:00:00.0000000Z",
    "0001-01-01T00:00:00.00000000Z",
    "0001-01-01T00:00:00.000000000Z",
];

/// Reads a list of posted alerts, in order.
#[tactic(auto, unfolding(crate::specs::Posted::alerts_of))]
pub(crate) fn alerts(
    alloc: Global,
    cache: &mut TextCache,
    value: &Value,
) -> Result<Listing<PostedAlert>, LineError>
    ensures { Reads (λ alerts. alerts) result (alerts_of (view value.now)) }
{
    let items = value.as_array().ok_or(LineError::Faulty)?;
    let mut alerts = Vec::with_capacity(alloc, items.len())?;
    for item in items {
        alerts.push(alert(alloc, cache, item)?)?;
    }
    Ok(Listing::from_vec(alerts))
}

/// Reads a posted alert.
#[tactic(auto, unfolding(crate::specs::Posted::alert_of))]
fn alert(alloc: Global, cache: &mut TextCache, alert: &Value) -> Result<PostedAlert, LineError>
    ensures { Reads (λ a. a) result (alert_of (view alert.now)) }
{
    let stated = alert.get("labels").ok_or(LineError::Faulty)?;
    let texts = texts(alloc, stated)?;
    let labels = cache.labels_of(alloc, lent(alloc, texts.as_slice())?.as_slice())?;
    let annotations = annotations(alloc, cache, alert)?;
    let starts_at = time(alert, "startsAt")?;
    let ends_at = time(alert, "endsAt")?;
    Ok(PostedAlert {
        labels,
        annotations,
        starts_at: PostedTime::new(starts_at),
        ends_at: PostedTime::new(ends_at),
    })
}

/// Reads the annotations of an alert; there may be none.
#[tactic(auto, unfolding(crate::specs::Posted::annotations_in))]
fn annotations(alloc: Global, cache: &mut TextCache, alert: &Value) -> Result<TextMap, LineError>
    ensures { Reads (λ a. a) result (annotations_in (view alert.now)) }
{
    let texts = match member(alert, "annotations") {
        Some(value) => texts(alloc, value)?,
        None => Vec::new(alloc),
    };
    Ok(cache.annotations_of(alloc, lent(alloc, texts.as_slice())?.as_slice())?)
}

/// Reads the time under a key, if the alert has one.
#[tactic(auto, unfolding(crate::specs::Posted::time_in))]
fn time(alert: &Value, key: &str) -> Result<Option<Moment>, TimeError>
    ensures value { result_ok result ≡ time_in key.now (view alert.now) }
    ensures refused { IfErr result (λ error. error ≡ BadTime) }
{
    match member(alert, key) {
        Some(value) => time_of(value.as_str().ok_or(TimeError::BadTime)?),
        None => Ok(None),
    }
}

/// Reads a time, which may be missing.
#[tactic(auto, unfolding(crate::specs::Posted::time_of))]
pub(crate) fn time_of(text: &str) -> Result<Option<Moment>, TimeError>
    ensures value { result_ok result ≡ time_of text.now }
    ensures refused { IfErr result (λ error. error ≡ BadTime) }
{
    if is_missing(text) {
        return Ok(None);
    }
    let moment = read_moment(text)?;
    Ok(Some(moment))
}

/// Returns whether the text means a missing time.
#[tactic(auto, unfolding(crate::specs::Posted::is_missing))]
fn is_missing(text: &str) -> bool
    ensures { result ≡ is_missing_text text.now }
{
    text.is_empty() || MISSING_MARKS.contains(&text)
}
