//! Reading parts of JSON values: members, texts, booleans and moments. Each function fails if the
//! value has another shape.
ghost use Rattle.std.specs.Prelude.{◌≡◌, ◌≤◌, option_map, IfOk};
ghost use Rattle.serde_json.specs.View.{view};
ghost use Rattle.serde_json.specs.Find.{get};
ghost use Rattle.amr_events.specs.Answers.{Reads};
ghost use Rattle.amr_time.specs.Time.{latest_read};
ghost use Rattle.amr_config.specs.Read.Members.{unless_null};
ghost use Rattle.amr_events.specs.Shapes.{named_text, texts_in, text_under, flag_under, moment_under};

use crate::error::LineError;
use amr_labels::Text;
use amr_time::{Moment, read_moment};
use serde_json::Value;
use std::alloc::Global;

/// Returns the member of an object under a key, unless it is `null`.
pub(crate) fn member<'v>(value: &'v Value, key: &str) -> Option<&'v Value>
    ensures { option_map (λ v. view v.now) result ≡ unless_null (get key.now (view value.now)) }
{
    match value.get(key) {
        Some(Value::Null) => None,
        found => found,
    }
}

/// Reads a text, and returns it with its name.
#[tactic(auto, unfolding(crate::specs::Shapes::named_text))]
fn named_text(alloc: Global, name: &str, value: &Value) -> Result<(Text, Text), LineError>
    ensures { Reads (λ pair. pair) result (named_text name.now (view value.now)) }
{
    let text = value.as_str().ok_or(LineError::Faulty)?;
    Ok((Text::from_str(alloc, name)?, Text::from_str(alloc, text)?))
}

/// Reads an object of texts, and returns its names and texts in the order of the names.
#[tactic(auto, unfolding(crate::specs::Shapes::texts_in))]
pub(crate) fn texts(alloc: Global, value: &Value) -> Result<Vec<(Text, Text)>, LineError>
    ensures { Reads (λ v. v.items) result (texts_in (view value.now)) }
{
    let members = value.as_object().ok_or(LineError::Faulty)?;
    let mut texts = Vec::with_capacity(alloc, members.len())?;
    for (name, value) in members {
        texts.push(named_text(alloc, name, value)?)?;
    }
    Ok(texts)
}

/// Reads the text under a key.
#[tactic(auto, unfolding(crate::specs::Shapes::text_under))]
pub(crate) fn text(alloc: Global, value: &Value, key: &str) -> Result<Text, LineError>
    ensures { Reads (λ text. text) result (text_under key.now (view value.now)) }
{
    let stated = value.get(key).ok_or(LineError::Faulty)?;
    let text = stated.as_str().ok_or(LineError::Faulty)?;
    Ok(Text::from_str(alloc, text)?)
}

/// Reads the boolean under a key, or returns the default if the key is absent.
#[tactic(auto, unfolding(crate::specs::Shapes::flag_under))]
pub(crate) fn flag(value: &Value, key: &str, default: bool) -> Result<bool, LineError>
    ensures { Reads (λ flag. flag) result (flag_under key.now default (view value.now)) }
{
    match value.get(key) {
        Some(stated) => stated.as_bool().ok_or(LineError::Faulty),
        None => Ok(default),
    }
}

/// Reads the moment under a key, in RFC 3339.
#[tactic(auto, unfolding(crate::specs::Shapes::moment_under))]
pub(crate) fn moment(value: &Value, key: &str) -> Result<Moment, LineError>
    ensures value { Reads (λ m. m) result (moment_under key.now (view value.now)) }
    ensures bound { IfOk result (λ m. m ≤ latest_read) }
{
    let stated = value.get(key).ok_or(LineError::Faulty)?;
    let text = stated.as_str().ok_or(LineError::Faulty)?;
    let moment = read_moment(text)?;
    Ok(moment)
}
