//! Readers for the members and items of a JSON value, one for each shape. A member that is `null`
//! counts as absent. The other files of `read` call them.
#![tactic(auto, unfolding(crate::specs::Read::Readings::next))]

ghost use Rattle.std.specs.Prelude.{◌≡◌, ℕ, Bool, List, option_map};
ghost use Rattle.std.specs.Ordering.{eq_by_cmp};
ghost use Rattle.amr_labels.specs.Labels.{text_cmp};
ghost use Rattle.serde_json.specs.View.{view, items_view};
ghost use Rattle.amr_config.specs.Read.Paths.{path_text};
ghost use Rattle.amr_config.specs.Read.Answers.{Gives, Changes};
ghost use Rattle.amr_config.specs.Read.Members.{member_of, optional_member, text_at, flag_at, items_at, span_at, text_into, texts_at};

use crate::read::error::ConfigError;
use crate::read::value_path::ValuePath;
use amr_labels::{Listing, Text};
use amr_time::Span;
use serde_json::Value;
use std::alloc::Global;
use std::cmp::Ordering;

/// Returns whether two texts are equal.
pub(crate) fn same(text: &str, other: &str) -> bool
    ensures { result ≡ eq_by_cmp text_cmp text.now other.now }
{
    text.cmp(other) == Ordering::Equal
}

/// Returns the member of an object under a key, unless it is `null`. Returns `None` for a value
/// that isn't an object.
#[tactic(auto, unfolding(crate::specs::Read::Members::member_of))]
pub(crate) fn member<'v>(value: &'v Value, key: &str) -> Option<&'v Value>
    ensures { option_map (λ v. view v.now) result ≡ member_of key.now (view value.now) }
{
    match value.get(key) {
        Some(Value::Null) => None,
        found => found,
    }
}

/// Returns a value that must be a text.
pub(crate) fn text<'v>(
    alloc: Global,
    path: &ValuePath,
    value: &'v Value,
) -> Result<&'v str, ConfigError>
    ensures { Gives (λ s. s.now) result (text_at (path_text path.now) (view value.now)) }
{
    match value.as_str() {
        Some(text) => Ok(text),
        None => Err(path.faulty(alloc)),
    }
}

/// Returns a value that must be a boolean.
fn flag(alloc: Global, path: &ValuePath, value: &Value) -> Result<bool, ConfigError>
    ensures { Gives (λ b. b) result (flag_at (path_text path.now) (view value.now)) }
{
    match value.as_bool() {
        Some(flag) => Ok(flag),
        None => Err(path.faulty(alloc)),
    }
}

/// Returns the items of a value that must be a list.
pub(crate) fn items<'v>(
    alloc: Global,
    path: &ValuePath,
    value: &'v Value,
) -> Result<&'v [Value], ConfigError>
    ensures { Gives (λ s. items_view s.now) result
        (items_at (path_text path.now) (view value.now)) }
{
    match value.as_array() {
        Some(items) => Ok(items),
        None => Err(path.faulty(alloc)),
    }
}

/// Reads a duration, as Alertmanager writes it, such as `1h30m`.
#[tactic(auto, unfolding(crate::specs::Read::Members::span_at, crate::specs::Read::Readings::next))]
fn span(alloc: Global, path: &ValuePath, value: &Value) -> Result<Span, ConfigError>
    ensures { Gives (λ n. n) result (span_at (path_text path.now) (view value.now)) }
{
    match Span::read(text(alloc, path, value)?) {
        Ok(span) => Ok(span),
        Err(_) => Err(path.faulty(alloc)),
    }
}

/// Appends the text at an index of a list.
#[tactic(auto, unfolding(crate::specs::Read::Members::text_into, crate::specs::Read::Readings::next))]
fn text_item(
    alloc: Global,
    path: &ValuePath,
    index: usize,
    item: &Value,
    texts: &mut Listing<Text>,
) -> Result<(), ConfigError>
    ensures { Changes (λ ts. ts) result texts.new
        (text_into (path_text path.now) index (view item.now) texts.old) }
{
    let text = text(alloc, &ValuePath::Item(path, index), item)?;
    texts.push(Text::from_str(alloc, text)?)?;
    Ok(())
}

/// Reads a list of texts.
#[tactic(auto, unfolding(crate::specs::Read::Members::texts_at, crate::specs::Read::Readings::next))]
fn texts(alloc: Global, path: &ValuePath, value: &Value) -> Result<Listing<Text>, ConfigError>
    ensures { Gives (λ ts. ts) result (texts_at (path_text path.now) (view value.now)) }
{
    let items = items(alloc, path, value)?;
    let mut texts = Listing::new(alloc);
    for (index, item) in items.iter().enumerate() {
        text_item(alloc, path, index, item, &mut texts)?;
    }
    Ok(texts)
}

/// Reads the boolean under a key; `None` if there is no such member.
pub(crate) fn flag_member(
    alloc: Global,
    path: &ValuePath,
    value: &Value,
    key: &str,
) -> Result<Option<bool>, ConfigError>
    ensures { Gives (λ b. b) result
        (optional_member flag_at (path_text path.now) key.now (view value.now)) }
{
    match member(value, key) {
        Some(found) => Ok(Some(flag(alloc, &ValuePath::Member(path, key), found)?)),
        None => Ok(None),
    }
}

/// Reads the duration under a key; `None` if there is no such member.
pub(crate) fn span_member(
    alloc: Global,
    path: &ValuePath,
    value: &Value,
    key: &str,
) -> Result<Option<Span>, ConfigError>
    ensures { Gives (λ b. b) result
        (optional_member span_at (path_text path.now) key.now (view value.now)) }
{
    match member(value, key) {
        Some(found) => Ok(Some(span(alloc, &ValuePath::Member(path, key), found)?)),
        None => Ok(None),
    }
}

/// Reads the text under a key; `None` if there is no such member.
pub(crate) fn text_member(
    alloc: Global,
    path: &ValuePath,
    value: &Value,
    key: &str,
) -> Result<Option<Text>, ConfigError>
    ensures { Gives (λ s. s) result
        (optional_member text_at (path_text path.now) key.now (view value.now)) }
{
    match member(value, key) {
        Some(found) => {
            let text = text(alloc, &ValuePath::Member(path, key), found)?;
            Ok(Some(Text::from_str(alloc, text)?))
        }
        None => Ok(None),
    }
}

/// Reads the list of texts under a key; `None` if there is no such member.
pub(crate) fn texts_member(
    alloc: Global,
    path: &ValuePath,
    value: &Value,
    key: &str,
) -> Result<Option<Listing<Text>>, ConfigError>
    ensures { Gives (λ s. s) result
        (optional_member texts_at (path_text path.now) key.now (view value.now)) }
{
    match member(value, key) {
        Some(found) => Ok(Some(texts(alloc, &ValuePath::Member(path, key), found)?)),
        None => Ok(None),
    }
}
