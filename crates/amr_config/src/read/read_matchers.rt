//! Reads the matchers of a route, or of one side of an inhibition rule, in both forms of
//! Alertmanager's configuration reference: objects of labels, and lists of matcher texts.
//! `read_routes.rt` and `read_rules.rt` call `read_matchers`.
ghost use Rattle.std.specs.Prelude.{◌≡◌, [], ◌∷◌, ◌++◌, OnOk};
ghost use Rattle.serde_json.specs.View.{view};
ghost use Rattle.amr_labels.specs.Matcher.MatcherReading.{matchers_of};
ghost use Rattle.amr_config.specs.Read.Paths.{path_text};
ghost use Rattle.amr_config.specs.Read.Answers.{Reads, ReadsInto};
ghost use Rattle.amr_config.specs.Read.ReadMatchers.{matcher_at, matcher_into, members_into, stated_into, object_into, spelled_at, spelled_into, texts_into, list_into, matchers_at};

use crate::read::error::ConfigError;
use crate::read::members::{items, member, text};
use crate::read::value_path::ValuePath;
use amr_labels::Text;
use amr_labels::matcher::{Matcher, MatcherError, Matchers, Operator, Patterns};
use serde_json::Value;
use std::alloc::{AllocError, Global};

/// Reads the matchers under three keys, in this order: an object of values, an object of patterns,
/// and a list of matcher texts.
#[tactic(auto, unfolding(crate::specs::Read::ReadMatchers::matchers_at, crate::specs::Read::Readings::next))]
pub(crate) fn read_matchers(
    alloc: Global,
    built: &mut Patterns,
    path: &ValuePath,
    equal: &str,
    patterns: &str,
    texts: &str,
    value: &Value,
) -> Result<Matchers, ConfigError>
    ensures { Reads (λ ms. ms) result
        (matchers_at (path_text path.now) equal.now patterns.now texts.now (view value.now)) }
{
    let mut matchers = Vec::new(alloc);
    add_object(
        alloc,
        built,
        Operator::Equal,
        path,
        value,
        equal,
        &mut matchers,
    )?;
    add_object(
        alloc,
        built,
        Operator::Matches,
        path,
        value,
        patterns,
        &mut matchers,
    )?;
    add_list(alloc, built, path, value, texts, &mut matchers)?;
    Ok(Matchers::from_vec(alloc, matchers)?)
}

/// Appends the matchers of the list of matcher texts under a key, if there is one.
#[tactic(auto, unfolding(crate::specs::Read::ReadMatchers::list_into))]
fn add_list(
    alloc: Global,
    built: &mut Patterns,
    path: &ValuePath,
    value: &Value,
    key: &str,
    matchers: &mut Vec<Matcher>,
) -> Result<(), ConfigError>
    ensures { ReadsInto (λ ms. ms.items) result matchers.new
        (list_into (path_text path.now) key.now (view value.now) matchers.old.items) }
{
    match member(value, key) {
        Some(found) => add_texts(alloc, built, &ValuePath::Member(path, key), found, matchers),
        None => Ok(()),
    }
}

/// Appends the matchers of a list of matcher texts.
#[tactic(auto, unfolding(crate::specs::Read::ReadMatchers::texts_into, crate::specs::Read::Readings::next))]
fn add_texts(
    alloc: Global,
    built: &mut Patterns,
    path: &ValuePath,
    value: &Value,
    matchers: &mut Vec<Matcher>,
) -> Result<(), ConfigError>
    ensures { ReadsInto (λ ms. ms.items) result matchers.new
        (texts_into (path_text path.now) (view value.now) matchers.old.items) }
{
    let items = items(alloc, path, value)?;
    for (index, item) in items.iter().enumerate() {
        add_text(alloc, built, path, index, item, matchers)?;
    }
    Ok(())
}

/// Appends the matchers of the matcher text at an index of a list.
#[tactic(auto, unfolding(crate::specs::Read::ReadMatchers::spelled_into, crate::specs::Read::Readings::next))]
fn add_text(
    alloc: Global,
    built: &mut Patterns,
    path: &ValuePath,
    index: usize,
    value: &Value,
    matchers: &mut Vec<Matcher>,
) -> Result<(), ConfigError>
    ensures { ReadsInto (λ ms. ms.items) result matchers.new
        (spelled_into (path_text path.now) index (view value.now) matchers.old.items) }
{
    let here = ValuePath::Item(path, index);
    let text = text(alloc, &here, value)?;
    let more = spelled(alloc, built, &here, text)?;
    add_all(matchers, more.as_slice())?;
    Ok(())
}

/// Appends copies of matchers.
fn add_all(matchers: &mut Vec<Matcher>, more: &[Matcher]) -> Result<(), AllocError>
    ensures { OnOk result (matchers.new.items ≡ matchers.old.items ++ more.now) }
{
    for matcher in more {
        matchers.push(matcher.clone()?)?;
    }
    Ok(())
}

/// Parses the text of matchers at a path.
fn spelled(
    alloc: Global,
    built: &mut Patterns,
    path: &ValuePath,
    text: &str,
) -> Result<Matchers, ConfigError>
    ensures { Reads (λ ms. ms) result (spelled_at (path_text path.now) (matchers_of text.now)) }
{
    match built.matchers_of(alloc, text) {
        Ok(matchers) => Ok(matchers),
        Err(MatcherError::Memory) => Err(ConfigError::Memory),
        Err(MatcherError::BadMatcher { at: _ }) => Err(path.faulty(alloc)),
        Err(MatcherError::BadPattern) => Err(path.faulty(alloc)),
    }
}

/// Appends the matchers of the object of labels under a key, if there is one.
#[tactic(auto, unfolding(crate::specs::Read::ReadMatchers::object_into))]
fn add_object(
    alloc: Global,
    built: &mut Patterns,
    operator: Operator,
    path: &ValuePath,
    value: &Value,
    key: &str,
    matchers: &mut Vec<Matcher>,
) -> Result<(), ConfigError>
    ensures { ReadsInto (λ ms. ms.items) result matchers.new
        (object_into operator (path_text path.now) key.now (view value.now) matchers.old.items) }
{
    match member(value, key) {
        Some(found) => add_members(
            alloc,
            built,
            operator,
            &ValuePath::Member(path, key),
            found,
            matchers,
        ),
        None => Ok(()),
    }
}

/// Appends the matchers of an object of labels, by name.
#[tactic(auto, unfolding(crate::specs::Read::ReadMatchers::members_into, crate::specs::Read::Readings::next))]
fn add_members(
    alloc: Global,
    built: &mut Patterns,
    operator: Operator,
    path: &ValuePath,
    value: &Value,
    matchers: &mut Vec<Matcher>,
) -> Result<(), ConfigError>
    ensures { ReadsInto (λ ms. ms.items) result matchers.new
        (members_into operator (path_text path.now) (view value.now) matchers.old.items) }
{
    let Some(members) = value.as_object() else {
        return Err(path.faulty(alloc));
    };
    for (key, value) in members {
        add_member(alloc, built, operator, path, key.as_str(), value, matchers)?;
    }
    Ok(())
}

/// Appends the matcher of a member of an object of labels, unless it is `null`.
#[tactic(auto, unfolding(crate::specs::Read::ReadMatchers::matcher_into, crate::specs::Read::Readings::next))]
fn add_member(
    alloc: Global,
    built: &mut Patterns,
    operator: Operator,
    path: &ValuePath,
    name: &str,
    value: &Value,
    matchers: &mut Vec<Matcher>,
) -> Result<(), ConfigError>
    ensures { ReadsInto (λ ms. ms.items) result matchers.new
        (matcher_into operator (path_text path.now) name.now (view value.now)
        matchers.old.items) }
{
    if value.is_null() {
        return Ok(());
    }
    add_stated(
        alloc,
        built,
        operator,
        &ValuePath::Member(path, name),
        name,
        value,
        matchers,
    )
}

/// Appends the matcher of a label whose value isn't `null`.
#[tactic(auto, unfolding(crate::specs::Read::ReadMatchers::stated_into, crate::specs::Read::Readings::next))]
fn add_stated(
    alloc: Global,
    built: &mut Patterns,
    operator: Operator,
    path: &ValuePath,
    name: &str,
    value: &Value,
    matchers: &mut Vec<Matcher>,
) -> Result<(), ConfigError>
    ensures { ReadsInto (λ ms. ms.items) result matchers.new
        (stated_into operator (path_text path.now) name.now (view value.now) matchers.old.items) }
{
    let value = text(alloc, path, value)?;
    let made = matcher(alloc, built, operator, path, name, value)?;
    matchers.push(made)?;
    Ok(())
}

/// Builds the matcher of a label's name and value. Fails for an empty name, or a pattern that isn't
/// valid.
#[tactic(auto, unfolding(crate::specs::Read::ReadMatchers::matcher_at))]
fn matcher(
    alloc: Global,
    built: &mut Patterns,
    operator: Operator,
    path: &ValuePath,
    name: &str,
    value: &str,
) -> Result<Matcher, ConfigError>
    ensures { Reads (λ m. m
        ∷ []) result (matcher_at operator (path_text path.now) name.now value.now) }
{
    if name.is_empty() {
        return Err(path.faulty(alloc));
    }
    let name = Text::from_str(alloc, name)?;
    let value = Text::from_str(alloc, value)?;
    match Matcher::new(built, name, operator, value) {
        Ok(matcher) => Ok(matcher),
        Err(MatcherError::Memory) => Err(ConfigError::Memory),
        Err(_) => Err(path.faulty(alloc)),
    }
}
