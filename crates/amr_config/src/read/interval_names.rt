//! Reads `active_time_intervals` and `mute_time_intervals` of a route: lists of names, each of
//! which the whole configuration defines. `read_routes.rt` calls `names_member`. The intervals
//! themselves are read in `read_intervals.rt`.
#![tactic(auto, unfolding(crate::specs::Read::Readings::next))]

ghost use Rattle.serde_json.specs.View.{view};
ghost use Rattle.amr_config.specs.Read.Paths.{path_text};
ghost use Rattle.amr_config.specs.Read.Answers.{Gives, Changes};
ghost use Rattle.amr_config.specs.Read.Members.{optional_member};
ghost use Rattle.amr_config.specs.Read.ReadIntervals.{name_into, names_at};

use crate::read::error::ConfigError;
use crate::read::members::{items, member, text};
use crate::read::value_path::ValuePath;
use crate::read::whole::Whole;
use amr_labels::{Listing, Text};
use serde_json::Value;
use std::alloc::Global;

/// Reads the list of names under a key; `None` if there is no such member. Fails with the path of
/// the first name that the configuration doesn't define.
pub(crate) fn names_member(
    alloc: Global,
    whole: &Whole,
    path: &ValuePath,
    value: &Value,
    key: &str,
) -> Result<Option<Listing<Text>>, ConfigError>
    ensures { Gives (λ s. s) result
        (optional_member (names_at (view whole.now.value.now)) (path_text path.now) key.now
        (view value.now)) }
{
    match member(value, key) {
        Some(found) => Ok(Some(names(alloc, whole, &ValuePath::Member(path, key), found)?)),
        None => Ok(None),
    }
}

/// Reads a list of names, each of which the whole configuration defines.
#[tactic(auto, unfolding(crate::specs::Read::ReadIntervals::names_at, crate::specs::Read::Readings::next))]
fn names(
    alloc: Global,
    whole: &Whole,
    path: &ValuePath,
    value: &Value,
) -> Result<Listing<Text>, ConfigError>
    ensures { Gives (λ ts. ts) result
        (names_at (view whole.now.value.now) (path_text path.now) (view value.now)) }
{
    let items = items(alloc, path, value)?;
    let mut names = Listing::new(alloc);
    for (index, item) in items.iter().enumerate() {
        add_name(alloc, whole, path, index, item, &mut names)?;
    }
    Ok(names)
}

/// Appends a name. Fails if the whole configuration doesn't define it.
#[tactic(auto, unfolding(crate::specs::Read::ReadIntervals::name_into, crate::specs::Read::Readings::next))]
fn add_name(
    alloc: Global,
    whole: &Whole,
    path: &ValuePath,
    index: usize,
    item: &Value,
    names: &mut Listing<Text>,
) -> Result<(), ConfigError>
    ensures { Changes (λ ts. ts) result names.new
        (name_into (view whole.now.value.now) (path_text path.now) index (view item.now)
        names.old) }
{
    let here = ValuePath::Item(path, index);
    let name = Text::from_str(alloc, text(alloc, &here, item)?)?;
    if !whole.defines(&name) {
        return Err(here.faulty(alloc));
    }
    names.push(name)?;
    Ok(())
}
