//! A whole configuration with the names of the time intervals that it defines. They are collected
//! in an ordered set before the routes are read, so the time grows little faster than the number of
//! uses.
#![tactic(auto, unfolding(crate::specs::Read::Readings::next))]

ghost use Rattle.std.specs.Prelude.{◌≡◌, IfOk, OnOk};
ghost use Rattle.serde_json.specs.View.{view, items_view};
ghost use Rattle.amr_config.specs.Read.Members.{any_item};
ghost use Rattle.amr_config.specs.Read.ReadIntervals.{has_name, defines as defines_of, is_defined};
ghost use Rattle.amr_config.specs.Read.DefinedNames.{Adds, AreDefinedIn};

use crate::read::members::member;
use amr_labels::Text;
use serde_json::Value;
use std::alloc::{AllocError, Global};
use std::collections::BTreeSet;

/// The value of a whole configuration, and the names of the time intervals that it defines.
#[derive(Drop)]
pub(crate) struct Whole<'v> {
    value: &'v Value,
    names: BTreeSet<Text>,
    ghost defined: { AreDefinedIn (view value.now) names },
}

impl<'v> Whole<'v> {
    /// Collects the names of the intervals that a whole configuration defines.
    #[tactic(auto, unfolding(crate::specs::Read::ReadIntervals::is_defined))]
    pub(crate) fn new(alloc: Global, value: &'v Value) -> Result<Whole<'v>, AllocError>
        ensures { IfOk result (λ whole. whole.value.now ≡ value.now) }
    {
        let mut names = BTreeSet::new(alloc);
        add_names_under(alloc, "mute_time_intervals", value, &mut names)?;
        add_names_under(alloc, "time_intervals", value, &mut names)?;
        Ok(Whole { value, names })
    }

    /// Returns whether `mute_time_intervals` or `time_intervals` of the whole configuration defines
    /// the name.
    pub(crate) fn defines(&self, name: &Text) -> bool
        ensures { result ≡ is_defined (view self.now.value.now) name.now }
    {
        self.names.contains(name)
    }
}

/// Adds the names in the list under a key of the whole configuration.
#[tactic(auto, unfolding(crate::specs::Read::ReadIntervals::defines))]
fn add_names_under(
    alloc: Global,
    key: &str,
    whole: &Value,
    names: &mut BTreeSet<Text>,
) -> Result<(), AllocError>
    ensures { OnOk result (Adds names.old names.new (defines_of key.now (view whole.now))) }
{
    match member(whole, key).and_then(Value::as_array) {
        Some(items) => add_names(alloc, items, names),
        None => Ok(()),
    }
}

/// Adds the names of the items that are objects with a name.
fn add_names(alloc: Global, items: &[Value], names: &mut BTreeSet<Text>) -> Result<(), AllocError>
    ensures { OnOk result (Adds names.old names.new
        (λ name. any_item (has_name name) (items_view items.now))) }
{
    for item in items {
        add_name(alloc, item, names)?;
    }
    Ok(())
}

/// Adds the name of a value, if it is an object with a name.
#[tactic(auto, unfolding(crate::specs::Read::ReadIntervals::has_name))]
fn add_name(alloc: Global, value: &Value, names: &mut BTreeSet<Text>) -> Result<(), AllocError>
    ensures { OnOk result (Adds names.old names.new (λ name. has_name name (view value.now))) }
{
    if let Some(text) = member(value, "name").and_then(Value::as_str) {
        names.insert(Text::from_str(alloc, text)?)?;
    }
    Ok(())
}
