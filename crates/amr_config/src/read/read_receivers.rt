//! Reads the receivers of a configuration with their integrations, one for each entry of a list
//! such as `webhook_configs`. `read.rt` calls `read_receivers`. What an entry sends where is not
//! read, only whether it sends resolved alerts.
ghost use Rattle.std.specs.Prelude.{◌≡◌, ◌≤◌, length, option_map, OnOk};
ghost use Rattle.serde_json.specs.View.{view};
ghost use Rattle.amr_config.specs.Read.Paths.{path_text};
ghost use Rattle.amr_config.specs.Read.Answers.{Gives, Changes};
ghost use Rattle.amr_config.specs.Read.ReadReceivers.{is_sender as sender_of, is_keeper as keeper_of, default_of, entry_into, entries_at, is_on_side as is_on_side_of, kind_key as key_of, stated_entries as stated_of, with_entries, index_after, kind_into, kinds_at, name_at, receiver_at, receiver_into, receivers_list, receivers_at};

use crate::read::error::ConfigError;
use crate::read::members::{flag_member, items, member, same, text};
use crate::read::value_path::ValuePath;
use crate::stated::{Integration, Receiver};
use amr_labels::{Listing, Text};
use serde_json::Value;
use std::alloc::{AllocError, Global};
use std::cmp::Ordering;

/// Reads the receivers of a whole configuration; none if the member is absent.
#[tactic(auto, unfolding(crate::specs::Read::ReadReceivers::receivers_at, crate::specs::Read::Readings::next))]
pub(crate) fn read_receivers(alloc: Global, value: &Value) -> Result<Listing<Receiver>, ConfigError>
    ensures { Gives (λ rs. rs) result (receivers_at (view value.now)) }
{
    match member(value, "receivers") {
        Some(found) => receivers(
            alloc,
            &ValuePath::Member(&ValuePath::Top, "receivers"),
            found,
        ),
        None => Ok(Listing::new(alloc)),
    }
}

/// Reads a list of receivers.
#[tactic(auto, unfolding(crate::specs::Read::ReadReceivers::receivers_list, crate::specs::Read::Readings::next))]
fn receivers(
    alloc: Global,
    path: &ValuePath,
    value: &Value,
) -> Result<Listing<Receiver>, ConfigError>
    ensures { Gives (λ rs. rs) result (receivers_list (path_text path.now) (view value.now)) }
{
    let items = items(alloc, path, value)?;
    let mut receivers = Listing::new(alloc);
    for (index, item) in items.iter().enumerate() {
        add_receiver(alloc, path, index, item, &mut receivers)?;
    }
    Ok(receivers)
}

/// Appends the receiver at an index of a list.
#[tactic(auto, unfolding(crate::specs::Read::ReadReceivers::receiver_into, crate::specs::Read::Readings::next))]
fn add_receiver(
    alloc: Global,
    path: &ValuePath,
    index: usize,
    value: &Value,
    receivers: &mut Listing<Receiver>,
) -> Result<(), ConfigError>
    ensures { Changes (λ rs. rs) result receivers.new
        (receiver_into (path_text path.now) index (view value.now) receivers.old) }
{
    let receiver = read_receiver(alloc, &ValuePath::Item(path, index), value)?;
    receivers.push(receiver)?;
    Ok(())
}

/// Reads a receiver, by its keys in byte order.
#[tactic(auto, unfolding(crate::specs::Read::ReadReceivers::receiver_at, crate::specs::Read::Readings::next))]
fn read_receiver(alloc: Global, path: &ValuePath, value: &Value) -> Result<Receiver, ConfigError>
    ensures { Gives (λ r. r) result (receiver_at (path_text path.now) (view value.now)) }
{
    let mut integrations = Vec::new(alloc);
    add_kinds(alloc, true, path, value, &mut integrations)?;
    let here = ValuePath::Member(path, "name");
    let Some(found) = member(value, "name") else {
        return Err(here.faulty(alloc));
    };
    let name = Text::from_str(alloc, name(alloc, &here, found)?)?;
    add_kinds(alloc, false, path, value, &mut integrations)?;
    Ok(Receiver {
        name,
        integrations: Listing::from_vec(integrations),
    })
}

/// Returns the name of a receiver. Fails if it is empty.
#[tactic(auto, unfolding(crate::specs::Read::ReadReceivers::name_at, crate::specs::Read::Readings::next))]
fn name<'v>(alloc: Global, path: &ValuePath, value: &'v Value) -> Result<&'v str, ConfigError>
    ensures { Gives (λ s. s.now) result (name_at (path_text path.now) (view value.now)) }
{
    let text = text(alloc, path, value)?;
    if text.is_empty() {
        return Err(path.faulty(alloc));
    }
    Ok(text)
}

/// Adds the integrations whose keys sort before the key `name`, or after it if `before` is false.
/// The two sides are read apart, so that the first fault by key order is the one reported.
#[tactic(auto, unfolding(crate::specs::Read::ReadReceivers::kinds_at, crate::specs::Read::Readings::next))]
fn add_kinds(
    alloc: Global,
    before: bool,
    path: &ValuePath,
    value: &Value,
    integrations: &mut Vec<Integration>,
) -> Result<(), ConfigError>
    ensures { Changes (λ is. is.items) result integrations.new
        (kinds_at before (path_text path.now) (view value.now) integrations.old.items) }
{
    let Some(members) = value.as_object() else {
        return Err(path.faulty(alloc));
    };
    for (key, value) in members {
        add_kind(alloc, before, path, key.as_str(), value, integrations)?;
    }
    Ok(())
}

/// Adds the integrations of a member, if its key names an integration on that side of `name`.
#[tactic(auto, unfolding(crate::specs::Read::ReadReceivers::kind_into, crate::specs::Read::Readings::next))]
fn add_kind(
    alloc: Global,
    before: bool,
    path: &ValuePath,
    key: &str,
    value: &Value,
    integrations: &mut Vec<Integration>,
) -> Result<(), ConfigError>
    ensures { Changes (λ is. is.items) result integrations.new
        (kind_into before (path_text path.now) key.now (view value.now)
        integrations.old.items) }
{
    if !is_on_side(before, key) {
        return Ok(());
    }
    match kind_key(key) {
        Some(kind) => {
            let kind = Text::from_str(alloc, kind)?;
            let entries = stated_entries(alloc, &kind, &ValuePath::Member(path, key), value)?;
            insert_entries(integrations, &kind, entries)?;
            Ok(())
        }
        None => Ok(()),
    }
}

/// Inserts the integrations of one name before those of greater names.
#[tactic(auto, using(crate::proofs::ReadLemmas::EntryInsertion::with_entries_is))]
fn insert_entries(
    integrations: &mut Vec<Integration>,
    kind: &Text,
    entries: Vec<Integration>,
) -> Result<(), AllocError>
    ensures { OnOk result
        (integrations.new.items ≡ with_entries integrations.old.items kind.now entries.items) }
{
    let mut entries = entries;
    let index = index_of(integrations.as_slice(), kind);
    let mut later = integrations.split_off(index)?;
    integrations.append(&mut entries)?;
    integrations.append(&mut later)?;
    Ok(())
}

/// Returns the index of the first integration with a greater name.
fn index_of(integrations: &[Integration], kind: &Text) -> usize
    ensures value { result ≡ index_after integrations.now kind.now }
    ensures bound { result ≤ length integrations.now }
{
    for (index, integration) in integrations.iter().enumerate() {
        if integration.kind.cmp(kind) == Ordering::Greater {
            return index;
        }
    }
    integrations.len()
}

/// Reads such a list, or `null` as an empty one.
#[tactic(auto, unfolding(crate::specs::Read::ReadReceivers::stated_entries, crate::specs::Read::Readings::next))]
fn stated_entries(
    alloc: Global,
    kind: &Text,
    path: &ValuePath,
    value: &Value,
) -> Result<Vec<Integration>, ConfigError>
    ensures { Gives (λ es. es.items) result
        (stated_of kind.now (path_text path.now) (view value.now)) }
{
    match value {
        Value::Null => Ok(Vec::new(alloc)),
        _ => entries(alloc, kind, path, value),
    }
}

/// Returns the integration's name in a key, such as `webhook` in `webhook_configs`, or `None` for
/// another key.
#[tactic(auto, unfolding(crate::specs::Read::ReadReceivers::kind_key))]
fn kind_key(key: &str) -> Option<&str>
    ensures { option_map (λ s. s.now) result ≡ key_of key.now }
{
    key.strip_suffix("_configs")
}

/// Returns whether a key sorts before the key `name`, or after it if `before` is false.
#[tactic(auto, unfolding(crate::specs::Read::ReadReceivers::is_on_side))]
fn is_on_side(before: bool, key: &str) -> bool
    ensures { result ≡ is_on_side_of before key.now }
{
    match key.cmp("name") {
        Ordering::Less => before,
        Ordering::Equal => false,
        Ordering::Greater => !before,
    }
}

/// Reads a list such as `webhook_configs`.
#[tactic(auto, unfolding(crate::specs::Read::ReadReceivers::entries_at, crate::specs::Read::Readings::next))]
fn entries(
    alloc: Global,
    kind: &Text,
    path: &ValuePath,
    value: &Value,
) -> Result<Vec<Integration>, ConfigError>
    ensures { Gives (λ es. es.items) result
        (entries_at kind.now (path_text path.now) (view value.now)) }
{
    let items = items(alloc, path, value)?;
    let mut entries = Vec::new(alloc);
    for (index, item) in items.iter().enumerate() {
        add_entry(alloc, kind, path, index, item, &mut entries)?;
    }
    Ok(entries)
}

/// Appends the integration at an index of a list such as `webhook_configs`.
#[tactic(auto, unfolding(crate::specs::Read::ReadReceivers::entry_into, crate::specs::Read::Readings::next))]
fn add_entry(
    alloc: Global,
    kind: &Text,
    path: &ValuePath,
    index: usize,
    value: &Value,
    entries: &mut Vec<Integration>,
) -> Result<(), ConfigError>
    ensures { Changes (λ es. es.items) result entries.new
        (entry_into kind.now (path_text path.now) index (view value.now) entries.old.items) }
{
    let here = ValuePath::Item(path, index);
    if !value.is_object() {
        return Err(here.faulty(alloc));
    }
    let stated = flag_member(alloc, &here, value, "send_resolved")?;
    let Some(send_resolved) = stated.or(default(kind.as_str())) else {
        return Err(here.faulty(alloc));
    };
    entries.push(Integration {
        kind: kind.clone()?,
        place: index,
        send_resolved,
    })?;
    Ok(())
}

/// Returns the default of `send_resolved` for an integration's name, or `None` for an unknown name,
/// whose entries have to state it.
#[tactic(auto, unfolding(crate::specs::Read::ReadReceivers::default_of))]
fn default(kind: &str) -> Option<bool>
    ensures { result ≡ default_of kind.now }
{
    if is_sender(kind) {
        return Some(true);
    }
    if is_keeper(kind) {
        return Some(false);
    }
    None
}

/// Returns whether integrations of this name omit resolved alerts by default.
#[tactic(auto, unfolding(crate::specs::Read::ReadReceivers::is_keeper))]
fn is_keeper(kind: &str) -> bool
    ensures { result ≡ keeper_of kind.now }
{
    same(kind, "email") || same(kind, "slack")
}

/// Returns whether integrations of this name send resolved alerts by default, as in the defaults of
/// `send_resolved` in Alertmanager's configuration reference.
#[tactic(auto, unfolding(crate::specs::Read::ReadReceivers::is_sender))]
fn is_sender(kind: &str) -> bool
    ensures { result ≡ sender_of kind.now }
{
    same(kind, "webhook")
        || same(kind, "pagerduty")
        || same(kind, "opsgenie")
        || same(kind, "victorops")
        || same(kind, "pushover")
}
