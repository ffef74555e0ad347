//! Reads the inhibition rules of a configuration (`inhibit_rules` of Alertmanager's configuration
//! reference). `read.rt` calls `read_rules`.
ghost use Rattle.std.specs.Prelude.{◌≡◌};
ghost use Rattle.serde_json.specs.View.{view};
ghost use Rattle.amr_config.specs.Read.Paths.{path_text};
ghost use Rattle.amr_config.specs.Read.Answers.{Reads, ReadsInto};
ghost use Rattle.amr_config.specs.Read.ReadRules.{rule_at, rule_into, rules_list, rules_at};

use crate::read::error::ConfigError;
use crate::read::members::{items, member, texts_member};
use crate::read::read_matchers::read_matchers;
use crate::read::value_path::ValuePath;
use crate::stated::InhibitRule;
use amr_labels::Listing;
use amr_labels::matcher::Patterns;
use serde_json::Value;
use std::alloc::Global;

/// Reads the inhibition rules of a whole configuration; none if the member is absent.
#[tactic(auto, unfolding(crate::specs::Read::ReadRules::rules_at))]
pub(crate) fn read_rules(
    alloc: Global,
    built: &mut Patterns,
    value: &Value,
) -> Result<Listing<InhibitRule>, ConfigError>
    ensures { Reads (λ rules. rules) result (rules_at (view value.now)) }
{
    match member(value, "inhibit_rules") {
        Some(found) => rules(
            alloc,
            built,
            &ValuePath::Member(&ValuePath::Top, "inhibit_rules"),
            found,
        ),
        None => Ok(Listing::new(alloc)),
    }
}

/// Reads a list of inhibition rules.
#[tactic(auto, unfolding(crate::specs::Read::ReadRules::rules_list, crate::specs::Read::Readings::next))]
fn rules(
    alloc: Global,
    built: &mut Patterns,
    path: &ValuePath,
    value: &Value,
) -> Result<Listing<InhibitRule>, ConfigError>
    ensures { Reads (λ rules. rules) result (rules_list (path_text path.now) (view value.now)) }
{
    let items = items(alloc, path, value)?;
    let mut rules = Listing::new(alloc);
    for (index, item) in items.iter().enumerate() {
        add_rule(alloc, built, path, index, item, &mut rules)?;
    }
    Ok(rules)
}

/// Appends the rule at an index of a list.
#[tactic(auto, unfolding(crate::specs::Read::ReadRules::rule_into, crate::specs::Read::Readings::next))]
fn add_rule(
    alloc: Global,
    built: &mut Patterns,
    path: &ValuePath,
    index: usize,
    value: &Value,
    rules: &mut Listing<InhibitRule>,
) -> Result<(), ConfigError>
    ensures { ReadsInto (λ rules. rules) result rules.new
        (rule_into (path_text path.now) index (view value.now) rules.old) }
{
    let rule = read_rule(alloc, built, &ValuePath::Item(path, index), value)?;
    rules.push(rule)?;
    Ok(())
}

/// Reads an inhibition rule, by its keys in byte order.
#[tactic(auto, unfolding(crate::specs::Read::ReadRules::rule_at, crate::specs::Read::Readings::next))]
fn read_rule(
    alloc: Global,
    built: &mut Patterns,
    path: &ValuePath,
    value: &Value,
) -> Result<InhibitRule, ConfigError>
    ensures { Reads (λ rule. rule) result (rule_at (path_text path.now) (view value.now)) }
{
    if !value.is_object() {
        return Err(path.faulty(alloc));
    }
    let equal = texts_member(alloc, path, value, "equal")?;
    let source = read_matchers(
        alloc,
        built,
        path,
        "source_match",
        "source_match_re",
        "source_matchers",
        value,
    )?;
    let target = read_matchers(
        alloc,
        built,
        path,
        "target_match",
        "target_match_re",
        "target_matchers",
        value,
    )?;
    Ok(InhibitRule {
        source,
        target,
        equal: equal.unwrap_or(Listing::new(alloc)),
    })
}
