//! The names of the labels that the matchers of the inhibition rules name. Which sides of the rules
//! a label set is on depends on these labels alone, so `Router` asks once for all label sets that
//! have the same of them.
ghost use Rattle.std.specs.Prelude.{◌≡◌, ◌||◌, IfOk, IfSome, OnOk, true};
ghost use Rattle.std.specs.List.{list_any};
ghost use Rattle.std.specs.Ordering.{eq_by_cmp};
ghost use Rattle.amr_labels.specs.Labels.{text_cmp};
ghost use Rattle.amr_config.specs.RuleNames.{AreNamesOf, is_among, is_named};

use crate::stated::InhibitRule;
use amr_labels::matcher::Matcher;
use amr_labels::{Listing, Names, Text};
use std::alloc::{AllocError, Global};

/// Up to how many rules are asked afresh for each label set, which is faster than to look up what
/// they answered.
const FEW_RULES: usize = 4;

/// How many names are looked for in a label set at most. With more names, label sets seldom have
/// the same labels of these.
const MOST_NAMES: usize = 16;

/// Returns the names of the labels that the matchers of these rules name, each once. Returns `None`
/// if there are few rules, or too many names.
pub(crate) fn rule_names(alloc: Global, rules: &[InhibitRule]) -> Result<Option<Names>, AllocError>
    ensures { IfOk result (λ found. IfSome found (AreNamesOf rules.now)) }
{
    if rules.len() <= FEW_RULES {
        return Ok(None);
    }
    let mut names = Vec::new(alloc);
    for rule in rules {
        if !add_names_of(&mut names, rule)? {
            return Ok(None);
        }
    }
    Ok(Some(Names::new(alloc, Listing::from_vec(names))?))
}

/// Adds the names of the matchers of a rule. Returns `false`, maybe without some of them, if there
/// are too many names then.
fn add_names_of(names: &mut Vec<Text>, rule: &InhibitRule) -> Result<bool, AllocError>
    ensures { IfOk result (λ all. all ≡ true → (name : _) → is_among names.new.items name
        ≡ (is_among names.old.items name
        || (is_named rule.now.source name || is_named rule.now.target name))) }
{
    if !add_names(names, rule.source.as_slice())? {
        return Ok(false);
    }
    add_names(names, rule.target.as_slice())
}

/// Adds the names of these matchers. Returns `false`, maybe without some of them, if there are too
/// many names then.
fn add_names(names: &mut Vec<Text>, matchers: &[Matcher]) -> Result<bool, AllocError>
    ensures { IfOk result (λ all. all ≡ true → (name : _) → is_among names.new.items name
        ≡ (is_among names.old.items name || is_named matchers.now name)) }
{
    for matcher in matchers {
        add_name(names, matcher.name())?;
        if names.len() > MOST_NAMES {
            return Ok(false);
        }
    }
    Ok(true)
}

/// Adds a name, unless it is among the names.
#[tactic(auto, using(crate::proofs::RuleNames::among_already))]
fn add_name(names: &mut Vec<Text>, name: &Text) -> Result<(), AllocError>
    ensures { OnOk result ((other : _) → is_among names.new.items other
        ≡ (is_among names.old.items other || eq_by_cmp text_cmp other name.now)) }
{
    if is_among(names.as_slice(), name) {
        return Ok(());
    }
    names.push(name.clone()?)?;
    Ok(())
}

/// Returns whether a name is among the names.
fn is_among(names: &[Text], name: &Text) -> bool
    ensures { result ≡ is_among names.now name.now }
{
    names.iter().any(|other| name == other)
}
