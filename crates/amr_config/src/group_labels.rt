//! The group labels that were made. Those of a label set are found by comparing them with what its
//! grouping keeps, before any are made, so that the members of a group share one label set.
ghost use Rattle.std.specs.Prelude.{◌≡◌, IfOk};
ghost use Rattle.std.specs.Option.{option_copied};
ghost use Rattle.amr_labels.specs.Lent.{lent_texts};
ghost use Rattle.amr_labels.specs.Map as map;
ghost use Rattle.amr_config.specs.Routing.{grouped_by};
ghost use Rattle.amr_config.specs.Groups.{keeps};

use crate::config::grouped_by;
use crate::stated::Grouping;
use amr_labels::{Labels, Text};
use std::alloc::{AllocError, Global};
use std::collections::HashMap;
use std::hash::{FoldHasher, Hash, Hasher};
use std::marker::Model;

/// Group labels, by the hashes of their names and values. Contracts see nothing of them.
#[derive(Drop)]
pub(crate) struct GroupLabels {
    made: HashMap<u64, Labels>,
}

impl Model for GroupLabels {
    ghost Value = { Unit {0} };

    ghost view = { λ groups. tt };
}

impl GroupLabels {
    /// Returns the labels that a grouping keeps. They share the texts with equal ones that were
    /// returned before. Otherwise it makes them, and keeps them if there is room.
    #[tactic(auto, using(crate::proofs::Kept::same_group))]
    pub(crate) fn grouped_by(
        &mut self,
        alloc: Global,
        grouping: Option<&Grouping>,
        labels: &Labels,
    ) -> Result<Labels, AllocError>
        ensures { IfOk result (λ group.
            group ≡ grouped_by (option_copied grouping.entry) labels.now) }
    {
        if let Some(Grouping::AllLabels) = grouping {
            return labels.clone();
        }
        let Ok(kept) = kept_texts(alloc, grouping, labels) else {
            return grouped_by(alloc, grouping, labels);
        };
        let hash_value = hash_of_texts(&kept);
        match self.made.get(&hash_value) {
            Some(made) if made.has_entries(&kept) => return made.clone(),
            _ => {}
        }
        let made = grouped_by(alloc, grouping, labels)?;
        let _forgotten = self.made.insert(hash_value, made.clone()?);
        Ok(made)
    }

    /// Starts without group labels.
    pub(crate) fn new(alloc: Global) -> GroupLabels
        ensures { result ≡ tt }
    {
        GroupLabels {
            made: HashMap::new(alloc),
        }
    }
}

/// Returns the names and values that a grouping keeps of a label set, in the order of the names.
fn kept_texts<'a>(
    alloc: Global,
    grouping: Option<&Grouping>,
    labels: &'a Labels,
) -> Result<Vec<(&'a str, &'a str)>, AllocError>
    ensures { IfOk result (λ kept. lent_texts kept.items
        ≡ map.entries (grouped_by (option_copied grouping.entry) labels.now)) }
{
    let mut kept = Vec::with_capacity(alloc, labels.len())?;
    for label in labels.entries() {
        if keeps(grouping, &label.0) {
            kept.push((label.0.as_str(), label.1.as_str()))?;
        }
    }
    Ok(kept)
}

/// Returns whether a grouping keeps labels with a name.
fn keeps(grouping: Option<&Grouping>, name: &Text) -> bool
    ensures { result ≡ keeps (option_copied grouping.entry) name.now }
{
    match grouping {
        None => false,
        Some(Grouping::AllLabels) => true,
        Some(Grouping::Named(names)) => names.contains(name),
    }
}

/// Returns a hash of names and values.
fn hash_of_texts(kept: &[(&str, &str)]) -> u64 {
    let mut hasher = FoldHasher::default();
    kept.hash(&mut hasher);
    hasher.finish()
}
