//! The stored alerts, as inhibition asks for them.
ghost use Rattle.std.specs.Prelude.{◌≡◌, IfOk, map};
ghost use Rattle.std.specs.Map.Iter.{deref_pair};
ghost use Rattle.amr_rules.specs.Muting.{Alerts, sources_of};

use crate::alert::Alert;
use amr_config::stated::InhibitRule;
use amr_labels::Labels;
use std::alloc::{AllocError, Global};

/// Stored alerts under their labels.
pub trait AlertStore {
    /// The alerts, as a finite map.
    ghost alerts: { Self → Alerts };

    /// Lists the stored alerts that match the rule's source matchers and agree with a target on the
    /// labels in `equal`, with their labels and in the order of the labels. The rule's index in the
    /// configuration, from 0, helps a store to find what it caches of the rule; no answer depends
    /// on it.
    fn sources(
        &self,
        alloc: Global,
        index: usize,
        rule: &InhibitRule,
        target: &Labels,
    ) -> Result<Vec<(&Labels, &Alert)>, AllocError>
        ensures { IfOk result (λ found. map deref_pair found.items
            ≡ sources_of rule.now target.now (alerts self.now)) };
}
