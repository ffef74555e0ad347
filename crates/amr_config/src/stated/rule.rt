//! Inhibition rules. The engine asks `amr_rules` which alerts they mute.

use amr_labels::matcher::Matchers;
use amr_labels::{Listing, Text};

/// An inhibition rule: a firing source alert mutes target alerts (`inhibit_rules` of Alertmanager's
/// configuration).
#[derive(Drop)]
pub struct InhibitRule {
    /// The matchers of the alerts that mute.
    pub source: Matchers,
    /// The matchers of the alerts that are muted.
    pub target: Matchers,
    /// The names of the labels that the two alerts must have with equal values.
    pub equal: Listing<Text>,
}
