//! The verdicts that the command `explain` prints of an alert.

use amr_events::posts::SilenceId;
use amr_labels::{Labels, Text};
use amr_time::Moment;

/// What `explain` found for a stored alert and an integration: the first of these, in this order,
/// that applies.
#[derive(Drop)]
pub enum Finding {
    /// The alert's group hasn't been flushed yet. `due` is when it will be.
    Waiting { due: Moment },
    /// An inhibition rule mutes the alert: the first that does, counted from 0, with the least
    /// label set of an alert by which it does.
    Inhibited { rule: usize, source: Labels },
    /// The route has active time intervals, and the moment is in none of them.
    OutsideActive,
    /// The moment is in a mute time interval of the route.
    TimeMuted,
    /// A silence mutes the alert: the one with the least id that does.
    Silenced { id: SilenceId },
    /// The receiver has no integration, so nobody is notified.
    Nowhere,
    /// By the notification log, the integration was notified at `at` that the alert fires.
    Told { at: Moment },
    /// The next flush of the group, at `at`, runs the dedup check for the integration.
    Due { at: Moment },
}

/// One answer of `explain`.
#[derive(Drop)]
pub enum Verdict {
    /// No alert with these labels is stored.
    Unknown,
    /// The stored alert is resolved.
    Ended,
    /// What was found at a route that takes the alert.
    AtRoute {
        /// The route's number in preorder.
        route: usize,
        /// The name of the route's receiver.
        receiver: Text,
        /// The integration's kind and its index among those of its kind; `None` if the receiver has
        /// no integration.
        integration: Option<(Text, usize)>,
        finding: Finding,
    },
}
