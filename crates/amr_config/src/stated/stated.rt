//! A configuration as its file states it. `read` reads and validates it, and `Config` resolves the
//! settings of its routes.

use crate::stated::interval::NamedInterval;
use crate::stated::receiver::Receiver;
use crate::stated::route::Route;
use crate::stated::rule::InhibitRule;
use amr_labels::Listing;
use amr_time::Span;

/// A configuration as its file states it, neither validated nor with inherited settings.
#[derive(Drop)]
pub struct Stated {
    /// The routes in preorder, the root first.
    pub routes: Listing<Route>,
    pub receivers: Listing<Receiver>,
    pub rules: Listing<InhibitRule>,
    /// How long after a post an alert without an end resolves.
    pub resolve_timeout: Span,
    /// The intervals of `mute_time_intervals`, then those of `time_intervals`. No two have the same
    /// name.
    pub time_intervals: Listing<NamedInterval>,
}
