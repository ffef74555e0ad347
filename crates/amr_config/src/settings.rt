//! The settings of a route, its own and inherited ones. `inherit.rt` makes them, once for each
//! configuration.

use crate::route_path::RoutePath;
use crate::stated::Grouping;
use amr_labels::matcher::Matchers;
use amr_labels::{Listing, Text};
use amr_time::Span;

/// The settings of a route. The receiver, the grouping and the three times are the route's own, or
/// those of the nearest route above that has them, or the defaults (`defaults.rt`).
#[derive(Drop)]
pub struct Settings {
    pub parent: Option<usize>,
    /// The route's own matchers.
    pub matchers: Matchers,
    pub continues: bool,
    pub receiver: Text,
    /// How alerts are grouped; `None` if neither the route nor one above has `group_by`, which
    /// gives one group without labels.
    pub group_by: Option<Grouping>,
    pub group_wait: Span,
    pub group_interval: Span,
    pub repeat_interval: Span,
    /// The names of the route's own `active_time_intervals`.
    pub active_time_intervals: Listing<Text>,
    /// The names of the route's own `mute_time_intervals`.
    pub mute_time_intervals: Listing<Text>,
    /// The sorted matchers of each route from the root down to this one. Each key of the
    /// notification log has one of these paths.
    pub path: RoutePath,
}
