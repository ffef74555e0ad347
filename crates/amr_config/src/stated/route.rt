//! A route with what it states itself. `Config` resolves what it inherits.
ghost use Rattle.std.specs.Prelude.{◌≡◌};

use amr_labels::matcher::Matchers;
use amr_labels::{Exact, Listing, Names, Text};
use amr_time::Span;
use std::alloc::AllocError;

/// How a route groups alerts, by `group_by` of Alertmanager's configuration.
#[derive(Drop)]
pub enum Grouping {
    /// By all labels; stated as `["..."]`.
    AllLabels,
    /// By the labels with these names. Clones share the list, since a route below takes its
    /// parent's.
    Named(Names),
}

impl Clone for Grouping {
    ghost is_clone = { λ a b. b ≡ a };

    fn clone(&self) -> Result<Grouping, AllocError> {
        match self {
            Grouping::AllLabels => Ok(Grouping::AllLabels),
            Grouping::Named(names) => Ok(Grouping::Named(names.clone()?)),
        }
    }
}

impl Exact for Grouping {
    ghost exact = { λ x y same. same };
}

/// A route with what it states itself. It inherits each setting that is `None` from its parent.
///
/// Routes are in a list in preorder, the root first. `parent` is the index of the parent in that
/// list, and `None` for the root.
#[derive(Drop)]
pub struct Route {
    pub parent: Option<usize>,
    /// The matchers of `match`, then those of `match_re`, then those of `matchers`.
    pub matchers: Matchers,
    /// Whether later siblings are tried after this route matched (`continue`).
    pub continues: bool,
    pub receiver: Option<Text>,
    pub group_by: Option<Grouping>,
    pub group_wait: Option<Span>,
    pub group_interval: Option<Span>,
    pub repeat_interval: Option<Span>,
    /// The names of the time intervals in which the route notifies; if empty, it notifies at all
    /// times. Children don't inherit them.
    pub active_time_intervals: Listing<Text>,
    /// The names of the time intervals in which the route is muted. Children don't inherit them.
    pub mute_time_intervals: Listing<Text>,
}
