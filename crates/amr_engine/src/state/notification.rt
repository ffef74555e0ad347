//! What the state holds besides alerts and silences: group timers, the keys of the notification
//! log, and notifications. The engine makes them, `Store` keeps them, and they are printed as they
//! are.
ghost use Rattle.std.specs.Prelude.{◌≡◌};
ghost use Rattle.std.proofs.Common.{rules};

use amr_config::RoutePath;
use amr_labels::{Exact, Labels, Listing, Text, TextMap};
use amr_tables::Key;
use amr_time::Moment;
use std::alloc::AllocError;

/// A group timer. A group exists as long as it has one.
#[derive(Clone, Copy, PartialEq)]
pub struct GroupTimer {
    /// When the group is flushed next.
    pub next_flush: Moment,
    /// Whether the group has been flushed.
    pub flushed: bool,
    /// Since when the group has no members; `None` if it has some.
    pub empty_since: Option<Moment>,
}

impl Exact for GroupTimer {
    ghost exact = { λ x y same. Prim.search rules };
}

/// The key of an entry of the notification log. Alertmanager's log has one entry for each
/// integration of a receiver and each group key; the group key is made of the matchers on the way
/// to the route, and the group labels. Listings are in the order of keys, which is that of the
/// fields.
#[derive(PartialEq, Eq, PartialOrd, Ord, Hash, Drop)]
pub struct LogKey {
    /// The name of the receiver.
    pub receiver: Text,
    /// The integration's kind, such as `webhook`.
    pub kind: Text,
    /// The integration's index among those of its kind at the receiver, from 0.
    pub place: usize,
    /// The group labels.
    pub group: Labels,
    /// The sorted matchers of each route, from the root to the group's route.
    pub path: RoutePath,
}

impl Clone for LogKey {
    ghost is_clone = { λ a b. b ≡ a };

    fn clone(&self) -> Result<LogKey, AllocError> {
        Ok(LogKey {
            receiver: self.receiver.clone()?,
            kind: self.kind.clone()?,
            place: self.place,
            group: self.group.clone()?,
            path: self.path.clone()?,
        })
    }
}

impl Key for LogKey {
    ghost use Rattle.amr_engine.specs.State.State.{log_key_cmp-IsAntisymmetric};

    ghost exact = { log_key_cmp-IsAntisymmetric };
}

impl Exact for LogKey {
    ghost exact = { λ x y same. same };
}

/// What a notification says about a firing alert.
#[derive(Drop)]
pub struct FiringAlert {
    pub labels: Labels,
    pub starts_at: Moment,
    pub annotations: TextMap,
}

/// What a notification says about a resolved alert.
#[derive(Drop)]
pub struct ResolvedAlert {
    pub labels: Labels,
    pub starts_at: Moment,
    pub ends_at: Moment,
    pub annotations: TextMap,
}

/// A notification to one integration about one group.
#[derive(Drop)]
pub struct Notification {
    /// When it was sent.
    pub at: Moment,
    /// The route of the group, by its number in preorder.
    pub route: usize,
    /// The integration and the group, as the notification log names them.
    pub key: LogKey,
    /// The firing alerts, by labels.
    pub firing: Listing<FiringAlert>,
    /// The resolved alerts, by labels; empty if the integration doesn't send resolved alerts.
    pub resolved: Listing<ResolvedAlert>,
}
