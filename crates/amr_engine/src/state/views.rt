//! Copies of what the state holds, in the order in which the program lists it: alerts, which a
//! change of the configuration reads, and groups, which a listing command prints. They change
//! nothing.
ghost use Rattle.std.specs.Prelude.{◌≡◌, IfOk, map};
ghost use Rattle.amr_labels.specs.Map.{entries};
ghost use Rattle.amr_engine.specs.State.State.{members};

use crate::state::notification::GroupTimer;
use crate::state::store::Store;
use amr_config::RouteLabels;
use amr_labels::{Labels, Listing, Shared};
use amr_rules::Alert;
use amr_time::Moment;
use std::alloc::AllocError;

/// A group as it is listed.
#[derive(Drop)]
pub struct Group {
    /// The number of the route in preorder.
    pub route: usize,
    /// The group labels.
    pub labels: Labels,
    /// When the group is flushed next.
    pub next_flush: Moment,
    /// Whether the group has been flushed.
    pub flushed: bool,
    /// Since when the group has no members; `None` if it has some.
    pub empty_since: Option<Moment>,
    /// The label sets of the members, in order.
    pub members: Listing<Labels>,
}

ghost use Rattle.amr_engine.specs.State.Seen.{group_seen, groups_of};

/// Returns the stored alerts, by labels.
pub fn alerts(store: &Store) -> Result<Vec<(Labels, Shared<Alert>)>, AllocError>
    ensures { IfOk result (λ found. found.items ≡ entries store.now.state.alerts) }
{
    let mut found = Vec::new(store.alloc());
    let sorted = store.alerts().sorted(store.alloc())?;
    for &(labels, alert) in sorted.as_slice() {
        found.push((labels.clone()?, alert.clone()?))?;
    }
    Ok(found)
}

/// Returns the label sets of the members of a group, in order.
fn member_labels(store: &Store, group: &RouteLabels) -> Result<Listing<Labels>, AllocError>
    ensures { IfOk result (λ found. found
        ≡ map (λ member. member.0) (members store.now.state group.now)) }
{
    let mut found = Listing::new(store.alloc());
    let members = store.members_of(group)?;
    for (labels, _) in members.as_slice() {
        found.push(labels.clone()?)?;
    }
    Ok(found)
}

/// Returns a group with its members.
fn group_at(
    store: &Store,
    route_labels: &RouteLabels,
    timer: &GroupTimer,
) -> Result<Group, AllocError>
    ensures { IfOk result (λ group. group
        ≡ group_seen store.now.state (route_labels.now, timer.now)) }
{
    Ok(Group {
        route: route_labels.route,
        labels: route_labels.labels.clone()?,
        next_flush: timer.next_flush,
        flushed: timer.flushed,
        empty_since: timer.empty_since,
        members: member_labels(store, route_labels)?,
    })
}

/// Returns the groups, by route and labels.
pub fn groups(store: &Store) -> Result<Vec<Group>, AllocError>
    ensures { IfOk result (λ found. found.items ≡ groups_of store.now.state) }
{
    let mut found = Vec::new(store.alloc());
    let sorted = store.timers().sorted(store.alloc())?;
    for &(route_labels, timer) in sorted.as_slice() {
        found.push(group_at(store, route_labels, timer)?)?;
    }
    Ok(found)
}
