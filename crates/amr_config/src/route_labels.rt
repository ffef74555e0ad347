//! Routes with label sets: the groups that a label set is in, and the keys of tables of groups and
//! of their members.
ghost use Rattle.std.specs.Prelude.{◌≡◌};

use amr_labels::{Exact, Labels};
use amr_tables::Key;
use std::alloc::AllocError;

/// A route with a label set: an alert on a route, or a group's key.
#[derive(PartialEq, Eq, PartialOrd, Ord, Hash, Drop)]
pub struct RouteLabels {
    /// The number of the route in preorder; the root is 0.
    pub route: usize,
    /// The labels of the alert, or the group labels.
    pub labels: Labels,
}

impl Clone for RouteLabels {
    ghost is_clone = { λ a b. b ≡ a };

    fn clone(&self) -> Result<RouteLabels, AllocError> {
        Ok(RouteLabels {
            route: self.route,
            labels: self.labels.clone()?,
        })
    }
}

impl Key for RouteLabels {
    ghost use Rattle.amr_config.specs.RouteLabels.{route_labels_cmp-IsAntisymmetric};

    ghost exact = { route_labels_cmp-IsAntisymmetric };
}

impl Exact for RouteLabels {
    ghost exact = { λ x y same. same };
}
