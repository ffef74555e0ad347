//! Receivers and their integrations. `read` reads them, and a flush notifies
//! integrations.
ghost use Rattle.std.specs.Prelude.{◌≡◌};

use amr_labels::{Exact, Listing, Text};
use std::alloc::AllocError;

/// An integration of a receiver: one entry of a list such as `webhook_configs`.
#[derive(Drop)]
pub struct Integration {
    /// The integration's kind: the key without `_configs`, such as `webhook`.
    pub kind: Text,
    /// The integration's index among those of its kind at the receiver, from 0.
    pub place: usize,
    /// Whether notifications list resolved alerts.
    pub send_resolved: bool,
}

impl Clone for Integration {
    ghost is_clone = { λ a b. b ≡ a };

    fn clone(&self) -> Result<Integration, AllocError> {
        Ok(Integration {
            kind: self.kind.clone()?,
            place: self.place,
            send_resolved: self.send_resolved,
        })
    }
}

impl Exact for Integration {
    ghost exact = { λ x y same. same };
}

/// A receiver, with its integrations by kind and then by index.
#[derive(Drop)]
pub struct Receiver {
    pub name: Text,
    pub integrations: Listing<Integration>,
}
