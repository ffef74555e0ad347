//! The outcome of an event. Sessions and runs print it; what the event did to the state is in the
//! store.
use crate::state::Notification;
use amr_events::posts::Reason;
use amr_labels::{Listing, Shared};

/// The outcome of an event.
#[derive(Drop)]
pub enum Outcome {
    Accepted {
        /// How many moves were made up to the event's moment.
        moves: usize,
        /// The notifications that were appended, in order.
        notes: Listing<Shared<Notification>>,
        /// The positions of the posted alerts that aren't valid, from 1.
        skipped: Listing<usize>,
    },
    /// The event is refused, and changes nothing.
    Refused(Reason),
}
