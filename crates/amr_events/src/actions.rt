//! The events that happen to an Alertmanager: an action at a moment. They are read from the lines of
//! a script, and the engine applies them. They don't know the state.

mod event;

pub use event::{Act, Event};
