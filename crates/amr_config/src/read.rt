//! Loading configurations: reads from a JSON value what a configuration states, in the shapes of
//! Alertmanager's configuration reference, and validates it. Scripts and the program load
//! configurations with `load_config`; the state and the engine take them as they are.

mod defined_intervals;
mod error;
mod interval_names;
pub mod laws;
mod load;
mod members;
mod names;
mod read;
mod read_intervals;
mod read_matchers;
mod read_receivers;
mod read_routes;
mod read_rules;
mod validate;
mod value_path;
mod whole;

pub use error::{Cause, ConfigError, Refusal};
pub use load::{config_of, load_config};
