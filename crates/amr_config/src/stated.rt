//! What a configuration states: its routes, receivers, inhibition rules and time intervals, in the
//! shapes of Alertmanager's configuration reference. `read` reads them from JSON, and
//! `Config` resolves what routes inherit.

mod interval;
mod receiver;
mod route;
mod rule;
mod rule_sides;
mod stated;

pub use interval::NamedInterval;
pub use receiver::{Integration, Receiver};
pub use route::{Grouping, Route};
pub use rule::InhibitRule;
pub use rule_sides::{RuleMatch, rule_matches};
pub use stated::Stated;
