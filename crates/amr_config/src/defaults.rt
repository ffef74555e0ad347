//! The settings of a route that neither it nor a route above it states, as in Alertmanager's
//! `route` reference.

/// The default `group_wait`, in seconds.
pub const GROUP_WAIT_SECONDS: u32 = 30;

/// The default `group_interval`, in minutes.
pub const GROUP_INTERVAL_MINUTES: u32 = 5;

/// The default `repeat_interval`, in hours.
pub const REPEAT_INTERVAL_HOURS: u32 = 4;
