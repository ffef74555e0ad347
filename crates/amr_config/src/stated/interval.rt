//! Time intervals with their names, as `time_intervals` and `mute_time_intervals` of Alertmanager's
//! configuration define them.

use amr_labels::Text;
use amr_time::TimeInterval;

/// A time interval, and the name under which routes refer to it.
#[derive(Drop)]
pub struct NamedInterval {
    pub name: Text,
    pub interval: TimeInterval,
}
