//! What a script posts, as values: alerts, silences and their ids, and the reasons that refuse an
//! event. They are read from lines, and `amr_rules` decides about them.

mod posted_alert;
mod posted_labels;
mod posted_silence;
mod posted_time;
mod reason;
mod silence_id;

pub use posted_alert::PostedAlert;
pub use posted_labels::PostedLabels;
pub(crate) use posted_labels::lent;
pub use posted_silence::PostedSilence;
pub use posted_time::PostedTime;
pub use reason::Reason;
pub use silence_id::SilenceId;
