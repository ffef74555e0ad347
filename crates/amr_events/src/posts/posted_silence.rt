//! A silence as it is posted. Whether it may be stored is decided by `amr_rules`.

use crate::posts::silence_id::SilenceId;
use amr_labels::matcher::Matchers;
use amr_time::Moment;

/// A silence as it is posted (a postable silence of Alertmanager's API v2).
#[derive(Drop)]
pub struct PostedSilence {
    /// The stored silence that the post updates, if it names one.
    pub id: Option<SilenceId>,
    /// The id for a new silence. A script gives it, because nothing here is random.
    pub new_id: SilenceId,
    /// The matchers; `None` if a name is empty or `regex` refused a pattern, which makes the
    /// silence invalid.
    pub matchers: Option<Matchers>,
    pub starts_at: Moment,
    /// The end of the silence. It is expired from this moment on.
    pub ends_at: Moment,
}
