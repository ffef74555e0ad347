//! An alert as it is posted. `amr_rules` fills in its times when the post is made.

use crate::posts::posted_labels::PostedLabels;
use crate::posts::posted_time::PostedTime;
use amr_labels::TextMap;

/// An alert as it is posted (a postable alert of Alertmanager's API v2). Its times may be missing.
#[derive(Drop)]
pub struct PostedAlert {
    /// The names with their values, in the byte order of the names. Empty values are kept here;
    /// they are dropped when the post is made.
    pub labels: PostedLabels,
    pub annotations: TextMap,
    /// The start, if the post gives one.
    pub starts_at: PostedTime,
    /// The end, if the post gives one.
    pub ends_at: PostedTime,
}
