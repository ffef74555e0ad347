//! The members of a group. A flush and the listing of groups read them.

use amr_labels::{Labels, Shared};
use amr_rules::Alert;

/// A member of a group: its labels, and the alert as it was when it was last inserted there.
pub type Member = (Labels, Shared<Alert>);
