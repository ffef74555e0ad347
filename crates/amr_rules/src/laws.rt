//! A law of the dedup check, as a function that does nothing: its contract is the law. Nothing calls
//! it.
ghost use Rattle.amr_rules.specs.Dedup.{DueIsNeeded};

/// Says that the notification log is due for a new entry exactly if it is needed: without an
/// entry, that something fires; with one, the first that applies of these: an alert fires that the
/// entry doesn't have as firing; nothing fires any more; resolved alerts are sent, and the entry
/// doesn't have one of them; the repeat interval is over.
pub fn due_entries_are_needed()
    ensures { DueIsNeeded }
{}
