//! When a scan of all stored alerts and silences pays. It finds out until when none of them ends or
//! starts, which saves asking what mutes the members at each of the next flushes.

/// How many places of alerts and silences may be scanned for each flush that asks what mutes the
/// members. Scanning this many takes less time than such a flush, which copies the members and asks
/// rules and silences, so the scans never cost more than the flushes. If thousands of groups are
/// flushed at one tick, all after the first use that scan.
const SCANNED_PER_FLUSH: usize = 100;

/// The most by which scans are put off that save no flush. Between posts that come one after the
/// other, what a scan found is forgotten before it is of use.
const MOST_BACKOFF: usize = 16;

/// How many flushes have to pay for the next scan.
#[derive(Clone, Copy)]
pub(crate) struct ScanBudget {
    /// The flushes that asked what mutes the members, since the last scan.
    flushes: usize,
    /// The flushes that pay for the next scan.
    price: usize,
    /// How many times rarer scans are than they could be. It doubles at each scan after which no
    /// flush was saved.
    backoff: usize,
    /// Whether a flush was saved since the last scan.
    has_saved: bool,
}

impl ScanBudget {
    /// Returns a budget that pays for a scan at once.
    pub(crate) fn new() -> ScanBudget {
        ScanBudget {
            flushes: 0,
            price: 0,
            backoff: 1,
            has_saved: true,
        }
    }

    /// Returns whether a scan is paid for.
    pub(crate) fn allows_scan(&self) -> bool {
        self.price <= self.flushes
    }

    /// Counts a flush that asked what mutes the members.
    pub(crate) fn count_flush(&mut self) {
        self.flushes = self.flushes.saturating_add(1);
    }

    /// Notes that a scan saved a flush.
    pub(crate) fn note_saved(&mut self) {
        self.has_saved = true;
    }

    /// Starts again after a scan of this many places.
    pub(crate) fn note_scan(&mut self, places: usize) {
        self.backoff = if self.has_saved {
            1
        } else {
            self.backoff.saturating_mul(2).min(MOST_BACKOFF)
        };
        self.price = (places / SCANNED_PER_FLUSH).saturating_mul(self.backoff);
        self.flushes = 0;
        self.has_saved = false;
    }
}
