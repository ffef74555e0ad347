//! Moments of numbers that stand for keys, and which of two moments is first. The pending timers are
//! compared like this, by the numbers of alerts and groups.
ghost use Rattle.std.specs.Prelude.{◌≡◌, ℕ, Option};
ghost use Rattle.std.specs.declared.cmp.Ordering.{Ordering};
ghost use Rattle.std.specs.Cmp.{IsTotalOrder};
ghost use Rattle.amr_tables.specs.Moments.{is_after};

use std::cmp::Ordering;

/// A moment, in nanoseconds since 1970, and the number that has it, or had it.
#[derive(Clone, Copy)]
pub struct NumberedMoment {
    pub moment: u128,
    pub number: usize,
}

/// The moments of numbers, and an order of the numbers, which stand for keys.
pub trait Schedule {
    /// The order of what two numbers stand for.
    ghost rank: { Self → ℕ → ℕ → Ordering };

    /// It is total.
    ghost ranked: { (schedule : Self) → IsTotalOrder (rank schedule) };

    /// The moment of a number, if it has one.
    ghost moments: { Self → ℕ → Option ℕ };

    /// Compares what two numbers stand for.
    fn compare(&self, a: usize, b: usize) -> Ordering
        ensures { result ≡ rank self.now a b };

    /// Returns the moment of a number, in nanoseconds since 1970, if it has one.
    fn moment(&self, number: usize) -> Option<u128>
        ensures { result ≡ moments self.now number };
}

/// Returns whether the first moment is later than the second or, if they are equal, the order puts
/// its number after the other. A missing one is after all others.
pub(crate) fn is_after<S: Schedule>(
    schedule: &S,
    a: Option<NumberedMoment>,
    b: Option<NumberedMoment>,
) -> bool
    ensures { result ≡ is_after (S.rank schedule.now) a b }
{
    match (a, b) {
        (_, None) => false,
        (None, Some(_)) => true,
        (Some(a), Some(b)) => {
            a.moment > b.moment
                || (a.moment == b.moment
                    && schedule.compare(a.number, b.number) == Ordering::Greater)
        }
    }
}
