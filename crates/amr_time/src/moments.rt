//! Moments, in nanoseconds since 1970. Only scripts and commands give moments; nothing here reads a
//! clock.
ghost use Rattle.std.specs.Prelude.{◌≡◌, ◌+◌, ◌<◌, Some, nat_eq};
ghost use Rattle.std.specs.Ordering.{nat_cmp};
ghost use Rattle.std.specs.Cmp.Rules.{comparing};
ghost use Rattle.std.proofs.Common.{rules};
ghost use Rattle.amr_time.specs.Time.{before_year_10000, in_same_second, next_multiple_of, IsNextMultiple};

use crate::spans::Span;
use std::cmp::Ordering;
use std::marker::Model;

const SECOND: u128 = 1_000_000_000;

/// How many numbers a part of a moment can be.
const PART: u128 = 4_294_967_296;

/// A point in time: whole nanoseconds since 1970-01-01T00:00:00Z, before the year 10000. It is kept
/// as three digits of 32 bits: a number of 128 bits takes a third more, and may only stand at
/// multiples of 16 bytes.
#[derive(Clone, Copy)]
pub struct Moment {
    low: u32,
    middle: u32,
    high: u32,
}

impl Model for Moment {
    ghost use Rattle.std.specs.Prelude.{ℕ, ◌≡◌, ◌+◌, ◌*◌, ◌/◌, ◌%◌, ◌<◌};
    ghost use Rattle.std.proofs.Common.{refl, arith};

    ghost Value = { ℕ };

    ghost view = { λ m. m.low + m.middle * 4_294_967_296 + m.high * 18_446_744_073_709_551_616 };

    ghost invariant = { λ m. (m.low < 4_294_967_296) × (m.middle < 4_294_967_296)
        × (m.low + m.middle * 4_294_967_296 + m.high * 18_446_744_073_709_551_616
        < 253_402_300_800_000_000_000) };

    ghost inverse = { λ n. record {
      low = n % 4_294_967_296;
      middle = n / 4_294_967_296 % 4_294_967_296;
      high = n / 18_446_744_073_709_551_616;
    } };

    ghost inverse_ok = { λ a h.
        let below = h.0 in
        let between = h.1 in
        let low : (a.low + a.middle * 4_294_967_296 + a.high * 18_446_744_073_709_551_616)
        % 4_294_967_296 ≡ a.low = omega arith in
        let middle : (a.low + a.middle * 4_294_967_296 + a.high * 18_446_744_073_709_551_616)
        / 4_294_967_296 % 4_294_967_296 ≡ a.middle = omega arith in
        let high : (a.low + a.middle * 4_294_967_296 + a.high * 18_446_744_073_709_551_616)
        / 18_446_744_073_709_551_616 ≡ a.high = omega arith in
        rw (low, middle, high) refl };
}

impl Moment {
    /// 1970-01-01T00:00:00Z, where the clock is before the first event.
    pub const START: Moment = Moment {
        low: 0,
        middle: 0,
        high: 0,
    };

    /// Returns the moment this many nanoseconds after 1970-01-01T00:00:00Z.
    pub fn from_nanoseconds(nanoseconds: u128) -> Moment
        requires { nanoseconds < before_year_10000 }
        ensures { result ≡ nanoseconds }
    {
        Moment {
            low: (nanoseconds % PART) as u32,
            middle: (nanoseconds / PART % PART) as u32,
            high: (nanoseconds / (PART * PART)) as u32,
        }
    }

    /// Returns the nanoseconds since 1970-01-01T00:00:00Z.
    pub fn nanoseconds(self) -> u128
        ensures value { result ≡ self }
        ensures bound { self < before_year_10000 }
    {
        self.low as u128 + self.middle as u128 * PART + self.high as u128 * (PART * PART)
    }

    /// Returns the moment later by a duration.
    pub fn plus(self, span: Span) -> Moment
        requires { self + span < before_year_10000 }
        ensures { result ≡ self + span }
    {
        Moment::from_nanoseconds(self.nanoseconds() + span.nanoseconds() as u128)
    }

    /// Returns whether both moments are in the same whole second since 1970.
    pub fn in_same_second(self, other: Moment) -> bool
        ensures { result ≡ in_same_second self other }
    {
        let second = self.nanoseconds() / SECOND;
        second == other.nanoseconds() / SECOND
    }
}

impl PartialEq for Moment {
    ghost eq = { nat_eq };

    ghost laws = { Prim.search (comparing, rules) };

    fn eq(&self, other: &Moment) -> bool {
        self.nanoseconds() == other.nanoseconds()
    }
}

impl Eq for Moment {
    ghost laws = { Prim.search rules };
}

impl PartialOrd for Moment {
    ghost partial_cmp = { λ a b. Some (nat_cmp a b) };

    ghost laws = { Prim.search (comparing, rules) };

    fn partial_cmp(&self, other: &Moment) -> Option<Ordering> {
        Some(self.cmp(other))
    }
}

impl Ord for Moment {
    ghost cmp = { nat_cmp };

    ghost total = { Prim.search rules };

    ghost matches_partial_cmp = { Prim.search rules };

    ghost matches_eq = { Prim.search rules };

    fn cmp(&self, other: &Moment) -> Ordering {
        self.nanoseconds().cmp(&other.nanoseconds())
    }
}

/// Returns the least multiple of the unit that is greater than the moment, in nanoseconds since
/// 1970. It may be after the last moment, so it isn't a `Moment`. Clean-ups of alerts and groups
/// are due at such multiples.
pub fn next_multiple(moment: Moment, unit: Span) -> u128
    requires { 0 < unit }
    ensures value { result ≡ next_multiple_of moment unit }
    ensures least { IsNextMultiple moment unit result }
{
    let unit = unit.nanoseconds() as u128;
    (moment.nanoseconds() / unit + 1) * unit
}
