//! Durations, in nanoseconds, and reading them as Alertmanager's configuration writes them.
ghost use Rattle.std.specs.Prelude.{◌≡◌, ◌+◌, ◌*◌, ◌≤◌, All, IfOk, IfErr, min, map, length};
ghost use Rattle.std.specs.Result.{result_ok};
ghost use Rattle.amr_time.specs.declared.error.TimeError.TheVariants.{BadDuration};
ghost use Rattle.amr_time.specs.Time.{longest_span, second, minute, hour};
ghost use Rattle.amr_time.specs.MomentText.{decimal};
ghost use Rattle.amr_time.specs.SpanText.{IsSpanText};
ghost use Rattle.amr_time.specs.SpanRead.{word_of, parts_at, span_of, SameOrTooLong};

use crate::digits::{capped, digit_count, is_digit};
use crate::error::TimeError;
use std::marker::Model;

/// A duration in whole nanoseconds, at most ten years of 365 days.
#[derive(Clone, Copy, PartialEq, Eq, PartialOrd, Ord)]
pub struct Span {
    nanoseconds: u64,
}

impl Model for Span {
    ghost use Rattle.std.specs.Prelude.{ℕ, ◌≤◌};

    ghost Value = { ℕ };

    ghost view = { λ span. span.nanoseconds };

    ghost invariant = { λ span. span.nanoseconds ≤ 315_360_000_000_000_000 };

    ghost inverse = { λ n. record { nanoseconds = n } };
}

impl Span {
    /// The duration zero.
    pub const ZERO: Span = Span { nanoseconds: 0 };

    /// Returns the duration of this many nanoseconds.
    pub fn from_nanoseconds(nanoseconds: u64) -> Span
        requires { nanoseconds ≤ longest_span }
        ensures { result ≡ nanoseconds }
    {
        Span { nanoseconds }
    }

    /// Returns the duration of this many seconds.
    pub fn from_seconds(count: u32) -> Span
        requires { count * second ≤ longest_span }
        ensures { result ≡ count * second }
    {
        Span {
            nanoseconds: count as u64 * 1_000_000_000,
        }
    }

    /// Returns the duration of this many minutes.
    pub fn from_minutes(count: u32) -> Span
        requires { count * minute ≤ longest_span }
        ensures { result ≡ count * minute }
    {
        Span {
            nanoseconds: count as u64 * 60_000_000_000,
        }
    }

    /// Returns the duration of this many hours.
    pub fn from_hours(count: u32) -> Span
        requires { count * hour ≤ longest_span }
        ensures { result ≡ count * hour }
    {
        Span {
            nanoseconds: count as u64 * 3_600_000_000_000,
        }
    }

    /// Returns the duration in nanoseconds.
    pub fn nanoseconds(self) -> u64
        ensures value { result ≡ self }
        ensures bound { self ≤ longest_span }
    {
        self.nanoseconds
    }

    /// Reads a duration as in Alertmanager's configuration: `0`, or whole numbers with the units
    /// `y` (365 days), `w`, `d`, `h`, `m`, `s` and `ms`, each at most once and in this order, as in
    /// `1h30m`. Fails if it is longer than ten years.
    #[tactic(auto, using(crate::proofs::Durations::same_some, crate::proofs::Durations::too_long, crate::proofs::Durations::same_none, crate::proofs::SpanTexts::read_span_is_spelled), unfolding(crate::specs::SpanRead::span_of))]
    pub fn read(text: &str) -> Result<Span, TimeError>
        ensures value { result_ok result ≡ span_of text.now }
        ensures spelled { IfOk result (λ span. IsSpanText text.now span) }
        ensures refused { IfErr result (λ error. error ≡ BadDuration) }
    {
        if text == "0" {
            return Ok(Span::ZERO);
        }
        if text.is_empty() {
            return Err(TimeError::BadDuration);
        }
        let total = parts(&UNITS, text.as_bytes());
        match total {
            Some(nanoseconds) => {
                if nanoseconds < TOO_LONG {
                    Ok(Span::from_nanoseconds(nanoseconds))
                } else {
                    Err(TimeError::BadDuration)
                }
            }
            None => Err(TimeError::BadDuration),
        }
    }
}

/// A unit of duration: its letters, and its length in nanoseconds.
#[derive(Clone, Copy)]
struct Unit {
    letters: &'static str,
    nanoseconds: u64,
}

const DAY: u64 = 86_400_000_000_000;

/// One more than the longest duration.
const TOO_LONG: u64 = 3650 * DAY + 1;

/// The units, from the longest to the shortest.
const UNITS: [Unit; 7] = [
    Unit {
        letters: "y",
        nanoseconds: 365 * DAY,
    },
    Unit {
        letters: "w",
        nanoseconds: 7 * DAY,
    },
    Unit {
        letters: "d",
        nanoseconds: DAY,
    },
    Unit {
        letters: "h",
        nanoseconds: 3_600_000_000_000,
    },
    Unit {
        letters: "m",
        nanoseconds: 60_000_000_000,
    },
    Unit {
        letters: "s",
        nanoseconds: 1_000_000_000,
    },
    Unit {
        letters: "ms",
        nanoseconds: 1_000_000,
    },
];

/// Returns how many bytes are before the next digit.
fn word_len(bytes: &[u8]) -> usize
    ensures { result ≡ length (word_of bytes.now) }
{
    bytes.iter().take_while(|byte| !is_digit(**byte)).count()
}

/// Returns an amount of a unit plus the rest, in nanoseconds, or `TOO_LONG` if that is less.
fn scaled(digits: &[u8], unit: u64, rest: u64) -> u64
    requires unit_in { 1 ≤ unit }
    ensures { min 315_360_000_000_000_001 result
        ≡ min 315_360_000_000_000_001 (decimal digits.now * unit + rest) }
{
    let number = capped(digits, TOO_LONG);
    let total = number as u128 * unit as u128 + rest as u128;
    total.min(TOO_LONG as u128) as u64
}

/// Reads amounts of these units, in this order, and returns their sum in nanoseconds. Returns
/// `None` if anything else follows.
#[tactic(auto, unfolding(crate::specs::SpanRead::parts_at))]
fn parts(units: &[Unit], bytes: &[u8]) -> Option<u64>
    requires { All (λ u. 1 ≤ u.nanoseconds) units.now }
    ensures { SameOrTooLong result
        (parts_at (map (λ u. (u.letters.now, u.nanoseconds)) units.now) bytes.now) }
{
    match units {
        [] => { if bytes.is_empty() { Some(0) } else { None } }
        [unit, smaller @ ..] => {
            let (digits, rest) = bytes.split_at(digit_count(bytes));
            let (word, after) = rest.split_at(word_len(rest));
            if 1 <= digits.len() && word == unit.letters.as_bytes() {
                let rest = parts(smaller, after)?;
                Some(scaled(digits, unit.nanoseconds, rest))
            } else {
                parts(smaller, bytes)
            }
        }
    }
}
