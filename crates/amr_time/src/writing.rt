//! Writing moments in RFC 3339, for everything that is printed.
ghost use Rattle.std.specs.Prelude.{◌≡◌, ◌/◌, ◌%◌, ◌<◌, ◌++◌, ◌∷◌, OnOk, IfOk, string_bytes};
ghost use Rattle.amr_time.specs.Calendar.{date_of};
ghost use Rattle.amr_time.specs.MomentText.{digit as digit_of, four_digits, nine_digits, fraction_digits, fraction_text, date_text, time_text, moment_text};

use crate::calendar::date_with_number;
use crate::moments::Moment;
use std::alloc::{AllocError, Global};
use std::marker::Model;

const SECOND: u128 = 1_000_000_000;

const DAY: u64 = 86_400;

/// The length of the longest text, in bytes.
const LONGEST: usize = 30;

/// The text of a moment in RFC 3339, in UTC, with nine digits of a fraction unless the fraction is
/// zero. It takes no memory.
#[derive(Drop)]
pub struct MomentText {
    bytes: [u8; LONGEST],
    end: usize,
}

impl Model for MomentText {
    ghost use Rattle.std.specs.Prelude.{ℕ, ◌≤◌, List, take};

    ghost Value = { List ℕ };

    ghost view = { λ text. take text.end text.bytes };

    ghost invariant = { λ text. text.end ≤ 30 };
}

impl MomentText {
    /// Returns the text of a moment.
    pub fn of(moment: Moment) -> MomentText
        ensures { result ≡ moment_text moment }
    {
        let nanoseconds = moment.nanoseconds();
        let seconds = (nanoseconds / SECOND) as u64;
        let mut bytes = [b'Z'; LONGEST];
        bytes[..19].copy_from_slice(&date_and_time(seconds));
        let fraction = (nanoseconds % SECOND) as u32;
        if fraction == 0 {
            return MomentText { bytes, end: 20 };
        }
        bytes[19..29].copy_from_slice(&fraction_of(fraction));
        MomentText {
            bytes,
            end: LONGEST,
        }
    }

    /// Returns the bytes of the text, which are ASCII.
    pub fn as_bytes(&self) -> &[u8]
        ensures { result.now ≡ self.now }
    {
        &self.bytes[..self.end]
    }
}

/// Returns a moment as `MomentText` has it.
pub fn write_moment(alloc: Global, moment: Moment) -> Result<String, AllocError>
    ensures { IfOk result (λ text. string_bytes text ≡ moment_text moment) }
{
    let mut out = String::with_capacity(alloc, LONGEST)?;
    push_moment(&mut out, moment)?;
    Ok(out)
}

/// Appends a moment as `MomentText` has it. The proof shows that its bytes are UTF-8, so that they
/// needn't be checked here: that would take as long as making them.
pub fn push_moment(out: &mut String, moment: Moment) -> Result<(), AllocError>
    ensures { OnOk result (string_bytes out.new ≡ string_bytes out.old ++ moment_text moment) }
{
    let text = MomentText::of(moment);
    out.push_str(unsafe { str::from_utf8_unchecked(text.as_bytes()) })
}

/// Returns the date and the time of day of a second, counted from 1970, with a `T` between them.
fn date_and_time(seconds: u64) -> [u8; 19]
    requires { seconds < 253_402_300_800 }
    ensures { result
        ≡ (let date = date_of (seconds / 86_400) in date_text date.year date.month date.day)
        ++ 84 ∷ time_text (seconds / 3_600 % 24) (seconds / 60 % 60) (seconds % 60) }
{
    let (year, month, day) = date_with_number((seconds / DAY) as u32);
    let time = (seconds % DAY) as u32;
    let [hours, minutes, seconds] = [time / 3_600, time / 60 % 60, time % 60];
    [
        digit(year / 1_000),
        digit(year / 100),
        digit(year / 10),
        digit(year),
        b'-',
        digit(month / 10),
        digit(month),
        b'-',
        digit(day / 10),
        digit(day),
        b'T',
        digit(hours / 10),
        digit(hours),
        b':',
        digit(minutes / 10),
        digit(minutes),
        b':',
        digit(seconds / 10),
        digit(seconds),
    ]
}

/// Returns a dot and the last nine digits of a number.
fn fraction_of(number: u32) -> [u8; 10]
    ensures { result ≡ 46 ∷ nine_digits number }
{
    [
        b'.',
        digit(number / 100_000_000),
        digit(number / 10_000_000),
        digit(number / 1_000_000),
        digit(number / 100_000),
        digit(number / 10_000),
        digit(number / 1_000),
        digit(number / 100),
        digit(number / 10),
        digit(number),
    ]
}

/// Returns the last digit of a number.
fn digit(number: u32) -> u8
    ensures { result ≡ digit_of number }
{
    b'0' + (number % 10) as u8
}
