//! Reading moments from RFC 3339, from left to right. Each part is read from the front of the
//! bytes, and returned with the bytes after it.
ghost use Rattle.std.specs.Prelude.{◌≡◌, ◌<◌, ◌≤◌, ◌^◌, pos, ◌+◌, ◌*◌, ◌+ℤ◌, ◌-ℤ◌, ◌*ℤ◌, option_map, IfSome, IfOk, IfErr};
ghost use Rattle.std.specs.Result.{result_ok};
ghost use Rattle.jiff_core.specs.Calendar.{IsEpochDay, IsWithin};
ghost use Rattle.amr_time.specs.declared.error.TimeError.TheVariants.{BadTime};
ghost use Rattle.amr_time.specs.Time.{latest_read};
ghost use Rattle.amr_time.specs.MomentText.{IsMomentText};
ghost use Rattle.amr_time.specs.MomentRead.{mark_at, two_at, four_at, day_at, in_day_at, minutes_at, seconds_at, fraction_digits_at, fraction_at, offset_at, time_mark_at, in_range, moment_at};

use crate::digits::{capped, digit_count, is_digit};
use crate::error::TimeError;
use crate::moments::Moment;
use jiff_core::civil::Date;

/// Reads a moment: a date and a time of day as in RFC 3339, in the years 1970 to 8999, with at most
/// nine digits of a fraction.
///
/// `T` and `Z` may be in either case. The leap second 60 is refused.
#[tactic(auto, using(crate::proofs::Takes::read_is_spelled))]
pub fn read_moment(text: &str) -> Result<Moment, TimeError>
    ensures value { result_ok result ≡ moment_at text.now }
    ensures spelled { IfOk result (λ moment. IsMomentText text.now moment) }
    ensures bound { IfOk result (λ m. m ≤ latest_read) }
    ensures refused { IfErr result (λ error. error ≡ BadTime) }
{
    moment(text.as_bytes()).ok_or(TimeError::BadTime)
}

/// Reads a moment from the whole text.
#[tactic(auto, unfolding(crate::specs::MomentRead::moment_at))]
fn moment(bytes: &[u8]) -> Option<Moment>
    ensures value { result ≡ moment_at bytes.now }
    ensures bound { IfSome result (λ m. m ≤ latest_read) }
{
    let (day, rest) = day(bytes)?;
    let (seconds, rest) = seconds(time_mark(rest)?)?;
    let (fraction, rest) = fraction(rest)?;
    let (offset, rest) = offset(rest)?;
    if !rest.is_empty() {
        return None;
    }
    within(nanoseconds_of(day, seconds, fraction, offset))
}

/// Returns the moment, if it is from 1970 to the end of the year 8999.
fn within(nanoseconds: i128) -> Option<Moment>
    ensures value { result ≡ in_range nanoseconds }
    ensures bound { IfSome result (λ m. m ≤ latest_read) }
{
    if 0 <= nanoseconds && nanoseconds <= 221_845_391_999_999_999_999 {
        Some(Moment::from_nanoseconds(nanoseconds as u128))
    } else {
        None
    }
}

/// Returns the nanoseconds since 1970 of the parts; `offset` is in minutes.
fn nanoseconds_of(day: i32, seconds: u32, fraction: u64, offset: i32) -> i128
    requires day_in { IsEpochDay day }
    requires seconds_in { seconds < 86400 }
    requires fraction_in { fraction < 2 ^ 60 }
    requires offset_in { IsWithin 1440 offset }
    ensures { result
        ≡ day *ℤ pos 86_400_000_000_000 +ℤ pos (seconds * 1_000_000_000 + fraction) -ℤ offset *ℤ pos
        60_000_000_000 }
{
    let clock = seconds as u64 * 1_000_000_000 + fraction;
    day as i128 * 86_400_000_000_000 + clock as i128 - offset as i128 * 60_000_000_000
}

/// Reads the `T` between date and time, and returns what follows it.
fn time_mark(bytes: &[u8]) -> Option<&[u8]>
    ensures { option_map (λ rest. rest.now) result ≡ time_mark_at bytes.now }
{
    match bytes {
        [b'T' | b't', rest @ ..] => Some(rest),
        _ => None,
    }
}

/// Reads the offset from UTC, in minutes.
#[tactic(auto, unfolding(crate::specs::MomentRead::offset_at))]
fn offset(bytes: &[u8]) -> Option<(i32, &[u8])>
    ensures value { option_map (λ x. (x.0, x.1.now)) result ≡ offset_at bytes.now }
    ensures bound { IfSome result (λ x. IsWithin 1440 x.0) }
{
    match bytes {
        [b'Z' | b'z', rest @ ..] => Some((0, rest)),
        [b'+', rest @ ..] => {
            let (minutes, rest) = minutes(rest)?;
            Some((minutes as i32, rest))
        }
        [b'-', rest @ ..] => {
            let (minutes, rest) = minutes(rest)?;
            Some((-(minutes as i32), rest))
        }
        _ => None,
    }
}

/// Reads the fraction of a second in nanoseconds, which is 0 if there is none.
fn fraction(bytes: &[u8]) -> Option<(u64, &[u8])>
    ensures value { option_map (λ x. (x.0, x.1.now)) result ≡ fraction_at bytes.now }
    ensures bound { IfSome result (λ x. x.0 < 2 ^ 60) }
{
    match bytes {
        [b'.', rest @ ..] => fraction_digits(rest),
        _ => Some((0, bytes)),
    }
}

/// Reads a fraction of one to nine digits, in nanoseconds.
#[tactic(auto, using(crate::proofs::Decimals::fraction_gives, crate::proofs::Decimals::fraction_bound))]
fn fraction_digits(bytes: &[u8]) -> Option<(u64, &[u8])>
    ensures value { option_map (λ x. (x.0, x.1.now)) result ≡ fraction_digits_at bytes.now }
    ensures bound { IfSome result (λ x. x.0 < 2 ^ 60) }
{
    let count = digit_count(bytes);
    if count < 1 || count > 9 {
        return None;
    }
    let number = capped(&bytes[..count], 999_999_999);
    Some((number * 10u64.pow(9 - count as u32), &bytes[count..]))
}

/// Reads hours, minutes and seconds, in seconds.
#[tactic(auto, unfolding(crate::specs::MomentRead::seconds_at))]
fn seconds(bytes: &[u8]) -> Option<(u32, &[u8])>
    ensures value { option_map (λ x. (x.0, x.1.now)) result ≡ seconds_at bytes.now }
    ensures bound { IfSome result (λ x. x.0 < 86400) }
{
    let (minutes, rest) = minutes(bytes)?;
    let (second, rest) = two(mark(rest, b':')?)?;
    if second < 60 {
        Some((minutes * 60 + second as u32, rest))
    } else {
        None
    }
}

/// Returns the minutes since midnight of a time of day, if there is one, and the rest.
fn in_day(hour: u8, minute: u8, rest: &[u8]) -> Option<(u32, &[u8])>
    ensures value { option_map (λ x. (x.0, x.1.now)) result ≡ in_day_at hour minute rest.now }
    ensures bound { IfSome result (λ x. x.0 < 1440) }
{
    if hour < 24 && minute < 60 {
        Some((hour as u32 * 60 + minute as u32, rest))
    } else {
        None
    }
}

/// Reads hours and minutes, in minutes.
#[tactic(auto, unfolding(crate::specs::MomentRead::minutes_at))]
pub(crate) fn minutes(bytes: &[u8]) -> Option<(u32, &[u8])>
    ensures value { option_map (λ x. (x.0, x.1.now)) result ≡ minutes_at bytes.now }
    ensures bound { IfSome result (λ x. x.0 < 1440) }
{
    let (hour, rest) = two(bytes)?;
    let (minute, rest) = two(mark(rest, b':')?)?;
    in_day(hour, minute, rest)
}

/// Reads a date, as its day number.
#[tactic(auto, unfolding(crate::specs::MomentRead::day_at))]
fn day(bytes: &[u8]) -> Option<(i32, &[u8])>
    ensures value { option_map (λ x. (x.0, x.1.now)) result ≡ day_at bytes.now }
    ensures bound { IfSome result (λ x. IsEpochDay x.0) }
{
    let (year, rest) = four(bytes)?;
    let (month, rest) = two(mark(rest, b'-')?)?;
    let (day, rest) = two(mark(rest, b'-')?)?;
    let number = day_number(year, month, day)?;
    Some((number, rest))
}

/// Returns the number of a day, from 1970-01-01, if the date exists.
#[tactic(auto, using(crate::proofs::Dates::made, crate::proofs::Dates::refused))]
fn day_number(year: u16, month: u8, day: u8) -> Option<i32>
    requires year_in { year < 10000 }
    requires month_in { month < 100 }
    requires day_in { day < 100 }
    ensures value { result ≡ Rattle.amr_time.specs.MomentRead.day_number year month day }
    ensures bound { IfSome result (λ n. IsEpochDay n) }
{
    match Date::new(year as i16, month as i8, day as i8) {
        Ok(date) => Some(date.to_unix_epoch_day()),
        Err(_) => None,
    }
}

/// Reads four digits.
#[tactic(auto, unfolding(crate::specs::MomentRead::four_at))]
fn four(bytes: &[u8]) -> Option<(u16, &[u8])>
    ensures value { option_map (λ x. (x.0, x.1.now)) result ≡ four_at bytes.now }
    ensures bound { IfSome result (λ x. x.0 < 10000) }
{
    let (high, rest) = two(bytes)?;
    let (low, rest) = two(rest)?;
    Some((high as u16 * 100 + low as u16, rest))
}

/// Reads two digits.
fn two(bytes: &[u8]) -> Option<(u8, &[u8])>
    ensures value { option_map (λ x. (x.0, x.1.now)) result ≡ two_at bytes.now }
    ensures bound { IfSome result (λ x. x.0 < 100) }
{
    match bytes {
        [tens, units, rest @ ..] => {
            if is_digit(*tens) && is_digit(*units) {
                Some(((*tens - 48) * 10 + (*units - 48), rest))
            } else {
                None
            }
        }
        _ => None,
    }
}

/// Reads one given byte, and returns what follows it.
fn mark(bytes: &[u8], wanted: u8) -> Option<&[u8]>
    ensures { option_map (λ rest. rest.now) result ≡ mark_at wanted bytes.now }
{
    match bytes {
        [found, rest @ ..] => { if *found == wanted { Some(rest) } else { None } }
        [] => None,
    }
}
