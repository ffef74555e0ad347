//! Reading the fields of time intervals (`times`, `weekdays`, `days_of_month`, `months` and `years`
//! of Alertmanager's configuration), from texts and numbers. `amr_config` calls these.
ghost use Rattle.std.specs.Prelude.{◌≡◌, ◌+◌, ◌≤◌, IfSome, length};
ghost use Rattle.std.specs.List.{list_all, position};
ghost use Rattle.std.specs.Str.{str_eq_ignore_ascii_case};
ghost use Rattle.amr_time.specs.MomentRead.{is_digit as tests_digit};
ghost use Rattle.amr_time.specs.IntervalTexts.{time_at, end_time_at, is_number as number_of, number_within, weekday_at, month_at, year_at, month_day_at, before_colon, ends_of, range_from, weekdays_at, months_at, years_at, may_go_to, day_range_from, days_at, single, month_numbered, day_numbered};

use crate::digits::{is_digit, wide_number};
use crate::intervals::{DayRange, MonthDay, Range};
use crate::reading::minutes;

/// Reads a time of day `HH:MM`, in minutes since midnight.
#[tactic(auto, unfolding(crate::specs::IntervalTexts::time_at))]
pub fn time_of_day(text: &str) -> Option<u32>
    ensures { result ≡ time_at text.now }
{
    let (minutes, rest) = minutes(text.as_bytes())?;
    if rest.is_empty() { Some(minutes) } else { None }
}

/// Reads the end of a range of times, which may also be `24:00`.
#[tactic(auto, unfolding(crate::specs::IntervalTexts::end_time_at))]
pub fn end_time_of_day(text: &str) -> Option<u32>
    ensures { result ≡ end_time_at text.now }
{
    if text == "24:00" {
        return Some(1440);
    }
    time_of_day(text)
}

impl Range {
    /// Reads weekdays: a name, or `first:last`. The week runs from Sunday to Saturday.
    #[tactic(auto, unfolding(crate::specs::IntervalTexts::weekdays_at))]
    pub fn read_weekdays(text: &str) -> Option<Range>
        ensures { result ≡ weekdays_at text.now }
    {
        let (first, last) = ends(text.as_bytes());
        range(weekday(first)?, weekday(last)?)
    }

    /// Reads months: a name or a number, or `first:last` of these.
    #[tactic(auto, unfolding(crate::specs::IntervalTexts::months_at))]
    pub fn read_months(text: &str) -> Option<Range>
        ensures { result ≡ months_at text.now }
    {
        let (first, last) = ends(text.as_bytes());
        range(month(first)?, month(last)?)
    }

    /// Reads years: a number, or `first:last`.
    #[tactic(auto, unfolding(crate::specs::IntervalTexts::years_at))]
    pub fn read_years(text: &str) -> Option<Range>
        ensures { result ≡ years_at text.now }
    {
        let (first, last) = ends(text.as_bytes());
        range(year(first)?, year(last)?)
    }

    /// Returns the range of one number.
    pub fn single(number: u64) -> Range
        ensures { result ≡ single number }
    {
        Range {
            first: number,
            last: number,
        }
    }

    /// Returns the range of one month, if there is a month with this number.
    pub fn month(number: u64) -> Option<Range>
        ensures { result ≡ month_numbered number }
    {
        if 1 <= number && number <= 12 {
            Some(Range::single(number))
        } else {
            None
        }
    }
}

impl DayRange {
    /// Reads days of the month: 1 to 31 or -1 to -31, or `first:last` of these.
    #[tactic(auto, unfolding(crate::specs::IntervalTexts::days_at))]
    pub fn read(text: &str) -> Option<DayRange>
        ensures { result ≡ days_at text.now }
    {
        let (first, last) = ends(text.as_bytes());
        day_range(month_day(first)?, month_day(last)?)
    }

    /// Returns the range of one day, if a month can have it; -1 is the last day of the month.
    pub fn day(number: i64) -> Option<DayRange>
        ensures { result ≡ day_numbered number }
    {
        let day = if 1 <= number && number <= 31 {
            MonthDay::FromStart(number as u32)
        } else if -31 <= number && number <= -1 {
            MonthDay::FromEnd((-number) as u32)
        } else {
            return None;
        };
        Some(DayRange {
            first: day,
            last: day,
        })
    }
}

/// Splits the text at its first colon. Returns the whole text twice if it has none.
#[tactic(auto, unfolding(crate::specs::IntervalTexts::ends_of))]
fn ends(bytes: &[u8]) -> (&[u8], &[u8])
    ensures { (result.0.now, result.1.now) ≡ ends_of bytes.now }
{
    let index = colon_index(bytes);
    if index < bytes.len() {
        (&bytes[..index], &bytes[index + 1..])
    } else {
        (bytes, bytes)
    }
}

/// Returns how many bytes are before the first colon.
fn colon_index(bytes: &[u8]) -> usize
    ensures { result ≡ length (before_colon bytes.now) }
{
    bytes.iter().take_while(|byte| **byte != b':').count()
}

/// Returns the range, unless it ends before it begins.
fn range(first: u64, last: u64) -> Option<Range>
    ensures { result ≡ range_from first last }
{
    if first <= last {
        Some(Range { first, last })
    } else {
        None
    }
}

/// Returns the range of days, unless it may end before it begins.
fn day_range(first: MonthDay, last: MonthDay) -> Option<DayRange>
    ensures { result ≡ day_range_from first last }
{
    if first.may_go_to(last) {
        Some(DayRange { first, last })
    } else {
        None
    }
}

impl MonthDay {
    /// Returns whether a range may go from this day to that one.
    fn may_go_to(self, last: MonthDay) -> bool
        ensures { result ≡ may_go_to self last }
    {
        match (self, last) {
            (MonthDay::FromStart(first), MonthDay::FromStart(last)) => first <= last,
            (MonthDay::FromStart(_), MonthDay::FromEnd(_)) => true,
            (MonthDay::FromEnd(_), MonthDay::FromStart(_)) => false,
            (MonthDay::FromEnd(first), MonthDay::FromEnd(last)) => last <= first,
        }
    }
}

const WEEKDAYS: [&str; 7] = [
    "sunday",
    "monday",
    "tuesday",
    "wednesday",
    "thursday",
    "friday",
    "saturday",
];

const MONTHS: [&str; 12] = [
    "january",
    "february",
    "march",
    "april",
    "may",
    "june",
    "july",
    "august",
    "september",
    "october",
    "november",
    "december",
];

/// Returns the index of the name that the text is, ignoring ASCII case.
fn index_of(names: &[&str], bytes: &[u8]) -> Option<usize>
    ensures { result ≡ position (λ name. str_eq_ignore_ascii_case bytes.now name.now) names.now }
{
    names.iter().position(|name| is_name(bytes, name))
}

fn is_name(bytes: &[u8], name: &str) -> bool
    ensures { result ≡ str_eq_ignore_ascii_case bytes.now name.now }
{
    bytes.eq_ignore_ascii_case(name.as_bytes())
}

/// Reads the name of a weekday, as its number from Sunday, which is 0.
fn weekday(bytes: &[u8]) -> Option<u64>
    ensures { result ≡ weekday_at bytes.now }
{
    let index = index_of(&WEEKDAYS, bytes)?;
    Some(index as u64)
}

/// Reads the name or the number of a month, as its number from 1.
#[tactic(auto, unfolding(crate::specs::IntervalTexts::month_at))]
fn month(bytes: &[u8]) -> Option<u64>
    ensures { result ≡ month_at bytes.now }
{
    match index_of(&MONTHS, bytes) {
        Some(index) => Some(index as u64 + 1),
        None => number(1, 12, bytes),
    }
}

/// Reads a year.
fn year(bytes: &[u8]) -> Option<u64>
    ensures { result ≡ year_at bytes.now }
{
    number(0, u64::MAX, bytes)
}

/// Reads a day of the month, 1 to 31 or -1 to -31.
fn month_day(bytes: &[u8]) -> Option<MonthDay>
    ensures { result ≡ month_day_at bytes.now }
{
    match bytes {
        [] => None,
        [b'-', digits @ ..] => Some(MonthDay::FromEnd(number(1, 31, digits)? as u32)),
        _ => Some(MonthDay::FromStart(number(1, 31, bytes)? as u32)),
    }
}

/// Reads a decimal number between two bounds, which are allowed.
#[tactic(auto, unfolding(crate::specs::IntervalTexts::number_within))]
fn number(least: u64, greatest: u64, bytes: &[u8]) -> Option<u64>
    ensures value { result ≡ number_within least greatest bytes.now }
    ensures bound { IfSome result (λ n. n ≤ greatest) }
{
    if !is_number(bytes) {
        return None;
    }
    let number = wide_number(bytes);
    if least as u128 <= number && number <= greatest as u128 {
        Some(number as u64)
    } else {
        None
    }
}

/// Returns whether there are digits, and nothing else.
fn is_number(bytes: &[u8]) -> bool
    ensures { result ≡ number_of bytes.now }
{
    !bytes.is_empty() && are_digits(bytes)
}

fn are_digits(bytes: &[u8]) -> bool
    ensures { result ≡ list_all tests_digit bytes.now }
{
    bytes.iter().all(|byte| is_digit(*byte))
}
