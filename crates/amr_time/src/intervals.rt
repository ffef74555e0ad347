//! Time intervals (`time_intervals` of Alertmanager's configuration), in UTC: whether a moment is
//! in one. Flushes ask this by way of `amr_config`.
ghost use Rattle.std.specs.Prelude.{◌≡◌, ◌≤◌};
ghost use Rattle.std.specs.List.{list_any};
ghost use Rattle.amr_time.specs.Intervals.{holds_time, holds_number, holds_day, day_in, holds_field, holds_member, is_in_interval};

use crate::calendar::{date_with_number, month_length};
use crate::moments::Moment;
use amr_labels::Listing;

/// A time interval. A moment is in it if one of its members holds at the moment.
#[derive(Drop)]
pub struct TimeInterval {
    pub members: Listing<IntervalMember>,
}

/// A member of a time interval. It holds if each field that is present holds, which is if one of
/// the field's ranges does. An empty list never holds.
#[derive(Drop)]
pub struct IntervalMember {
    pub times: Option<Listing<TimeRange>>,
    /// Counted from Sunday, which is 0.
    pub weekdays: Option<Listing<Range>>,
    pub days_of_month: Option<Listing<DayRange>>,
    /// Counted from January, which is 1.
    pub months: Option<Listing<Range>>,
    pub years: Option<Listing<Range>>,
}

/// A part of each day, in minutes since midnight, from the start to just before the end.
#[derive(Clone, Copy, PartialEq, Eq)]
pub struct TimeRange {
    pub start: u32,
    pub end: u32,
}

/// Numbers of weekdays, months or years, from the first to the last.
#[derive(Clone, Copy, PartialEq, Eq)]
pub struct Range {
    pub first: u64,
    pub last: u64,
}

/// A day of a month.
#[derive(Clone, Copy, PartialEq, Eq)]
pub enum MonthDay {
    /// Counted from the month's first day, which is 1.
    FromStart(u32),
    /// Counted from the month's last day, which is 1 (`-1` in a configuration).
    FromEnd(u32),
}

/// Days of each month, from the first to the last.
#[derive(Clone, Copy, PartialEq, Eq)]
pub struct DayRange {
    pub first: MonthDay,
    pub last: MonthDay,
}

impl TimeInterval {
    /// Returns whether a moment is in the interval.
    #[tactic(auto, unfolding(crate::specs::Intervals::is_in_interval))]
    pub fn contains(&self, moment: Moment) -> bool
        ensures { result ≡ is_in_interval self.now moment }
    {
        self.members
            .as_slice()
            .iter()
            .any(|member| member.holds(moment))
    }
}

const MINUTE: u128 = 60_000_000_000;

const DAY: u128 = 1440 * MINUTE;

impl IntervalMember {
    /// Returns whether every field holds at a moment.
    #[tactic(auto, unfolding(crate::specs::Intervals::holds_member))]
    fn holds(&self, moment: Moment) -> bool
        ensures { result ≡ holds_member moment self.now }
    {
        let nanoseconds = moment.nanoseconds();
        let day_number = (nanoseconds / DAY) as u32;
        let date = date_with_number(day_number);
        holds_times(&self.times, (nanoseconds / MINUTE % 1440) as u32)
            && holds_numbers(&self.weekdays, (day_number as u64 + 4) % 7)
            && holds_days(&self.days_of_month, month_length(day_number), date.2)
            && holds_numbers(&self.months, date.1 as u64)
            && holds_numbers(&self.years, date.0 as u64)
    }
}

fn holds_times(field: &Option<Listing<TimeRange>>, minute: u32) -> bool
    ensures { result ≡ holds_field (holds_time minute) field.now }
{
    match field {
        Some(ranges) => any_time(ranges.as_slice(), minute),
        None => true,
    }
}

fn any_time(ranges: &[TimeRange], minute: u32) -> bool
    ensures { result ≡ list_any (holds_time minute) ranges.now }
{
    ranges.iter().any(|range| range.contains(minute))
}

fn holds_numbers(field: &Option<Listing<Range>>, number: u64) -> bool
    ensures { result ≡ holds_field (holds_number number) field.now }
{
    match field {
        Some(ranges) => any_number(ranges.as_slice(), number),
        None => true,
    }
}

fn any_number(ranges: &[Range], number: u64) -> bool
    ensures { result ≡ list_any (holds_number number) ranges.now }
{
    ranges.iter().any(|range| range.contains(number))
}

fn holds_days(field: &Option<Listing<DayRange>>, length: u32, day: u32) -> bool
    requires { length ≤ 31 }
    ensures { result ≡ holds_field (holds_day length day) field.now }
{
    match field {
        Some(ranges) => any_day(ranges.as_slice(), length, day),
        None => true,
    }
}

fn any_day(ranges: &[DayRange], length: u32, day: u32) -> bool
    requires { length ≤ 31 }
    ensures { result ≡ list_any (holds_day length day) ranges.now }
{
    ranges.iter().any(|range| range.contains(length, day))
}

impl TimeRange {
    fn contains(&self, minute: u32) -> bool
        ensures { result ≡ holds_time minute self.now }
    {
        self.start <= minute && minute < self.end
    }
}

impl Range {
    fn contains(&self, number: u64) -> bool
        ensures { result ≡ holds_number number self.now }
    {
        self.first <= number && number <= self.last
    }
}

impl DayRange {
    /// Returns whether a day is in the range, in a month of this length.
    fn contains(&self, length: u32, day: u32) -> bool
        requires { length ≤ 31 }
        ensures { result ≡ holds_day length day self.now }
    {
        self.first.in_month(length) <= day && day <= self.last.in_month(length)
    }
}

impl MonthDay {
    /// Returns the day in a month of this length, or 0 if it would be before the first.
    fn in_month(self, length: u32) -> u32
        requires { length ≤ 31 }
        ensures { result ≡ day_in length self }
    {
        match self {
            MonthDay::FromStart(day) => day,
            MonthDay::FromEnd(day) => (length + 1).saturating_sub(day),
        }
    }
}
