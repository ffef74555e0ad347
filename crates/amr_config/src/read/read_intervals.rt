//! Reads the time intervals of a configuration, in the shapes of `time_interval` in Alertmanager's
//! configuration reference. `read/read.rt` calls it for `mute_time_intervals`, and then for
//! `time_intervals`. A location other than `UTC` is refused.
#![tactic(auto, unfolding(crate::specs::Read::Readings::next))]

ghost use Rattle.std.specs.Prelude.{◌≡◌, [], Some, codes};
ghost use Rattle.serde_json.specs.View.{view};
ghost use Rattle.amr_time.specs.IntervalTexts.{time_at, end_time_at};
ghost use Rattle.amr_config.specs.Read.Paths.{path_text};
ghost use Rattle.amr_config.specs.declared.read.read_intervals.Field.TheVariants.{Months, Years};
ghost use Rattle.amr_config.specs.Read.Answers.{Gives, Changes};
ghost use Rattle.amr_config.specs.Read.Members.{optional_member};
ghost use Rattle.amr_config.specs.Read.ReadIntervals.{range_in, day_range_in, range_into, ranges_at, time_of, time_range_at, time_range_into, times_at, location_at, interval_member_at, interval_member_into, interval_members_at, new_name_at, interval_at, interval_into, intervals_from, intervals_at};

use crate::read::defined_intervals::DefinedIntervals;
use crate::read::error::ConfigError;
use crate::read::members::{items, member, same, text};
use crate::read::value_path::ValuePath;
use crate::stated::NamedInterval;
use amr_labels::{Listing, Text};
use amr_time::{
    DayRange, IntervalMember, Range, TimeInterval, TimeRange, end_time_of_day, time_of_day,
};
use serde_json::Value;
use std::alloc::Global;

/// Reads the intervals under `mute_time_intervals` of a whole configuration.
pub(crate) fn read_mute_time_intervals(
    alloc: Global,
    value: &Value,
) -> Result<Listing<NamedInterval>, ConfigError>
    ensures { Gives (λ is. is) result
        (intervals_at (codes "mute_time_intervals") (view value.now) []) }
{
    read_intervals(alloc, value, "mute_time_intervals", Listing::new(alloc))
}

/// Appends the intervals under a key of a whole configuration. Fails for a name that an interval
/// before has, too.
#[tactic(auto, unfolding(crate::specs::Read::ReadIntervals::intervals_at, crate::specs::Read::Readings::next))]
pub(crate) fn read_intervals(
    alloc: Global,
    value: &Value,
    key: &str,
    intervals: Listing<NamedInterval>,
) -> Result<Listing<NamedInterval>, ConfigError>
    ensures { Gives (λ is. is) result (intervals_at key.now (view value.now) intervals) }
{
    match member(value, key) {
        Some(found) => with_intervals(
            alloc,
            &ValuePath::Member(&ValuePath::Top, key),
            found,
            intervals,
        ),
        None => Ok(intervals),
    }
}

/// Appends the intervals of a list.
fn with_intervals(
    alloc: Global,
    path: &ValuePath,
    value: &Value,
    intervals: Listing<NamedInterval>,
) -> Result<Listing<NamedInterval>, ConfigError>
    ensures { Gives (λ is. is) result
        (intervals_from (path_text path.now) (Some (view value.now)) intervals) }
{
    let items = items(alloc, path, value)?;
    let mut known = DefinedIntervals::new(alloc, intervals)?;
    for (index, item) in items.iter().enumerate() {
        known = add_interval(alloc, path, index, item, known)?;
    }
    Ok(known.intervals)
}

/// Appends the interval at an index of a list.
#[tactic(auto, unfolding(crate::specs::Read::ReadIntervals::interval_into, crate::specs::Read::Readings::next))]
fn add_interval(
    alloc: Global,
    path: &ValuePath,
    index: usize,
    value: &Value,
    known: DefinedIntervals,
) -> Result<DefinedIntervals, ConfigError>
    ensures { Gives (λ known. known.intervals) result
        (interval_into (path_text path.now) index (view value.now) known.intervals) }
{
    let here = ValuePath::Item(path, index);
    let interval = interval(alloc, &here, value, &known)?;
    Ok(known.with(interval)?)
}

/// Reads an interval: an object with `name` and `time_intervals`.
#[tactic(auto, unfolding(crate::specs::Read::ReadIntervals::interval_at, crate::specs::Read::Readings::next))]
fn interval(
    alloc: Global,
    path: &ValuePath,
    value: &Value,
    before: &DefinedIntervals,
) -> Result<NamedInterval, ConfigError>
    ensures { Gives (λ i. i) result
        (interval_at before.now.intervals (path_text path.now) (view value.now)) }
{
    if !value.is_object() {
        return Err(path.faulty(alloc));
    }
    let name_path = ValuePath::Member(path, "name");
    let Some(found) = member(value, "name") else {
        return Err(name_path.faulty(alloc));
    };
    let name = new_name(alloc, &name_path, found, before)?;
    let list_path = ValuePath::Member(path, "time_intervals");
    let Some(found) = member(value, "time_intervals") else {
        return Err(list_path.faulty(alloc));
    };
    let members = interval_members(alloc, &list_path, found)?;
    Ok(NamedInterval {
        name,
        interval: TimeInterval { members },
    })
}

/// Reads the name of an interval. Fails if an interval before has it.
#[tactic(auto, unfolding(crate::specs::Read::ReadIntervals::new_name_at, crate::specs::Read::Readings::next))]
fn new_name(
    alloc: Global,
    path: &ValuePath,
    value: &Value,
    before: &DefinedIntervals,
) -> Result<Text, ConfigError>
    ensures { Gives (λ name. name) result
        (new_name_at before.now.intervals (path_text path.now) (view value.now)) }
{
    let name = Text::from_str(alloc, text(alloc, path, value)?)?;
    if before.is_taken(&name) {
        return Err(path.faulty(alloc));
    }
    Ok(name)
}

/// Reads the list under `time_intervals` of an interval.
#[tactic(auto, unfolding(crate::specs::Read::ReadIntervals::interval_members_at, crate::specs::Read::Readings::next))]
fn interval_members(
    alloc: Global,
    path: &ValuePath,
    value: &Value,
) -> Result<Listing<IntervalMember>, ConfigError>
    ensures { Gives (λ ms. ms) result
        (interval_members_at (path_text path.now) (view value.now)) }
{
    let items = items(alloc, path, value)?;
    let mut members = Listing::new(alloc);
    for (index, item) in items.iter().enumerate() {
        add_interval_member(alloc, path, index, item, &mut members)?;
    }
    Ok(members)
}

/// Appends the item at an index of such a list.
#[tactic(auto, unfolding(crate::specs::Read::ReadIntervals::interval_member_into, crate::specs::Read::Readings::next))]
fn add_interval_member(
    alloc: Global,
    path: &ValuePath,
    index: usize,
    value: &Value,
    members: &mut Listing<IntervalMember>,
) -> Result<(), ConfigError>
    ensures { Changes (λ ms. ms) result members.new
        (interval_member_into (path_text path.now) index (view value.now) members.old) }
{
    let member = interval_member(alloc, &ValuePath::Item(path, index), value)?;
    members.push(member)?;
    Ok(())
}

/// Reads an item of such a list, by its keys in byte order.
#[tactic(auto, unfolding(crate::specs::Read::ReadIntervals::interval_member_at, crate::specs::Read::Readings::next))]
fn interval_member(
    alloc: Global,
    path: &ValuePath,
    value: &Value,
) -> Result<IntervalMember, ConfigError>
    ensures { Gives (λ m. m) result (interval_member_at (path_text path.now) (view value.now)) }
{
    if !value.is_object() {
        return Err(path.faulty(alloc));
    }
    let days_of_month = days_member(alloc, path, value, "days_of_month")?;
    let _location = location_member(alloc, path, value, "location")?;
    let months = ranges_member(alloc, Field::Months, path, value, "months")?;
    let times = times_member(alloc, path, value, "times")?;
    let weekdays = ranges_member(alloc, Field::Weekdays, path, value, "weekdays")?;
    let years = ranges_member(alloc, Field::Years, path, value, "years")?;
    Ok(IntervalMember {
        times,
        weekdays,
        days_of_month,
        months,
        years,
    })
}

/// Checks the location under a key; `None` if there is no such member.
fn location_member(
    alloc: Global,
    path: &ValuePath,
    value: &Value,
    key: &str,
) -> Result<Option<bool>, ConfigError>
    ensures { Gives (λ l. l) result
        (optional_member location_at (path_text path.now) key.now (view value.now)) }
{
    match member(value, key) {
        Some(found) => Ok(Some(location(alloc, &ValuePath::Member(path, key), found)?)),
        None => Ok(None),
    }
}

/// Checks that a location is `UTC`, since all moments are read in UTC. Returns `true`, or fails.
#[tactic(auto, unfolding(crate::specs::Read::ReadIntervals::location_at, crate::specs::Read::Readings::next))]
fn location(alloc: Global, path: &ValuePath, value: &Value) -> Result<bool, ConfigError>
    ensures { Gives (λ b. b) result (location_at (path_text path.now) (view value.now)) }
{
    let text = text(alloc, path, value)?;
    if same(text, "UTC") {
        Ok(true)
    } else {
        Err(path.faulty(alloc))
    }
}

/// The fields of an interval that are lists of plain ranges.
#[derive(Clone, Copy)]
enum Field {
    Weekdays,
    Months,
    Years,
}

impl Field {
    /// Returns the range that a value spells, or `None` if it spells none. A weekday is a text; a
    /// month or a year is a text or a number.
    fn range(self, value: &Value) -> Option<Range>
        ensures { result ≡ range_in self (view value.now) }
    {
        match self {
            Field::Weekdays => Range::read_weekdays(value.as_str()?),
            Field::Months => months(value),
            Field::Years => years(value),
        }
    }
}

/// Returns the range of months that a value spells.
fn months(value: &Value) -> Option<Range>
    ensures { result ≡ range_in Months (view value.now) }
{
    match value.as_str() {
        Some(text) => Range::read_months(text),
        None => Range::month(value.as_u64()?),
    }
}

/// Returns the range of years that a value spells.
fn years(value: &Value) -> Option<Range>
    ensures { result ≡ range_in Years (view value.now) }
{
    match value.as_str() {
        Some(text) => Range::read_years(text),
        None => Some(Range::single(value.as_u64()?)),
    }
}

/// Returns the range of days of the month that a value spells.
fn day_range(value: &Value) -> Option<DayRange>
    ensures { result ≡ day_range_in (view value.now) }
{
    match value.as_str() {
        Some(text) => DayRange::read(text),
        None => DayRange::day(value.as_i64()?),
    }
}

/// Reads the list of ranges under a key; `None` if there is no such member.
fn ranges_member(
    alloc: Global,
    field: Field,
    path: &ValuePath,
    value: &Value,
    key: &str,
) -> Result<Option<Listing<Range>>, ConfigError>
    ensures { Gives (λ rs. rs) result
        (optional_member (ranges_at (range_in field)) (path_text path.now) key.now
        (view value.now)) }
{
    match member(value, key) {
        Some(found) => Ok(Some(ranges(alloc, field, &ValuePath::Member(path, key), found)?)),
        None => Ok(None),
    }
}

/// Reads a list of ranges.
#[tactic(auto, unfolding(crate::specs::Read::ReadIntervals::ranges_at, crate::specs::Read::Readings::next))]
fn ranges(
    alloc: Global,
    field: Field,
    path: &ValuePath,
    value: &Value,
) -> Result<Listing<Range>, ConfigError>
    ensures { Gives (λ rs. rs) result
        (ranges_at (range_in field) (path_text path.now) (view value.now)) }
{
    let items = items(alloc, path, value)?;
    let mut ranges = Listing::new(alloc);
    for (index, item) in items.iter().enumerate() {
        add_range(alloc, field, path, index, item, &mut ranges)?;
    }
    Ok(ranges)
}

/// Appends the range at an index of a list.
#[tactic(auto, unfolding(crate::specs::Read::ReadIntervals::range_into, crate::specs::Read::Readings::next))]
fn add_range(
    alloc: Global,
    field: Field,
    path: &ValuePath,
    index: usize,
    value: &Value,
    ranges: &mut Listing<Range>,
) -> Result<(), ConfigError>
    ensures { Changes (λ rs. rs) result ranges.new
        (range_into (range_in field) (path_text path.now) index (view value.now) ranges.old) }
{
    match field.range(value) {
        Some(range) => {
            ranges.push(range)?;
            Ok(())
        }
        None => Err(ValuePath::Item(path, index).faulty(alloc)),
    }
}

/// Reads the list of days of the month under a key; `None` if there is no such member.
fn days_member(
    alloc: Global,
    path: &ValuePath,
    value: &Value,
    key: &str,
) -> Result<Option<Listing<DayRange>>, ConfigError>
    ensures { Gives (λ rs. rs) result
        (optional_member (ranges_at day_range_in) (path_text path.now) key.now (view value.now)) }
{
    match member(value, key) {
        Some(found) => Ok(Some(day_ranges(alloc, &ValuePath::Member(path, key), found)?)),
        None => Ok(None),
    }
}

/// Reads a list of ranges of days of the month.
#[tactic(auto, unfolding(crate::specs::Read::ReadIntervals::ranges_at, crate::specs::Read::Readings::next))]
fn day_ranges(
    alloc: Global,
    path: &ValuePath,
    value: &Value,
) -> Result<Listing<DayRange>, ConfigError>
    ensures { Gives (λ rs. rs) result
        (ranges_at day_range_in (path_text path.now) (view value.now)) }
{
    let items = items(alloc, path, value)?;
    let mut ranges = Listing::new(alloc);
    for (index, item) in items.iter().enumerate() {
        add_day_range(alloc, path, index, item, &mut ranges)?;
    }
    Ok(ranges)
}

/// Appends the range of days at an index of a list.
#[tactic(auto, unfolding(crate::specs::Read::ReadIntervals::range_into, crate::specs::Read::Readings::next))]
fn add_day_range(
    alloc: Global,
    path: &ValuePath,
    index: usize,
    value: &Value,
    ranges: &mut Listing<DayRange>,
) -> Result<(), ConfigError>
    ensures { Changes (λ rs. rs) result ranges.new
        (range_into day_range_in (path_text path.now) index (view value.now) ranges.old) }
{
    match day_range(value) {
        Some(range) => {
            ranges.push(range)?;
            Ok(())
        }
        None => Err(ValuePath::Item(path, index).faulty(alloc)),
    }
}

/// Reads the list of time ranges under a key; `None` if there is no such member.
fn times_member(
    alloc: Global,
    path: &ValuePath,
    value: &Value,
    key: &str,
) -> Result<Option<Listing<TimeRange>>, ConfigError>
    ensures { Gives (λ rs. rs) result
        (optional_member times_at (path_text path.now) key.now (view value.now)) }
{
    match member(value, key) {
        Some(found) => Ok(Some(times(alloc, &ValuePath::Member(path, key), found)?)),
        None => Ok(None),
    }
}

/// Reads a list of time ranges.
#[tactic(auto, unfolding(crate::specs::Read::ReadIntervals::times_at, crate::specs::Read::Readings::next))]
fn times(alloc: Global, path: &ValuePath, value: &Value) -> Result<Listing<TimeRange>, ConfigError>
    ensures { Gives (λ rs. rs) result (times_at (path_text path.now) (view value.now)) }
{
    let items = items(alloc, path, value)?;
    let mut ranges = Listing::new(alloc);
    for (index, item) in items.iter().enumerate() {
        add_time_range(alloc, path, index, item, &mut ranges)?;
    }
    Ok(ranges)
}

/// Appends the time range at an index of a list.
#[tactic(auto, unfolding(crate::specs::Read::ReadIntervals::time_range_into, crate::specs::Read::Readings::next))]
fn add_time_range(
    alloc: Global,
    path: &ValuePath,
    index: usize,
    value: &Value,
    ranges: &mut Listing<TimeRange>,
) -> Result<(), ConfigError>
    ensures { Changes (λ rs. rs) result ranges.new
        (time_range_into (path_text path.now) index (view value.now) ranges.old) }
{
    let range = time_range(alloc, &ValuePath::Item(path, index), value)?;
    ranges.push(range)?;
    Ok(())
}

/// Reads a time range: an object with `start_time` and `end_time`, in this order in the day.
#[tactic(auto, unfolding(crate::specs::Read::ReadIntervals::time_range_at, crate::specs::Read::Readings::next))]
fn time_range(alloc: Global, path: &ValuePath, value: &Value) -> Result<TimeRange, ConfigError>
    ensures { Gives (λ r. r) result (time_range_at (path_text path.now) (view value.now)) }
{
    if !value.is_object() {
        return Err(path.faulty(alloc));
    }
    let end_path = ValuePath::Member(path, "end_time");
    let Some(found) = member(value, "end_time") else {
        return Err(end_path.faulty(alloc));
    };
    let end = end_time(alloc, &end_path, found)?;
    let start_path = ValuePath::Member(path, "start_time");
    let Some(found) = member(value, "start_time") else {
        return Err(start_path.faulty(alloc));
    };
    let start = start_time(alloc, &start_path, found)?;
    if start < end {
        Ok(TimeRange { start, end })
    } else {
        Err(path.faulty(alloc))
    }
}

/// Reads a time of the day that isn't `24:00`.
#[tactic(auto, unfolding(crate::specs::Read::ReadIntervals::time_of, crate::specs::Read::Readings::next))]
fn start_time(alloc: Global, path: &ValuePath, value: &Value) -> Result<u32, ConfigError>
    ensures { Gives (λ n. n) result (time_of time_at (path_text path.now) (view value.now)) }
{
    match time_of_day(text(alloc, path, value)?) {
        Some(time) => Ok(time),
        None => Err(path.faulty(alloc)),
    }
}

/// Reads a time of the day, which may be `24:00`.
#[tactic(auto, unfolding(crate::specs::Read::ReadIntervals::time_of, crate::specs::Read::Readings::next))]
fn end_time(alloc: Global, path: &ValuePath, value: &Value) -> Result<u32, ConfigError>
    ensures { Gives (λ n. n) result (time_of end_time_at (path_text path.now) (view value.now)) }
{
    match end_time_of_day(text(alloc, path, value)?) {
        Some(time) => Ok(time),
        None => Err(path.faulty(alloc)),
    }
}
