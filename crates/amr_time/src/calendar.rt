//! Dates of the Gregorian calendar, for time intervals and for writing moments. `jiff_core` does
//! the computing.
ghost use Rattle.std.specs.Prelude.{◌≡◌, ◌≤◌};
ghost use Rattle.amr_time.specs.Calendar.{date_of, month_length};

use jiff_core::civil::{Date, days_in_month};

/// Returns the year, month and day of a day, numbered from 1970-01-01, which is 0.
#[tactic(auto, using(crate::proofs::Days::same_date))]
pub(crate) fn date_with_number(day: u32) -> (u32, u32, u32)
    requires { day ≤ 2_932_896 }
    ensures { let date = date_of day in result ≡ (date.year, date.month, date.day) }
{
    match Date::from_unix_epoch_day(day as i64) {
        Ok(date) => (date.year as u32, date.month as u32, date.day as u32),
        Err(_) => unreachable!(),
    }
}

/// Returns how many days the month of a day has. Days are numbered from 1970-01-01.
pub(crate) fn month_length(day: u32) -> u32
    requires { day ≤ 2_932_896 }
    ensures value { result ≡ month_length (date_of day) }
    ensures bound { result ≤ 31 }
{
    match Date::from_unix_epoch_day(day as i64) {
        Ok(date) => days_in_month(date.year, date.month) as u32,
        Err(_) => unreachable!(),
    }
}
