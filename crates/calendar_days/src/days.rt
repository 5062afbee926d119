// Dates and weekdays of day numbers.
ghost use Rattle.std.specs.Prelude.{◌≡◌, ◌≤◌, IsTrue, IfSome, pos};
ghost use Rattle.jiff_core.specs.Date.{epoch_day};
ghost use Rattle.jiff_core.specs.Weekday.{monday_zero};
ghost use Rattle.calendar_days.specs.Days.{days_of_month, is_date, date_from, later_days, day_number, day_of_parts, date_on};
ghost use Rattle.calendar_days.specs.Weekdays.{index_of, weekday_on};

use crate::Weekday;
use jiff_core::civil;
use jiff_core::civil::Date;

/// A date of the proleptic Gregorian calendar, its month from 1 to 12 and its day from 1.
#[derive(Clone, Copy, Debug, PartialEq, Eq)]
pub struct CivilDate {
    pub year: u32,
    pub month: u32,
    pub day: u32,
}

// The number of the last day of a month.
fn month_length(year: u32, month: u32) -> u32
    requires year { year ≤ 9999 }
    requires month { month ≤ 12 }
    ensures { result ≡ days_of_month year month }
{
    civil::days_in_month(year as i16, month as u8) as u32
}

// Whether a date of the years 1970 to 2200 has this year, month and day.
fn exists(year: u32, month: u32, day: u32) -> bool
    ensures { result ≡ is_date (date_from year month day) }
{
    1970 <= year
        && year <= 2200
        && 1 <= month
        && month <= 12
        && 1 <= day
        && day <= month_length(year, month)
}

// The days from 1970-01-01 to the date, by jiff's calendar.
fn day_number(date: CivilDate) -> u32
    requires { IsTrue (is_date date) }
    ensures value { result ≡ day_number date }
    ensures date { date_on result ≡ date }
    ensures small { result ≤ 84370 }
{
    let date = Date {
        year: date.year as i16,
        month: date.month as u8,
        day: date.day as u8,
    };
    date.to_unix_epoch_day() as u32
}

/// The day number of a date of the years 1970 to 2200, from day 0, 1970-01-01, to day 84370, 2200-12-31; `None` exactly if the
/// calendar (proleptic Gregorian, ISO 8601) has no such date in these years. In constant time.
pub fn day_of(year: u32, month: u32, day: u32) -> Option<u32>
    ensures value { result ≡ day_of_parts year month day }
    ensures date { IfSome result (λ n. date_on n ≡ date_from year month day) }
    ensures small { IfSome result (λ n. n ≤ 84370) }
{
    if exists(year, month, day) {
        Some(day_number(CivilDate { year, month, day }))
    } else {
        None
    }
}

// The date of a day number, by jiff's calendar.
fn calendar_day(day: u32) -> Date
    requires { day ≤ 84370 }
    ensures { epoch_day result ≡ pos day }
{
    Date::from_unix_epoch_day(day as i64).unwrap()
}

/// The date of a day number, from 1970-01-01 to 2200-12-31. In constant time.
pub fn date_of(day: u32) -> CivilDate
    requires { day ≤ 84370 }
    ensures value { result ≡ date_on day }
    ensures date { IsTrue (is_date result) }
    ensures number { day_number result ≡ day }
{
    let date = calendar_day(day);
    CivilDate {
        year: date.year as u32,
        month: date.month as u32,
        day: date.day as u32,
    }
}

/// The number of days of the date's month after it, 0 on its last day. In constant time.
pub fn days_left(date: CivilDate) -> u32
    requires { IsTrue (is_date date) }
    ensures { result ≡ later_days date }
{
    month_length(date.year, date.month) - date.day
}

// The weekday that jiff's weekday is.
fn weekday_from(weekday: civil::Weekday) -> Weekday
    ensures { index_of result ≡ monday_zero weekday }
{
    match weekday {
        civil::Weekday::Monday => Weekday::Mo,
        civil::Weekday::Tuesday => Weekday::Tu,
        civil::Weekday::Wednesday => Weekday::We,
        civil::Weekday::Thursday => Weekday::Th,
        civil::Weekday::Friday => Weekday::Fr,
        civil::Weekday::Saturday => Weekday::Sa,
        civil::Weekday::Sunday => Weekday::Su,
    }
}

/// The weekday of a day number: day 0 is a Thursday. In constant time.
pub fn weekday_of(day: u32) -> Weekday
    requires { day ≤ 84370 }
    ensures { result ≡ weekday_on day }
{
    weekday_from(calendar_day(day).weekday())
}
