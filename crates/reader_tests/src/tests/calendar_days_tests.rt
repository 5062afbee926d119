// Days, dates and instants that are known from elsewhere, and the whole calendar against a table stepped day by day.
ghost use Rattle.std.specs.Prelude.{◌≤◌};

use calendar_days::{
    CivilDate, NotADate, NotAnInstant, Weekday, date_of, day_of, instant_text, read_date,
    read_instant, weekday_of,
};
use route_base::Minute;
use route_base::limits::{FIRST_INSTANT, LAST_INSTANT};

fn month_length(year: u32, month: u32) -> u32
    ensures { result ≤ 31 }
{
    match month {
        4 | 6 | 9 | 11 => 30,
        2 => {
            if year % 4 != 0 || year == 2100 || year == 2200 {
                28
            } else {
                29
            }
        }
        _ => 31,
    }
}

// The weekdays of the first seven days.
const WEEKDAYS: [Weekday; 7] = [
    Weekday::Th,
    Weekday::Fr,
    Weekday::Sa,
    Weekday::Su,
    Weekday::Mo,
    Weekday::Tu,
    Weekday::We,
];

// Whether the day has this date, and the weekday that its number tells.
fn has_date(day: u32, date: CivilDate) -> bool {
    day <= 84_370
        && date_of(day) == date
        && day_of(date.year, date.month, date.day) == Some(day)
        && weekday_of(day) == WEEKDAYS[day as usize % 7]
}

// Whether the days of a month, which follow this many others, have their dates, and the month has no more days.
fn has_month(before: u32, year: u32, month: u32) -> bool {
    let length = month_length(year, month);
    for k in 0..length {
        let date = CivilDate {
            year,
            month,
            day: k + 1,
        };
        if !has_date(before.saturating_add(k), date) {
            return false;
        }
    }
    day_of(year, month, 0).is_none() && day_of(year, month, length + 1).is_none()
}

// The number of all days, or the first year and month that have other dates.
fn days_in_all() -> Result<u32, (u32, u32)> {
    let mut days = 0u32;
    for k in 0..231 * 12u32 {
        let (year, month) = (1970 + k / 12, 1 + k % 12);
        if !has_month(days, year, month) {
            return Err((year, month));
        }
        days = days.saturating_add(month_length(year, month));
    }
    Ok(days)
}

#[test]
fn goes_over_all_days(rt: HostRuntime) {
    assert_eq!(rt; days_in_all(), Ok(84_371));
}

// Years, months and days of the month, and the day of each.
const DAYS: &[(u32, u32, u32, Option<u32>)] = &[
    (1970, 1, 1, Some(0)),
    (2000, 2, 29, Some(11_016)),
    (2020, 7, 4, Some(18_447)),
    (2200, 12, 31, Some(84_370)),
    (2100, 2, 29, None),
    (1900, 1, 1, None),
    (1969, 12, 31, None),
    (2201, 1, 1, None),
    (2020, 13, 1, None),
];

// Whether a day is a Saturday, and what follows from that.
fn is_saturday(day: u32) -> bool
    requires { day ≤ 84370 }
{
    let weekday = weekday_of(day);
    weekday == Weekday::Sa && weekday.index() == 5 && weekday.days_to(Weekday::Mo) == 2
}

#[test]
fn knows_some_days(rt: HostRuntime) {
    for (year, month, of_month, day) in DAYS {
        let found = day_of(*year, *month, *of_month);
        assert!(rt; found == *day, "{year}-{month}-{of_month}");
    }
    assert!(rt; is_saturday(18_447));
}

// Texts, and the day of each.
const DATES: &[(&str, Result<u32, NotADate>)] = &[
    ("1970-01-01", Ok(0)),
    ("2020-07-04", Ok(18_447)),
    ("2020-7-04", Err(NotADate)),
    ("2020-07-04 ", Err(NotADate)),
    ("2020/07/04", Err(NotADate)),
    ("1969-12-31", Err(NotADate)),
    ("2201-01-01", Err(NotADate)),
    ("2021-02-29", Err(NotADate)),
];

#[test]
fn reads_dates(rt: HostRuntime) {
    for (text, day) in DATES {
        assert!(rt; read_date(text.as_bytes()) == *day, "{text}");
    }
}

// Texts, and the instant of each.
const INSTANTS: &[(&str, Result<Minute, NotAnInstant>)] = &[
    ("2020-07-04T00:00Z", Ok(26_563_680)),
    ("2020-07-04T00:00:00Z", Ok(26_563_680)),
    ("26563680", Ok(26_563_680)),
    ("1971-01-01T00:00Z", Ok(525_600)),
    ("525600", Ok(525_600)),
    ("2199-12-31T23:59:00Z", Ok(120_968_639)),
    ("2020-07-04T24:00Z", Err(NotAnInstant)),
    ("2020-07-04T23:60Z", Err(NotAnInstant)),
    ("2020-07-04T00:00:01Z", Err(NotAnInstant)),
    ("2020-07-04T00:00", Err(NotAnInstant)),
    ("2020-07-04 00:00Z", Err(NotAnInstant)),
    ("2020-07-04T00:00+00:00", Err(NotAnInstant)),
    ("2021-02-29T00:00Z", Err(NotAnInstant)),
    ("1970-12-31T23:59Z", Err(NotAnInstant)),
    ("2200-01-01T00:00Z", Err(NotAnInstant)),
    ("525599", Err(NotAnInstant)),
    ("120968640", Err(NotAnInstant)),
    ("0525600", Err(NotAnInstant)),
    ("+525600", Err(NotAnInstant)),
    ("", Err(NotAnInstant)),
];

#[test]
fn reads_instants(rt: HostRuntime) {
    for (text, minute) in INSTANTS {
        assert!(rt; read_instant(text.as_bytes()) == *minute, "{text}");
    }
}

// Whether the minute is an instant with this text.
fn has_text(minute: Minute, text: &str) -> bool {
    FIRST_INSTANT <= minute
        && minute <= LAST_INSTANT
        && instant_text(minute).as_slice() == text.as_bytes()
}

#[test]
fn writes_instants(rt: HostRuntime) {
    assert!(rt; has_text(26_563_680, "2020-07-04T00:00Z"));
    assert!(rt; has_text(120_968_639, "2199-12-31T23:59Z"));
}
