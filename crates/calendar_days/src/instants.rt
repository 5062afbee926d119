// Dates and instants as texts.
ghost use Rattle.std.specs.Prelude.{◌≡◌, ℕ, ◌≤◌, ◌||◌, codes, bytes_eq, IfSome, IfOk, Some};
ghost use Rattle.std.specs.Result.{result_ok};
ghost use Rattle.route_base.specs.Time.{IsInstant};
ghost use Rattle.calendar_days.specs.Days.{date_on};
ghost use Rattle.calendar_days.specs.Texts.{day_of_text, minute_of_day, clock_of, dated_minute_of, instant_of};
ghost use Rattle.calendar_days.specs.Texts.{date_text_of, instant_text_of, IsTextOf};

use crate::digits::{read_four, read_two, two_digits};
use crate::{date_of, day_of};
use route_base::limits::{DAY_MINUTES, FIRST_INSTANT, LAST_INSTANT};
use route_base::{Minute, read_minute};

/// The fault of bytes that are no text of an instant.
#[derive(Clone, Copy, Debug, PartialEq, Eq)]
pub struct NotAnInstant;

/// The fault of bytes that are no text of a date of the years 1970 to 2200.
#[derive(Clone, Copy, Debug, PartialEq, Eq)]
pub struct NotADate;

// The day number of `YYYY-MM-DD`.
#[tactic(auto, unfolding(crate::specs::Texts::day_of_text))]
fn read_day(bytes: &[u8]) -> Option<u32>
    ensures value { result ≡ day_of_text bytes.now }
    ensures small { IfSome result (λ n. n ≤ 84370) }
{
    match bytes {
        [y3, y2, y1, y0, a, m1, m0, b, d1, d0] => {
            if *a != b'-' || *b != b'-' {
                return None;
            }
            let year = read_four(*y3, *y2, *y1, *y0)?;
            let month = read_two(*m1, *m0)?;
            let day = read_two(*d1, *d0)?;
            day_of(year, month, day)
        }
        _ => None,
    }
}

// The minute of the day of an hour and a minute, if they exist.
fn time_of_day(hour: u32, minute: u32) -> Option<Minute>
    ensures value { result ≡ minute_of_day hour minute }
    ensures small { IfSome result (λ n. n ≤ 1439) }
{
    if hour < 24 && minute < 60 {
        Some((60 * hour + minute) as Minute)
    } else {
        None
    }
}

// Whether a clock may end in these bytes.
fn is_end_of_clock(end: &[u8]) -> bool
    ensures { result ≡ (bytes_eq end.now (codes "Z") || bytes_eq end.now (codes ":00Z")) }
{
    end == b"Z".as_slice() || end == b":00Z".as_slice()
}

// The minute of the day of `THH:MMZ` or `THH:MM:00Z`.
#[tactic(auto, using(crate::proofs::Pieces::clock_by_place, crate::proofs::Pieces::no_clock))]
fn read_clock(bytes: &[u8]) -> Option<Minute>
    ensures value { result ≡ clock_of bytes.now }
    ensures small { IfSome result (λ n. n ≤ 1439) }
{
    match bytes {
        [t, h1, h0, c, n1, n0, end @ ..] => {
            if *t != b'T' || *c != b':' {
                return None;
            }
            if !is_end_of_clock(end) {
                return None;
            }
            let hour = read_two(*h1, *h0)?;
            let minute = read_two(*n1, *n0)?;
            time_of_day(hour, minute)
        }
        _ => None,
    }
}

// The instant that a date and a clock write.
#[tactic(auto, using(crate::proofs::Pieces::short_no_day))]
fn read_dated_minute(bytes: &[u8]) -> Option<Minute>
    ensures value { result ≡ dated_minute_of bytes.now }
    ensures instant { IfSome result IsInstant }
{
    let (date, clock) = bytes.split_at_checked(10)?;
    let day = read_day(date)?;
    let minute = DAY_MINUTES * day as Minute + read_clock(clock)?;
    if FIRST_INSTANT <= minute && minute <= LAST_INSTANT {
        Some(minute)
    } else {
        None
    }
}

/// Parses a date, `YYYY-MM-DD`, to its day number: a date from 1970-01-01 to 2200-12-31; an error exactly for all other bytes. In
/// constant time.
pub fn read_date(bytes: &[u8]) -> Result<u32, NotADate>
    ensures value { result_ok result ≡ day_of_text bytes.now }
    ensures small { IfOk result (λ n. n ≤ 84370) }
    ensures only { IfOk result (λ n. bytes.now ≡ date_text_of (date_on n)) }
    ensures found { (n : ℕ) → n ≤ 84370 → bytes.now ≡ date_text_of (date_on n) → result ≡ Ok n }
{
    read_day(bytes).ok_or(NotADate)
}

// The instant that the bytes write in digits, or as a date and a clock.
#[tactic(auto, unfolding(crate::specs::Texts::instant_of))]
fn minute_in(bytes: &[u8]) -> Option<Minute>
    ensures value { result ≡ instant_of bytes.now }
    ensures instant { IfSome result IsInstant }
{
    match read_minute(bytes) {
        Some(minute) => Some(minute),
        None => read_dated_minute(bytes),
    }
}

/// The instant, from 1971-01-01T00:00Z to 2199-12-31T23:59Z, that the bytes say as `YYYY-MM-DDTHH:MMZ` or `YYYY-MM-DDTHH:MM:00Z`
/// (ISO 8601, a date that exists at 00:00 to 23:59 UTC), or as a Unix minute in digits without a leading zero; an error
/// exactly for all other bytes. In constant time.
pub fn read_instant(bytes: &[u8]) -> Result<Minute, NotAnInstant>
    ensures value { result_ok result ≡ instant_of bytes.now }
    ensures instant { IfOk result IsInstant }
    ensures only { IfOk result (λ t. IsTextOf t bytes.now) }
    ensures found { (t : ℕ) → IsInstant t → IsTextOf t bytes.now → result ≡ Ok t }
{
    minute_in(bytes).ok_or(NotAnInstant)
}

/// The text of an instant, as `2020-07-04T00:00Z` (ISO 8601). In constant time.
pub fn instant_text(t: Minute) -> [u8; 17]
    requires { IsInstant t }
    ensures text { result ≡ instant_text_of t }
    ensures read { instant_of result ≡ Some t }
{
    let date = date_of((t / DAY_MINUTES) as u32);
    let minute_of_day = (t % DAY_MINUTES) as u32;
    let [y3, y2] = two_digits(date.year / 100);
    let [y1, y0] = two_digits(date.year);
    let [m1, m0] = two_digits(date.month);
    let [d1, d0] = two_digits(date.day);
    let [h1, h0] = two_digits(minute_of_day / 60);
    let [n1, n0] = two_digits(minute_of_day % 60);
    [
        y3, y2, y1, y0, b'-', m1, m0, b'-', d1, d0, b'T', h1, h0, b':', n1, n0, b'Z',
    ]
}
