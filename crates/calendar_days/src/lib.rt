//! Dates, weekdays and instants: the bridge between the day numbers and minutes that the planner counts in and the texts
//! that people write (proleptic Gregorian calendar, ISO 8601).
//!
//! The law is in `specs/`: `Days` (the day number of a date by whole years and months, and the date of a day number one day
//! after another), `Weekdays` and `Texts` (the texts of dates and instants, and what bytes give). The day numbers are computed
//! by jiff's calendar; that its sum over the years is the law's is in `proofs/DayNumbers`.
#![tactic(auto)]

mod days;
mod digits;
mod instants;
mod threads;
mod weekday;

pub use days::{CivilDate, date_of, day_of, days_left, weekday_of};
pub use instants::{NotADate, NotAnInstant, instant_text, read_date, read_instant};
pub use weekday::Weekday;
