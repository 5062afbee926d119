// Rules of hours as data.
use calendar_days::Weekday;
use route_base::Listing;

/// The dates from one day of a month to another, in each year and both included. Where the first is later than the last,
/// they go on over the end of the year. Months are from 1 to 12 and days from 1 to 31, also in months that have no such day.
#[derive(Clone, Copy, Debug, PartialEq, Eq)]
pub struct DateSpan {
    pub first_month: u32,
    pub first_day: u32,
    pub last_month: u32,
    pub last_day: u32,
}

/// Days from one weekday forward to another, both included; holidays; or the days of a weekday that are the n-th or the n-th last
/// of their month, n from 1 to 5.
#[derive(Clone, Copy, Debug, PartialEq, Eq)]
pub enum DayItem {
    Week(Weekday, Weekday),
    Public,
    School,
    Nth(Weekday, u32),
    NthLast(Weekday, u32),
}

/// A span of minutes: its start, counted from the start of its day, and its length.
#[derive(Clone, Copy, Debug, PartialEq, Eq)]
pub struct TimeSpan {
    pub start: u32,
    pub length: u32,
}

/// A span of minutes that starts on a weekday, of at most a week.
#[derive(Clone, Copy, Debug, PartialEq, Eq)]
pub struct LongSpan {
    pub weekday: Weekday,
    pub start: u32,
    pub length: u32,
}

/// Date spans, as they are written.
pub type DateSpans = Listing<DateSpan>;

/// Day items, as they are written.
pub type DayItems = Listing<DayItem>;

/// Spans, as they are written.
pub type Spans = Listing<TimeSpan>;

/// The times of a rule: none at all, spans, or one long span.
#[derive(Drop)]
pub enum RuleTimes {
    Off,
    Spans(Spans),
    Long(LongSpan),
}

/// A rule: no dates mean all, no days mean all, and a rule with a long span has no days beside the span's weekday.
pub struct HoursRule {
    pub dates: DateSpans,
    pub days: DayItems,
    pub times: RuleTimes,
}

// By hand, so that the drops of its parts are proved here alone.
impl Drop for HoursRule {
    fn drop(self) {
        let Self { dates, days, times } = self;
    }
}
