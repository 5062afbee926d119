// The rule that governs a day.
ghost use Rattle.std.specs.Prelude.{◌≡◌, ◌≤◌, option_map};
ghost use Rattle.std.specs.List.{list_any};
ghost use Rattle.opening_hours.specs.Matching.{facts_of, is_not_later, in_dates, is_nth, is_nth_last, in_item, in_days, one_or_none, matches, governing};

use crate::holidays::Holidays;
use crate::types::{DateSpan, DayItem, HoursRule, RuleTimes};
use calendar_days::{CivilDate, Weekday, date_of, days_left, weekday_of};

/// The facts about a day that a rule depends on.
#[derive(Clone, Copy)]
pub struct DayFacts {
    pub date: CivilDate,
    pub weekday: Weekday,
    pub public: bool,
    pub school: bool,
    pub days_left: u32,
}

// Whether a day of the year is not later than another.
fn not_later(month: u32, day: u32, other_month: u32, other_day: u32) -> bool
    ensures { result ≡ is_not_later month day other_month other_day }
{
    month < other_month || (month == other_month && day <= other_day)
}

// Whether a date lies in a date span.
fn dates_hold(date: CivilDate, span: DateSpan) -> bool
    ensures { result ≡ in_dates date span }
{
    let from_first = not_later(span.first_month, span.first_day, date.month, date.day);
    let to_last = not_later(date.month, date.day, span.last_month, span.last_day);
    if not_later(
        span.first_month,
        span.first_day,
        span.last_month,
        span.last_day,
    ) {
        from_first && to_last
    } else {
        from_first || to_last
    }
}

// Whether a day of a month lies where the k-th day of its weekday does.
fn nth_holds(k: u32, day: u32) -> bool
    ensures { result ≡ is_nth k day }
{
    let last = 7 * k as u64;
    last.saturating_sub(6) <= day as u64 && day as u64 <= last
}

// Whether a day with `left` days of its month after it lies where the k-th last day of its weekday does.
fn nth_last_holds(k: u32, left: u32) -> bool
    ensures { result ≡ is_nth_last k left }
{
    let end = 7 * k as u64;
    end.saturating_sub(7) <= left as u64 && left as u64 <= end.saturating_sub(1)
}

// Whether a day item holds the day.
fn item_holds(facts: DayFacts, item: DayItem) -> bool
    ensures { result ≡ in_item facts item }
{
    match item {
        DayItem::Week(a, b) => a.days_to(facts.weekday) <= a.days_to(b),
        DayItem::Public => facts.public,
        DayItem::School => facts.school,
        DayItem::Nth(a, k) => facts.weekday.index() == a.index() && nth_holds(k, facts.date.day),
        DayItem::NthLast(a, k) => {
            facts.weekday.index() == a.index() && nth_last_holds(k, facts.days_left)
        }
    }
}

// Whether there are no date spans, or one that the date lies in.
fn any_date(date: CivilDate, dates: &[DateSpan]) -> bool
    ensures { result ≡ one_or_none (in_dates date) dates.now }
{
    dates.is_empty() || some_date(date, dates)
}

// Whether the date lies in one of the date spans.
fn some_date(date: CivilDate, dates: &[DateSpan]) -> bool
    ensures { result ≡ list_any (in_dates date) dates.now }
{
    dates.iter().any(|s| dates_hold(date, *s))
}

// Whether there are no day items, or one that holds the day.
fn any_item(facts: DayFacts, items: &[DayItem]) -> bool
    ensures { result ≡ one_or_none (in_item facts) items.now }
{
    items.is_empty() || some_item(facts, items)
}

// Whether one of the day items holds the day.
fn some_item(facts: DayFacts, items: &[DayItem]) -> bool
    ensures { result ≡ list_any (in_item facts) items.now }
{
    items.iter().any(|i| item_holds(facts, *i))
}

// Whether the days of a rule, or the first weekday of its long span, hold the day.
fn days_hold(facts: DayFacts, items: &[DayItem], times: &RuleTimes) -> bool
    ensures { result ≡ in_days facts items.now times.now }
{
    match times {
        RuleTimes::Long(l) => facts.weekday.index() == l.weekday.index(),
        RuleTimes::Off => any_item(facts, items),
        RuleTimes::Spans(_) => any_item(facts, items),
    }
}

// Whether a rule matches the day.
fn rule_matches(facts: DayFacts, rule: &HoursRule) -> bool
    ensures { result ≡ matches facts rule.now }
{
    any_date(facts.date, rule.dates.as_slice())
        && days_hold(facts, rule.days.as_slice(), &rule.times)
}

/// The last rule that matches.
pub(crate) fn last_match<'a>(facts: DayFacts, rules: &'a [HoursRule]) -> Option<&'a HoursRule>
    ensures { option_map (λ r. r.now) result ≡ governing facts rules.now }
{
    let mut found = None;
    let mut rest = rules;
    while let [rule, after @ ..] = rest {
        if rule_matches(facts, rule) {
            found = Some(rule);
        }
        rest = after;
    }
    found
}

/// The facts about the day that a rule depends on.
#[tactic(auto, unfolding(crate::specs::Matching::facts_of))]
pub(crate) fn day_facts(day: u32, holidays: &Holidays) -> DayFacts
    requires { day ≤ 84370 }
    ensures { result ≡ facts_of holidays.now day }
{
    let date = date_of(day);
    DayFacts {
        date,
        weekday: weekday_of(day),
        public: holidays.is_public(day),
        school: holidays.is_school(day),
        days_left: days_left(date),
    }
}
