// The minutes that hours cover.
ghost use Rattle.std.specs.Prelude.{◌≡◌, ◌+◌, ◌*◌, ◌<◌, ◌≤◌, IfOk, IsTrue, ◌↔◌};
ghost use Rattle.std.specs.List.{list_any};
ghost use Rattle.opening_hours.specs.Coverage.{spans_of_times, day_spans, holds, IsCovered, is_covered};

use crate::holidays::Holidays;
use crate::hours::Hours;
use crate::matching::{day_facts, last_match};
use crate::types::{HoursRule, RuleTimes, Spans, TimeSpan};
use route_base::{Listing, OutOfMemory};
use std::alloc::Global;

// Whether a span holds a minute, counted from the start of the span's day.
fn holds_at(at: u32, span: TimeSpan) -> bool
    ensures { result ≡ holds at span }
{
    span.start <= at && at - span.start < span.length
}

// Whether one of the spans of a rule holds a minute.
fn times_hold(at: u32, times: &RuleTimes) -> bool
    ensures { result ≡ list_any (holds at) (spans_of_times times.now) }
{
    match times {
        RuleTimes::Off => false,
        RuleTimes::Spans(spans) => spans.as_slice().iter().any(|s| holds_at(at, *s)),
        RuleTimes::Long(l) => {
            holds_at(
                at,
                TimeSpan {
                    start: l.start,
                    length: l.length,
                },
            )
        }
    }
}

// Whether a span of one of the rules holds a minute, on whatever day.
fn any_day_holds(at: u32, rules: &[HoursRule]) -> bool
    ensures { result ≡ list_any (λ r. list_any (holds at) (spans_of_times r.times)) rules.now }
{
    rules.iter().any(|rule| times_hold(at, &rule.times))
}

// Whether a span of the day's governing rule holds the minute, counted from the day's start. The date is looked up only where a rule
// has a span that holds the minute.
#[tactic(auto, using(crate::proofs::CoverTests::none_governs))]
fn day_holds(rules: &[HoursRule], day: u32, at: u32, holidays: &Holidays) -> bool
    requires { day ≤ 84370 }
    ensures { result ≡ list_any (holds at) (day_spans rules.now holidays.now day) }
{
    if !any_day_holds(at, rules) {
        return false;
    }
    match last_match(day_facts(day, holidays), rules) {
        None => false,
        Some(rule) => times_hold(at, &rule.times),
    }
}

/// Whether the hours cover a minute of local time: a day number (days since 1970-01-01) and the minute of that day. It looks at
/// at most eight days, each in time linear in the rules and their spans, and takes no memory.
#[tactic(auto, using(crate::proofs::CoverTests::one_covers, crate::proofs::CoverTests::none_covers))]
pub fn covers(hours: &Hours, day: u32, minute: u32, holidays: &Holidays) -> bool
    requires from { 7 ≤ day }
    requires to { day ≤ 84370 }
    requires minute { minute < 1440 }
    ensures value { result ≡ is_covered hours.now holidays.now day minute }
    ensures covered { IsTrue result ↔ IsCovered hours.now holidays.now day minute }
{
    let rules = hours.rules();
    for k in 0..8u32 {
        if day_holds(rules, day - k, minute + 1440 * k, holidays) {
            return true;
        }
    }
    false
}

// A copy of the spans.
fn copied(alloc: Global, spans: &[TimeSpan]) -> Result<Spans, OutOfMemory>
    ensures { IfOk result (λ s. s ≡ spans.now) }
{
    let mut out = Listing::new(alloc);
    for s in spans {
        out.push(*s)?;
    }
    Ok(out)
}

// The spans of a rule.
fn spans_of_rule(alloc: Global, times: &RuleTimes) -> Result<Spans, OutOfMemory>
    ensures { IfOk result (λ s. s ≡ spans_of_times times.now) }
{
    match times {
        RuleTimes::Off => Ok(Listing::new(alloc)),
        RuleTimes::Spans(spans) => copied(alloc, spans.as_slice()),
        RuleTimes::Long(l) => {
            let mut out = Listing::new(alloc);
            out.push(TimeSpan {
                start: l.start,
                length: l.length,
            })?;
            Ok(out)
        }
    }
}

/// The spans that start on the day: those of its governing rule, and none where there is no such rule or it is `off`. A long
/// span is one of them. Linear in the rules and the spans.
pub fn spans_on(
    alloc: Global,
    hours: &Hours,
    day: u32,
    holidays: &Holidays,
) -> Result<Spans, OutOfMemory>
    requires { day ≤ 84370 }
    ensures { IfOk result (λ s. s ≡ day_spans hours.now holidays.now day) }
{
    match last_match(day_facts(day, holidays), hours.rules()) {
        None => Ok(Listing::new(alloc)),
        Some(rule) => spans_of_rule(alloc, &rule.times),
    }
}
