// The minutes of a day throughout which hours cover all or none.
ghost use Rattle.std.specs.Prelude.{◌≡◌, ◌+◌, ◌<◌, ◌≤◌, ℕ, Some, length, slice_get};
ghost use Rattle.opening_hours.specs.Coverage.{holds, spans_of_times};
ghost use Rattle.opening_hours.specs.declared.types.HoursRule.{HoursRule};
ghost use Rattle.road_access.specs.Inside.{AreSteady, CoverSteadily, GovernSteadily};

use opening_hours::{Hours, RuleTimes, TimeSpan};

// The number of minutes from this one on, at most `most`, that a span holds, or that it doesn't.
fn span_steady(at: u32, span: TimeSpan, most: u32) -> u32
    requires { 1 ≤ most }
    ensures some { 1 ≤ result }
    ensures most { result ≤ most }
    ensures same { (k : ℕ) → k < result → holds (at + k) span ≡ holds at span }
{
    if at < span.start {
        return most.min(span.start - at);
    }
    let gone = at - span.start;
    if gone < span.length {
        most.min(span.length - gone)
    } else {
        most
    }
}

// The same of several spans.
fn spans_steady(at: u32, spans: &[TimeSpan], most: u32) -> u32
    requires { 1 ≤ most }
    ensures some { 1 ≤ result }
    ensures most { result ≤ most }
    ensures same { AreSteady at result spans.now }
{
    let mut count = most;
    let mut left = spans;
    'spans: while let [span, rest @ ..] = left {
        count = span_steady(at, *span, count);
        left = rest;
    }
    count
}

// The same of the spans of a rule.
fn times_steady(at: u32, times: &RuleTimes, most: u32) -> u32
    requires { 1 ≤ most }
    ensures some { 1 ≤ result }
    ensures most { result ≤ most }
    ensures same { AreSteady at result (spans_of_times times.now) }
{
    match times {
        RuleTimes::Off => most,
        RuleTimes::Spans(spans) => spans_steady(at, spans.as_slice(), most),
        RuleTimes::Long(l) => {
            span_steady(
                at,
                TimeSpan {
                    start: l.start,
                    length: l.length,
                },
                most,
            )
        }
    }
}

// The same of the spans of the rule at a place.
fn rule_steady(at: u32, hours: &Hours, i: usize, most: u32) -> u32
    requires { 1 ≤ most }
    ensures some { 1 ≤ result }
    ensures most { result ≤ most }
    ensures same { (rule : HoursRule) → slice_get hours.now i ≡ Some rule
        → AreSteady at result (spans_of_times rule.times) }
{
    match hours.get(i) {
        Some(rule) => times_steady(at, &rule.times, most),
        None => most,
    }
}

// The same of the rule that governs a day, on whatever day.
fn rules_steady(at: u32, hours: &Hours, most: u32) -> u32
    requires { 1 ≤ most }
    ensures some { 1 ≤ result }
    ensures most { result ≤ most }
    ensures same { GovernSteadily at result hours.now }
{
    let mut count = most;
    for i in 0..hours.len() {
        count = rule_steady(at, hours, i, count);
    }
    count
}

// A number of minutes from this minute of a day on, one at least and at most `most`, of which the hours cover all or none, on whatever
// day: none of the spans begins or ends among them. Linear in the rules and their spans.
pub fn hours_steady(hours: &Hours, minute: u32, most: u32) -> u32
    requires minute { minute < 1440 }
    requires room { 1 ≤ most }
    ensures some { 1 ≤ result }
    ensures most { result ≤ most }
    ensures same { CoverSteadily hours.now minute result }
{
    let mut count = most;
    for k in 0..8u32 {
        count = rules_steady(minute + 1440 * k, hours, count);
    }
    count
}
