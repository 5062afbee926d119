// Local days, laid out as runs of UTC minutes.
ghost use Rattle.std.specs.Prelude.{◌≡◌, ◌<◌, ◌≤◌, ◌+◌, ◌&&◌, ℕ, OnOk};
ghost use Rattle.std.specs.List.{list_any};
ghost use Rattle.route_base.specs.Runs.{has_minute};
ghost use Rattle.route_base.specs.Time.{first_instant, last_instant};
ghost use Rattle.covered_minutes.specs.LocalDays.{Adds, IsLate, local_of, is_in, span_holds};
ghost use Rattle.covered_minutes.specs.LocalDays.{day_covers, local_covered};

use opening_hours::{Holidays, Hours, TimeSpan, spans_on};
use route_base::{OutOfMemory, Run};
use std::alloc::Global;

// Minutes of UTC throughout which local time is `ahead` minutes ahead of a clock that is 18 hours behind UTC.
#[derive(Clone, Copy)]
pub struct Stretch {
    pub minutes: Run,
    pub ahead: u64,
}

// The minutes of the stretch at which a span of a local day holds.
fn run_of(span: TimeSpan, day: u32, stretch: Stretch) -> Run
    requires { IsLate day stretch }
    ensures { (t : ℕ) → has_minute t result
        ≡ (is_in stretch t && span_holds day (local_of stretch.ahead t) span) }
{
    let start = day as u64 * 1440 + 1080 - stretch.ahead;
    let end = (span.start as u64 + span.length as u64).min(11520);
    Run {
        lo: stretch.minutes.lo.max(start + span.start as u64),
        hi: stretch.minutes.hi.min(start + end),
    }
}

fn add_span(
    runs: &mut Vec<Run>,
    span: TimeSpan,
    day: u32,
    stretch: Stretch,
) -> Result<(), OutOfMemory>
    requires { IsLate day stretch }
    ensures { OnOk result (Adds runs.old.items runs.new.items (λ t.
        is_in stretch t && span_holds day (local_of stretch.ahead t) span)) }
{
    runs.push(run_of(span, day, stretch))?;
    Ok(())
}

fn add_spans(
    runs: &mut Vec<Run>,
    spans: &[TimeSpan],
    day: u32,
    stretch: Stretch,
) -> Result<(), OutOfMemory>
    requires { IsLate day stretch }
    ensures { OnOk result (Adds runs.old.items runs.new.items (λ t.
        is_in stretch t && list_any (span_holds day (local_of stretch.ahead t)) spans.now)) }
{
    for span in spans {
        add_span(runs, *span, day, stretch)?;
    }
    Ok(())
}

// Adds the minutes of the stretch that the spans of one local day cover.
fn add_day(
    alloc: Global,
    runs: &mut Vec<Run>,
    hours: &Hours,
    holidays: &Holidays,
    day: u32,
    stretch: Stretch,
) -> Result<(), OutOfMemory>
    requires late { IsLate day stretch }
    requires last_day { day ≤ 84370 }
    ensures { OnOk result (Adds runs.old.items runs.new.items (λ t.
        is_in stretch t && day_covers hours.now holidays.now day (local_of stretch.ahead t))) }
{
    let spans = spans_on(alloc, hours, day, holidays)?;
    add_spans(runs, spans.as_slice(), day, stretch)
}

// Adds the minutes of the stretch that are covered in local time, by local days from seven days before the stretch on.
pub fn add_stretch(
    alloc: Global,
    runs: &mut Vec<Run>,
    hours: &Hours,
    holidays: &Holidays,
    stretch: Stretch,
) -> Result<(), OutOfMemory>
    requires ahead { stretch.ahead ≤ 2160 }
    requires some { stretch.minutes.lo < stretch.minutes.hi }
    requires from { first_instant ≤ stretch.minutes.lo }
    requires to { stretch.minutes.hi ≤ last_instant + 1 }
    ensures { OnOk result (Adds runs.old.items runs.new.items (λ t.
        is_in stretch t && local_covered hours.now holidays.now (local_of stretch.ahead t))) }
{
    let mut day = (stretch.minutes.lo + stretch.ahead - 1080) / 1440 - 7;
    let end = (stretch.minutes.hi + stretch.ahead - 1081) / 1440 + 1;
    'days: while day < end {
        add_day(alloc, runs, hours, holidays, day as u32, stretch)?;
        day += 1;
    }
    Ok(())
}
