// Worked cases of covered minutes and of layers.
mod networks;
mod weekends;

use ban_expansion::{Layer, closed_by, common, overlaid};
use covered_minutes::covered_minutes;
use minute_sets::MinuteSet;
use opening_hours::{Holidays, Hours, parse};
use route_base::limits::{FIRST_INSTANT, LAST_INSTANT};
use route_base::{OutOfMemory, Run};
use std::alloc::Global;
use zone_rules::{Zone, ZoneRow};

// The rows of central Europe for 2020: clocks go ahead on 2020-03-29 and back on 2020-10-25, both at 01:00Z.
const CENTRAL_EUROPE: [ZoneRow; 3] = [
    ZoneRow {
        start: 26_203_740,
        offset: 60,
    },
    ZoneRow {
        start: 26_424_060,
        offset: 120,
    },
    ZoneRow {
        start: 26_726_460,
        offset: 60,
    },
];

// Hours, a window, and the minutes of it that they cover in central Europe.
const COVERED: &[(&str, Run, &[Run])] = &[
    // From 2020-10-24T12:00Z to 2020-10-25T12:00Z an hour is repeated.
    (
        "02:00-03:00",
        Run {
            lo: 26_725_680,
            hi: 26_727_120,
        },
        &[Run {
            lo: 26_726_400,
            hi: 26_726_520,
        }],
    ),
    // From 2020-03-28T12:00Z to 2020-03-29T12:00Z clocks skip an hour.
    (
        "02:00-03:00",
        Run {
            lo: 26_423_280,
            hi: 26_424_720,
        },
        &[],
    ),
    // The span began before this window, from 2020-07-05T10:00Z to 2020-07-06T00:00Z, and ends on Sunday at 20:00Z.
    (
        "Sa 22:00-Su 22:00",
        Run {
            lo: 26_565_720,
            hi: 26_566_560,
        },
        &[Run {
            lo: 26_565_720,
            hi: 26_566_320,
        }],
    ),
];

// Whether hours cover just these runs of a window in a zone without holidays.
fn cover(alloc: Global, hours: &Hours, zone: &Zone, window: Run, runs: &[Run]) -> bool {
    if window.lo < FIRST_INSTANT || window.hi > LAST_INSTANT {
        return false;
    }
    let none = Holidays::from_days(Vec::new(alloc), Vec::new(alloc));
    match covered_minutes(alloc, hours, zone, &none, window) {
        Ok(set) => set.runs() == runs,
        Err(_) => false,
    }
}

#[test]
fn covers_minutes_across_changes_of_clocks(rt: HostRuntime) {
    let zone = Zone::from_rows(rt.alloc(), &CENTRAL_EUROPE).expect(&rt, "a zone");
    for (text, window, runs) in COVERED {
        let hours = parse(rt.alloc(), text.as_bytes()).expect(&rt, "hours");
        let covered = cover(rt.alloc(), &hours, &zone, *window, runs);
        assert!(rt; covered, "{text} in {window:?}");
    }
}

const WINDOW: Run = Run { lo: 0, hi: 60 };

// The closed minutes where a layer bars the window and the next one frees the minutes from 20 to 30.
fn closed_by_layers(alloc: Global) -> Result<MinuteSet, OutOfMemory> {
    let layers = [
        Layer {
            bars: true,
            minutes: MinuteSet::whole(alloc, WINDOW)?,
        },
        Layer {
            bars: false,
            minutes: MinuteSet::whole(alloc, Run { lo: 20, hi: 30 })?,
        },
    ];
    closed_by(alloc, &layers)
}

// The closed minutes where one layer more frees the minutes from 40 to 60.
fn freed_late(alloc: Global, closed: &MinuteSet) -> Result<MinuteSet, OutOfMemory> {
    let late = MinuteSet::whole(alloc, Run { lo: 40, hi: 60 })?;
    overlaid(alloc, closed, &late, false)
}

// The minutes from 10 to 25 that the set has too.
fn common_with(alloc: Global, set: MinuteSet) -> Result<MinuteSet, OutOfMemory> {
    let sets = [set, MinuteSet::whole(alloc, Run { lo: 10, hi: 25 })?];
    common(alloc, &sets, WINDOW)
}

#[test]
fn lays_layers_over_one_another(rt: HostRuntime) {
    let closed = closed_by_layers(rt.alloc()).expect(&rt, "memory");
    assert!(rt; closed.runs() == [Run { lo: 0, hi: 20 }, Run { lo: 30, hi: 60 }].as_slice());
    let freed = freed_late(rt.alloc(), &closed).expect(&rt, "memory");
    assert!(rt; freed.runs() == [Run { lo: 0, hi: 20 }, Run { lo: 30, hi: 40 }].as_slice());
    let both = common_with(rt.alloc(), closed).expect(&rt, "memory");
    assert!(rt; both.runs() == [Run { lo: 10, hi: 20 }].as_slice());
}
