// Sets of a few runs, made and combined.
use minute_sets::MinuteSet;
use route_base::{OutOfMemory, Run};
use std::alloc::Global;

// Runs in no order, of which two overlap and one is empty.
const GIVEN: &[Run] = &[
    Run { lo: 40, hi: 50 },
    Run { lo: 15, hi: 30 },
    Run { lo: 35, hi: 35 },
    Run { lo: 10, hi: 20 },
];

const MERGED: &[Run] = &[Run { lo: 10, hi: 30 }, Run { lo: 40, hi: 50 }];

#[test]
fn merges_runs_that_overlap(rt: HostRuntime) {
    let set = MinuteSet::from_runs(rt.alloc(), GIVEN).expect(&rt, "memory");
    assert!(rt; set.runs() == MERGED);
    assert!(rt; set.contains(29) && !set.contains(30) && !set.contains(u64::MAX));
    assert_eq!(rt; set.into_runs().len(), 2);
}

const WINDOW: Run = Run { lo: 0, hi: 60 };

// The minutes of the window between the merged runs, and the first minutes of ten of these on end.
const GAPS: &[Run] = &[
    Run { lo: 0, hi: 10 },
    Run { lo: 30, hi: 40 },
    Run { lo: 50, hi: 60 },
];

const ENTRIES: &[Run] = &[
    Run { lo: 0, hi: 1 },
    Run { lo: 30, hi: 31 },
    Run { lo: 50, hi: 51 },
];

#[test]
fn finds_gaps_and_entries(rt: HostRuntime) {
    let set = MinuteSet::from_runs(rt.alloc(), GIVEN).expect(&rt, "memory");
    let gaps = set.complement(rt.alloc(), WINDOW).expect(&rt, "memory");
    assert!(rt; gaps.runs() == GAPS);
    let entries = set.entries(rt.alloc(), WINDOW, 10).expect(&rt, "memory");
    assert!(rt; entries.runs() == ENTRIES);
}

const BETWEEN: &[Run] = &[Run { lo: 30, hi: 40 }];

const JOINED: &[Run] = &[Run { lo: 10, hi: 50 }];

#[test]
fn combines_sets(rt: HostRuntime) {
    let set = MinuteSet::from_runs(rt.alloc(), GIVEN).expect(&rt, "memory");
    let between = MinuteSet::from_runs(rt.alloc(), BETWEEN).expect(&rt, "memory");
    let joined = set.union(rt.alloc(), &between).expect(&rt, "memory");
    assert!(rt; joined.runs() == JOINED);
    let less = joined.minus(rt.alloc(), &between).expect(&rt, "memory");
    assert!(rt; less.runs() == MERGED);
    let gaps = MinuteSet::from_runs(rt.alloc(), GAPS).expect(&rt, "memory");
    let common = joined.intersection(rt.alloc(), &gaps).expect(&rt, "memory");
    assert!(rt; common.runs() == BETWEEN);
}

// The minutes of three runs, of which the second touches the first and the third is empty.
fn appended(alloc: Global) -> Result<MinuteSet, OutOfMemory> {
    let mut set = MinuteSet::empty(alloc);
    set.append(Run { lo: 10, hi: 20 })?;
    set.append(Run { lo: 20, hi: 30 })?;
    set.append(Run { lo: 40, hi: 40 })?;
    Ok(set)
}

#[test]
fn appends_runs(rt: HostRuntime) {
    let set = appended(rt.alloc()).expect(&rt, "memory");
    assert!(rt; set.runs() == [Run { lo: 10, hi: 30 }].as_slice());
}

// The merged runs and the one between them, as one set to which the other was added.
fn grown(alloc: Global) -> Result<MinuteSet, OutOfMemory> {
    let mut set = MinuteSet::from_runs(alloc, GIVEN)?;
    set.add_all(alloc, &MinuteSet::from_runs(alloc, BETWEEN)?)?;
    Ok(set)
}

#[test]
fn adds_sets(rt: HostRuntime) {
    let set = grown(rt.alloc()).expect(&rt, "memory");
    assert!(rt; set.runs() == JOINED);
}
