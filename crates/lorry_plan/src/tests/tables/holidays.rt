// holidays.csv: its lawful forms, and each cause for which it is refused.
use super::{AREAS, ZONES};
use crate::tests::{GRAPH, ONE_PAIR, TRIANGLE, Texts, expect_refusals, expect_reports};

// The triangle with areas.
const BASE: Texts<'static> = &[
    ("d/graph.gr", TRIANGLE),
    ("d/zones.csv", ZONES),
    ("d/areas.csv", AREAS),
];

// Lawful texts.
const LAWFUL: &[&str] = &[
    "",
    "area,kind,date\n",
    "area,kind,date\nsea,SH,2200-12-31\nde,PH,1970-01-01\nde,PH,1970-01-01\nde,SH,1970-01-01\n",
];

// A text that is lawful without rows for areas, since the area default has holidays then.
const OF_DEFAULT: &[&str] = &["area,kind,date\ndefault,PH,2020-07-09\n"];

#[test]
fn reads_holidays_of_areas(rt: HostRuntime) {
    expect_reports(&rt, BASE, "holidays.csv", LAWFUL, ONE_PAIR);
    expect_reports(&rt, GRAPH, "holidays.csv", OF_DEFAULT, ONE_PAIR);
}

// Texts, and the line and the cause of each refusal.
const REFUSED: &[(&str, &str)] = &[
    ("x", "1 BadHeader"),
    ("area,date,kind\n", "1 BadHeader"),
    ("area,kind,date\nde,PH\n", "2 FieldCount"),
    ("area,kind,date\nd e,PH,2020-07-09\n", "2 BadField"),
    ("area,kind,date\nde,ph,2020-07-09\n", "2 BadField"),
    ("area,kind,date\nde,PH,2020-7-9\n", "2 BadField"),
    ("area,kind,date\nde,PH,2021-02-29\n", "2 BadField"),
    ("area,kind,date\nde,PH,1969-12-31\n", "2 BadField"),
    ("area,kind,date\nde,PH,2201-01-01\n", "2 BadField"),
    ("area,kind,date\nde,PH,2020-07-09T00:00Z\n", "2 BadField"),
    ("area,kind,date\nxx,XX,2020-07-09\n", "2 BadField"),
    (
        "area,kind,date\nde,PH,2020-07-09\nxx,SH,2020-07-09\n",
        "3 Unknown",
    ),
    ("area,kind,date\ndefault,PH,2020-07-09\n", "2 Unknown"),
];

#[test]
fn refuses_holidays_with_their_first_fault(rt: HostRuntime) {
    expect_refusals(&rt, BASE, "holidays.csv", REFUSED);
}
