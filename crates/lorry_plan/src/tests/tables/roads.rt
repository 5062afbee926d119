// roads.csv: each cause for which it is refused.
use super::{AREAS, ZONES};
use crate::tests::{TRIANGLE, Texts, expect_refusals};

// Texts, and the line and the cause of each refusal.
const REFUSED: &[(&str, &str)] = &[
    ("area,arc\n", "1 BadHeader"),
    ("arc,area\n1,de,\n", "2 FieldCount"),
    ("arc,area\nx,de\n", "2 BadField"),
    ("arc,area\n1,\n", "2 BadField"),
    ("arc,area\n0,de\n", "2 Unknown"),
    ("arc,area\n4,de\n", "2 Unknown"),
    ("arc,area\n1,default\n", "2 Unknown"),
    ("arc,area\n2,de\n02,sea\n", "3 Duplicate"),
];

const BASE: Texts<'static> = &[
    ("d/graph.gr", TRIANGLE),
    ("d/zones.csv", ZONES),
    ("d/areas.csv", AREAS),
];

// Without rows for areas there is the area default alone.
const NO_AREAS: Texts<'static> = &[
    ("d/graph.gr", TRIANGLE),
    ("d/zones.csv", ZONES),
    ("d/areas.csv", ""),
];

const UNKNOWN: &[(&str, &str)] = &[("arc,area\n1,de\n", "2 Unknown")];

#[test]
fn refuses_roads_with_their_first_fault(rt: HostRuntime) {
    expect_refusals(&rt, BASE, "roads.csv", REFUSED);
    expect_refusals(&rt, NO_AREAS, "roads.csv", UNKNOWN);
}
