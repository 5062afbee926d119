// areas.csv: each cause for which it is refused.
use super::ZONES;
use crate::tests::{TRIANGLE, Texts, expect_refusals};

// Texts, and the line and the cause of each refusal.
const REFUSED: &[(&str, &str)] = &[
    ("x", "1 BadHeader"),
    ("area,zone\nde\n", "2 FieldCount"),
    ("area,zone\nd e,cet\n", "2 BadField"),
    ("area,zone\nde,-\n", "2 BadField"),
    ("area,zone\nde,Cet\n", "2 Unknown"),
    ("area,zone\nde,utc\n", "2 Unknown"),
    ("area,zone\nde,cet\nde,cet\n", "3 Duplicate"),
    ("area,zone\nde,cet\nde,wet\n", "3 Unknown"),
];

const BASE: Texts<'static> = &[
    ("d/graph.gr", TRIANGLE),
    ("d/zones.csv", ZONES),
    ("d/roads.csv", "x"),
];

#[test]
fn refuses_areas_with_their_first_fault(rt: HostRuntime) {
    expect_refusals(&rt, BASE, "areas.csv", REFUSED);
}
