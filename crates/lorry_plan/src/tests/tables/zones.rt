// zones.csv: each cause for which it is refused, and zones that change no answer.
use super::{AREAS, ROADS, ZONES};
use crate::tests::{NETWORK, TRIANGLE, TRIP, TWO_PAIRS, Texts, expect_over_each, expect_refusals};
use route_base::Status;

// Texts, and the line and the cause of each refusal.
const REFUSED: &[(&str, &str)] = &[
    ("x", "1 BadHeader"),
    ("zone,offset,from\n", "1 BadHeader"),
    ("zone,from,offset\ncet,525600\n", "2 FieldCount"),
    ("zone,from,offset\nc t,525600,+01:00\n", "2 BadField"),
    ("zone,from,offset\n,525600,+01:00\n", "2 BadField"),
    ("zone,from,offset\ncet,525599,+01:00\n", "2 BadField"),
    ("zone,from,offset\ncet,2020-03-29,+01:00\n", "2 BadField"),
    (
        "zone,from,offset\ncet,2019-02-29T00:00Z,+01:00\n",
        "2 BadField",
    ),
    ("zone,from,offset\ncet,525600,01:00\n", "2 BadField"),
    ("zone,from,offset\ncet,525600,+1:00\n", "2 BadField"),
    ("zone,from,offset\ncet,525600,+01:60\n", "2 BadField"),
    ("zone,from,offset\ncet,525600,+18:01\n", "2 BadField"),
    ("zone,from,offset\ncet,525600,-18:01\n", "2 BadField"),
    ("zone,from,offset\ncet,525600,+0100\n", "2 BadField"),
    ("zone,from,offset\ncet,525600,60\n", "2 BadField"),
    ("zone,from,offset\ncet,525600,\u{2212}01:00\n", "2 BadField"),
    (
        "zone,from,offset\ncet,2020-03-29T01:00Z,+02:00\ncet,2020-03-29T01:00Z,+02:00\n",
        "3 NotRising",
    ),
    (
        "zone,from,offset\ncet,525601,+02:00\nwet,525600,+00:00\ncet,525600,+01:00\n",
        "4 NotRising",
    ),
    (
        "zone,from,offset\ncet,525601,+02:00\ncet,525600,+01:60\n",
        "3 BadField",
    ),
];

const BASE: Texts<'static> = &[
    ("d/graph.gr", TRIANGLE),
    ("d/areas.csv", "x"),
    ("d/roads.csv", "x"),
];

#[test]
fn refuses_zones_with_their_first_fault(rt: HostRuntime) {
    expect_refusals(&rt, BASE, "zones.csv", REFUSED);
}

// Tables of zones, areas and roads that change no answer.
const UNUSED: &[(Texts<'static>, &str)] = &[
    (
        &[
            ("d/zones.csv", ZONES),
            ("d/areas.csv", AREAS),
            ("d/roads.csv", ROADS),
        ],
        TWO_PAIRS,
    ),
    (
        &[
            ("d/zones.csv", ZONES),
            ("d/areas.csv", ""),
            ("d/roads.csv", ""),
        ],
        TWO_PAIRS,
    ),
    (
        &[
            ("d/zones.csv", ZONES),
            ("d/areas.csv", ""),
            ("d/roads.csv", "arc,area\n2,default\n"),
        ],
        TWO_PAIRS,
    ),
    (
        &[
            ("d/zones.csv", ""),
            ("d/areas.csv", "area,zone\nsea,UTC\n"),
            ("d/roads.csv", "arc,area\n1,sea\n"),
        ],
        TWO_PAIRS,
    ),
    (
        &[
            ("d/zones.csv", "zone,from,offset\nUTC,525600,+18:00\n"),
            ("d/areas.csv", ""),
            ("d/roads.csv", ""),
        ],
        TWO_PAIRS,
    ),
    (
        &[
            (
                "d/zones.csv",
                "zone,from,offset\na,525600,-18:00\nb,525600,+00:59\na,525601,-00:00\n",
            ),
            ("d/areas.csv", "area,zone\nx,b\ny,a\n"),
            ("d/roads.csv", ""),
        ],
        TWO_PAIRS,
    ),
];

#[test]
fn plans_the_same_trip_in_any_zone(rt: HostRuntime) {
    expect_over_each(&rt, NETWORK, TRIP, Status::Done, UNUSED);
}
