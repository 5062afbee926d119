// parking.csv: its lawful forms, and each cause for which it is refused.
use crate::tests::{
    CLOSED, NETWORK, RATED, TRIANGLE, TWO_PAIRS, Texts, expect_refusals, expect_reports,
};

// Texts that say the same.
const LAWFUL: &[&str] = &[
    "\u{FEFF}node,rating\n2,r\n",
    "node,\"rating\"\n\"2\",\"r\"\n",
    "node,rating\r\n2,r\r\n",
    "\nnode,rating\n\n2,r",
    "node,rating\n0000000002,r\n",
    "node,rating\n3,r\n2,r\n",
    "node,rating,area,hours\n2,r,,\n",
    "\u{FEFF}node,rating,\"area\",hours\r\n3,r,,Su\r\n2,r,\"\",\"\"",
];

#[test]
fn reads_parking_in_any_lawful_form(rt: HostRuntime) {
    expect_reports(&rt, NETWORK, "parking.csv", LAWFUL, TWO_PAIRS);
}

// Texts, and the line and the cause of each refusal.
const REFUSED: &[(&str, &str)] = &[
    ("x", "1 BadHeader"),
    ("2,r\n", "1 BadHeader"),
    ("rating,node\n", "1 BadHeader"),
    ("node,rating,area\n2,r,\n", "1 BadHeader"),
    ("node,rating,hours,area\n2,r,,\n", "1 BadHeader"),
    ("node,rating,area,hours\n2,r\n", "2 FieldCount"),
    ("node,rating\n2,r,,\n", "2 FieldCount"),
    (
        "node,rating,area,hours\n2,r,,Mo 25:00-26:00\n",
        "2 NotHours",
    ),
    ("node,rating,area,hours\n2,r,,\" \"\n", "2 NotHours"),
    ("node,rating,area,hours\n9,r,x,Su[6]\n", "2 NotHours"),
    ("node,rating,area,hours\nx,r,,Su[6]\n", "2 BadField"),
    ("node,rating,area,hours\n2,r,x y,Su[6]\n", "2 BadField"),
    ("node,rating,area,hours\n2,r,x,\n", "2 Unknown"),
    ("node,rating,area,hours\n2,r,,Su\n2,r,,\n", "3 Duplicate"),
    ("node,rating\nx\n", "2 FieldCount"),
    ("node,rating\n2,r,\n", "2 FieldCount"),
    ("node,rating\nx,r\n", "2 BadField"),
    ("node,rating\n,r\n", "2 BadField"),
    ("node,rating\n00000000002,r\n", "2 BadField"),
    ("node,rating\n4294967296,r\n", "2 BadField"),
    ("node,rating\n2,\n", "2 BadField"),
    ("node,rating\n2,r \n", "2 BadField"),
    ("node,rating\n0,r s\n", "2 BadField"),
    ("node,rating\nx,s\n", "2 BadField"),
    ("node,rating\n0,r\n", "2 Unknown"),
    ("node,rating\n4,r\n", "2 Unknown"),
    ("node,rating\n4294967295,r\n", "2 Unknown"),
    ("node,rating\n2,s\n", "2 Unknown"),
    ("node,rating\n2,R\n", "2 Unknown"),
    ("node,rating\n2,r\n2,r\n", "3 Duplicate"),
    ("node,rating\n2,r\n3,r\n02,r\nx\n", "4 Duplicate"),
    ("node,rating\n2,r\n2,s\n", "3 Unknown"),
    ("node,rating\n2,r\n2,r s\n", "3 BadField"),
    ("node,rating\n2,r\n2\n", "3 FieldCount"),
];

#[test]
fn refuses_parking_with_its_first_fault(rt: HostRuntime) {
    expect_refusals(&rt, NETWORK, "parking.csv", REFUSED);
}

// Texts by which node 2, where the lorry would wait on a Saturday from 01:00 to 03:00, is open as long.
const OPEN: &[&str] = &[
    "node,rating,area,hours\n2,r,,24/7\n",
    "node,rating,area,hours\n2,r,,00:00-03:00\n",
    "node,rating,area,hours\n2,r,,01:00-03:00\n",
    "node,rating,area,hours\n2,r,,Sa\n",
    "node,rating,area,hours\n2,r,,Fr 22:00-03:00\n",
    "node,rating,area,hours\n2,r,,\"01:00-02:00,02:00-03:00\"\n",
    "node,rating,area,hours\n2,r,,Sa[1]\n",
];

// Texts by which it is shut for at least a minute of it.
const SHUT: &[&str] = &[
    "node,rating,area,hours\n2,r,,00:00-02:59\n",
    "node,rating,area,hours\n2,r,,01:01-24:00\n",
    "node,rating,area,hours\n2,r,,Su\n",
    "node,rating,area,hours\n2,r,,Fr 22:00-02:59\n",
    "node,rating,area,hours\n2,r,,\"01:00-02:00,02:01-03:00\"\n",
    "node,rating,area,hours\n2,r,,Sa[-1]\n",
    "node,rating,area,hours\n2,r,,PH\n",
];

const ROUND_ALONE: &str = "pairs 1\npair 26563980 300.000\ndrive 3\n";

#[test]
fn waits_while_parking_is_open(rt: HostRuntime) {
    expect_reports(&rt, NETWORK, "parking.csv", OPEN, TWO_PAIRS);
    expect_reports(&rt, NETWORK, "parking.csv", SHUT, ROUND_ALONE);
}

// The triangle in an area of UTC, beside one whose clocks are two hours ahead and whose holiday it is.
const TWO_AREAS: Texts<'static> = &[
    ("d/graph.gr", TRIANGLE),
    ("d/closures.csv", CLOSED),
    ("d/ratings.csv", RATED),
    (
        "d/zones.csv",
        "zone,from,offset\neast,2020-03-29T01:00Z,+02:00\n",
    ),
    ("d/areas.csv", "area,zone\nland,UTC\nisle,east\n"),
    ("d/holidays.csv", "area,kind,date\nisle,PH,2020-07-04\n"),
];

// Texts by which node 2 is open as long by the clocks and the holidays of its row's area.
const OPEN_BY_AREA: &[&str] = &[
    "node,rating,area,hours\n2,r,isle,03:00-05:00\n",
    "node,rating,area,hours\n2,r,land,01:00-03:00\n",
    "node,rating,area,hours\n2,r,,01:00-03:00\n",
    "node,rating,area,hours\n2,r,isle,PH\n",
    "node,rating,area,hours\n2,r,,24/7; PH off\n",
    "node,rating,area,hours\n3,r,land,03:00-05:00\n2,r,isle,03:00-05:00\n",
];

// The same of the other area.
const SHUT_BY_AREA: &[&str] = &[
    "node,rating,area,hours\n2,r,isle,01:00-03:00\n",
    "node,rating,area,hours\n2,r,land,03:00-05:00\n",
    "node,rating,area,hours\n2,r,,03:00-05:00\n",
    "node,rating,area,hours\n2,r,land,PH\n",
    "node,rating,area,hours\n2,r,isle,24/7; PH off\n",
    "node,rating,area,hours\n3,r,isle,03:00-05:00\n2,r,land,03:00-05:00\n",
];

#[test]
fn reads_hours_in_the_area_of_the_row(rt: HostRuntime) {
    expect_reports(&rt, TWO_AREAS, "parking.csv", OPEN_BY_AREA, TWO_PAIRS);
    expect_reports(&rt, TWO_AREAS, "parking.csv", SHUT_BY_AREA, ROUND_ALONE);
}
