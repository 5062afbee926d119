// tolls.csv: what tolls cost, its lawful forms, and each cause for which it is refused.
use crate::tests::{NETWORK, TWO_PAIRS, expect_refusals, expect_reports};

// Texts by which no drive costs more.
const FREE: &[&str] = &[
    "",
    "\u{FEFF}",
    "arc,toll",
    "arc,toll\r\n\r\n",
    "arc,toll\n1,0\n2,0.0\n3,000.000\n",
];

// Texts by which the straight road costs as much as the wait, so that it arrives too late.
const AS_DEAR: &[&str] = &[
    "arc,toll\n3,60\n",
    "\u{FEFF}arc,toll\r\n0000000003,\"060.000\"",
    "arc,toll\n2,0\n3,60.00\n",
];

const WAIT_ALONE: &str = "pairs 1\npair 26563920 360.000\ndrive 1\nwait 120\ndrive 2\n";

// A text by which it is just cheaper.
const CHEAPER: &[&str] = &["arc,toll\n3,59.999\n"];

const CHEAPER_PAIRS: &str =
    "pairs 2\npair 26563920 360.000\ndrive 1\nwait 120\ndrive 2\npair 26563980 359.999\ndrive 3\n";

// A text by which the way over the second node costs most.
const DEAREST: &[&str] = &["arc,toll\n2,100\n1,99.999\n"];

const DEAREST_PAIRS: &str =
    "pairs 2\npair 26563920 559.999\ndrive 1\nwait 120\ndrive 2\npair 26563980 300.000\ndrive 3\n";

#[test]
fn charges_the_toll_of_each_arc_once(rt: HostRuntime) {
    expect_reports(&rt, NETWORK, "tolls.csv", FREE, TWO_PAIRS);
    expect_reports(&rt, NETWORK, "tolls.csv", AS_DEAR, WAIT_ALONE);
    expect_reports(&rt, NETWORK, "tolls.csv", CHEAPER, CHEAPER_PAIRS);
    expect_reports(&rt, NETWORK, "tolls.csv", DEAREST, DEAREST_PAIRS);
}

// Texts, and the line and the cause of each refusal.
const REFUSED: &[(&str, &str)] = &[
    ("x", "1 BadHeader"),
    ("toll,arc\n", "1 BadHeader"),
    ("3,60\n", "1 BadHeader"),
    ("arc,toll\n3\n", "2 FieldCount"),
    ("arc,toll\n3,60,\n", "2 FieldCount"),
    ("arc,toll\n3,101\n", "2 BadField"),
    ("arc,toll\n3,100.001\n", "2 BadField"),
    ("arc,toll\n3,-1\n", "2 BadField"),
    ("arc,toll\n3,\n", "2 BadField"),
    ("arc,toll\n3,1.0000\n", "2 BadField"),
    ("arc,toll\n3,.5\n", "2 BadField"),
    ("arc,toll\n,1\n", "2 BadField"),
    ("arc,toll\n4294967296,1\n", "2 BadField"),
    ("arc,toll\n0,101\n", "2 BadField"),
    ("arc,toll\n0,1\n", "2 Unknown"),
    ("arc,toll\n4,1\n", "2 Unknown"),
    ("arc,toll\n4294967295,1\n", "2 Unknown"),
    ("arc,toll\n3,1\n3,1\n", "3 Duplicate"),
    ("arc,toll\n3,0\n1,1\n03,2\nx\n", "4 Duplicate"),
    ("arc,toll\n3,1\n3,x\n", "3 BadField"),
];

#[test]
fn refuses_tolls_with_their_first_fault(rt: HostRuntime) {
    expect_refusals(&rt, NETWORK, "tolls.csv", REFUSED);
}
