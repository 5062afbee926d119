// closures.csv: its lawful forms, and each cause for which it is refused.
use crate::tests::{CLOSED, NETWORK, TWO_PAIRS, expect_refusals, expect_reports};

// Texts that say the same.
const LAWFUL: &[&str] = &[
    CLOSED,
    "\u{FEFF}arc,from,to\n2,26563740,26563860\n",
    "\"arc\",\"from\",\"to\"\n\"2\",\"26563740\",\"26563860\"\n",
    "arc,from,to\r\n2,26563740,26563860\r\n",
    "\n\r\narc,from,to\n\n\n2,26563740,26563860\n\n",
    "arc,from,to\n2,26563740,26563860",
    "arc,from,to\n0000000002,26563740,26563860\n",
    "arc,from,to\n2,2020-07-04T01:00Z,2020-07-04T03:00:00Z\n",
    "arc,from,to\n2,26563740,26563800\n2,26563800,26563860\n",
    "arc,from,to\n2,26563790,26563860\n1,525600,525601\n2,26563740,26563800\n2,26563790,26563860\n",
    "arc,from,to\n2,26563740,26563860\n3,26563980,120968639\n",
];

#[test]
fn reads_closures_in_any_lawful_form(rt: HostRuntime) {
    expect_reports(&rt, NETWORK, "closures.csv", LAWFUL, TWO_PAIRS);
}

// Texts, and the line and the cause of each refusal.
const REFUSED: &[(&str, &str)] = &[
    ("x", "1 BadHeader"),
    ("2,26563740,26563860\n", "1 BadHeader"),
    ("arc,to,from\n2,26563740,26563860\n", "1 BadHeader"),
    ("Arc,from,to\n", "1 BadHeader"),
    ("arc,from, to\n", "1 BadHeader"),
    ("arc;from;to\n", "1 BadHeader"),
    ("arc,from\n2,26563740\n", "1 BadHeader"),
    ("arc,from,to,\n", "1 BadHeader"),
    ("\n\u{FEFF}arc,from,to\n", "1 BadHeader"),
    ("arc,from,to\nx,26563740\n", "2 FieldCount"),
    ("arc,from,to\nx,26563740,26563860,\n", "2 FieldCount"),
    ("arc,from,to\n \n", "2 FieldCount"),
    ("arc,from,to\n\"\"\n", "2 FieldCount"),
    ("arc,from,to\n#,\n", "2 FieldCount"),
    ("arc,from,to\nx,26563740,26563860\n", "2 BadField"),
    ("arc,from,to\n,26563740,26563860\n", "2 BadField"),
    ("arc,from,to\n2 ,26563740,26563860\n", "2 BadField"),
    ("arc,from,to\n+2,26563740,26563860\n", "2 BadField"),
    ("arc,from,to\n-2,26563740,26563860\n", "2 BadField"),
    ("arc,from,to\n2.0,26563740,26563860\n", "2 BadField"),
    ("arc,from,to\n\"2\"0x,26563740,26563860\n", "2 BadField"),
    ("arc,from,to\n00000000002,26563740,26563860\n", "2 BadField"),
    ("arc,from,to\n4294967296,26563740,26563860\n", "2 BadField"),
    ("arc,from,to\n2,525599,26563860\n", "2 BadField"),
    ("arc,from,to\n2,26563740,120968640\n", "2 BadField"),
    ("arc,from,to\n2,026563740,26563860\n", "2 BadField"),
    ("arc,from,to\n2,,26563860\n", "2 BadField"),
    ("arc,from,to\n2,26563740,\n", "2 BadField"),
    ("arc,from,to\n2,26563740, 26563860\n", "2 BadField"),
    ("arc,from,to\n2,2020-07-04T01:00,26563860\n", "2 BadField"),
    ("arc,from,to\n2,26563740,2020-07-04 03:00Z\n", "2 BadField"),
    ("arc,from,to\n2,26563740,2020-07-04T03:60Z\n", "2 BadField"),
    ("arc,from,to\n2,2020-02-30T01:00Z,26563860\n", "2 BadField"),
    ("arc,from,to\n2,2020-07-04T01:00Z,26563740\n", "2 NotRising"),
    ("arc,from,to\n0,26563740,x\n", "2 BadField"),
    ("arc,from,to\nx,26563740,26563740\n", "2 BadField"),
    ("arc,from,to\n0,26563740,26563860\n", "2 Unknown"),
    ("arc,from,to\n4,26563740,26563860\n", "2 Unknown"),
    ("arc,from,to\n4294967295,26563740,26563740\n", "2 Unknown"),
    ("arc,from,to\n2,26563740,26563740\n", "2 NotRising"),
    ("arc,from,to\n2,26563860,26563740\n", "2 NotRising"),
    // The first fault is that of the least record; empty lines are none, and a quoted line end ends none.
    ("arc,from,to\n2,26563740,26563740\nx\n", "2 NotRising"),
    (
        "arc,from,to\n2,26563740,26563860\n4,26563740,26563860\nx\n",
        "3 Unknown",
    ),
    (
        "\n\narc,from,to\n\r\n\n2,26563740,26563860\n\n\n4,26563740,26563860",
        "3 Unknown",
    ),
    (
        "arc,from,to\n2,26563740,26563860\n\"2\n\",26563740,26563860\nx\n",
        "3 BadField",
    ),
];

#[test]
fn refuses_closures_with_their_first_fault(rt: HostRuntime) {
    expect_refusals(&rt, NETWORK, "closures.csv", REFUSED);
}
