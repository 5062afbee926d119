// ratings.csv: its lawful forms, and each cause for which it is refused.
use crate::tests::{NETWORK, TWO_PAIRS, expect_refusals, expect_reports};

// Texts that say the same.
const LAWFUL: &[&str] = &[
    "\u{FEFF}rating,weight\nr,2.000\n",
    "\"rating\",weight\nr,\"2.000\"\n",
    "rating,weight\r\n\r\nr,2.00\r\n",
    "rating,weight\nr,2.0",
    "rating,weight\nr,2\n",
    "rating,weight\nr,002\n",
    "rating,weight\ns,0\n\nr,2\nR,100.000\n_.-,0.001\n",
    "rating,weight\nabcdefghijklmnopqrstuvwxyzABCDEFGHIJKLMNOPQRSTUVWXYZ0123456789_.,0\nr,2\n",
];

#[test]
fn reads_ratings_in_any_lawful_form(rt: HostRuntime) {
    expect_reports(&rt, NETWORK, "ratings.csv", LAWFUL, TWO_PAIRS);
}

// Texts, and the line and the cause of each refusal.
const REFUSED: &[(&str, &str)] = &[
    ("x", "1 BadHeader"),
    ("r,2.000\n", "1 BadHeader"),
    ("weight,rating\n", "1 BadHeader"),
    ("rating,weight,\n", "1 BadHeader"),
    ("rating,weight\nr s\n", "2 FieldCount"),
    ("rating,weight\nr s,x,\n", "2 FieldCount"),
    ("rating,weight\nr,2,5\n", "2 FieldCount"),
    ("rating,weight\n,2\n", "2 BadField"),
    ("rating,weight\nr s,2\n", "2 BadField"),
    ("rating,weight\n r,2\n", "2 BadField"),
    ("rating,weight\n-r,2\n", "2 BadField"),
    ("rating,weight\nr/s,2\n", "2 BadField"),
    ("rating,weight\n\"r,s\",2\n", "2 BadField"),
    ("rating,weight\n\u{E4},2\n", "2 BadField"),
    (
        "rating,weight\nabcdefghijklmnopqrstuvwxyzABCDEFGHIJKLMNOPQRSTUVWXYZ0123456789_.r,2\n",
        "2 BadField",
    ),
    ("rating,weight\nr,\n", "2 BadField"),
    ("rating,weight\nr,x\n", "2 BadField"),
    ("rating,weight\nr,-1\n", "2 BadField"),
    ("rating,weight\nr,+1\n", "2 BadField"),
    ("rating,weight\nr, 1\n", "2 BadField"),
    ("rating,weight\nr,1.\n", "2 BadField"),
    ("rating,weight\nr,.5\n", "2 BadField"),
    ("rating,weight\nr,1.0000\n", "2 BadField"),
    ("rating,weight\nr,0001\n", "2 BadField"),
    ("rating,weight\nr,1.2.3\n", "2 BadField"),
    ("rating,weight\nr,1e1\n", "2 BadField"),
    ("rating,weight\nr,100.001\n", "2 BadField"),
    ("rating,weight\nr,101\n", "2 BadField"),
    ("rating,weight\nr,2\nr,2\n", "3 Duplicate"),
    ("rating,weight\nr,2\ns,2\n\"r\",3\nx\n", "4 Duplicate"),
    ("rating,weight\nr,2\nr,x\n", "3 BadField"),
    ("rating,weight\nr,2\nr\n", "3 FieldCount"),
];

#[test]
fn refuses_ratings_with_their_first_fault(rt: HostRuntime) {
    expect_refusals(&rt, NETWORK, "ratings.csv", REFUSED);
}
