// The graph file: its lawful forms, and each cause for which it is refused.
use super::{
    NETWORK, ONE_PAIR, TRIP, TWO_PAIRS, Texts, expect_over_each, expect_refusals, expect_reports,
};
use route_base::Status;

// Texts of the triangle.
const LAWFUL: &[&str] = &[
    "c x\np sp 3 3\na 1 2 60\na 2 3 60\na 1 3 300\n",
    " cx\n\tc\ncp sp 1 0\np sp 3 3\na 1 2 60\nc\na 2 3 60\na 1 3 300\nc p sp 3 3\n",
    "p sp 3 3\na 1 2 60\na 2 3 60\na 1 3 300\n\n",
    "\n \t\n\r\np sp 3 3\n\na 1 2 60\na 2 3 60\n\n\na 1 3 300\n",
    "p  sp 3 3\na 1   2 60\na 2 3 60\na 1 3 300\n",
    "p sp 3 3 \na 1 2 60\t\na 2 3 60\na 1 3 300  \n",
    " p sp 3 3\n\ta 1 2 60\na 2 3 60\n \t a 1 3 300\n",
    "p\tsp 3 3\na\t1\t2\t60\na 2 \t3 60\na 1 3 300\n",
    "p sp 3 3\r\na 1 2 60\r\na 2 3 60\r\na 1 3 300\r\n",
    "p sp 3 3\na 1 2 60\na 2 3 60\na 1 3 300",
    "p sp 03 000000000000000003\na 01 2 060\na 2 3 000000000000000060\na 1 3 300\n",
];

#[test]
fn reads_graphs_in_any_lawful_form(rt: HostRuntime) {
    expect_reports(&rt, &[], "graph.gr", LAWFUL, ONE_PAIR);
}

// Texts, and the line and the cause of each refusal.
const REFUSED: &[(&str, &str)] = &[
    ("", "1 NoProblemLine"),
    ("c x\n\n", "3 NoProblemLine"),
    ("a 1 2 60\np sp 3 1\n", "1 NoProblemLine"),
    ("a 0 2 0\n", "1 NoProblemLine"),
    ("x\n", "1 BadForm"),
    ("\u{FEFF}p sp 3 0\n", "1 BadForm"),
    ("a 1 2\np sp 3 1\n", "1 BadForm"),
    ("p sp 3 ", "1 BadForm"),
    ("p sp 3 3 3\n", "1 BadForm"),
    ("p max 3 0\n", "1 BadForm"),
    ("P sp 3 0\n", "1 BadForm"),
    ("p sp 0 x\n", "1 BadForm"),
    ("p sp 3 0000000000000000000\n", "1 BadForm"),
    ("p sp 3 0\r", "1 BadForm"),
    ("p sp 3 2\na 1 2 60\na 1 3\n", "3 BadForm"),
    ("p sp 3 2\na 1 2 60\na 1 3 60 60\n", "3 BadForm"),
    ("p sp 3 2\na 1 2 60\na", "3 BadForm"),
    ("p sp 3 1\na 1 2 -60\n", "2 BadForm"),
    ("p sp 3 1\na 1 2 6.0\n", "2 BadForm"),
    ("p sp 3 1\na 0 9 0000000000000000060\n", "2 BadForm"),
    ("p sp 3 1\nA 1 2 60\n", "2 BadForm"),
    ("p sp 3 3\np sp 0 x\n", "2 BadForm"),
    ("p sp 3 3\np sp 0 0\n", "2 SecondProblemLine"),
    (
        "p sp 3 3\na 1 2 60\na 2 3 60\na 1 3 300\np sp 3 3\n",
        "5 SecondProblemLine",
    ),
    ("p sp 0 0\n", "1 SizeLimit"),
    ("p sp 500001 0\n", "1 SizeLimit"),
    ("p sp 3 1000001\n", "1 SizeLimit"),
    ("c\np sp 999999999999999999 0\nx\n", "2 SizeLimit"),
    ("p sp 3 2\na 1 2 60\na 1 4 60\n", "3 NodeRange"),
    ("p sp 3 2\na 0 2 60\na 1 3 60\n", "2 NodeRange"),
    ("p sp 3 2\na 1 0 60\na 1 3 60\n", "2 NodeRange"),
    ("c\n\np sp 3 1\nc\na 4 1 0\n", "5 NodeRange"),
    ("p sp 3 0\na 4294967297 1 60\n", "2 NodeRange"),
    ("p sp 3 1\na 1 2 0\n", "2 WeightRange"),
    ("p sp 3 1\na 1 2 10081\n", "2 WeightRange"),
    ("p sp 3 0\na 1 2 0\n", "2 WeightRange"),
    ("p sp 3 2\na 1 2 60\na 2 3 60\na 1 3 300\nx\n", "4 ArcCount"),
    ("p sp 3 2\na 1 2 60\n", "3 ArcCount"),
    ("p sp 3 2\na 1 2 60", "3 ArcCount"),
    ("p sp 3 3", "2 ArcCount"),
    ("p sp 3 3\n\n \n", "4 ArcCount"),
];

#[test]
fn refuses_graphs_with_their_first_fault(rt: HostRuntime) {
    expect_refusals(&rt, &[], "graph.gr", REFUSED);
}

// Cut texts, and the line and the cause of each refusal.
const CUT: &[(&str, &str)] = &[
    ("", "1 NoProblemLine"),
    ("p sp 3 ", "1 BadForm"),
    ("p sp 3 3", "2 ArcCount"),
    ("p sp 3 3\n", "2 ArcCount"),
    ("p sp 3 3\na 1 2 6", "3 ArcCount"),
    ("p sp 3 3\na 1 2 60", "3 ArcCount"),
    ("p sp 3 3\na 1 2 60\n", "3 ArcCount"),
    ("p sp 3 3\na 1 2 60\na 2 3 60\n", "4 ArcCount"),
    ("p sp 3 3\na 1 2 60\na 2 3 60\na", "4 BadForm"),
    ("p sp 3 3\na 1 2 60\na 2 3 60\na 1 3 ", "4 BadForm"),
];

// Graphs that are cut within the last number or after it.
const SHORTER: &[(Texts<'static>, &str)] = &[
    (
        &[("d/graph.gr", "p sp 3 3\na 1 2 60\na 2 3 60\na 1 3 3")],
        "pairs 1\npair 26563683 3.000\ndrive 3\n",
    ),
    (
        &[("d/graph.gr", "p sp 3 3\na 1 2 60\na 2 3 60\na 1 3 30")],
        "pairs 1\npair 26563710 30.000\ndrive 3\n",
    ),
    (
        &[("d/graph.gr", "p sp 3 3\na 1 2 60\na 2 3 60\na 1 3 300")],
        TWO_PAIRS,
    ),
];

#[test]
fn answers_as_far_as_a_graph_is_cut(rt: HostRuntime) {
    expect_over_each(&rt, NETWORK, TRIP, Status::Done, SHORTER);
    expect_refusals(&rt, NETWORK, "graph.gr", CUT);
}
