// Tours of the stops in a table.
use super::{
    GRAPH, NETWORK, PARKED, RATED, TRIANGLE, TWO_PAIRS, Texts, expect_over_each, expect_run,
    expect_texts,
};
use route_base::Status;
use std::process::Abort;
use std::thread::Threads;

const TOUR: &str = "tour d any 1 3 26563680 26564080 s.csv";

// The triangle, at whose second node lorries can wait.
const QUIET: Texts<'static> = &[
    ("d/graph.gr", TRIANGLE),
    ("d/ratings.csv", RATED),
    ("d/parking.csv", PARKED),
];

const SERVED: &str = "pairs 1\npair 26563830 120.000\ndrive 1\nserve 1\ndrive 2\n";

const NONE: &str = "pairs 0\n";

// Runs the words over the base with this table of stops, and compares the status and the whole text.
fn expect_tour<R: Abort + Threads + Sync + AllocGlobal>(
    rt: &R,
    base: Texts<'_>,
    stops: &str,
    words: &str,
    due: (Status, &str),
) {
    expect_run(rt, base, &[("d/s.csv", stops)], words, due);
}

// Runs the tour over the base with each table of stops, and compares the whole text.
fn expect_tours<R: Abort + Threads + Sync + AllocGlobal>(
    rt: &R,
    base: Texts<'_>,
    rows: &[(&str, &str)],
) {
    for (stops, text) in rows {
        expect_tour(rt, base, stops, TOUR, (Status::Done, *text));
    }
}

// Tables of stops, and their answers over the triangle, where nobody can wait.
const OVER_THE_TRIANGLE: &[(&str, &str)] = &[
    ("node,service,from,to\n2,30,26563740,26563880\n", SERVED),
    (
        "\u{FEFF}node,service,from,to\r\n0000000002,030,2020-07-04T01:00Z,2020-07-04T03:20Z",
        SERVED,
    ),
    // The window just holds the service, it ends too early, and it begins too late.
    ("node,service,from,to\n2,30,26563740,26563770\n", SERVED),
    ("node,service,from,to\n2,31,26563740,26563770\n", NONE),
    ("node,service,from,to\n2,30,26563741,26563880\n", NONE),
    // The window is before the trip, or after it.
    ("node,service,from,to\n2,30,525600,26563680\n", NONE),
    ("node,service,from,to\n2,30,26564080,120968639\n", NONE),
    // Two stops at one node, at the origin and at the goal, and in an order in which there is no way.
    (
        "node,service,from,to\n2,30,26563740,26563880\n2,10,26563740,26563880\n",
        "pairs 1\npair 26563840 120.000\ndrive 1\nserve 1\nserve 2\ndrive 2\n",
    ),
    (
        "node,service,from,to\n1,5,26563680,26564080\n3,7,26563680,26564080\n",
        "pairs 1\npair 26563812 120.000\nserve 1\ndrive 1\ndrive 2\nserve 2\n",
    ),
    (
        "node,service,from,to\n3,7,26563680,26564080\n1,5,26563680,26564080\n",
        NONE,
    ),
    (
        "node,service,from,to\n",
        "pairs 1\npair 26563800 120.000\ndrive 1\ndrive 2\n",
    ),
];

// If lorries can wait they wait for the window to begin.
const WAITING: &[(&str, &str)] = &[(
    "node,service,from,to\n2,30,26563741,26563880\n",
    "pairs 1\npair 26563831 122.000\ndrive 1\nwait 1\nserve 1\ndrive 2\n",
)];

// The service takes part of the time in which the second arc is closed. Without stops it is the trip.
const OVER_A_CLOSURE: &[(&str, &str)] = &[
    (
        "node,service,from,to\n2,30,26563740,26563880\n",
        "pairs 1\npair 26563920 300.000\ndrive 1\nserve 1\nwait 90\ndrive 2\n",
    ),
    ("", TWO_PAIRS),
];

#[test]
fn serves_each_stop_within_its_window(rt: HostRuntime) {
    expect_tours(&rt, GRAPH, OVER_THE_TRIANGLE);
    expect_tours(&rt, QUIET, WAITING);
}

#[test]
fn waits_beside_the_service(rt: HostRuntime) {
    expect_tours(&rt, NETWORK, OVER_A_CLOSURE);
}

const AT_THE_GOAL: Texts<'static> = &[
    ("d/graph.gr", TRIANGLE),
    ("d/s.csv", "node,service,from,to\n3,10,26563800,26563900\n"),
];

// A service that just ends in time, and one that doesn't.
const ENDS: &[(&str, &str)] = &[
    (
        "tour d any 1 3 26563680 26563810 s.csv",
        "pairs 1\npair 26563810 120.000\ndrive 1\ndrive 2\nserve 1\n",
    ),
    ("tour d any 1 3 26563680 26563809 s.csv", NONE),
];

#[test]
fn ends_each_service_in_time(rt: HostRuntime) {
    expect_texts(&rt, AT_THE_GOAL, Status::Done, ENDS);
}

// Tables of stops, and their refusals.
const REFUSED: &[(Texts<'static>, &str)] = &[
    (&[], "refused input stops 0 Missing\n"),
    (
        &[("d/closures.csv", "x")],
        "refused input stops 0 Missing\n",
    ),
    (
        &[("d/closures.csv", "x"), ("d/s.csv", "x")],
        "refused input closures.csv 1 BadHeader\n",
    ),
    (&[("d/s.csv", "x")], "refused input stops 1 BadHeader\n"),
    (
        &[("d/s.csv", "service,node,from,to\n")],
        "refused input stops 1 BadHeader\n",
    ),
    (
        &[("d/s.csv", "node,service,from,to\n2,30,26563740\n")],
        "refused input stops 2 FieldCount\n",
    ),
    (
        &[("d/s.csv", "node,service,from,to\n2,0,26563740,26563880\n")],
        "refused input stops 2 BadField\n",
    ),
    (
        &[(
            "d/s.csv",
            "node,service,from,to\n2,1441,26563740,26563880\n",
        )],
        "refused input stops 2 BadField\n",
    ),
    (
        &[("d/s.csv", "node,service,from,to\n,30,26563740,26563880\n")],
        "refused input stops 2 BadField\n",
    ),
    (
        &[(
            "d/s.csv",
            "node,service,from,to\n4294967296,30,26563740,26563880\n",
        )],
        "refused input stops 2 BadField\n",
    ),
    (
        &[("d/s.csv", "node,service,from,to\n2,30,525599,26563880\n")],
        "refused input stops 2 BadField\n",
    ),
    (
        &[("d/s.csv", "node,service,from,to\n4,30,26563740,x\n")],
        "refused input stops 2 BadField\n",
    ),
    (
        &[("d/s.csv", "node,service,from,to\n0,30,26563740,26563880\n")],
        "refused input stops 2 Unknown\n",
    ),
    (
        &[("d/s.csv", "node,service,from,to\n4,30,26563740,26563740\n")],
        "refused input stops 2 Unknown\n",
    ),
    (
        &[("d/s.csv", "node,service,from,to\n3,30,26563740,26563740\n")],
        "refused input stops 2 NotRising\n",
    ),
    (
        &[(
            "d/s.csv",
            "node,service,from,to\n2,30,26563740,26563880\n3,30,26563740,26563739\n",
        )],
        "refused input stops 3 NotRising\n",
    ),
];

#[test]
fn refuses_stops_by_their_first_fault(rt: HostRuntime) {
    expect_over_each(&rt, GRAPH, TOUR, Status::BadInput, REFUSED);
}

// Words, and their refusals.
const FAILING: &[(&str, &str)] = &[
    (
        "tour d x 0 9 26563680 26563679 s.csv",
        "refused request UnknownVehicle\n",
    ),
    (
        "tour d any 0 9 26563680 26563679 s.csv",
        "refused request OriginRange\n",
    ),
    (
        "tour d any 1 4 26563680 26563679 s.csv",
        "refused request GoalRange\n",
    ),
    (
        "tour d any 1 3 26563680 26563679 s.csv",
        "refused request UntilBeforeDepart\n",
    ),
    (
        "tour d any 1 3 26563680 26650081 s.csv",
        "refused request HorizonTooLong\n",
    ),
];

#[test]
fn refuses_tours_at_their_first_failed_check(rt: HostRuntime) {
    expect_texts(&rt, AT_THE_GOAL, Status::BadRequest, FAILING);
}

// A mill, a rest area and a shop, two deliveries, and a change of trailers at the rest area in place of the second.
const DELIVERIES: Texts<'static> = &[
    ("d/graph.gr", "p sp 4 3\na 1 2 180\na 2 3 60\na 3 4 120\n"),
    ("d/ratings.csv", "rating,weight\nplain,0.100\n"),
    ("d/parking.csv", "node,rating\n3,plain\n"),
    (
        "d/s.csv",
        "node,service,from,to\n2,30,26563680,26565120\n4,20,26563680,26565120\n",
    ),
    (
        "d/swap.csv",
        "node,service,from,to\n2,30,26563680,26565120\n3,45,26563680,26565120\n",
    ),
    ("d/none.csv", "node,service,from,to\n"),
];

// A break is due where the rule says so. No service is one, nor does one take minutes of driving.
const RESTED: &[(&str, &str)] = &[
    (
        "tour d any 1 4 26563680 26564400 s.csv --drive 270",
        "pairs 1\npair 26564135 364.500\ndrive 1\nserve 1\ndrive 2\nwait 45\ndrive 3\nserve 2\n",
    ),
    (
        "tour d any 1 4 26563680 26564400 swap.csv --rest 45",
        "pairs 1\npair 26564160 364.500\ndrive 1\nserve 1\ndrive 2\nserve 2\nwait 45\ndrive 3\n",
    ),
    (
        "tour d any 1 4 26563680 26564400 s.csv --rest 20",
        "pairs 1\npair 26564110 362.000\ndrive 1\nserve 1\ndrive 2\nwait 20\ndrive 3\nserve 2\n",
    ),
    (
        "tour d any 1 4 26563680 26564400 s.csv --drive 360",
        "pairs 1\npair 26564090 360.000\ndrive 1\nserve 1\ndrive 2\ndrive 3\nserve 2\n",
    ),
    ("tour d any 1 4 26563680 26564400 s.csv --drive 239", NONE),
    (
        "tour d any 1 4 26563680 26564400 none.csv --rest=45",
        "pairs 1\npair 26564085 364.500\ndrive 1\ndrive 2\nwait 45\ndrive 3\n",
    ),
];

#[test]
fn keeps_the_rule_that_is_given(rt: HostRuntime) {
    expect_texts(&rt, DELIVERIES, Status::Done, RESTED);
}

// The same refusals under a rule.
const FAILING_RESTED: &[(&str, &str)] = &[
    (
        "tour d x 0 9 26563680 26563679 s.csv --rest 45",
        "refused request UnknownVehicle\n",
    ),
    (
        "tour d any 1 3 26563680 26650081 s.csv --drive 270",
        "refused request HorizonTooLong\n",
    ),
];

#[test]
fn refuses_tours_under_a_rule_as_others(rt: HostRuntime) {
    expect_texts(&rt, AT_THE_GOAL, Status::BadRequest, FAILING_RESTED);
}
