// Pareto fronts over the triangle: one way, a wait against a detour, and closures at their ends.
use super::{
    CLOSED, Case, GRAPH, NETWORK, ONE_PAIR, TRIP, TWO_PAIRS, Texts, expect_cases, expect_texts,
};
use route_base::Status;

const STRAIGHT: &str = "pairs 1\npair 26563980 300.000\ndrive 3\n";

const FIRST_ARC: &str = "pairs 1\npair 26563740 60.000\ndrive 1\n";

// Words, and their answers over the graph alone.
const TRIPS: &[(&str, &str)] = &[
    (TRIP, ONE_PAIR),
    (
        "plan d any 1 1 26563680 26563680",
        "pairs 1\npair 26563680 0.000\n",
    ),
    ("plan d any 1 3 26563680 26563800", ONE_PAIR),
    ("plan d any 1 3 26563680 26563799", "pairs 0\n"),
    ("plan d any 3 1 26563680 26564080", "pairs 0\n"),
    ("plan d any 1 3 26563680 26563680", "pairs 0\n"),
    (
        "plan d any 1 2 525600 525660",
        "pairs 1\npair 525660 60.000\ndrive 1\n",
    ),
    (
        "plan d any 1 3 120968519 120968639",
        "pairs 1\npair 120968639 120.000\ndrive 1\ndrive 2\n",
    ),
    ("plan d any 1 3 26563680 26650080", ONE_PAIR),
];

#[test]
fn plans_trips_over_a_graph_alone(rt: HostRuntime) {
    expect_texts(&rt, GRAPH, Status::Done, TRIPS);
}

const SHORTLY: &str = "plan d any 1 2 26563680 26563780";

// Runs over the network and a file beside it.
const ROUND: &[Case<'static>] = &[
    Case {
        more: &[("d/closures.csv", CLOSED)],
        words: TRIP,
        status: Status::Done,
        text: TWO_PAIRS,
    },
    Case {
        more: &[("d/closures.csv", CLOSED)],
        words: "plan d any 1 3 26563680 26650080",
        status: Status::Done,
        text: TWO_PAIRS,
    },
    // The detour is cheaper than the straight way, and earlier.
    Case {
        more: &[("d/ratings.csv", "rating,weight\nr,0.5\n")],
        words: TRIP,
        status: Status::Done,
        text: "pairs 1\npair 26563920 180.000\ndrive 1\nwait 120\ndrive 2\n",
    },
    // An arrival in the last minute counts.
    Case {
        more: &[("d/closures.csv", CLOSED)],
        words: "plan d any 1 3 26563680 26563920",
        status: Status::Done,
        text: "pairs 1\npair 26563920 360.000\ndrive 1\nwait 120\ndrive 2\n",
    },
    Case {
        more: &[("d/closures.csv", CLOSED)],
        words: "plan d any 1 3 26563680 26563919",
        status: Status::Done,
        text: "pairs 0\n",
    },
    Case {
        more: &[("d/closures.csv", CLOSED)],
        words: "plan d any 1 1 26563680 26563680",
        status: Status::Done,
        text: "pairs 1\npair 26563680 0.000\n",
    },
    // A closure that begins as the drive ends doesn't touch it; one of its last minute does.
    Case {
        more: &[("d/closures.csv", "arc,from,to\n1,26563740,26563770\n")],
        words: SHORTLY,
        status: Status::Done,
        text: FIRST_ARC,
    },
    Case {
        more: &[("d/closures.csv", "arc,from,to\n1,26563739,26563740\n")],
        words: SHORTLY,
        status: Status::Done,
        text: "pairs 0\n",
    },
    // One that ends at the departure doesn't touch the drive either.
    Case {
        more: &[("d/closures.csv", "arc,from,to\n1,26563620,26563680\n")],
        words: SHORTLY,
        status: Status::Done,
        text: FIRST_ARC,
    },
    Case {
        more: &[("d/closures.csv", "arc,from,to\n1,26563680,26563681\n")],
        words: SHORTLY,
        status: Status::Done,
        text: "pairs 0\n",
    },
    // Without a rated node on the way there's no waiting, nor where the first arc is closed too.
    Case {
        more: &[("d/parking.csv", "")],
        words: TRIP,
        status: Status::Done,
        text: STRAIGHT,
    },
    Case {
        more: &[("d/parking.csv", "node,rating\n3,r\n")],
        words: TRIP,
        status: Status::Done,
        text: STRAIGHT,
    },
    Case {
        more: &[(
            "d/closures.csv",
            "arc,from,to\n2,26563740,26563860\n1,26563700,26563710\n",
        )],
        words: TRIP,
        status: Status::Done,
        text: STRAIGHT,
    },
    // Two hours at the least weight there is, and at the largest.
    Case {
        more: &[("d/ratings.csv", "rating,weight\nr,0.001\n")],
        words: TRIP,
        status: Status::Done,
        text: "pairs 1\npair 26563920 120.120\ndrive 1\nwait 120\ndrive 2\n",
    },
    Case {
        more: &[("d/ratings.csv", "rating,weight\nr,100\n")],
        words: TRIP,
        status: Status::Done,
        text: "pairs 2\npair 26563920 12120.000\ndrive 1\nwait 120\ndrive 2\npair 26563980 300.000\ndrive 3\n",
    },
];

#[test]
fn waits_and_drives_round_closures(rt: HostRuntime) {
    expect_cases(&rt, NETWORK, ROUND);
}

// An arc at whose tail waiting costs nothing.
const FREE: Texts<'static> = &[
    ("d/graph.gr", "p sp 2 1\na 1 2 60\n"),
    ("d/ratings.csv", "rating,weight\nz,0\n"),
    ("d/parking.csv", "node,rating\n1,z\n"),
];

const AT_ONCE: &[(&str, &str)] = &[("plan d any 1 2 26563680 26564080", FIRST_ARC)];

#[test]
fn prints_no_later_arrival_of_the_same_cost(rt: HostRuntime) {
    expect_texts(&rt, FREE, Status::Done, AT_ONCE);
}
