// Trips with driver breaks.
use super::{GRAPH, NETWORK, TWO_PAIRS, Texts, expect_texts};
use route_base::Status;

// Two roads of three hours, and a rest area between them.
const LINE: Texts<'static> = &[
    ("d/graph.gr", "p sp 3 2\na 1 2 180\na 2 3 180\n"),
    ("d/ratings.csv", "rating,weight\nr,1.000\n"),
    ("d/parking.csv", "node,rating\n2,r\n"),
];

const RESTED: &str = "pairs 1\npair 26564085 405.000\ndrive 1\nwait 45\ndrive 2\n";

const UNBROKEN: &str = "pairs 1\npair 26564040 360.000\ndrive 1\ndrive 2\n";

const NONE: &str = "pairs 0\n";

// Words, and their answers over the line.
const OVER_THE_LINE: &[(&str, &str)] = &[
    ("breaks d any 1 3 26563680 26564180", RESTED),
    ("breaks d any 1 3 26563680 26564180 --drive 359", RESTED),
    ("breaks d any 1 3 26563680 26564180 --drive 360", UNBROKEN),
    ("breaks d any 1 3 26563680 26564180 --drive 180", RESTED),
    ("breaks d any 1 3 26563680 26564180 --drive 179", NONE),
    (
        "breaks d any 1 3 26563680 26564180 --rest 60",
        "pairs 1\npair 26564100 420.000\ndrive 1\nwait 60\ndrive 2\n",
    ),
    // The break just fits before the end, or it doesn't, or it is longer than the whole trip may be.
    ("breaks d any 1 3 26563680 26564085", RESTED),
    ("breaks d any 1 3 26563680 26564084", NONE),
    ("breaks --rest=1440 d any 1 3 26563680 26564180", NONE),
    // To stay, and no way.
    (
        "breaks d any 1 1 26563680 26563680",
        "pairs 1\npair 26563680 0.000\n",
    ),
    ("breaks d any 3 1 26563680 26564180", NONE),
];

// A trip that waits two hours for a road to open, which is a break or isn't, and one over the straight road.
const OVER_A_CLOSURE: &[(&str, &str)] = &[
    (
        "breaks d any 1 3 26563680 26564080",
        "pairs 1\npair 26563920 360.000\ndrive 1\nwait 120\ndrive 2\n",
    ),
    ("breaks d any 1 3 26563680 26564080 --drive 300", TWO_PAIRS),
    (
        "breaks d any 1 3 26563680 26564080 --drive 60 --rest 120",
        "pairs 1\npair 26563920 360.000\ndrive 1\nwait 120\ndrive 2\n",
    ),
    (
        "breaks d any 1 3 26563680 26564080 --drive 60 --rest 121",
        "pairs 1\npair 26563921 362.000\ndrive 1\nwait 121\ndrive 2\n",
    ),
];

// If no node has a rating there is no break.
const UNRATED: &[(&str, &str)] = &[
    (
        "breaks d any 1 3 26563680 26564080",
        "pairs 1\npair 26563800 120.000\ndrive 1\ndrive 2\n",
    ),
    ("breaks d any 1 3 26563680 26564080 --drive 119", NONE),
];

#[test]
fn keeps_the_break_rule(rt: HostRuntime) {
    expect_texts(&rt, LINE, Status::Done, OVER_THE_LINE);
    expect_texts(&rt, NETWORK, Status::Done, OVER_A_CLOSURE);
    expect_texts(&rt, GRAPH, Status::Done, UNRATED);
}

// Words, and their refusals.
const REFUSED: &[(&str, &str)] = &[
    (
        "breaks d x 0 9 26563680 26563679",
        "refused request UnknownVehicle\n",
    ),
    (
        "breaks d any 0 9 26563680 26563679",
        "refused request OriginRange\n",
    ),
    (
        "breaks d any 1 4 26563680 26563679",
        "refused request GoalRange\n",
    ),
    (
        "breaks d any 1 3 26563680 26563679",
        "refused request UntilBeforeDepart\n",
    ),
    (
        "breaks d any 1 3 26563680 26650081",
        "refused request HorizonTooLong\n",
    ),
];

const NO_GRAPH: &[(&str, &str)] = &[(
    "breaks e any 1 3 26563680 26564080",
    "refused input graph.gr 0 Missing\n",
)];

#[test]
fn refuses_breaks_at_their_first_failed_check(rt: HostRuntime) {
    expect_texts(&rt, LINE, Status::BadRequest, REFUSED);
    expect_texts(&rt, LINE, Status::BadInput, NO_GRAPH);
}
