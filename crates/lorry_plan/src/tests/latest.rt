// How late one may leave, over the triangle and its tables.
use super::{CLOSED, Case, GRAPH, NETWORK, expect_cases, expect_texts};
use route_base::Status;

const BEFORE_THE_DEADLINE: &str = "pairs 1\nleave 26563960 120.000\ndrive 1\ndrive 2\n";

// Words, and their answers over the graph alone.
const DEPARTURES: &[(&str, &str)] = &[
    ("latest d any 1 3 26563680 26564080", BEFORE_THE_DEADLINE),
    (
        "latest d any 1 3 2020-07-04T00:00Z 2020-07-04T06:40Z",
        BEFORE_THE_DEADLINE,
    ),
    // Just enough time, and a minute less.
    ("latest d any 1 3 26563960 26564080", BEFORE_THE_DEADLINE),
    ("latest d any 1 3 26563961 26564080", "pairs 0\n"),
    // No road leads there.
    ("latest d any 3 1 26563680 26564080", "pairs 0\n"),
    // One who is there may leave at the deadline.
    (
        "latest d any 1 1 26563680 26564080",
        "pairs 1\nleave 26564080 0.000\n",
    ),
    ("latest d any 1 3 26563680 26563680", "pairs 0\n"),
    (
        "latest d any 1 1 26563680 26563680",
        "pairs 1\nleave 26563680 0.000\n",
    ),
    // The longest time, and the last instant.
    (
        "latest d any 1 3 26563680 26650079",
        "pairs 1\nleave 26649959 120.000\ndrive 1\ndrive 2\n",
    ),
    (
        "latest d any 1 3 120882240 120968639",
        "pairs 1\nleave 120968519 120.000\ndrive 1\ndrive 2\n",
    ),
];

#[test]
fn leaves_as_late_as_the_roads_allow(rt: HostRuntime) {
    expect_texts(&rt, GRAPH, Status::Done, DEPARTURES);
}

// Words, and their refusals.
const REFUSED: &[(&str, &str)] = &[
    (
        "latest d x 0 9 26563680 26563679",
        "refused request UnknownVehicle\n",
    ),
    (
        "latest d any 4 0 26563680 26563679",
        "refused request OriginRange\n",
    ),
    (
        "latest d any 1 4 26563680 26563679",
        "refused request GoalRange\n",
    ),
    (
        "latest d any 1 3 26563680 26563679",
        "refused request UntilBeforeDepart\n",
    ),
    (
        "latest d any 1 3 26563680 26650080",
        "refused request HorizonTooLong\n",
    ),
];

#[test]
fn refuses_late_departures_at_their_first_failed_check(rt: HostRuntime) {
    expect_texts(&rt, GRAPH, Status::BadRequest, REFUSED);
}

// The second arc is closed for two hours, and then the first until the deadline.
const CLOSED_TWICE: &str = "arc,from,to\n2,26563740,26563860\n1,26563740,26564080\n";

// The first road is closed to trucks.
const FOR_TRUCKS: &[(&str, &str)] = &[
    (
        "d/vehicles.csv",
        "name,class,weight_kg,axleload_kg,height_cm,width_cm,length_cm,axles,purpose,flags\ntruck,hgv,40000,,,,,,,\ncoach,bus,,,,,,,,\n",
    ),
    ("d/rules.csv", "scope,key,value\narc:1,hgv,no\n"),
];

const OVER_TABLES: &[Case<'static>] = &[
    Case {
        more: &[("d/closures.csv", CLOSED)],
        words: "latest d any 1 3 26563680 26564080",
        status: Status::Done,
        text: BEFORE_THE_DEADLINE,
    },
    // The later departure costs more.
    Case {
        more: &[
            ("d/closures.csv", CLOSED_TWICE),
            ("d/ratings.csv", "rating,weight\nr,0.5\n"),
        ],
        words: "latest d any 1 3 26563680 26564080",
        status: Status::Done,
        text: "pairs 2\nleave 26563780 300.000\ndrive 3\nleave 26563680 180.000\ndrive 1\nwait 120\ndrive 2\n",
    },
    Case {
        more: FOR_TRUCKS,
        words: "latest d truck 1 3 26563680 26564080",
        status: Status::Done,
        text: "pairs 1\nleave 26563780 300.000\ndrive 3\n",
    },
    Case {
        more: FOR_TRUCKS,
        words: "latest d coach 1 3 26563680 26564080",
        status: Status::Done,
        text: BEFORE_THE_DEADLINE,
    },
    Case {
        more: &[("d/closures.csv", "x\n")],
        words: "latest d any 9 3 26563680 26564080",
        status: Status::BadInput,
        text: "refused input closures.csv 1 BadHeader\n",
    },
];

#[test]
fn leaves_before_closures_and_bans(rt: HostRuntime) {
    expect_cases(&rt, NETWORK, OVER_TABLES);
}
