// The tables together: the first fault of all files, and tables without rows.

mod areas;
mod closures;
mod holidays;
mod parking;
mod ratings;
mod roads;
mod tolls;
mod vehicles;
mod zones;

use super::{
    CLOSED, Case, NETWORK, ONE_PAIR, PARKED, RATED, TRIANGLE, TRIP, Texts, expect_cases,
    expect_over_each, expect_reports,
};
use route_base::Status;

const ZONES: &str = "zone,from,offset\n\
    cet,2019-10-27T01:00Z,+01:00\n\
    cet,2020-03-29T01:00Z,+02:00\n\
    azores,525600,-01:00\n";

const AREAS: &str = "area,zone\nde,cet\nacores,azores\nsea,UTC\n";

const ROADS: &str = "arc,area\n3,sea\n1,acores\n";

const UNKNOWN: &str = "arc,from,to\n4,26563740,26563860\n";

// Faulty files, of which the first fault is named.
const FIRST: &[(Texts<'static>, &str)] = &[
    (
        &[
            ("d/graph.gr", "x"),
            ("d/closures.csv", UNKNOWN),
            ("d/ratings.csv", "x"),
            ("d/parking.csv", "x"),
            ("d/holidays.csv", "x"),
        ],
        "refused input graph.gr 1 BadForm\n",
    ),
    (
        &[
            ("d/graph.gr", "p sp 3 3\n"),
            ("d/closures.csv", UNKNOWN),
            ("d/ratings.csv", "x"),
            ("d/parking.csv", "x"),
            ("d/holidays.csv", "x"),
        ],
        "refused input graph.gr 2 ArcCount\n",
    ),
    (
        &[
            ("d/graph.gr", TRIANGLE),
            ("d/closures.csv", UNKNOWN),
            ("d/ratings.csv", "x"),
            ("d/parking.csv", "x"),
        ],
        "refused input closures.csv 2 Unknown\n",
    ),
    (
        &[
            ("d/graph.gr", TRIANGLE),
            ("d/closures.csv", CLOSED),
            ("d/ratings.csv", "rating,weight\nr,2\nr,2\n"),
            ("d/parking.csv", "x"),
        ],
        "refused input ratings.csv 3 Duplicate\n",
    ),
    (
        &[
            ("d/graph.gr", TRIANGLE),
            ("d/ratings.csv", RATED),
            ("d/parking.csv", "x"),
            ("d/holidays.csv", "x"),
        ],
        "refused input parking.csv 1 BadHeader\n",
    ),
    (
        &[
            ("d/graph.gr", TRIANGLE),
            ("d/holidays.csv", "x"),
            ("d/tolls.csv", "x"),
        ],
        "refused input holidays.csv 1 BadHeader\n",
    ),
    (
        &[
            ("d/graph.gr", TRIANGLE),
            ("d/closures.csv", CLOSED),
            ("d/ratings.csv", ""),
            ("d/parking.csv", PARKED),
        ],
        "refused input parking.csv 2 Unknown\n",
    ),
];

#[test]
fn tells_the_first_fault_of_all_files(rt: HostRuntime) {
    expect_over_each(&rt, &[], TRIP, Status::BadInput, FIRST);
}

// Runs in which a file has a fault, and the request or a later file has one too.
const BEFORE: &[Case<'static>] = &[
    Case {
        more: &[
            ("d/graph.gr", TRIANGLE),
            ("d/closures.csv", CLOSED),
            ("d/ratings.csv", RATED),
            ("d/parking.csv", "x"),
        ],
        words: "plan d any 0 0 26563680 26563679",
        status: Status::BadInput,
        text: "refused input parking.csv 1 BadHeader\n",
    },
    Case {
        more: &[("d/closures.csv", "x")],
        words: TRIP,
        status: Status::BadInput,
        text: "refused input graph.gr 0 Missing\n",
    },
];

#[test]
fn tells_faults_of_files_before_those_of_the_request(rt: HostRuntime) {
    expect_cases(&rt, &[], BEFORE);
}

const STRAIGHT: &str = "pairs 1\npair 26563980 300.000\ndrive 3\n";

const CLOSED_TRIANGLE: Texts<'static> = &[("d/graph.gr", TRIANGLE), ("d/closures.csv", CLOSED)];

// Files with texts that have no row, and the answer over the files beside them.
const EMPTY: &[(Texts<'static>, &str, &[&str], &str)] = &[
    (
        NETWORK,
        "closures.csv",
        &["", "\u{FEFF}", "\n\r\n\n", "arc,from,to", "arc,from,to\n\n"],
        ONE_PAIR,
    ),
    (
        CLOSED_TRIANGLE,
        "parking.csv",
        &["", "node,rating"],
        STRAIGHT,
    ),
    (
        CLOSED_TRIANGLE,
        "ratings.csv",
        &["rating,weight\r\n"],
        STRAIGHT,
    ),
    (NETWORK, "parking.csv", &["\u{FEFF}node,rating\n"], STRAIGHT),
];

#[test]
fn reads_tables_without_rows(rt: HostRuntime) {
    for (base, file, texts, report) in EMPTY {
        expect_reports(&rt, base, file, texts, report);
    }
}
