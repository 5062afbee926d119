// The closed minutes of an arc, over closures alone.
use super::{NETWORK, TRIANGLE, Texts, expect_alike, expect_texts};
use route_base::Status;

const CLOSURES: &str =
    "arc,from,to\n2,26563740,26563860\n1,26563700,26563710\n2,26563860,26563900\n2,26563950,26563960\n";

const CLOSED: Texts<'static> = &[("d/graph.gr", TRIANGLE), ("d/closures.csv", CLOSURES)];

const TWO: &str =
    "bans 2\nclosed 2020-07-04T01:00Z 2020-07-04T03:40Z\nclosed 2020-07-04T04:30Z 2020-07-04T04:40Z\npassed 0\n";

// Words, and their answers over the closures.
const WINDOWS: &[(&str, &str)] = &[
    // Closures that touch are one run.
    ("bans d any 2 26563680 26564080", TWO),
    ("bans d any 2 2020-07-04T00:00Z 2020-07-04T06:40Z", TWO),
    (
        "bans d any 1 26563680 26564080",
        "bans 1\nclosed 2020-07-04T00:20Z 2020-07-04T00:30Z\npassed 0\n",
    ),
    ("bans d any 3 26563680 26564080", "bans 0\npassed 0\n"),
    // The window cuts closures at both ends.
    (
        "bans d any 2 26563800 26563955",
        "bans 2\nclosed 2020-07-04T02:00Z 2020-07-04T03:40Z\nclosed 2020-07-04T04:30Z 2020-07-04T04:35Z\npassed 0\n",
    ),
    ("bans d any 2 26563900 26563950", "bans 0\npassed 0\n"),
    ("bans d any 2 26563740 26563740", "bans 0\npassed 0\n"),
    (
        "bans d any 2 26563740 26563741",
        "bans 1\nclosed 2020-07-04T01:00Z 2020-07-04T01:01Z\npassed 0\n",
    ),
];

#[test]
fn prints_the_closed_minutes_of_a_window(rt: HostRuntime) {
    expect_texts(&rt, CLOSED, Status::Done, WINDOWS);
}

// Words, and their refusals.
const REFUSED: &[(&str, &str)] = &[
    (
        "bans d x 0 26563680 26563679",
        "refused request UnknownVehicle\n",
    ),
    (
        "bans d any 0 26563680 26563679",
        "refused request UnknownArc\n",
    ),
    (
        "bans d any 4 26563680 26564080",
        "refused request UnknownArc\n",
    ),
    (
        "bans d any 3 26563680 26563679",
        "refused request UntilBeforeDepart\n",
    ),
    (
        "bans d any 3 26563680 26650081",
        "refused request HorizonTooLong\n",
    ),
];

#[test]
fn refuses_bans_at_their_first_failed_check(rt: HostRuntime) {
    expect_texts(&rt, NETWORK, Status::BadRequest, REFUSED);
}

// Words that are no command.
const NO_BANS: &[&str] = &[
    "bans d any 1 26563680",
    "bans d any 1 26563680 26564080 x",
    "bans d any 01 26563680 26564080",
    "bans d any 4294967296 26563680 26564080",
    "bans -d any 1 26563680 26564080",
    "ban d any 1 26563680 26564080",
];

#[test]
fn refuses_words_that_are_no_bans(rt: HostRuntime) {
    expect_alike(
        &rt,
        NETWORK,
        &[],
        NO_BANS,
        (Status::Usage, "refused usage\n"),
    );
}
