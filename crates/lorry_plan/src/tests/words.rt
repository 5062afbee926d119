// The words of the command line.
use super::{GRAPH, NETWORK, TWO_PAIRS, expect_alike, expect_texts};
use route_base::Status;

// Words that are no command.
const NO_COMMAND: &[&str] = &[
    "",
    "plan",
    "--help",
    "-h",
    "--version",
    "help",
    "bans",
    "check d any 1 3 26563680 26564080",
    "check d any 1 3 26563680 26564080 c.certs",
    "check d any 1 3 26563680 26564080 -c.cert",
    "check d any 1 3 26563680 26564080 c.cert more",
    "check d any 1 3 26563680 26564080 --certificate c.cert",
    "batch d",
    "batch d jobs.csv more",
    "batch d a/b",
    "batch d jobs.csv --workers",
    "batch d jobs.csv --workers 0",
    "batch d jobs.csv --workers 04",
    "batch d jobs.csv --workers=65",
    "batch d jobs.csv --workers 2 --workers 2",
    "batch d jobs.csv --form csv",
    "gen d 7 1",
    "gen d 7 1 2 3",
    "gen d 0 1 2",
    "gen d 07 1 2",
    "gen d 2147483647 1 2",
    "gen d 7 0 2",
    "gen d 7 1 401",
    "gen d 7 01 2",
    "gen d 7 150 151",
    "gen d 7 1 2 --workers 2",
    "breaks d any 1 3 26563680",
    "explain d any 1 3 26563680 26564080",
    "explain d any 1 3 26563680 26564080 i.txt j.txt",
    "explain d any 1 3 26563680 26564080 -i.txt",
    "explain d any 1 3 26563680 26564080 d/i.txt",
    "Plan d any 1 3 26563680 26564080",
    "plan d -x 1 3 26563680 26564080",
    "plan d a/b 1 3 26563680 26564080",
    "plan d  1 3 26563680 26564080",
    "plan d abcdefghijklmnopqrstuvwxyzABCDEFGHIJKLMNOPQRSTUVWXYZ0123456789_.x 1 3 26563680 26564080",
    "plan d any 1 3 26563680",
    "plan d any 1 3 26563680 26564080 more",
    "plan d any 1 3 26563680 26564080 -h",
    "plan d any 1 3 26563680 26564080 --form",
    "plan d any 1 3 26563680 26564080 --form xml",
    "plan d any 1 3 26563680 26564080 --form=PLAIN",
    "plan --form csv d any 1 3 26563680 26564080 --form=csv",
    "plan d any 1 3 26563680 26564080 --",
    "bans d any 1 26563680 26564080 --form csv",
    "plan d any 1 3 26563680 26564080 --certificate",
    "plan d any 1 3 26563680 26564080 --certificate cert",
    "plan d any 1 3 26563680 26564080 --certificate a/b.cert",
    "plan d any 1 3 26563680 26564080 --certificate -a.cert",
    "plan d any 1 3 26563680 26564080 --certificate a.cert --certificate a.cert",
    "plan d any 01 3 26563680 26564080",
    "plan d any 1 03 26563680 26564080",
    "plan d any 1 3 026563680 26564080",
    "plan d any -1 3 26563680 26564080",
    "plan d any +1 3 26563680 26564080",
    "plan d any  3 26563680 26564080",
    "plan d any 1 4294967296 26563680 26564080",
    "plan d any 1 3 2020-07-04T00:00 2020-07-04T06:40",
    "plan d any 1 3 2020-07-04T00:00Z 2020-07-04T24:00Z",
    "plan d any 1 3 2020-07-04T00:00Z 2020-07-04T06:60Z",
    "plan d any 1 3 2020-07-04T00:00Z 2020-07-04T06:40:01Z",
    "plan d any 1 3 2020-07-04T00:00Z 2020-02-30T06:40Z",
    "plan d any 1 3 2020-7-4T00:00Z 2020-07-04T06:40Z",
    "plan d any 1 3 1970-12-31T23:59Z 1971-01-01T06:40Z",
    "plan d any 1 3 2199-12-31T23:59Z 2200-01-01T00:00Z",
    "plan d any 1 3 120968519 120968640",
    "plan d any 1 3 525599 525700",
    "plan -d any 1 3 26563680 26564080",
    "plan  any 1 3 26563680 26564080",
];

#[test]
fn refuses_words_that_are_no_command(rt: HostRuntime) {
    expect_alike(
        &rt,
        GRAPH,
        &[],
        NO_COMMAND,
        (Status::Usage, "refused usage\n"),
    );
}

// The words of the trip, with instants as texts.
const INSTANTS: &[&str] = &[
    "plan d any 1 3 2020-07-04T00:00Z 2020-07-04T06:40Z",
    "plan d any 1 3 2020-07-04T00:00:00Z 26564080",
    "plan d any 1 3 26563680 2020-07-04T06:40:00Z",
];

const FAR: &[(&str, &str)] = &[(
    "plan d any 1 3 2020-07-04T00:00Z 2020-09-02T00:01Z",
    "refused request HorizonTooLong\n",
)];

#[test]
fn takes_instants_as_texts(rt: HostRuntime) {
    expect_alike(&rt, NETWORK, &[], INSTANTS, (Status::Done, TWO_PAIRS));
    expect_texts(&rt, NETWORK, Status::BadRequest, FAR);
}
