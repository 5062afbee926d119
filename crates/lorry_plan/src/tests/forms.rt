// The forms of a report, and where the option for them may stand.
use super::{NETWORK, TRIP, TWO_PAIRS, expect_texts};
use route_base::Status;

const TABLE: &str = "routes 2\nroute 1 arrive 2020-07-04T04:00Z cost 360.000\n\
2020-07-04T00:00Z drive 1 1 2 60\n2020-07-04T01:00Z wait 2 120\n2020-07-04T03:00Z drive 2 2 3 60\n\
route 2 arrive 2020-07-04T05:00Z cost 300.000\n2020-07-04T00:00Z drive 3 1 3 300\n";

const CSV: &str = "pair,leg,kind,arc,node,start,minutes,cost\n\
1,1,drive,1,1,2020-07-04T00:00Z,60,0.000\n1,2,wait,,2,2020-07-04T01:00Z,120,60.000\n\
1,3,drive,2,2,2020-07-04T03:00Z,60,300.000\n1,4,arrive,,3,2020-07-04T04:00Z,0,360.000\n\
2,1,drive,3,1,2020-07-04T00:00Z,300,0.000\n2,2,arrive,,3,2020-07-04T05:00Z,0,300.000\n";

const JSON: &str =
    "{\"pairs\":[{\"arrival\":26563920,\"cost\":360000,\"legs\":[{\"arc\":1,\"kind\":\"drive\"},\
{\"kind\":\"wait\",\"minutes\":120},{\"arc\":2,\"kind\":\"drive\"}]},\
{\"arrival\":26563980,\"cost\":300000,\"legs\":[{\"arc\":3,\"kind\":\"drive\"}]}]}\n";

// Words, and their answers.
const FORMS: &[(&str, &str)] = &[
    (TRIP, TWO_PAIRS),
    ("plan d any 1 3 26563680 26564080 --form plain", TWO_PAIRS),
    ("plan d any --form=table 1 3 26563680 26564080", TABLE),
    ("plan --form csv d any 1 3 26563680 26564080", CSV),
    (
        "plan d any 1 3 26563680 --certificate=c.cert 26564080 --form json",
        JSON,
    ),
    (
        "plan d any 1 3 26563680 26563700 --form=json",
        "{\"pairs\":[]}\n",
    ),
];

#[test]
fn prints_each_form(rt: HostRuntime) {
    expect_texts(&rt, NETWORK, Status::Done, FORMS);
}
