// Rules of access: the closed minutes that they make, and the trips that obey them.
use super::{Case, Texts, expect_cases, expect_texts};
use route_base::Status;

const VEHICLES: &str =
    "name,class,weight_kg,axleload_kg,height_cm,width_cm,length_cm,axles,purpose,flags\n\
    v1,hgv,7500,,,,,,,\nv2,hgv,7501,,,,,,,\ncoach,bus,,,,,,,,\nvan,hgv,,,,,,,delivery,\n\
    truck,hgv,40000,,400,255,1875,5,,\n";

const BERLIN: &str = "zone,from,offset\nberlin,2020-03-29T01:00Z,+02:00\n";

const CET: &str = "zone,from,offset\ncet,2019-10-27T01:00Z,+01:00\n\
    cet,2020-03-29T01:00Z,+02:00\ncet,2020-10-25T01:00Z,+01:00\n";

const LANE: &str = "p sp 2 1\na 1 2 60\n";

const AT_WEEKENDS: Texts<'static> = &[
    ("d/graph.gr", LANE),
    ("d/zones.csv", BERLIN),
    ("d/areas.csv", "area,zone\nde,berlin\n"),
    (
        "d/rules.csv",
        "scope,key,value\narea:de,hgv:conditional,no @ (Sa 22:00-Su 22:00)\n",
    ),
];

// Words, and their answers; the second window begins within the ban.
const WEEKENDS: &[(&str, &str)] = &[
    (
        "bans d any 1 2020-07-04T00:00Z 2020-07-06T00:00Z",
        "bans 1\nclosed 2020-07-04T20:00Z 2020-07-05T20:00Z\npassed 0\n",
    ),
    (
        "bans d any 1 2020-07-05T10:00Z 2020-07-06T00:00Z",
        "bans 1\nclosed 2020-07-05T10:00Z 2020-07-05T20:00Z\npassed 0\n",
    ),
];

const AT_NIGHT: Texts<'static> = &[
    ("d/graph.gr", LANE),
    ("d/zones.csv", CET),
    ("d/areas.csv", "area,zone\na,cet\n"),
    (
        "d/rules.csv",
        "scope,key,value\narea:a,access:conditional,no @ (02:00-03:00)\n",
    ),
];

// Words, and their answers; the hour is repeated in autumn, and skipped in spring.
const NIGHTS: &[(&str, &str)] = &[
    (
        "bans d any 1 2020-10-24T12:00Z 2020-10-25T12:00Z",
        "bans 1\nclosed 2020-10-25T00:00Z 2020-10-25T02:00Z\npassed 0\n",
    ),
    (
        "bans d any 1 2020-03-28T12:00Z 2020-03-29T12:00Z",
        "bans 0\npassed 0\n",
    ),
];

const BY_ORDINALS: Texts<'static> = &[
    ("d/graph.gr", "p sp 2 2\na 1 2 60\na 2 1 60\n"),
    (
        "d/rules.csv",
        "scope,key,value\narc:1,access:conditional,no @ (Su[1])\n\
        arc:2,access:conditional,no @ (Fr[-1])\n",
    ),
];

// Words, and their answers; the first Sunday of July 2020 is the 5th, and the last Friday the 31st.
const ORDINALS: &[(&str, &str)] = &[
    (
        "bans d any 1 2020-07-04T00:00Z 2020-07-06T00:00Z",
        "bans 1\nclosed 2020-07-05T00:00Z 2020-07-06T00:00Z\npassed 0\n",
    ),
    (
        "bans d any 1 2020-07-11T00:00Z 2020-07-13T00:00Z",
        "bans 0\npassed 0\n",
    ),
    (
        "bans d any 2 2020-07-30T00:00Z 2020-08-01T00:00Z",
        "bans 1\nclosed 2020-07-31T00:00Z 2020-08-01T00:00Z\npassed 0\n",
    ),
];

#[test]
fn closes_roads_at_local_hours(rt: HostRuntime) {
    expect_texts(&rt, AT_WEEKENDS, Status::Done, WEEKENDS);
    expect_texts(&rt, AT_NIGHT, Status::Done, NIGHTS);
    expect_texts(&rt, BY_ORDINALS, Status::Done, ORDINALS);
}

const OPEN: &str = "bans 0\npassed 0\n";

const CLOSED: &str = "bans 1\nclosed 2020-07-04T00:00Z 2020-07-04T00:10Z\npassed 0\n";

const ON_WORKDAYS: Texts<'static> = &[(
    "d/rules.csv",
    "scope,key,value\narea:default,hgv:conditional,no @ (Mo-Fr 22:00-06:00; PH off)\narc:1,maxspeed,80\n",
)];

const IF_HEAVY: Texts<'static> = &[(
    "d/rules.csv",
    "scope,key,value\narc:1,hgv:conditional,no @ (weight>7.5 AND Sa 07:00-20:00)\n",
)];

const HGV_ALONE: Texts<'static> = &[(
    "d/rules.csv",
    "scope,key,value\narea:default,access:conditional,no @ (24/7)\narc:1,hgv,yes\n",
)];

const DESTINATIONS: Texts<'static> = &[(
    "d/rules.csv",
    "scope,key,value\narea:default,access,no\narc:1,vehicle,destination\n",
)];

// Runs over rules of holidays and of vehicles.
const RULES: &[Case<'static>] = &[
    Case {
        more: ON_WORKDAYS,
        words: "bans d any 1 2020-07-08T12:00Z 2020-07-10T12:00Z",
        status: Status::Done,
        text: "bans 1\nclosed 2020-07-08T22:00Z 2020-07-09T06:00Z\npassed 1\n",
    },
    Case {
        more: IF_HEAVY,
        words: "bans d v1 1 2020-07-04T00:00Z 2020-07-05T00:00Z",
        status: Status::Done,
        text: OPEN,
    },
    Case {
        more: IF_HEAVY,
        words: "bans d v2 1 2020-07-04T00:00Z 2020-07-05T00:00Z",
        status: Status::Done,
        text: "bans 1\nclosed 2020-07-04T07:00Z 2020-07-04T20:00Z\npassed 0\n",
    },
    Case {
        more: HGV_ALONE,
        words: "bans d any 1 26563680 26563690",
        status: Status::Done,
        text: OPEN,
    },
    Case {
        more: HGV_ALONE,
        words: "bans d coach 1 26563680 26563690",
        status: Status::Done,
        text: CLOSED,
    },
    Case {
        more: DESTINATIONS,
        words: "bans d van 1 26563680 26563690",
        status: Status::Done,
        text: OPEN,
    },
    Case {
        more: DESTINATIONS,
        words: "bans d any 1 26563680 26563690",
        status: Status::Done,
        text: CLOSED,
    },
];

const HOLIDAY: Texts<'static> = &[
    ("d/graph.gr", LANE),
    ("d/vehicles.csv", VEHICLES),
    ("d/holidays.csv", "area,kind,date\ndefault,PH,2020-07-09\n"),
];

#[test]
fn closes_roads_by_holiday_and_by_vehicle(rt: HostRuntime) {
    expect_cases(&rt, HOLIDAY, RULES);
}

const TWO_DRIVES: Texts<'static> = &[
    ("d/graph.gr", "p sp 3 2\na 1 2 180\na 2 3 300\n"),
    ("d/zones.csv", BERLIN),
    ("d/areas.csv", "area,zone\nde,berlin\n"),
    ("d/vehicles.csv", VEHICLES),
    ("d/ratings.csv", "rating,weight\nr,0.500\n"),
    ("d/parking.csv", "node,rating\n2,r\n"),
    (
        "d/rules.csv",
        "scope,key,value\narea:de,hgv:conditional,\"no @ (weight>7.5 AND Su,PH 00:00-22:00); \
        no @ (weight>7.5 AND Jul-Aug Sa 07:00-20:00)\"\n",
    ),
];

// Words, and their answers over the two drives and the bans of summer.
const IN_SUMMER: &[(&str, &str)] = &[
    (
        "plan d truck 1 3 2020-07-04T02:00Z 2020-07-08T00:00Z",
        "pairs 1\npair 26566620 1650.000\ndrive 1\nwait 2340\ndrive 2\n",
    ),
    (
        "plan d truck 1 3 2020-07-04T02:00Z 2020-07-08T00:00Z --form table",
        "routes 1\nroute 1 arrive 2020-07-06T01:00Z cost 1650.000\n2020-07-04T02:00Z drive 1 1 2 180\n2020-07-04T05:00Z wait 2 2340\n2020-07-05T20:00Z drive 2 2 3 300\n",
    ),
    (
        "plan d any 1 3 2020-07-04T02:00Z 2020-07-08T00:00Z",
        "pairs 1\npair 26564280 480.000\ndrive 1\ndrive 2\n",
    ),
];

#[test]
fn waits_for_the_end_of_a_ban(rt: HostRuntime) {
    expect_texts(&rt, TWO_DRIVES, Status::Done, IN_SUMMER);
}
