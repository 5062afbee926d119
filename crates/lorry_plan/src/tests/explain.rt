// Itineraries, and why they are unlawful or which pair is better.
use super::{
    CLOSED, Case, GRAPH, NETWORK, PARKED, RATED, TRIANGLE, Texts, expect_cases, expect_end,
    expect_over_each, expect_run, expect_texts, put_files, run_to, sure_folder,
};
use route_base::{OutOfMemory, Status};
use std::alloc::Global;
use std::process::Abort;
use std::thread::Threads;

const EXPLAIN: &str = "explain d any 1 3 26563680 26564080 i.txt";

const STRAIGHT: &str = "lawful 26563980 300.000\nundominated\n";

const OVER_TWO: &str = "lawful 26563800 120.000\nundominated\n";

// Runs the words over the base with each text of the itinerary, and compares the whole text.
fn expect_told<R: Abort + Threads + Sync + AllocGlobal>(
    rt: &R,
    base: Texts<'_>,
    words: &str,
    rows: &[(&str, &str)],
) {
    for (itinerary, text) in rows {
        expect_run(
            rt,
            base,
            &[("d/i.txt", *itinerary)],
            words,
            (Status::Done, *text),
        );
    }
}

// Itineraries over the closure of the second arc, with waits at the second node, and their answers.
const OVER_A_CLOSURE: &[(&str, &str)] = &[
    // Lawful ones.
    ("drive 3\n", STRAIGHT),
    (
        "drive 1\nwait 120\ndrive 2\n",
        "lawful 26563920 360.000\nundominated\n",
    ),
    (
        "drive 1\nwait 60\nwait 1\nwait 59\ndrive 2\n",
        "lawful 26563920 360.000\nundominated\n",
    ),
    // The first pair of the Pareto front is better; so is the second, or it isn't.
    (
        "drive 1\nwait 121\ndrive 2\n",
        "lawful 26563921 362.000\ndominated 26563920 360.000\n",
    ),
    (
        "drive 1\nwait 180\ndrive 2\n",
        "lawful 26563980 480.000\ndominated 26563920 360.000\n",
    ),
    // They just arrive in time.
    (
        "drive 1\nwait 280\ndrive 2\n",
        "lawful 26564080 680.000\ndominated 26563920 360.000\n",
    ),
    ("drive 1\nwait 281\ndrive 2\n", "unlawful 3 26564021 late\n"),
    // A drive into a closure, and another that would end within it.
    ("drive 1\ndrive 2\n", "unlawful 2 26563740 closure 1\n"),
    (
        "drive 1\nwait 119\ndrive 2\n",
        "unlawful 3 26563859 closure 1\n",
    ),
    // An arc of another tail, one that isn't there, and legs after the goal.
    ("drive 2\n", "unlawful 1 26563680 tail\n"),
    ("drive 4\n", "unlawful 1 26563680 tail\n"),
    ("drive 4294967295\n", "unlawful 1 26563680 tail\n"),
    ("drive 3\ndrive 3\n", "unlawful 2 26563980 tail\n"),
    ("drive 3\nwait 1\n", "unlawful 2 26563980 unrated\n"),
    // Waits where nobody may wait, and past the horizon.
    ("wait 86400\ndrive 1\n", "unlawful 1 26563680 unrated\n"),
    ("drive 1\nwait 340\n", "unlawful 3 26564080 goal\n"),
    ("drive 1\nwait 341\n", "unlawful 2 26564080 late\n"),
    (
        "drive 1\nwait 340\nwait 86400\n",
        "unlawful 3 26564080 late\n",
    ),
    ("drive 1\nwait 340\ndrive 2\n", "unlawful 3 26564080 late\n"),
    // Legs that don't lead to the goal.
    ("", "unlawful 1 26563680 goal\n"),
    ("drive 1\n", "unlawful 2 26563740 goal\n"),
];

// Texts that say the same.
const LAWFUL_FORMS: &[(&str, &str)] = &[
    ("drive 1\ndrive 2\n", OVER_TWO),
    ("drive 1\ndrive 2", OVER_TWO),
    ("drive 1\r\ndrive 2\r\n", OVER_TWO),
    ("drive 1\r\ndrive 2", OVER_TWO),
];

#[test]
fn tells_the_first_unlawful_leg_or_a_better_pair(rt: HostRuntime) {
    expect_told(&rt, NETWORK, EXPLAIN, OVER_A_CLOSURE);
    expect_told(&rt, GRAPH, EXPLAIN, LAWFUL_FORMS);
}

const STRAIGHT_ON: Texts<'static> = &[("d/i.txt", "drive 3\n")];

const NOWHERE: Texts<'static> = &[("d/i.txt", "")];

const HOURS: Texts<'static> = &[
    (
        "d/parking.csv",
        "node,rating,area,hours\n2,r,,00:00-02:00\n",
    ),
    ("d/i.txt", "drive 1\nwait 61\ndrive 2\n"),
];

// Runs in which it isn't the legs that differ.
const AROUND: &[Case<'static>] = &[
    // Waiting is cheap.
    Case {
        more: &[
            ("d/ratings.csv", "rating,weight\nr,0.5\n"),
            ("d/i.txt", "drive 3\n"),
        ],
        words: EXPLAIN,
        status: Status::Done,
        text: "lawful 26563980 300.000\ndominated 26563920 180.000\n",
    },
    // Waiting at the second node is open until two o'clock.
    Case {
        more: HOURS,
        words: EXPLAIN,
        status: Status::Done,
        text: "unlawful 2 26563800 shut\n",
    },
    // Tolls count.
    Case {
        more: &[("d/tolls.csv", "arc,toll\n3,60\n"), ("d/i.txt", "drive 3")],
        words: EXPLAIN,
        status: Status::Done,
        text: "lawful 26563980 360.000\ndominated 26563920 360.000\n",
    },
    // The second of three closures of the arc, in the order of their rows.
    Case {
        more: &[
            (
                "d/closures.csv",
                "arc,from,to\n3,26563900,26563960\n1,26563680,26563681\n3,26563850,26563950\n3,26563850,26563851\n",
            ),
            ("d/i.txt", "drive 3"),
        ],
        words: EXPLAIN,
        status: Status::Done,
        text: "unlawful 1 26563850 closure 2\n",
    },
    // Just in time, and a minute late.
    Case {
        more: STRAIGHT_ON,
        words: "explain d any 1 3 2020-07-04T00:00Z 2020-07-04T05:00Z i.txt",
        status: Status::Done,
        text: STRAIGHT,
    },
    Case {
        more: STRAIGHT_ON,
        words: "explain d any 1 3 26563680 26563979 i.txt",
        status: Status::Done,
        text: "unlawful 1 26563680 late\n",
    },
    // Who is there needs no leg.
    Case {
        more: NOWHERE,
        words: "explain d any 3 3 26563680 26563680 i.txt",
        status: Status::Done,
        text: "lawful 26563680 0.000\nundominated\n",
    },
    Case {
        more: STRAIGHT_ON,
        words: "explain d any 3 3 26563680 26563680 i.txt",
        status: Status::Done,
        text: "unlawful 1 26563680 tail\n",
    },
];

#[test]
fn explains_over_all_tables(rt: HostRuntime) {
    expect_cases(&rt, NETWORK, AROUND);
}

// A lane whose access is closed to all but lorries.
const LANE: Texts<'static> = &[
    ("d/graph.gr", "p sp 2 1\na 1 2 60\n"),
    (
        "d/vehicles.csv",
        "name,class,weight_kg,axleload_kg,height_cm,width_cm,length_cm,axles,purpose,flags\ncoach,bus,,,,,,,,\n",
    ),
    (
        "d/rules.csv",
        "scope,key,value\narea:default,access:conditional,no @ (24/7)\narc:1,hgv,yes\n",
    ),
    ("d/i.txt", "drive 1\n"),
];

// Words, and their answers: the rule decides for a coach alone.
const FOR_VEHICLES: &[(&str, &str)] = &[
    (
        "explain d coach 1 2 26563680 26564080 i.txt",
        "unlawful 1 26563680 rule area access conditional 1\n",
    ),
    (
        "explain d any 1 2 26563680 26564080 i.txt",
        "lawful 26563740 60.000\nundominated\n",
    ),
];

// Rules, and the answers to a trip over the second arc, which is closed, or over the third.
const DIRECT: &[(Texts<'static>, &str)] = &[
    (
        &[
            ("d/rules.csv", "scope,key,value\narea:default,access,no\n"),
            ("d/i.txt", "drive 3"),
        ],
        "unlawful 1 26563680 rule area access plain 1\n",
    ),
    (
        &[
            (
                "d/rules.csv",
                "scope,key,value\narea:default,vehicle,no\narc:3,hgv_articulated,no\narc:3,hgv,no\n",
            ),
            ("d/i.txt", "drive 3"),
        ],
        "unlawful 1 26563680 rule arc hgv plain 1\n",
    ),
    (
        &[
            (
                "d/rules.csv",
                "scope,key,value\narc:2,motor_vehicle:conditional,no @ (24/7); yes @ (24/7); no @ (01:00-01:30)\n",
            ),
            ("d/i.txt", "drive 1\ndrive 2"),
        ],
        "unlawful 2 26563740 rule arc motor_vehicle conditional 3\n",
    ),
    // The closure comes before the rule.
    (
        &[
            (
                "d/rules.csv",
                "scope,key,value\narc:2,goods:conditional,no @ (24/7); yes @ (24/7)\narc:2,hgv:conditional,no @ (01:01-01:30)\n",
            ),
            ("d/i.txt", "drive 1\ndrive 2"),
        ],
        "unlawful 2 26563740 closure 1\n",
    ),
    // The rule is in force when the closure ends.
    (
        &[
            (
                "d/rules.csv",
                "scope,key,value\narea:default,hgv:conditional,no @ (02:59-03:10)\n",
            ),
            ("d/i.txt", "drive 1\nwait 120\ndrive 2"),
        ],
        "unlawful 3 26563860 rule area hgv conditional 1\n",
    ),
];

#[test]
fn names_the_rule_that_decides(rt: HostRuntime) {
    expect_texts(&rt, LANE, Status::Done, FOR_VEHICLES);
    expect_over_each(&rt, NETWORK, EXPLAIN, Status::Done, DIRECT);
}

// Itineraries, and the numbers of their first bad lines.
const BAD_LINES: &[(&str, &str)] = &[
    ("\n", "1"),
    ("x", "1"),
    ("drive", "1"),
    ("drive ", "1"),
    ("drive1", "1"),
    ("Drive 1", "1"),
    ("drive  1", "1"),
    ("drive\t1", "1"),
    (" drive 1", "1"),
    ("drive 1 ", "1"),
    ("drive 1 2", "1"),
    ("drive 0", "1"),
    ("drive 01", "1"),
    ("drive +1", "1"),
    ("drive -1", "1"),
    ("drive 1.0", "1"),
    ("drive 4294967296", "1"),
    ("drive 18446744073709551617", "1"),
    ("drive 3\r", "1"),
    ("drive 3\rdrive 3\n", "1"),
    ("\u{FEFF}drive 3\n", "1"),
    ("wait\n", "1"),
    ("wait 0\n", "1"),
    ("wait 01\n", "1"),
    ("wait 86401\n", "1"),
    ("serve 1\n", "1"),
    ("c drive 3\ndrive 3\n", "1"),
    ("drive 1\n\n", "2"),
    ("drive 1\n\ndrive 2\n", "2"),
    ("drive 1\r\n\r\n", "2"),
    ("drive 9\nwait 86400\nwait 1\ndrive 1,\nx\n", "4"),
];

// Runs the words over the triangle with each text of the itinerary, and compares the refusal.
fn expect_bad_lines<R: Abort + Threads + Sync + AllocGlobal>(
    rt: &R,
    words: &str,
    rows: &[(&str, &str)],
) {
    for (itinerary, line) in rows {
        let refusal = format!(in rt.alloc(); "refused input itinerary {line} BadForm\n").expect(
            rt, "memory",
        );
        expect_run(
            rt,
            GRAPH,
            &[("d/i.txt", *itinerary)],
            words,
            (Status::BadInput, refusal.as_str()),
        );
    }
}

// Files, and the refusals of a request that fails each check: all files come first, those of the network before the itinerary.
const BEFORE_THE_CHECKS: &[(Texts<'static>, &str)] = &[
    (&[], "refused input itinerary 0 Missing\n"),
    (
        &[("d/closures.csv", "x")],
        "refused input itinerary 0 Missing\n",
    ),
    (
        &[("d/closures.csv", "x"), ("d/i.txt", "x")],
        "refused input closures.csv 1 BadHeader\n",
    ),
    (
        &[("d/tolls.csv", "arc,toll\n4,1\n"), ("d/i.txt", "x")],
        "refused input tolls.csv 2 Unknown\n",
    ),
    (&[("d/i.txt", "x")], "refused input itinerary 1 BadForm\n"),
];

#[test]
fn refuses_itineraries_by_their_first_bad_line(rt: HostRuntime) {
    expect_bad_lines(&rt, EXPLAIN, BAD_LINES);
    let none = "explain d x 0 9 26563680 26563679 i.txt";
    expect_over_each(&rt, GRAPH, none, Status::BadInput, BEFORE_THE_CHECKS);
}

const UNLAWFUL: Texts<'static> = &[
    ("d/graph.gr", TRIANGLE),
    ("d/closures.csv", CLOSED),
    ("d/ratings.csv", RATED),
    ("d/parking.csv", PARKED),
    ("d/i.txt", "drive 9\n"),
];

// Words, and their refusals: the checks come before what is said of the legs.
const FAILING: &[(&str, &str)] = &[
    (
        "explain d x 0 9 26563680 26563679 i.txt",
        "refused request UnknownVehicle\n",
    ),
    (
        "explain d any 0 9 26563680 26563679 i.txt",
        "refused request OriginRange\n",
    ),
    (
        "explain d any 1 4 26563680 26563679 i.txt",
        "refused request GoalRange\n",
    ),
    (
        "explain d any 1 3 26563680 26563679 i.txt",
        "refused request UntilBeforeDepart\n",
    ),
    (
        "explain d any 1 3 26563680 26650081 i.txt",
        "refused request HorizonTooLong\n",
    ),
];

#[test]
fn refuses_explanations_at_their_first_failed_check(rt: HostRuntime) {
    expect_texts(&rt, UNLAWFUL, Status::BadRequest, FAILING);
}

// A text after itself this many times over, each time twice as long, and more after it.
fn doubled(alloc: Global, text: &str, times: u32, more: &str) -> Result<String, OutOfMemory> {
    let mut whole = String::from_str(alloc, text)?;
    for _ in 0..times {
        let half = whole.clone()?;
        whole.push_str(half.as_str())?;
    }
    whole.push_str(more)?;
    Ok(whole)
}

// Runs the words over the triangle with 16,777,216 bytes of bad lines, and more after them: the status, and whether the whole text is
// this one.
fn run_over_long<R: Threads + Sync + AllocGlobal>(
    rt: &R,
    more: &str,
    text: &str,
) -> Result<(Status, bool), OutOfMemory> {
    let lines = doubled(rt.alloc(), "x\n", 23, more)?;
    let mut folder = sure_folder(rt.alloc(), GRAPH)?;
    put_files(&mut folder, &[("d/i.txt", lines.as_str())])?;
    run_to(rt, &mut folder, EXPLAIN, text)
}

// What stands after 16,777,216 bytes, and the refusal.
const LONG: &[(&str, &str)] = &[
    ("", "refused input itinerary 1 BadForm\n"),
    ("x", "refused input itinerary 0 TooLong\n"),
];

#[test]
fn limits_the_bytes_of_an_itinerary(rt: HostRuntime) {
    for (more, text) in LONG {
        expect_end(&rt, text, run_over_long(&rt, more, text), Status::BadInput);
    }
}
