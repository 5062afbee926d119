// Itineraries from node 1 to node 3 of the triangle, from midnight on, and the texts of their explanations.
use super::network_tables_tests::read;
use network_tables::Network;
use route_base::{FileKind, Legs, NodeId, OutOfMemory, Pair, Request, Route, Routes};
use std::alloc::Global;
use trip_explain::{dominator, explain, explain_text, read_itinerary};

// Whether the itinerary is explained so, for a vehicle.
fn is_told<'a>(
    alloc: Global,
    network: &Network,
    place: usize,
    file: &'a str,
    due: &'a str,
) -> bool {
    if place >= network.vehicles().len() || network.graph().node_count() < 3 {
        return false;
    }
    let Ok(legs) = read_itinerary(alloc, file.as_bytes()) else {
        return false;
    };
    let request = Request {
        origin: NodeId(1),
        goal: NodeId(3),
        depart: 26_563_680,
        until: 26_564_080,
    };
    let vehicle = network.vehicles().vehicle(place);
    let explanation = explain(network, vehicle, request, legs.as_slice());
    match explain_text(alloc, explanation, None) {
        Ok(text) => text.as_slice() == due.as_bytes(),
        Err(_) => false,
    }
}

// Whether all of these itineraries are explained so over the tables, for a vehicle: `any` is the first.
fn are_told(
    alloc: Global,
    texts: &[(FileKind, &str)],
    place: usize,
    cases: &[(&str, &str)],
) -> bool {
    match read(alloc, texts) {
        Ok(network) => are_told_over(alloc, &network, place, cases),
        Err(_) => false,
    }
}

fn are_told_over(alloc: Global, network: &Network, place: usize, cases: &[(&str, &str)]) -> bool {
    let mut told = true;
    for (file, due) in cases {
        told = told && is_told(alloc, network, place, file, due);
    }
    told
}

const CLOSURES: &str =
    "arc,from,to\n2,26563740,26563860\n3,26563900,26563960\n3,26563850,26563950\n";

const RATINGS: &str = "rating,weight\nr,0.5\n";

// One may wait at node 2 until 02:00.
const UNTIL_TWO: &[(FileKind, &str)] = &[
    (FileKind::Closures, CLOSURES),
    (FileKind::Ratings, RATINGS),
    (
        FileKind::Parking,
        "node,rating,area,hours\n2,r,,00:00-02:00\n",
    ),
];

const SHUT_WAITS: &[(&str, &str)] = &[
    (
        "drive 1\nwait 60\ndrive 2\n",
        "unlawful 3 26563800 closure 1\n",
    ),
    ("drive 1\nwait 61\ndrive 2\n", "unlawful 2 26563800 shut\n"),
    ("drive 1\nwait 5000\n", "unlawful 2 26563800 shut\n"),
    ("wait 5000\n", "unlawful 1 26563680 unrated\n"),
    ("drive 1\ndrive 2\n", "unlawful 2 26563740 closure 1\n"),
    ("drive 2\n", "unlawful 1 26563680 tail\n"),
    ("drive 4\n", "unlawful 1 26563680 tail\n"),
    ("drive 3\n", "unlawful 1 26563850 closure 2\n"),
    ("drive 1\n", "unlawful 2 26563740 goal\n"),
    ("", "unlawful 1 26563680 goal\n"),
];

#[test]
fn tells_shut_waits(rt: HostRuntime) {
    assert!(rt; are_told(rt.alloc(), UNTIL_TWO, 0, SHUT_WAITS));
}

// One may wait at node 2 until the horizon at 06:40, and arc 1 has a toll.
const UNTIL_HORIZON: &[(FileKind, &str)] = &[
    (FileKind::Closures, CLOSURES),
    (FileKind::Ratings, RATINGS),
    (
        FileKind::Parking,
        "node,rating,area,hours\n2,r,,00:00-06:40\n",
    ),
    (FileKind::Tolls, "arc,toll\n1,5.5\n"),
];

const LATE_WAITS: &[(&str, &str)] = &[
    (
        "drive 1\nwait 120\ndrive 2\n",
        "lawful 26563920 185.500\nundominated\n",
    ),
    (
        "drive 1\nwait 60\nwait 60\ndrive 2\n",
        "lawful 26563920 185.500\nundominated\n",
    ),
    (
        "drive 1\nwait 119\ndrive 2\n",
        "unlawful 3 26563859 closure 1\n",
    ),
    ("drive 1\nwait 340\ndrive 2\n", "unlawful 3 26564080 late\n"),
    ("drive 1\nwait 340\n", "unlawful 3 26564080 goal\n"),
    ("drive 1\nwait 341\n", "unlawful 2 26564080 late\n"),
];

#[test]
fn tells_late_waits(rt: HostRuntime) {
    assert!(rt; are_told(rt.alloc(), UNTIL_HORIZON, 0, LATE_WAITS));
}

// Arc 2 is barred by its third clause until 01:30, arc 3 from the first minute of a closure on, and area rules bar a bus.
const RULED: &[(FileKind, &str)] = &[
    (FileKind::Closures, CLOSURES),
    (FileKind::Ratings, RATINGS),
    (FileKind::Parking, "node,rating\n2,r\n"),
    (
        FileKind::Vehicles,
        "name,class,weight_kg,axleload_kg,height_cm,width_cm,length_cm,axles,purpose,flags\ncoach,bus,,,,,,,,\n",
    ),
    (
        FileKind::Rules,
        "scope,key,value\narc:2,access:conditional,no @ (24/7); yes @ (24/7); no @ (01:00-01:30)\n\
         arc:3,access:conditional,no @ (02:50-03:00)\narea:default,bus,no\narea:default,bus:conditional,no @ (24/7)\narc:1,bus,yes\n",
    ),
];

const BARRED: &[(&str, &str)] = &[
    (
        "drive 1\ndrive 2\n",
        "unlawful 2 26563740 rule arc access conditional 3\n",
    ),
    (
        "drive 1\nwait 30\ndrive 2\n",
        "unlawful 3 26563770 closure 1\n",
    ),
    (
        "drive 3\n",
        "unlawful 1 26563850 rule arc access conditional 1\n",
    ),
];

const COACH_BARRED: &[(&str, &str)] = &[
    (
        "drive 3\n",
        "unlawful 1 26563680 rule area bus conditional 1\n",
    ),
    (
        "drive 1\ndrive 2\n",
        "unlawful 2 26563740 rule area bus conditional 1\n",
    ),
];

#[test]
fn tells_rules(rt: HostRuntime) {
    assert!(rt; are_told(rt.alloc(), RULED, 0, BARRED));
    assert!(rt; are_told(rt.alloc(), RULED, 1, COACH_BARRED));
}

// Routes with these pairs, and no legs.
fn routes_of(alloc: Global, pairs: &[Pair]) -> Result<Routes, OutOfMemory> {
    let mut routes = Routes::new(alloc);
    for pair in pairs {
        let legs = Legs::new(alloc);
        routes.push(Route { pair: *pair, legs })?;
    }
    Ok(routes)
}

// Whether this is the first of the pairs that is better.
fn is_first_better(alloc: Global, pairs: &[Pair], pair: Pair, better: Option<Pair>) -> bool {
    match routes_of(alloc, pairs) {
        Ok(routes) => dominator(&routes, pair) == better,
        Err(_) => false,
    }
}

const EARLY: Pair = Pair {
    arrival: 26_563_920,
    cost: 180_000,
};

const LATE: Pair = Pair {
    arrival: 26_563_980,
    cost: 150_000,
};

const WORSE: Pair = Pair {
    arrival: 26_563_980,
    cost: 180_000,
};

#[test]
fn finds_the_first_better_pair(rt: HostRuntime) {
    assert!(rt; is_first_better(rt.alloc(), &[], WORSE, None));
    assert!(rt; is_first_better(rt.alloc(), &[EARLY, LATE], WORSE, Some(EARLY)));
    assert!(rt; is_first_better(rt.alloc(), &[EARLY, LATE], EARLY, None));
    assert!(rt; is_first_better(rt.alloc(), &[EARLY, LATE], LATE, None));
}
