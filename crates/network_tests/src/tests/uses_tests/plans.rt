// A trip and a drive over a network of three nodes, asked by callers of the libraries.
ghost use Rattle.std.specs.Prelude.{◌≤◌};

use crate::tests::network_tables_tests::read;
use network_tables::Network;
use route_base::{ArcId, FileKind, Minute, NodeId, OutOfMemory, Pair, Request, Route};
use std::alloc::Global;
use uses::{is_open_for, plan_trip};

const RATINGS: &str = "rating,weight\nyard,2.000\n";

const PARKING: &str = "node,rating\n2,yard\n";

// The second road is closed from 2020-07-04T01:00Z to 03:00Z, and a lorry may wait at its beginning.
const PASS: &[(FileKind, &str)] = &[
    (FileKind::Closures, "arc,from,to\n2,26563740,26563860\n"),
    (FileKind::Ratings, RATINGS),
    (FileKind::Parking, PARKING),
];

// Whether the routes have these pairs, in this order.
fn have_pairs(routes: &[Route], due: &[Pair]) -> bool {
    if due.len() != routes.len() {
        return false;
    }
    for k in 0..routes.len() {
        if routes[k].pair != due[k] {
            return false;
        }
    }
    true
}

// Whether the trip from the first node to the third one has these options until a minute, for any vehicle.
fn has_options(alloc: Global, network: &Network, until: Minute, due: &[Pair]) -> bool
    requires low { 26563680 ≤ until }
    requires high { until ≤ 26564080 }
{
    if network.graph().node_count() != 3 || network.vehicles().len() != 1 {
        return false;
    }
    let request = Request {
        origin: NodeId(1),
        goal: NodeId(3),
        depart: 26_563_680,
        until,
    };
    match plan_trip(alloc, network, network.vehicles().vehicle(0), request) {
        Ok(routes) => have_pairs(routes.as_slice(), due),
        Err(_) => false,
    }
}

const OPTIONS: &[Pair] = &[
    Pair {
        arrival: 26_563_920,
        cost: 360_000,
    },
    Pair {
        arrival: 26_563_980,
        cost: 300_000,
    },
];

// Whether the trip over the pass has them.
fn has_both_options(alloc: Global) -> bool {
    match read(alloc, PASS) {
        Ok(network) => has_options(alloc, &network, 26_564_080, OPTIONS),
        Err(_) => false,
    }
}

#[test]
fn waits_for_the_pass_or_drives_around_it(rt: HostRuntime) {
    assert!(rt; has_both_options(rt.alloc()));
}

const FIRST_OPTION: &[Pair] = &[Pair {
    arrival: 26_563_920,
    cost: 360_000,
}];

// Closures of the second road, which is open again for just an hour, and then for a minute less.
const CLOSED_AGAIN: &[(&str, &[Pair])] = &[
    (
        "arc,from,to\n2,26563740,26563860\n2,26563920,26563921\n",
        FIRST_OPTION,
    ),
    (
        "arc,from,to\n2,26563740,26563860\n2,26563919,26563920\n",
        &[],
    ),
];

// Whether the trip that ends with that hour has these options under these closures.
fn obeys_closures(alloc: Global, closures: &str, due: &[Pair]) -> bool {
    let texts = [
        (FileKind::Closures, closures),
        (FileKind::Ratings, RATINGS),
        (FileKind::Parking, PARKING),
    ];
    match read(alloc, &texts) {
        Ok(network) => has_options(alloc, &network, 26_563_920, due),
        Err(_) => false,
    }
}

#[test]
fn obeys_closures_until_the_last_minute(rt: HostRuntime) {
    for (closures, due) in CLOSED_AGAIN {
        assert!(rt; obeys_closures(rt.alloc(), closures, due), "{closures}");
    }
}

// Whether the second road is open for an hour from a minute on, to any vehicle; none where there is no such road or vehicle.
fn is_pass_open(alloc: Global, network: &Network, from: Minute) -> Result<Option<bool>, OutOfMemory>
    requires low { 26563680 ≤ from }
    requires high { from ≤ 26564080 }
{
    if network.graph().arc_count() != 3 || network.vehicles().len() != 1 {
        return Ok(None);
    }
    let vehicle = network.vehicles().vehicle(0);
    Ok(Some(is_open_for(alloc, network, vehicle, ArcId(2), from, 60)?))
}

// Whether the second road is open for an hour until it is closed, and again from its opening on, but not from the minutes between.
fn is_open_around(alloc: Global, network: &Network) -> bool {
    is_pass_open(alloc, network, 26_563_680) == Ok(Some(true))
        && is_pass_open(alloc, network, 26_563_681) == Ok(Some(false))
        && is_pass_open(alloc, network, 26_563_859) == Ok(Some(false))
        && is_pass_open(alloc, network, 26_563_860) == Ok(Some(true))
}

// Whether this is so over the pass.
fn opens_around(alloc: Global) -> bool {
    match read(alloc, PASS) {
        Ok(network) => is_open_around(alloc, &network),
        Err(_) => false,
    }
}

#[test]
fn drives_over_the_pass_before_and_after_it_is_closed(rt: HostRuntime) {
    assert!(rt; opens_around(rt.alloc()));
}
