// A network of two files, and the callers that answer for a trip over it.
ghost use Rattle.std.specs.Prelude.{◌≤◌, ◌+◌, IfSome};
ghost use Rattle.trip_explain.specs.Explanations.{IsRoadRequest};

use drive_breaks::BreakRule;
use network_tables::{Network, NetworkFault};
use route_base::{FileBytes, NodeId, OutOfMemory, Pair, Request};
use std::alloc::Global;
use trip_explain::Explanation;
use uses::{explanation_of, front_text, late_departures, network_of, rested_trip, tour_of};
use vehicle_classes::Vehicle;

const GRAPH: &str = "p sp 3 3\na 1 2 60\na 2 3 60\na 1 3 300\n";

// The second road is closed from 2020-07-04T01:00Z to 03:00Z.
const CLOSURES: &str = "arc,from,to\n2,26563740,26563860\n";

// The bytes of a text.
fn file_of(alloc: Global, text: &str) -> Result<FileBytes, OutOfMemory> {
    Ok(FileBytes::from_vec(Vec::from_slice(alloc, text.as_bytes())?))
}

// The trip from the first node to the third one, from midnight until 06:40.
fn trip_over(network: &Network) -> Option<Request>
    ensures trip { IfSome result (IsRoadRequest network.now) }
    ensures short { IfSome result (λ r. r.until ≤ r.depart + 400) }
{
    if network.graph().node_count() != 3 {
        return None;
    }
    Some(Request {
        origin: NodeId(1),
        goal: NodeId(3),
        depart: 26_563_680,
        until: 26_564_080,
    })
}

// Any vehicle.
fn any_of(network: &Network) -> Option<&Vehicle> {
    let place = network.vehicles().find(b"any")?;
    Some(network.vehicles().vehicle(place))
}

// Whether the front is the way around.
fn prints_the_front(alloc: Global, network: &Network) -> Option<bool> {
    let text = front_text(alloc, network, any_of(network)?, trip_over(network)?).ok()?;
    Some(text.as_slice() == b"pairs 1\npair 26563980 300.000\ndrive 3\n".as_slice())
}

// Whether there is one late departure: after the pass has opened.
fn leaves_late(alloc: Global, network: &Network) -> Option<bool> {
    let routes = late_departures(alloc, network, any_of(network)?, trip_over(network)?).ok()?;
    Some(routes.len() == 1)
}

// Whether a tour without stops is the trip.
fn serves_no_stops(alloc: Global, network: &Network) -> Option<bool> {
    let routes = tour_of(alloc, network, any_of(network)?, trip_over(network)?, &[]).ok()?;
    Some(routes.len() == 1)
}

// Whether the way around is too long for 270 minutes without a break.
fn keeps_the_rule(alloc: Global, network: &Network) -> Option<bool> {
    let rule = BreakRule {
        drive: 270,
        rest: 45,
    };
    let routes = rested_trip(alloc, network, any_of(network)?, trip_over(network)?, rule).ok()?;
    Some(routes.len() == 0)
}

// Whether the way around is explained by its pair.
fn explains_the_way(alloc: Global, network: &Network) -> Option<bool> {
    let vehicle = any_of(network)?;
    let found = explanation_of(alloc, network, vehicle, trip_over(network)?, b"drive 3\n").ok()?;
    let pair = Pair {
        arrival: 26_563_980,
        cost: 300_000,
    };
    Some(found == Explanation::Lawful(pair))
}

// The first caller whose answer is wrong, or nothing.
fn first_wrong(alloc: Global, network: &Network) -> &'static str {
    if prints_the_front(alloc, network) != Some(true) {
        "front_text"
    } else if leaves_late(alloc, network) != Some(true) {
        "late_departures"
    } else if serves_no_stops(alloc, network) != Some(true) {
        "tour_of"
    } else if keeps_the_rule(alloc, network) != Some(true) {
        "rested_trip"
    } else if explains_the_way(alloc, network) != Some(true) {
        "explanation_of"
    } else {
        ""
    }
}

#[test]
fn answer_for_a_trip_over_two_files(rt: HostRuntime) -> Result<(), NetworkFault> {
    let graph = file_of(rt.alloc(), GRAPH)?;
    let network = network_of(rt.alloc(), graph, file_of(rt.alloc(), CLOSURES)?)?;
    let wrong = first_wrong(rt.alloc(), &network);
    assert!(rt; wrong == "", "{wrong}");
    Ok(())
}
