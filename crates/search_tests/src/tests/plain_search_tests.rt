// Worked cases: a wait until an arc opens, against a longer way that is never closed, and the points before it opens.
ghost use Rattle.std.specs.Prelude.{◌-◌, ◌≤◌};
ghost use Rattle.plain_search.specs.Words.{IsAsked};

use crate::tests::nets::{ROUTES, trip_until, worked_net};
use plain_search::{NodePoints, TableEngine, values};
use route_base::{
    Cost, FrontSearch, Leg, Minute, NodeId, OutOfMemory, Pair, Request, Route, TimedNet,
};
use std::alloc::Global;

// Whether the routes have these pairs and legs, in this order.
fn are_routes(routes: &[Route], wants: &[(Pair, &[Leg])]) -> bool {
    if routes.len() != wants.len() {
        return false;
    }
    for k in 0..wants.len() {
        let (pair, legs) = wants[k];
        if routes[k].pair != pair || routes[k].legs.as_slice() != legs {
            return false;
        }
    }
    true
}

// Whether an engine finds exactly these pairs, each with these legs.
fn has_front<E: FrontSearch>(
    alloc: Global,
    engine: &E,
    net: &TimedNet,
    request: Request,
    wants: &[(Pair, &[Leg])],
) -> bool
    requires asked { IsAsked net.now request }
    requires horizon { request.until - request.depart ≤ 86400 }
{
    match engine.front(alloc, net, request) {
        Ok(routes) => are_routes(routes.as_slice(), wants),
        Err(_) => false,
    }
}

// Whether the plain search finds the routes of the worked trip.
fn finds_routes(alloc: Global) -> bool {
    match worked_net(alloc) {
        Ok(net) => has_front(alloc, &TableEngine, &net, trip_until(26564080), ROUTES),
        Err(_) => false,
    }
}

#[test]
fn waits_for_an_arc_or_goes_round(rt: HostRuntime) {
    assert!(rt; finds_routes(rt.alloc()));
}

// Whether these nodes are reached, each with this one point.
fn are_points(found: &NodePoints, wants: &[(NodeId, Minute, Cost)]) -> bool {
    let found = found.as_slice();
    if found.len() != wants.len() {
        return false;
    }
    for k in 0..wants.len() {
        let (node, minute, cost) = wants[k];
        if found[k].0 != node || found[k].1.as_slice() != [(minute, cost)].as_slice() {
            return false;
        }
    }
    true
}

// Whether the trip until the second arc closes has these points.
fn has_points(alloc: Global, wants: &[(NodeId, Minute, Cost)]) -> bool {
    match points(alloc) {
        Ok(found) => are_points(&found, wants),
        Err(_) => false,
    }
}

fn points(alloc: Global) -> Result<NodePoints, OutOfMemory> {
    values(alloc, &worked_net(alloc)?, trip_until(26563740))
}

#[test]
fn reads_the_points_of_reached_nodes(rt: HostRuntime) {
    let wants = [(NodeId(1), 26563680, 0), (NodeId(2), 26563740, 60000)];
    assert!(rt; has_points(rt.alloc(), &wants));
}
