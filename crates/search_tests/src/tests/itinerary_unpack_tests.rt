// The search and the way back over arcs that were put in order before.
ghost use Rattle.std.specs.Prelude.{◌≤◌};
ghost use Rattle.plain_search.specs.Words.{IsAsked};

use crate::tests::nets::{ROUTES, trip_until, worked_net};
use itinerary_unpack::unpack_over;
use node_arcs::NodeArcs;
use propagation::search_over;
use route_base::{Leg, Minute, OutOfMemory, Pair, Request, TimedNet};
use std::alloc::Global;

// Whether the search finds exactly these pairs, and the way back these legs of each.
fn gives(
    alloc: Global,
    net: &TimedNet,
    request: Request,
    routes: &[(Pair, &[Leg])],
) -> Result<bool, OutOfMemory>
    requires { IsAsked net.now request }
{
    let incoming = NodeArcs::incoming(alloc, net)?;
    let found = search_over(alloc, net, &incoming, request)?;
    let pairs = found.pairs();
    if pairs.len() != routes.len() {
        return Ok(false);
    }
    for k in 0..routes.len() {
        let legs = unpack_over(alloc, net, &incoming, request, &found, k)?;
        if pairs[k] != routes[k].0 || legs.as_slice() != routes[k].1 {
            return Ok(false);
        }
    }
    Ok(true)
}

// Whether the worked trip has these of its routes, if it ends by this minute.
fn gives_until(alloc: Global, until: Minute, routes: &[(Pair, &[Leg])]) -> Result<bool, OutOfMemory>
    requires from { 26563680 ≤ until }
    requires upto { until ≤ 26650080 }
{
    let net = worked_net(alloc)?;
    gives(alloc, &net, trip_until(until), routes)
}

#[test]
fn goes_back_over_arcs_in_order(rt: HostRuntime) {
    assert!(rt; gives_until(rt.alloc(), 26563919, &[]) == Ok(true));
    assert!(rt; gives_until(rt.alloc(), 26563920, &ROUTES[..1]) == Ok(true));
    assert!(rt; gives_until(rt.alloc(), 26564080, ROUTES) == Ok(true));
}
