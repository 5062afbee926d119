// The search for latest departures.
ghost use Rattle.std.specs.Prelude.{◌≤◌, ◌<◌, ◌+◌, ◌-◌, ◌^◌, IfOk, length};
ghost use Rattle.latest_departure.specs.Words.{AreRightLate, HasCheapArcs, IsGoodRequest, setting_of};
ghost use Rattle.route_base.specs.declared.limits.TheConstants.{LONGEST_HORIZON, MOST_NET_NODES};

use crate::mirror::mirrored_net;
use crate::routes::{LateRoutes, late_routes};
use route_base::{FrontSearch, NodeId, OutOfMemory, Request, TimedNet};
use std::alloc::Global;

/// How late one may leave from minute `depart` on and still arrive by `until`: the Pareto front of departure and cost, by falling
/// departure, each pair with legs that leave then. Where the origin is the goal, that is `until` at no cost.
///
/// The horizon is one minute shorter than for a trip, since the mirrored net has an arc of one minute more. It takes the time and
/// memory of a copy of the net and of one search, with an allocation for each list of closed runs.
pub fn latest<E: FrontSearch>(
    alloc: Global,
    engine: &E,
    net: &TimedNet,
    request: Request,
) -> Result<LateRoutes, OutOfMemory>
    requires good { IsGoodRequest net.now request }
    requires in_time { request.depart ≤ request.until }
    requires horizon { request.until - request.depart < LONGEST_HORIZON }
    requires nodes { net.now.nodes < MOST_NET_NODES }
    requires arcs { length net.now.arcs + 1 < 2 ^ 32 }
    requires cheap { HasCheapArcs net.now }
    ensures { IfOk result (AreRightLate (setting_of net.now) request) }
{
    let sum = request.until + 1;
    let mirrored = mirrored_net(alloc, net, request.goal, sum)?;
    let turned = Request {
        origin: NodeId(net.node_count() + 1),
        goal: request.origin,
        depart: 0,
        until: sum - request.depart,
    };
    let routes = engine.front(alloc, &mirrored, turned)?;
    late_routes(alloc, net, request.goal, routes.as_slice(), sum)
}
