// What the searches over one net share.
ghost use Rattle.std.specs.Prelude.{◌≤◌, ◌-◌, IfOk};
ghost use Rattle.route_base.specs.Front.{IsRight};
ghost use Rattle.route_base.specs.Legs.{CostsFit};
ghost use Rattle.route_base.specs.Net.{IsGoodRequest, setting_of};
ghost use Rattle.itinerary_unpack.specs.SearchArcs.{AreSearchArcs};

use crate::routes::routes_of;
use node_arcs::NodeArcs;
use potentials::{cap_for_minutes, has_proportional_costs, minutes_within, to_goal_within};
use propagation::search_with;
use route_base::{OutOfMemory, Request, Routes, TimedNet};
use std::alloc::Global;

/// The arcs of a net by node, and whether it is known that every arc costs `COST_OF_MINUTE` for each of its minutes.
pub struct SearchArcs {
    pub incoming: NodeArcs,
    pub outgoing: NodeArcs,
    pub proportional: bool,
}

// By hand, so that the drops of its parts are proved here alone.
impl Drop for SearchArcs {
    fn drop(self) {
        let SearchArcs {
            incoming: _,
            outgoing: _,
            proportional: _,
        } = self;
    }
}

/// What searches over the net share. Linear in nodes and arcs, in time and memory. The only error is out of memory.
pub fn search_arcs(alloc: Global, net: &TimedNet) -> Result<SearchArcs, OutOfMemory>
    ensures { IfOk result (AreSearchArcs net.now) }
{
    Ok(SearchArcs {
        incoming: NodeArcs::incoming(alloc, net)?,
        outgoing: NodeArcs::outgoing(alloc, net)?,
        proportional: has_proportional_costs(net),
    })
}

// The minutes up to which bounds to the goal are looked for. A first search, over a quarter of the request's minutes, tells how far the
// origin is. If it is that near, then bounds reach a quarter of the request's minutes farther than the origin. No clause fixes it, as
// bounds hold under any cap.
fn minutes_of_bounds(
    alloc: Global,
    net: &TimedNet,
    arcs: &SearchArcs,
    request: Request,
) -> Result<u64, OutOfMemory>
    requires arcs { AreSearchArcs net.now arcs.now }
    requires good { IsGoodRequest net.now request }
    requires in_time { request.depart ≤ request.until }
{
    let minutes = (request.until - request.depart).saturating_add(1);
    let near = minutes / 4;
    let way = minutes_within(
        alloc,
        net,
        &arcs.incoming,
        request.origin,
        request.goal,
        near,
    )?;
    Ok(if way < near { way + near } else { minutes })
}

/// The Pareto front of a request as `FrontSearch` has it, by arcs that searches share. Bounds end at the request's minutes, so that
/// nodes from which the goal is farther are neither settled nor searched, or at fewer if the goal is near. Takes the time and memory of
/// `minutes_within`, `to_goal_within`, `search_with`, and of `unpack_over` for each pair. The only error is out of memory.
pub fn front_over(
    alloc: Global,
    net: &TimedNet,
    arcs: &SearchArcs,
    request: Request,
) -> Result<Routes, OutOfMemory>
    requires arcs { AreSearchArcs net.now arcs.now }
    requires good { IsGoodRequest net.now request }
    requires in_time { request.depart ≤ request.until }
    requires fit { CostsFit (setting_of net.now) request }
    ensures { IfOk result (IsRight (setting_of net.now) request) }
{
    let minutes = minutes_of_bounds(alloc, net, arcs, request)?;
    let most = cap_for_minutes(arcs.proportional, minutes);
    let goal = request.goal;
    let bounds = to_goal_within(alloc, net, &arcs.incoming, arcs.proportional, goal, most)?;
    let found = search_with(alloc, net, &arcs.outgoing, bounds, request)?;
    routes_of(alloc, net, &arcs.incoming, request, &found)
}
