// Trips that keep a break rule.
ghost use Rattle.std.specs.Prelude.{◌≡◌, ◌≢◌, ◌≤◌, ◌-◌, Err, IfOk};
ghost use Rattle.drive_breaks.specs.Words.{IsGoodRequest, setting_of, HasCheapArcs, IsGoodRule};
ghost use Rattle.drive_breaks.specs.Words.{AreRightRested, HasTooManyStates, IsExplored, stay_at};
ghost use Rattle.drive_states.specs.declared.rule.BreakFault.TheVariants.{TooManyStates};
ghost use Rattle.route_base.specs.declared.limits.TheConstants.{DAY_MINUTES, LONGEST_HORIZON};

use crate::sources::unpacked_routes;
use crate::states_as_net::{Ground, state_arcs, state_net};
use drive_states::{BreakFault, BreakRule, Explored, Plan, explore};
use node_arcs::NodeArcs;
use route_base::{
    FrontSearch, Legs, Minute, NodeId, OutOfMemory, Pair, Request, Route, Routes, TimedNet,
};
use std::alloc::Global;

// The one route of a trip to its origin: to stay.
fn stay(alloc: Global, depart: Minute) -> Result<Vec<Route>, OutOfMemory>
    ensures { IfOk result (λ routes. routes.items ≡ stay_at depart) }
{
    let mut routes = Vec::new(alloc);
    routes.push(Route {
        pair: Pair {
            arrival: depart,
            cost: 0,
        },
        legs: Legs::new(alloc),
    })?;
    Ok(routes)
}

// The routes of a trip over the net of its states. The states are given back before the search.
fn routes_over<E: FrontSearch>(
    alloc: Global,
    engine: &E,
    net: &TimedNet,
    request: Request,
    rule: BreakRule,
    explored: Explored,
) -> Result<Vec<Route>, OutOfMemory>
    requires good { IsGoodRequest net.now request }
    requires in_time { request.depart ≤ request.until }
    requires horizon { request.until - request.depart ≤ LONGEST_HORIZON }
    requires rule { IsGoodRule rule }
    requires cheap { HasCheapArcs net.now }
    requires away { request.origin.0 ≢ request.goal.0 }
    requires explored { IsExplored (setting_of net.now) request.origin.0 rule
        explored.states explored.ways.items }
    ensures { IfOk result (λ routes.
        AreRightRested (setting_of net.now) request rule routes.items) }
{
    let _nodes = net.node_count();
    let states = explored.states;
    let ground = Ground {
        net,
        rule,
        goal: request.goal,
        states: states.as_slice(),
    };
    let built = state_arcs(alloc, ground, explored.ways)?;
    let over = state_net(alloc, net, ground.states, built.arcs)?;
    let trip = Request {
        origin: NodeId(1),
        goal: NodeId(states.len() as u32 + 1),
        ..request
    };
    drop(states);
    let routes = engine.front(alloc, &over, trip)?;
    unpacked_routes(alloc, built.sources.as_slice(), routes.as_slice())
}

// The routes of a trip whose states are known.
fn routes_of<E: FrontSearch>(
    alloc: Global,
    engine: &E,
    net: &TimedNet,
    request: Request,
    rule: BreakRule,
    explored: Explored,
) -> Result<Vec<Route>, OutOfMemory>
    requires good { IsGoodRequest net.now request }
    requires in_time { request.depart ≤ request.until }
    requires horizon { request.until - request.depart ≤ LONGEST_HORIZON }
    requires rule { IsGoodRule rule }
    requires cheap { HasCheapArcs net.now }
    requires explored { IsExplored (setting_of net.now) request.origin.0 rule
        explored.states explored.ways.items }
    ensures { IfOk result (λ routes.
        AreRightRested (setting_of net.now) request rule routes.items) }
{
    if request.origin.0 == request.goal.0 {
        return stay(alloc, request.depart);
    }
    routes_over(alloc, engine, net, request, rule, explored)
}

// The states of a trip, and the ways between them. The lists of outgoing arcs are given back.
fn explored_from(
    alloc: Global,
    net: &TimedNet,
    origin: NodeId,
    rule: BreakRule,
) -> Result<Explored, BreakFault>
    requires drive { rule.drive ≤ DAY_MINUTES }
    requires low { 1 ≤ origin.0 }
    requires high { origin.0 ≤ net.now.nodes }
    ensures found { IfOk result (λ e. IsExplored (setting_of net.now)
        origin.0 rule e.states e.ways.items) }
    ensures few { IfOk result (λ e.
        HasTooManyStates (setting_of net.now) origin.0 rule → ⊥) }
    ensures many { result ≡ Err TooManyStates
        → HasTooManyStates (setting_of net.now) origin.0 rule }
{
    let outgoing = match NodeArcs::outgoing(alloc, net) {
        Ok(outgoing) => outgoing,
        Err(_) => return Err(BreakFault::OutOfMemory),
    };
    let plan = Plan {
        net,
        outgoing: &outgoing,
        origin,
        rule,
    };
    explore(alloc, plan)
}

/// The Pareto front of arrival and cost over all lawful itineraries that keep the break rule, by rising arrival, each pair with the
/// legs of one. Where the origin is the goal, that is to stay. `TooManyStates` comes exactly where the states of the trip, and the
/// drives and breaks that leave them, are more than `MOST_STATES`, whatever the goal.
///
/// It takes the time and memory of a net with a node for each state and an arc for each drive and break, and of a search over it.
///
/// For other callers: the program plans such trips by `plan_rested` of `rested_tours`.
pub fn plan_breaks<E: FrontSearch>(
    alloc: Global,
    engine: &E,
    net: &TimedNet,
    request: Request,
    rule: BreakRule,
) -> Result<Routes, BreakFault>
    requires good { IsGoodRequest net.now request }
    requires in_time { request.depart ≤ request.until }
    requires horizon { request.until - request.depart ≤ LONGEST_HORIZON }
    requires rule { IsGoodRule rule }
    requires cheap { HasCheapArcs net.now }
    ensures right { IfOk result (AreRightRested (setting_of net.now) request rule) }
    ensures few { IfOk result (λ routes.
        HasTooManyStates (setting_of net.now) request.origin.0 rule → ⊥) }
    ensures many { result ≡ Err TooManyStates
        → HasTooManyStates (setting_of net.now) request.origin.0 rule }
{
    let explored = explored_from(alloc, net, request.origin, rule)?;
    match routes_of(alloc, engine, net, request, rule, explored) {
        Ok(routes) => Ok(Routes::from_vec(routes)),
        Err(_) => Err(BreakFault::OutOfMemory),
    }
}
