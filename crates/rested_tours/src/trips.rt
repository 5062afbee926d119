// Trips that keep a break rule.
ghost use Rattle.std.specs.Prelude.{◌≡◌, ◌↔◌, ◌≤◌, ◌-◌, All, Err, IfOk, IsTrue};
ghost use Rattle.rested_tours.specs.Words.{IsGoodRequest, setting_of, HasCheapArcs, IsGoodRule};
ghost use Rattle.rested_tours.specs.Words.{HasTooManyStates, AreRightRested, IsFirstRested};
ghost use Rattle.drive_states.specs.declared.rule.BreakFault.TheVariants.{TooManyStates};
ghost use Rattle.route_base.specs.declared.limits.TheConstants.{DAY_MINUTES, LONGEST_HORIZON};

use crate::tours::plan_rested_tour;
use crate::trip_routes::routes_of;
use drive_breaks::{BreakFault, BreakRule};
use drive_states::{Plan, has_too_many_states};
use node_arcs::NodeArcs;
use route_base::{NodeId, OutOfMemory, Request, Routes, TimedNet};
use std::alloc::Global;

// Whether the states of a trip are too many. The lists of outgoing arcs are given back.
fn are_too_many(
    alloc: Global,
    net: &TimedNet,
    origin: NodeId,
    rule: BreakRule,
) -> Result<bool, OutOfMemory>
    requires drive { rule.drive ≤ DAY_MINUTES }
    requires low { 1 ≤ origin.0 }
    requires high { origin.0 ≤ net.now.nodes }
    ensures { IfOk result (λ many. IsTrue many
        ↔ HasTooManyStates (setting_of net.now) origin.0 rule) }
{
    let outgoing = NodeArcs::outgoing(alloc, net)?;
    let plan = Plan {
        net,
        outgoing: &outgoing,
        origin,
        rule,
    };
    let many = has_too_many_states(alloc, plan)?;
    Ok(many)
}

// The front of a trip, whatever the number of its states: that of a tour without stops.
fn planned(
    alloc: Global,
    net: &TimedNet,
    request: Request,
    rule: BreakRule,
) -> Result<Routes, OutOfMemory>
    requires good { IsGoodRequest net.now request }
    requires in_time { request.depart ≤ request.until }
    requires horizon { request.until - request.depart ≤ LONGEST_HORIZON }
    requires rule { IsGoodRule rule }
    requires cheap { HasCheapArcs net.now }
    ensures right { IfOk result (AreRightRested (setting_of net.now) request rule) }
    ensures first { IfOk result (λ routes. All (IsFirstRested (setting_of net.now) request rule)
        routes) }
{
    let tours = plan_rested_tour(alloc, net, request, &[], rule)?;
    let routes = routes_of(alloc, tours.as_slice())?;
    Ok(Routes::from_vec(routes))
}

/// The Pareto front of arrival and cost over all lawful itineraries that keep the break rule, by rising arrival, each pair with the
/// legs of the first of its itineraries: compared from the end, fewer minutes driven since the last break come first, and then the earlier
/// step. If the origin is the goal, that is to stay. `TooManyStates` comes exactly if the states of the trip, and the drives and
/// breaks that leave them, are more than `MOST_STATES`, whatever the goal.
///
/// It takes the time and memory of `has_too_many_states`, and then of `plan_ruled` over the minutes driven since the last break.
pub fn plan_rested(
    alloc: Global,
    net: &TimedNet,
    request: Request,
    rule: BreakRule,
) -> Result<Routes, BreakFault>
    requires good { IsGoodRequest net.now request }
    requires in_time { request.depart ≤ request.until }
    requires horizon { request.until - request.depart ≤ LONGEST_HORIZON }
    requires rule { IsGoodRule rule }
    requires cheap { HasCheapArcs net.now }
    ensures right { IfOk result (AreRightRested (setting_of net.now) request rule) }
    ensures first { IfOk result (λ routes. All (IsFirstRested (setting_of net.now) request rule)
        routes) }
    ensures few { IfOk result (λ routes.
        HasTooManyStates (setting_of net.now) request.origin.0 rule → ⊥) }
    ensures many { result ≡ Err TooManyStates
        → HasTooManyStates (setting_of net.now) request.origin.0 rule }
{
    match are_too_many(alloc, net, request.origin, rule) {
        Ok(false) => {}
        Ok(true) => return Err(BreakFault::TooManyStates),
        Err(_) => return Err(BreakFault::OutOfMemory),
    }
    match planned(alloc, net, request, rule) {
        Ok(routes) => Ok(routes),
        Err(_) => Err(BreakFault::OutOfMemory),
    }
}
