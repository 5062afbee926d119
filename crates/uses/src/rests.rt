// Driver breaks: a trip that keeps a break rule.
ghost use Rattle.std.specs.Prelude.{◌≡◌, ◌≤◌, ◌+◌, All, Err, IfOk};
ghost use Rattle.drive_breaks.specs.Words.{AreRightRested, HasTooManyStates, IsGoodRule};
ghost use Rattle.drive_breaks.specs.RestedOrder.{IsFirstRested};
ghost use Rattle.drive_states.specs.declared.rule.BreakFault.TheVariants.{TooManyStates};
ghost use Rattle.network_tables.specs.RoadSetting.{road_setting};
ghost use Rattle.route_base.specs.declared.limits.TheConstants.{LONGEST_HORIZON};
ghost use Rattle.trip_explain.specs.Explanations.{IsRoadRequest};

use crate::nets::trip_net;
use drive_breaks::{BreakFault, BreakRule};
use network_tables::Network;
use rested_tours::plan_rested;
use route_base::{Request, Routes};
use std::alloc::Global;
use vehicle_classes::Vehicle;

/// The Pareto front of a vehicle's trips over a network that keep a break rule, by rising arrival, each pair with the legs of its first
/// itinerary. `TooManyStates` comes only if the trip has too many states. It takes the time and memory of `trip_net` and of
/// `plan_rested`.
pub fn rested_trip(
    alloc: Global,
    network: &Network,
    vehicle: &Vehicle,
    request: Request,
    rule: BreakRule,
) -> Result<Routes, BreakFault>
    requires trip { IsRoadRequest network.now request }
    requires horizon { request.until ≤ request.depart + LONGEST_HORIZON }
    requires rule { IsGoodRule rule }
    ensures right { IfOk result
        (AreRightRested (road_setting network.now vehicle.now) request rule) }
    ensures first { IfOk result (λ routes.
        All (IsFirstRested (road_setting network.now vehicle.now) request rule) routes) }
    ensures many { result ≡ Err TooManyStates
        → HasTooManyStates (road_setting network.now vehicle.now) request.origin.0 rule }
{
    let net = match trip_net(alloc, network, vehicle, request) {
        Ok(net) => net,
        Err(_) => return Err(BreakFault::OutOfMemory),
    };
    drive_breaks::rested_trips_agree();
    let routes = plan_rested(alloc, &net, request, rule)?;
    Ok(routes)
}
