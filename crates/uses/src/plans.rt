// Planning: the options of a trip over a network.
ghost use Rattle.std.specs.Prelude.{◌≤◌, ◌+◌, IfOk};
ghost use Rattle.network_tables.specs.RoadSetting.{road_setting};
ghost use Rattle.route_base.specs.Front.{IsRight};
ghost use Rattle.route_base.specs.Time.{IsInstant};
ghost use Rattle.route_base.specs.declared.limits.TheConstants.{LONGEST_HORIZON};

use ban_expansion::expand_plain;
use itinerary_unpack::FunctionEngine;
use network_tables::Network;
use route_base::{FrontSearch, OutOfMemory, Request, Routes, Run};
use std::alloc::Global;
use vehicle_classes::Vehicle;

/// The Pareto front of the trips of a vehicle over a network, under all its rules and closures, by rising arrival, each pair with
/// lawful legs. Minutes are Unix minutes, and costs are thousandths. It takes the time and memory of `expand_plain` and of
/// `propagation::search`.
pub fn plan_trip(
    alloc: Global,
    network: &Network,
    vehicle: &Vehicle,
    request: Request,
) -> Result<Routes, OutOfMemory>
    requires origin { (1 ≤ request.origin.0) × (request.origin.0 ≤ network.now.graph.nodes) }
    requires goal { (1 ≤ request.goal.0) × (request.goal.0 ≤ network.now.graph.nodes) }
    requires depart { IsInstant request.depart }
    requires until { IsInstant request.until }
    requires in_order { request.depart ≤ request.until }
    requires horizon { request.until ≤ request.depart + LONGEST_HORIZON }
    ensures { IfOk result (IsRight (road_setting network.now vehicle.now) request) }
{
    let window = Run {
        lo: request.depart,
        hi: request.until,
    };
    let net = expand_plain(alloc, network, vehicle, window)?;
    route_base::net_is_good(&net);
    itinerary_unpack::costs_fit();
    route_base::settings_agree();
    let routes = FunctionEngine.front(alloc, &net, request)?;
    Ok(routes)
}
