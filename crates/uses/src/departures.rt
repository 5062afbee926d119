// Departures: how late a trip may leave.
ghost use Rattle.std.specs.Prelude.{◌<◌, ◌+◌, IfOk};
ghost use Rattle.latest_departure.specs.LateFront.{AreRightLate};
ghost use Rattle.network_tables.specs.RoadSetting.{road_setting};
ghost use Rattle.route_base.specs.declared.limits.TheConstants.{LONGEST_HORIZON};
ghost use Rattle.trip_explain.specs.Explanations.{IsRoadRequest};

use crate::nets::trip_net;
use itinerary_unpack::FunctionEngine;
use latest_departure::{LateRoutes, latest};
use network_tables::Network;
use route_base::{OutOfMemory, Request};
use std::alloc::Global;
use vehicle_classes::Vehicle;

/// How late a vehicle may leave over a network to arrive by `until`, not before `depart`: the Pareto front of departure and cost, by
/// falling departure, each pair with lawful legs. It takes the time and memory of `trip_net` and of `latest`.
pub fn late_departures(
    alloc: Global,
    network: &Network,
    vehicle: &Vehicle,
    request: Request,
) -> Result<LateRoutes, OutOfMemory>
    requires trip { IsRoadRequest network.now request }
    requires horizon { request.until < request.depart + LONGEST_HORIZON }
    ensures { IfOk result (AreRightLate (road_setting network.now vehicle.now) request) }
{
    let net = trip_net(alloc, network, vehicle, request)?;
    latest_departure::late_routes_agree();
    let routes = latest(alloc, &FunctionEngine, &net, request)?;
    Ok(routes)
}
