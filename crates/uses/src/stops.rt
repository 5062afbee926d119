// Tours: a trip that serves stops.
ghost use Rattle.std.specs.Prelude.{◌≡◌, ◌≤◌, ◌<◌, ◌+◌, All, Err, IfOk};
ghost use Rattle.front_transport.specs.declared.limits.TheConstants.{MOST_STATES};
ghost use Rattle.network_tables.specs.RoadSetting.{road_setting};
ghost use Rattle.route_base.specs.declared.limits.TheConstants.{LONGEST_HORIZON};
ghost use Rattle.stop_tour.specs.Tours.{AreRightTours, IsStopAmong, tour_size_in};
ghost use Rattle.stop_tour.specs.declared.stops.TourFault.TheVariants.{TooManyStates};
ghost use Rattle.trip_explain.specs.Explanations.{IsRoadRequest};

use crate::nets::trip_net;
use itinerary_unpack::FunctionEngine;
use network_tables::Network;
use route_base::Request;
use std::alloc::Global;
use stop_tour::{Stop, TourFault, TourRoutes, tour_with};
use vehicle_classes::Vehicle;

/// The Pareto front of a vehicle's tours of the stops in their order over a network, by rising arrival, each pair with lawful legs.
/// `TooManyStates` comes only if the number of stops plus one, times that of nodes and arcs, is above `MOST_STATES`. It takes the
/// time and memory of `trip_net` and of `tour_with`.
pub fn tour_of(
    alloc: Global,
    network: &Network,
    vehicle: &Vehicle,
    request: Request,
    stops: &[Stop],
) -> Result<TourRoutes, TourFault>
    requires trip { IsRoadRequest network.now request }
    requires horizon { request.until ≤ request.depart + LONGEST_HORIZON }
    requires stops { All (IsStopAmong network.now.graph.nodes) stops.now }
    ensures right { IfOk result
        (AreRightTours (road_setting network.now vehicle.now) request stops.now) }
    ensures many { result ≡ Err TooManyStates
        → MOST_STATES < tour_size_in (road_setting network.now vehicle.now) stops.now }
{
    let net = match trip_net(alloc, network, vehicle, request) {
        Ok(net) => net,
        Err(_) => return Err(TourFault::OutOfMemory),
    };
    stop_tour::tours_agree();
    let routes = tour_with(alloc, &FunctionEngine, &net, request, stops)?;
    Ok(routes)
}
