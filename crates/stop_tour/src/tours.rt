// Tours: the front of the layered net.
ghost use Rattle.std.specs.Prelude.{◌≡◌, ◌↔◌, ◌+◌, ◌-◌, ◌*◌, ◌≤◌, ◌<◌, Err, IsTrue, IfOk, All, length, map};
ghost use Rattle.stop_tour.specs.Words.{IsGoodRequest, setting_of, HasCheapArcs, IsGoodStop, tour_size_of};
ghost use Rattle.stop_tour.specs.Words.{AreRightTours, leg_over, route_over, IsNumbered};
ghost use Rattle.stop_tour.specs.declared.stops.TourFault.TheVariants.{TooManyStates};
ghost use Rattle.front_transport.specs.declared.limits.TheConstants.{MOST_STATES};
ghost use Rattle.route_base.specs.declared.limits.TheConstants.{LONGEST_HORIZON};

use crate::layer_bounds::tour_bounds;
use crate::layers::layered_net;
use crate::{Stop, TourFault, TourLeg, TourLegs, TourRoute, TourRoutes};
use front_transport::MOST_STATES;
use potentials::{BoundedSearch, WithoutBounds};
use route_base::{ArcId, FrontSearch, Leg, NodeId, OutOfMemory, Request, Route, TimedNet};
use std::alloc::Global;

/// Whether tours of these stops over the net aren't too large: the number of stops plus one, times the number of nodes and arcs, is at most
/// `MOST_STATES`. It takes constant time.
pub fn tour_fits(net: &TimedNet, stops: &[Stop]) -> bool
    ensures { IsTrue result ↔ (tour_size_of net.now stops.now ≤ MOST_STATES) }
{
    let layers = stops.len() as u64 + 1;
    let size = net.node_count() as u64 + net.arc_count() as u64;
    match layers.checked_mul(size) {
        Some(product) => product <= MOST_STATES as u64,
        None => false,
    }
}

// The leg of a tour for a leg over layers: behind the arcs of all layers come the services.
fn tour_leg(leg: Leg, arcs: u32, layers: u32) -> TourLeg
    requires fits { layers * arcs ≤ MOST_STATES }
    requires numbered { IsNumbered leg }
    ensures { result ≡ leg_over arcs layers leg }
{
    match leg {
        Leg::Drive(x) => {
            let drives = layers * arcs;
            if x.0 <= drives && arcs > 0 {
                TourLeg::Drive(ArcId((x.0 - 1) % arcs + 1))
            } else {
                TourLeg::Serve(x.0 - drives)
            }
        }
        Leg::Wait(minutes) => TourLeg::Wait(minutes),
    }
}

// The legs of a tour.
fn tour_legs(
    alloc: Global,
    legs: &[Leg],
    arcs: u32,
    layers: u32,
) -> Result<Vec<TourLeg>, OutOfMemory>
    requires fits { layers * arcs ≤ MOST_STATES }
    requires numbered { All IsNumbered legs.now }
    ensures { IfOk result (λ out. out.items ≡ map (leg_over arcs layers) legs.now) }
{
    let mut out = Vec::with_capacity(alloc, legs.len())?;
    for leg in legs {
        out.push(tour_leg(*leg, arcs, layers))?;
    }
    Ok(out)
}

// The routes of tours.
fn tour_routes(
    alloc: Global,
    routes: &[Route],
    arcs: u32,
    layers: u32,
) -> Result<TourRoutes, OutOfMemory>
    requires fits { layers * arcs ≤ MOST_STATES }
    requires numbered { All (λ x. All IsNumbered x.legs) routes.now }
    ensures { IfOk result (λ out. out ≡ map (route_over arcs layers) routes.now) }
{
    let mut out = Vec::with_capacity(alloc, routes.len())?;
    for route in routes {
        let legs = tour_legs(alloc, route.legs.as_slice(), arcs, layers)?;
        out.push(TourRoute {
            pair: route.pair,
            legs: TourLegs::from_vec(legs),
        })?;
    }
    Ok(TourRoutes::from_vec(out))
}

// The tours where the layers fit.
fn tours_over<E: BoundedSearch>(
    alloc: Global,
    engine: &E,
    net: &TimedNet,
    request: Request,
    stops: &[Stop],
) -> Result<TourRoutes, OutOfMemory>
    requires good { IsGoodRequest net.now request }
    requires in_time { request.depart ≤ request.until }
    requires horizon { request.until - request.depart ≤ LONGEST_HORIZON }
    requires stops { All (IsGoodStop net.now) stops.now }
    requires cheap { HasCheapArcs net.now }
    requires size { tour_size_of net.now stops.now ≤ MOST_STATES }
    ensures { IfOk result (AreRightTours (setting_of net.now) request stops.now) }
{
    let bounds = tour_bounds(alloc, net, request.goal, stops)?;
    let layered = layered_net(alloc, net, stops, request.until)?;
    let count = stops.len() as u32;
    let trip = Request {
        goal: NodeId(count * net.node_count() + request.goal.0),
        ..request
    };
    let routes = engine.front_with(alloc, &layered, bounds, trip)?;
    tour_routes(alloc, routes.as_slice(), net.arc_count(), count + 1)
}

/// The Pareto front of arrival and cost over all lawful tours of the stops in their order, by rising arrival, each pair with the legs
/// of such a tour. Without stops it is the front of the trip. `TooManyStates` comes exactly where the number of stops plus one, times
/// the number of nodes and arcs, is above `MOST_STATES`.
///
/// It takes the time and memory of one net with its closed runs for each number of served stops, and of a search over all of them. A
/// layer is searched only until its last minute from which the other stops can be served within their windows. The engine finds bounds
/// of its own over all layers, and those of `tour_with`, which spares that, are made and dropped.
///
/// For other callers: the program plans tours by `tour_with`.
pub fn tour<E: FrontSearch>(
    alloc: Global,
    engine: &E,
    net: &TimedNet,
    request: Request,
    stops: &[Stop],
) -> Result<TourRoutes, TourFault>
    requires good { IsGoodRequest net.now request }
    requires in_time { request.depart ≤ request.until }
    requires horizon { request.until - request.depart ≤ LONGEST_HORIZON }
    requires stops { All (IsGoodStop net.now) stops.now }
    requires cheap { HasCheapArcs net.now }
    ensures right { IfOk result (AreRightTours (setting_of net.now) request stops.now) }
    ensures few { IfOk result (λ routes. tour_size_of net.now stops.now ≤ MOST_STATES) }
    ensures many { result ≡ Err TooManyStates → MOST_STATES < tour_size_of net.now stops.now }
{
    tour_with(alloc, &WithoutBounds { engine }, net, request, stops)
}

/// The same by an engine that takes bounds. Those of a node of a layer are the least minutes and the least cost over the arcs of the
/// net to the next stop, from stop to stop, and from the last one to the goal, with the minutes of the services.
///
/// It takes the time of `to_goal` over the net for each stop and for the goal, the time and memory of one net with its closed runs for
/// each number of served stops, and those of a search over all of them by bounds that are given. The bounds are linear in the nodes of
/// all layers.
pub fn tour_with<E: BoundedSearch>(
    alloc: Global,
    engine: &E,
    net: &TimedNet,
    request: Request,
    stops: &[Stop],
) -> Result<TourRoutes, TourFault>
    requires good { IsGoodRequest net.now request }
    requires in_time { request.depart ≤ request.until }
    requires horizon { request.until - request.depart ≤ LONGEST_HORIZON }
    requires stops { All (IsGoodStop net.now) stops.now }
    requires cheap { HasCheapArcs net.now }
    ensures right { IfOk result (AreRightTours (setting_of net.now) request stops.now) }
    ensures few { IfOk result (λ routes. tour_size_of net.now stops.now ≤ MOST_STATES) }
    ensures many { result ≡ Err TooManyStates → MOST_STATES < tour_size_of net.now stops.now }
{
    if !tour_fits(net, stops) {
        return Err(TourFault::TooManyStates);
    }
    match tours_over(alloc, engine, net, request, stops) {
        Ok(routes) => Ok(routes),
        Err(_) => Err(TourFault::OutOfMemory),
    }
}
