// The tours that routes over states tell.
ghost use Rattle.std.specs.Prelude.{All, IfOk};
ghost use Rattle.std.specs.List.{AllZip};
ghost use Rattle.rested_tours.specs.Words.{IsTellableRoute, IsToldBy};

use crate::legs::{legs_are_numbered, tour_legs};
use route_base::OutOfMemory;
use ruled_search::RuledRoute;
use std::alloc::Global;
use stop_tour::{TourLegs, TourRoute, TourRoutes};

// The tour that a route tells.
fn told_route(alloc: Global, rest: u64, route: &RuledRoute) -> Result<TourRoute, OutOfMemory>
    requires { IsTellableRoute rest route.now }
    ensures { IfOk result (IsToldBy rest route.now) }
{
    legs_are_numbered(route.legs.as_slice());
    let legs = tour_legs(alloc, rest, route.legs.as_slice())?;
    Ok(TourRoute {
        pair: route.pair,
        legs: TourLegs::from_vec(legs),
    })
}

/// The tours that routes tell, in their order, if a rest takes these minutes. Linear in the legs.
pub fn told_routes(
    alloc: Global,
    rest: u64,
    routes: &[RuledRoute],
) -> Result<TourRoutes, OutOfMemory>
    requires { All (IsTellableRoute rest) routes.now }
    ensures { IfOk result (AllZip (IsToldBy rest) routes.now) }
{
    let mut out = Vec::with_capacity(alloc, routes.len())?;
    for route in routes {
        let tour = told_route(alloc, rest, route)?;
        out.push(tour)?;
    }
    Ok(TourRoutes::from_vec(out))
}
