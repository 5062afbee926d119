// Tours without stops as routes of a trip.
ghost use Rattle.std.specs.Prelude.{All, IfOk};
ghost use Rattle.std.specs.List.{AllZip};
ghost use Rattle.rested_tours.specs.Words.{IsNoService, IsTripOf};

use crate::trip_legs::trip_legs;
use route_base::{Legs, OutOfMemory, Route};
use std::alloc::Global;
use stop_tour::TourRoute;

// The route of a tour without stops.
fn route_of(alloc: Global, tour: &TourRoute) -> Result<Route, OutOfMemory>
    requires { All IsNoService tour.now.legs }
    ensures { IfOk result (IsTripOf tour.now) }
{
    let legs = trip_legs(alloc, tour.legs.as_slice())?;
    Ok(Route {
        pair: tour.pair,
        legs: Legs::from_vec(legs),
    })
}

/// The routes of tours without stops, in their order. Linear in the legs.
pub fn routes_of(alloc: Global, tours: &[TourRoute]) -> Result<Vec<Route>, OutOfMemory>
    requires { All (λ tour. All IsNoService tour.legs) tours.now }
    ensures { IfOk result (λ out. AllZip IsTripOf tours.now out.items) }
{
    let mut out = Vec::with_capacity(alloc, tours.len())?;
    for tour in tours {
        let route = route_of(alloc, tour)?;
        out.push(route)?;
    }
    Ok(out)
}
