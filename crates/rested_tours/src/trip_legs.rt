// The legs of a tour without services as legs of a trip.
ghost use Rattle.std.specs.Prelude.{◌≡◌, All, IfOk, map};
ghost use Rattle.rested_tours.specs.Words.{IsNoService, as_tour_leg};

use route_base::{Leg, OutOfMemory};
use std::alloc::Global;
use stop_tour::TourLeg;

// The leg of a trip.
fn trip_leg(leg: TourLeg) -> Leg
    requires { IsNoService leg }
    ensures { as_tour_leg result ≡ leg }
{
    match leg {
        TourLeg::Drive(a) => Leg::Drive(a),
        TourLeg::Wait(minutes) => Leg::Wait(minutes),
        TourLeg::Serve(_) => unreachable!(),
    }
}

/// The legs of a trip. Linear in the legs.
pub fn trip_legs(alloc: Global, legs: &[TourLeg]) -> Result<Vec<Leg>, OutOfMemory>
    requires { All IsNoService legs.now }
    ensures { IfOk result (λ out. map as_tour_leg out.items ≡ legs.now) }
{
    let mut out = Vec::with_capacity(alloc, legs.len())?;
    for leg in legs {
        out.push(trip_leg(*leg))?;
    }
    Ok(out)
}
