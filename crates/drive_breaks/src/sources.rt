// The legs over states as legs of the net.
ghost use Rattle.std.specs.Prelude.{◌≡◌, ◌≢◌, ◌<◌, ◌^◌, length, All, IfOk};
ghost use Rattle.drive_breaks.specs.Words.{unpacked, IsSourced, IsSourcedRoute, IsUnpackedRoute, AreUnpacked};
ghost use Rattle.drive_breaks.specs.Words.{IsTidy, steps_of, steps_of_leg};
ghost use Rattle.route_base.specs.declared.types.Leg.TheVariants.{Wait};

use route_base::{Leg, Legs, OutOfMemory, Route};
use std::alloc::Global;
use tidy_legs::push_leg;

// The leg of the net for a leg over states.
fn source_of(sources: &[Leg], leg: Leg) -> Leg
    requires { IsSourced sources.now leg }
    ensures steps { steps_of_leg result ≡ unpacked sources.now (steps_of_leg leg) }
    ensures some { result ≢ Leg.Wait 0 }
{
    match leg {
        Leg::Drive(x) => sources[x.0 as usize - 1],
        Leg::Wait(minutes) => Leg::Wait(minutes),
    }
}

// The legs of the net, with neighbouring waits joined.
fn unpacked_legs(alloc: Global, sources: &[Leg], legs: &[Leg]) -> Result<Vec<Leg>, OutOfMemory>
    requires sourced { All (IsSourced sources.now) legs.now }
    requires short { length (unpacked sources.now (steps_of legs.now)) < 2 ^ 62 }
    ensures tidy { IfOk result (λ out. IsTidy out.items) }
    ensures steps { IfOk result (λ out.
        steps_of out.items ≡ unpacked sources.now (steps_of legs.now)) }
{
    let mut out = Vec::new(alloc);
    for leg in legs {
        push_leg(&mut out, source_of(sources, *leg))?;
    }
    Ok(out)
}

// A route over states as a route of the net.
fn unpacked_route(alloc: Global, sources: &[Leg], route: &Route) -> Result<Route, OutOfMemory>
    requires { IsSourcedRoute sources.now route.now }
    ensures { IfOk result (IsUnpackedRoute sources.now route.now) }
{
    let legs = unpacked_legs(alloc, sources, route.legs.as_slice())?;
    Ok(Route {
        pair: route.pair,
        legs: Legs::from_vec(legs),
    })
}

/// The routes over states as routes of the net, where `sources` has the leg of each arc over states. Linear in the legs.
pub fn unpacked_routes(
    alloc: Global,
    sources: &[Leg],
    routes: &[Route],
) -> Result<Vec<Route>, OutOfMemory>
    requires { All (IsSourcedRoute sources.now) routes.now }
    ensures { IfOk result (λ out. AreUnpacked sources.now routes.now out.items) }
{
    let mut out = Vec::new(alloc);
    for route in routes {
        let own = unpacked_route(alloc, sources, route)?;
        out.push(own)?;
    }
    Ok(out)
}
