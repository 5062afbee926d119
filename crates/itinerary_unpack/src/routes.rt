// The routes of what was found.
ghost use Rattle.std.specs.Prelude.{◌≡◌, IfOk};
ghost use Rattle.itinerary_unpack.specs.Words.{AreIncoming, IsAnswered, IsRight, pairs_of, setting_of};

use crate::back::unpack_over;
use node_arcs::NodeArcs;
use propagation::Found;
use route_base::{OutOfMemory, Request, Route, Routes, TimedNet};
use std::alloc::Global;

/// The routes of all pairs that were found, in their order: each pair with the legs of its first itinerary. Takes the time and memory
/// of `unpack_over` for each pair.
pub fn routes_of(
    alloc: Global,
    net: &TimedNet,
    incoming: &NodeArcs,
    request: Request,
    found: &Found,
) -> Result<Routes, OutOfMemory>
    requires incoming { AreIncoming net.now incoming.now }
    requires found { IsAnswered net.now request found.now }
    ensures right { IfOk result (IsRight (setting_of net.now) request) }
    ensures pairs { IfOk result (λ routes. pairs_of routes ≡ found.now.pairs) }
{
    let pairs = found.pairs();
    let mut routes = Vec::with_capacity(alloc, pairs.len())?;
    for k in 0..pairs.len() {
        let legs = unpack_over(alloc, net, incoming, request, found, k)?;
        routes.push(Route {
            pair: pairs[k],
            legs,
        })?;
    }
    Ok(Routes::from_vec(routes))
}
