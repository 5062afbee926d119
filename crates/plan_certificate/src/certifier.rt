// A certificate of what the search finds.
ghost use Rattle.std.specs.Prelude.{◌≤◌, length, IfOk};
ghost use Rattle.route_base.specs.Front.{IsRight};
ghost use Rattle.route_base.specs.Legs.{CostsFit};
ghost use Rattle.route_base.specs.Net.{IsGoodRequest, setting_of};
ghost use Rattle.route_base.specs.declared.limits.TheConstants.{MOST_ARCS, MOST_NODES};
ghost use Rattle.certificate.specs.Writable.{IsWritable};
ghost use Rattle.certificate_check.specs.Verdicts.{IsGood};
ghost use Rattle.plan_certificate.specs.CheapRoads.{HasCheapRoads};
ghost use Rattle.plan_certificate.specs.Tight.{IsTight};

use crate::bounds::known_bounds;
use crate::functions::known_functions;
use certificate::Certificate;
use itinerary_unpack::routes_of;
use node_arcs::NodeArcs;
use propagation::search_over;
use route_base::{OutOfMemory, Request, TimedNet};
use std::alloc::Global;

/// A certificate whose routes answer the request, that the checker accepts and that is tight. It can be written if the roads are
/// cheap, as those of a road graph are; if arcs cost more, least costs to the goal may be above the range of the format.
///
/// Takes the time and the memory of `propagation::search_over`, and of `itinerary_unpack::unpack_over` for each pair, and what
/// is linear in the nodes. The functions that were found are moved, the bounds are copied.
pub fn certify(alloc: Global, net: &TimedNet, request: Request) -> Result<Certificate, OutOfMemory>
    requires good { IsGoodRequest net.now request }
    requires in_time { request.depart ≤ request.until }
    requires fit { CostsFit (setting_of net.now) request }
    requires nodes { net.now.nodes ≤ MOST_NODES }
    requires arcs { length net.now.arcs ≤ MOST_ARCS }
    ensures right { IfOk result (λ c. IsRight (setting_of net.now) request c.routes) }
    ensures good { IfOk result (IsGood (setting_of net.now) request) }
    ensures tight { IfOk result (IsTight (setting_of net.now) request) }
    ensures writable { IfOk result (λ c. HasCheapRoads (setting_of net.now) → IsWritable c) }
{
    let incoming = NodeArcs::incoming(alloc, net)?;
    let found = search_over(alloc, net, &incoming, request)?;
    let routes = routes_of(alloc, net, &incoming, request, &found)?;
    let bounds = known_bounds(alloc, found.bounds(), net.node_count())?;
    let functions = known_functions(alloc, found.into_functions())?;
    Ok(Certificate {
        routes,
        bounds,
        functions,
    })
}
