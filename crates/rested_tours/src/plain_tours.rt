// Tours without a break rule.
ghost use Rattle.std.specs.Prelude.{◌≤◌, ◌<◌, ◌-◌, ◌^◌, All, IfOk, length};
ghost use Rattle.rested_tours.specs.Words.{IsGoodRequest, setting_of, HasCheapArcs, IsGoodStop, AreRightTours};
ghost use Rattle.route_base.specs.declared.limits.TheConstants.{LONGEST_HORIZON};

use crate::planning::plan_ruled;
use crate::told_routes::told_routes;
use crate::tours::services_of;
use route_base::{OutOfMemory, Request, TimedNet};
use ruled_states::{NoRule, Serving};
use std::alloc::Global;
use stop_tour::{Stop, TourRoutes};

/// The Pareto front of arrival and cost over all lawful tours of the stops in their order, by rising arrival, each pair with the legs of
/// the first of its tours: the one answer of `stop_tour::tour` (`one_tour_answer`). The only error is out of memory.
///
/// It takes the time and memory of `plan_ruled` over the number of stops that were served: on grids about the time of
/// `stop_tour::tour_with` by `FunctionEngine`, or half of it, and a fourth to a half of its memory.
pub fn plan_tour(
    alloc: Global,
    net: &TimedNet,
    request: Request,
    stops: &[Stop],
) -> Result<TourRoutes, OutOfMemory>
    requires good { IsGoodRequest net.now request }
    requires in_time { request.depart ≤ request.until }
    requires horizon { request.until - request.depart ≤ LONGEST_HORIZON }
    requires stops { All (IsGoodStop net.now) stops.now }
    requires count { length stops.now < 2 ^ 32 }
    requires cheap { HasCheapArcs net.now }
    ensures { IfOk result (AreRightTours (setting_of net.now) request stops.now) }
{
    let _nodes = net.node_count();
    ruled_search::ruled_costs_fit();
    let services = services_of(alloc, stops)?;
    let rules = NoRule {};
    let ruler = Serving {
        rules: &rules,
        services: services.as_slice(),
    };
    let over = plan_ruled(alloc, net, request, &ruler)?;
    let tours = told_routes(alloc, 1, over.as_slice())?;
    Ok(tours)
}
