// Trips under rules.
ghost use Rattle.std.specs.Prelude.{◌≤◌, IfOk};
ghost use Rattle.node_arcs.specs.Stars.{AreIncoming};
ghost use Rattle.route_base.specs.Net.{IsGoodRequest, setting_of};
ghost use Rattle.state_dominance.specs.Inside.Product.{IsBase, AreLatest, AreRuledBounds};
ghost use Rattle.ruled_states.specs.Inside.Codes.{base};
ghost use Rattle.ruled_states.specs.Inside.Latest.{latest_by};
ghost use Rattle.ruled_states.specs.Inside.Reduced.{HoldsReduced};
ghost use Rattle.ruled_search.specs.Inside.Tasks.{state_bound};
ghost use Rattle.ruled_search.specs.Routes.{IsPlanned, RuledCostsFit};

use crate::back::routes_of;
use crate::bounds::bound_at;
use crate::routes::RuledRoute;
use crate::searching::searched;
use crate::task::Task;
use node_arcs::NodeArcs;
use route_base::{Minute, OutOfMemory, Request, TimedNet};
use ruled_states::{Labels, ReducedSums, Ruler, latest_by_left};
use std::alloc::Global;

/// The Pareto front of arrival (Unix minutes) and cost (thousandths) over the states of a ruler, each pair with legs that achieve it, by
/// labels whose bounds hold, or by the bound of nothing if there are none. The only error is out of memory.
///
/// It takes the time and memory of the costs of the states that are reached: those from which a pair may come by the bounds.
pub fn plan_with_bounds<R: Ruler + Copy>(
    alloc: Global,
    net: &TimedNet,
    incoming: &NodeArcs,
    request: Request,
    ruler: &R,
    bounds: &Option<Labels>,
    reduced: &Option<ReducedSums>,
) -> Result<Vec<RuledRoute>, OutOfMemory>
    requires good { IsGoodRequest net.now request }
    requires in_time { request.depart ≤ request.until }
    requires fit { RuledCostsFit (setting_of net.now) (R.ruling ruler.now) base request }
    requires numbers { IsBase (setting_of net.now) (R.ruling ruler.now) base }
    requires incoming { AreIncoming net.now incoming.now }
    requires hold { AreRuledBounds (setting_of net.now) (R.ruling ruler.now)
        request.goal.0 (state_bound (R.ruling ruler.now) bounds.now) }
    requires reduced { HoldsReduced (setting_of net.now) (R.ruling ruler.now) reduced.now }
    ensures planned { IfOk result (λ routes. IsPlanned (setting_of net.now) (R.ruling ruler.now)
        base request routes.items) }
{
    let _nodes = net.node_count();
    let latest = latest_of_states(alloc, bounds, ruler, request)?;
    let outgoing = NodeArcs::outgoing(alloc, net)?;
    let task = Task {
        net,
        outgoing: &outgoing,
        ruler,
        bounds,
        reduced,
        latest: &latest,
        request,
        earliest: earliest_arrival(bounds, ruler, request),
    };
    let progress = searched(alloc, task)?;
    let routes = routes_of(alloc, task, incoming, &progress)?;
    Ok(routes)
}

// The latest minutes of states; the last one where there are no labels.
fn latest_of_states<R: Ruler + Copy>(
    alloc: Global,
    bounds: &Option<Labels>,
    ruler: &R,
    request: Request,
) -> Result<Vec<Minute>, OutOfMemory>
    ensures { IfOk result (λ latest. AreLatest (R.ruling ruler.now) request.until
        (state_bound (R.ruling ruler.now) bounds.now)
        (latest_by (R.ruling ruler.now) latest.items request.until)) }
{
    let Some(labels) = bounds else {
        return Ok(Vec::new(alloc));
    };
    latest_by_left(alloc, ruler, labels, request.until)
}

// The earliest minute at which one could be at the goal by the bounds.
fn earliest_arrival<R: Ruler + Copy>(
    bounds: &Option<Labels>,
    ruler: &R,
    request: Request,
) -> Minute {
    match bound_at(bounds, ruler, request.origin, ruler.first()) {
        Some(bound) => request.depart.saturating_add(bound.minutes),
        None => request.depart,
    }
}
