// Trips and tours under a ruler, with bounds to the goal.
ghost use Rattle.std.specs.Prelude.{◌≤◌, IfOk};
ghost use Rattle.route_base.specs.Net.{IsGoodRequest, setting_of};
ghost use Rattle.state_dominance.specs.Inside.Product.{IsBase, AreRuledBounds};
ghost use Rattle.ruled_states.specs.Inside.Codes.{base};
ghost use Rattle.ruled_states.specs.Inside.Reduced.{HoldsReduced};
ghost use Rattle.node_arcs.specs.Stars.{AreIncoming};
ghost use Rattle.ruled_search.specs.Inside.Tasks.{state_bound};
ghost use Rattle.ruled_search.specs.Routes.{IsPlanned, RuledCostsFit};

use node_arcs::NodeArcs;
use route_base::{OutOfMemory, Request, TimedNet};
use ruled_bounds::{Ground, reduced_sums, ruled_labels};
use ruled_search::{RuledRoute, plan_with_bounds};
use ruled_states::{Labels, ReducedSums, Ruler};
use std::alloc::Global;

// Labels whose bounds hold; none where what is found doesn't, and then the bound of nothing holds.
fn bounds_of<R: Ruler + Copy>(
    alloc: Global,
    ground: &Ground<'_, R>,
) -> Result<Option<Labels>, OutOfMemory>
    ensures { IfOk result (λ bounds. AreRuledBounds (setting_of ground.now.net.now)
        (R.ruling ground.now.ruler.now) ground.now.goal.0
        (state_bound (R.ruling ground.now.ruler.now) bounds)) }
{
    let bounds = ruled_labels(alloc, ground)?;
    Ok(bounds)
}

// With fewer stops than this the search by arrival takes less time than one stop by stop.
const MANY_STOPS: u64 = 10;

// Reduced sums to each stop, where there are many.
fn reduced_of<R: Ruler + Copy>(
    alloc: Global,
    ground: &Ground<'_, R>,
) -> Result<Option<ReducedSums>, OutOfMemory>
    requires incoming { AreIncoming ground.now.net.now ground.now.incoming.now }
    ensures { IfOk result (HoldsReduced (setting_of ground.now.net.now)
        (R.ruling ground.now.ruler.now)) }
{
    if ground.ruler.service_count() < MANY_STOPS {
        return Ok(None);
    }
    reduced_sums(alloc, ground)
}

/// The Pareto front of arrival (Unix minutes) and cost (thousandths) over the states of a ruler, each pair with legs that achieve it. The only
/// error is out of memory.
///
/// It takes the time and memory of `ruled_labels` and `reduced_sums`, and then of `plan_with_bounds`.
pub fn plan_ruled<R: Ruler + Copy>(
    alloc: Global,
    net: &TimedNet,
    request: Request,
    ruler: &R,
) -> Result<Vec<RuledRoute>, OutOfMemory>
    requires good { IsGoodRequest net.now request }
    requires in_time { request.depart ≤ request.until }
    requires fit { RuledCostsFit (setting_of net.now) (R.ruling ruler.now) base request }
    requires numbers { IsBase (setting_of net.now) (R.ruling ruler.now) base }
    ensures planned { IfOk result (λ routes. IsPlanned (setting_of net.now) (R.ruling ruler.now)
        base request routes.items) }
{
    let incoming = NodeArcs::incoming(alloc, net)?;
    let ground = Ground {
        net,
        incoming: &incoming,
        ruler,
        origin: request.origin,
        goal: request.goal,
        depart: request.depart,
        until: request.until,
    };
    let bounds = bounds_of(alloc, &ground)?;
    let reduced = reduced_of(alloc, &ground)?;
    plan_with_bounds(alloc, net, &incoming, request, ruler, &bounds, &reduced)
}
