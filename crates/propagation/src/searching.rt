// The search: turns, until nothing is pending.
ghost use Rattle.std.specs.Prelude.{◌≡◌, ◌≤◌, ℕ, None, false, All, length, IfOk, OnOk};
ghost use Rattle.route_base.specs.Net.{IsGoodRequest, setting_of};
ghost use Rattle.route_base.specs.Legs.{CostsFit};
ghost use Rattle.route_base.specs.Relaxing.{AreBounds};
ghost use Rattle.cost_functions.specs.Building.{AreBuilt};
ghost use Rattle.node_arcs.specs.Stars.{AreIncoming, AreOutgoing};
ghost use Rattle.potentials.specs.Sums.{AreLeastBounds, bound_at};
ghost use Rattle.propagation.specs.Found.{IsFoundFor, cost_at};
ghost use Rattle.propagation.specs.Inside.Invariants.{IsBlank, IsResting};
ghost use Rattle.propagation.specs.Inside.EntrySets.{AreEntrySets};
ghost use Rattle.propagation.specs.Inside.States.{progress_of, task_of, is_pending, IsGoodTask, IsShaped};

use crate::drives::{cleared, with_waits};
use crate::entry_sets::{EntrySets, no_entry_sets};
use crate::found::Found;
use crate::progress::Progress;
use crate::spares::Spares;
use crate::task::Task;
use crate::turn_order::earliest_arrival;
use crate::turns::{take_at, turn};
use cost_functions::CostFn;
use label_queue::LabelQueue;
use minute_sets::MinuteSet;
use node_arcs::NodeArcs;
use potentials::to_goal_over;
use route_base::{Bounds, OutOfMemory, Request, TimedNet};
use std::alloc::Global;

/// The Pareto front of arrival (Unix minutes) and cost (thousandths), with the bounds and functions that show it. The functions have
/// each position of each lawful itinerary of a pair. For each turn and arc it takes time linear in the pieces of the part and of the
/// head's function after the part's first minute, and no step per minute. Memory for 96 bytes a node and the arcs by node, 32 bytes
/// a piece of the functions, 48 a pair, 16 a pending run, and one entry set for each list of closed runs and length of an arc that
/// is met and ever closed; memory that is done with is kept for what comes next. The only error is out of memory.
pub fn search(alloc: Global, net: &TimedNet, request: Request) -> Result<Found, OutOfMemory>
    requires good { IsGoodRequest net.now request }
    requires in_time { request.depart ≤ request.until }
    requires fit { CostsFit (setting_of net.now) request }
    ensures found { IfOk result (IsFoundFor net.now request) }
    ensures least { IfOk result (λ found.
        AreLeastBounds (setting_of net.now) request.goal.0 (bound_at found.bounds)) }
{
    let incoming = NodeArcs::incoming(alloc, net)?;
    search_over(alloc, net, &incoming, request)
}

/// The same for arcs that were put in order already, in the same units and at the same cost but for their order. The only error is
/// out of memory.
pub fn search_over(
    alloc: Global,
    net: &TimedNet,
    incoming: &NodeArcs,
    request: Request,
) -> Result<Found, OutOfMemory>
    requires incoming { AreIncoming net.now incoming.now }
    requires good { IsGoodRequest net.now request }
    requires in_time { request.depart ≤ request.until }
    requires fit { CostsFit (setting_of net.now) request }
    ensures found { IfOk result (IsFoundFor net.now request) }
    ensures least { IfOk result (λ found.
        AreLeastBounds (setting_of net.now) request.goal.0 (bound_at found.bounds)) }
{
    let bounds = to_goal_over(alloc, net, incoming, request.goal)?;
    let outgoing = NodeArcs::outgoing(alloc, net)?;
    search_with(alloc, net, &outgoing, bounds, request)
}

/// The same for arcs that were put in order already and for any bounds that hold along each arc. The larger they are, the less is
/// searched; they are handed on with what is found. The only error is out of memory.
pub fn search_with(
    alloc: Global,
    net: &TimedNet,
    outgoing: &NodeArcs,
    bounds: Bounds,
    request: Request,
) -> Result<Found, OutOfMemory>
    requires outgoing { AreOutgoing net.now outgoing.now }
    requires good { IsGoodRequest net.now request }
    requires in_time { request.depart ≤ request.until }
    requires fit { CostsFit (setting_of net.now) request }
    requires bounds { AreBounds (setting_of net.now) request.goal.0 (bound_at bounds) }
    requires bounded { length bounds ≡ net.now.nodes }
    ensures found { IfOk result (IsFoundFor net.now request) }
    ensures bounds { IfOk result (λ found. found.bounds ≡ bounds) }
{
    let _nodes = net.node_count();
    let task = Task {
        net,
        outgoing,
        bounds: &bounds,
        request,
        earliest: earliest_arrival(&bounds, request),
    };
    let progress = searched(alloc, task)?;
    Ok(progress.into_found(bounds))
}

// The progress in which nothing is pending.
fn searched(alloc: Global, task: Task<'_>) -> Result<Progress, OutOfMemory>
    requires asked { IsGoodTask task }
    ensures nodes { IfOk result (λ progress. length progress.functions.items
        ≡ task.entry.net.now.nodes) }
    ensures built { IfOk result (λ progress. All AreBuilt progress.functions.items) }
    ensures facts { IfOk result (λ progress. IsResting (task_of task.entry)
        (progress_of progress)) }
    ensures done { IfOk result (λ progress. (v t : ℕ) → is_pending progress.pending.items v t
        ≡ false) }
{
    let mut sets = no_entry_sets(alloc);
    let mut spares = Spares::new(alloc);
    let mut progress = begun(alloc, task, &mut sets, &mut spares)?;
    'turns: while let Some(least) = progress.queue.take_least() {
        turn(alloc, task, &mut sets, &mut spares, &mut progress, least.0)?;
    }
    Ok(progress)
}

// The origin has its cost at the departure, and those of waiting there.
fn begun(
    alloc: Global,
    task: Task<'_>,
    sets: &mut EntrySets,
    spares: &mut Spares,
) -> Result<Progress, OutOfMemory>
    requires asked { IsGoodTask task }
    requires entries { AreEntrySets task.net.now task.request.until sets.old }
    ensures shape { IfOk result (IsShaped task.entry.net.now.nodes 0) }
    ensures facts { IfOk result (λ progress. IsResting (task_of task.entry)
        (progress_of progress)) }
    ensures entries { OnOk result
        (AreEntrySets task.entry.net.now task.entry.request.until sets.new) }
{
    let mut progress = blank(alloc, task.net)?;
    let origin = task.request.origin;
    let Some(bound) = task.bounds.get(origin) else {
        return Ok(progress);
    };
    let first = CostFn::single(alloc, task.request.depart, 0)?;
    let clear = cleared(task, &progress, origin, bound, first);
    let park = task.net.park(origin);
    let offer = with_waits(
        alloc, task, sets, spares, &progress, origin, bound, park, clear,
    )?;
    take_at(alloc, task, spares, &mut progress, origin, bound, &offer)?;
    Ok(progress)
}

// Nothing found yet.
fn blank(alloc: Global, net: &TimedNet) -> Result<Progress, OutOfMemory>
    ensures shape { IfOk result (IsShaped net.now.nodes 0) }
    ensures blank { IfOk result (λ progress. IsBlank (progress_of progress)) }
{
    let nodes = net.node_count();
    Ok(Progress {
        functions: no_costs(alloc, nodes)?,
        pending: no_minutes(alloc, nodes)?,
        pairs: Vec::new(alloc),
        borders: Vec::new(alloc),
        queue: LabelQueue::new(alloc, nodes)?,
    })
}

// A function without costs for each node.
fn no_costs(alloc: Global, n: u32) -> Result<Vec<CostFn>, OutOfMemory>
    ensures nodes { IfOk result (λ all. length all.items ≡ n) }
    ensures built { IfOk result (λ all. All AreBuilt all.items) }
    ensures none { IfOk result (λ all. (v t : ℕ) → cost_at all.items v t ≡ None) }
{
    let mut all = Vec::with_capacity(alloc, n as usize)?;
    for _node in 0..n {
        all.push(CostFn::empty(alloc))?;
    }
    Ok(all)
}

// An empty set for each node.
fn no_minutes(alloc: Global, n: u32) -> Result<Vec<MinuteSet>, OutOfMemory>
    ensures nodes { IfOk result (λ all. length all.items ≡ n) }
    ensures none { IfOk result (λ all. (v t : ℕ) → is_pending all.items v t ≡ false) }
{
    let mut all = Vec::with_capacity(alloc, n as usize)?;
    for _node in 0..n {
        all.push(MinuteSet::empty(alloc))?;
    }
    Ok(all)
}
