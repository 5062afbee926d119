// What drives of a part over a way offer to the state behind it.
ghost use Rattle.std.specs.Prelude.{◌≡◌, ◌≤◌, ◌<◌, ℕ, Some, IfOk, OnOk};
ghost use Rattle.cost_functions.specs.Building.{AreBuilt};
ghost use Rattle.cost_functions.specs.Pieces.{value_at, AreSmallPieces};
ghost use Rattle.propagation.specs.Inside.EntrySets.{AreEntrySets};
ghost use Rattle.propagation.specs.Inside.Invariants.{point};
ghost use Rattle.propagation.specs.Inside.Offers.{IsWaited};
ghost use Rattle.propagation.specs.Inside.Pairs.{AreBorders};
ghost use Rattle.route_base.specs.Net.{IsGoodPark, park_at};
ghost use Rattle.state_dominance.specs.Inside.Dominance.{Reaches, IsSearching};
ghost use Rattle.state_dominance.specs.Inside.Product.{code};
ghost use Rattle.state_dominance.specs.Inside.Taking.{IsNarrowed};
ghost use Rattle.state_dominance.specs.Inside.Widening.{IsKnownPart, IsCleared, IsClosed};
ghost use Rattle.ruled_states.specs.Inside.Codes.{base};
ghost use Rattle.ruled_search.specs.Inside.Steps.{IsOfferedBy};
ghost use Rattle.ruled_search.specs.Inside.Tasks.{task_of, progress_of, state_bound, IsGoodTask, IsShapedFor};
ghost use Rattle.ruled_search.specs.Inside.Ways.{IsWay, tail_of};

use crate::bounds::latest_at;
use crate::moves::moved;
use crate::progress::{Progress, Tools};
use crate::task::Task;
use crate::ways::Way;
use cost_functions::CostFn;
use function_merge::{into_pruned, wait_with_spare};
use propagation::ready_set;
use route_base::{Bound, Minute, NodeId, OutOfMemory, Park};
use ruled_states::{Ruler, undominated};
use std::alloc::Global;

// The costs of a state from which the goal is still worth reaching, by its bound and the borders of the pairs.
#[inline(always)]
pub fn cleared<R: Ruler + Copy>(
    task: Task<'_, R>,
    progress: &Progress,
    node: NodeId,
    state: u64,
    bound: Bound,
    costs: CostFn,
) -> CostFn
    requires node { node.0 < base }
    requires bound { state_bound (R.ruling task.ruler.now) task.bounds.now node.0 state
        ≡ Some bound }
    requires borders { AreBorders progress.now.pairs.items progress.now.borders.items }
    requires small { AreSmallPieces costs }
    ensures cleared { IsCleared (task_of R R.ruling task.entry) progress.now.pairs.items
        (code base node.0 state) (value_at costs) (value_at result) }
    ensures small { AreSmallPieces result }
{
    into_pruned(costs, latest_at(task, state), &progress.borders, bound)
}

// The costs with waits at a park, from these costs on until a minute.
#[inline(always)]
fn waited<R: Ruler + Copy>(
    alloc: Global,
    task: Task<'_, R>,
    tools: &mut Tools,
    node: NodeId,
    state: u64,
    park: Park,
    costs: &CostFn,
    last: Minute,
) -> Result<CostFn, OutOfMemory>
    requires asked { IsGoodTask R R.ruling task }
    requires node { node.0 < base }
    requires park { park_at task.net.now node.0 ≡ Some park }
    requires good { IsGoodPark task.net.now park }
    requires entries { AreEntrySets task.net.now task.request.until tools.old.sets }
    requires small { AreSmallPieces costs.now }
    requires last { last ≤ task.request.until }
    requires reached { (t x : ℕ) → value_at costs.now t ≡ Some x
        → Reaches (task_of R R.ruling task) (point (code base node.0 state) t x) }
    ensures waited { IfOk result (λ g. IsWaited (value_at costs.now) (value_at g)
        ((task_of R R.ruling task.entry).setting.wait_shut (code base node.0 state))
        park.weight last) }
    ensures built { IfOk result AreBuilt }
    ensures entries { OnOk result
        (AreEntrySets task.entry.net.now task.entry.request.until tools.new.sets) }
{
    let shut = task.net.shut_runs(node);
    let list = park.shut as usize;
    let place = ready_set(
        alloc,
        task.net,
        task.request.until,
        &mut tools.sets,
        list,
        shut,
        1,
    )?;
    let allowed = &tools.sets.lists[list][place].set;
    let with_waits = wait_with_spare(tools.spares.take(alloc), costs, park.weight, allowed, last)?;
    Ok(with_waits)
}

// Clear costs of a state, and where its node is rated those of waiting there. (`IsClosed`: the left side where it isn't rated, else
// `IsWaitedOn` of `waited` and `cleared`.)
#[inline(always)]
pub fn with_waits<R: Ruler + Copy>(
    alloc: Global,
    task: Task<'_, R>,
    tools: &mut Tools,
    progress: &Progress,
    node: NodeId,
    state: u64,
    bound: Bound,
    clear: CostFn,
) -> Result<CostFn, OutOfMemory>
    requires asked { IsGoodTask R R.ruling task }
    requires low { 1 ≤ node.0 }
    requires high { node.0 ≤ task.net.now.nodes }
    requires bound { state_bound (R.ruling task.ruler.now) task.bounds.now node.0 state
        ≡ Some bound }
    requires borders { AreBorders progress.now.pairs.items progress.now.borders.items }
    requires small { AreSmallPieces clear }
    requires entries { AreEntrySets task.net.now task.request.until tools.old.sets }
    requires reached { (t x : ℕ) → value_at clear t ≡ Some x
        → Reaches (task_of R R.ruling task) (point (code base node.0 state) t x) }
    ensures closed { IfOk result (λ g. IsClosed (task_of R R.ruling task.entry)
        progress.now.pairs.items (code base node.0 state) (value_at clear) (value_at g)) }
    ensures small { IfOk result AreSmallPieces }
    ensures entries { OnOk result
        (AreEntrySets task.entry.net.now task.entry.request.until tools.new.sets) }
{
    let Some(park) = task.net.park(node) else {
        return Ok(clear);
    };
    let last = latest_at(task, state).saturating_sub(bound.minutes);
    let with_waits = waited(alloc, task, tools, node, state, park, &clear, last)?;
    tools.spares.put(clear)?;
    Ok(cleared(task, progress, node, state, bound, with_waits))
}

// Costs of a state, less what a better state of its node dominates. (`cuts_are_narrow` of `ruled_states` over `AreCut`.)
#[inline(always)]
pub fn narrowed<R: Ruler + Copy>(
    alloc: Global,
    task: Task<'_, R>,
    progress: &Progress,
    node: NodeId,
    state: u64,
    costs: CostFn,
) -> Result<CostFn, OutOfMemory>
    requires asked { IsGoodTask R R.ruling task }
    requires shape { (n : ℕ) × IsShapedFor R R.ruling task n progress.now }
    requires node { node.0 < base }
    requires small { AreSmallPieces costs }
    ensures narrowed { IfOk result (λ g. IsNarrowed (task_of R R.ruling task.entry)
        (progress_of progress.now) (code base node.0 state) (value_at costs) (value_at g)) }
    ensures small { IfOk result AreSmallPieces }
{
    ruled_states::cuts_are_narrow();
    let places = progress.table.places(node);
    let left = undominated(alloc, task.ruler, &progress.functions, places, state, costs)?;
    Ok(left)
}

// The offer that drives of the part over the way make to the state behind it. (`drives_are_wide`, and then `wide_offers_narrow`.)
#[inline(always)]
pub fn offered<R: Ruler + Copy>(
    alloc: Global,
    task: Task<'_, R>,
    tools: &mut Tools,
    progress: &Progress,
    part: &CostFn,
    way: Way,
) -> Result<CostFn, OutOfMemory>
    requires asked { IsGoodTask R R.ruling task }
    requires way { IsWay R R.ruling task way }
    requires shape { IsShapedFor R R.ruling task 0 progress.now }
    requires entries { AreEntrySets task.net.now task.request.until tools.old.sets }
    requires facts { IsSearching (task_of R R.ruling task) (progress_of progress.now) (tail_of way)
        (value_at part.now) }
    requires part { IsKnownPart (task_of R R.ruling task) (progress_of progress.now) (tail_of way)
        (value_at part.now) }
    ensures offer { IfOk result (λ g. IsOfferedBy (task_of R R.ruling task.entry)
        (progress_of progress.now) way (value_at part.now) (value_at g)) }
    ensures small { IfOk result AreSmallPieces }
    ensures entries { OnOk result
        (AreEntrySets task.entry.net.now task.entry.request.until tools.new.sets) }
{
    state_dominance::rulers_simulate();
    state_dominance::drives_are_wide();
    state_dominance::wide_offers_narrow();
    let clear = moved(alloc, task, tools, progress, part, way)?;
    let wide = with_waits(
        alloc, task, tools, progress, way.head, way.after, way.bound, clear,
    )?;
    let offer = narrowed(alloc, task, progress, way.head, way.after, wide)?;
    Ok(offer)
}
