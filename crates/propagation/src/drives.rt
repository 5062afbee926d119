// The offer that drives over an arc make to its head.
ghost use Rattle.std.specs.Prelude.{◌≡◌, ◌≤◌, ℕ, Option, Some, [], IfOk, IfSome, OnOk, option_to_list};
ghost use Rattle.route_base.specs.Net.{at_number, park_at, runs_at, setting_of, IsGoodArc, IsGoodPark};
ghost use Rattle.route_base.specs.Runs.{AreRuns};
ghost use Rattle.cost_functions.specs.Pieces.{value_at, AreSmallPieces};
ghost use Rattle.cost_functions.specs.Building.{AreBuilt};
ghost use Rattle.potentials.specs.Sums.{bound_at};
ghost use Rattle.propagation.specs.Inside.Invariants.{IsOffer, Reaches, point};
ghost use Rattle.propagation.specs.Inside.Offers.{IsKnownPart, AreClearDrives, IsClearSource, IsCleared, IsWaited, Covers, CoversDrives};
ghost use Rattle.propagation.specs.Inside.EntrySets.{AreEntries, AreEntrySets, IsReady};
ghost use Rattle.propagation.specs.Inside.Pairs.{AreBorders};
ghost use Rattle.propagation.specs.Inside.States.{progress_of, task_of, IsGoodTask, IsOutgoingArc};

use crate::entry_sets::{EntrySets, open_starts, ready_set};
use crate::progress::Progress;
use crate::spares::Spares;
use crate::task::Task;
use crate::ways::OutgoingArc;
use cost_functions::CostFn;
use function_merge::{into_pruned, shift_over_runs, wait_with_spare};
use route_base::{Bound, Minute, NodeId, OutOfMemory, Park, Run};
use std::alloc::Global;

// The place of the set of minutes at which drives over the arc can begin; none where the arc is never closed, which needs no set.
#[inline(always)]
fn place_for(
    alloc: Global,
    task: Task<'_>,
    sets: &mut EntrySets,
    way: OutgoingArc,
) -> Result<Option<usize>, OutOfMemory>
    requires is { at_number task.net.now.arcs way.id.0 ≡ Some way.arc }
    requires good { IsGoodArc task.net.now way.arc }
    requires entries { AreEntrySets task.net.now task.request.until sets.old }
    ensures ready { IfOk result (IsReady (runs_at task.entry.net.now way.id.0)
        task.entry.request.until way.arc.minutes sets.new way.arc.closed) }
    ensures entries { OnOk result
        (AreEntrySets task.entry.net.now task.entry.request.until sets.new) }
{
    let closed = task.net.closed_runs(way.id);
    if closed.is_empty() {
        return Ok(None);
    }
    let list = way.arc.closed as usize;
    let place = ready_set(
        alloc,
        task.net,
        task.request.until,
        sets,
        list,
        closed,
        way.arc.minutes,
    )?;
    Ok(Some(place))
}

// The minutes at which drives over the arc can begin: those of the set at its place, or of `open_run` where there is no set.
#[inline(always)]
fn starts_at<'a>(
    task: Task<'_>,
    sets: &'a EntrySets,
    way: OutgoingArc,
    place: Option<usize>,
    open_run: &'a Option<Run>,
) -> &'a [Run]
    requires ready { IsReady (runs_at task.net.now way.id.0) task.request.until way.arc.minutes
        sets.now way.arc.closed place }
    requires open { AreEntries [] task.request.until way.arc.minutes (option_to_list open_run.now) }
    requires runs { AreRuns (option_to_list open_run.now) }
    ensures entries { AreEntries (runs_at task.entry.net.now way.id.0) task.entry.request.until
        way.arc.minutes result.now }
    ensures runs { AreRuns result.now }
{
    match place {
        Some(place) => sets.lists[way.arc.closed as usize][place].set.runs(),
        None => open_run.as_slice(),
    }
}

// The costs with which drives of the part over the arc end, where the goal is still worth reaching from there.
#[inline(always)]
fn driven(
    alloc: Global,
    task: Task<'_>,
    sets: &mut EntrySets,
    spares: &mut Spares,
    progress: &Progress,
    v: NodeId,
    part: &CostFn,
    way: OutgoingArc,
) -> Result<CostFn, OutOfMemory>
    requires asked { IsGoodTask task }
    requires way { IsOutgoingArc task v.0 way }
    requires borders { AreBorders progress.now.pairs.items progress.now.borders.items }
    requires entries { AreEntrySets task.net.now task.request.until sets.old }
    requires reached { (t x : ℕ) → value_at part.now t ≡ Some x
        → Reaches (task_of task) (point v.0 t x) }
    ensures driven { IfOk result
        (λ g. AreClearDrives (task_of task.entry) progress.now.pairs.items way.id.0 v.0
        (value_at part.now) way.arc.head.0 (value_at g)) }
    ensures built { IfOk result AreBuilt }
    ensures entries { OnOk result
        (AreEntrySets task.entry.net.now task.entry.request.until sets.new) }
{
    let open_run = open_starts(task.request.until, way.arc.minutes);
    let place = place_for(alloc, task, sets, way)?;
    let starts = starts_at(task, sets, way, place, &open_run);
    let clear = shift_over_runs(
        spares.take(alloc),
        part.pieces(),
        starts,
        way.arc.minutes,
        way.arc.cost,
        task.request.until,
        &progress.borders,
        way.bound,
    )?;
    Ok(clear)
}

// The costs at a node from which the goal is still worth reaching.
#[inline(always)]
pub fn cleared(
    task: Task<'_>,
    progress: &Progress,
    h: NodeId,
    bound: Bound,
    costs: CostFn,
) -> CostFn
    requires is { bound_at task.bounds.now h.0 ≡ Some bound }
    requires borders { AreBorders progress.now.pairs.items progress.now.borders.items }
    requires small { AreSmallPieces costs }
    ensures cleared { IsCleared (task_of task.entry) progress.now.pairs.items h.0 (value_at costs)
        (value_at result) }
    ensures small { AreSmallPieces result }
{
    into_pruned(costs, task.request.until, &progress.borders, bound)
}

// The costs with waits at a park, from these costs on until a minute.
#[inline(always)]
fn waited(
    alloc: Global,
    task: Task<'_>,
    sets: &mut EntrySets,
    spares: &mut Spares,
    h: NodeId,
    park: Park,
    costs: &CostFn,
    last: Minute,
) -> Result<CostFn, OutOfMemory>
    requires asked { IsGoodTask task }
    requires is { park_at task.net.now h.0 ≡ Some park }
    requires good { IsGoodPark task.net.now park }
    requires entries { AreEntrySets task.net.now task.request.until sets.old }
    requires small { AreSmallPieces costs.now }
    requires last { last ≤ task.request.until }
    requires reached { (t x : ℕ) → value_at costs.now t ≡ Some x
        → Reaches (task_of task) (point h.0 t x) }
    ensures waited { IfOk result (λ g. IsWaited (value_at costs.now) (value_at g)
        ((setting_of task.entry.net.now).wait_shut h.0) park.weight last) }
    ensures built { IfOk result AreBuilt }
    ensures entries { OnOk result
        (AreEntrySets task.entry.net.now task.entry.request.until sets.new) }
{
    let shut = task.net.shut_runs(h);
    let list = park.shut as usize;
    let place = ready_set(alloc, task.net, task.request.until, sets, list, shut, 1)?;
    let allowed = &sets.lists[list][place].set;
    let with_waits = wait_with_spare(spares.take(alloc), costs, park.weight, allowed, last)?;
    Ok(with_waits)
}

// Clear costs, and where the node is rated those of waiting there.
#[inline(always)]
pub fn with_waits(
    alloc: Global,
    task: Task<'_>,
    sets: &mut EntrySets,
    spares: &mut Spares,
    progress: &Progress,
    h: NodeId,
    bound: Bound,
    park: Option<Park>,
    clear: CostFn,
) -> Result<CostFn, OutOfMemory>
    requires asked { IsGoodTask task }
    requires bound { bound_at task.bounds.now h.0 ≡ Some bound }
    requires park { park_at task.net.now h.0 ≡ park }
    requires good { IfSome park (IsGoodPark task.net.now) }
    requires borders { AreBorders progress.now.pairs.items progress.now.borders.items }
    requires small { AreSmallPieces clear }
    requires entries { AreEntrySets task.net.now task.request.until sets.old }
    requires clear { IsClearSource (task_of task) (progress_of progress.now) h.0 (value_at clear) }
    ensures offer { IfOk result
        (λ g. IsOffer (task_of task.entry) (progress_of progress.now) h.0 (value_at g)) }
    ensures covers { IfOk result (λ g. (costs : ℕ → Option ℕ)
        → IsCleared (task_of task.entry) progress.now.pairs.items h.0 costs (value_at clear)
        → Covers (task_of task.entry) progress.now.pairs.items h.0 costs (value_at g)) }
    ensures small { IfOk result AreSmallPieces }
    ensures entries { OnOk result
        (AreEntrySets task.entry.net.now task.entry.request.until sets.new) }
{
    let Some(park) = park else {
        return Ok(clear);
    };
    let last = task.request.until.saturating_sub(bound.minutes);
    let with_waits = waited(alloc, task, sets, spares, h, park, &clear, last)?;
    spares.put(clear)?;
    let offer = cleared(task, progress, h, bound, with_waits);
    Ok(offer)
}

// The offer that drives of the part over the arc make to its head.
#[inline(always)]
pub fn offered(
    alloc: Global,
    task: Task<'_>,
    sets: &mut EntrySets,
    spares: &mut Spares,
    progress: &Progress,
    v: NodeId,
    part: &CostFn,
    way: OutgoingArc,
) -> Result<CostFn, OutOfMemory>
    requires asked { IsGoodTask task }
    requires borders { AreBorders progress.now.pairs.items progress.now.borders.items }
    requires way { IsOutgoingArc task v.0 way }
    requires entries { AreEntrySets task.net.now task.request.until sets.old }
    requires part { IsKnownPart (task_of task) (progress_of progress.now) v.0 (value_at part.now) }
    ensures offer { IfOk result
        (λ g. IsOffer (task_of task.entry) (progress_of progress.now) way.arc.head.0 (value_at g)) }
    ensures covers { IfOk result
        (λ g. CoversDrives (task_of task.entry) progress.now.pairs.items way.id.0 v.0
        (value_at part.now) way.arc.head.0 (value_at g)) }
    ensures small { IfOk result AreSmallPieces }
    ensures entries { OnOk result
        (AreEntrySets task.entry.net.now task.entry.request.until sets.new) }
{
    let clear = driven(alloc, task, sets, spares, progress, v, part, way)?;
    let offer = with_waits(
        alloc,
        task,
        sets,
        spares,
        progress,
        way.arc.head,
        way.bound,
        way.park,
        clear,
    )?;
    Ok(offer)
}
