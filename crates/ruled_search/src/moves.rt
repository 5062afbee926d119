// The costs with which drives of a part over a way end.
ghost use Rattle.std.specs.Prelude.{◌≡◌, ◌↔◌, ◌+◌, ◌≤◌, ℕ, IsTrue, Some, IfOk, OnOk, option_to_list};
ghost use Rattle.cost_functions.specs.Building.{AreBuilt};
ghost use Rattle.cost_functions.specs.Pieces.{value_at};
ghost use Rattle.propagation.specs.Inside.EntrySets.{AreEntrySets};
ghost use Rattle.propagation.specs.Inside.Invariants.{point};
ghost use Rattle.propagation.specs.Inside.Pairs.{AreBorders};
ghost use Rattle.route_base.specs.Runs.{AreRuns, any_has};
ghost use Rattle.state_dominance.specs.Inside.Dominance.{Reaches};
ghost use Rattle.ruled_search.specs.Inside.Tasks.{task_of, IsGoodTask};
ghost use Rattle.ruled_search.specs.declared.ways.Kind.TheVariants.{Serve};
ghost use Rattle.ruled_search.specs.Inside.Ways.{IsWay, AreStarts, AreClearDrives, IsLoneRun, IsPlaceReady, road_in, shut_in, tail_of};

use crate::bounds::latest_at;
use crate::progress::{Progress, Tools};
use crate::task::Task;
use crate::ways::{Kind, Way};
use cost_functions::CostFn;
use function_merge::shift_over_runs;
use propagation::{EntrySets, open_starts, ready_set};
use route_base::{Minute, OutOfMemory, Run};
use ruled_states::Ruler;
use std::alloc::Global;

// The runs in which the way is shut; none for a service, which has a window.
#[inline(always)]
fn shut_runs<'a, R: Ruler + Copy>(task: Task<'a, R>, way: Way) -> &'a [Run]
    requires way { IsWay R R.ruling task way }
    ensures { result.now ≡ shut_in task.entry.net.now way.kind way.list }
{
    match way.kind {
        Kind::Drive(a) => task.net.closed_runs(a),
        Kind::Rest(_) => task.net.shut_runs(way.tail),
        Kind::Serve(_) => &[],
    }
}

// The place of the set of minutes at which drives over the way can begin; none where `lone_run` has them.
#[inline(always)]
fn place_for<R: Ruler + Copy>(
    alloc: Global,
    task: Task<'_, R>,
    sets: &mut EntrySets,
    way: Way,
) -> Result<Option<usize>, OutOfMemory>
    requires way { IsWay R R.ruling task way }
    requires entries { AreEntrySets task.net.now task.request.until sets.old }
    ensures ready { IfOk result (IsPlaceReady task.entry.net.now task.entry.request.until way
        sets.new) }
    ensures entries { OnOk result
        (AreEntrySets task.entry.net.now task.entry.request.until sets.new) }
{
    let closed = shut_runs(task, way);
    if closed.is_empty() {
        return Ok(None);
    }
    let place = ready_set(
        alloc,
        task.net,
        task.request.until,
        sets,
        way.list as usize,
        closed,
        way.minutes,
    )?;
    Ok(Some(place))
}

// The minutes at which the way can begin, if no list of runs shuts it: those of a service are within its window.
#[inline(always)]
fn lone_run<R: Ruler + Copy>(task: Task<'_, R>, way: Way) -> Option<Run>
    requires way { IsWay R R.ruling task way }
    ensures run { IsLoneRun (task_of R R.ruling task.entry) way (option_to_list result) }
    ensures runs { AreRuns (option_to_list result) }
{
    match way.kind {
        Kind::Drive(_) => open_starts(task.request.until, way.minutes),
        Kind::Rest(_) => open_starts(task.request.until, way.minutes),
        Kind::Serve(place) => served_run(task, way, place),
    }
}

// The minutes at which the service at a place can begin.
#[inline(always)]
fn served_run<R: Ruler + Copy>(task: Task<'_, R>, way: Way, place: u64) -> Option<Run>
    requires way { IsWay R R.ruling task way }
    requires place { way.kind ≡ Serve place }
    ensures run { AreStarts (task_of R R.ruling task.entry) (road_in way) way.minutes
        (option_to_list result) }
    ensures runs { AreRuns (option_to_list result) }
{
    let Some(service) = task.ruler.service(place) else {
        return None;
    };
    let to = service.to.min(task.request.until);
    window_starts(service.from, to, way.minutes)
}

// The minutes at which a service can begin that is within a window.
#[inline(always)]
fn window_starts(from: Minute, to: Minute, minutes: u64) -> Option<Run>
    requires some { 1 ≤ minutes }
    ensures each { (t : ℕ) → IsTrue (any_has (option_to_list result) t)
        ↔ ((from ≤ t) × (t + minutes ≤ to)) }
    ensures runs { AreRuns (option_to_list result) }
{
    if to < minutes || to - minutes < from {
        return None;
    }
    Some(Run {
        lo: from,
        hi: to - minutes + 1,
    })
}

// The minutes at which drives over the way can begin: those of the set at its place, or of the lone run where there is no set.
#[inline(always)]
fn starts_at<'a, R: Ruler + Copy>(
    task: Task<'_, R>,
    sets: &'a EntrySets,
    way: Way,
    place: Option<usize>,
    lone: &'a Option<Run>,
) -> &'a [Run]
    requires way { IsWay R R.ruling task way }
    requires ready { IsPlaceReady task.net.now task.request.until way sets.now place }
    requires lone { IsLoneRun (task_of R R.ruling task) way (option_to_list lone.now) }
    requires lone_runs { AreRuns (option_to_list lone.now) }
    ensures starts { AreStarts (task_of R R.ruling task.entry) (road_in way) way.minutes
        result.now }
    ensures runs { AreRuns result.now }
{
    match place {
        Some(place) => sets.lists[way.list as usize][place].set.runs(),
        None => lone.as_slice(),
    }
}

// The costs with which drives of the part over the way end, where the goal is still worth reaching from there. (`IsDriven` by `AreStarts`,
// `IsCleared` by the borders, as `driven` of `propagation`; the values fit, since each end is reached and the product's costs fit.)
#[inline(always)]
pub fn moved<R: Ruler + Copy>(
    alloc: Global,
    task: Task<'_, R>,
    tools: &mut Tools,
    progress: &Progress,
    part: &CostFn,
    way: Way,
) -> Result<CostFn, OutOfMemory>
    requires asked { IsGoodTask R R.ruling task }
    requires way { IsWay R R.ruling task way }
    requires borders { AreBorders progress.now.pairs.items progress.now.borders.items }
    requires entries { AreEntrySets task.net.now task.request.until tools.old.sets }
    requires reached { (t x : ℕ) → value_at part.now t ≡ Some x
        → Reaches (task_of R R.ruling task) (point (tail_of way) t x) }
    ensures moved { IfOk result (λ g. AreClearDrives (task_of R R.ruling task.entry)
        progress.now.pairs.items way (value_at part.now) (value_at g)) }
    ensures built { IfOk result AreBuilt }
    ensures entries { OnOk result
        (AreEntrySets task.entry.net.now task.entry.request.until tools.new.sets) }
{
    let lone = lone_run(task, way);
    let place = place_for(alloc, task, &mut tools.sets, way)?;
    let starts = starts_at(task, &tools.sets, way, place, &lone);
    let clear = shift_over_runs(
        tools.spares.take(alloc),
        part.pieces(),
        starts,
        way.minutes,
        way.cost,
        latest_at(task, way.after),
        &progress.borders,
        way.bound,
    )?;
    Ok(clear)
}
