// A turn of the search: a part of what is pending at a state is driven on.
ghost use Rattle.std.specs.Prelude.{◌≡◌, ◌≤◌, ◌<◌, ℕ, Some, None, true, IfOk, IfSome, OnOk, length};
ghost use Rattle.cost_functions.specs.Pieces.{value_at, AreSmallPieces};
ghost use Rattle.label_queue.specs.Keys.{key_at};
ghost use Rattle.propagation.specs.Inside.EntrySets.{AreEntrySets};
ghost use Rattle.propagation.specs.Inside.States.{is_pending};
ghost use Rattle.route_base.specs.Net.{at_number, park_at, IsGoodPark};
ghost use Rattle.state_dominance.specs.Inside.Dominance.{IsSearching, IsResting};
ghost use Rattle.state_dominance.specs.Inside.Product.{code};
ghost use Rattle.state_dominance.specs.Inside.Widening.{IsKnownPart};
ghost use Rattle.ruled_states.specs.Inside.Codes.{base};
ghost use Rattle.ruled_search.specs.Inside.Tasks.{task_of, progress_of, state_bound, work_of, Improves, IsGoodTask, IsKindRelaxed, IsRoadRelaxed, IsShapedFor};
ghost use Rattle.ruled_search.specs.Inside.Ways.{IsWay, road_in};

use crate::offers::narrowed;
use crate::parts::part_of;
use crate::progress::{Progress, Tools};
use crate::relaxing::relax;
use crate::surpassing::unsurpassed;
use crate::task::Task;
use crate::ways::{Way, drive_way, rest_way, service_way};
use cost_functions::CostFn;
use propagation::first_of;
use route_base::{OutOfMemory, Park};
use ruled_states::{Info, Ruler};
use std::alloc::Global;

// A turn of a state that has left the queue. (`parts_are_kept.takes` by `part_of`, `.narrows` and `.surpasses` by `undone`, then the ways, `.narrows` again
// behind the rests, and `.done`, since each road from the state is a rest, a service or a drive by `road_kinds`. Rests come first: the second
// cut drops what the rests dominate.)
pub fn turn<R: Ruler + Copy>(
    alloc: Global,
    task: Task<'_, R>,
    tools: &mut Tools,
    progress: &mut Progress,
    number: u32,
) -> Result<(), OutOfMemory>
    requires asked { IsGoodTask R R.ruling task }
    requires entries { AreEntrySets task.net.now task.request.until tools.old.sets }
    requires low { 1 ≤ number }
    requires high { number ≤ length progress.old.pending.items }
    requires shape { IsShapedFor R R.ruling task number progress.old }
    requires absent { key_at progress.old.queue number ≡ None }
    requires some { (t : ℕ) × (is_pending progress.old.pending.items number t ≡ true) }
    requires facts { IsResting (task_of R R.ruling task) (progress_of progress.old) }
    ensures entries { OnOk result
        (AreEntrySets task.entry.net.now task.entry.request.until tools.new.sets) }
    ensures shape { OnOk result (IsShapedFor R R.ruling task.entry 0 progress.new) }
    ensures facts { OnOk result (IsResting (task_of R R.ruling task.entry)
        (progress_of progress.new)) }
    ensures less { OnOk result (work_of task.entry.request.until (progress_of progress.new)
        < work_of task.entry.request.until (progress_of progress.old)) }
{
    let Some(info) = progress.table.info(number) else {
        return Ok(());
    };
    let Some(first) = first_of(&progress.pending[number as usize - 1]) else {
        return Ok(());
    };
    is_small(info);
    state_dominance::parts_are_kept();
    let part = part_of(alloc, task, tools, progress, number, info, first)?;
    let live = undone(alloc, task, progress, info, part)?;
    let left = rest_all(alloc, task, tools, progress, info, live)?;
    serve_next(alloc, task, tools, progress, info, &left)?;
    drive_each(alloc, task, tools, progress, info, &left)?;
    tools.spares.put(left)?;
    Ok(())
}

// The law that the number of a state is below the base. The call does nothing.
#[inline(always)]
fn is_small(info: Info)
    ensures { info.state < base }
{}

// What of a part is neither dominated nor surpassed: no more is to be done for the rest.
fn undone<R: Ruler + Copy>(
    alloc: Global,
    task: Task<'_, R>,
    progress: &Progress,
    info: Info,
    part: CostFn,
) -> Result<CostFn, OutOfMemory>
    requires asked { IsGoodTask R R.ruling task }
    requires low { 1 ≤ info.node.0 }
    requires high { info.node.0 ≤ task.net.now.nodes }
    requires bound { state_bound (R.ruling task.ruler.now) task.bounds.now info.node.0 info.state
        ≡ Some info.bound }
    requires shape { (n : ℕ) × IsShapedFor R R.ruling task n progress.now }
    requires small { AreSmallPieces part }
    requires facts { IsSearching (task_of R R.ruling task) (progress_of progress.now)
        (code base info.node.0 info.state) (value_at part) }
    ensures small { IfOk result AreSmallPieces }
    ensures kept { IfOk result (λ live. (t x : ℕ) → value_at live t ≡ Some x
        → value_at part t ≡ Some x) }
    ensures facts { IfOk result (λ live. IsSearching (task_of R R.ruling task.entry)
        (progress_of progress.now) (code base info.node.0 info.state) (value_at live)) }
{
    state_dominance::parts_are_kept();
    let clear = narrowed(alloc, task, progress, info.node, info.state, part)?;
    let live = unsurpassed(alloc, task, progress, info, clear)?;
    Ok(live)
}

// Relaxes the rests at a state, and answers what of the part isn't dominated by where they lead.
fn rest_all<R: Ruler + Copy>(
    alloc: Global,
    task: Task<'_, R>,
    tools: &mut Tools,
    progress: &mut Progress,
    info: Info,
    part: CostFn,
) -> Result<CostFn, OutOfMemory>
    requires asked { IsGoodTask R R.ruling task }
    requires low { 1 ≤ info.node.0 }
    requires high { info.node.0 ≤ task.net.now.nodes }
    requires entries { AreEntrySets task.net.now task.request.until tools.old.sets }
    requires shape { IsShapedFor R R.ruling task 0 progress.old }
    requires small { AreSmallPieces part }
    requires facts { IsSearching (task_of R R.ruling task) (progress_of progress.old)
        (code base info.node.0 info.state) (value_at part) }
    requires part { IsKnownPart (task_of R R.ruling task) (progress_of progress.old)
        (code base info.node.0 info.state) (value_at part) }
    ensures entries { OnOk result
        (AreEntrySets task.entry.net.now task.entry.request.until tools.new.sets) }
    ensures shape { OnOk result (IsShapedFor R R.ruling task.entry 0 progress.new) }
    ensures small { IfOk result AreSmallPieces }
    ensures facts { IfOk result (λ left. IsSearching (task_of R R.ruling task.entry)
        (progress_of progress.new) (code base info.node.0 info.state) (value_at left)) }
    ensures part { IfOk result (λ left. IsKnownPart (task_of R R.ruling task.entry)
        (progress_of progress.new) (code base info.node.0 info.state) (value_at left)) }
    ensures better { OnOk result (Improves (progress_of progress.old)
        (progress_of progress.new)) }
    ensures relaxed { IfOk result (λ left. IsKindRelaxed (task_of R R.ruling task.entry)
        (progress_of progress.new) (value_at left) 1 info.node.0 info.state) }
{
    let Some(park) = task.net.park(info.node) else {
        return Ok(part);
    };
    state_dominance::parts_are_kept();
    rest_each(alloc, task, tools, progress, info, park, &part)?;
    let left = narrowed(alloc, task, progress, info.node, info.state, part)?;
    Ok(left)
}

// Relaxes a way from a state, if there is one, for the part.
#[inline(always)]
fn relax_from<R: Ruler + Copy>(
    alloc: Global,
    task: Task<'_, R>,
    tools: &mut Tools,
    progress: &mut Progress,
    info: Info,
    part: &CostFn,
    way: Option<Way>,
) -> Result<(), OutOfMemory>
    requires asked { IsGoodTask R R.ruling task }
    requires way { IfSome way (IsWay R R.ruling task) }
    requires tail { IfSome way (λ w. (w.tail ≡ info.node) × (w.before ≡ info.state)) }
    requires entries { AreEntrySets task.net.now task.request.until tools.old.sets }
    requires shape { IsShapedFor R R.ruling task 0 progress.old }
    requires facts { IsSearching (task_of R R.ruling task) (progress_of progress.old)
        (code base info.node.0 info.state) (value_at part.now) }
    requires part { IsKnownPart (task_of R R.ruling task) (progress_of progress.old)
        (code base info.node.0 info.state) (value_at part.now) }
    ensures entries { OnOk result
        (AreEntrySets task.entry.net.now task.entry.request.until tools.new.sets) }
    ensures shape { OnOk result (IsShapedFor R R.ruling task.entry 0 progress.new) }
    ensures facts { OnOk result (IsSearching (task_of R R.ruling task.entry)
        (progress_of progress.new) (code base info.node.0 info.state) (value_at part.now)) }
    ensures better { OnOk result (Improves (progress_of progress.old)
        (progress_of progress.new)) }
    ensures relaxed { OnOk result (IfSome way (λ w. IsRoadRelaxed (task_of R R.ruling task.entry)
        (progress_of progress.new) (code base info.node.0 info.state) (value_at part.now)
        (road_in w))) }
{
    match way {
        Some(way) => relax(alloc, task, tools, progress, part, way),
        None => Ok(()),
    }
}

// Relaxes each rest at a state whose node is rated, for the part.
fn rest_each<R: Ruler + Copy>(
    alloc: Global,
    task: Task<'_, R>,
    tools: &mut Tools,
    progress: &mut Progress,
    info: Info,
    park: Park,
    part: &CostFn,
) -> Result<(), OutOfMemory>
    requires asked { IsGoodTask R R.ruling task }
    requires low { 1 ≤ info.node.0 }
    requires high { info.node.0 ≤ task.net.now.nodes }
    requires park { park_at task.net.now info.node.0 ≡ Some park }
    requires good { IsGoodPark task.net.now park }
    requires entries { AreEntrySets task.net.now task.request.until tools.old.sets }
    requires shape { IsShapedFor R R.ruling task 0 progress.old }
    requires facts { IsSearching (task_of R R.ruling task) (progress_of progress.old)
        (code base info.node.0 info.state) (value_at part.now) }
    requires part { IsKnownPart (task_of R R.ruling task) (progress_of progress.old)
        (code base info.node.0 info.state) (value_at part.now) }
    ensures entries { OnOk result
        (AreEntrySets task.entry.net.now task.entry.request.until tools.new.sets) }
    ensures shape { OnOk result (IsShapedFor R R.ruling task.entry 0 progress.new) }
    ensures facts { OnOk result (IsSearching (task_of R R.ruling task.entry)
        (progress_of progress.new) (code base info.node.0 info.state) (value_at part.now)) }
    ensures better { OnOk result (Improves (progress_of progress.old)
        (progress_of progress.new)) }
    ensures relaxed { OnOk result (IsKindRelaxed (task_of R R.ruling task.entry)
        (progress_of progress.new) (value_at part.now) 1 info.node.0 info.state) }
{
    let rests = task.ruler.rests();
    for i in 0..rests.len() {
        let way = rest_way(task, i as u64, rests[i], info.node, park, info.state);
        relax_from(alloc, task, tools, progress, info, part, way)?;
    }
    Ok(())
}

// Relaxes the service at a state, if there is one, for the part: only that at the place of its stage is allowed.
fn serve_next<R: Ruler + Copy>(
    alloc: Global,
    task: Task<'_, R>,
    tools: &mut Tools,
    progress: &mut Progress,
    info: Info,
    part: &CostFn,
) -> Result<(), OutOfMemory>
    requires asked { IsGoodTask R R.ruling task }
    requires low { 1 ≤ info.node.0 }
    requires high { info.node.0 ≤ task.net.now.nodes }
    requires entries { AreEntrySets task.net.now task.request.until tools.old.sets }
    requires shape { IsShapedFor R R.ruling task 0 progress.old }
    requires facts { IsSearching (task_of R R.ruling task) (progress_of progress.old)
        (code base info.node.0 info.state) (value_at part.now) }
    requires part { IsKnownPart (task_of R R.ruling task) (progress_of progress.old)
        (code base info.node.0 info.state) (value_at part.now) }
    ensures entries { OnOk result
        (AreEntrySets task.entry.net.now task.entry.request.until tools.new.sets) }
    ensures shape { OnOk result (IsShapedFor R R.ruling task.entry 0 progress.new) }
    ensures facts { OnOk result (IsSearching (task_of R R.ruling task.entry)
        (progress_of progress.new) (code base info.node.0 info.state) (value_at part.now)) }
    ensures better { OnOk result (Improves (progress_of progress.old)
        (progress_of progress.new)) }
    ensures relaxed { OnOk result (IsKindRelaxed (task_of R R.ruling task.entry)
        (progress_of progress.new) (value_at part.now) 2 info.node.0 info.state) }
{
    let place = task.ruler.stage(info.state);
    let way = service_way(task, place, info.node, info.state);
    relax_from(alloc, task, tools, progress, info, part, way)?;
    Ok(())
}

// Relaxes each arc that leaves a state's node, for the part.
fn drive_each<R: Ruler + Copy>(
    alloc: Global,
    task: Task<'_, R>,
    tools: &mut Tools,
    progress: &mut Progress,
    info: Info,
    part: &CostFn,
) -> Result<(), OutOfMemory>
    requires asked { IsGoodTask R R.ruling task }
    requires low { 1 ≤ info.node.0 }
    requires high { info.node.0 ≤ task.net.now.nodes }
    requires entries { AreEntrySets task.net.now task.request.until tools.old.sets }
    requires shape { IsShapedFor R R.ruling task 0 progress.old }
    requires facts { IsSearching (task_of R R.ruling task) (progress_of progress.old)
        (code base info.node.0 info.state) (value_at part.now) }
    requires part { IsKnownPart (task_of R R.ruling task) (progress_of progress.old)
        (code base info.node.0 info.state) (value_at part.now) }
    ensures entries { OnOk result
        (AreEntrySets task.entry.net.now task.entry.request.until tools.new.sets) }
    ensures shape { OnOk result (IsShapedFor R R.ruling task.entry 0 progress.new) }
    ensures facts { OnOk result (IsSearching (task_of R R.ruling task.entry)
        (progress_of progress.new) (code base info.node.0 info.state) (value_at part.now)) }
    ensures better { OnOk result (Improves (progress_of progress.old)
        (progress_of progress.new)) }
    ensures relaxed { OnOk result (IsKindRelaxed (task_of R R.ruling task.entry)
        (progress_of progress.new) (value_at part.now) 0 info.node.0 info.state) }
{
    for a in task.outgoing.of(info.node) {
        let way = drive_way(task, *a, info.node, info.state);
        relax_from(alloc, task, tools, progress, info, part, way)?;
    }
    Ok(())
}
