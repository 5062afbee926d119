// A turn of the search: a part of what is pending at a node is driven on.
ghost use Rattle.std.specs.Prelude.{◌≡◌, ◌≤◌, ◌<◌, ℕ, Some, None, true, All, OnOk};
ghost use Rattle.route_base.specs.Front.{RiseAndFall};
ghost use Rattle.route_base.specs.Itinerary.{Position, Drives};
ghost use Rattle.route_base.specs.Net.{setting_of};
ghost use Rattle.cost_functions.specs.Pieces.{value_at, AreSmallPieces};
ghost use Rattle.label_queue.specs.Keys.{key_at};
ghost use Rattle.propagation.specs.Inside.Invariants.{Improves, IsSearching, IsResting, IsRelaxedIn, TakesOffer, point};
ghost use Rattle.propagation.specs.Inside.Measures.{work};
ghost use Rattle.propagation.specs.Inside.Offers.{IsKnownPart};
ghost use Rattle.propagation.specs.Inside.EntrySets.{AreEntrySets};
ghost use Rattle.propagation.specs.Inside.States.{progress_of, task_of, is_pending, IsGoodTask, IsShaped, IsOutgoingArc, HasEachArc};

use crate::drives::offered;
use crate::entry_sets::EntrySets;
use crate::pairs::add_pairs;
use crate::parts::part_of;
use crate::progress::{Progress, await_at, first_of, lower_at};
use crate::spares::Spares;
use crate::task::Task;
use crate::turn_order::turn_key;
use crate::ways::{OutgoingArc, read_ways};
use cost_functions::CostFn;
use route_base::{Bound, NodeId, OutOfMemory};
use std::alloc::Global;
use std::mem;

// A turn at a node that has left the queue.
#[inline(always)]
pub fn turn(
    alloc: Global,
    task: Task<'_>,
    sets: &mut EntrySets,
    spares: &mut Spares,
    progress: &mut Progress,
    v: NodeId,
) -> Result<(), OutOfMemory>
    requires asked { IsGoodTask task }
    requires entries { AreEntrySets task.net.now task.request.until sets.old }
    requires low { 1 ≤ v.0 }
    requires high { v.0 ≤ task.net.now.nodes }
    requires shape { IsShaped task.net.now.nodes v.0 progress.old }
    requires absent { key_at progress.old.queue v.0 ≡ None }
    requires some { (t : ℕ) × (is_pending progress.old.pending.items v.0 t ≡ true) }
    requires facts { IsResting (task_of task) (progress_of progress.old) }
    ensures entries { OnOk result
        (AreEntrySets task.entry.net.now task.entry.request.until sets.new) }
    ensures shape { OnOk result (IsShaped task.entry.net.now.nodes 0 progress.new) }
    ensures facts { OnOk result (IsResting (task_of task.entry) (progress_of progress.new)) }
    ensures less { OnOk result
        (work task.entry.net.now.nodes task.entry.request.until (progress_of progress.new)
        < work task.entry.net.now.nodes task.entry.request.until (progress_of progress.old)) }
{
    let Some(bound) = task.bounds.get(v) else {
        return Ok(());
    };
    let Some(first) = first_of(&progress.pending[v.0 as usize - 1]) else {
        return Ok(());
    };
    let part = part_of(alloc, task, spares, progress, v, bound, first)?;
    drive_all(alloc, task, sets, spares, progress, v, &part)?;
    spares.put(part)?;
    Ok(())
}

// Relaxes each arc that leaves the node, for the part.
#[inline(always)]
fn drive_all(
    alloc: Global,
    task: Task<'_>,
    sets: &mut EntrySets,
    spares: &mut Spares,
    progress: &mut Progress,
    v: NodeId,
    part: &CostFn,
) -> Result<(), OutOfMemory>
    requires asked { IsGoodTask task }
    requires entries { AreEntrySets task.net.now task.request.until sets.old }
    requires low { 1 ≤ v.0 }
    requires high { v.0 ≤ task.net.now.nodes }
    requires shape { IsShaped task.net.now.nodes 0 progress.old }
    requires facts { IsSearching (task_of task) (progress_of progress.old) v.0 (value_at part.now) }
    requires part { IsKnownPart (task_of task) (progress_of progress.old) v.0 (value_at part.now) }
    ensures entries { OnOk result
        (AreEntrySets task.entry.net.now task.entry.request.until sets.new) }
    ensures shape { OnOk result (IsShaped task.entry.net.now.nodes 0 progress.new) }
    ensures facts { OnOk result (IsResting (task_of task.entry) (progress_of progress.new)) }
    ensures better { OnOk result
        (Improves (task_of task.entry) (progress_of progress.old) (progress_of progress.new)) }
{
    if part.pieces().is_empty() {
        return Ok(());
    }
    let mut ways = mem::replace(&mut spares.ways, Vec::new(alloc));
    read_ways(task, progress, &mut ways, v, part)?;
    drive_each(
        alloc,
        task,
        sets,
        spares,
        progress,
        v,
        part,
        ways.as_slice(),
    )?;
    spares.ways = ways;
    Ok(())
}

// Relaxes these arcs, for the part.
#[inline(always)]
fn drive_each(
    alloc: Global,
    task: Task<'_>,
    sets: &mut EntrySets,
    spares: &mut Spares,
    progress: &mut Progress,
    v: NodeId,
    part: &CostFn,
    ways: &[OutgoingArc],
) -> Result<(), OutOfMemory>
    requires asked { IsGoodTask task }
    requires entries { AreEntrySets task.net.now task.request.until sets.old }
    requires low { 1 ≤ v.0 }
    requires high { v.0 ≤ task.net.now.nodes }
    requires shape { IsShaped task.net.now.nodes 0 progress.old }
    requires facts { IsSearching (task_of task) (progress_of progress.old) v.0 (value_at part.now) }
    requires part { IsKnownPart (task_of task) (progress_of progress.old) v.0 (value_at part.now) }
    requires arcs { All (IsOutgoingArc task v.0) ways.now }
    requires each { HasEachArc task progress.old v.0 part.now ways.now }
    ensures entries { OnOk result
        (AreEntrySets task.entry.net.now task.entry.request.until sets.new) }
    ensures shape { OnOk result (IsShaped task.entry.net.now.nodes 0 progress.new) }
    ensures facts { OnOk result (IsResting (task_of task.entry) (progress_of progress.new)) }
    ensures better { OnOk result
        (Improves (task_of task.entry) (progress_of progress.old) (progress_of progress.new)) }
{
    for way in ways {
        drive_one(alloc, task, sets, spares, progress, v, part, *way)?;
    }
    Ok(())
}

// Relaxes one arc that leaves the node, for the part.
#[inline(always)]
fn drive_one(
    alloc: Global,
    task: Task<'_>,
    sets: &mut EntrySets,
    spares: &mut Spares,
    progress: &mut Progress,
    v: NodeId,
    part: &CostFn,
    way: OutgoingArc,
) -> Result<(), OutOfMemory>
    requires asked { IsGoodTask task }
    requires entries { AreEntrySets task.net.now task.request.until sets.old }
    requires way { IsOutgoingArc task v.0 way }
    requires shape { IsShaped task.net.now.nodes 0 progress.old }
    requires facts { IsSearching (task_of task) (progress_of progress.old) v.0 (value_at part.now) }
    requires part { IsKnownPart (task_of task) (progress_of progress.old) v.0 (value_at part.now) }
    ensures entries { OnOk result
        (AreEntrySets task.entry.net.now task.entry.request.until sets.new) }
    ensures shape { OnOk result (IsShaped task.entry.net.now.nodes 0 progress.new) }
    ensures facts { OnOk result
        (IsSearching (task_of task.entry) (progress_of progress.new) v.0 (value_at part.now)) }
    ensures better { OnOk result
        (Improves (task_of task.entry) (progress_of progress.old) (progress_of progress.new)) }
    ensures relaxed { OnOk result ((t x : ℕ) (q : Position) → value_at part.now t ≡ Some x
        → Drives (setting_of task.entry.net.now) task.entry.request.until way.id.0 (point v.0 t x) q
        → IsRelaxedIn (task_of task.entry) (progress_of progress.new) q) }
{
    let offer = offered(alloc, task, sets, spares, progress, v, part, way)?;
    take_at(
        alloc,
        task,
        spares,
        progress,
        way.arc.head,
        way.bound,
        &offer,
    )?;
    spares.put(offer)?;
    Ok(())
}

// Gives the offer to its node; what is better there is pending, or at the goal a pair.
#[inline(always)]
pub fn take_at(
    alloc: Global,
    task: Task<'_>,
    spares: &mut Spares,
    progress: &mut Progress,
    h: NodeId,
    bound: Bound,
    offer: &CostFn,
) -> Result<(), OutOfMemory>
    requires asked { IsGoodTask task }
    requires low { 1 ≤ h.0 }
    requires high { h.0 ≤ task.net.now.nodes }
    requires shape { IsShaped task.net.now.nodes 0 progress.old }
    requires trade { RiseAndFall progress.old.pairs.items }
    requires offer { AreSmallPieces offer.now }
    ensures takes { OnOk result
        (TakesOffer (task_of task.entry) h.0 (value_at offer.now) (progress_of progress.old)
        (progress_of progress.new)) }
    ensures shape { OnOk result (IsShaped task.entry.net.now.nodes 0 progress.new) }
{
    let improved = lower_at(alloc, &mut progress.functions, h, offer, spares)?;
    if h.0 == task.request.goal.0 {
        add_pairs(&mut progress.pairs, &mut progress.borders, offer)?;
        spares.put_set(improved)?;
        return Ok(());
    }
    let Some(first) = first_of(&improved) else {
        return spares.put_set(improved);
    };
    let key = turn_key(task.earliest, first, bound);
    await_at(
        alloc,
        spares,
        &mut progress.pending,
        &mut progress.queue,
        h,
        improved,
        key,
    )?;
    Ok(())
}
