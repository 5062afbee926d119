// The part of a node's pending minutes whose arcs a turn relaxes.
ghost use Rattle.std.specs.Prelude.{◌≡◌, ◌≤◌, ◌<◌, Option, Some, None, true, length, IfOk, OnOk};
ghost use Rattle.route_base.specs.Runs.{any_has};
ghost use Rattle.route_base.specs.declared.limits.TheConstants.{LAST_INSTANT};
ghost use Rattle.cost_functions.specs.Pieces.{value_at, ArePieces, AreSmallPieces};
ghost use Rattle.label_queue.specs.Keys.{key_at};
ghost use Rattle.potentials.specs.Sums.{bound_at};
ghost use Rattle.propagation.specs.Inside.Invariants.{TakesPart};
ghost use Rattle.propagation.specs.Inside.States.{progress_of, task_of, is_pending, IsShaped, IsSplit, IsRequeued};

use crate::progress::{Progress, first_of};
use crate::spares::Spares;
use crate::task::Task;
use crate::turn_order::turn_key;
use cost_functions::{CostFn, Piece};
use function_merge::{beginning_by, shift_and_prune};
use label_queue::LabelQueue;
use minute_sets::MinuteSet;
use route_base::{Bound, Minute, NodeId, OutOfMemory, Run};
use std::alloc::Global;
use std::mem;

// A turn takes the pieces that begin within an hour of the first pending minute, since later costs may still fall.
const SPAN: u64 = 60;

/// The part that is taken, and the first minute that is left.
#[derive(Drop)]
pub struct Split {
    pub taken: MinuteSet,
    pub next: Option<Minute>,
}

// Takes a part of what is pending at a node that has left the queue, which is back in it if minutes are left.
pub fn part_of(
    alloc: Global,
    task: Task<'_>,
    spares: &mut Spares,
    progress: &mut Progress,
    v: NodeId,
    bound: Bound,
    first: Minute,
) -> Result<CostFn, OutOfMemory>
    requires bound { bound_at task.bounds.now v.0 ≡ Some bound }
    requires low { 1 ≤ v.0 }
    requires high { v.0 ≤ task.net.now.nodes }
    requires shape { IsShaped task.net.now.nodes v.0 progress.old }
    requires absent { key_at progress.old.queue v.0 ≡ None }
    requires first { is_pending progress.old.pending.items v.0 first ≡ true }
    requires early { first ≤ LAST_INSTANT }
    ensures parts { IfOk result
        (λ part. TakesPart (task_of task.entry) v.0 (value_at part) (progress_of progress.old)
        (progress_of progress.new)) }
    ensures small { IfOk result AreSmallPieces }
    ensures shape { OnOk result (IsShaped task.entry.net.now.nodes 0 progress.new) }
{
    let place = v.0 as usize - 1;
    let end = end_of_turn(
        progress.functions[place].pieces(),
        progress.pending[place].runs(),
        first,
    );
    let split = split_at(alloc, spares, &mut progress.pending, v, first, end)?;
    let part = shift_and_prune(
        spares.take(alloc),
        &progress.functions[place],
        &split.taken,
        0,
        0,
        task.request.until,
        &progress.borders,
        bound,
    )?;
    let Split { taken, next } = split;
    spares.put_set(taken)?;
    requeue(task.earliest, &mut progress.queue, v, next, bound);
    Ok(part)
}

/// The end of the last piece of what is pending that begins within the span of a turn, so that no piece is split.
pub fn end_of_turn(pieces: &[Piece], pending: &[Run], first: Minute) -> Minute
    requires pieces { ArePieces pieces.now }
    requires first { first ≤ LAST_INSTANT }
    ensures { first < result }
{
    let limit = first + SPAN;
    let Some(run) = last_run_by(pending, limit) else {
        return first + 1;
    };
    let Some(piece) = last_piece_by(pieces, limit.min(run.hi.saturating_sub(1))) else {
        return first + 1;
    };
    run.hi.min(piece.hi.saturating_add(1)).max(first + 1)
}

// The last run that begins by a minute. The runs up to it are taken by the turn, so they are passed one by one.
fn last_run_by(runs: &[Run], minute: Minute) -> Option<Run> {
    runs.iter()
        .take_while(|run| run.lo <= minute)
        .last()
        .copied()
}

// The last piece that begins by a minute.
fn last_piece_by(pieces: &[Piece], minute: Minute) -> Option<Piece>
    requires { ArePieces pieces.now }
{
    let count = beginning_by(pieces, minute);
    pieces[..count].last().copied()
}

/// Takes the minutes before an end from what is pending at a node. Where these are all, the set itself is handed over; else they are
/// copied to a set that is done with.
pub fn split_at(
    alloc: Global,
    spares: &mut Spares,
    pending: &mut Vec<MinuteSet>,
    v: NodeId,
    first: Minute,
    end: Minute,
) -> Result<Split, OutOfMemory>
    requires low { 1 ≤ v.0 }
    requires high { v.0 ≤ length pending.old.items }
    requires first { is_pending pending.old.items v.0 first ≡ true }
    requires end { first < end }
    ensures split { IfOk result
        (λ s. IsSplit v.0 (any_has s.taken) s.next (is_pending pending.old.items)
        (is_pending pending.new.items)) }
    ensures nodes { OnOk result (length pending.new.items ≡ length pending.old.items) }
{
    let own = &mut pending[v.0 as usize - 1];
    if ends_by(own, end) {
        let taken = mem::replace(own, MinuteSet::empty(alloc));
        return Ok(Split { taken, next: None });
    }
    let taken = own.split_before(end, spares.take_set(alloc))?;
    let next = first_of(own);
    Ok(Split { taken, next })
}

// Whether a set has no minute at an end or later.
fn ends_by(set: &MinuteSet, end: Minute) -> bool {
    match set.runs().last() {
        Some(run) => run.hi <= end,
        None => true,
    }
}

/// Puts the node back, if minutes are left.
pub fn requeue(
    earliest: Minute,
    queue: &mut LabelQueue,
    v: NodeId,
    next: Option<Minute>,
    bound: Bound,
)
    requires low { 1 ≤ v.0 }
    requires high { v.0 ≤ length queue.old }
    requires absent { key_at queue.old v.0 ≡ None }
    ensures { IsRequeued v.0 next queue.old queue.new }
{
    let Some(first) = next else {
        return;
    };
    queue.put(v, turn_key(earliest, first, bound));
}
