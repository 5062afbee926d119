// The part of a state's pending minutes that a turn drives on.
ghost use Rattle.std.specs.Prelude.{◌≡◌, ◌≤◌, Some, None, true, IfOk, OnOk, length};
ghost use Rattle.cost_functions.specs.Pieces.{value_at, AreSmallPieces};
ghost use Rattle.label_queue.specs.Keys.{key_at};
ghost use Rattle.propagation.specs.Inside.States.{is_pending};
ghost use Rattle.route_base.specs.Net.{at_number};
ghost use Rattle.route_base.specs.declared.limits.TheConstants.{LAST_INSTANT};
ghost use Rattle.state_dominance.specs.Inside.Taking.{TakesPart};
ghost use Rattle.ruled_states.specs.Inside.Tables.{code_of};
ghost use Rattle.ruled_search.specs.Inside.Tasks.{task_of, progress_of, HasLeft, IsGoodTask, IsShapedFor};

use crate::bounds::latest_at;
use crate::order::end_of;
use crate::progress::{Progress, Tools};
use crate::task::Task;
use cost_functions::CostFn;
use function_merge::shift_and_prune;
use propagation::{Split, requeue, split_at};
use route_base::{Minute, NodeId, OutOfMemory};
use ruled_states::{Info, Ruler};
use std::alloc::Global;

// Takes a part of what is pending at a state that has left the queue, which is back in it if minutes are left. (`part_of` of `propagation`
// by number, `IsSplit`, then by code; what is dropped is prunable by the state's bound and the borders.)
pub fn part_of<R: Ruler + Copy>(
    alloc: Global,
    task: Task<'_, R>,
    tools: &mut Tools,
    progress: &mut Progress,
    number: u32,
    info: Info,
    first: Minute,
) -> Result<CostFn, OutOfMemory>
    requires asked { IsGoodTask R R.ruling task }
    requires low { 1 ≤ number }
    requires high { number ≤ length progress.old.pending.items }
    requires shape { IsShapedFor R R.ruling task number progress.old }
    requires info { at_number progress.old.table.infos number ≡ Some info }
    requires absent { key_at progress.old.queue number ≡ None }
    requires first { is_pending progress.old.pending.items number first ≡ true }
    requires early { first ≤ LAST_INSTANT }
    ensures parts { IfOk result (λ part. TakesPart (task_of R R.ruling task.entry) (code_of info)
        (value_at part) (progress_of progress.old) (progress_of progress.new)) }
    ensures left { OnOk result (HasLeft (code_of info) (progress_of progress.old)
        (progress_of progress.new)) }
    ensures small { IfOk result AreSmallPieces }
    ensures shape { OnOk result (IsShapedFor R R.ruling task.entry 0 progress.new) }
    ensures sets { tools.new.sets ≡ tools.old.sets }
{
    let place = number as usize - 1;
    let end = end_of(
        task,
        progress.functions[place].pieces(),
        progress.pending[place].runs(),
        first,
    );
    let node = NodeId(number);
    let split = split_at(
        alloc,
        &mut tools.spares,
        &mut progress.pending,
        node,
        first,
        end,
    )?;
    let part = shift_and_prune(
        tools.spares.take(alloc),
        &progress.functions[place],
        &split.taken,
        0,
        0,
        latest_at(task, info.state),
        &progress.borders,
        info.bound,
    )?;
    let Split { taken, next } = split;
    tools.spares.put_set(taken)?;
    requeue(task.earliest, &mut progress.queue, node, next, info.bound);
    Ok(part)
}
