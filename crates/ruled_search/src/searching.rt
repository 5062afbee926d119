// The search: turns, until nothing is pending.
ghost use Rattle.std.specs.Prelude.{◌≡◌, ℕ, suc, false, IfOk, OnOk};
ghost use Rattle.propagation.specs.Inside.EntrySets.{AreEntrySets};
ghost use Rattle.propagation.specs.Inside.Invariants.{IsBlank};
ghost use Rattle.state_dominance.specs.Inside.Dominance.{IsResting};
ghost use Rattle.ruled_search.specs.Inside.Tasks.{task_of, progress_of, IsGoodTask, IsShapedFor};

use crate::bounds::bound_at;
use crate::offers::{cleared, with_waits};
use crate::progress::{Progress, Tools};
use crate::taking::take;
use crate::task::Task;
use crate::turns::turn;
use cost_functions::CostFn;
use label_queue::LabelQueue;
use propagation::{Spares, no_entry_sets};
use route_base::{OutOfMemory, TimedNet};
use ruled_states::{Info, Ruler, Table};
use std::alloc::Global;

// The queue has room for so many states at first.
const FIRST_ROOM: u32 = 1024;

// The progress in which nothing is pending. (Each turn lowers `work_of`.)
pub fn searched<R: Ruler + Copy>(alloc: Global, task: Task<'_, R>) -> Result<Progress, OutOfMemory>
    requires asked { IsGoodTask R R.ruling task }
    ensures shape { IfOk result (IsShapedFor R R.ruling task.entry 0) }
    ensures facts { IfOk result (λ progress. IsResting (task_of R R.ruling task.entry)
        (progress_of progress)) }
    ensures done { IfOk result (λ progress. (c t : ℕ) → (progress_of progress).pending c t
        ≡ false) }
{
    let mut tools = Tools {
        sets: no_entry_sets(alloc),
        spares: Spares::new(alloc),
    };
    let mut progress = begun(alloc, task, &mut tools)?;
    'turns: while let Some(least) = progress.queue.take_least() {
        turn(alloc, task, &mut tools, &mut progress, least.0.0)?;
    }
    Ok(progress)
}

// The start has its cost, and those of waiting there. (`offers_are_kept.first`: nothing is known yet, so what is wide is an offer.)
fn begun<R: Ruler + Copy>(
    alloc: Global,
    task: Task<'_, R>,
    tools: &mut Tools,
) -> Result<Progress, OutOfMemory>
    requires asked { IsGoodTask R R.ruling task }
    requires entries { AreEntrySets task.net.now task.request.until tools.old.sets }
    ensures shape { IfOk result (IsShapedFor R R.ruling task.entry 0) }
    ensures facts { IfOk result (λ progress. IsResting (task_of R R.ruling task.entry)
        (progress_of progress)) }
    ensures entries { OnOk result
        (AreEntrySets task.entry.net.now task.entry.request.until tools.new.sets) }
{
    let mut progress = blank(alloc, task)?;
    let node = task.request.origin;
    let state = task.ruler.first();
    let Some(bound) = bound_at(task.bounds, task.ruler, node, state) else {
        return Ok(progress);
    };
    let first = CostFn::single(alloc, task.request.depart, 0)?;
    let clear = cleared(task, &progress, node, state, bound, first);
    let offer = with_waits(alloc, task, tools, &progress, node, state, bound, clear)?;
    let info = Info { node, state, bound };
    take(alloc, task, tools, &mut progress, info, &offer)?;
    Ok(progress)
}

// Nothing found yet.
fn blank<R: Ruler + Copy>(alloc: Global, task: Task<'_, R>) -> Result<Progress, OutOfMemory>
    ensures shape { IfOk result (IsShapedFor R R.ruling task.entry 0) }
    ensures blank { IfOk result (λ progress. IsBlank (progress_of progress)) }
{
    let rows = rows_for(task.net);
    Ok(Progress {
        table: Table::new(alloc, rows)?,
        functions: Vec::new(alloc),
        pending: Vec::new(alloc),
        pairs: Vec::new(alloc),
        borders: Vec::new(alloc),
        queue: LabelQueue::new(alloc, FIRST_ROOM)?,
        room: FIRST_ROOM,
    })
}

// A row for each node, from 0 on.
fn rows_for(net: &TimedNet) -> u32
    ensures { result ≡ suc net.now.nodes }
{
    net.node_count() + 1
}
