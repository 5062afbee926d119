// How a state takes an offer.
ghost use Rattle.std.specs.Prelude.{◌≡◌, ◌≤◌, ◌<◌, ◌+◌, ◌^◌, ℕ, Some, IfOk, OnOk, length};
ghost use Rattle.cost_functions.specs.Pieces.{value_at, AreSmallPieces};
ghost use Rattle.label_queue.specs.Keys.{key_at};
ghost use Rattle.route_base.specs.Front.{RiseAndFall};
ghost use Rattle.state_dominance.specs.Inside.Product.{code};
ghost use Rattle.state_dominance.specs.Inside.Taking.{TakesOffer};
ghost use Rattle.ruled_states.specs.Inside.Codes.{base};
ghost use Rattle.ruled_states.specs.Inside.Tables.{IsStateOf};
ghost use Rattle.ruled_search.specs.Inside.Steps.{IsAlike};
ghost use Rattle.ruled_search.specs.Inside.Tasks.{task_of, progress_of, state_bound, IsGoodTask, IsShapedFor};

use crate::order::key_of;
use crate::progress::{Progress, Tools};
use crate::task::Task;
use cost_functions::CostFn;
use label_queue::LabelQueue;
use minute_sets::MinuteSet;
use propagation::{add_pairs, await_at, first_of, lower_at};
use route_base::{Bound, NodeId, OutOfMemory};
use ruled_states::{Info, Ruler};
use std::alloc::Global;

// Above this number no state is added: memory ends long before.
const MOST_STATES: usize = 1 << 31;

// A queue with room for more numbers, and the same keys.
fn widened(alloc: Global, queue: &LabelQueue, room: u32) -> Result<LabelQueue, OutOfMemory>
    requires room { length queue.now ≤ room }
    ensures room { IfOk result (λ wide. length wide ≡ room) }
    ensures same { IfOk result (λ wide. (n : ℕ) → key_at wide n ≡ key_at queue.now n) }
{
    let mut wide = LabelQueue::new(alloc, room)?;
    for k in 0..room {
        if let Some(key) = queue.key_of(NodeId(k + 1)) {
            wide.put(NodeId(k + 1), key);
        }
    }
    Ok(wide)
}

// Makes room for one more number than so many.
fn make_room(
    alloc: Global,
    queue: &mut LabelQueue,
    room: &mut u32,
    count: u32,
) -> Result<(), OutOfMemory>
    requires room { length queue.old ≡ room.old }
    requires high { count ≤ room.old }
    requires few { count < 2 ^ 31 }
    ensures room { OnOk result (length queue.new ≡ room.new) }
    ensures more { OnOk result (count + 1 ≤ room.new) }
    ensures keys { OnOk result ((n : ℕ) → key_at queue.new n ≡ key_at queue.old n) }
{
    if *room != count {
        return Ok(());
    }
    *queue = widened(alloc, &*queue, count * 2 + 1)?;
    *room = count * 2 + 1;
    Ok(())
}

// Adds a state that wasn't reached. Nothing is found of it yet. (`Table::add`, `Adding` of `ruled_states`: the numbers of other codes stay,
// and the new one has no cost.)
fn add_state<R: Ruler + Copy>(
    alloc: Global,
    task: Task<'_, R>,
    progress: &mut Progress,
    info: Info,
) -> Result<u32, OutOfMemory>
    requires shape { IsShapedFor R R.ruling task 0 progress.old }
    requires new { (n : ℕ) → IsStateOf progress.old.table.infos info.node.0 info.state n → ⊥ }
    requires low { 1 ≤ info.node.0 }
    requires high { info.node.0 ≤ task.net.now.nodes }
    requires bound { state_bound (R.ruling task.ruler.now) task.bounds.now info.node.0 info.state
        ≡ Some info.bound }
    ensures alike { OnOk result (IsAlike (progress_of progress.old) (progress_of progress.new)) }
    ensures state { IfOk result (λ n. IsStateOf progress.new.table.infos info.node.0 info.state n) }
    ensures shape { OnOk result (IsShapedFor R R.ruling task.entry 0 progress.new) }
{
    let count = progress.table.count();
    if count >= MOST_STATES {
        return Err(OutOfMemory);
    }
    make_room(alloc, &mut progress.queue, &mut progress.room, count as u32)?;
    progress.functions.push(CostFn::empty(alloc))?;
    progress.pending.push(MinuteSet::empty(alloc))?;
    let number = progress.table.add(info)?;
    progress.table.are_distinct();
    Ok(number)
}

// The number of a state, which is added if it wasn't reached.
#[inline(always)]
fn number_for<R: Ruler + Copy>(
    alloc: Global,
    task: Task<'_, R>,
    progress: &mut Progress,
    info: Info,
) -> Result<u32, OutOfMemory>
    requires shape { IsShapedFor R R.ruling task 0 progress.old }
    requires low { 1 ≤ info.node.0 }
    requires high { info.node.0 ≤ task.net.now.nodes }
    requires bound { state_bound (R.ruling task.ruler.now) task.bounds.now info.node.0 info.state
        ≡ Some info.bound }
    ensures alike { OnOk result (IsAlike (progress_of progress.old) (progress_of progress.new)) }
    ensures state { IfOk result (λ n. IsStateOf progress.new.table.infos info.node.0 info.state n) }
    ensures shape { OnOk result (IsShapedFor R R.ruling task.entry 0 progress.new) }
{
    match progress.table.number_of(info.node, info.state) {
        Some(known) => Ok(known),
        None => add_state(alloc, task, progress, info),
    }
}

// Whether a trip may end in the state of the node.
#[inline(always)]
fn is_goal<R: Ruler + Copy>(task: Task<'_, R>, node: NodeId, state: u64) -> bool
    requires node { node.0 < base }
    ensures { result ≡ (task_of R R.ruling task.entry).goal (code base node.0 state) }
{
    if node.0 != task.request.goal.0 {
        return false;
    }
    task.ruler.ends(state)
}

// Gives the offer to the state of this number; what is better there is pending, or where a trip may end a pair. (`lowered` by number as in
// `Taking` of `propagation`, then `merges_by_code`.)
#[inline(always)]
fn take_at<R: Ruler + Copy>(
    alloc: Global,
    task: Task<'_, R>,
    tools: &mut Tools,
    progress: &mut Progress,
    number: u32,
    info: Info,
    offer: &CostFn,
) -> Result<(), OutOfMemory>
    requires asked { IsGoodTask R R.ruling task }
    requires shape { IsShapedFor R R.ruling task 0 progress.old }
    requires state { IsStateOf progress.old.table.infos info.node.0 info.state number }
    requires trade { RiseAndFall progress.old.pairs.items }
    requires offer { AreSmallPieces offer.now }
    ensures takes { OnOk result (TakesOffer (task_of R R.ruling task.entry)
        (code base info.node.0 info.state) (value_at offer.now) (progress_of progress.old)
        (progress_of progress.new)) }
    ensures shape { OnOk result (IsShapedFor R R.ruling task.entry 0 progress.new) }
    ensures sets { tools.new.sets ≡ tools.old.sets }
{
    let place = NodeId(number);
    let improved = lower_at(
        alloc,
        &mut progress.functions,
        place,
        offer,
        &mut tools.spares,
    )?;
    if is_goal(task, info.node, info.state) {
        add_pairs(&mut progress.pairs, &mut progress.borders, offer)?;
        tools.spares.put_set(improved)?;
        return Ok(());
    }
    let Some(first) = first_of(&improved) else {
        tools.spares.put_set(improved)?;
        return Ok(());
    };
    let key = key_of(task, offer, info, first);
    await_at(
        alloc,
        &mut tools.spares,
        &mut progress.pending,
        &mut progress.queue,
        place,
        improved,
        key,
    )?;
    Ok(())
}

// Gives the offer to a state, which is made if it wasn't reached. (`TakesOffer` goes on from a progress to one that is alike. An offer of
// nothing changes nothing.)
#[inline(always)]
pub fn take<R: Ruler + Copy>(
    alloc: Global,
    task: Task<'_, R>,
    tools: &mut Tools,
    progress: &mut Progress,
    info: Info,
    offer: &CostFn,
) -> Result<(), OutOfMemory>
    requires asked { IsGoodTask R R.ruling task }
    requires shape { IsShapedFor R R.ruling task 0 progress.old }
    requires low { 1 ≤ info.node.0 }
    requires high { info.node.0 ≤ task.net.now.nodes }
    requires bound { state_bound (R.ruling task.ruler.now) task.bounds.now info.node.0 info.state
        ≡ Some info.bound }
    requires trade { RiseAndFall progress.old.pairs.items }
    requires offer { AreSmallPieces offer.now }
    ensures takes { OnOk result (TakesOffer (task_of R R.ruling task.entry)
        (code base info.node.0 info.state) (value_at offer.now) (progress_of progress.old)
        (progress_of progress.new)) }
    ensures shape { OnOk result (IsShapedFor R R.ruling task.entry 0 progress.new) }
    ensures sets { tools.new.sets ≡ tools.old.sets }
{
    if offer.pieces().is_empty() {
        return Ok(());
    }
    let number = number_for(alloc, task, progress, info)?;
    take_at(alloc, task, tools, progress, number, info, offer)?;
    Ok(())
}
