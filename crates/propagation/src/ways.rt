// The arcs that a turn relaxes, with what is read at their heads.
ghost use Rattle.std.specs.Prelude.{◌≡◌, ◌≤◌, All, OnOk, length};
ghost use Rattle.node_arcs.specs.Stars.{EndsAt};
ghost use Rattle.node_arcs.specs.declared.links.End.TheVariants.{Tail};
ghost use Rattle.propagation.specs.Inside.States.{IsGoodTask, IsShaped, IsOutgoingArc, HasEachArc, IsArcAdded};

use crate::progress::Progress;
use crate::task::Task;
use cost_functions::CostFn;
use function_merge::is_shown_no_better;
use route_base::{ArcId, Bound, NodeId, OutOfMemory, Park, TimedArc};

/// An arc that leaves a node, with its number, and the bound and the park of its head. `ahead` has no meaning: it is made of what a drive
/// will read at the head, so that these reads, which mostly miss the cache, have been done for all arcs at once.
#[derive(Clone, Copy)]
pub struct OutgoingArc {
    pub id: ArcId,
    pub arc: TimedArc,
    pub bound: Bound,
    pub park: Option<Park>,
    pub ahead: u64,
}

// Puts the arcs that leave a node into a list, in the place of what it has. Left out are those whose heads have no bounds, since no way
// leads on from there, and those, mostly back to the node before, at whose heads the costs are plainly no higher than drives of the part.
#[inline(always)]
pub fn read_ways(
    task: Task<'_>,
    progress: &Progress,
    ways: &mut Vec<OutgoingArc>,
    v: NodeId,
    part: &CostFn,
) -> Result<(), OutOfMemory>
    requires asked { IsGoodTask task }
    requires shape { IsShaped task.net.now.nodes 0 progress.now }
    ensures arcs { OnOk result (All (IsOutgoingArc task.entry v.0) ways.new.items) }
    ensures each { OnOk result
        (HasEachArc task.entry progress.now v.0 part.now ways.new.items) }
{
    ways.clear();
    for a in task.outgoing.of(v) {
        add_way(task, progress, ways, v, part, *a)?;
    }
    Ok(())
}

// Adds an arc that leaves the node, unless it can be left out.
#[inline(always)]
fn add_way(
    task: Task<'_>,
    progress: &Progress,
    ways: &mut Vec<OutgoingArc>,
    v: NodeId,
    part: &CostFn,
    a: ArcId,
) -> Result<(), OutOfMemory>
    requires asked { IsGoodTask task }
    requires begins { EndsAt task.net.now Tail v.0 a.0 }
    requires shape { IsShaped task.net.now.nodes 0 progress.now }
    requires arcs { All (IsOutgoingArc task v.0) ways.old.items }
    ensures arcs { OnOk result (All (IsOutgoingArc task.entry v.0) ways.new.items) }
    ensures added { OnOk result
        (IsArcAdded task.entry progress.now v.0 part.now a.0 ways.old.items ways.new.items) }
{
    let Some(arc) = task.net.arc(a) else {
        return Ok(());
    };
    let Some(bound) = task.bounds.get(arc.head) else {
        return Ok(());
    };
    let own = &progress.functions[arc.head.0 as usize - 1];
    if is_shown_no_better(own, part.pieces(), arc.minutes, arc.cost) {
        return Ok(());
    }
    let way = OutgoingArc {
        id: a,
        arc,
        bound,
        park: task.net.park(arc.head),
        ahead: read_ahead(progress, arc.head),
    };
    ways.push(way)?;
    Ok(())
}

// Reads the end of what is pending at a node, and its key.
#[inline(always)]
fn read_ahead(progress: &Progress, h: NodeId) -> u64
    requires low { 1 ≤ h.0 }
    requires pending { h.0 ≤ length progress.now.pending.items }
{
    let place = h.0 as usize - 1;
    let pending = match progress.pending[place].runs() {
        [.., last] => last.hi,
        [] => 0,
    };
    let key = progress.queue.key_of(h).unwrap_or(0);
    pending.max(key)
}
