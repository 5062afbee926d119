// The searches for least minutes and for least costs, each with its queue.
ghost use Rattle.std.specs.Prelude.{◌≡◌, ◌≤◌, ◌<◌, ◌+◌, ◌-◌, ◌^◌, ℕ, Some, length, IfOk, OnOk};
ghost use Rattle.route_base.specs.Net.{IsGoodNet, setting_of};
ghost use Rattle.route_base.specs.Setting.{Road};
ghost use Rattle.node_arcs.specs.Stars.{AreIncoming};
ghost use Rattle.potentials.specs.Inside.Summing.{AreSumsBelow, AreSmall};
ghost use Rattle.potentials.specs.declared.sums.Counted.TheVariants.{Minutes, Cost};

use crate::sums::{Counted, sums_below};
use label_queue::{BucketQueue, LabelQueue};
use node_arcs::NodeArcs;
use route_base::limits::LONGEST_DRIVE;
use route_base::{NodeId, OutOfMemory, TimedNet};
use std::alloc::Global;

// The most minutes of a cap under which buckets serve whatever the arcs: they take a step for each minute up to the last sum.
const FAR: u64 = 1_000_000;

// The most minutes of an arc with which buckets serve under any cap.
const LONG: u64 = 256;

/// The least minutes to the goal that are below the cap, in a queue of buckets, of which there are as many as there are minutes that an
/// arc can take from any sum to one below the cap; or in a heap, where sums may lie far apart. Only under a cap of more than a week the
/// arcs are looked through for the longest.
pub fn minutes_below(
    alloc: Global,
    net: &TimedNet,
    incoming: &NodeArcs,
    goal: NodeId,
    cap: u64,
) -> Result<Vec<Option<u64>>, OutOfMemory>
    requires incoming { AreIncoming net.now incoming.now }
    requires low { 1 ≤ goal.0 }
    requires high { goal.0 ≤ net.now.nodes }
    ensures nodes { IfOk result (λ sums. length sums.items ≡ net.now.nodes) }
    ensures least { IfOk result (λ sums. AreSumsBelow net.now Minutes goal.0 cap sums.items) }
    ensures small { IfOk result (λ sums. AreSmall net.now Minutes sums.items) }
    ensures good { OnOk result (IsGoodNet net.now) }
{
    let longest = if cap <= LONGEST_DRIVE {
        cap
    } else {
        longest_arc(net)
    };
    if cap > FAR && longest > LONG {
        let mut heap = LabelQueue::new(alloc, net.node_count())?;
        return sums_below(alloc, net, incoming, Counted::Minutes, goal, cap, &mut heap);
    }
    let mut queue = BucketQueue::new(alloc, net.node_count(), longest as usize + 1)?;
    sums_below(
        alloc,
        net,
        incoming,
        Counted::Minutes,
        goal,
        cap,
        &mut queue,
    )
}

/// The least costs to the goal that are below the cap, in a heap.
pub fn costs_below(
    alloc: Global,
    net: &TimedNet,
    incoming: &NodeArcs,
    goal: NodeId,
    cap: u64,
) -> Result<Vec<Option<u64>>, OutOfMemory>
    requires incoming { AreIncoming net.now incoming.now }
    requires low { 1 ≤ goal.0 }
    requires high { goal.0 ≤ net.now.nodes }
    ensures nodes { IfOk result (λ sums. length sums.items ≡ net.now.nodes) }
    ensures least { IfOk result (λ sums. AreSumsBelow net.now Cost goal.0 cap sums.items) }
    ensures good { OnOk result (IsGoodNet net.now) }
{
    let mut queue = LabelQueue::new(alloc, net.node_count())?;
    sums_below(alloc, net, incoming, Counted::Cost, goal, cap, &mut queue)
}

// The most minutes of an arc; 0 where there is none.
fn longest_arc(net: &TimedNet) -> u64
    ensures most { (a : ℕ) (road : Road) → (setting_of net.now).road a ≡ Some road
        → road.minutes ≤ result }
    ensures small { result ≤ LONGEST_DRIVE }
{
    let mut longest = 0;
    for arc in net.arcs() {
        longest = arc.minutes.max(longest);
    }
    longest
}
