// The least minutes and, by itself, the least cost from each node to a goal.
ghost use Rattle.std.specs.Prelude.{◌≡◌, ◌≤◌, ◌<◌, ◌+◌, length, IfOk, OnOk, IsTrue};
ghost use Rattle.route_base.specs.Net.{IsGoodNet, setting_of};
ghost use Rattle.node_arcs.specs.Stars.{AreIncoming};
ghost use Rattle.potentials.specs.Sums.{AreBoundsTo, AreCappedBoundsTo, IsCappedSum};
ghost use Rattle.potentials.specs.Proportion.{AreProportional};
ghost use Rattle.label_queue.specs.Keys.{key_at};
ghost use Rattle.potentials.specs.Inside.Caps.{bound_in, bound_of_sums, capped_at, costs_of, HaveCosts, AreSumsTo, AreBoundsIn, IsCapForBoth};

use crate::proportion::{cost_of, cost_of_sum, has_proportional_costs};
use crate::searches::{costs_below, minutes_below};
use node_arcs::NodeArcs;
use route_base::limits::COST_OF_MINUTE;
use route_base::{Bound, Bounds, NodeId, OutOfMemory, TimedNet};
use std::alloc::Global;

// Caps that no sum reaches.
const UNCAPPED: Bound = Bound {
    minutes: u64::MAX,
    cost: u64::MAX,
};

/// The least minutes and the least costs that are found up to caps, one place for each node from 1 on; no list of costs where each is
/// `COST_OF_MINUTE` times the minutes.
pub struct Sums {
    minutes: Vec<Option<u64>>,
    costs: Option<Vec<Option<u64>>>,
}

// By hand, so that the drops of its parts are proved here alone.
impl Drop for Sums {
    fn drop(self) {
        let Sums {
            minutes: _,
            costs: _,
        } = self;
    }
}

/// For each node the least sum of minutes and, by itself, the least sum of costs over walks of arcs to the goal; `None` exactly
/// where there is no walk. One search finds both sums where every arc costs `COST_OF_MINUTE` for each of its minutes, as without
/// tolls; otherwise there are two. For n nodes and m arcs a search takes (n + m) log n steps; but that for minutes, where no arc takes more
/// than 256, takes n + m, and one for each minute up to the greatest sum. Memory is linear in nodes and arcs.
pub fn to_goal(alloc: Global, net: &TimedNet, goal: NodeId) -> Result<Bounds, OutOfMemory>
    requires low { 1 ≤ goal.0 }
    requires high { goal.0 ≤ net.now.nodes }
    ensures bounds { IfOk result (AreBoundsTo net.now goal.0) }
    ensures good { OnOk result (IsGoodNet net.now) }
{
    let incoming = NodeArcs::incoming(alloc, net)?;
    to_goal_over(alloc, net, &incoming, goal)
}

/// The same for arcs that were put in order already.
pub fn to_goal_over(
    alloc: Global,
    net: &TimedNet,
    incoming: &NodeArcs,
    goal: NodeId,
) -> Result<Bounds, OutOfMemory>
    requires incoming { AreIncoming net.now incoming.now }
    requires low { 1 ≤ goal.0 }
    requires high { goal.0 ≤ net.now.nodes }
    ensures bounds { IfOk result (AreBoundsTo net.now goal.0) }
    ensures good { OnOk result (IsGoodNet net.now) }
{
    let proportional = has_proportional_costs(net);
    let sums = sums_to(alloc, net, incoming, proportional, goal, None)?;
    bounds_of(alloc, &sums, None)
}

/// For each node the least sum of minutes and, by itself, the least sum of costs over walks of arcs to the goal, each at most that of
/// `most`; a node without a walk has `most`. A search ends at its cap. Where costs are known to be in proportion to minutes
/// (`has_proportional_costs`), one search, for minutes, goes on to the greater of both caps, with `COST_OF_MINUTE` for a minute;
/// otherwise there are two, each up to its own. For k nodes whose sums are below the cap, at which j arcs end, that for minutes takes
/// k + j steps, and one for each minute up to the cap; that for costs takes (k + j) log k. Beside that each node takes one step; under a
/// cap of more than a week each arc does too. Memory is linear in nodes and in the minutes of the cap, or of the longest arc.
pub fn to_goal_within(
    alloc: Global,
    net: &TimedNet,
    incoming: &NodeArcs,
    proportional: bool,
    goal: NodeId,
    most: Bound,
) -> Result<Bounds, OutOfMemory>
    requires incoming { AreIncoming net.now incoming.now }
    requires proportional { IsTrue proportional → AreProportional (setting_of net.now).road }
    requires low { 1 ≤ goal.0 }
    requires high { goal.0 ≤ net.now.nodes }
    ensures bounds { IfOk result (AreCappedBoundsTo net.now goal.0 most) }
    ensures good { OnOk result (IsGoodNet net.now) }
{
    let sums = sums_to(alloc, net, incoming, proportional, goal, Some(most))?;
    bounds_of(alloc, &sums, Some(most))
}

/// The lesser of the cap and the least sum of minutes over walks of arcs from a node to the goal; the cap where there is no walk. It takes
/// the time and memory of the search for minutes of `to_goal_within`, and makes no list of bounds.
pub fn minutes_within(
    alloc: Global,
    net: &TimedNet,
    incoming: &NodeArcs,
    origin: NodeId,
    goal: NodeId,
    cap: u64,
) -> Result<u64, OutOfMemory>
    requires incoming { AreIncoming net.now incoming.now }
    requires origin_low { 1 ≤ origin.0 }
    requires origin_high { origin.0 ≤ net.now.nodes }
    requires low { 1 ≤ goal.0 }
    requires high { goal.0 ≤ net.now.nodes }
    ensures { IfOk result (IsCappedSum (setting_of net.now).road (λ r. r.minutes) goal.0 origin.0 cap) }
{
    let sums = minutes_below(alloc, net, incoming, goal, cap)?;
    Ok(capped(sums[origin.0 as usize - 1], cap))
}

/// The cap for trips of at most these minutes: they, and their cost where costs are in proportion to minutes, or twice that otherwise.
/// The cost is no matter of correctness, since capped bounds hold along each arc whatever the cap is: under a lower one a search
/// leaves out less, and under a higher one the bounds take longer.
pub fn cap_for_minutes(proportional: bool, minutes: u64) -> Bound
    ensures { result.minutes ≡ minutes }
{
    let cost = cost_of(minutes);
    let cost = if proportional {
        cost
    } else {
        cost.saturating_mul(2)
    };
    Bound { minutes, cost }
}

// The least sums to the goal, up to the caps: by one search where costs are in proportion to minutes, otherwise by two.
fn sums_to(
    alloc: Global,
    net: &TimedNet,
    incoming: &NodeArcs,
    proportional: bool,
    goal: NodeId,
    caps: Option<Bound>,
) -> Result<Sums, OutOfMemory>
    requires incoming { AreIncoming net.now incoming.now }
    requires proportional { IsTrue proportional → AreProportional (setting_of net.now).road }
    requires low { 1 ≤ goal.0 }
    requires high { goal.0 ≤ net.now.nodes }
    ensures sums { IfOk result (AreSumsTo net.now goal.0 caps) }
    ensures good { OnOk result (IsGoodNet net.now) }
{
    if proportional {
        let minutes = minutes_below(alloc, net, incoming, goal, cap_for_both(caps))?;
        return Ok(Sums {
            minutes,
            costs: None,
        });
    }
    let most = caps.unwrap_or(UNCAPPED);
    let costs = costs_below(alloc, net, incoming, goal, most.cost)?;
    let minutes = minutes_below(alloc, net, incoming, goal, most.minutes)?;
    Ok(Sums {
        minutes,
        costs: Some(costs),
    })
}

// The minutes up to which a search finds the minutes and the costs up to the caps.
fn cap_for_both(caps: Option<Bound>) -> u64
    ensures { IsCapForBoth caps result }
{
    match caps {
        None => u64::MAX,
        Some(most) => most.minutes.max(most.cost.div_ceil(COST_OF_MINUTE)),
    }
}

// The bounds of the nodes, from their sums; under caps each node has one.
fn bounds_of(alloc: Global, sums: &Sums, caps: Option<Bound>) -> Result<Bounds, OutOfMemory>
    requires same { length sums.now.minutes.items ≡ length (costs_of sums.now) }
    requires fit { HaveCosts sums.now.minutes.items }
    ensures { IfOk result (AreBoundsIn caps sums.now.minutes.items (costs_of sums.now)) }
{
    let mut bounds = Bounds::new(alloc);
    for place in 0..sums.minutes.len() {
        bounds.push(bound_with(caps, sums.minutes[place], cost_at(sums, place)))?;
    }
    Ok(bounds)
}

// The cost at a place.
#[inline(always)]
fn cost_at(sums: &Sums, place: usize) -> Option<u64>
    requires place { place < length sums.now.minutes.items }
    requires same { length sums.now.minutes.items ≡ length (costs_of sums.now) }
    requires fit { HaveCosts sums.now.minutes.items }
    ensures { result ≡ key_at (costs_of sums.now) (place + 1) }
{
    match &sums.costs {
        None => cost_of_sum(sums.minutes[place]),
        Some(costs) => costs[place],
    }
}

// The bound of a node: both sums, where it has them, or, under caps, the lesser of each and its cap.
fn bound_with(caps: Option<Bound>, minutes: Option<u64>, cost: Option<u64>) -> Option<Bound>
    ensures { result ≡ bound_in caps minutes cost }
{
    match caps {
        None => both(minutes, cost),
        Some(most) => Some(Bound {
            minutes: capped(minutes, most.minutes),
            cost: capped(cost, most.cost),
        }),
    }
}

// The lesser of the sum, where there is one, and the cap.
fn capped(sum: Option<u64>, cap: u64) -> u64
    ensures { result ≡ capped_at cap sum }
{
    sum.unwrap_or(cap).min(cap)
}

// Both bounds of a node, where it has them.
fn both(minutes: Option<u64>, cost: Option<u64>) -> Option<Bound>
    ensures { result ≡ bound_of_sums minutes cost }
{
    Some(Bound {
        minutes: minutes?,
        cost: cost?,
    })
}
