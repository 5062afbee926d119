// Bounds over one net whose costs are in proportion to minutes, and over one with a dearer arc.
ghost use Rattle.std.specs.Prelude.{◌≡◌, ◌≤◌, IfOk};

use node_arcs::NodeArcs;
use potentials::{cap_for_minutes, has_proportional_costs, to_goal, to_goal_over, to_goal_within};
use route_base::{Bound, Bounds, Cost, NodeId, OutOfMemory, TimedArc, TimedNet};
use std::alloc::Global;
use std::process::Abort;

fn arc(tail: u32, head: u32, minutes: u64, cost: Cost) -> TimedArc
    ensures { result ≡ record {
      tail = record { 0 = tail };
      head = record { 0 = head };
      minutes = minutes;
      cost = cost;
      closed = 0;
    } }
{
    TimedArc {
        tail: NodeId(tail),
        head: NodeId(head),
        minutes,
        cost,
        closed: 0,
    }
}

// From 1 to 3 over 2, or straight on; from 4 no arc leaves. The arc from 2 to 3 has this cost.
fn net_with(alloc: Global, cost: Cost) -> Result<TimedNet, OutOfMemory>
    requires { cost ≤ 1000000 }
    ensures { IfOk result (λ net. net.nodes ≡ 4) }
{
    let arcs = vec![in alloc;
        arc(1, 2, 60, 60_000),
        arc(2, 3, 60, cost),
        arc(1, 3, 300, 300_000),
        arc(3, 4, 10, 10_000),
    ]?;
    let closed = vec![in alloc; Vec::new(alloc)]?;
    let parks = vec![in alloc; None; 4]?;
    Ok(TimedNet::new(4, arcs, closed, parks))
}

// The bound of these minutes and this cost.
fn bound(minutes: u64, cost: Cost) -> Option<Bound> {
    Some(Bound { minutes, cost })
}

// Whether the bounds are those to node 3, if the arc from 2 has this cost, and this is the least cost from 1.
fn are_bounds(bounds: &Bounds, cost: Cost, least_from_1: Cost) -> bool {
    bounds.get(NodeId(1)) == bound(120, least_from_1)
        && bounds.get(NodeId(2)) == bound(60, cost)
        && bounds.get(NodeId(3)) == bound(0, 0)
        && bounds.get(NodeId(4)).is_none()
}

// The cost of the arc, and the least cost from node 1. If the arc is dearer, that is the cost of the straight way; the least minutes
// are still those over node 2.
const COSTS: &[(Cost, Cost)] = &[(60_000, 120_000), (400_000, 300_000)];

// Whether the bounds are these, from the net alone and over arcs in order.
fn finds_bounds<R: Abort + AllocGlobal>(rt: &R, cost: Cost, least_from_1: Cost) -> bool {
    let net = net_with(rt.alloc(), cost.min(1_000_000)).expect(rt, "memory");
    let bounds = to_goal(rt.alloc(), &net, NodeId(3)).expect(rt, "memory");
    let incoming = NodeArcs::incoming(rt.alloc(), &net).expect(rt, "memory");
    let again = to_goal_over(rt.alloc(), &net, &incoming, NodeId(3)).expect(rt, "memory");
    are_bounds(&bounds, cost, least_from_1) && are_bounds(&again, cost, least_from_1)
}

#[test]
fn finds_least_minutes_and_costs(rt: HostRuntime) {
    for (cost, least_from_1) in COSTS {
        assert!(rt; finds_bounds(&rt, *cost, *least_from_1), "{cost}");
    }
}

// Under a cap of 100 minutes: the cost of the arc from node 2, the cost of the cap, and the least cost from 2 under it. Node 1 is farther
// than the cap in minutes and in cost, and from 4 no arc leaves: both have the cap.
const CAPPED_COSTS: &[(Cost, Cost, Cost)] = &[
    (60_000, 100_000, 60_000),
    (400_000, 200_000, 200_000),
];

// Whether the bounds under the cap are these: of the far node, of the near one, of the goal, and of the node without a way.
fn are_capped(bounds: &Bounds, most_cost: Cost, least_from_2: Cost) -> bool {
    let far = bound(100, most_cost);
    bounds.get(NodeId(1)) == far
        && bounds.get(NodeId(2)) == bound(60, least_from_2)
        && bounds.get(NodeId(3)) == bound(0, 0)
        && bounds.get(NodeId(4)) == far
}

// Whether they are found.
fn finds_capped<R: Abort + AllocGlobal>(
    rt: &R,
    cost: Cost,
    most_cost: Cost,
    least_from_2: Cost,
) -> bool {
    let net = net_with(rt.alloc(), cost.min(1_000_000)).expect(rt, "memory");
    let incoming = NodeArcs::incoming(rt.alloc(), &net).expect(rt, "memory");
    let proportional = has_proportional_costs(&net);
    let most = cap_for_minutes(proportional, 100);
    let bounds = to_goal_within(rt.alloc(), &net, &incoming, proportional, NodeId(3), most).expect(
        rt, "memory",
    );
    are_capped(&bounds, most_cost, least_from_2)
}

#[test]
fn ends_at_a_cap(rt: HostRuntime) {
    for (cost, most_cost, least_from_2) in CAPPED_COSTS {
        assert!(rt;
            finds_capped(&rt, *cost, *most_cost, *least_from_2),
            "{cost}"
        );
    }
}

// A cap above every sum: the bounds of 1, 2 and 3 are the least ones, and the node without a way has the cap.
const HIGH_CAP: Bound = Bound {
    minutes: u64::MAX,
    cost: 1_000_000,
};

// Whether the bounds below the high cap are these.
fn are_below_cap(bounds: &Bounds, cost: Cost, least_from_1: Cost) -> bool {
    bounds.get(NodeId(1)) == bound(120, least_from_1)
        && bounds.get(NodeId(2)) == bound(60, cost)
        && bounds.get(NodeId(4)) == Some(HIGH_CAP)
}

// Whether they are found.
fn finds_below_cap<R: Abort + AllocGlobal>(rt: &R, cost: Cost, least_from_1: Cost) -> bool {
    let net = net_with(rt.alloc(), cost.min(1_000_000)).expect(rt, "memory");
    let incoming = NodeArcs::incoming(rt.alloc(), &net).expect(rt, "memory");
    let bounds = to_goal_within(rt.alloc(), &net, &incoming, false, NodeId(3), HIGH_CAP).expect(
        rt, "memory",
    );
    are_below_cap(&bounds, cost, least_from_1)
}

#[test]
fn finds_least_bounds_below_a_high_cap(rt: HostRuntime) {
    for (cost, least_from_1) in COSTS {
        assert!(rt; finds_below_cap(&rt, *cost, *least_from_1), "{cost}");
    }
}
