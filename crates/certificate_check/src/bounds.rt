// The third condition: the bounds to the goal.
ghost use Rattle.std.specs.Prelude.{◌≡◌, ◌↔◌, ◌≤◌, Some, ℕ, IsTrue, All};
ghost use Rattle.route_base.specs.Net.{setting_of, road_of};
ghost use Rattle.route_base.specs.Relaxing.{IsBoundThrough};
ghost use Rattle.route_base.specs.declared.limits.TheConstants.{HIGHEST_COST, LONGEST_DRIVE};
ghost use Rattle.route_base.specs.declared.types.Bound.{Bound};
ghost use Rattle.certificate.specs.ByNode.{item_at};
ghost use Rattle.certificate_check.specs.Conditions.{IsNodeOf, AreNodeBounds, AreBoundsInRange};
ghost use Rattle.certificate_check.specs.Inside.Passing.{IsBoundInRange};
ghost use Rattle.certificate_check.specs.Inside.Steps.{IsBoundedArc};

use crate::lookup::bound_of;
use certificate::NodeBounds;
use route_base::{ArcId, Bound, NodeId, TimedArc, TimedNet};

/// Whether the bounds are of nodes of the net, and no larger than the way over any arc to the goal. Two binary searches for
/// each arc; no memory.
pub fn are_node_bounds(net: &TimedNet, goal: NodeId, bounds: &NodeBounds) -> bool
    requires { AreBoundsInRange bounds.now }
    ensures { IsTrue result ↔ AreNodeBounds (setting_of net.now) goal.0 bounds.now }
{
    are_nodes(net, bounds) && is_zero(bound_of(bounds, goal)) && are_bounded(net, bounds)
}

// Whether all bounds are of nodes of the net.
fn are_nodes(net: &TimedNet, bounds: &NodeBounds) -> bool
    ensures { IsTrue result ↔ All (λ e. IsNodeOf (setting_of net.now) e.0.0) bounds.now }
{
    bounds.as_slice().iter().all(|entry| is_node(net, entry.0))
}

/// Whether the net has the node. In constant time.
pub fn is_node(net: &TimedNet, node: NodeId) -> bool
    ensures { IsTrue result ↔ IsNodeOf (setting_of net.now) node.0 }
{
    1 <= node.0 && node.0 <= net.node_count()
}

// Whether the bound is there and 0.
fn is_zero(bound: Option<Bound>) -> bool
    ensures { IsTrue result ↔ (bound ≡ Some (record { minutes = 0; cost = 0 })) }
{
    match bound {
        Some(bound) => bound.minutes == 0 && bound.cost == 0,
        None => false,
    }
}

// Whether the bounds of all tails are no larger than the way over their arcs.
fn are_bounded(net: &TimedNet, bounds: &NodeBounds) -> bool
    requires { AreBoundsInRange bounds.now }
    ensures { IsTrue result ↔ ((a : ℕ) → IsBoundedArc (setting_of net.now) (item_at bounds.now) a) }
{
    for k in 0..net.arc_count() {
        if !is_bounded(net, bounds, ArcId(k + 1)) {
            return false;
        }
    }
    true
}

// Whether the bounds of the arc's tail are no larger than the way over it.
fn is_bounded(net: &TimedNet, bounds: &NodeBounds, a: ArcId) -> bool
    requires { AreBoundsInRange bounds.now }
    ensures { IsTrue result ↔ IsBoundedArc (setting_of net.now) (item_at bounds.now) a.0 }
{
    match net.arc(a) {
        Some(arc) => is_through(arc, bound_of(bounds, arc.head), bound_of(bounds, arc.tail)),
        None => true,
    }
}

// Whether the tail has bounds where the head has some, and no larger ones than the head's with the arc's numbers.
fn is_through(arc: TimedArc, head: Option<Bound>, tail: Option<Bound>) -> bool
    requires minutes { arc.minutes ≤ LONGEST_DRIVE }
    requires cost { arc.cost ≤ HIGHEST_COST }
    requires head { IsBoundInRange head }
    ensures { IsTrue result ↔ ((h : Bound) → head ≡ Some h
        → (b : Bound) × (tail ≡ Some b) × IsBoundThrough (road_of arc) h b) }
{
    match head {
        None => true,
        Some(head) => match tail {
            None => false,
            Some(tail) => {
                tail.minutes <= arc.minutes + head.minutes && tail.cost <= arc.cost + head.cost
            }
        },
    }
}
