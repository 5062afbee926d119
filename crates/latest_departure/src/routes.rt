// The routes of an answer.
ghost use Rattle.std.specs.Prelude.{◌≡◌, ◌≤◌, IfOk, All, drop, length, map, reverse};
ghost use Rattle.latest_departure.specs.Words.{after_gate, free_to_in, late_of, own_legs_of};

use route_base::{Cost, Leg, Legs, Listing, Minute, NodeId, OutOfMemory, Route, TimedNet};
use std::alloc::Global;

/// A departure, the cost in thousandths of an itinerary that leaves then, and its legs.
#[derive(Drop)]
pub struct LateRoute {
    pub departure: Minute,
    pub cost: Cost,
    pub legs: Legs,
}

/// Routes by falling departure.
pub type LateRoutes = Listing<LateRoute>;

// The node to which a leg leads backwards from a node, if it costs nothing.
fn free_to(net: &TimedNet, node: NodeId, leg: Leg) -> Option<NodeId>
    ensures { result ≡ free_to_in net.now node leg }
{
    match leg {
        Leg::Drive(a) => {
            let arc = net.arc(a)?;
            if arc.cost == 0 { Some(arc.tail) } else { None }
        }
        Leg::Wait(_) => {
            let park = net.park(node)?;
            if park.weight == 0 { Some(node) } else { None }
        }
    }
}

// The place behind the legs that lead from the goal back to it at no cost: a lorry that has arrived goes no further.
fn first_own(net: &TimedNet, goal: NodeId, legs: &[Leg]) -> usize
    ensures within { result ≤ length legs.now }
    ensures own { drop result legs.now ≡ own_legs_of net.now goal legs.now }
{
    let mut own = 0;
    let mut node = goal;
    for i in 0..legs.len() {
        let leg = legs[i];
        match free_to(net, node, leg) {
            None => return own,
            Some(next) => {
                node = next;
                if node.0 == goal.0 {
                    own = i + 1;
                }
            }
        }
    }
    own
}

// The legs behind the gate, but for those that lead from the goal to it at no cost, the last first.
fn turned_legs(
    alloc: Global,
    net: &TimedNet,
    goal: NodeId,
    legs: &[Leg],
) -> Result<Vec<Leg>, OutOfMemory>
    ensures { IfOk result (λ out.
        out.items ≡ reverse (own_legs_of net.now goal (after_gate legs.now))) }
{
    let first = match legs.first() {
        Some(Leg::Wait(_)) => 2,
        _ => 1,
    };
    let behind = legs.get(first..).unwrap_or(&[]);
    let own = first_own(net, goal, behind);
    let mut out = Vec::from_slice(alloc, &behind[own..])?;
    out.reverse();
    Ok(out)
}

/// The routes of the mirrored net as routes by departure. Linear in their legs.
pub fn late_routes(
    alloc: Global,
    net: &TimedNet,
    goal: NodeId,
    routes: &[Route],
    sum: Minute,
) -> Result<LateRoutes, OutOfMemory>
    requires early { All (λ x. x.pair.arrival ≤ sum) routes.now }
    ensures { IfOk result (λ out. out ≡ map (late_of net.now goal sum) routes.now) }
{
    let mut out = Vec::with_capacity(alloc, routes.len())?;
    for route in routes {
        let legs = turned_legs(alloc, net, goal, route.legs.as_slice())?;
        out.push(LateRoute {
            departure: sum - route.pair.arrival,
            cost: route.pair.cost,
            legs: Legs::from_vec(legs),
        })?;
    }
    Ok(LateRoutes::from_vec(out))
}
