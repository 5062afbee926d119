// Goes over legs, from one place to the next.
ghost use Rattle.std.specs.Prelude.{◌≡◌, IsSome};
ghost use Rattle.plan_report.specs.Inside.{position_at, IsPassable};
ghost use Rattle.plan_report.specs.Stages.{road_at, price_at, position_after};
ghost use Rattle.plan_report.specs.Words.{road_of, setting_of, start_of};

use route_base::{ArcId, Cost, Leg, Minute, NodeId, Request, TimedArc, TimedNet};

/// A node, a minute and the cost so far.
#[derive(Clone, Copy)]
pub struct Place {
    pub node: NodeId,
    pub minute: Minute,
    pub cost: Cost,
}

/// A leg of a route, with the numbers of both, and the places before and after the leg.
#[derive(Clone, Copy)]
pub struct Stage {
    pub route: u64,
    pub number: u64,
    pub from: Place,
    pub to: Place,
    pub leg: Leg,
}

/// The place from which a request's legs begin.
pub fn first_place(request: Request) -> Place
    ensures { position_at result ≡ start_of request }
{
    Place {
        node: request.origin,
        minute: request.depart,
        cost: 0,
    }
}

// The arc of this number.
fn arc_at(net: &TimedNet, a: ArcId) -> TimedArc
    requires { IsSome ((setting_of net.now).road a.0) }
    ensures { road_of result ≡ road_at (setting_of net.now) a.0 }
{
    net.arc(a).unwrap()
}

// The cost of a minute's wait at the node.
fn weight_of(net: &TimedNet, v: NodeId) -> Cost
    requires { IsSome ((setting_of net.now).weight v.0) }
    ensures { result ≡ price_at (setting_of net.now) v.0 }
{
    route_base::net_is_good(net);
    net.weight(v).unwrap()
}

/// The place after a leg. In constant time.
pub fn next_place(net: &TimedNet, at: Place, leg: Leg) -> Place
    requires { IsPassable (setting_of net.now) (position_at at) leg }
    ensures { position_at result ≡ position_after (setting_of net.now) (position_at at) leg }
{
    match leg {
        Leg::Drive(a) => {
            let arc = arc_at(net, a);
            Place {
                node: arc.head,
                minute: at.minute + arc.minutes,
                cost: at.cost + arc.cost,
            }
        }
        Leg::Wait(minutes) => Place {
            node: at.node,
            minute: at.minute + minutes,
            cost: at.cost + minutes * weight_of(net, at.node),
        },
    }
}
