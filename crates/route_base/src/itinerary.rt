// Replays the legs of an itinerary one by one.
ghost use Rattle.std.specs.Prelude.{◌≡◌, ◌≢◌, ◌≤◌, None, IfSome, IfOk, IfErr};
ghost use Rattle.route_base.specs.Net.{setting_of, IsGoodRequest};
ghost use Rattle.route_base.specs.Legs.{Achieves};
ghost use Rattle.route_base.specs.Replay.{FailsAt, IsSpot, LeadsBy, IsStuck};
ghost use Rattle.route_base.specs.Time.{last_instant};
ghost use Rattle.route_base.specs.declared.types.Leg.TheVariants.{Wait};

use crate::{ArcId, Cost, Leg, Minute, NodeId, Pair, Request, TimedNet};

/// The place of the first unlawful leg, or the number of legs where the end isn't right.
#[derive(Clone, Copy, Debug, PartialEq, Eq)]
pub struct NotLawful {
    pub index: usize,
}

// A node, a minute and the cost so far.
#[derive(Clone, Copy)]
pub struct Spot {
    pub node: NodeId,
    pub minute: Minute,
    pub cost: Cost,
}

// The spot to which a drive over the arc leads, if it is lawful.
fn after_drive(net: &TimedNet, until: u64, at: Spot, a: ArcId) -> Option<Spot>
    requires until { until ≤ last_instant }
    requires spot { IsSpot net.now at }
    ensures some { IfSome result (LeadsBy net.now until (Leg.Drive a) at) }
    ensures spot { IfSome result (IsSpot net.now) }
    ensures none { result ≡ None → IsStuck net.now until (Leg.Drive a) at }
{
    let arc = net.arc(a)?;
    if arc.tail.0 != at.node.0 {
        return None;
    }
    if at.minute + arc.minutes > until {
        return None;
    }
    if !net.is_open(a, at.minute, arc.minutes) {
        return None;
    }
    Some(Spot {
        node: arc.head,
        minute: at.minute + arc.minutes,
        cost: at.cost + arc.cost,
    })
}

// The spot to which a wait of these minutes leads, if it is lawful.
fn after_wait(net: &TimedNet, until: u64, at: Spot, minutes: u64) -> Option<Spot>
    requires until { until ≤ last_instant }
    requires spot { IsSpot net.now at }
    ensures some { IfSome result (LeadsBy net.now until (Leg.Wait minutes) at) }
    ensures filled { IfSome result (λ q. 1 ≤ minutes) }
    ensures spot { IfSome result (IsSpot net.now) }
    ensures none { result ≡ None → IsStuck net.now until (Leg.Wait minutes) at }
{
    if minutes == 0 {
        return None;
    }
    let weight = net.weight(at.node)?;
    if at.minute > until || minutes > until - at.minute {
        return None;
    }
    if !net.is_wait_open(at.node, at.minute, minutes) {
        return None;
    }
    Some(Spot {
        node: at.node,
        minute: at.minute + minutes,
        cost: at.cost + minutes * weight,
    })
}

// The spot to which the leg leads, if it is lawful.
fn after_leg(net: &TimedNet, until: u64, at: Spot, leg: Leg) -> Option<Spot>
    requires until { until ≤ last_instant }
    requires spot { IsSpot net.now at }
    ensures some { IfSome result (LeadsBy net.now until leg at) }
    ensures filled { IfSome result (λ q. leg ≢ Leg.Wait 0) }
    ensures spot { IfSome result (IsSpot net.now) }
    ensures none { result ≡ None → IsStuck net.now until leg at }
{
    match leg {
        Leg::Drive(a) => after_drive(net, until, at, a),
        Leg::Wait(minutes) => after_wait(net, until, at, minutes),
    }
}

/// The pair of lawful legs, or the place where they fail: the first leg that is unlawful or a wait of no minutes, or the number
/// of legs where the end isn't the goal or the departure is after the horizon. It costs one binary search per leg.
pub fn replay(net: &TimedNet, request: Request, legs: &[Leg]) -> Result<Pair, NotLawful>
    requires { IsGoodRequest net.now request }
    ensures ok { IfOk result (Achieves (setting_of net.now) request legs.now) }
    ensures err { IfErr result (λ e. FailsAt (setting_of net.now) request legs.now e.index) }
{
    let mut at = Spot {
        node: request.origin,
        minute: request.depart,
        cost: 0,
    };
    for i in 0..legs.len() {
        match after_leg(net, request.until, at, legs[i]) {
            Some(next) => at = next,
            None => return Err(NotLawful { index: i }),
        }
    }
    if at.node.0 != request.goal.0 {
        return Err(NotLawful { index: legs.len() });
    }
    if request.until < request.depart {
        return Err(NotLawful { index: legs.len() });
    }
    Ok(Pair {
        arrival: at.minute,
        cost: at.cost,
    })
}
