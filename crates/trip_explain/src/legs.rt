// One leg of an itinerary: where it leads, or why it can't be travelled.
ghost use Rattle.std.specs.Prelude.{◌≡◌, ◌≢◌, ◌≤◌, ◌<◌, IfOk, IfErr};
ghost use Rattle.route_base.specs.Itinerary.{Walks};
ghost use Rattle.route_base.specs.Legs.{steps_of_leg};
ghost use Rattle.route_base.specs.Time.{last_instant};
ghost use Rattle.route_base.specs.declared.types.Leg.TheVariants.{Drive, Wait};
ghost use Rattle.network_tables.specs.RoadSetting.{road_setting};
ghost use Rattle.trip_explain.specs.Explanations.{StopsIn};
ghost use Rattle.trip_explain.specs.Inside.{IsSpot, position_of};

use crate::closed_minutes::first_closing;
use crate::explanation::Why;
use crate::open_parks::first_shut;
use network_tables::Network;
use route_base::limits::COST_OF_MINUTE;
use route_base::{ArcId, Cost, Leg, Minute, NodeId};
use vehicle_classes::Vehicle;

// A node, a minute and the cost so far.
#[derive(Clone, Copy)]
pub struct Spot {
    pub node: NodeId,
    pub minute: Minute,
    pub cost: Cost,
}

// The minute at which a step can't be made, and the reason.
#[derive(Clone, Copy)]
pub struct Stuck {
    pub minute: Minute,
    pub why: Why,
}

// The spot to which a drive over the arc leads, or why it is unlawful.
fn after_drive(
    network: &Network,
    vehicle: &Vehicle,
    until: u64,
    at: Spot,
    a: ArcId,
) -> Result<Spot, Stuck>
    requires until { until ≤ last_instant }
    requires spot { IsSpot network.now until at }
    ensures ok { IfOk result (λ q. Walks (road_setting network.now vehicle.now) until
        (steps_of_leg (Leg.Drive a)) (position_of at) (position_of q)) }
    ensures spot { IfOk result (IsSpot network.now until) }
    ensures err { IfErr result (λ e. StopsIn network.now vehicle.now until (Leg.Drive a)
        (position_of at) e.minute e.why) }
{
    let Some(arc) = network.graph().arc(a) else {
        return Err(Stuck {
            minute: at.minute,
            why: Why::Tail,
        });
    };
    if arc.tail.0 != at.node.0 {
        return Err(Stuck {
            minute: at.minute,
            why: Why::Tail,
        });
    }
    if at.minute + arc.minutes > until {
        return Err(Stuck {
            minute: at.minute,
            why: Why::Late,
        });
    }
    if let Some(closing) = first_closing(network, vehicle, a, at.minute, arc.minutes) {
        return Err(Stuck {
            minute: closing.minute,
            why: closing.why,
        });
    }
    Ok(Spot {
        node: arc.head,
        minute: at.minute + arc.minutes,
        cost: at.cost + (COST_OF_MINUTE * arc.minutes + network.toll(a)),
    })
}

// The spot to which a wait of these minutes leads, or why it is unlawful.
fn after_wait(
    network: &Network,
    vehicle: &Vehicle,
    until: u64,
    at: Spot,
    minutes: u64,
) -> Result<Spot, Stuck>
    requires until { until ≤ last_instant }
    requires spot { IsSpot network.now until at }
    requires some { 1 ≤ minutes }
    ensures ok { IfOk result (λ q. Walks (road_setting network.now vehicle.now) until
        (steps_of_leg (Leg.Wait minutes)) (position_of at) (position_of q)) }
    ensures spot { IfOk result (IsSpot network.now until) }
    ensures err { IfErr result (λ e. StopsIn network.now vehicle.now until (Leg.Wait minutes)
        (position_of at) e.minute e.why) }
{
    let Some(weight) = network.weight(at.node) else {
        return Err(Stuck {
            minute: at.minute,
            why: Why::Unrated,
        });
    };
    let within = minutes.min(until - at.minute);
    if let Some(minute) = first_shut(network, at.node, at.minute, at.minute + within) {
        return Err(Stuck {
            minute,
            why: Why::Shut,
        });
    }
    if within < minutes {
        return Err(Stuck {
            minute: until,
            why: Why::Late,
        });
    }
    Ok(Spot {
        node: at.node,
        minute: at.minute + minutes,
        cost: at.cost + minutes * weight,
    })
}

// The spot to which the leg leads, or why it is unlawful.
pub fn after_leg(
    network: &Network,
    vehicle: &Vehicle,
    until: u64,
    at: Spot,
    leg: Leg,
) -> Result<Spot, Stuck>
    requires until { until ≤ last_instant }
    requires spot { IsSpot network.now until at }
    requires some { leg ≢ Leg.Wait 0 }
    ensures ok { IfOk result (λ q. Walks (road_setting network.now vehicle.now) until
        (steps_of_leg leg) (position_of at) (position_of q)) }
    ensures spot { IfOk result (IsSpot network.now until) }
    ensures err { IfErr result (λ e. StopsIn network.now vehicle.now until leg
        (position_of at) e.minute e.why) }
{
    match leg {
        Leg::Drive(a) => after_drive(network, vehicle, until, at, a),
        Leg::Wait(minutes) => after_wait(network, vehicle, until, at, minutes),
    }
}
