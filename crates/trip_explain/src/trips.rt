// Explains the legs of an itinerary one by one.
ghost use Rattle.route_base.specs.Legs.{HasNoEmptyWait};
ghost use Rattle.trip_explain.specs.Explanations.{IsExplained, IsRoadRequest};

use crate::explanation::{Explanation, Why};
use crate::legs::{Spot, after_leg};
use network_tables::Network;
use route_base::{Leg, Pair, Request};
use vehicle_classes::Vehicle;

/// The pair of lawful legs, in minutes and thousandths; or the first leg that is unlawful, counted from 1, with its minute and the first
/// reason that holds; or a leg past the last, where the legs are lawful and don't end at the goal.
///
/// At each minute of a drive up to the first closed one it reads the clocks of the arc's area. There it decides the access of that arc
/// as `closed_at` of the crate `road_access` does, but only where that may differ from the minute before: where a day begins or
/// clocks are changed, and where hours of the arc's or its area's rules begin or end. It goes through the arc's closures once for each
/// drive. At each minute of a wait it tells whether waiting is open. It takes no memory.
pub fn explain(network: &Network, vehicle: &Vehicle, request: Request, legs: &[Leg]) -> Explanation
    requires request { IsRoadRequest network.now request }
    requires legs { HasNoEmptyWait legs.now }
    ensures { IsExplained network.now vehicle.now request legs.now result }
{
    let mut at = Spot {
        node: request.origin,
        minute: request.depart,
        cost: 0,
    };
    for i in 0..legs.len() {
        match after_leg(network, vehicle, request.until, at, legs[i]) {
            Ok(next) => at = next,
            Err(stuck) => {
                return Explanation::Unlawful {
                    leg: i as u64 + 1,
                    minute: stuck.minute,
                    why: stuck.why,
                };
            }
        }
    }
    if at.node.0 != request.goal.0 {
        return Explanation::Unlawful {
            leg: legs.len() as u64 + 1,
            minute: at.minute,
            why: Why::Goal,
        };
    }
    Explanation::Lawful(Pair {
        arrival: at.minute,
        cost: at.cost,
    })
}
