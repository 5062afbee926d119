// Whether an arc is closed to a vehicle at an instant.
ghost use Rattle.std.specs.Prelude.{◌≡◌, ◌≤◌, length};
ghost use Rattle.route_base.specs.Time.{IsInstant};
ghost use Rattle.network_tables.specs.Access.{is_closed, is_let_in};

use crate::closures::first_closure;
use crate::rulings::arc_ruling;
use conditional_rules::lets_in;
use network_tables::Network;
use route_base::{ArcId, Minute};
use vehicle_classes::Vehicle;

// Whether the rule that decides lets the vehicle in, or none decides.
fn is_let_in_at(network: &Network, vehicle: &Vehicle, a: ArcId, t: Minute) -> bool
    requires low { 1 ≤ a.0 }
    requires high { a.0 ≤ length network.now.graph.arcs }
    requires instant { IsInstant t }
    ensures { result ≡ is_let_in network.now vehicle.now a.0 t }
{
    match arc_ruling(network, vehicle, a, t, 1).ruling {
        Some(ruling) => lets_in(ruling.access, vehicle),
        None => true,
    }
}

/// Whether the arc is closed to the vehicle at the instant: its access doesn't let the vehicle in, or one of its closures has
/// the minute. For each key of the vehicle's class it reads the clock in the arc's zone, which is logarithmic in the zone's rows,
/// and decides two conditional values; then it is linear in the arc's closures. It takes no memory.
pub fn closed_at(network: &Network, vehicle: &Vehicle, a: ArcId, t: Minute) -> bool
    requires low { 1 ≤ a.0 }
    requires high { a.0 ≤ length network.now.graph.arcs }
    requires instant { IsInstant t }
    ensures { result ≡ is_closed network.now vehicle.now a.0 t }
{
    !is_let_in_at(network, vehicle, a, t) || first_closure(network, a, t).is_some()
}
