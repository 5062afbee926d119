// Closed minutes: whether an arc is open for a drive.
ghost use Rattle.std.specs.Prelude.{◌≡◌, ◌↔◌, ◌+◌, ◌<◌, ◌≤◌, ℕ, false, length, IsTrue, IfOk};
ghost use Rattle.network_tables.specs.Access.{is_closed};
ghost use Rattle.route_base.specs.declared.limits.TheConstants.{FIRST_INSTANT, LAST_INSTANT};

use ban_expansion::closed_set;
use network_tables::Network;
use route_base::{ArcId, Minute, OutOfMemory, Run, is_free};
use std::alloc::Global;
use vehicle_classes::Vehicle;

/// Whether an arc is open to a vehicle at each of the `minutes` minutes from an instant on. It takes the time and memory of
/// `closed_set` over these minutes.
pub fn is_open_for(
    alloc: Global,
    network: &Network,
    vehicle: &Vehicle,
    a: ArcId,
    t: Minute,
    minutes: u64,
) -> Result<bool, OutOfMemory>
    requires low { 1 ≤ a.0 }
    requires high { a.0 ≤ length network.now.graph.arcs }
    requires some { 1 ≤ minutes }
    requires from { FIRST_INSTANT ≤ t }
    requires upto { t + minutes ≤ LAST_INSTANT + 1 }
    ensures { IfOk result (λ answer. IsTrue answer ↔ ((u : ℕ) → t ≤ u → u < t + minutes
        → is_closed network.now vehicle.now a.0 u ≡ false)) }
{
    let window = Run {
        lo: t,
        hi: t + minutes,
    };
    let closed = closed_set(alloc, network, vehicle, a, window)?;
    Ok(is_free(closed.runs(), t, minutes))
}
