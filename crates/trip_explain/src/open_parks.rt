// The minutes at which one may wait at a node.
ghost use Rattle.std.specs.Prelude.{◌≡◌, ◌≤◌, ◌<◌, None, IfSome, true, ℕ};
ghost use Rattle.route_base.specs.Time.{IsInstant, first_instant, last_instant};
ghost use Rattle.network_tables.specs.Access.{is_park_open};
ghost use Rattle.network_tables.specs.NetworkModel.{park_of};
ghost use Rattle.trip_explain.specs.Inside.{IsShutFirst};

use network_tables::{Network, is_wait_open};
use route_base::{Minute, NodeId};

// The first minute from `from` on, before `end`, at which waiting at a node isn't open.
pub fn first_shut(network: &Network, v: NodeId, from: Minute, end: Minute) -> Option<Minute>
    requires instant { first_instant ≤ from }
    requires end { end ≤ last_instant }
    ensures some { IfSome result (IsShutFirst network.now v.0 from end) }
    ensures none { result ≡ None → (u : ℕ) → from ≤ u → u < end
        → is_park_open network.now (park_of network.now v.0) u ≡ true }
{
    for t in from..end {
        if !is_wait_open(network, v, t) {
            return Some(t);
        }
    }
    None
}
