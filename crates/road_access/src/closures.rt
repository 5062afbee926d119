// The closures of an arc that have a minute.
ghost use Rattle.std.specs.Prelude.{◌≡◌, ◌≤◌, ◌<◌, ◌+◌, ◌^◌, None, false, length, IfSome};
ghost use Rattle.route_base.specs.Runs.{any_has, has_minute};
ghost use Rattle.network_tables.specs.NetworkModel.{closures_of};
ghost use Rattle.road_access.specs.Closures.{IsFirstRun};

use network_tables::Network;
use route_base::{ArcId, Minute, Run};

fn is_within(run: Run, t: Minute) -> bool
    ensures { result ≡ has_minute t run }
{
    run.lo <= t && t < run.hi
}

/// The place, from 0, of the arc's first closure that has the minute. Linear in the arc's closures.
pub fn first_closure(network: &Network, a: ArcId, t: Minute) -> Option<usize>
    requires low { 1 ≤ a.0 }
    requires high { a.0 ≤ length network.now.graph.arcs }
    ensures some { IfSome result (IsFirstRun (closures_of network.now a.0) t) }
    ensures below { IfSome result (λ k. k + 1 < 2 ^ 64) }
    ensures none { result ≡ None → any_has (closures_of network.now a.0) t ≡ false }
{
    for k in 0..network.closure_count(a) {
        if is_within(network.closure(a, k), t) {
            return Some(k);
        }
    }
    None
}
