// The first condition: the order of the pairs.
ghost use Rattle.std.specs.Prelude.{◌≡◌, ◌↔◌, IsTrue, IfOk};
ghost use Rattle.route_base.specs.Front.{Trades, pairs_of};
ghost use Rattle.certificate_check.specs.Conditions.{AreOrderedPairs};

use route_base::{Minute, OutOfMemory, Pair, Route};
use std::alloc::Global;

/// The pairs of the routes. Linear in their number, in time and memory.
pub fn pairs_of_routes(alloc: Global, routes: &[Route]) -> Result<Vec<Pair>, OutOfMemory>
    ensures { IfOk result (λ pairs. pairs.items ≡ pairs_of routes.now) }
{
    let mut pairs = Vec::new(alloc);
    for route in routes {
        pairs.push(route.pair)?;
    }
    Ok(pairs)
}

/// Whether the pairs rise in arrival and fall in cost, and none arrives after `until`. Linear in their number; no memory.
pub fn are_ordered(until: Minute, pairs: &[Pair]) -> bool
    ensures { IsTrue result ↔ AreOrderedPairs until pairs.now }
{
    for i in 0..pairs.len() {
        if until < pairs[i].arrival {
            return false;
        }
        if 0 < i && !trades(pairs[i - 1], pairs[i]) {
            return false;
        }
    }
    true
}

// Whether the second pair is later and cheaper.
fn trades(first: Pair, second: Pair) -> bool
    ensures { IsTrue result ↔ Trades first second }
{
    first.arrival < second.arrival && second.cost < first.cost
}
