// The second condition: the legs of the pairs.
ghost use Rattle.std.specs.Prelude.{◌≡◌, ◌↔◌, IsTrue};
ghost use Rattle.route_base.specs.Net.{setting_of, IsGoodRequest};
ghost use Rattle.route_base.specs.Legs.{Achieves};
ghost use Rattle.certificate_check.specs.Conditions.{AreAchieved};

use route_base::{Leg, Pair, Request, Route, TimedNet, replay};

/// Whether each route's legs are lawful and achieve its pair. One binary search in the closed runs of an arc for each leg; no
/// memory.
pub fn are_achieved(net: &TimedNet, request: Request, routes: &[Route]) -> bool
    requires { IsGoodRequest net.now request }
    ensures { IsTrue result ↔ AreAchieved (setting_of net.now) request routes.now }
{
    for route in routes {
        if !is_achieved(net, request, route.legs.as_slice(), route.pair) {
            return false;
        }
    }
    true
}

// Whether the legs are lawful and achieve the pair.
fn is_achieved(net: &TimedNet, request: Request, legs: &[Leg], pair: Pair) -> bool
    requires { IsGoodRequest net.now request }
    ensures { IsTrue result ↔ Achieves (setting_of net.now) request legs.now pair }
{
    match replay(net, request, legs) {
        Ok(found) => are_same(found, pair),
        Err(_) => false,
    }
}

// Whether the two are one pair.
fn are_same(first: Pair, second: Pair) -> bool
    ensures { IsTrue result ↔ (first ≡ second) }
{
    first.arrival == second.arrival && first.cost == second.cost
}
