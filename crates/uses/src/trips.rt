// Itineraries: whether legs are lawful.
ghost use Rattle.std.specs.Prelude.{◌≡◌, ℕ, true, false};
ghost use Rattle.route_base.specs.Net.{IsGoodRequest, setting_of};
ghost use Rattle.route_base.specs.Legs.{Achieves};
ghost use Rattle.route_base.specs.Replay.{FailsAt};
ghost use Rattle.route_base.specs.declared.types.Pair.{Pair};

use route_base::{Leg, Request, TimedNet, replay};

/// Whether the legs lead lawfully from the origin to the goal. It costs one binary search per leg.
pub fn is_lawful(net: &TimedNet, request: Request, legs: &[Leg]) -> bool
    requires { IsGoodRequest net.now request }
    ensures lawful { result ≡ true → (pair : Pair)
        × Achieves (setting_of net.now) request legs.now pair }
    ensures unlawful { result ≡ false → (index : ℕ)
        × FailsAt (setting_of net.now) request legs.now index }
{
    match replay(net, request, legs) {
        Ok(_) => true,
        Err(_) => false,
    }
}
