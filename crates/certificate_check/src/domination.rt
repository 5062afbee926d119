// Positions that are dominated or late.
ghost use Rattle.std.specs.Prelude.{◌↔◌, ◌<◌, ◌^◌, IsTrue};
ghost use Rattle.route_base.specs.Front.{RiseAndFall};
ghost use Rattle.route_base.specs.Relaxing.{HasPair, IsDominatedOrLate};
ghost use Rattle.certificate_check.specs.Inside.Passing.{IsBoundInRange, goal_point};

use route_base::{Bound, Cost, Minute, Pair};

/// Whether some pair arrives by t and costs at most x. One binary search, since the last pair that arrives by t is the
/// cheapest of those; no memory.
pub fn has_pair(pairs: &[Pair], t: Minute, x: Cost) -> bool
    requires { RiseAndFall pairs.now }
    ensures { IsTrue result ↔ HasPair pairs.now t x }
{
    let later = pairs.partition_point(|pair| pair.arrival <= t);
    if later == 0 {
        return false;
    }
    pairs[later - 1].cost <= x
}

/// Whether a position at minute t with the cost x is dominated or late, where its node has these bounds. One binary search; no
/// memory.
pub fn is_dominated_or_late(
    until: Minute,
    pairs: &[Pair],
    bound: Option<Bound>,
    t: Minute,
    x: Cost,
) -> bool
    requires pairs { RiseAndFall pairs.now }
    requires bound { IsBoundInRange bound }
    requires minute { t < 2 ^ 62 }
    requires cost { x < 2 ^ 62 }
    ensures { IsTrue result ↔ IsDominatedOrLate until pairs.now bound (goal_point t x) }
{
    match bound {
        None => true,
        Some(bound) => {
            until < t + bound.minutes || has_pair(pairs, t + bound.minutes, x + bound.cost)
        }
    }
}
