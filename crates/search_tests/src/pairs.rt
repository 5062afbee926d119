// Compares the pairs of two lists of routes.
ghost use Rattle.std.specs.Prelude.{◌≡◌, IsTrue, false};
ghost use Rattle.route_base.specs.Front.{pairs_of};

use route_base::Route;

/// Whether two lists of routes have the same pairs in the same order. Linear in the shorter list, without memory.
pub fn have_same_pairs(first: &[Route], second: &[Route]) -> bool
    ensures same { IsTrue result → pairs_of first.now ≡ pairs_of second.now }
    ensures other { result ≡ false → pairs_of first.now ≡ pairs_of second.now → ⊥ }
{
    let mut left = first;
    let mut right = second;
    'pairs: while let [route, more @ ..] = left {
        let [other, rest @ ..] = right else {
            return false;
        };
        if route.pair != other.pair {
            return false;
        }
        left = more;
        right = rest;
    }
    right.is_empty()
}
