// The sixth condition: the values at the goal.
ghost use Rattle.std.specs.Prelude.{◌≡◌, ◌↔◌, Some, ℕ, IsTrue};
ghost use Rattle.route_base.specs.Front.{RiseAndFall};
ghost use Rattle.route_base.specs.Relaxing.{HasPair};
ghost use Rattle.cost_functions.specs.Pieces.{value_at, ArePieces};

use crate::domination::has_pair;
use cost_functions::Piece;
use route_base::Pair;

/// Whether for each value of the pieces some pair arrives no later and costs no more. One binary search for each piece, since
/// its first minute is the earliest and cheapest; no memory.
pub fn is_goal_covered(pairs: &[Pair], pieces: &[Piece]) -> bool
    requires pairs { RiseAndFall pairs.now }
    requires pieces { ArePieces pieces.now }
    ensures { IsTrue result ↔ ((t x : ℕ) → value_at pieces.now t ≡ Some x → HasPair pairs.now t x) }
{
    for piece in pieces {
        if !has_pair(pairs, piece.lo, piece.cost) {
            return false;
        }
    }
    true
}
