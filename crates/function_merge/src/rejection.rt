// A quick test that a shifted function is nowhere better than another.
ghost use Rattle.std.specs.Prelude.{◌≡◌, ◌+◌, ◌≤◌, ℕ, Some, IsTrue};
ghost use Rattle.route_base.specs.declared.limits.TheConstants.{LAST_INSTANT, HIGHEST_COST};
ghost use Rattle.cost_functions.specs.Lines.{line_at, IsPiece};
ghost use Rattle.cost_functions.specs.Pieces.{value_at, ArePieces};
ghost use Rattle.function_merge.specs.Rejection.{IsNoBetter};

use crate::suffixes::find_pieces;
use cost_functions::{CostFn, Piece};
use route_base::{Cost, Minute};

// The pieces of f that are looked at for one piece.
const MOST_LOOKED_AT: usize = 4;

/// Whether pieces of f show for each of the pieces that f is no larger `minutes` later than the piece at `cost` thousandths more: at both
/// ends of what they share with it. If so, the shifted pieces are nowhere better than f; else they may be. A search in f for each
/// piece, until one isn't shown so: mostly of a few pieces from the end of f, else a binary search; then a look at four pieces at most.
/// No memory.
pub fn is_shown_no_better(f: &CostFn, pieces: &[Piece], minutes: u64, cost: Cost) -> bool
    requires pieces { ArePieces pieces.now }
    requires minutes { minutes ≤ LAST_INSTANT }
    requires cost { cost ≤ HIGHEST_COST }
    ensures { IsTrue result → (t x : ℕ) → value_at pieces.now t ≡ Some x
        → IsNoBetter f.now (t + minutes) (x + cost) }
{
    for piece in pieces {
        if !is_covered(f.pieces(), *piece, minutes, cost) {
            return false;
        }
    }
    true
}

// Whether pieces of f have all minutes of the piece, shifted, with values that are shown to be no larger.
fn is_covered(f: &[Piece], piece: Piece, minutes: u64, cost: Cost) -> bool
    requires f { ArePieces f.now }
    requires piece { IsPiece piece }
    requires minutes { minutes ≤ LAST_INSTANT }
    requires cost { cost ≤ HIGHEST_COST }
    ensures { IsTrue result → (t : ℕ) → piece.lo ≤ t → t ≤ piece.hi
        → IsNoBetter f.now (t + minutes) (line_at piece t + cost) }
{
    let mut from: Minute = piece.lo;
    let mut left = find_pieces(f, from + minutes);
    let mut looked: usize = 0;
    'cover: while let [own, rest @ ..] = left {
        if looked >= MOST_LOOKED_AT {
            return false;
        }
        if !is_no_higher(*own, piece, from, minutes, cost) {
            return false;
        }
        looked += 1;
        if piece.hi + minutes <= own.hi {
            return true;
        }
        from = own.hi + 1 - minutes;
        left = rest;
    }
    false
}

// Whether a piece of f has the minute `from` of the piece, shifted, with a value that is no larger, and as far as both go on rises no more
// steeply or is no larger at the end.
fn is_no_higher(own: Piece, piece: Piece, from: Minute, minutes: u64, cost: Cost) -> bool
    requires own { IsPiece own }
    requires piece { IsPiece piece }
    requires minutes { minutes ≤ LAST_INSTANT }
    requires cost { cost ≤ HIGHEST_COST }
    requires from { piece.lo ≤ from }
    requires upto { from ≤ piece.hi }
    requires reach { from + minutes ≤ own.hi }
    ensures begins { IsTrue result → own.lo ≤ from + minutes }
    ensures low { IsTrue result → (t : ℕ) → from ≤ t → t ≤ piece.hi → t + minutes ≤ own.hi
        → line_at own (t + minutes) ≤ line_at piece t + cost }
{
    if from + minutes < own.lo {
        return false;
    }
    if piece.value(from) + cost < own.value(from + minutes) {
        return false;
    }
    if own.slope <= piece.slope {
        return true;
    }
    let last = piece.hi.min(own.hi - minutes);
    own.value(last + minutes) <= piece.value(last) + cost
}
