// Costs to which each minute that is left until a last one adds a price, so that minutes can be compared.
ghost use Rattle.std.specs.Prelude.{◌≡◌, ◌+◌, ◌-◌, ◌^◌, ◌<◌, ◌≤◌, ℕ, min, length, IfSome, IsTrue};
ghost use Rattle.cost_functions.specs.Lines.{line_at, IsPiece};
ghost use Rattle.cost_functions.specs.Pieces.{value_at, ArePieces};
ghost use Rattle.ruled_search.specs.Inside.Charges.{charged as charge, IsChargedWithin};

use cost_functions::Piece;
use route_base::{Cost, Minute};

// The price of a minute, and the last one.
#[derive(Clone, Copy)]
pub struct Charge {
    pub price: u64,
    pub until: Minute,
}

impl Charge {
    // A cost at a minute, charged; at most the greatest number.
    #[inline(always)]
    pub fn of(self, t: Minute, cost: Cost) -> u64
        ensures { result ≡ min (charge self.price self.until t cost) (2 ^ 64 - 1) }
    {
        let left = self.until.saturating_sub(t);
        cost.saturating_add(self.price.saturating_mul(left))
    }

    // No charged cost of the piece from minute `lo` to `hi`, which it has, is more.
    fn most_on(self, piece: Piece, lo: Minute, hi: Minute) -> u64
        requires piece { IsPiece piece }
        requires low { piece.lo ≤ lo }
        requires filled { lo ≤ hi }
        requires high { hi ≤ piece.hi }
        requires until { hi ≤ self.until }
        ensures { result < 2 ^ 64 - 1 → (u : ℕ) → lo ≤ u → u ≤ hi
            → charge self.price self.until u (line_at piece u) ≤ result }
    {
        let first = self.of(lo, piece.value(lo));
        let last = self.of(hi, piece.value(hi));
        first.max(last)
    }

    // Whether each charged cost of the piece is more than that, with something added.
    pub fn is_above(self, piece: Piece, added: u64, most: u64) -> bool
        requires piece { IsPiece piece }
        ensures { IsTrue result → (t : ℕ) → piece.lo ≤ t → t ≤ piece.hi
            → (t ≤ self.until) × (most < charge self.price self.until t (line_at piece t) + added) }
    {
        if piece.hi > self.until {
            return false;
        }
        let first = self.of(piece.lo, piece.value(piece.lo));
        let last = self.of(piece.hi, piece.value(piece.hi));
        first.saturating_add(added) > most && last.saturating_add(added) > most
    }

    // What no charged cost from minute `lo` to `hi` is more than; none where there is a minute without a value.
    pub fn most_within(self, pieces: &[Piece], lo: Minute, hi: Minute) -> Option<u64>
        requires pieces { ArePieces pieces.now }
        requires until { hi ≤ self.until }
        ensures { IfSome result (λ most. (u : ℕ) → lo ≤ u → u ≤ hi
            → IsChargedWithin self.price self.until (value_at pieces.now) most u) }
    {
        let mut next = lo;
        let mut most: u64 = 0;
        let mut left = pieces;
        'pieces: while let [piece, rest @ ..] = left {
            if hi < next {
                return found(most);
            }
            if next <= piece.hi {
                if next < piece.lo {
                    return None;
                }
                most = most.max(self.most_on(*piece, next, hi.min(piece.hi)));
                next = piece.hi + 1;
            }
            left = rest;
        }
        if hi < next { found(most) } else { None }
    }
}

// A number that isn't the greatest.
#[inline(always)]
fn found(most: u64) -> Option<u64>
    ensures { IfSome result (λ m. (m ≡ most) × (most < 2 ^ 64 - 1)) }
{
    if most == u64::MAX { None } else { Some(most) }
}
