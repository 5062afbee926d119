// Pieces of cost functions.
ghost use Rattle.std.specs.Prelude.{◌≡◌, ◌+◌, ◌*◌, ◌-◌, ◌<◌, ◌≤◌, ℕ, IfSome};
ghost use Rattle.cost_functions.specs.Lines.{line_at, IsPiece, AreOneLine};

use route_base::{Cost, Minute};

/// The minutes from `lo` to `hi`, both included, with the cost `cost + slope * (t - lo)` at minute t, in thousandths. The slope is
/// the cost of one minute more, 0 for a piece of one minute.
#[derive(Clone, Copy, Debug, PartialEq, Eq)]
pub struct Piece {
    pub lo: Minute,
    pub hi: Minute,
    pub cost: Cost,
    pub slope: u64,
}

impl Piece {
    /// The cost at a minute of the piece, and `cost` before it. In constant time.
    pub fn value(self, t: Minute) -> Cost
        requires piece { IsPiece self }
        requires within { t ≤ self.hi }
        ensures { result ≡ line_at self t }
    {
        self.cost + self.slope * t.saturating_sub(self.lo)
    }
}

// The slope of the line that both pieces are on, where the second begins right behind the first; `None` where there is no such
// line.
pub fn common_slope(first: Piece, second: Piece) -> Option<u64>
    requires first { IsPiece first }
    requires second { IsPiece second }
    ensures some { IfSome result (AreOneLine first second) }
    ensures none { result ≡ None → (slope : ℕ) → AreOneLine first second slope → ⊥ }
{
    if first.hi + 1 != second.lo {
        return None;
    }
    let slope = if first.lo < first.hi {
        first.slope
    } else if second.lo < second.hi {
        second.slope
    } else {
        second.cost.checked_sub(first.cost)?
    };
    let length = second.lo - first.lo;
    let fits = second.cost == first.cost + slope * length;
    let rises = second.lo == second.hi || second.slope == slope;
    if fits && rises { Some(slope) } else { None }
}
