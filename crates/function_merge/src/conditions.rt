// Tests of what `shift` and `wait` require.
ghost use Rattle.std.specs.Prelude.{◌↔◌, ◌≤◌, ℕ, Bool, List, IsTrue, All};
ghost use Rattle.cost_functions.specs.Lines.{IsPiece};
ghost use Rattle.cost_functions.specs.Pieces.{value_at, ArePieces};
ghost use Rattle.route_base.specs.declared.limits.TheConstants.{LAST_INSTANT, HIGHEST_COST};
ghost use Rattle.route_base.specs.declared.types.Run.{Run};
ghost use Rattle.function_merge.specs.Moves.{kept_at, CanMove};
ghost use Rattle.function_merge.specs.Waits.{CanWait, CanWaitAnywhere};
ghost use Rattle.function_merge.specs.Inside.EndRanges.{EndsInRange, WaitsInRange};

use cost_functions::{CostFn, Piece};
use route_base::limits::{HIGHEST_COST, LAST_INSTANT};
use route_base::{Cost, Minute};

/// Whether each value of f can be shifted by the minutes and the cost, as `shift` requires of those at its entries. Linear in the
/// number of pieces; no memory.
pub fn can_shift(f: &CostFn, minutes: u64, cost: Cost) -> bool
    ensures values { IsTrue result ↔ CanMove minutes cost (value_at f.now) }
    ensures kept { IsTrue result
        → (entries : List Run) → CanMove minutes cost (kept_at f.now entries) }
{
    all_fit(f.pieces(), minutes, cost)
}

/// Whether waiting until `until` from all values of f stays in range, as `wait` requires, whatever minutes are allowed. The answer is
/// `false` also where it only might not: where the last value of a piece and a wait from the first minute of the piece are too much.
/// It is `true` where the value at no minute of f and a wait from that minute or an earlier one are too much. Linear in the number
/// of pieces; no memory.
pub fn can_wait(f: &CostFn, weight: Cost, until: Minute) -> bool
    requires weight { weight ≤ HIGHEST_COST }
    requires until { until ≤ LAST_INSTANT }
    ensures can { IsTrue result
        → (allowed : ℕ → Bool) → CanWait (value_at f.now) allowed weight until }
    ensures enough { CanWaitAnywhere (value_at f.now) weight until → IsTrue result }
{
    all_fit_wait(f.pieces(), weight, until)
}

// Whether the ends of all pieces stay in range, `minutes` later and at this cost.
fn all_fit(pieces: &[Piece], minutes: u64, cost: Cost) -> bool
    requires { ArePieces pieces.now }
    ensures { IsTrue result ↔ All (EndsInRange minutes cost) pieces.now }
{
    pieces.iter().all(|piece| fits(*piece, minutes, cost))
}

// Whether the ends of all pieces stay in range with a wait from their beginning.
fn all_fit_wait(pieces: &[Piece], weight: Cost, until: Minute) -> bool
    requires pieces { ArePieces pieces.now }
    requires weight { weight ≤ HIGHEST_COST }
    requires until { until ≤ LAST_INSTANT }
    ensures { IsTrue result ↔ All (WaitsInRange weight until) pieces.now }
{
    pieces.iter().all(|piece| fits_wait(*piece, weight, until))
}

fn fits_wait(piece: Piece, weight: Cost, until: Minute) -> bool
    requires piece { IsPiece piece }
    requires weight { weight ≤ HIGHEST_COST }
    requires until { until ≤ LAST_INSTANT }
    ensures { IsTrue result ↔ WaitsInRange weight until piece }
{
    let last = piece.value(piece.hi);
    last <= HIGHEST_COST && weight * until.saturating_sub(piece.lo) <= HIGHEST_COST - last
}

fn fits(piece: Piece, minutes: u64, cost: Cost) -> bool
    requires { IsPiece piece }
    ensures { IsTrue result ↔ EndsInRange minutes cost piece }
{
    let last = piece.value(piece.hi);
    minutes <= LAST_INSTANT - piece.hi && last <= HIGHEST_COST && cost <= HIGHEST_COST - last
}
