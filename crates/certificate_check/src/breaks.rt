// Breaks: the minutes at which an answer may change.
ghost use Rattle.std.specs.Prelude.{◌≡◌, ◌+◌, ◌*◌, ◌-◌, ◌<◌, ◌≤◌, ℕ, None, IfSome};
ghost use Rattle.route_base.specs.Runs.{AreRuns, IsFree};
ghost use Rattle.cost_functions.specs.Pieces.{ArePieces};
ghost use Rattle.certificate_check.specs.Inside.Passing.{HasValueWithin};

use crate::lookup::piece_at;
use cost_functions::Piece;
use route_base::{Cost, Minute, Run};

/// Where no stay of `minutes` minutes can begin at t, a later minute before which none can either: the end of a closed run.
/// `None` only where one can begin at t. One binary search.
pub fn closed_until(runs: &[Run], t: Minute, minutes: u64) -> Option<Minute>
    requires runs { AreRuns runs.now }
    requires some { 1 ≤ minutes }
    ensures some { IfSome result (λ end. t < end) }
    ensures closed { IfSome result (λ end. (s : ℕ) → t ≤ s → s < end
        → IsFree runs.now s minutes → ⊥) }
    ensures none { result ≡ None → IsFree runs.now t minutes }
{
    let later = runs.partition_point(|run| run.hi <= t);
    let run = *runs.get(later)?;
    if minutes <= run.lo.saturating_sub(t) {
        None
    } else {
        Some(run.hi)
    }
}

/// Where the pieces have a value at t that is no higher than a line with this cost there and this slope, a later minute before
/// which their values stay so: behind the piece's end, or where the lines cross. `None` only where they have no such value at
/// t. One binary search.
pub fn within_until(pieces: &[Piece], t: Minute, cost: Cost, slope: u64) -> Option<Minute>
    requires { ArePieces pieces.now }
    ensures some { IfSome result (λ end. t < end) }
    ensures within { IfSome result (λ end. (s : ℕ) → t ≤ s → s < end
        → HasValueWithin pieces.now s (cost + slope * (s - t))) }
    ensures none { result ≡ None → HasValueWithin pieces.now t cost → ⊥ }
{
    let piece = piece_at(pieces, t)?;
    let here = piece.value(t);
    if cost < here {
        return None;
    }
    let held = held_for(cost - here, piece.slope, slope, piece.hi - t);
    Some(t + held + 1)
}

// The number of minutes, at most `most`, for which a line of this slope stays within `slack` of a line of the slope `other`.
fn held_for(slack: u64, slope: u64, other: u64, most: u64) -> u64
    ensures most { result ≤ most }
    ensures held { (x : ℕ) → x ≤ result → slope * x ≤ slack + other * x }
{
    if slope <= other {
        most
    } else {
        most.min(slack / (slope - other))
    }
}
