// Functions with waits.
ghost use Rattle.std.specs.Prelude.{◌≡◌, ◌+◌, ◌*◌, ◌<◌, ◌≤◌, ℕ, Option, Some, None, min, IfOk, IfSome};
ghost use Rattle.cost_functions.specs.Lines.{line_at, IsPiece, IsSmallPiece};
ghost use Rattle.cost_functions.specs.Pieces.{value_at, AreSmallPieces};
ghost use Rattle.cost_functions.specs.Building.{AreBuilt};
ghost use Rattle.route_base.specs.Runs.{any_has, AreRuns};
ghost use Rattle.route_base.specs.declared.limits.TheConstants.{LAST_INSTANT, HIGHEST_COST};
ghost use Rattle.function_merge.specs.Waits.{IsAllowed, IsLeastWait, CanWait};
ghost use Rattle.function_merge.specs.Inside.CarriedWaits.{waited_at, carried_to};
ghost use Rattle.function_merge.specs.Inside.NextWaits.{IsNextWait, IsNextFor, IsNoneLeft};
ghost use Rattle.function_merge.specs.Inside.Suffixes.{AreLeftFrom};

use crate::suffixes::{find_runs, skip_pieces};
use cost_functions::{Builder, CostFn, Piece, held_for};
use minute_sets::{MinuteSet, Stretch, stretch_at};
use route_base::{Cost, Minute, OutOfMemory, Run, is_free};
use std::alloc::Global;

/// The function that has at each minute up to `until` the least cost of a value of f at it or before and of the wait since then, at
/// `weight` thousandths a minute, and no value afterwards. A wait is allowed at the minutes of `allowed` alone. Linear in the number
/// of pieces and of the runs of `allowed`, in time and memory, but for a binary search in the runs for each.
pub fn wait(
    alloc: Global,
    f: &CostFn,
    weight: Cost,
    allowed: &MinuteSet,
    until: Minute,
) -> Result<CostFn, OutOfMemory>
    requires small { AreSmallPieces f.now }
    requires weight { weight ≤ HIGHEST_COST }
    requires until { until ≤ LAST_INSTANT }
    requires fit { CanWait (value_at f.now) (any_has allowed.now) weight until }
    ensures values { IfOk result (λ waited. (t : ℕ) →
        t ≤ until → IsLeastWait (value_at f.now) (any_has allowed.now) weight t (value_at waited t)) }
    ensures ended { IfOk result (λ waited. (t : ℕ) → until < t → value_at waited t ≡ None) }
    ensures built { IfOk result AreBuilt }
{
    wait_with_spare(CostFn::empty(alloc), f, weight, allowed, until)
}

/// The same as `wait`, built in the memory of `spare`, which may be any function.
pub fn wait_with_spare(
    spare: CostFn,
    f: &CostFn,
    weight: Cost,
    allowed: &MinuteSet,
    until: Minute,
) -> Result<CostFn, OutOfMemory>
    requires small { AreSmallPieces f.now }
    requires weight { weight ≤ HIGHEST_COST }
    requires until { until ≤ LAST_INSTANT }
    requires fit { CanWait (value_at f.now) (any_has allowed.now) weight until }
    ensures values { IfOk result (λ waited. (t : ℕ) →
        t ≤ until → IsLeastWait (value_at f.now) (any_has allowed.now) weight t (value_at waited t)) }
    ensures ended { IfOk result (λ waited. (t : ℕ) → until < t → value_at waited t ≡ None) }
    ensures built { IfOk result AreBuilt }
{
    let mut built = Builder::again(spare);
    let mut left = f.pieces();
    let runs = allowed.runs();
    let mut from: Minute = 0;
    let mut carried = None;
    'sweep: while let Some(piece) = next_wait(left, runs, from, carried, weight, until) {
        built.push(piece)?;
        carried = cost_behind(piece, runs, weight);
        from = piece.hi + 1;
        left = skip_pieces(left, from);
    }
    Ok(built.finish())
}

// The cost of waiting on for a minute at the end of the piece, if that is allowed.
fn cost_behind(piece: Piece, runs: &[Run], weight: Cost) -> Option<Cost>
    requires filled { piece.lo ≤ piece.hi }
    requires small { IsSmallPiece piece }
    requires weight { weight ≤ HIGHEST_COST }
    requires runs { AreRuns runs.now }
    ensures { (values : ℕ → Option ℕ)
        → waited_at values (any_has runs.now) weight piece.hi ≡ Some (line_at piece piece.hi)
        → carried_to values (any_has runs.now) weight (piece.hi + 1) ≡ result }
{
    if is_free(runs, piece.hi, 1) {
        return None;
    }
    Some(last_value(piece) + weight)
}

// The cost at the last minute of the piece.
fn last_value(piece: Piece) -> Cost
    requires filled { piece.lo ≤ piece.hi }
    requires small { IsSmallPiece piece }
    ensures { result ≡ line_at piece piece.hi }
{
    piece.cost + piece.slope * (piece.hi - piece.lo)
}

// The minutes from one on at which waiting is allowed, or at which it isn't.
fn stretch_from(runs: &[Run], from: Minute) -> Stretch
    requires { AreRuns runs.now }
    ensures same { (t : ℕ) → from ≤ t → t < result.until → any_has runs.now t ≡ result.inside }
    ensures later { from ≤ result.until }
{
    stretch_at(find_runs(runs, from), from)
}

// The last minute, up to another, until which a wait from this one on can last: this one, where waiting isn't allowed.
fn last_to_wait(runs: &[Run], from: Minute, until: Minute) -> Minute
    requires runs { AreRuns runs.now }
    requires until { from ≤ until }
    ensures from { from ≤ result }
    ensures upto { result ≤ until }
    ensures allowed { IsAllowed (any_has runs.now) from result }
{
    let stretch = stretch_from(runs, from);
    if stretch.inside {
        until.min(stretch.until)
    } else {
        from
    }
}

// The next piece of the function with waits from a minute on, where `carried` is the cost of waiting until that minute.
fn next_wait(
    left: &[Piece],
    runs: &[Run],
    from: Minute,
    carried: Option<Cost>,
    weight: Cost,
    until: Minute,
) -> Option<Piece>
    requires left { AreLeftFrom from left.now }
    requires runs { AreRuns runs.now }
    ensures some { IfSome result (IsNextFor left.now (any_has runs.now) from carried weight until) }
    ensures none { result ≡ None
        → IsNoneLeft left.now (any_has runs.now) from carried weight until }
{
    if until < from {
        return None;
    }
    if let Some(cost) = carried {
        let last = last_to_wait(runs, from, until);
        return Some(wait_on(left, runs, from, cost, weight, last));
    }
    let [piece, ..] = left else { return None };
    let lo = from.max(piece.lo);
    if until < lo {
        return None;
    }
    Some(first_wait(*piece, runs, lo, weight, until))
}

// The next piece from a minute of a piece on, where there is no cost of waiting.
fn first_wait(piece: Piece, runs: &[Run], lo: Minute, weight: Cost, until: Minute) -> Piece
    requires piece { IsPiece piece }
    requires runs { AreRuns runs.now }
    requires from { piece.lo ≤ lo }
    requires upto { lo ≤ piece.hi }
    requires until { lo ≤ until }
    ensures { (values : ℕ → Option ℕ)
        → ((t : ℕ) → lo ≤ t → t ≤ piece.hi → values t ≡ Some (line_at piece t))
        → carried_to values (any_has runs.now) weight lo ≡ None
        → IsNextWait values (any_has runs.now) weight lo until result }
{
    let stretch = stretch_from(runs, lo);
    let last = until.min(stretch.until);
    if stretch.inside {
        own_line(piece, lo, weight, last)
    } else {
        own_line(piece, lo, piece.slope, last)
    }
}

// The next piece where there is a cost of waiting, and waiting is allowed up to a minute.
fn wait_on(
    left: &[Piece],
    runs: &[Run],
    from: Minute,
    cost: Cost,
    weight: Cost,
    until: Minute,
) -> Piece
    requires left { AreLeftFrom from left.now }
    requires until { from ≤ until }
    requires allowed { IsAllowed (any_has runs.now) from until }
    ensures { IsNextFor left.now (any_has runs.now) from (Some cost) weight until result }
{
    let [piece, ..] = left else {
        return Piece {
            lo: from,
            hi: until,
            cost,
            slope: weight,
        };
    };
    if from < piece.lo {
        return Piece {
            lo: from,
            hi: until.min(piece.lo - 1),
            cost,
            slope: weight,
        };
    }
    let here = piece.value(from);
    if here <= cost {
        return own_line(*piece, from, weight, until);
    }
    let most = until.min(piece.hi) - from;
    let held = held_for(here - cost - 1, weight, piece.slope, most);
    Piece {
        lo: from,
        hi: from + held,
        cost,
        slope: weight,
    }
}

// The piece from `lo` on up to `until`; where it is steeper than the weight, a line of this slope from its value at `lo`.
fn own_line(piece: Piece, lo: Minute, weight: Cost, until: Minute) -> Piece
    requires piece { IsPiece piece }
    requires from { piece.lo ≤ lo }
    requires upto { lo ≤ piece.hi }
    requires until { lo ≤ until }
    ensures { result ≡ record {
      lo = lo;
      hi = min piece.hi until;
      cost = line_at piece lo;
      slope = min piece.slope weight;
    } }
{
    Piece {
        lo,
        hi: piece.hi.min(until),
        cost: piece.value(lo),
        slope: piece.slope.min(weight),
    }
}
