// Functions shifted and pruned in one sweep.
ghost use Rattle.std.specs.Prelude.{◌≡◌, ◌+◌, ◌-◌, ◌<◌, ◌≤◌, ℕ, max, Option, Some, None, All, IfOk, OnOk, length};
ghost use Rattle.route_base.specs.Front.{RiseAndFall};
ghost use Rattle.route_base.specs.declared.limits.TheConstants.{LAST_INSTANT, HIGHEST_COST};
ghost use Rattle.cost_functions.specs.Lines.{line_at, IsPiece, IsSmallPiece};
ghost use Rattle.cost_functions.specs.Pieces.{value_at, ArePieces};
ghost use Rattle.route_base.specs.Runs.{AreRuns};
ghost use Rattle.cost_functions.specs.Building.{AreBuilt};
ghost use Rattle.function_merge.specs.Moves.{kept_at, moved_at, CanMove};
ghost use Rattle.function_merge.specs.Pruning.{IsPruned};
ghost use Rattle.function_merge.specs.Inside.Prefixes.{HaveArrived, IsPrunedUpTo};

use crate::pruning::{add_before, arrived_at, clear_until, pass_arrived};
use crate::suffixes::{pieces_from, pieces_since, runs_from, runs_since};
use cost_functions::{Builder, CostFn, Piece};
use minute_sets::MinuteSet;
use route_base::{Bound, Cost, Minute, OutOfMemory, Pair, Run};

/// The function of `shift` without its points that are late or dominated, as by `prune`. One sweep, and memory for the pieces that
/// stay.
pub fn shift_and_prune(
    spare: CostFn,
    f: &CostFn,
    entries: &MinuteSet,
    minutes: u64,
    cost: Cost,
    until: Minute,
    pairs: &[Pair],
    bound: Bound,
) -> Result<CostFn, OutOfMemory>
    requires fit { CanMove minutes cost (kept_at f.now entries.now) }
    requires trade { RiseAndFall pairs.now }
    ensures values { IfOk result (λ g. IsPruned until pairs.now bound
        (moved_at minutes cost (kept_at f.now entries.now)) (value_at g)) }
    ensures built { IfOk result AreBuilt }
{
    shift_over_runs(
        spare,
        f.pieces(),
        entries.runs(),
        minutes,
        cost,
        until,
        pairs,
        bound,
    )
}

/// The same for the pieces of a function and for runs that may lie anywhere, in a set or on the stack.
pub fn shift_over_runs(
    spare: CostFn,
    pieces: &[Piece],
    runs: &[Run],
    minutes: u64,
    cost: Cost,
    until: Minute,
    pairs: &[Pair],
    bound: Bound,
) -> Result<CostFn, OutOfMemory>
    requires fit { CanMove minutes cost (kept_at pieces.now runs.now) }
    requires pieces { ArePieces pieces.now }
    requires runs { AreRuns runs.now }
    requires trade { RiseAndFall pairs.now }
    ensures values { IfOk result (λ g. IsPruned until pairs.now bound
        (moved_at minutes cost (kept_at pieces.now runs.now)) (value_at g)) }
    ensures built { IfOk result AreBuilt }
{
    let mut built = Builder::again(spare);
    let mut from = first_common(pieces, runs);
    let begin = from.saturating_add(minutes);
    let mut arrived = arrived_at(pairs, begin, bound);
    let mut left = pieces_since(pieces, from);
    let mut open = runs_since(runs, from);
    'sweep: while let [piece, ..] = left {
        let [run, ..] = open else {
            break;
        };
        let lo = from.max(piece.lo).max(run.lo);
        let end = run.hi.min(piece.hi + 1);
        arrived = add_moved(
            &mut built, *piece, lo, end, minutes, cost, until, pairs, arrived, bound,
        )?;
        from = lo.max(end);
        left = pieces_from(left, from);
        open = runs_from(open, from);
    }
    Ok(built.finish())
}

// A minute before which no minute of the runs has a value.
fn first_common(pieces: &[Piece], runs: &[Run]) -> Minute
    requires pieces { ArePieces pieces.now }
    requires runs { AreRuns runs.now }
    ensures { (t : ℕ) → t < result → kept_at pieces.now runs.now t ≡ None }
{
    match pieces {
        [piece, ..] => match runs {
            [run, ..] => piece.lo.max(run.lo),
            [] => 0,
        },
        [] => 0,
    }
}

// Adds what stays of a piece from `lo` on and before `end`, `minutes` later and at a cost, and returns the number of pairs that have
// arrived.
fn add_moved(
    built: &mut Builder,
    piece: Piece,
    lo: Minute,
    end: Minute,
    minutes: u64,
    cost: Cost,
    until: Minute,
    pairs: &[Pair],
    arrived: usize,
    bound: Bound,
) -> Result<usize, OutOfMemory>
    requires piece { IsPiece piece }
    requires trade { RiseAndFall pairs.now }
    requires from { piece.lo ≤ lo }
    requires upto { end ≤ piece.hi + 1 }
    requires minutes { lo < end → end + minutes ≤ LAST_INSTANT + 1 }
    requires small { lo < end → line_at piece (end - 1) + cost ≤ HIGHEST_COST }
    requires within { arrived ≤ length pairs.now }
    requires arrived { HaveArrived bound (lo + minutes) pairs.now arrived }
    requires later { All (λ q. q.hi < lo + minutes) built.old }
    ensures within { IfOk result (λ n. n ≤ length pairs.now) }
    ensures arrived { IfOk result (HaveArrived bound (lo + minutes) pairs.now) }
    ensures pruned { OnOk result ((wanted : ℕ → Option ℕ)
        → IsPrunedUpTo until pairs.now bound wanted built.old (lo + minutes)
        → ((t : ℕ) → lo ≤ t → t < end → wanted (t + minutes) ≡ Some (line_at piece t + cost))
        → IsPrunedUpTo until pairs.now bound wanted built.new (max lo end + minutes)) }
{
    if end <= lo {
        return Ok(arrived);
    }
    let part = moved_part(piece, lo, end, minutes, cost);
    let count = pass_arrived(pairs, arrived, part.lo, bound);
    let stop = clear_until(part, until, pairs, count, bound);
    add_before(built, part, stop)?;
    Ok(count)
}

// The piece from `lo` on and before `end`, `minutes` later and at a cost.
fn moved_part(piece: Piece, lo: Minute, end: Minute, minutes: u64, cost: Cost) -> Piece
    requires piece { IsPiece piece }
    requires from { piece.lo ≤ lo }
    requires some { lo < end }
    requires upto { end ≤ piece.hi + 1 }
    requires minutes { end + minutes ≤ LAST_INSTANT + 1 }
    requires small { line_at piece (end - 1) + cost ≤ HIGHEST_COST }
    ensures piece { IsPiece result }
    ensures small { IsSmallPiece result }
    ensures lo { result.lo ≡ lo + minutes }
    ensures hi { result.hi + 1 ≡ end + minutes }
    ensures line { (t : ℕ) → lo ≤ t → t < end
        → line_at result (t + minutes) ≡ line_at piece t + cost }
{
    let slope = if lo + 1 < end { piece.slope } else { 0 };
    Piece {
        lo: lo + minutes,
        hi: end - 1 + minutes,
        cost: piece.value(lo) + cost,
        slope,
    }
}
