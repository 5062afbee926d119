// Functions without the points from which no better arrival can come.
ghost use Rattle.std.specs.Prelude.{◌≡◌, ◌+◌, ◌-◌, ◌<◌, ◌≤◌, ℕ, true, false, All, IfOk, OnOk, length, take, slice_index_or};
ghost use Rattle.std.specs.List.{AllWithin};
ghost use Rattle.route_base.specs.Front.{RiseAndFall};
ghost use Rattle.route_base.specs.declared.types.Pair.{Pair};
ghost use Rattle.cost_functions.specs.Lines.{line_at, IsPiece, IsSmallPiece};
ghost use Rattle.cost_functions.specs.Pieces.{value_at, ArePieces, AreSmallPieces};
ghost use Rattle.cost_functions.specs.Building.{AreBuilt};
ghost use Rattle.function_merge.specs.Pruning.{IsPruned};
ghost use Rattle.function_merge.specs.Inside.Prefixes.{stays_cheaper, IsUndominatedUntil, IsClearUntil};
ghost use Rattle.function_merge.specs.Inside.Prefixes.{HasPrefix, HaveArrived};

use cost_functions::{Builder, CostFn, Piece, held_for};
use route_base::{Bound, Cost, Minute, OutOfMemory, Pair};
use std::alloc::Global;

/// The function without its points that are late or dominated, for a node with this bound to the goal: from a late point the goal
/// is out of reach by `until`, and from a dominated one it is reached no earlier and no cheaper than one of the pairs says. Along a
/// piece neither minutes nor costs fall, so a prefix of each piece stays. Linear in the number of pieces and of pairs, where no
/// piece has many pairs that arrive while it lasts and is still cheaper; memory for the pieces that stay.
pub fn prune(
    alloc: Global,
    f: &CostFn,
    until: Minute,
    pairs: &[Pair],
    bound: Bound,
) -> Result<CostFn, OutOfMemory>
    requires trade { RiseAndFall pairs.now }
    requires small { AreSmallPieces f.now }
    ensures values { IfOk result (λ g.
        IsPruned until pairs.now bound (value_at f.now) (value_at g)) }
    ensures built { IfOk result AreBuilt }
{
    let mut built = Builder::new(alloc);
    let mut arrived = 0;
    for piece in f.pieces() {
        arrived = pass_arrived(pairs, arrived, piece.lo, bound);
        let end = clear_until(*piece, until, pairs, arrived, bound);
        add_before(&mut built, *piece, end)?;
    }
    Ok(built.finish())
}

/// The same for a function that is given away, in place and without memory. The result may not be reduced: a piece of which one
/// minute stays can be on one line with the piece before it.
pub fn into_pruned(f: CostFn, until: Minute, pairs: &[Pair], bound: Bound) -> CostFn
    requires trade { RiseAndFall pairs.now }
    requires small { AreSmallPieces f }
    ensures values { IsPruned until pairs.now bound (value_at f) (value_at result) }
    ensures small { AreSmallPieces result }
{
    let mut pieces = f.into_pieces();
    let kept = keep_prefixes(&mut pieces, until, pairs, bound);
    pieces.truncate(kept);
    CostFn::from_pieces(pieces)
}

// Writes the prefixes that stay to the front, and returns their number.
fn keep_prefixes(pieces: &mut [Piece], until: Minute, pairs: &[Pair], bound: Bound) -> usize
    requires trade { RiseAndFall pairs.now }
    requires pieces { ArePieces pieces.old }
    requires small { AreSmallPieces pieces.old }
    ensures values { IsPruned until pairs.now bound
        (value_at pieces.old) (value_at (take result pieces.new)) }
    ensures pieces { ArePieces (take result pieces.new) }
    ensures small { AreSmallPieces (take result pieces.new) }
{
    let mut kept = 0;
    let mut arrived = 0;
    for i in 0..pieces.len() {
        let piece = pieces[i];
        arrived = pass_arrived(pairs, arrived, piece.lo, bound);
        let end = clear_until(piece, until, pairs, arrived, bound);
        kept = put_before(pieces, kept, piece, end);
    }
    kept
}

// Writes the values of a piece before a minute to a place behind other pieces, and returns the place behind them.
fn put_before(pieces: &mut [Piece], place: usize, piece: Piece, end: Minute) -> usize
    requires place { place < length pieces.old }
    requires pieces { ArePieces (take place pieces.old) }
    requires small { AreSmallPieces (take place pieces.old) }
    requires piece { IsPiece piece }
    requires piece_small { IsSmallPiece piece }
    requires upto { end ≤ piece.hi + 1 }
    requires later { All (λ q. q.hi < piece.lo) (take place pieces.old) }
    ensures within { result ≤ place + 1 }
    ensures length { length pieces.new ≡ length pieces.old }
    ensures others { (j : ℕ) (d : Piece) → place < j
        → slice_index_or pieces.new j d ≡ slice_index_or pieces.old j d }
    ensures pieces { ArePieces (take result pieces.new) }
    ensures small { AreSmallPieces (take result pieces.new) }
    ensures put { HasPrefix piece end (take place pieces.old) (take result pieces.new) }
{
    if end <= piece.lo {
        return place;
    }
    pieces[place] = cut_before(piece, end);
    place + 1
}

// The piece without its minutes from this one on, of which it keeps some.
fn cut_before(piece: Piece, end: Minute) -> Piece
    requires piece { IsPiece piece }
    requires small { IsSmallPiece piece }
    requires some { piece.lo < end }
    requires upto { end ≤ piece.hi + 1 }
    ensures piece { IsPiece result }
    ensures small { IsSmallPiece result }
    ensures lo { result.lo ≡ piece.lo }
    ensures hi { result.hi + 1 ≡ end }
    ensures line { (t : ℕ) → piece.lo ≤ t → t < end → line_at result t ≡ line_at piece t }
{
    let slope = if piece.lo + 1 < end { piece.slope } else { 0 };
    Piece {
        hi: end - 1,
        slope,
        ..piece
    }
}

// Adds the values of a piece before a minute.
pub fn add_before(built: &mut Builder, piece: Piece, end: Minute) -> Result<(), OutOfMemory>
    requires piece { IsPiece piece }
    requires small { IsSmallPiece piece }
    requires upto { end ≤ piece.hi + 1 }
    requires later { All (λ q. q.hi < piece.lo) built.old }
    ensures { OnOk result (HasPrefix piece end built.old built.new) }
{
    if piece.lo < end {
        built.push(Piece {
            hi: end - 1,
            ..piece
        })?;
    }
    Ok(())
}

// The number of pairs that have arrived by the minute with the bound to the goal, by a binary search.
pub fn arrived_at(pairs: &[Pair], minute: Minute, bound: Bound) -> usize
    requires { RiseAndFall pairs.now }
    ensures within { result ≤ length pairs.now }
    ensures before { HaveArrived bound minute pairs.now result }
{
    let last = minute.saturating_add(bound.minutes);
    pairs.partition_point(|pair| pair.arrival <= last)
}

// The number of pairs that have arrived by the minute with the bound to the goal, from a number of them on.
pub fn pass_arrived(pairs: &[Pair], arrived: usize, minute: Minute, bound: Bound) -> usize
    requires within { arrived ≤ length pairs.now }
    requires before { HaveArrived bound minute pairs.now arrived }
    ensures within { result ≤ length pairs.now }
    ensures before { HaveArrived bound minute pairs.now result }
{
    let mut count = arrived;
    'pass: while let Some(pair) = pairs.get(count) {
        if minute < pair.arrival.saturating_sub(bound.minutes) {
            return count;
        }
        count += 1;
    }
    count
}

// The first minute of the piece at which it is late or dominated; a minute behind the piece, if there is none. Of the pairs as many
// as this have arrived when the piece begins.
#[inline(always)]
pub fn clear_until(
    piece: Piece,
    until: Minute,
    pairs: &[Pair],
    arrived: usize,
    bound: Bound,
) -> Minute
    requires trade { RiseAndFall pairs.now }
    requires piece { IsPiece piece }
    requires within { arrived ≤ length pairs.now }
    requires arrived { HaveArrived bound piece.lo pairs.now arrived }
    ensures { IsClearUntil until pairs.now bound piece result }
{
    if until < bound.minutes {
        return piece.lo;
    }
    let in_time = piece.hi.min(until - bound.minutes) + 1;
    in_time.min(undominated_until(piece, pairs, arrived, bound))
}

// The first minute of the piece at which a pair dominates it. Mostly its first and its last cost tell. Else the pairs that arrive
// while the piece is still cheaper come first: of these the last, as the cheapest, is the first to dominate. Of the others the
// first is, as soon as it arrives.
#[inline(always)]
fn undominated_until(piece: Piece, pairs: &[Pair], arrived: usize, bound: Bound) -> Minute
    requires trade { RiseAndFall pairs.now }
    requires piece { IsPiece piece }
    requires within { arrived ≤ length pairs.now }
    requires arrived { HaveArrived bound piece.lo pairs.now arrived }
    ensures { IsUndominatedUntil pairs.now bound piece result }
{
    if is_as_dear(piece.cost, pairs, arrived, bound) {
        return piece.lo;
    }
    if !is_as_dear(piece.value(piece.hi), pairs, pairs.len(), bound) {
        return piece.hi + 1;
    }
    let place = pass_dearer(piece, pairs, arrived, bound);
    let arrival = arrived_by(piece, pairs, place, bound);
    arrival.min(cheaper_than(piece, pairs, place, bound))
}

// Whether the cost with the bound to the goal is as high as that of the pair before this place.
fn is_as_dear(cost: Cost, pairs: &[Pair], place: usize, bound: Bound) -> bool
    requires place { place ≤ length pairs.now }
    ensures some { result ≡ true → 1 ≤ place }
    ensures dear { (d : Pair) → result ≡ true
        → (slice_index_or pairs.now (place - 1) d).cost - bound.cost ≤ cost }
    ensures cheap { (d : Pair) → result ≡ false → 1 ≤ place
        → cost < (slice_index_or pairs.now (place - 1) d).cost - bound.cost }
{
    place > 0 && pairs[place - 1].cost.saturating_sub(bound.cost) <= cost
}

// The number of pairs for which the piece stays cheaper, from a number of them on.
fn pass_dearer(piece: Piece, pairs: &[Pair], arrived: usize, bound: Bound) -> usize
    requires trade { RiseAndFall pairs.now }
    requires piece { IsPiece piece }
    requires within { arrived ≤ length pairs.now }
    requires before { AllWithin (λ p. stays_cheaper piece bound p ≡ true) pairs.now 0 arrived }
    ensures within { result ≤ length pairs.now }
    ensures before { AllWithin (λ p. stays_cheaper piece bound p ≡ true) pairs.now 0 result }
    ensures after { AllWithin (λ p. stays_cheaper piece bound p ≡ false)
        pairs.now result (length pairs.now) }
{
    let mut place = arrived;
    'pass: while let Some(pair) = pairs.get(place) {
        if !is_cheaper_at(piece, bound, *pair) {
            return place;
        }
        place += 1;
    }
    place
}

// The minute at which the pair at this place arrives; a minute behind the piece, if there is no such pair.
fn arrived_by(piece: Piece, pairs: &[Pair], place: usize, bound: Bound) -> Minute
    requires { IsPiece piece }
    ensures some { (d : Pair) → place < length pairs.now
        → result ≡ (slice_index_or pairs.now place d).arrival - bound.minutes }
    ensures none { length pairs.now ≤ place → result ≡ piece.hi + 1 }
{
    match pairs.get(place) {
        Some(pair) => pair.arrival.saturating_sub(bound.minutes),
        None => piece.hi + 1,
    }
}

// The first minute of the piece at which it is as dear as the pair before this place.
fn cheaper_than(piece: Piece, pairs: &[Pair], place: usize, bound: Bound) -> Minute
    requires piece { IsPiece piece }
    requires place { place ≤ length pairs.now }
    ensures none { place ≡ 0 → result ≡ piece.hi + 1 }
    ensures before { (d : Pair) → 1 ≤ place → (t : ℕ) → piece.lo ≤ t → t < result → t ≤ piece.hi
        → line_at piece t < (slice_index_or pairs.now (place - 1) d).cost - bound.cost }
    ensures after { (d : Pair) → 1 ≤ place → (t : ℕ) → piece.lo ≤ t → result ≤ t → t ≤ piece.hi
        → (slice_index_or pairs.now (place - 1) d).cost - bound.cost ≤ line_at piece t }
{
    if place == 0 {
        return piece.hi + 1;
    }
    cheaper_until(piece, pairs[place - 1].cost.saturating_sub(bound.cost))
}

// Whether the piece is still cheaper than the pair when that arrives, or else at its own end.
fn is_cheaper_at(piece: Piece, bound: Bound, pair: Pair) -> bool
    requires { IsPiece piece }
    ensures { result ≡ stays_cheaper piece bound pair }
{
    let arrival = pair.arrival.saturating_sub(bound.minutes);
    piece.value(arrival.min(piece.hi)) < pair.cost.saturating_sub(bound.cost)
}

// The first minute of the piece at which it costs this or more; a minute behind the piece, if there is none.
fn cheaper_until(piece: Piece, cost: Cost) -> Minute
    requires { IsPiece piece }
    ensures before { (t : ℕ) → piece.lo ≤ t → t < result → t ≤ piece.hi → line_at piece t < cost }
    ensures after { (t : ℕ) → piece.lo ≤ t → result ≤ t → t ≤ piece.hi → cost ≤ line_at piece t }
{
    if cost <= piece.cost {
        return piece.lo;
    }
    let slack = cost - piece.cost - 1;
    piece.lo + held_for(slack, piece.slope, 0, piece.hi - piece.lo) + 1
}
