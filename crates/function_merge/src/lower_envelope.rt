// The lower envelope of two functions, segment by segment.
ghost use Rattle.std.specs.Prelude.{◌≡◌, ◌+◌, ◌≤◌, ℕ, min, max, false, nat_lt, None, IfSome};
ghost use Rattle.cost_functions.specs.Lines.{line_at, IsPiece, IsSmallPiece};
ghost use Rattle.function_merge.specs.Least.{least_at, better_at};
ghost use Rattle.function_merge.specs.Inside.Segments.{piece_of, improves, IsNextSegment};
ghost use Rattle.function_merge.specs.Inside.Suffixes.{AreLeftFrom};

use cost_functions::{Piece, held_for};
use route_base::{Cost, Minute};

// The values of the lesser function at some minutes: those of the first function, or better ones of the second. It is an enum,
// since a record of a piece and a `bool` is slow to hand back.
#[derive(Clone, Copy)]
pub enum Segment {
    Kept(Piece),
    Improved(Piece),
}

impl Segment {
    // Its piece, whichever function has it.
    pub fn piece(self) -> Piece
        ensures { result ≡ piece_of self }
    {
        match self {
            Self::Kept(piece) | Self::Improved(piece) => piece,
        }
    }
}

// The next segment from a minute on, where no piece ends before the minute; `None` where no value is left.
#[inline(always)]
pub fn next_segment(f: &[Piece], g: &[Piece], from: Minute) -> Option<Segment>
    requires first { AreLeftFrom from f.now }
    requires second { AreLeftFrom from g.now }
    ensures some { IfSome result (IsNextSegment f.now g.now from) }
    ensures none_least { result ≡ None → (t : ℕ) → from ≤ t → least_at f.now g.now t ≡ None }
    ensures none_better { result ≡ None → (t : ℕ) → from ≤ t → better_at f.now g.now t ≡ false }
{
    let [p, ..] = f else {
        let [q, ..] = g else { return None };
        return Some(Segment::Improved(part(*q, from.max(q.lo), q.hi)));
    };
    let p_lo = from.max(p.lo);
    let [q, ..] = g else {
        return Some(Segment::Kept(part(*p, p_lo, p.hi)));
    };
    let q_lo = from.max(q.lo);
    if p_lo < q_lo {
        Some(Segment::Kept(part(*p, p_lo, p.hi.min(q_lo - 1))))
    } else if q_lo < p_lo {
        Some(Segment::Improved(part(*q, q_lo, q.hi.min(p_lo - 1))))
    } else {
        Some(lesser(*p, *q, p_lo))
    }
}

// The part of a piece from one of its minutes to another.
fn part(piece: Piece, lo: Minute, hi: Minute) -> Piece
    requires piece { IsPiece piece }
    requires small { IsSmallPiece piece }
    requires from { piece.lo ≤ lo }
    requires filled { lo ≤ hi }
    requires upto { hi ≤ piece.hi }
    ensures lo { result.lo ≡ lo }
    ensures hi { result.hi ≡ hi }
    ensures line { (t : ℕ) → lo ≤ t → line_at result t ≡ line_at piece t }
    ensures small { IsSmallPiece result }
{
    Piece {
        lo,
        hi,
        cost: piece.value(lo),
        slope: piece.slope,
    }
}

// The segment from a minute on that both pieces have: the lesser piece, as long as it stays the lesser, and the first where they
// are equal.
#[inline(always)]
fn lesser(p: Piece, q: Piece, lo: Minute) -> Segment
    requires first { IsPiece p }
    requires second { IsPiece q }
    requires first_small { IsSmallPiece p }
    requires second_small { IsSmallPiece q }
    requires first_from { p.lo ≤ lo }
    requires second_from { q.lo ≤ lo }
    requires first_upto { lo ≤ p.hi }
    requires second_upto { lo ≤ q.hi }
    ensures lo { (piece_of result).lo ≡ lo }
    ensures filled { lo ≤ (piece_of result).hi }
    ensures first_end { (piece_of result).hi ≤ p.hi }
    ensures second_end { (piece_of result).hi ≤ q.hi }
    ensures line { (t : ℕ) → lo ≤ t → t ≤ (piece_of result).hi
        → line_at (piece_of result) t ≡ min (line_at p t) (line_at q t) }
    ensures better { (t : ℕ) → lo ≤ t → t ≤ (piece_of result).hi
        → nat_lt (line_at q t) (line_at p t) ≡ improves result }
    ensures small { IsSmallPiece (piece_of result) }
{
    if q.value(lo) < p.value(lo) {
        Segment::Improved(part_below(q, p, lo, 1))
    } else {
        Segment::Kept(part_below(p, q, lo, 0))
    }
}

// The part of a piece from a minute on, as long as the other piece costs at least this much more.
#[inline(always)]
fn part_below(piece: Piece, other: Piece, lo: Minute, more: Cost) -> Piece
    requires piece { IsPiece piece }
    requires other { IsPiece other }
    requires small { IsSmallPiece piece }
    requires from { max piece.lo other.lo ≤ lo }
    requires upto { lo ≤ min piece.hi other.hi }
    requires below { line_at piece lo + more ≤ line_at other lo }
    ensures lo { result.lo ≡ lo }
    ensures filled { lo ≤ result.hi }
    ensures upto { result.hi ≤ min piece.hi other.hi }
    ensures line { (t : ℕ) → lo ≤ t → line_at result t ≡ line_at piece t }
    ensures below { (t : ℕ) → lo ≤ t → t ≤ result.hi → line_at piece t + more ≤ line_at other t }
    ensures small { IsSmallPiece result }
{
    let most = piece.hi.min(other.hi) - lo;
    let slack = other.value(lo) - piece.value(lo) - more;
    let held = held_for(slack, piece.slope, other.slope, most);
    part(piece, lo, lo + held)
}
