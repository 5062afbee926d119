// One step from all minutes of a function, from break to break.
ghost use Rattle.std.specs.Prelude.{◌≡◌, ◌↔◌, ◌<◌, ◌≤◌, ℕ, Some, None, IsTrue, IfSome};
ghost use Rattle.route_base.specs.Front.{RiseAndFall};
ghost use Rattle.cost_functions.specs.Lines.{line_at, IsPiece};
ghost use Rattle.cost_functions.specs.Pieces.{value_at, ArePieces};
ghost use Rattle.certificate_check.specs.Inside.Passing.{Passes, IsPassage, link_of};

use crate::breaks::{closed_until, within_until};
use crate::domination::is_dominated_or_late;
use cost_functions::Piece;
use route_base::{Bound, Cost, Minute, Pair, Run};

/// A drive over an arc, or a wait of one minute, as data: its minutes, its cost, the runs in which it can't be made, the bounds
/// of the nodes at which it begins and ends, and the function of the latter.
#[derive(Clone, Copy)]
pub struct Passage<'a> {
    pub minutes: u64,
    pub cost: Cost,
    pub closed: &'a [Run],
    pub from: Option<Bound>,
    pub to: Option<Bound>,
    pub values: &'a [Piece],
}

/// Whether the step passes from each value of the pieces. A few binary searches for each piece, for each closed run that it
/// meets and for each piece of the other function that it meets; no memory.
pub fn pieces_pass(until: Minute, pairs: &[Pair], passage: Passage, pieces: &[Piece]) -> bool
    requires pairs { RiseAndFall pairs.now }
    requires passage { IsPassage passage }
    requires pieces { ArePieces pieces.now }
    ensures { IsTrue result ↔ ((t x : ℕ) → value_at pieces.now t ≡ Some x
        → Passes until pairs.now (link_of passage.entry) t x) }
{
    for piece in pieces {
        if !piece_passes(until, pairs, passage, *piece) {
            return false;
        }
    }
    true
}

// Whether the step passes from each minute of the piece.
fn piece_passes(until: Minute, pairs: &[Pair], passage: Passage, piece: Piece) -> bool
    requires pairs { RiseAndFall pairs.now }
    requires passage { IsPassage passage }
    requires piece { IsPiece piece }
    ensures { IsTrue result ↔ ((t : ℕ) → piece.lo ≤ t → t ≤ piece.hi
        → Passes until pairs.now (link_of passage.entry) t (line_at piece t)) }
{
    let mut from = piece.lo;
    'sweep: while from <= piece.hi {
        match passes_until(until, pairs, passage, piece, from) {
            Some(end) => from = end,
            None => return false,
        }
    }
    true
}

// Where the step passes from minute t of the piece, a later minute before which it passes too: the next break. `None` exactly
// where it doesn't pass from t. An excuse never ends along a piece, since neither minutes nor costs fall.
fn passes_until(
    until: Minute,
    pairs: &[Pair],
    passage: Passage,
    piece: Piece,
    t: Minute,
) -> Option<Minute>
    requires pairs { RiseAndFall pairs.now }
    requires passage { IsPassage passage }
    requires piece { IsPiece piece }
    requires from { piece.lo ≤ t }
    requires upto { t ≤ piece.hi }
    ensures some { IfSome result (λ end. t < end) }
    ensures passes { IfSome result (λ end. (s : ℕ) → t ≤ s → s < end → s ≤ piece.hi
        → Passes until pairs.now (link_of passage.entry) s (line_at piece s)) }
    ensures none { result ≡ None
        → Passes until pairs.now (link_of passage.entry) t (line_at piece t) → ⊥ }
{
    let arrival = t + passage.minutes;
    if until < arrival {
        return Some(piece.hi + 1);
    }
    let here = piece.value(t);
    if is_dominated_or_late(until, pairs, passage.from, t, here) {
        return Some(piece.hi + 1);
    }
    let there = here + passage.cost;
    if is_dominated_or_late(until, pairs, passage.to, arrival, there) {
        return Some(piece.hi + 1);
    }
    if let Some(end) = closed_until(passage.closed, t, passage.minutes) {
        return Some(end);
    }
    let end = within_until(passage.values, arrival, there, piece.slope)?;
    Some(end - passage.minutes)
}
