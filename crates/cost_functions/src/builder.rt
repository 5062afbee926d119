// Functions built from the left, reduced at every step.
ghost use Rattle.std.specs.Prelude.{◌≡◌, ◌+◌, ◌-◌, ◌<◌, ◌≤◌, ℕ, List, [], ◌∷◌, ◌++◌, length, take, slice_set, All, None, OnOk, OnErr, IfSome};
ghost use Rattle.cost_functions.specs.Lines.{IsPiece, IsSmallPiece, AreOneLine};
ghost use Rattle.cost_functions.specs.Pieces.{value_at};
ghost use Rattle.cost_functions.specs.Building.{AreBuilt};
ghost use Rattle.cost_functions.specs.Inside.JoinedPieces.{IsJoined, IsExtended};
ghost use Rattle.cost_functions.specs.declared.pieces.Piece.{Piece};
ghost use Rattle.route_base.specs.declared.limits.TheConstants.{LAST_INSTANT};

use crate::cost_fn::CostFn;
use crate::pieces::{Piece, common_slope};
use route_base::OutOfMemory;
use std::alloc::Global;
use std::marker::Model;

/// A reduced function that grows at its end, which contracts see as its pieces.
#[derive(Drop)]
pub struct Builder {
    held: Vec<Piece>,
}

impl Model for Builder {
    ghost Value = { List Piece };

    ghost view = { λ s. s.held.items };

    ghost invariant = { λ s. AreBuilt s.held.items };
}

impl Builder {
    /// A builder without a piece. No memory.
    pub fn new(alloc: Global) -> Builder
        ensures { result ≡ [] }
    {
        Builder {
            held: Vec::new(alloc),
        }
    }

    /// A builder without a piece, in the memory of a function that is done with.
    pub fn again(old: CostFn) -> Builder
        ensures { result ≡ [] }
    {
        let mut held = old.into_pieces();
        held.clear();
        Builder { held }
    }

    /// A builder that goes on behind these pieces, at no cost.
    pub fn behind(pieces: Vec<Piece>) -> Builder
        requires { AreBuilt pieces.items }
        ensures { result ≡ pieces.items }
    {
        Builder { held: pieces }
    }

    /// Adds the values of a piece behind all others. A piece of one minute may have any slope. Constant time on average. Out of
    /// memory leaves the function as it was.
    pub fn push(&mut self, piece: Piece) -> Result<(), OutOfMemory>
        requires filled { piece.lo ≤ piece.hi }
        requires minutes { piece.hi ≤ LAST_INSTANT }
        requires small { IsSmallPiece piece }
        requires later { All (λ q. q.hi < piece.lo) self.old }
        ensures values { OnOk result ((t : ℕ) →
            value_at self.new t ≡ value_at (self.old ++ piece ∷ []) t) }
        ensures ended { OnOk result (All (λ q. q.hi ≤ piece.hi) self.new) }
        ensures apart { OnOk result ((z : Piece) → piece.hi < z.lo
            → ((slope : ℕ) → AreOneLine piece z slope → ⊥)
            → All (λ q. (slope : ℕ) → AreOneLine q z slope → ⊥) self.new) }
        ensures kept { OnErr result (self.new ≡ self.old) }
    {
        let next = plain(piece);
        append(&mut self.held, next)
    }

    /// Adds the values of built pieces behind all others: the first by `push`, the others in one copy. Out of memory leaves a
    /// reduced function, to which a prefix of the pieces may be added already, and which has lost no value.
    pub fn extend(&mut self, pieces: &[Piece]) -> Result<(), OutOfMemory>
        requires built { AreBuilt pieces.now }
        requires later { All (λ p. All (λ q. q.hi < p.lo) self.old) pieces.now }
        ensures values { OnOk result ((t : ℕ) →
            value_at self.new t ≡ value_at (self.old ++ pieces.now) t) }
        ensures prefix { OnErr result ((n : ℕ) × ((t : ℕ) →
            value_at self.new t ≡ value_at (self.old ++ take n pieces.now) t)) }
    {
        let [first, others @ ..] = pieces else {
            return Ok(());
        };
        self.push(*first)?;
        append_all(&mut self.held, others)?;
        Ok(())
    }

    /// The function, at no cost.
    pub fn finish(self) -> CostFn
        ensures same { result ≡ self }
        ensures built { AreBuilt result }
    {
        CostFn::from_pieces(self.held)
    }
}

// Appends a piece, as one with the last where they are on one line.
fn append(held: &mut Vec<Piece>, next: Piece) -> Result<(), OutOfMemory>
    requires built { AreBuilt held.old.items }
    requires piece { IsPiece next }
    requires small { IsSmallPiece next }
    requires later { All (λ q. q.hi < next.lo) held.old.items }
    ensures extended { OnOk result (IsExtended held.old.items next held.new.items) }
    ensures kept { OnErr result (held.new.items ≡ held.old.items) }
{
    match joined_with_last(held, next) {
        Some(joined) => {
            let last = held.len() - 1;
            held[last] = joined;
        }
        None => held.push(next)?,
    }
    Ok(())
}

// Appends pieces in one copy.
fn append_all(held: &mut Vec<Piece>, others: &[Piece]) -> Result<(), OutOfMemory>
    requires whole { AreBuilt (held.old.items ++ others.now) }
    requires held { AreBuilt held.old.items }
    ensures built { AreBuilt held.new.items }
    ensures items { OnOk result (held.new.items ≡ held.old.items ++ others.now) }
    ensures kept { OnErr result (held.new.items ≡ held.old.items) }
{
    held.extend_from_slice(others)?;
    Ok(())
}

// The piece, with slope 0 if it has one minute.
fn plain(piece: Piece) -> Piece
    requires filled { piece.lo ≤ piece.hi }
    requires minutes { piece.hi ≤ LAST_INSTANT }
    requires small { IsSmallPiece piece }
    ensures piece { IsPiece result }
    ensures small { IsSmallPiece result }
    ensures lo { result.lo ≡ piece.lo }
    ensures hi { result.hi ≡ piece.hi }
    ensures values { (t : ℕ) → value_at (result ∷ []) t ≡ value_at (piece ∷ []) t }
    ensures line { (z : Piece) (slope : ℕ) → AreOneLine result z slope → AreOneLine piece z slope }
{
    if piece.lo < piece.hi {
        piece
    } else {
        Piece { slope: 0, ..piece }
    }
}

// The last piece and the next one as one piece; `None` where they are not on one line.
fn joined_with_last(pieces: &[Piece], next: Piece) -> Option<Piece>
    requires built { AreBuilt pieces.now }
    requires piece { IsPiece next }
    requires small { IsSmallPiece next }
    requires later { All (λ q. q.hi < next.lo) pieces.now }
    ensures some { IfSome result (λ joined.
        IsExtended pieces.now next (slice_set pieces.now (length pieces.now - 1) joined)) }
    ensures held { IfSome result (λ _. 0 < length pieces.now) }
    ensures none { result ≡ None → IsExtended pieces.now next (pieces.now ++ next ∷ []) }
{
    let last = *pieces.last()?;
    joined(last, next)
}

// Both as one piece; `None` where they are not on one line.
fn joined(first: Piece, second: Piece) -> Option<Piece>
    requires first { IsPiece first }
    requires second { IsPiece second }
    requires later { first.hi < second.lo }
    requires small { IsSmallPiece second }
    ensures some { IfSome result (IsJoined first second) }
    ensures none { result ≡ None → (slope : ℕ) → AreOneLine first second slope → ⊥ }
{
    let slope = common_slope(first, second)?;
    Some(Piece {
        lo: first.lo,
        hi: second.hi,
        cost: first.cost,
        slope,
    })
}
