// Cost functions.
ghost use Rattle.std.specs.Prelude.{◌≡◌, ◌≢◌, ◌↔◌, ◌<◌, ◌≤◌, ℕ, Some, None, List, [], All, AllPairs, IsTrue, IfOk};
ghost use Rattle.cost_functions.specs.Pieces.{value_at, point_at, ArePieces, IsReduced, AreSmallPieces};
ghost use Rattle.cost_functions.specs.Building.{AreBuilt};
ghost use Rattle.route_base.specs.declared.limits.TheConstants.{LAST_INSTANT, HIGHEST_COST};
ghost use Rattle.cost_functions.specs.declared.pieces.Piece.{Piece};

use crate::builder::Builder;
use crate::lookup::value_of;
use crate::pieces::Piece;
use crate::points::{at_one, of_one};
use crate::reduction::{are_reduced, reduced};
use route_base::{Cost, Minute, OutOfMemory};
use std::alloc::Global;
use std::marker::Model;

/// A cost in thousandths for some minutes, which contracts see as its pieces: they rise and do not overlap.
pub struct CostFn {
    held: Vec<Piece>,
}

impl Model for CostFn {
    ghost Value = { List Piece };

    ghost view = { λ s. s.held.items };

    ghost invariant = { λ s. ArePieces s.held.items };
}

// By hand, so that the drops of its parts are proved here alone.
impl Drop for CostFn {
    fn drop(self) {
        let CostFn { held: _ } = self;
    }
}

impl CostFn {
    /// The function of these pieces, at no cost. They need not be reduced.
    pub fn from_pieces(pieces: Vec<Piece>) -> CostFn
        requires { ArePieces pieces.items }
        ensures { result ≡ pieces.items }
    {
        CostFn { held: pieces }
    }

    /// The function without a value. No memory.
    pub fn empty(alloc: Global) -> CostFn
        ensures { result ≡ [] }
    {
        CostFn {
            held: Vec::new(alloc),
        }
    }

    /// The function with this one value. Constant time; memory for one piece.
    pub fn single(alloc: Global, at: Minute, cost: Cost) -> Result<CostFn, OutOfMemory>
        requires minute { at ≤ LAST_INSTANT }
        requires cost { cost ≤ HIGHEST_COST }
        ensures here { IfOk result (λ f. value_at f at ≡ Some cost) }
        ensures elsewhere { IfOk result (λ f. (t : ℕ) → t ≢ at → value_at f t ≡ None) }
        ensures built { IfOk result AreBuilt }
    {
        of_one(alloc, (at, cost))
    }

    /// The value at a minute; `None` exactly where no piece has it. Logarithmic in the number of pieces; no memory.
    pub fn at(&self, t: Minute) -> Option<Cost>
        ensures { result ≡ value_at self.now t }
    {
        value_of(&self.held, t)
    }

    /// Whether no two pieces that touch are on one line of a slope of 0 or more. Linear in the number of pieces; no memory.
    pub fn is_reduced(&self) -> bool
        ensures { IsTrue result ↔ IsReduced self.now }
    {
        are_reduced(&self.held)
    }

    /// The reduced function with the same values. Linear in the number of pieces, in time and memory.
    pub fn reduce(&self, alloc: Global) -> Result<CostFn, OutOfMemory>
        requires { AreSmallPieces self.now }
        ensures values { IfOk result (λ reduced. (t : ℕ) →
            value_at reduced t ≡ value_at self.now t) }
        ensures built { IfOk result AreBuilt }
    {
        reduced(alloc, &self.held)
    }

    /// The reduced function with exactly these values. Linear in the number of points, in time and memory.
    pub fn from_points(alloc: Global, points: &[(Minute, Cost)]) -> Result<CostFn, OutOfMemory>
        requires rising { AllPairs (λ p q. p.0 < q.0) points.now }
        requires minutes { All (λ p. p.0 ≤ LAST_INSTANT) points.now }
        requires costs { All (λ p. p.1 ≤ HIGHEST_COST) points.now }
        ensures values { IfOk result (λ made. (t : ℕ) → value_at made t ≡ point_at points.now t) }
        ensures built { IfOk result AreBuilt }
    {
        let mut built = Builder::new(alloc);
        for point in points {
            built.push(at_one(*point))?;
        }
        Ok(built.finish())
    }

    /// The pieces, at no cost.
    pub fn pieces(&self) -> &[Piece]
        ensures items { result.now ≡ self.now }
        ensures pieces { ArePieces result.now }
    {
        self.held.as_slice()
    }

    /// The pieces, handed over at no cost.
    pub fn into_pieces(self) -> Vec<Piece>
        ensures items { result.items ≡ self }
        ensures pieces { ArePieces result.items }
    {
        let CostFn { held } = self;
        held
    }
}
