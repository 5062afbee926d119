// Lists of pieces, reduced.
ghost use Rattle.std.specs.Prelude.{◌≡◌, ◌↔◌, ◌<◌, ℕ, IsTrue, IfOk};
ghost use Rattle.cost_functions.specs.Pieces.{value_at, ArePieces, IsReduced, AreSmallPieces};
ghost use Rattle.cost_functions.specs.Building.{AreBuilt};

use crate::builder::Builder;
use crate::cost_fn::CostFn;
use crate::pieces::{Piece, common_slope};
use route_base::OutOfMemory;
use std::alloc::Global;

// Whether no two pieces that touch are on one line. Linear in the number of pieces; no memory.
pub fn are_reduced(pieces: &[Piece]) -> bool
    requires { ArePieces pieces.now }
    ensures { IsTrue result ↔ IsReduced pieces.now }
{
    let mut left = pieces;
    'pairs: while let [first, rest @ ..] = left {
        let [second, ..] = rest else {
            break;
        };
        if let Some(_) = common_slope(*first, *second) {
            return false;
        }
        left = rest;
    }
    true
}

// The reduced function with the values of the pieces. Linear in the number of pieces.
pub fn reduced(alloc: Global, pieces: &[Piece]) -> Result<CostFn, OutOfMemory>
    requires pieces { ArePieces pieces.now }
    requires small { AreSmallPieces pieces.now }
    ensures values { IfOk result (λ reduced. (t : ℕ) → value_at reduced t ≡ value_at pieces.now t) }
    ensures built { IfOk result AreBuilt }
{
    let mut built = Builder::new(alloc);
    for piece in pieces {
        built.push(*piece)?;
    }
    Ok(built.finish())
}
