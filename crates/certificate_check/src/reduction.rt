// Functions with the same values in no more pieces than they need.
ghost use Rattle.std.specs.Prelude.{◌≡◌, ◌↔◌, ℕ, IsTrue, IfOk, All};
ghost use Rattle.cost_functions.specs.Lines.{IsPiece, IsSmallPiece};
ghost use Rattle.cost_functions.specs.Pieces.{value_at, ArePieces, IsReduced, AreSmallPieces};
ghost use Rattle.certificate_check.specs.Inside.Reduction.{IsReduction};

use certificate::NodeFunctions;
use cost_functions::{CostFn, Piece};
use route_base::OutOfMemory;
use route_base::limits::HIGHEST_COST;
use std::alloc::Global;

/// Whether no function has touching pieces on one line. Linear in the number of pieces; no memory.
pub fn are_reduced(functions: &NodeFunctions) -> bool
    ensures { IsTrue result ↔ All (λ e. IsReduced e.1) functions.now }
{
    for entry in functions.as_slice() {
        if !entry.1.is_reduced() {
            return false;
        }
    }
    true
}

/// The functions with touching pieces on one line joined. A function with a value above `HIGHEST_COST`, as no search finds one,
/// is copied as it is. Linear in the number of pieces, in time and memory.
pub fn reduced_copy(alloc: Global, functions: &NodeFunctions) -> Result<NodeFunctions, OutOfMemory>
    ensures { IfOk result (λ copy. IsReduction copy functions.now) }
{
    let mut copy = NodeFunctions::new(alloc);
    for entry in functions.as_slice() {
        let function = reduced(alloc, &entry.1)?;
        copy.push((entry.0, function))?;
    }
    Ok(copy)
}

// The function, reduced where all its values are small.
fn reduced(alloc: Global, function: &CostFn) -> Result<CostFn, OutOfMemory>
    ensures values { IfOk result (λ copy. (t : ℕ) → value_at copy t ≡ value_at function.now t) }
    ensures reduced { IfOk result (λ copy. AreSmallPieces copy → IsReduced copy) }
{
    if are_small(function.pieces()) {
        return function.reduce(alloc);
    }
    let mut pieces = Vec::new(alloc);
    pieces.extend_from_slice(function.pieces())?;
    Ok(CostFn::from_pieces(pieces))
}

// Whether no value of the pieces is above the highest cost.
fn are_small(pieces: &[Piece]) -> bool
    requires { ArePieces pieces.now }
    ensures { IsTrue result ↔ AreSmallPieces pieces.now }
{
    for piece in pieces {
        if !is_small(*piece) {
            return false;
        }
    }
    true
}

// Whether no value of the piece is above the highest cost.
fn is_small(piece: Piece) -> bool
    requires { IsPiece piece }
    ensures { IsTrue result ↔ IsSmallPiece piece }
{
    piece.value(piece.hi) <= HIGHEST_COST
}
