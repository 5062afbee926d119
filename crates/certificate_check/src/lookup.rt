// The bounds of a node, its function, and the piece of a function that has a minute.
ghost use Rattle.std.specs.Prelude.{◌≡◌, ◌≤◌, ℕ, Some, None, IfSome};
ghost use Rattle.certificate.specs.ByNode.{item_at};
ghost use Rattle.cost_functions.specs.Lines.{line_at, IsPiece};
ghost use Rattle.cost_functions.specs.Pieces.{value_at, ArePieces};
ghost use Rattle.certificate_check.specs.Conditions.{value_of, AreBoundsInRange};
ghost use Rattle.certificate_check.specs.Inside.Passing.{IsBoundInRange};

use certificate::{NodeBounds, NodeFunctions};
use cost_functions::Piece;
use route_base::{Bound, Minute, NodeId, OutOfMemory};
use std::alloc::Global;

/// The bounds of a node. Constant time where all nodes before it have bounds, a binary search otherwise.
pub fn bound_of(bounds: &NodeBounds, node: NodeId) -> Option<Bound>
    requires { AreBoundsInRange bounds.now }
    ensures value { result ≡ item_at bounds.now node.0 }
    ensures range { IsBoundInRange result }
{
    bounds.at(node).copied()
}

/// The pieces of a node's function; none where it has no function. One binary search.
pub fn pieces_of(functions: &NodeFunctions, node: NodeId) -> &[Piece]
    ensures pieces { ArePieces result.now }
    ensures values { (t : ℕ) → value_at result.now t ≡ value_of functions.now node.0 t }
{
    pieces_near(functions, node, 0)
}

/// For each node from 1 to `nodes`, the place where `pieces_near` looks first: that of its function, or of the next node's that has
/// one. Nothing is said of it here, since what is found is right wherever it was looked for. Linear in the number of nodes.
pub fn places_of(
    alloc: Global,
    functions: &NodeFunctions,
    nodes: u32,
) -> Result<Vec<usize>, OutOfMemory> {
    let mut places = Vec::with_capacity(alloc, nodes as usize)?;
    let mut next = 0;
    for k in 0..nodes {
        if let Some(entry) = functions.get(next)
            && entry.0.0 <= k
        {
            next += 1;
        }
        places.push(next)?;
    }
    Ok(places)
}

/// The pieces of a node's function; none where it has no function. Constant time where the place is that of the function or of the
/// next node's, a binary search otherwise.
pub fn pieces_near(functions: &NodeFunctions, node: NodeId, place: usize) -> &[Piece]
    ensures pieces { ArePieces result.now }
    ensures values { (t : ℕ) → value_at result.now t ≡ value_of functions.now node.0 t }
{
    match functions.at_near(node, place) {
        Some(function) => function.pieces(),
        None => &[],
    }
}

/// The piece that has the minute; `None` exactly where none has. One binary search.
pub fn piece_at(pieces: &[Piece], t: Minute) -> Option<Piece>
    requires { ArePieces pieces.now }
    ensures piece { IfSome result IsPiece }
    ensures from { IfSome result (λ piece. piece.lo ≤ t) }
    ensures upto { IfSome result (λ piece. t ≤ piece.hi) }
    ensures values { IfSome result (λ piece. (s : ℕ) → piece.lo ≤ s → s ≤ piece.hi
        → value_at pieces.now s ≡ Some (line_at piece s)) }
    ensures none { result ≡ None → value_at pieces.now t ≡ None }
{
    let later = pieces.partition_point(|piece| piece.hi < t);
    let piece = *pieces.get(later)?;
    if piece.lo <= t { Some(piece) } else { None }
}
