// The fourth condition: the start.
ghost use Rattle.std.specs.Prelude.{◌↔◌, ◌<◌, ◌^◌, IsTrue};
ghost use Rattle.route_base.specs.Front.{RiseAndFall};
ghost use Rattle.cost_functions.specs.Pieces.{ArePieces};
ghost use Rattle.certificate.specs.ByNode.{item_at};
ghost use Rattle.certificate_check.specs.Conditions.{IsStartRelaxed, AreBoundsInRange, value_of};
ghost use Rattle.certificate_check.specs.Inside.Passing.{HasValueWithin};

use crate::domination::is_dominated_or_late;
use crate::lookup::{bound_of, piece_at, pieces_of};
use certificate::Certificate;
use cost_functions::Piece;
use route_base::{Cost, Minute, Pair, Request};

/// Whether the start of the request has the value 0, or is dominated or late. A few binary searches; no memory.
pub fn is_start_relaxed(request: Request, pairs: &[Pair], certificate: &Certificate) -> bool
    requires pairs { RiseAndFall pairs.now }
    requires bounds { AreBoundsInRange certificate.now.bounds }
    requires depart { request.depart < 2 ^ 62 }
    ensures { IsTrue result ↔ IsStartRelaxed request pairs.now
        (item_at certificate.now.bounds) (value_of certificate.now.functions) }
{
    let bound = bound_of(&certificate.bounds, request.origin);
    if is_dominated_or_late(request.until, pairs, bound, request.depart, 0) {
        return true;
    }
    let pieces = pieces_of(&certificate.functions, request.origin);
    has_value_within(pieces, request.depart, 0)
}

// Whether the pieces have a value of at most x at t. One binary search.
fn has_value_within(pieces: &[Piece], t: Minute, x: Cost) -> bool
    requires { ArePieces pieces.now }
    ensures { IsTrue result ↔ HasValueWithin pieces.now t x }
{
    match piece_at(pieces, t) {
        Some(piece) => piece.value(t) <= x,
        None => false,
    }
}
