// The value of a list of pieces at a minute.
ghost use Rattle.std.specs.Prelude.{◌≡◌};
ghost use Rattle.cost_functions.specs.Pieces.{value_at, ArePieces};

use crate::pieces::Piece;
use route_base::{Cost, Minute};

// The value at a minute, by a binary search.
pub fn value_of(pieces: &[Piece], t: Minute) -> Option<Cost>
    requires { ArePieces pieces.now }
    ensures { result ≡ value_at pieces.now t }
{
    let later = pieces.partition_point(|piece| piece.hi < t);
    match pieces.get(later) {
        Some(piece) => {
            if piece.lo <= t {
                Some(piece.value(t))
            } else {
                None
            }
        }
        None => None,
    }
}
