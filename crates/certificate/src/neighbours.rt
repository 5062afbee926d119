// Tests of neighbours in a list.
ghost use Rattle.std.specs.Prelude.{◌≡◌, Bool};
ghost use Rattle.certificate.specs.Inside.Reading.{is_wait, may_follow_entry, may_follow_leg};
ghost use Rattle.certificate.specs.Inside.Reading.{may_follow_piece, neighbours_pass};

use cost_functions::Piece;
use route_base::{Leg, NodeId};

/// An item that not every other may follow.
pub trait Follow {
    /// Whether the second may come right behind the first.
    ghost test: { Self → Self → Bool };

    /// Whether the next one may come right behind this one.
    fn may_precede(&self, next: &Self) -> bool
        ensures { result ≡ test self.now next.now };
}

impl Follow for Leg {
    ghost test = { may_follow_leg };

    fn may_precede(&self, next: &Leg) -> bool {
        !(is_wait(*self) && is_wait(*next))
    }
}

impl Follow for Piece {
    ghost test = { may_follow_piece };

    fn may_precede(&self, next: &Piece) -> bool {
        self.hi < next.lo
    }
}

impl<T> Follow for (NodeId, T) {
    ghost test = { may_follow_entry };

    fn may_precede(&self, next: &(NodeId, T)) -> bool {
        self.0.0 < next.0.0
    }
}

/// Whether each item may come right behind the one before it. Linear in their number; no memory.
pub fn are_in_order<T: Follow>(items: &[T]) -> bool
    ensures { result ≡ neighbours_pass T.test items.now }
{
    let mut left = items;
    'neighbours: while let [first, others @ ..] = left {
        let [second, ..] = others else {
            break;
        };
        if !first.may_precede(second) {
            return false;
        }
        left = others;
    }
    true
}

// Whether the leg is a wait.
fn is_wait(leg: Leg) -> bool
    ensures { result ≡ is_wait leg }
{
    match leg {
        Leg::Drive(_) => false,
        Leg::Wait(_) => true,
    }
}
