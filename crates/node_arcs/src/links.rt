// The two ends of an arc.
ghost use Rattle.std.specs.Prelude.{◌≡◌};
ghost use Rattle.node_arcs.specs.Stars.{node_at};

use route_base::{NodeId, TimedArc};

/// An end of an arc.
#[derive(Clone, Copy)]
pub enum End {
    Tail,
    Head,
}

impl End {
    // The node at this end of the arc.
    pub(crate) fn of(self, arc: &TimedArc) -> NodeId
        ensures { result.0 ≡ node_at self arc.now }
    {
        match self {
            End::Tail => arc.tail,
            End::Head => arc.head,
        }
    }
}
