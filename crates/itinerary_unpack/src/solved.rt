// A request with what was found for it.
use node_arcs::NodeArcs;
use propagation::Found;
use route_base::{Request, TimedNet};

/// A net with the arcs that come into each node, a request, and what was found for it.
#[derive(Clone, Copy)]
pub struct Solved<'a> {
    pub net: &'a TimedNet,
    pub request: Request,
    pub incoming: &'a NodeArcs,
    pub found: &'a Found,
}
