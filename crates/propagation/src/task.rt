// The net and the request that are searched, with the lists of arcs and the bounds that are made once for a search.
use node_arcs::NodeArcs;
use route_base::{Bounds, Minute, Request, TimedNet};

/// A net with the arcs that leave each node, a request, bounds to its goal, and the earliest arrival there by the bounds.
#[derive(Clone, Copy)]
pub struct Task<'a> {
    pub net: &'a TimedNet,
    pub outgoing: &'a NodeArcs,
    pub bounds: &'a Bounds,
    pub request: Request,
    pub earliest: Minute,
}
