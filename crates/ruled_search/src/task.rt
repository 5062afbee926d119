// What is searched.
use node_arcs::NodeArcs;
use route_base::{Minute, Request, TimedNet};
use ruled_states::{Labels, ReducedSums};

/// A net with the arcs that leave each node, a ruler, labels for bounds to the goal and reduced sums to each stop, if they hold, the latest
/// minutes of states, a request, and the earliest arrival by the bounds.
#[derive(Clone, Copy)]
pub struct Task<'a, R> {
    pub net: &'a TimedNet,
    pub outgoing: &'a NodeArcs,
    pub ruler: &'a R,
    pub bounds: &'a Option<Labels>,
    pub reduced: &'a Option<ReducedSums>,
    pub latest: &'a [Minute],
    pub request: Request,
    pub earliest: Minute,
}
