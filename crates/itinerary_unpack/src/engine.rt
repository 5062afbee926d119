// The engine over cost functions.
use crate::routes::routes_of;
use crate::shared_arcs::{front_over, search_arcs};
use node_arcs::NodeArcs;
use potentials::BoundedSearch;
use propagation::search_with;
use route_base::{Bounds, FrontSearch, OutOfMemory, Request, Routes, TimedNet};
use std::alloc::Global;

/// An engine that keeps a cost function of the minute for each node that it reaches, and follows only what may still lead to a new
/// pair. Time and memory grow with the pieces of the functions, not with the minutes.
#[derive(Clone, Copy, Debug)]
pub struct FunctionEngine;

impl FrontSearch for FunctionEngine {
    fn front(
        &self,
        alloc: Global,
        net: &TimedNet,
        request: Request,
    ) -> Result<Routes, OutOfMemory> {
        let arcs = search_arcs(alloc, net)?;
        front_over(alloc, net, &arcs, request)
    }
}

impl BoundedSearch for FunctionEngine {
    fn front_with(
        &self,
        alloc: Global,
        net: &TimedNet,
        bounds: Bounds,
        request: Request,
    ) -> Result<Routes, OutOfMemory> {
        let outgoing = NodeArcs::outgoing(alloc, net)?;
        let found = search_with(alloc, net, &outgoing, bounds, request)?;
        drop(outgoing);
        let incoming = NodeArcs::incoming(alloc, net)?;
        routes_of(alloc, net, &incoming, request, &found)
    }
}
