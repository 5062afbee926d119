// Road graphs.
ghost use Rattle.std.specs.Prelude.{◌≡◌, IfSome, length};
ghost use Rattle.route_base.specs.Net.{at_number};
ghost use Rattle.dimacs_reader.specs.GraphModel.{IsGoodGraph, IsGoodGraphArc, graph_with};

use route_base::{ArcId, NodeId};
use std::marker::Model;

/// An arc from its tail to its head, with the whole minutes that it takes.
#[derive(Clone, Copy, Debug, PartialEq, Eq)]
pub struct GraphArc {
    pub tail: NodeId,
    pub head: NodeId,
    pub minutes: u64,
}

/// A road graph: nodes from 1 to their number, and arcs in the order of their file. Parallel arcs and loops are allowed.
pub struct Graph {
    nodes: u32,
    arcs: Vec<GraphArc>,
}

impl Model for Graph {
    ghost use Rattle.dimacs_reader.specs.GraphModel.{GraphModel, IsGoodGraph, graph_with};

    ghost Value = { GraphModel };

    ghost view = { λ g. graph_with g.nodes g.arcs.items };

    ghost invariant = { λ g. IsGoodGraph (graph_with g.nodes g.arcs.items) };
}

// By hand, so that the drops of its parts are proved here alone.
impl Drop for Graph {
    fn drop(self) {
        let Graph { nodes: _, arcs: _ } = self;
    }
}

impl Graph {
    // The graph of these parts.
    pub(crate) fn new(nodes: u32, arcs: Vec<GraphArc>) -> Graph
        requires { IsGoodGraph (graph_with nodes arcs.items) }
        ensures { result ≡ graph_with nodes arcs.items }
    {
        Graph { nodes, arcs }
    }

    /// The number of nodes, from 1 to 500,000. In constant time.
    pub fn node_count(&self) -> u32
        ensures value { result ≡ self.now.nodes }
        ensures good { IsGoodGraph self.now }
    {
        self.nodes
    }

    /// The number of arcs, at most 1,000,000. In constant time.
    pub fn arc_count(&self) -> u32
        ensures value { result ≡ length self.now.arcs }
        ensures good { IsGoodGraph self.now }
    {
        self.arcs.len() as u32
    }

    /// The arc of this number; `None` exactly where it isn't from 1 to the number of arcs. In constant time.
    pub fn arc(&self, a: ArcId) -> Option<GraphArc>
        ensures value { result ≡ at_number self.now.arcs a.0 }
        ensures good { IfSome result (IsGoodGraphArc self.now.nodes) }
    {
        let arcs = self.arcs.as_slice();
        if a.0 == 0 {
            return None;
        }
        arcs.get(a.0 as usize - 1).copied()
    }
}
