// The whole cost table as points, node by node.
ghost use Rattle.std.specs.Prelude.{◌+◌, ◌-◌, ◌≤◌, ◌<◌, ℕ, All, AllPairs, Contains, IfOk};
ghost use Rattle.route_base.specs.Legs.{CostsFit};
ghost use Rattle.route_base.specs.Net.{IsGoodRequest, setting_of};
ghost use Rattle.route_base.specs.declared.limits.TheConstants.{LONGEST_HORIZON};
ghost use Rattle.plain_search.specs.Values.{AreValues};
ghost use Rattle.plain_search.specs.Words.{cost_of, IsFinalTable, IsNode, IsKnownCost};

use crate::cost_table::{CostTable, NONE};
use crate::search::Search;
use route_base::{Cost, Listing, Minute, NodeId, OutOfMemory, Request, TimedNet};
use std::alloc::{AllocError, Global};

/// The minutes at which a node can be reached, by rising minute, each with the least cost until then.
pub type Points = Listing<(Minute, Cost)>;

/// The points of each node that has some, by rising node.
pub type NodePoints = Listing<(NodeId, Points)>;

impl Search<'_> {
    // The points of a node: a column of the table without its cells that are not reached.
    fn points_of(
        &self,
        alloc: Global,
        table: &CostTable,
        node: NodeId,
    ) -> Result<Vec<(Minute, Cost)>, AllocError>
        requires node { IsNode self.now.net.now node.0 }
        requires table { IsFinalTable self.now.net.now self.now.request table.now }
        ensures rising { IfOk result (λ points. AllPairs (λ p q. p.0 < q.0) points.items) }
        ensures labels { IfOk result (λ points.
            All (λ p. IsKnownCost (cost_of table.now) node.0 p.0 p.1) points.items) }
        ensures all { IfOk result (λ points. (t x : ℕ) →
            IsKnownCost (cost_of table.now) node.0 t x → Contains points.items (t, x)) }
    {
        let mut points = Vec::new(alloc);
        for t in self.request.depart..self.request.until + 1 {
            let cost = table.cost(node, t);
            if cost != NONE {
                points.push((t, cost))?;
            }
        }
        Ok(points)
    }

    // The points of all nodes that have some.
    fn read_points(
        &self,
        alloc: Global,
        table: &CostTable,
    ) -> Result<Vec<(NodeId, Points)>, OutOfMemory>
        requires { IsFinalTable self.now.net.now self.now.request table.now }
        ensures { IfOk result (λ entries.
            AreValues (setting_of self.now.net.now) self.now.request entries.items) }
    {
        let mut entries = Vec::new(alloc);
        for v in 0..self.net.node_count() {
            let node = NodeId(v + 1);
            let points = self.points_of(alloc, table, node)?;
            if points.len() > 0 {
                entries.push((node, Points::from_vec(points)))?;
            }
        }
        Ok(entries)
    }
}

/// The least cost at which each node can be reached at each minute of the request.
///
/// Takes the time and the memory of the engine's table, one more look at each of its cells, and 16 bytes for each node and
/// minute that is reached.
pub fn values(alloc: Global, net: &TimedNet, request: Request) -> Result<NodePoints, OutOfMemory>
    requires good { IsGoodRequest net.now request }
    requires in_time { request.depart ≤ request.until }
    requires horizon { request.until - request.depart ≤ LONGEST_HORIZON }
    requires fit { CostsFit (setting_of net.now) request }
    ensures { IfOk result (AreValues (setting_of net.now) request) }
{
    let search = Search::new(alloc, net, request)?;
    let table = search.least_costs(alloc)?;
    let entries = search.read_points(alloc, &table)?;
    Ok(NodePoints::from_vec(entries))
}
