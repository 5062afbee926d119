// Cost tables: a label for each node and each minute from the departure to the horizon.
ghost use Rattle.std.specs.Prelude.{◌≡◌, ◌+◌, ◌-◌, ◌*◌, ◌≤◌, length};

use route_base::{Cost, Minute, NodeId};
use std::alloc::{AllocError, Global};

/// The cost of a cell that has not been reached.
pub const NONE: Cost = u64::MAX;

/// Rows by minute, columns by node: 8 bytes a cell.
#[derive(Drop)]
pub struct CostTable {
    pub width: usize,
    pub depart: Minute,
    pub until: Minute,
    pub cells: Vec<Cost>,
    ghost ordered: { depart ≤ until },
    ghost sized: { length cells.items ≡ width * (until + 1 - depart) },
}

impl CostTable {
    ghost use Rattle.std.specs.Prelude.{◌≡◌, ◌+◌, ◌-◌, ◌*◌, ℕ, IfOk};
    ghost use Rattle.plain_search.specs.Inside.Costs.{none, Lowers};
    ghost use Rattle.plain_search.specs.Inside.CostTable.{cost_of, HasShape, IsCell, IsTableSize};

    /// A table in which nothing is reached.
    pub fn new(
        alloc: Global,
        nodes: u32,
        depart: Minute,
        until: Minute,
    ) -> Result<CostTable, AllocError>
        requires { IsTableSize nodes depart until }
        ensures shape { IfOk result (HasShape nodes depart until) }
        ensures costs { IfOk result (λ table. (v t : ℕ) → cost_of table v t ≡ none) }
    {
        let width = nodes as usize;
        let rows = (until + 1 - depart) as usize;
        Ok(CostTable {
            width,
            depart,
            until,
            cells: vec![in alloc; NONE; width * rows]?,
        })
    }

    /// The label of the node and minute. In constant time.
    pub fn cost(&self, node: NodeId, minute: Minute) -> Cost
        requires { IsCell self.now node.0 minute }
        ensures { result ≡ cost_of self.now node.0 minute }
    {
        let row = (minute - self.depart) as usize;
        self.cells[row * self.width + (node.0 as usize - 1)]
    }

    /// Lowers the label to a cost, where the cost is lower. In constant time.
    pub fn lower(&mut self, node: NodeId, minute: Minute, cost: Cost)
        requires { IsCell self.old node.0 minute }
        ensures lowers { Lowers (cost_of self.old) (cost_of self.new) node.0 minute cost }
        ensures shape { HasShape self.old.width self.old.depart self.old.until self.new }
    {
        let row = (minute - self.depart) as usize;
        let place = row * self.width + (node.0 as usize - 1);
        if cost < self.cells[place] {
            self.cells[place] = cost;
        }
    }
}
