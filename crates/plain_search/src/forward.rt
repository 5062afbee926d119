// The forward pass: every step takes at least a minute, so the labels at minute t are final when t is processed.
ghost use Rattle.std.specs.Prelude.{◌≡◌, ◌+◌, ℕ, IfOk};
ghost use Rattle.node_arcs.specs.declared.links.End.TheVariants.{Tail};
ghost use Rattle.plain_search.specs.Words.{Step, drive, wait, setting_of, cost_of, EndsAt, ChangesLater};
ghost use Rattle.plain_search.specs.Words.{IsRelaxedFrom, IsSoundTable, IsFinalTable, HasSoundLabel, IsNode, IsMinute};

use crate::cost_table::{CostTable, NONE};
use crate::search::Search;
use route_base::{ArcId, Cost, Minute, NodeId, TimedNet};
use std::alloc::{AllocError, Global};

// The weight of a minute's wait at the node; `None` where waiting isn't allowed.
pub fn weight_to_wait(net: &TimedNet, node: NodeId) -> Option<Cost>
    requires { IsNode net.now node.0 }
    ensures value { result ≡ (setting_of net.now).weight node.0 }
{
    net.weight(node)
}

impl Search<'_> {
    // Relaxes one arc from its tail at a minute.
    fn relax_arc(&self, table: &mut CostTable, node: NodeId, id: ArcId, minute: Minute)
        requires label { HasSoundLabel self.now.net.now self.now.request (minute + 1)
            table.old node.0 minute }
        requires tail { EndsAt self.now.net.now Tail node.0 id.0 }
        ensures sound { IsSoundTable self.now.net.now self.now.request (minute + 1) table.new }
        ensures later { ChangesLater (cost_of table.old) (cost_of table.new) minute }
        ensures lands { IsRelaxedFrom (setting_of self.now.net.now) self.now.request.until
            (cost_of table.new) (drive id.0) node.0 minute }
    {
        let Some(arc) = self.net.arc(id) else {
            return;
        };
        if arc.minutes > self.request.until - minute {
            return;
        }
        if !self.net.is_open(id, minute, arc.minutes) {
            return;
        }
        let cost = table.cost(node, minute);
        table.lower(arc.head, minute + arc.minutes, cost + arc.cost);
    }

    // Relaxes the arcs that leave the node at a minute.
    fn relax_arcs(&self, table: &mut CostTable, node: NodeId, minute: Minute)
        requires label { HasSoundLabel self.now.net.now self.now.request (minute + 1)
            table.old node.0 minute }
        ensures sound { IsSoundTable self.now.net.now self.now.request (minute + 1) table.new }
        ensures later { ChangesLater (cost_of table.old) (cost_of table.new) minute }
        ensures lands { (a : ℕ) → IsRelaxedFrom (setting_of self.now.net.now)
            self.now.request.until (cost_of table.new) (drive a) node.0 minute }
    {
        for a in self.outgoing.of(node) {
            self.relax_arc(table, node, *a, minute);
        }
    }

    // Relaxes a wait at the node at a minute.
    fn relax_wait(&self, table: &mut CostTable, node: NodeId, minute: Minute)
        requires label { HasSoundLabel self.now.net.now self.now.request (minute + 1)
            table.old node.0 minute }
        ensures sound { IsSoundTable self.now.net.now self.now.request (minute + 1) table.new }
        ensures later { ChangesLater (cost_of table.old) (cost_of table.new) minute }
        ensures lands { IsRelaxedFrom (setting_of self.now.net.now) self.now.request.until
            (cost_of table.new) wait node.0 minute }
    {
        let Some(weight) = weight_to_wait(self.net, node) else {
            return;
        };
        if minute == self.request.until {
            return;
        }
        if self.net.is_shut(node, minute) {
            return;
        }
        let cost = table.cost(node, minute);
        table.lower(node, minute + 1, cost + weight);
    }

    // Relaxes all steps from a node at a minute, where it is reached.
    fn relax_node(&self, table: &mut CostTable, node: NodeId, minute: Minute)
        requires node { IsNode self.now.net.now node.0 }
        requires minute { IsMinute self.now.request minute }
        requires sound { IsSoundTable self.now.net.now self.now.request (minute + 1) table.old }
        ensures sound { IsSoundTable self.now.net.now self.now.request (minute + 1) table.new }
        ensures later { ChangesLater (cost_of table.old) (cost_of table.new) minute }
        ensures lands { (x : Step) → IsRelaxedFrom (setting_of self.now.net.now)
            self.now.request.until (cost_of table.new) x node.0 minute }
    {
        if table.cost(node, minute) == NONE {
            return;
        }
        self.relax_arcs(table, node, minute);
        self.relax_wait(table, node, minute);
    }

    // Relaxes all steps from all nodes at a minute.
    fn relax_minute(&self, table: &mut CostTable, minute: Minute)
        requires minute { IsMinute self.now.request minute }
        requires sound { IsSoundTable self.now.net.now self.now.request (minute + 1) table.old }
        ensures sound { IsSoundTable self.now.net.now self.now.request (minute + 1) table.new }
        ensures later { ChangesLater (cost_of table.old) (cost_of table.new) minute }
        ensures lands { (x : Step) (v : ℕ) → IsRelaxedFrom (setting_of self.now.net.now)
            self.now.request.until (cost_of table.new) x v minute }
    {
        for v in 0..self.net.node_count() {
            self.relax_node(table, NodeId(v + 1), minute);
        }
    }

    /// The least cost for each node and minute, by label setting in the order of minutes.
    pub fn least_costs(&self, alloc: Global) -> Result<CostTable, AllocError>
        ensures { IfOk result (IsFinalTable self.now.net.now self.now.request) }
    {
        let request = self.request;
        let nodes = self.net.node_count();
        let mut table = CostTable::new(alloc, nodes, request.depart, request.until)?;
        table.lower(request.origin, request.depart, 0);
        for t in request.depart..request.until + 1 {
            self.relax_minute(&mut table, t);
        }
        Ok(table)
    }
}
