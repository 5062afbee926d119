// Path reconstruction: from a label back to the origin, without parent pointers; predecessors are found by equal cost.
ghost use Rattle.std.specs.Prelude.{◌≡◌, ◌+◌, ◌<◌, ◌≤◌, ℕ, length, None, IfOk, IfSome, reverse, All};
ghost use Rattle.route_base.specs.declared.types.Leg.TheVariants.{Drive, Wait};
ghost use Rattle.node_arcs.specs.declared.links.End.TheVariants.{Head};
ghost use Rattle.plain_search.specs.Words.{Drives, Waits, Walks, setting_of, steps_of, start_of, EndsAt, none, at, cost_of};
ghost use Rattle.plain_search.specs.Words.{LeadsTo, IsSingle, IsSoundTable, IsFinalTable, HasSoundLabel, IsNode, IsMinute};
ghost use Rattle.plain_search.specs.Words.{IsFirst, IsFirstLeg, value_of};

use crate::cost_table::{CostTable, NONE};
use crate::forward::weight_to_wait;
use crate::search::Search;
use route_base::{ArcId, Leg, Minute, NodeId};
use std::alloc::{AllocError, Global};

/// The node and minute at which a step begins, and the step as a leg.
#[derive(Clone, Copy)]
pub struct Source {
    pub leg: Leg,
    pub node: NodeId,
    pub minute: Minute,
}

impl Search<'_> {
    // The start of a drive over the arc that ends at its head at this minute, at exactly this label.
    fn drive_into(
        &self,
        table: &CostTable,
        id: ArcId,
        node: NodeId,
        minute: Minute,
    ) -> Option<Source>
        requires sound { IsSoundTable self.now.net.now self.now.request
            (self.now.request.until + 1) table.now }
        requires head { EndsAt self.now.net.now Head node.0 id.0 }
        requires minute { IsMinute self.now.request minute }
        ensures some { IfSome result (LeadsTo (setting_of self.now.net.now)
            self.now.request.until (cost_of table.now) node.0 minute) }
        ensures leg { IfSome result (λ from. from.leg ≡ Drive id) }
        ensures none { result ≡ None → (u k : ℕ) → cost_of table.now u k < none
            → Drives (setting_of self.now.net.now) self.now.request.until id.0
            (at (cost_of table.now) u k) (at (cost_of table.now) node.0 minute) → ⊥ }
    {
        let arc = self.net.arc(id)?;
        if arc.minutes > minute - self.request.depart {
            return None;
        }
        let start = minute - arc.minutes;
        let before = table.cost(arc.tail, start);
        if before == NONE {
            return None;
        }
        if before + arc.cost != table.cost(node, minute) {
            return None;
        }
        if !self.net.is_open(id, start, arc.minutes) {
            return None;
        }
        Some(Source {
            leg: Leg::Drive(id),
            node: arc.tail,
            minute: start,
        })
    }

    // The start of a wait of a minute that ends at the node at this minute, at exactly this label.
    fn wait_into(&self, table: &CostTable, node: NodeId, minute: Minute) -> Option<Source>
        requires sound { IsSoundTable self.now.net.now self.now.request
            (self.now.request.until + 1) table.now }
        requires node { IsNode self.now.net.now node.0 }
        requires minute { IsMinute self.now.request minute }
        ensures some { IfSome result (LeadsTo (setting_of self.now.net.now)
            self.now.request.until (cost_of table.now) node.0 minute) }
        ensures leg { IfSome result (λ from. from.leg ≡ Wait 1) }
        ensures none { result ≡ None → (u k : ℕ) → cost_of table.now u k < none
            → Waits (setting_of self.now.net.now) self.now.request.until
            (at (cost_of table.now) u k) (at (cost_of table.now) node.0 minute) → ⊥ }
    {
        if minute == self.request.depart {
            return None;
        }
        let start = minute - 1;
        let weight = weight_to_wait(self.net, node)?;
        let before = table.cost(node, start);
        if before == NONE {
            return None;
        }
        if before + weight != table.cost(node, minute) {
            return None;
        }
        if self.net.is_shut(node, start) {
            return None;
        }
        Some(Source {
            leg: Leg::Wait(1),
            node,
            minute: start,
        })
    }

    // The predecessor: the step that ends here, at exactly this label; a wait where one does, else the drive over the arc of the
    // smallest number.
    fn predecessor(&self, table: &CostTable, node: NodeId, minute: Minute) -> Source
        requires label { HasSoundLabel self.now.net.now self.now.request
            (self.now.request.until + 1) table.now node.0 minute }
        requires later { node.0 ≡ self.now.request.origin.0
            → minute ≡ self.now.request.depart → ⊥ }
        ensures leads { LeadsTo (setting_of self.now.net.now) self.now.request.until
            (cost_of table.now) node.0 minute result }
        ensures first { IsFirstLeg (setting_of self.now.net.now) self.now.request.until
            (value_of (cost_of table.now)) (at (cost_of table.now) node.0 minute) result.leg }
    {
        if let Some(found) = self.wait_into(table, node, minute) {
            return found;
        }
        for a in self.incoming.of(node) {
            if let Some(found) = self.drive_into(table, *a, node, minute) {
                return found;
            }
        }
        unreachable!()
    }

    /// The steps of the first itinerary to the goal at a minute, the last first.
    pub fn steps_back(
        &self,
        alloc: Global,
        table: &CostTable,
        arrival: Minute,
    ) -> Result<Vec<Leg>, AllocError>
        requires label { HasSoundLabel self.now.net.now self.now.request
            (self.now.request.until + 1) table.now self.now.request.goal.0 arrival }
        requires relaxed { IsFinalTable self.now.net.now self.now.request table.now }
        ensures single { IfOk result (λ legs. All IsSingle legs.items) }
        ensures short { IfOk result (λ legs. length legs.items ≤ arrival) }
        ensures walk { IfOk result (λ legs. Walks (setting_of self.now.net.now)
            self.now.request.until (steps_of (reverse legs.items)) (start_of self.now.request)
            (at (cost_of table.now) self.now.request.goal.0 arrival)) }
        ensures first { IfOk result (λ legs. IsFirst (setting_of self.now.net.now)
            self.now.request (reverse legs.items) (record {
              arrival = arrival;
              cost = cost_of table.now self.now.request.goal.0 arrival;
            })) }
    {
        let mut legs = Vec::new(alloc);
        let mut node = self.request.goal;
        let mut minute = arrival;
        'back: while node.0 != self.request.origin.0 || minute != self.request.depart {
            let from = self.predecessor(table, node, minute);
            legs.push(from.leg)?;
            node = from.node;
            minute = from.minute;
        }
        Ok(legs)
    }
}
