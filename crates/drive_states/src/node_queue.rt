// A queue of nodes.
ghost use Rattle.std.specs.Prelude.{◌≡◌, ◌≢◌, ◌⊎◌, ◌+◌, ◌≤◌, ℕ, Bool, true, false, [], ◌∷◌, length, Contains, IfOk, OnOk, MatchOption, slice_index_or};

use route_base::OutOfMemory;
use std::alloc::Global;
use std::collections::VecDeque;
use std::marker::Model;

/// Nodes that wait for a visit, in the order in which they came; a node that waits already isn't added again.
pub struct NodeQueue {
    nodes: VecDeque<u32>,
    queued: Vec<bool>,
}

impl Model for NodeQueue {
    ghost use Rattle.std.specs.Prelude.{◌≡◌, ℕ, List, Contains, true, false, slice_index_or};

    ghost Value = { List ℕ };

    ghost view = { λ a. a.nodes.items };

    ghost invariant = { λ a. (v : ℕ) → slice_index_or a.queued.items v false ≡ true
        → Contains a.nodes.items v };
}

// By hand, so that the drops of its parts are proved here alone.
impl Drop for NodeQueue {
    fn drop(self) {
        let Self { nodes, queued } = self;
    }
}

impl NodeQueue {
    /// No nodes, and room for those below a number. Linear in it.
    pub fn new(alloc: Global, count: usize) -> Result<NodeQueue, OutOfMemory>
        ensures { IfOk result (λ q. q ≡ []) }
    {
        let queued = vec![in alloc; false; count]?;
        Ok(NodeQueue {
            nodes: VecDeque::new(alloc),
            queued,
        })
    }

    /// Adds a node, unless it waits. In constant time on average.
    pub fn push(&mut self, v: u32) -> Result<(), OutOfMemory>
        ensures has { OnOk result (Contains self.new v) }
        ensures kept { (u : ℕ) → Contains self.old u → Contains self.new u }
        ensures only { (u : ℕ) → Contains self.new u → Contains self.old u ⊎ (u ≡ v) }
        ensures short { length self.new ≤ length self.old + 1 }
    {
        let place = v as usize;
        if place < self.queued.len() && self.queued[place] {
            return Ok(());
        }
        self.nodes.push_back(v)?;
        set_flag(&mut self.queued, place, true);
        Ok(())
    }

    /// Takes the first node. In constant time.
    pub fn pop(&mut self) -> Option<u32>
        ensures { MatchOption result
            ((self.old ≡ []) × (self.new ≡ [])) (λ v. self.old ≡ v ∷ self.new) }
    {
        match self.nodes.pop_front() {
            Some(v) => {
                set_flag(&mut self.queued, v as usize, false);
                Some(v)
            }
            None => None,
        }
    }
}

// Sets the flag at a place, if there is one.
fn set_flag(flags: &mut Vec<bool>, place: usize, flag: bool)
    ensures here { slice_index_or flags.new.items place false ≡ true → flag ≡ true }
    ensures others { (k : ℕ) → k ≢ place
        → slice_index_or flags.new.items k false ≡ slice_index_or flags.old.items k false }
{
    if place < flags.len() {
        flags[place] = flag;
    }
}
