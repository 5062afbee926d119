// Nodes with keys.
ghost use Rattle.std.specs.Prelude.{◌≡◌, ◌≤◌, ℕ, Some, None, length, IfOk, IfSome, IsNone};
ghost use Rattle.std.specs.Option.{IsSomeAnd};
ghost use Rattle.label_queue.specs.Keys.{key_at, IsSet, IsLeastTaken};

use crate::heap::{Heap, Label};
use route_base::{NodeId, OutOfMemory};
use std::alloc::Global;
use std::marker::Model;

/// At most one key for each node from 1 to n, where n is fixed; contracts see the list of the n keys.
#[derive(Drop)]
pub struct LabelQueue {
    heap: Heap,
}

impl Model for LabelQueue {
    ghost use Rattle.std.specs.Prelude.{List, Option, ℕ};
    ghost use Rattle.label_queue.specs.Inside.Heaps.{IsHeap, keys_in};

    ghost Value = { List (Option ℕ) };

    ghost view = { λ a. keys_in a.heap };

    ghost invariant = { λ a. IsHeap a.heap };
}

impl LabelQueue {
    /// An empty queue with the room for nodes 1 to n. Linear in n, in time and memory; no other call takes memory.
    pub fn new(alloc: Global, n: u32) -> Result<LabelQueue, OutOfMemory>
        ensures room { IfOk result (λ q. length q ≡ n) }
        ensures empty { IfOk result (λ q. (v : ℕ) → key_at q v ≡ None) }
    {
        let nodes = n as usize;
        Ok(LabelQueue {
            heap: Heap {
                count: 0,
                labels: Vec::with_capacity(alloc, nodes)?,
                places: vec![in alloc; None; nodes]?,
            },
        })
    }

    /// The key of a node; `None` exactly where it has none, so also for a node that isn't from 1 to n. In constant time.
    pub fn key_of(&self, v: NodeId) -> Option<u64>
        ensures { result ≡ key_at self.now v.0 }
    {
        if v.0 == 0 || v.0 as usize > self.heap.places.len() {
            return None;
        }
        let place = self.heap.places[v.0 as usize - 1]?;
        Some(self.heap.labels[place as usize].key)
    }

    /// Gives a node that has no key a key. Logarithmic in the number of nodes with keys.
    pub fn put(&mut self, v: NodeId, key: u64)
        requires low { 1 ≤ v.0 }
        requires high { v.0 ≤ length self.old }
        requires new { key_at self.old v.0 ≡ None }
        ensures { IsSet self.old self.new v.0 (Some key) }
    {
        let label = Label { key, node: v.0 };
        self.heap.insert(label);
    }

    /// Gives a node that has a key one that is no larger. Logarithmic in the number of nodes with keys.
    pub fn lower(&mut self, v: NodeId, key: u64)
        requires low { 1 ≤ v.0 }
        requires high { v.0 ≤ length self.old }
        requires larger { IsSomeAnd (key_at self.old v.0) (λ before. key ≤ before) }
        ensures { IsSet self.old self.new v.0 (Some key) }
    {
        let lowered = Label { key, node: v.0 };
        self.heap.decrease(lowered);
    }

    /// Takes out the node with the least key, the smallest of them at equal keys, and answers it with its key; `None` exactly
    /// where no node has a key. Logarithmic in the number of nodes with keys.
    pub fn take_least(&mut self) -> Option<(NodeId, u64)>
        ensures some { IfSome result (λ r. IsLeastTaken self.old self.new r.0.0 r.1) }
        ensures none { IsNone result → (v : ℕ) → key_at self.old v ≡ None }
        ensures same { IsNone result → self.new ≡ self.old }
    {
        let label = self.heap.take_first()?;
        Some((NodeId(label.node), label.key))
    }
}
