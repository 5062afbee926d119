// Nodes with keys that rise.
ghost use Rattle.std.specs.Prelude.{◌≡◌, ◌≤◌, ◌<◌, ◌+◌, ◌-◌, ◌^◌, ℕ, Some, None, length, IfOk, IfSome, IsNone, OnOk, OnErr};
ghost use Rattle.std.specs.Option.{IsSomeAnd};
ghost use Rattle.label_queue.specs.Keys.{key_at, IsSet, IsOneOfLeastTaken};

use crate::node_keys::NodeKeys;
use crate::ring::Ring;
use route_base::{NodeId, OutOfMemory};
use std::alloc::Global;
use std::marker::Model;

/// At most one key for each node from 1 to n, where n is fixed, and all keys are from the floor, which rises, to the floor + span - 1
/// (the queue of Dial 1969); contracts see the list of the n keys, the floor and the span.
pub struct BucketQueue {
    ring: Ring,
    keys: NodeKeys,
    count: usize,
}

impl Model for BucketQueue {
    ghost use Rattle.label_queue.specs.Rising.{RisingKeys};

    ghost Value = { RisingKeys };

    ghost use Rattle.std.specs.Prelude.{length};
    ghost use Rattle.label_queue.specs.Inside.Rings.{IsBucketed};

    ghost view = { λ a. record {
      keys = a.keys;
      floor = a.ring.floor;
      span = length a.ring.buckets.items;
    } };

    ghost invariant = { λ a. IsBucketed a.ring a.keys a.count };
}

// By hand, so that the drops of its parts are proved here alone.
impl Drop for BucketQueue {
    fn drop(self) {
        let Self { ring, keys, count } = self;
    }
}

impl BucketQueue {
    /// An empty queue with the room for nodes 1 to n, and floor 0. Linear in n and span, in time and memory.
    pub fn new(alloc: Global, n: u32, span: usize) -> Result<BucketQueue, OutOfMemory>
        requires some { 1 ≤ span }
        ensures room { IfOk result (λ q. length q.keys ≡ n) }
        ensures empty { IfOk result (λ q. (v : ℕ) → key_at q.keys v ≡ None) }
        ensures floor { IfOk result (λ q. q.floor ≡ 0) }
        ensures span { IfOk result (λ q. q.span ≡ span) }
    {
        Ok(BucketQueue {
            ring: Ring::new(alloc, span)?,
            keys: NodeKeys::new(alloc, n)?,
            count: 0,
        })
    }

    /// The key of a node; `None` exactly where it has none, so also for a node that isn't from 1 to n. In constant time.
    pub fn key_of(&self, v: NodeId) -> Option<u64>
        ensures { result ≡ key_at self.now.keys v.0 }
    {
        self.keys.key_of(v)
    }

    /// Gives a node that has no key a key. In constant time, but for the growth of a bucket; without memory for it nothing changes.
    pub fn put(&mut self, v: NodeId, key: u64) -> Result<(), OutOfMemory>
        requires low { 1 ≤ v.0 }
        requires high { v.0 ≤ length self.old.keys }
        requires new { key_at self.old.keys v.0 ≡ None }
        requires floor { self.old.floor ≤ key }
        requires span { key < self.old.floor + self.old.span }
        requires real { key < 2 ^ 64 - 1 }
        ensures set { OnOk result (IsSet self.old.keys self.new.keys v.0 (Some key)) }
        ensures floor { self.new.floor ≡ self.old.floor }
        ensures span { self.new.span ≡ self.old.span }
        ensures failed { OnErr result (self.new ≡ self.old) }
    {
        self.ring.add(v, key)?;
        self.keys.set(v, key);
        self.count += 1;
        Ok(())
    }

    /// Gives a node that has a key one that is no larger. The entry of the old key stays until the floor comes to it. In constant time,
    /// but for the growth of a bucket; without memory for it nothing changes.
    pub fn lower(&mut self, v: NodeId, key: u64) -> Result<(), OutOfMemory>
        requires low { 1 ≤ v.0 }
        requires high { v.0 ≤ length self.old.keys }
        requires larger { IsSomeAnd (key_at self.old.keys v.0) (λ before. key ≤ before) }
        requires floor { self.old.floor ≤ key }
        ensures set { OnOk result (IsSet self.old.keys self.new.keys v.0 (Some key)) }
        ensures floor { self.new.floor ≡ self.old.floor }
        ensures span { self.new.span ≡ self.old.span }
        ensures failed { OnErr result (self.new ≡ self.old) }
    {
        self.ring.add(v, key)?;
        self.keys.set(v, key);
        Ok(())
    }

    /// Takes out a node with the least key, and answers it with its key, which is the floor then; `None` exactly where no node has a
    /// key. Takes a step for each number that the floor rises by, and for each entry that is taken out.
    pub fn take_least(&mut self) -> Option<(NodeId, u64)>
        ensures some { IfSome result (λ r.
            IsOneOfLeastTaken self.old.keys self.new.keys r.0.0 r.1) }
        ensures floor { IfSome result (λ r. self.new.floor ≡ r.1) }
        ensures span { self.new.span ≡ self.old.span }
        ensures none { IsNone result → (v : ℕ) → key_at self.old.keys v ≡ None }
        ensures same { IsNone result → self.new ≡ self.old }
    {
        if self.count == 0 {
            return None;
        }
        let v = NodeId(self.ring.take_lowest(&self.keys));
        self.keys.clear(v);
        self.count -= 1;
        Some((v, self.ring.floor))
    }
}
