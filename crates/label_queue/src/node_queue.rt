// The trait of both queues.
ghost use Rattle.std.specs.Prelude.{◌≡◌, ◌≤◌, ◌<◌, ◌+◌, ◌-◌, ◌^◌, ℕ, Option, Some, None, List, length, IfSome, IsNone, OnOk, OnErr};
ghost use Rattle.std.specs.Option.{IsSomeAnd};
ghost use Rattle.label_queue.specs.Keys.{key_at, IsSet, IsOneOfLeastTaken};
ghost use Rattle.label_queue.specs.Rising.{AdmitsFrom};

use crate::buckets::BucketQueue;
use crate::queue::LabelQueue;
use route_base::{NodeId, OutOfMemory};

/// A queue of nodes from which a node with the least key comes out first. Only keys that it admits are put into it; when a node is
/// taken out, it admits all keys from that node's on that are greater by less than `span`.
pub trait NodeQueue {
    ghost keys: { Self → List (Option ℕ) };

    ghost span: { Self → ℕ };

    ghost admits: { Self → ℕ → Type 0 };

    /// Gives a node that has no key a key; without memory for it no key changes.
    fn put(&mut self, v: NodeId, key: u64) -> Result<(), OutOfMemory>
        requires low { 1 ≤ v.0 }
        requires high { v.0 ≤ length (keys self.old) }
        requires new { key_at (keys self.old) v.0 ≡ None }
        requires admitted { admits self.old key }
        ensures set { OnOk result (IsSet (keys self.old) (keys self.new) v.0 (Some key)) }
        ensures kept { OnErr result (keys self.new ≡ keys self.old) }
        ensures span { span self.new ≡ span self.old }
        ensures admits { (k : ℕ) → admits self.old k → admits self.new k };

    /// Gives a node that has a key one that is no larger; without memory for it no key changes.
    fn lower(&mut self, v: NodeId, key: u64) -> Result<(), OutOfMemory>
        requires low { 1 ≤ v.0 }
        requires high { v.0 ≤ length (keys self.old) }
        requires larger { IsSomeAnd (key_at (keys self.old) v.0) (λ before. key ≤ before) }
        requires admitted { admits self.old key }
        ensures set { OnOk result (IsSet (keys self.old) (keys self.new) v.0 (Some key)) }
        ensures kept { OnErr result (keys self.new ≡ keys self.old) }
        ensures span { span self.new ≡ span self.old }
        ensures admits { (k : ℕ) → admits self.old k → admits self.new k };

    /// Takes out a node with the least key, and answers it with its key; `None` exactly where no node has a key.
    fn take_least(&mut self) -> Option<(NodeId, u64)>
        ensures some { IfSome result (λ r.
            IsOneOfLeastTaken (keys self.old) (keys self.new) r.0.0 r.1) }
        ensures none { IsNone result → (v : ℕ) → key_at (keys self.old) v ≡ None }
        ensures same { IsNone result → keys self.new ≡ keys self.old }
        ensures span { span self.new ≡ span self.old }
        ensures admits { IfSome result (λ r. AdmitsFrom (admits self.new) r.1 (span self.new)) };
}

impl NodeQueue for LabelQueue {
    ghost keys = { λ q. q };

    ghost span = { λ q. 2 ^ 64 };

    ghost admits = { λ q key. Unit {0} };

    #[inline(always)]
    fn put(&mut self, v: NodeId, key: u64) -> Result<(), OutOfMemory> {
        self.put(v, key);
        Ok(())
    }

    #[inline(always)]
    fn lower(&mut self, v: NodeId, key: u64) -> Result<(), OutOfMemory> {
        self.lower(v, key);
        Ok(())
    }

    #[inline(always)]
    fn take_least(&mut self) -> Option<(NodeId, u64)> {
        self.take_least()
    }
}

impl NodeQueue for BucketQueue {
    ghost keys = { λ q. q.keys };

    ghost span = { λ q. q.span };

    ghost admits = { λ q key. (q.floor ≤ key) × (key < q.floor + q.span) × (key < 2 ^ 64 - 1) };

    #[inline(always)]
    fn put(&mut self, v: NodeId, key: u64) -> Result<(), OutOfMemory> {
        self.put(v, key)
    }

    #[inline(always)]
    fn lower(&mut self, v: NodeId, key: u64) -> Result<(), OutOfMemory> {
        self.lower(v, key)
    }

    #[inline(always)]
    fn take_least(&mut self) -> Option<(NodeId, u64)> {
        self.take_least()
    }
}
