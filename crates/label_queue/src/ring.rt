// A circular list of buckets.
ghost use Rattle.std.specs.Prelude.{◌≡◌, ◌≤◌, ◌<◌, ◌+◌, ◌-◌, ◌^◌, ◌⊎◌, ℕ, Some, [], length, IfOk, IfSome, IsNone, OnOk};
ghost use Rattle.std.specs.List.{Contains, sum_by};
ghost use Rattle.label_queue.specs.Keys.{key_at};
ghost use Rattle.label_queue.specs.Inside.Rings.{one_key, HasEntry, KeepsEntries, PassesFloor, TakesEntry, HoldsKeys, LeavesLeast};

use crate::node_keys::NodeKeys;
use route_base::{NodeId, OutOfMemory};
use std::alloc::Global;

/// The bucket at `place` has the nodes whose key is the floor, and each next one, past the last from the first on, those whose key is
/// one larger. An entry counts only where its node has the key of its bucket.
#[derive(Drop)]
pub struct Ring {
    pub buckets: Vec<Vec<u32>>,
    pub place: usize,
    pub floor: u64,
}

impl Ring {
    /// Empty buckets, with floor 0 at the first.
    pub fn new(alloc: Global, span: usize) -> Result<Ring, OutOfMemory>
        ensures span { IfOk result (λ ring. length ring.buckets.items ≡ span) }
        ensures place { IfOk result (λ ring. ring.place ≡ 0) }
        ensures floor { IfOk result (λ ring. ring.floor ≡ 0) }
    {
        let mut buckets = Vec::with_capacity(alloc, span)?;
        for _ in 0..span {
            buckets.push(Vec::new(alloc))?;
        }
        Ok(Ring {
            buckets,
            place: 0,
            floor: 0,
        })
    }

    /// Adds an entry of a node to the bucket of a key. Whether there is memory for it or not, all others stay.
    #[inline(always)]
    pub fn add(&mut self, v: NodeId, key: u64) -> Result<(), OutOfMemory>
        requires place { self.old.place < length self.old.buckets.items }
        requires low { self.old.floor ≤ key }
        requires high { key < self.old.floor + length self.old.buckets.items }
        ensures kept { KeepsEntries self.old self.new }
        ensures added { OnOk result (HasEntry self.new v.0 key) }
    {
        let ahead = (key - self.floor) as usize;
        let rest = self.buckets.len() - self.place;
        let slot = if ahead < rest {
            self.place + ahead
        } else {
            ahead - rest
        };
        let bucket = &mut self.buckets[slot];
        bucket.push(v.0)?;
        Ok(())
    }

    /// Raises the floor to the least key, and takes out an entry of a node that has it.
    pub fn take_lowest(&mut self, keys: &NodeKeys) -> u32
        requires holds { HoldsKeys self.old keys.now }
        requires some { 1 ≤ sum_by one_key keys.now }
        ensures { LeavesLeast self.old self.new keys.now result }
    {
        'floors: loop {
            if let Some(v) = self.take_entry(keys) {
                return v;
            }
            self.pass_floor();
        }
    }

    // Takes an entry that counts out of the bucket at the floor, and those above it, which don't; `None` where none counts.
    fn take_entry(&mut self, keys: &NodeKeys) -> Option<u32>
        requires place { self.old.place < length self.old.buckets.items }
        requires real { self.old.floor < 2 ^ 64 - 1 }
        ensures { TakesEntry self.old self.new keys.now result }
    {
        let floor = self.floor;
        let bucket = &mut self.buckets[self.place];
        take_counting(bucket, keys, floor)
    }

    // Raises the floor by one.
    fn pass_floor(&mut self)
        requires place { self.old.place < length self.old.buckets.items }
        requires real { self.old.floor < 2 ^ 64 - 1 }
        ensures { PassesFloor self.old self.new }
    {
        self.floor += 1;
        self.place += 1;
        if self.place == self.buckets.len() {
            self.place = 0;
        }
    }
}

// Takes the last node that has this key out of a bucket, and those behind it; `None` where there is none.
fn take_counting(bucket: &mut Vec<u32>, keys: &NodeKeys, key: u64) -> Option<u32>
    requires real { key < 2 ^ 64 - 1 }
    ensures some { IfSome result (λ v. key_at keys.now v ≡ Some key) }
    ensures none { IsNone result → bucket.new.items ≡ [] }
    ensures kept { (v : ℕ) → key_at keys.now v ≡ Some key → Contains bucket.old.items v
        → Contains bucket.new.items v ⊎ (result ≡ Some v) }
{
    'entries: while let Some(v) = bucket.pop() {
        if keys.is_key(NodeId(v), key) {
            return Some(v);
        }
    }
    None
}
