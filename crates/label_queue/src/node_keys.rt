// A list of keys with a place for each node.
ghost use Rattle.std.specs.Prelude.{◌≡◌, ◌≤◌, ◌<◌, ◌↔◌, ◌^◌, ◌-◌, ℕ, Some, None, length, IfOk, IsTrue};
ghost use Rattle.label_queue.specs.Keys.{key_at, IsSet};

use route_base::{NodeId, OutOfMemory};
use std::alloc::Global;
use std::marker::Model;

// In the place of a key, where there is none.
const NO_KEY: u64 = u64::MAX;

/// At most one key below `u64::MAX` for each node from 1 on, in eight bytes a node.
#[derive(Drop)]
pub struct NodeKeys {
    numbers: Vec<u64>,
}

impl Model for NodeKeys {
    ghost use Rattle.std.specs.Prelude.{List, Option, ℕ, map};
    ghost use Rattle.label_queue.specs.Inside.Rings.{key_of_number};

    ghost Value = { List (Option ℕ) };

    ghost view = { λ a. map key_of_number a.numbers.items };
}

impl NodeKeys {
    /// No keys, with a place for each of n nodes.
    pub fn new(alloc: Global, n: u32) -> Result<NodeKeys, OutOfMemory>
        ensures room { IfOk result (λ q. length q ≡ n) }
        ensures empty { IfOk result (λ q. (v : ℕ) → key_at q v ≡ None) }
    {
        Ok(NodeKeys {
            numbers: vec![in alloc; NO_KEY; n as usize]?,
        })
    }

    /// The key of a node; `None` exactly where it has none, so also for a node without a place.
    pub fn key_of(&self, v: NodeId) -> Option<u64>
        ensures { result ≡ key_at self.now v.0 }
    {
        if v.0 == 0 || v.0 as usize > self.numbers.len() {
            return None;
        }
        let number = self.numbers[v.0 as usize - 1];
        if number < NO_KEY { Some(number) } else { None }
    }

    /// Whether this is the key of a node.
    #[inline(always)]
    pub fn is_key(&self, v: NodeId, key: u64) -> bool
        requires real { key < 2 ^ 64 - 1 }
        ensures { IsTrue result ↔ key_at self.now v.0 ≡ Some key }
    {
        if v.0 == 0 || v.0 as usize > self.numbers.len() {
            return false;
        }
        self.numbers[v.0 as usize - 1] == key
    }

    /// Gives a node a key in the place of its own, where it has one.
    #[inline(always)]
    pub fn set(&mut self, v: NodeId, key: u64)
        requires low { 1 ≤ v.0 }
        requires high { v.0 ≤ length self.old }
        requires real { key < 2 ^ 64 - 1 }
        ensures { IsSet self.old self.new v.0 (Some key) }
    {
        self.numbers[v.0 as usize - 1] = key;
    }

    /// Takes the key of a node away.
    #[inline(always)]
    pub fn clear(&mut self, v: NodeId)
        requires low { 1 ≤ v.0 }
        requires high { v.0 ≤ length self.old }
        ensures { IsSet self.old self.new v.0 None }
    {
        self.numbers[v.0 as usize - 1] = NO_KEY;
    }
}
