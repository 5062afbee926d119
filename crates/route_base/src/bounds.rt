// Bounds to a goal, one place for each node.
ghost use Rattle.std.specs.Prelude.{◌≡◌, ◌∷◌, ◌++◌, [], List, Option, OnOk, OnErr};
ghost use Rattle.std.specs.Option.{option_flatten};
ghost use Rattle.route_base.specs.Net.{at_number};

use crate::{Bound, NodeId, OutOfMemory};
use std::alloc::Global;
use std::marker::Model;

/// The bounds of nodes 1, 2 and so on, which contracts see as a list.
pub struct Bounds {
    held: Vec<Option<Bound>>,
}

impl Model for Bounds {
    ghost use Rattle.std.specs.Prelude.{List, Option};
    ghost use Rattle.route_base.specs.declared.types.Bound.{Bound};

    ghost Value = { List (Option Bound) };

    ghost view = { λ a. a.held.items };
}

// By hand, so that the drops of its parts are proved here alone.
impl Drop for Bounds {
    fn drop(self) {
        let Bounds { held: _ } = self;
    }
}

impl Bounds {
    /// The empty list.
    pub fn new(alloc: Global) -> Self
        ensures { result ≡ [] }
    {
        Bounds {
            held: Vec::new(alloc),
        }
    }

    /// The bound of a node in constant time; `None` where it has none or is outside the list.
    pub fn get(&self, node: NodeId) -> Option<Bound>
        ensures { result ≡ option_flatten (at_number self.now node.0) }
    {
        if node.0 == 0 {
            return None;
        }
        self.held.get(node.0 as usize - 1).copied().flatten()
    }

    /// Gives the next node its bound, in constant time on average.
    pub fn push(&mut self, bound: Option<Bound>) -> Result<(), OutOfMemory>
        ensures ok { OnOk result (self.new ≡ self.old ++ bound ∷ []) }
        ensures err { OnErr result (self.new ≡ self.old) }
    {
        self.held.push(bound)?;
        Ok(())
    }
}
