// The findings of a search.
ghost use Rattle.std.specs.Prelude.{◌≡◌, ◌≤◌, Some, length};
ghost use Rattle.route_base.specs.Net.{at_number};

use cost_functions::CostFn;
use route_base::{Bounds, NodeId, Pair};
use std::marker::Model;

/// The Pareto front of a request, and for each node of the net a function and a bound to the goal that show it.
pub struct Found {
    pairs: Vec<Pair>,
    functions: Vec<CostFn>,
    bounds: Bounds,
}

impl Model for Found {
    ghost use Rattle.propagation.specs.Found.{Finding};

    ghost Value = { Finding };

    ghost view = { λ f. record { pairs = f.pairs.items; functions = f.functions.items; bounds = f.bounds } };
}

// By hand, so that the drops of its parts are proved here alone.
impl Drop for Found {
    fn drop(self) {
        let Self {
            pairs,
            functions,
            bounds,
        } = self;
    }
}

impl Found {
    // The findings of a search, made of these parts.
    pub(crate) fn new(pairs: Vec<Pair>, functions: Vec<CostFn>, bounds: Bounds) -> Found
        ensures { result ≡ record {
          pairs = pairs.items;
          functions = functions.items;
          bounds =
              bounds;
        } }
    {
        Found {
            pairs,
            functions,
            bounds,
        }
    }

    /// The pairs by rising arrival, at no cost.
    pub fn pairs(&self) -> &[Pair]
        ensures { result.now ≡ self.now.pairs }
    {
        self.pairs.as_slice()
    }

    /// The cost function of a node, at no cost.
    pub fn function(&self, v: NodeId) -> &CostFn
        requires low { 1 ≤ v.0 }
        requires high { v.0 ≤ length self.now.functions }
        ensures { at_number self.now.functions v.0 ≡ Some result.now }
    {
        &self.functions[v.0 as usize - 1]
    }

    /// The bounds to the goal, at no cost.
    pub fn bounds(&self) -> &Bounds
        ensures { result.now ≡ self.now.bounds }
    {
        &self.bounds
    }

    /// The cost functions of the nodes 1, 2 and so on, handed over at no cost.
    pub fn into_functions(self) -> Vec<CostFn>
        ensures { result.items ≡ self.functions }
    {
        let Found {
            pairs: _,
            functions: whole,
            bounds: _,
        } = self;
        whole
    }
}
