// Timed nets: a road graph with the minutes at which its arcs are closed and waiting at its nodes is shut.
ghost use Rattle.std.specs.Prelude.{◌≡◌, ◌↔◌, ◌≤◌, IsTrue, IsSome, IfSome, length, map};
ghost use Rattle.route_base.specs.Net.{IsGoodNet, IsGoodArc, net_from, setting_of, at_number, runs_at};
ghost use Rattle.route_base.specs.Net.{park_at, shut_runs_at, IsGoodPark};
ghost use Rattle.route_base.specs.Open.{IsOpen, IsWaitOpen};
ghost use Rattle.route_base.specs.Runs.{AreRuns};

use crate::runs::is_free;
use crate::{ArcId, Cost, Minute, NodeId, Park, Run, TimedArc};
use std::marker::Model;

/// Nodes, arcs with their closed minutes, and the nodes at which waiting is allowed, with the minutes at which it is shut.
pub struct TimedNet {
    nodes: u32,
    arcs: Vec<TimedArc>,
    closed: Vec<Vec<Run>>,
    parks: Vec<Option<Park>>,
}

impl Model for TimedNet {
    ghost use Rattle.route_base.specs.Net.{Net, IsGoodNet, net_from};

    ghost Value = { Net };

    ghost view = { λ a. net_from a.nodes a.arcs.items a.closed.items a.parks.items };

    ghost invariant = { λ a. IsGoodNet (net_from a.nodes a.arcs.items a.closed.items a.parks.items) };
}

// By hand, so that the drops of its parts are proved here alone.
impl Drop for TimedNet {
    fn drop(self) {
        let TimedNet {
            nodes: _,
            arcs: _,
            closed: _,
            parks: _,
        } = self;
    }
}

impl TimedNet {
    /// A net of these parts, at no cost: arcs by number, lists of closed runs that the arcs and the parks name by place, and a park
    /// or none for each node.
    pub fn new(
        nodes: u32,
        arcs: Vec<TimedArc>,
        closed: Vec<Vec<Run>>,
        parks: Vec<Option<Park>>,
    ) -> TimedNet
        requires { IsGoodNet (net_from nodes arcs.items closed.items parks.items) }
        ensures { result ≡ net_from nodes arcs.items closed.items parks.items }
    {
        TimedNet {
            nodes,
            arcs,
            closed,
            parks,
        }
    }

    /// The number of nodes.
    pub fn node_count(&self) -> u32
        ensures value { result ≡ self.now.nodes }
        ensures good { IsGoodNet self.now }
    {
        self.nodes
    }

    /// The number of arcs.
    pub fn arc_count(&self) -> u32
        ensures value { result ≡ length self.now.arcs }
        ensures good { IsGoodNet self.now }
    {
        self.arcs.len() as u32
    }

    /// All arcs, by rising number, at no cost.
    pub fn arcs(&self) -> &[TimedArc]
        ensures value { result.now ≡ self.now.arcs }
        ensures good { IsGoodNet self.now }
    {
        self.arcs.as_slice()
    }

    /// The lists of closed runs, which arcs and parks name by place, at no cost.
    pub fn closed_lists(&self) -> &[Vec<Run>]
        ensures value { map (λ v. v.items) result.now ≡ self.now.closed }
        ensures good { IsGoodNet self.now }
    {
        self.closed.as_slice()
    }

    /// A park or none for each node, by rising number, at no cost.
    pub fn parks(&self) -> &[Option<Park>]
        ensures value { result.now ≡ self.now.parks }
        ensures good { IsGoodNet self.now }
    {
        self.parks.as_slice()
    }

    /// The arc of this number; `None` exactly where it isn't from 1 to the number of arcs. In constant time.
    pub fn arc(&self, a: ArcId) -> Option<TimedArc>
        ensures value { result ≡ at_number self.now.arcs a.0 }
        ensures good { IfSome result (IsGoodArc self.now) }
    {
        if a.0 == 0 {
            return None;
        }
        self.arcs.get(a.0 as usize - 1).copied()
    }

    /// The park at the node; `None` exactly where it isn't a rated node. In constant time.
    pub fn park(&self, v: NodeId) -> Option<Park>
        ensures value { result ≡ park_at self.now v.0 }
        ensures good { IfSome result (IsGoodPark self.now) }
    {
        if v.0 == 0 {
            return None;
        }
        *self.parks.get(v.0 as usize - 1)?
    }

    /// The cost of a minute's wait at the node, in thousandths; `None` exactly where it isn't rated. In constant time.
    pub fn weight(&self, v: NodeId) -> Option<Cost>
        requires low { 1 ≤ v.0 }
        requires high { v.0 ≤ self.now.nodes }
        ensures value { result ≡ (setting_of self.now).weight v.0 }
        ensures good { IsGoodNet self.now }
    {
        match self.parks[v.0 as usize - 1] {
            Some(park) => Some(park.weight),
            None => None,
        }
    }

    /// The runs in which waiting at the node is shut, rising and apart. In constant time.
    pub fn shut_runs(&self, v: NodeId) -> &[Run]
        requires { IsSome ((setting_of self.now).weight v.0) }
        ensures value { result.now ≡ shut_runs_at self.now v.0 }
        ensures rising { AreRuns result.now }
    {
        match self.park(v) {
            Some(park) => self.closed[park.shut as usize].as_slice(),
            None => &[],
        }
    }

    /// Whether waiting at the node is shut at a minute, by a binary search in its runs.
    pub fn is_shut(&self, v: NodeId, t: Minute) -> bool
        requires { IsSome ((setting_of self.now).weight v.0) }
        ensures { result ≡ (setting_of self.now).wait_shut v.0 t }
    {
        !is_free(self.shut_runs(v), t, 1)
    }

    /// Whether waiting at the node is open at the `minutes` minutes from t on, by a binary search in its runs.
    pub fn is_wait_open(&self, v: NodeId, t: Minute, minutes: u64) -> bool
        requires rated { IsSome ((setting_of self.now).weight v.0) }
        requires some { 1 ≤ minutes }
        ensures { IsTrue result ↔ IsWaitOpen (setting_of self.now) v.0 t minutes }
    {
        is_free(self.shut_runs(v), t, minutes)
    }

    /// The runs in which the arc is closed, rising and apart. In constant time.
    pub fn closed_runs(&self, a: ArcId) -> &[Run]
        requires { IsSome (at_number self.now.arcs a.0) }
        ensures value { result.now ≡ runs_at self.now a.0 }
        ensures rising { AreRuns result.now }
        ensures good { IsGoodNet self.now }
    {
        let arc = self.arcs[a.0 as usize - 1];
        self.closed[arc.closed as usize].as_slice()
    }

    /// Whether the arc is closed at a minute, by a binary search in its runs.
    pub fn is_closed(&self, a: ArcId, t: Minute) -> bool
        requires { IsSome (at_number self.now.arcs a.0) }
        ensures { result ≡ (setting_of self.now).shut a.0 t }
    {
        !is_free(self.closed_runs(a), t, 1)
    }

    /// Whether the arc is open at the `minutes` minutes from t on, by a binary search in its runs.
    pub fn is_open(&self, a: ArcId, t: Minute, minutes: u64) -> bool
        requires arc { IsSome (at_number self.now.arcs a.0) }
        requires some { 1 ≤ minutes }
        ensures { IsTrue result ↔ IsOpen (setting_of self.now) a.0 t minutes }
    {
        is_free(self.closed_runs(a), t, minutes)
    }
}

/// The law that a net is well-formed, for callers whose own proofs need it. The call does nothing.
pub fn net_is_good(net: &TimedNet)
    ensures { IsGoodNet net.now }
{
    let _nodes = net.nodes;
}
