// The network that files state.
ghost use Rattle.std.specs.Prelude.{◌≡◌, ◌≤◌, ◌<◌, All, IsSome, Some, length, option_map, slice_get};
ghost use Rattle.route_base.specs.declared.limits.TheConstants.{HIGHEST_TOLL};
ghost use Rattle.network_tables.specs.Words.{at_number, closures_of, park_of, toll_at, weight_at, IsGoodNetwork, network_with};
ghost use Rattle.network_tables.specs.Words.{HoldsNetwork, plain_at, conditional_at, has_arc_rules, has_own_rules, parks_with, IsTimedIn};

use crate::closure_lists::ClosureLists;
use crate::parks::Parks;
use crate::rules::{Rules, Scope};
use crate::tolls::Tolls;
use conditional_rules::{Access, Conditional};
use dimacs_reader::Graph;
use opening_hours::{Holidays, Hours};
use route_base::{ArcId, Cost, NodeId, Run};
use std::marker::Model;
use vehicle_classes::{Key, Vehicles};
use zone_rules::Zone;

/// The parts of a network: a graph, zones, for each area the place of its zone and its holidays, for each arc the place of its
/// area and its closed minutes, vehicles, rules, the nodes where one may wait, and the tolls of arcs.
#[derive(Drop)]
pub struct NetworkParts {
    pub graph: Graph,
    pub zones: Vec<Zone>,
    pub zone_places: Vec<usize>,
    pub holidays: Vec<Holidays>,
    pub roads: Vec<u32>,
    pub vehicles: Vehicles,
    pub rules: Rules,
    pub closures: ClosureLists,
    pub parks: Parks,
    pub tolls: Tolls,
}

/// A road network: a graph, the area of each arc with its zone and its holidays, vehicles by name, access rules of areas and
/// arcs, the closed minutes and the toll of each arc, and the nodes where one may wait, with their weights and hours. Each zone and
/// each text of hours is held once.
pub struct Network {
    parts: NetworkParts,
}

impl Model for Network {
    ghost use Rattle.network_tables.specs.NetworkModel.{NetworkModel};
    ghost use Rattle.network_tables.specs.NetworkParts.{network_with, HoldsNetwork};

    ghost Value = { NetworkModel };

    ghost view = { λ n. network_with n.parts };

    ghost invariant = { λ n. HoldsNetwork n.parts };
}

// By hand, so that the drops of its parts are proved here alone.
impl Drop for Network {
    fn drop(self) {
        let Network { parts: _ } = self;
    }
}

impl Network {
    // The network of these parts.
    pub(crate) fn new(parts: NetworkParts) -> Network
        requires { HoldsNetwork parts }
        ensures { result ≡ network_with parts }
    {
        Network { parts }
    }

    /// The graph, at no cost.
    pub fn graph(&self) -> &Graph
        ensures value { result.now ≡ self.now.graph }
        ensures good { IsGoodNetwork self.now }
    {
        &self.parts.graph
    }

    /// The number of areas. In constant time.
    pub fn area_count(&self) -> usize
        ensures { result ≡ length self.now.areas }
    {
        self.parts.holidays.len()
    }

    /// The place of the arc's area, from 0 in the order of the areas. In constant time.
    pub fn area_of(&self, a: ArcId) -> usize
        requires low { 1 ≤ a.0 }
        requires high { a.0 ≤ length self.now.graph.arcs }
        ensures value { at_number self.now.roads a.0 ≡ Some result }
        ensures there { result < length self.now.areas }
    {
        self.parts.roads[a.0 as usize - 1] as usize
    }

    /// The zone of the area at this place from 0. In constant time.
    pub fn zone_of(&self, area: usize) -> &Zone
        requires { area < length self.now.areas }
        ensures { option_map (λ a. a.zone) (slice_get self.now.areas area) ≡ Some result.now }
    {
        &self.parts.zones[self.parts.zone_places[area]]
    }

    /// The holidays of the area at this place from 0. In constant time.
    pub fn holidays_of(&self, area: usize) -> &Holidays
        requires { area < length self.now.areas }
        ensures { option_map (λ a. a.holidays) (slice_get self.now.areas area) ≡ Some result.now }
    {
        &self.parts.holidays[area]
    }

    /// The vehicles by name, at no cost.
    pub fn vehicles(&self) -> &Vehicles
        ensures { result.now ≡ self.now.vehicles }
    {
        &self.parts.vehicles
    }

    /// The access that the area at this place from 0 gives by a plain rule of the key; `None` exactly where it has no such rule. In
    /// constant time on average.
    pub fn area_plain(&self, area: usize, key: Key) -> Option<Access>
        requires { area < length self.now.areas }
        ensures { result ≡ plain_at self.now.rules (Scope.Area area) key }
    {
        self.parts.rules.plain(Scope::Area(area), key)
    }

    /// The conditional value of the area at this place from 0 for the key; `None` exactly where it has none. In constant time on
    /// average.
    pub fn area_conditional(&self, area: usize, key: Key) -> Option<&Conditional>
        requires { area < length self.now.areas }
        ensures { option_map (λ c. c.now) result ≡ conditional_at self.now.rules
            (Scope.Area area) key }
    {
        self.parts.rules.conditional(Scope::Area(area), key)
    }

    /// The access that the arc's own plain rule of the key gives; `None` exactly where it has no such rule. In constant time on
    /// average.
    pub fn arc_plain(&self, a: ArcId, key: Key) -> Option<Access>
        ensures { result ≡ plain_at self.now.rules (Scope.Arc a.0) key }
    {
        self.parts.rules.plain(Scope::Arc(a.0), key)
    }

    /// The arc's own conditional value for the key; `None` exactly where it has none. In constant time on average.
    pub fn arc_conditional(&self, a: ArcId, key: Key) -> Option<&Conditional>
        ensures { option_map (λ c. c.now) result ≡ conditional_at self.now.rules
            (Scope.Arc a.0) key }
    {
        self.parts.rules.conditional(Scope::Arc(a.0), key)
    }

    /// Whether some arc has a rule of its own. In constant time.
    pub fn has_arc_rules(&self) -> bool
        ensures { result ≡ has_arc_rules self.now.rules }
    {
        self.parts.rules.has_arc_rules()
    }

    /// Whether the arc has a rule of its own, of any key. In constant time.
    #[inline(always)]
    pub fn has_own_rules(&self, a: ArcId) -> bool
        ensures { result ≡ has_own_rules self.now.rules a.0 }
    {
        self.parts.rules.has_own_rules(a.0)
    }

    /// The number of rows of rules whose key is passed over. In constant time.
    pub fn passed_over(&self) -> u64
        ensures { result ≡ self.now.passed_over }
    {
        self.parts.rules.passed_over()
    }

    /// The nodes where one may wait, with the timetables that they share, at no cost.
    pub fn parks(&self) -> &Parks
        ensures value { parks_with result.now ≡ self.now.parks }
        ensures good { IsGoodNetwork self.now }
        ensures placed { All (IsTimedIn (length self.now.areas)) result.now.timetables }
    {
        &self.parts.parks
    }

    /// The cost in thousandths of a minute of waiting at the node; `None` exactly where one may not wait. In constant time on average.
    pub fn weight(&self, v: NodeId) -> Option<Cost>
        requires low { 1 ≤ v.0 }
        requires high { v.0 ≤ self.now.graph.nodes }
        ensures value { result ≡ weight_at self.now v.0 }
        ensures good { IsGoodNetwork self.now }
    {
        match self.parts.parks.rated(v) {
            Some(node) => Some(node.weight),
            None => None,
        }
    }

    /// The place from 0 of the area whose clocks and holidays count where one waits at the node. In constant time on average.
    /// For other callers: the program asks `is_wait_open`.
    pub fn park_area(&self, v: NodeId) -> usize
        requires rated { IsSome (park_of self.now v.0) }
        ensures value { option_map (λ park. park.area) (park_of self.now v.0) ≡ Some result }
        ensures there { result < length self.now.areas }
    {
        let node = self.parts.parks.rated(v).unwrap();
        self.parts.parks.area(node.timetable)
    }

    /// The hours in which one may wait at the node; `None` exactly where it has none, so that waiting is always open. In constant time
    /// on average.
    /// For other callers: the program asks `is_wait_open`.
    pub fn park_hours(&self, v: NodeId) -> Option<&Hours>
        requires rated { IsSome (park_of self.now v.0) }
        ensures { option_map (λ park. park.hours) (park_of self.now v.0)
            ≡ Some (option_map (λ hours. hours.now) result) }
    {
        let node = self.parts.parks.rated(v).unwrap();
        self.parts.parks.hours(node.timetable)
    }

    /// The toll of the arc in thousandths, which is 0 without a row. In constant time on average.
    pub fn toll(&self, a: ArcId) -> Cost
        ensures value { result ≡ toll_at self.now a.0 }
        ensures small { result ≤ HIGHEST_TOLL }
    {
        self.parts.tolls.toll(a.0).unwrap_or(0)
    }

    /// The number of closures of the arc. In constant time.
    pub fn closure_count(&self, a: ArcId) -> usize
        requires low { 1 ≤ a.0 }
        requires high { a.0 ≤ length self.now.graph.arcs }
        ensures { result ≡ length (closures_of self.now a.0) }
    {
        self.parts.closures.count(a)
    }

    /// The minutes in which the arc is closed for the k-th time, from 0 in the order of its rows. In constant time.
    pub fn closure(&self, a: ArcId, k: usize) -> Run
        requires low { 1 ≤ a.0 }
        requires high { a.0 ≤ length self.now.graph.arcs }
        requires there { k < length (closures_of self.now a.0) }
        ensures { slice_get (closures_of self.now a.0) k ≡ Some result }
    {
        self.parts.closures.get(a, k)
    }
}
