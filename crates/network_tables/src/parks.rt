// The nodes where one may wait, as a network holds them.
ghost use Rattle.std.specs.Prelude.{◌≡◌, ◌<◌, Some, IfSome, length, map, nat_eq, option_map, slice_get};
ghost use Rattle.std.specs.Map.{lookup};
ghost use Rattle.network_tables.specs.Parks.{timetable_at, timetable_with, HasTimetable, HaveTimetables};

use indexmap::IndexMap;
use opening_hours::Hours;
use route_base::{Cost, NodeId};
use std::marker::Model;

/// A node where one may wait: the cost of a minute's wait in thousandths, and the place of its timetable from 0.
#[derive(Clone, Copy, Debug, PartialEq, Eq)]
pub struct RatedNode {
    pub weight: Cost,
    pub timetable: usize,
}

/// A timetable by the places, from 0, of its area and of its hours, if it has any.
#[derive(Clone, Copy, PartialEq, Eq, Hash)]
pub struct TimetablePlace {
    pub area: u32,
    pub hours: Option<usize>,
}

/// The nodes where one may wait, each with the place of its timetable: the area whose clocks and holidays count, and the hours in
/// which waiting is open, or none where it always is. Nodes with the same text of hours in one area share a timetable.
pub struct Parks {
    rated: IndexMap<u32, RatedNode>,
    timetables: Vec<TimetablePlace>,
    hours: Vec<Hours>,
}

impl Model for Parks {
    ghost use Rattle.std.specs.Prelude.{map};
    ghost use Rattle.network_tables.specs.Parks.{ParkLists, HaveTimetables, timetable_with};

    ghost Value = { ParkLists };

    ghost view = { λ p. record {
      rated = p.rated.entries;
      timetables = map (timetable_with p.hours.items) p.timetables.items;
    } };

    ghost invariant = { λ p. HaveTimetables (record {
      rated = p.rated.entries;
      timetables = map (timetable_with p.hours.items) p.timetables.items;
    }) };
}

// By hand, so that the drops of its parts are proved here alone.
impl Drop for Parks {
    fn drop(self) {
        let Self {
            rated,
            timetables,
            hours,
        } = self;
    }
}

impl Parks {
    // The parks of these nodes, whose timetables are there.
    pub(crate) fn new(
        rated: IndexMap<u32, RatedNode>,
        timetables: Vec<TimetablePlace>,
        hours: Vec<Hours>,
    ) -> Parks
        requires { HaveTimetables (record {
          rated = rated.entries;
          timetables = map (timetable_with hours.items) timetables.items;
        }) }
        ensures { result ≡ record {
          rated = rated.entries;
          timetables = map (timetable_with hours.items) timetables.items;
        } }
    {
        Parks {
            rated,
            timetables,
            hours,
        }
    }

    /// The weight of the node and the place of its timetable; `None` exactly where one may not wait. In constant time on average.
    pub fn rated(&self, v: NodeId) -> Option<RatedNode>
        ensures value { result ≡ lookup (nat_eq v.0) self.now.rated }
        ensures there { IfSome result (HasTimetable self.now.timetables) }
    {
        self.rated.get(&v.0).copied()
    }

    /// The number of timetables. In constant time.
    pub fn timetable_count(&self) -> usize
        ensures { result ≡ length self.now.timetables }
    {
        self.timetables.len()
    }

    /// The place from 0 of the area of the timetable at this place. In constant time.
    pub fn area(&self, timetable: usize) -> usize
        requires { timetable < length self.now.timetables }
        ensures { (timetable_at self.now.timetables timetable).area ≡ result }
    {
        self.timetables[timetable].area as usize
    }

    /// The hours of the timetable at this place; `None` exactly where it has none, so that waiting always is open. In constant time.
    pub fn hours(&self, timetable: usize) -> Option<&Hours>
        requires { timetable < length self.now.timetables }
        ensures { option_map (λ h. h.now) result
            ≡ (timetable_at self.now.timetables timetable).hours }
    {
        match self.timetables[timetable].hours {
            Some(place) => self.hours.get(place),
            None => None,
        }
    }
}
