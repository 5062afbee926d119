// The minutes at which areas don't let a vehicle in, which their arcs without rules of their own share.
ghost use Rattle.std.specs.Prelude.{◌≡◌, ◌≤◌, ◌<◌, false, Some, length, option_map, slice_get, IfOk, OnOk};
ghost use Rattle.route_base.specs.declared.types.Run.{Run};
ghost use Rattle.ban_expansion.specs.Words.{AreBarred, AreRuns, HasThose, IsWindow, NetworkModel, VehicleModel};
ghost use Rattle.ban_expansion.specs.Words.{has_own_rules, is_closed};

use crate::closed_sets::{barred_set, closed_over, closed_set};
use minute_sets::MinuteSet;
use network_tables::Network;
use route_base::{ArcId, OutOfMemory, Run};
use std::alloc::Global;
use vehicle_classes::Vehicle;

/// For each area the minutes of a window at which arcs without rules of their own don't let a vehicle in, if they are known yet.
#[derive(Drop)]
pub struct AreaBans {
    sets: Vec<Option<MinuteSet>>,
}

impl AreaBans {
    /// Nothing is known yet of this number of areas. Linear in it, in time and memory.
    pub fn new(alloc: Global, areas: usize) -> Result<AreaBans, OutOfMemory>
        ensures { IfOk result (λ bans.
            (network : NetworkModel) (vehicle : VehicleModel) (window : Run) →
            length network.areas ≡ areas → AreBarred network vehicle window bans.sets.items) }
    {
        let mut sets = Vec::with_capacity(alloc, areas)?;
        for area in 0..areas {
            sets.push(None)?;
        }
        Ok(AreaBans { sets })
    }

    // The set of the area at this place, if it is known.
    fn known(&self, area: usize) -> Option<&MinuteSet>
        requires { area < length self.now.sets.items }
        ensures { slice_get self.now.sets.items area ≡ Some (option_map (λ s. s.now) result) }
    {
        self.sets[area].as_ref()
    }

    // Makes the set of the arc's area, if it isn't known yet.
    fn learn(
        &mut self,
        alloc: Global,
        network: &Network,
        vehicle: &Vehicle,
        a: ArcId,
        window: Run,
    ) -> Result<(), OutOfMemory>
        requires low { 1 ≤ a.0 }
        requires high { a.0 ≤ length network.now.graph.arcs }
        requires window { IsWindow window }
        requires rules { has_own_rules network.now.rules a.0 ≡ false }
        requires known { AreBarred network.now vehicle.now window self.old.sets.items }
        ensures { OnOk result (AreBarred network.now vehicle.now window self.new.sets.items) }
    {
        let area = network.area_of(a);
        if self.known(area).is_some() {
            return Ok(());
        }
        let set = barred_set(alloc, network, vehicle, a, window)?;
        self.sets[area] = Some(set);
        Ok(())
    }

    /// The minutes of the window at which the arc is closed to the vehicle, as `closed_set` finds them. The rules of an area are looked
    /// up for the first of its arcs without rules of their own; for the others it is linear in the runs of that set and, beside, takes
    /// n log n for n closures.
    pub fn closed_to(
        &mut self,
        alloc: Global,
        network: &Network,
        vehicle: &Vehicle,
        a: ArcId,
        window: Run,
    ) -> Result<MinuteSet, OutOfMemory>
        requires low { 1 ≤ a.0 }
        requires high { a.0 ≤ length network.now.graph.arcs }
        requires window { IsWindow window }
        requires known { AreBarred network.now vehicle.now window self.old.sets.items }
        ensures minutes { IfOk result (HasThose window (is_closed network.now vehicle.now a.0)) }
        ensures runs { IfOk result AreRuns }
        ensures known { OnOk result (AreBarred network.now vehicle.now window self.new.sets.items) }
    {
        if network.has_own_rules(a) {
            return closed_set(alloc, network, vehicle, a, window);
        }
        self.learn(alloc, network, vehicle, a, window)?;
        let area = network.area_of(a);
        match self.known(area) {
            Some(barred) => {
                let set = closed_over(alloc, network, barred, a, window)?;
                Ok(set)
            }
            None => closed_set(alloc, network, vehicle, a, window),
        }
    }
}
