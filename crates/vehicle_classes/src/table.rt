// vehicles.csv: vehicles by name.
ghost use Rattle.std.specs.Prelude.{◌≡◌, ◌<◌, ◌≤◌, [], length, map, IfOk, IfSome, slice_get};
ghost use Rattle.table_reader.specs.NameIndex.{names_of, place_among};
ghost use Rattle.table_reader.specs.Records.{records_of, rows_of};
ghost use Rattle.table_reader.specs.Refusals.{ReadsRows};
ghost use Rattle.table_reader.specs.Schema.{first_table_fault};
ghost use Rattle.vehicle_classes.specs.VehicleParts.{HoldVehicles};
ghost use Rattle.vehicle_classes.specs.Vehicles.{vehicles_in, vehicles_schema};

use crate::Vehicle;
use crate::rows::read_vehicle;
use csv::ByteRecord;
use route_base::limits::MOST_VEHICLES;
use route_base::{Cause, OutOfMemory, TableFault};
use std::alloc::Global;
use std::marker::Model;
use table_reader::{NameIndex, RowFault, Table, read_table};

/// Vehicles by name, numbered from 0: `any`, and those of the table's rows in their order. Contracts see a list of pairs of
/// a name and a vehicle.
pub struct Vehicles {
    names: NameIndex<()>,
    vehicles: Vec<Vehicle>,
}

impl Model for Vehicles {
    ghost use Rattle.std.specs.Prelude.{◌≡◌, ◌<◌, List, ℕ, length};
    ghost use Rattle.std.specs.List.{zip};
    ghost use Rattle.table_reader.specs.NameIndex.{names_of};
    ghost use Rattle.vehicle_classes.specs.VehicleModel.{VehicleModel};

    ghost Value = { List (List ℕ × VehicleModel) };

    ghost view = { λ v. zip (names_of v.names) v.vehicles.items };

    ghost invariant = { λ v. (length v.vehicles.items ≡ length (names_of v.names)) × (0 < length v.vehicles.items) };
}

// By hand, so that the drops of its parts are proved here alone.
impl Drop for Vehicles {
    fn drop(self) {
        let Self { names, vehicles } = self;
    }
}

impl Vehicles {
    /// The number of vehicles, at least 1. In constant time.
    pub fn len(&self) -> usize
        ensures value { result ≡ length self.now }
        ensures some { 1 ≤ result }
    {
        self.vehicles.len()
    }

    /// The place from 0 of the vehicle of this name; `None` exactly where no vehicle has it. In constant time on average.
    pub fn find(&self, name: &[u8]) -> Option<usize>
        ensures place { result ≡ place_among (names_of self.now) name.now }
        ensures within { IfSome result (λ i. i < length self.now) }
    {
        self.names.place(name)
    }

    /// The vehicle at place i from 0. In constant time.
    pub fn vehicle(&self, i: usize) -> &Vehicle
        requires { i < length self.now }
        ensures { slice_get (map (λ v. v.1) self.now) i ≡ Some result.now }
    {
        &self.vehicles[i]
    }
}

/// Vehicles while the table is being read.
#[derive(Drop)]
struct VehicleTable {
    names: NameIndex<()>,
    vehicles: Vec<Vehicle>,
}

impl Model for VehicleTable {
    ghost use Rattle.table_reader.specs.NameIndex.{names_of};
    ghost use Rattle.vehicle_classes.specs.VehicleParts.{NamedVehicles};

    ghost Value = { NamedVehicles };

    ghost view = { λ t. record { names = names_of t.names; vehicles = t.vehicles.items } };
}

impl VehicleTable {
    // The table of `any` alone.
    fn new(alloc: Global) -> Result<Self, OutOfMemory>
        ensures { IfOk result (λ t. HoldVehicles t (vehicles_in [])) }
    {
        let mut names = NameIndex::new(alloc);
        if names.add(alloc, b"any", ()).is_err() {
            return Err(OutOfMemory);
        }
        let mut vehicles = Vec::new(alloc);
        vehicles.push(Vehicle::any(alloc))?;
        Ok(VehicleTable { names, vehicles })
    }
}

impl Table for VehicleTable {
    ghost schema = { λ t. vehicles_schema };

    ghost becomes = { λ _ t header rows. HoldVehicles t (vehicles_in rows) };

    fn headers(&self) -> &'static [&'static [&'static str]] {
        &[&[
            "name",
            "class",
            "weight_kg",
            "axleload_kg",
            "height_cm",
            "width_cm",
            "length_cm",
            "axles",
            "purpose",
            "flags",
        ]]
    }

    fn limit(&self) -> u32 {
        MOST_VEHICLES
    }

    fn add(&mut self, alloc: Global, _header: &[&str], row: &ByteRecord) -> Result<(), RowFault> {
        let Some((name, vehicle)) = read_vehicle(alloc, row)? else {
            return Err(RowFault::Bad(Cause::BadField));
        };
        self.vehicles.push(vehicle)?;
        self.names.add(alloc, name, ())
    }
}

/// The vehicles of a table. Linear in the bytes, on average.
///
/// `BadRow` names the first record that has a fault, from 1, and its cause, which is never `Missing` or `TooLong`.
pub fn read_vehicles(alloc: Global, bytes: &[u8]) -> Result<Vehicles, TableFault>
    ensures { ReadsRows result (first_table_fault vehicles_schema (records_of bytes.now))
        (λ v. v ≡ vehicles_in (rows_of bytes.now)) }
{
    let Ok(table) = VehicleTable::new(alloc) else {
        return Err(TableFault::OutOfMemory);
    };
    let VehicleTable { names, vehicles } = read_table(alloc, bytes, table)?;
    Ok(Vehicles { names, vehicles })
}
