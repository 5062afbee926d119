// areas.csv: the zone of each area.
ghost use Rattle.std.specs.Prelude.{◌≡◌, ◌<◌, [], List, IfOk, IfSome, length, map, option_map};
ghost use Rattle.area_tables.specs.Words.{IsDistinct, bytes_eq, fields_of, names_of, place_among, value_under};
ghost use Rattle.area_tables.specs.Words.{AreaEntry, area_of_record, areas_in, areas_schema, areas_or_default, HaveZones};
ghost use Rattle.area_tables.specs.Words.{ReadsRows, first_table_fault, records_of, rows_of};

use crate::Zones;
use csv::ByteRecord;
use route_base::limits::MOST_AREAS;
use route_base::{Cause, OutOfMemory, TableFault, is_name_field};
use std::alloc::Global;
use std::marker::Model;
use table_reader::{NameIndex, RowFault, Table, read_table, two_fields};

/// Areas by name, each with the place of its zone among all zones. Contracts see a list of pairs of a name and a place.
#[derive(Drop)]
pub struct Areas {
    zone_places: NameIndex<usize>,
}

impl Model for Areas {
    ghost use Rattle.std.specs.Prelude.{◌<◌, ◌^◌, List, ℕ, length};

    ghost Value = { List (List ℕ × ℕ) };

    ghost view = { λ a. a.zone_places };

    ghost invariant = { λ a. length a.zone_places < 2 ^ 32 };
}

impl Areas {
    /// The number of areas, of which no two have the same name. In constant time.
    pub fn len(&self) -> usize
        ensures value { result ≡ length self.now }
        ensures distinct { IsDistinct bytes_eq (names_of self.now) }
    {
        self.zone_places.len()
    }

    /// The place from 0 of the area of this name, in constant time on average.
    pub fn place(&self, name: &[u8]) -> Option<u32>
        ensures place { result ≡ place_among (names_of self.now) name.now }
        ensures within { IfSome result (λ i. i < length self.now) }
    {
        self.zone_places.place(name).map(|i| i as u32)
    }

    /// The place of the zone of each area. Linear in the areas, in time and memory.
    pub fn into_zone_places(self, alloc: Global) -> Result<Vec<usize>, OutOfMemory>
        ensures { IfOk result (λ places. places.items ≡ map (λ e. e.1) self) }
    {
        self.zone_places.into_values(alloc)
    }
}

/// Areas while the table is being read, with the zones that they name.
#[derive(Drop)]
struct AreaTable<'a> {
    zones: &'a Zones,
    zone_places: NameIndex<usize>,
}

impl<'a> Model for AreaTable<'a> {
    ghost use Rattle.area_tables.specs.Inside.{AreaPlaces};

    ghost Value = { AreaPlaces };

    ghost view = { λ t. record { zones = t.zones.now; areas = t.zone_places } };
}

impl<'a> AreaTable<'a> {
    // No areas, in these zones.
    fn new(alloc: Global, zones: &'a Zones) -> AreaTable<'a>
        ensures zones { result.zones ≡ zones.now }
        ensures none { result.areas ≡ [] }
    {
        AreaTable {
            zones,
            zone_places: NameIndex::new(alloc),
        }
    }

    // The areas; without rows the area `default` in the zone `UTC`.
    fn into_areas(self, alloc: Global) -> Result<Areas, OutOfMemory>
        ensures { IfOk result (λ areas. (rows : List AreaEntry) →
            HaveZones self.entry.zones rows self.entry.areas →
            HaveZones self.entry.zones (areas_or_default rows) areas) }
    {
        let AreaTable { zones, zone_places } = self;
        let zone_places = with_default(alloc, zones, zone_places)?;
        if zone_places.len() > u32::MAX as usize {
            return Err(OutOfMemory);
        }
        Ok(Areas { zone_places })
    }
}

// If the table has no rows, adds the area `default` in the zone `UTC`.
fn with_default(
    alloc: Global,
    zones: &Zones,
    mut zone_places: NameIndex<usize>,
) -> Result<NameIndex<usize>, OutOfMemory>
    ensures { IfOk result (λ placed. (rows : List AreaEntry) →
        HaveZones zones.now rows zone_places → HaveZones zones.now (areas_or_default rows) placed) }
{
    if zone_places.len() == 0 {
        let utc = zones.utc();
        if zone_places.add(alloc, b"default", utc).is_err() {
            return Err(OutOfMemory);
        }
    }
    Ok(zone_places)
}

// Parses a data row.
fn read_area(row: &ByteRecord) -> Option<(&[u8], &[u8])>
    requires { length (fields_of row.now) ≡ 2 }
    ensures { option_map (λ a. (a.0.now, a.1.now)) result ≡ area_of_record (fields_of row.now) }
{
    let (area, zone) = two_fields(row);
    if is_name_field(area) && is_name_field(zone) {
        Some((area, zone))
    } else {
        None
    }
}

impl<'a> Table for AreaTable<'a> {
    ghost schema = { λ t. areas_schema (value_under t.zones) };

    ghost becomes = { λ start t header rows. (t.zones ≡ start.zones)
        × HaveZones start.zones (areas_in rows) t.areas };

    fn headers(&self) -> &'static [&'static [&'static str]] {
        &[&["area", "zone"]]
    }

    fn limit(&self) -> u32 {
        MOST_AREAS
    }

    fn add(&mut self, alloc: Global, _header: &[&str], row: &ByteRecord) -> Result<(), RowFault> {
        let Some((area, zone)) = read_area(row) else {
            return Err(RowFault::Bad(Cause::BadField));
        };
        let Some(zone) = self.zones.place(zone) else {
            return Err(RowFault::Bad(Cause::Unknown));
        };
        self.zone_places.add(alloc, area, zone)
    }
}

/// The areas of a table, each in one of these zones; without rows the area `default` in the zone `UTC`. Linear in the bytes, on
/// average.
///
/// `BadRow` names the first record that has a fault, from 1, and its cause: `BadHeader`, `FieldCount`, `SizeLimit` beyond 1,000
/// data rows, `BadField` for a field that is no name, `Unknown` for another zone, or `Duplicate` for an area that has a row already.
pub fn read_areas(alloc: Global, bytes: &[u8], zones: &Zones) -> Result<Areas, TableFault>
    ensures { ReadsRows result
        (first_table_fault (areas_schema (value_under zones.now)) (records_of bytes.now))
        (λ areas. HaveZones zones.now (areas_or_default (areas_in (rows_of bytes.now))) areas) }
{
    let table = read_table(alloc, bytes, AreaTable::new(alloc, zones))?;
    Ok(table.into_areas(alloc)?)
}
