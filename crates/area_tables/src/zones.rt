// zones.csv: time zones.
ghost use Rattle.std.specs.Prelude.{◌≡◌, ◌<◌, ◌∷◌, ◌++◌, [], List, ℕ, None, Some, false, true, length, map, option_map, unwrap_or, codes, IsSome, IfOk, IfErr, OnOk, IsTrue, IfSome, if◌then◌else◌};
ghost use Rattle.area_tables.specs.Words.{last_or, bytes_eq, fields_of, is_offset, is_later, value_under, names_of, place_among};
ghost use Rattle.area_tables.specs.Words.{IfBadCause, ZoneEntry, zone_entry_of, zone_entries_in, zones_schema, HasRows, HasZones};
ghost use Rattle.area_tables.specs.Words.{ReadsRows, first_table_fault, records_of, rows_of};

mod offset;
mod rows;

use calendar_days::read_instant;
use csv::ByteRecord;
use offset::read_offset;
use route_base::limits::{FIRST_INSTANT, MOST_ZONE_ROWS};
use route_base::{Cause, OutOfMemory, TableFault, is_name_field};
use rows::ZoneRows;
use std::alloc::Global;
use std::marker::Model;
use table_reader::{NameIndex, RowFault, Table, read_table, three_fields};
use zone_rules::{Zone, ZoneRow};

const UTC: &[u8] = b"UTC";

/// Zones by name, numbered from 0 in the order of their first rows, `UTC` among them. Contracts see a list of pairs of a name and
/// rows.
#[derive(Drop)]
pub struct Zones {
    rows: NameIndex<ZoneRows>,
}

impl Model for Zones {
    ghost use Rattle.std.specs.Prelude.{IsSome, codes};
    ghost use Rattle.table_reader.specs.NameIndex.{value_under};
    ghost use Rattle.area_tables.specs.Zones.{ZoneList};

    ghost Value = { ZoneList };

    ghost view = { λ z. z.rows };

    ghost invariant = { λ z. IsSome (value_under z.rows (codes "UTC")) };
}

impl Zones {
    /// The place from 0 of the zone of this name, in constant time on average.
    pub fn place(&self, name: &[u8]) -> Option<usize>
        ensures place { result ≡ place_among (names_of self.now) name.now }
        ensures within { IfSome result (λ i. i < length self.now) }
    {
        self.rows.place(name)
    }

    /// The place from 0 of the zone `UTC`, in constant time on average.
    pub fn utc(&self) -> usize
        ensures { place_among (names_of self.now) (codes "UTC") ≡ Some result }
    {
        self.rows.place(UTC).unwrap()
    }

    /// The zones by number. Linear in their rows, in time and memory.
    pub fn into_list(self, alloc: Global) -> Result<Vec<Zone>, OutOfMemory>
        ensures { IfOk result (λ list. list.items ≡ map (λ e. e.1) self) }
    {
        let mut list = Vec::new(alloc);
        for rows in self.rows.into_values(alloc)? {
            list.push(rows.into_zone(alloc)?)?;
        }
        Ok(list)
    }
}

/// The rows of zones by name while the table is being read, which contracts see as a list of pairs of a name and rows.
#[derive(Drop)]
struct ZoneTable {
    zones: NameIndex<ZoneRows>,
}

impl Model for ZoneTable {
    ghost use Rattle.area_tables.specs.Zones.{ZoneList};

    ghost Value = { ZoneList };

    ghost view = { λ t. t.zones };
}

impl ZoneTable {
    // No zones yet.
    fn new(alloc: Global) -> Self
        ensures { result ≡ [] }
    {
        ZoneTable {
            zones: NameIndex::new(alloc),
        }
    }

    // Adds a row to the zone of a name, in constant time on average.
    fn add_row(&mut self, alloc: Global, name: &[u8], row: ZoneRow) -> Result<(), RowFault>
        requires { IsTrue (is_offset row.offset) }
        ensures later { OnOk result
            (is_later (last_or None (unwrap_or (value_under self.old name.now) [])) row ≡ true) }
        ensures added { OnOk result ((other : List ℕ) → value_under self.new other ≡
            (if bytes_eq other name.now
            then Some (unwrap_or (value_under self.old name.now) [] ++ row ∷ [])
            else value_under self.old other)) }
        ensures refused { IfErr result (λ e. IfBadCause e (λ cause. (cause ≡ Cause.NotRising)
            × (is_later (last_or None (unwrap_or (value_under self.old name.now) [])) row ≡ false))) }
    {
        match self.zones.value_mut(name) {
            Some(rows) => rows.push(row),
            None => Ok(self.start(alloc, name, row)?),
        }
    }

    // Adds a zone of one row, whose name is new. In constant time on average.
    fn start(&mut self, alloc: Global, name: &[u8], row: ZoneRow) -> Result<(), OutOfMemory>
        requires near { IsTrue (is_offset row.offset) }
        requires fresh { value_under self.old name.now ≡ None }
        ensures { OnOk result (self.new ≡ self.old ++ (name.now, row ∷ []) ∷ []) }
    {
        let rows = ZoneRows::new(alloc, row)?;
        if self.zones.add(alloc, name, rows).is_err() {
            return Err(OutOfMemory);
        }
        Ok(())
    }

    // Adds `UTC` where no row has it.
    fn give_utc(&mut self, alloc: Global) -> Result<(), OutOfMemory>
        ensures there { OnOk result (IsSome (value_under self.new (codes "UTC"))) }
        ensures zones { OnOk result ((entries : List ZoneEntry) →
            HasRows self.old entries → HasZones self.new entries) }
    {
        if self.zones.contains(UTC) {
            return Ok(());
        }
        let row = ZoneRow {
            start: FIRST_INSTANT,
            offset: 0,
        };
        self.start(alloc, UTC, row)
    }

    // The zones, with `UTC` where no row has it.
    fn into_zones(mut self, alloc: Global) -> Result<Zones, OutOfMemory>
        ensures { IfOk result (λ zones. (entries : List ZoneEntry) →
            HasRows self entries → HasZones zones entries) }
    {
        self.give_utc(alloc)?;
        Ok(Zones { rows: self.zones })
    }
}

// Parses a data row.
fn read_entry(row: &ByteRecord) -> Option<(&[u8], ZoneRow)>
    requires { length (fields_of row.now) ≡ 3 }
    ensures value { option_map (λ e. (e.0.now, e.1)) result ≡ zone_entry_of (fields_of row.now) }
    ensures range { IfSome result (λ e. IsTrue (is_offset e.1.offset)) }
{
    let (name, from, offset) = three_fields(row);
    if !is_name_field(name) {
        return None;
    }
    let start = read_instant(from).ok()?;
    let offset = read_offset(offset)?;
    Some((name, ZoneRow { start, offset }))
}

impl Table for ZoneTable {
    ghost schema = { λ t. zones_schema };

    ghost becomes = { λ _ t header rows. HasRows t (zone_entries_in rows) };

    fn headers(&self) -> &'static [&'static [&'static str]] {
        &[&["zone", "from", "offset"]]
    }

    fn limit(&self) -> u32 {
        MOST_ZONE_ROWS
    }

    fn add(&mut self, alloc: Global, _header: &[&str], row: &ByteRecord) -> Result<(), RowFault> {
        let Some((name, row)) = read_entry(row) else {
            return Err(RowFault::Bad(Cause::BadField));
        };
        self.add_row(alloc, name, row)
    }
}

/// The zones of a table, `UTC` among them. Linear in the bytes, on average.
///
/// `BadRow` names the first record that has a fault, from 1, and its cause: `BadHeader`, `FieldCount`, `SizeLimit` beyond 10,000
/// data rows, `BadField` for a field that isn't of its form, or `NotRising` for a row that starts no later than the row of the same
/// zone before it.
pub fn read_zones(alloc: Global, bytes: &[u8]) -> Result<Zones, TableFault>
    ensures { ReadsRows result (first_table_fault zones_schema (records_of bytes.now))
        (λ zones. HasZones zones (zone_entries_in (rows_of bytes.now))) }
{
    let table = read_table(alloc, bytes, ZoneTable::new(alloc))?;
    Ok(table.into_zones(alloc)?)
}
