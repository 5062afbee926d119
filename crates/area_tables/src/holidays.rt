// holidays.csv: public and school holidays of areas.
ghost use Rattle.std.specs.Prelude.{◌≡◌, [], IfOk, map};
ghost use Rattle.area_tables.specs.Words.{HaveDays, holidays_schema, holidays_in, holidays_named, in_calendar, names_of};
ghost use Rattle.area_tables.specs.Words.{ReadsRows, first_table_fault, records_of, rows_of};

mod days;
mod row;

use crate::Areas;
use csv::ByteRecord;
use days::AreaDays;
use opening_hours::Holidays;
use route_base::limits::MOST_HOLIDAYS;
use route_base::{Cause, OutOfMemory, TableFault};
use row::read_holiday;
use std::alloc::Global;
use std::marker::Model;
use table_reader::{RowFault, Table, read_table};

/// Areas with the days of their holidays while the table is being read.
#[derive(Drop)]
struct HolidayTable<'a> {
    areas: &'a Areas,
    days: Vec<AreaDays>,
}

impl<'a> Model for HolidayTable<'a> {
    ghost use Rattle.area_tables.specs.Inside.{HolidayDays, AreHolidayDays};

    ghost Value = { HolidayDays };

    ghost view = { λ t. record { areas = t.areas.now; days = t.days.items } };

    ghost invariant = { λ t. AreHolidayDays (record { areas = t.areas.now; days = t.days.items }) };
}

impl<'a> HolidayTable<'a> {
    // No days yet, for any of these areas. Linear in them, in time and memory.
    fn new(alloc: Global, areas: &'a Areas) -> Result<HolidayTable<'a>, OutOfMemory>
        ensures areas { IfOk result (λ t. t.areas ≡ areas.now) }
        ensures none { IfOk result (λ t. HaveDays t t []) }
    {
        let count = areas.len();
        let mut days = Vec::with_capacity(alloc, count)?;
        for _area in 0..count {
            days.push(AreaDays::new(alloc))?;
        }
        Ok(HolidayTable { areas, days })
    }

    // The holidays of each area in their order. In n log n steps for n days.
    fn into_holidays(self, alloc: Global) -> Result<Vec<Holidays>, OutOfMemory>
        ensures { IfOk result (λ holidays. holidays.items ≡ map in_calendar self.entry.days) }
    {
        Ok(
            self.days
                .into_iter()
                .map(|d| d.into_holidays())
                .collect(alloc)?,
        )
    }
}

impl<'a> Table for HolidayTable<'a> {
    ghost schema = { λ t. holidays_schema (names_of t.areas) };

    ghost becomes = { λ start t header rows. HaveDays start t (holidays_in rows) };

    fn headers(&self) -> &'static [&'static [&'static str]] {
        &[&["area", "kind", "date"]]
    }

    fn limit(&self) -> u32 {
        MOST_HOLIDAYS
    }

    fn add(&mut self, _alloc: Global, _header: &[&str], row: &ByteRecord) -> Result<(), RowFault> {
        let Some((area, holiday)) = read_holiday(row) else {
            return Err(RowFault::Bad(Cause::BadField));
        };
        let Some(place) = self.areas.place(area) else {
            return Err(RowFault::Bad(Cause::Unknown));
        };
        self.days[place as usize].add(holiday)?;
        Ok(())
    }
}

/// The holidays of each of these areas in their order, by the rows of a table. Linear in the bytes and the areas, and n log n steps
/// for n days.
///
/// `BadRow` names the first record that has a fault, from 1, and its cause: `BadHeader`, `FieldCount`, `SizeLimit` beyond 100,000
/// data rows, `BadField` for a field that isn't of its form, or `Unknown` for another area.
pub fn read_holidays(
    alloc: Global,
    bytes: &[u8],
    areas: &Areas,
) -> Result<Vec<Holidays>, TableFault>
    ensures { ReadsRows result
        (first_table_fault (holidays_schema (names_of areas.now)) (records_of bytes.now))
        (λ lists. lists.items
        ≡ map (holidays_named (holidays_in (rows_of bytes.now))) (names_of areas.now)) }
{
    let table = read_table(alloc, bytes, HolidayTable::new(alloc, areas)?)?;
    Ok(table.into_holidays(alloc)?)
}
