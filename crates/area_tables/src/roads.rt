// roads.csv: the area of each arc.
ghost use Rattle.std.specs.Prelude.{◌≡◌, codes, map, unwrap_or, IfOk};
ghost use Rattle.route_base.specs.declared.limits.TheConstants.{MOST_ROAD_ROWS};
ghost use Rattle.route_base.specs.Forms.{is_name};
ghost use Rattle.area_tables.specs.Words.{names_of, place_among, numbered_in, roads_schema, area_by_arc};
ghost use Rattle.area_tables.specs.Words.{ReadsRows, first_table_fault, records_of, rows_of};

use crate::Areas;
use route_base::limits::MOST_ROAD_ROWS;
use route_base::{OutOfMemory, TableFault, is_name_field};
use std::alloc::Global;
use std::marker::Model;
use table_reader::{FieldValues, NumberedTable, read_table};

/// Areas by name, which contracts see as those areas.
#[derive(Drop)]
struct AreaNames<'a> {
    areas: &'a Areas,
}

impl<'a> Model for AreaNames<'a> {
    ghost use Rattle.std.specs.Prelude.{List, ℕ};

    ghost Value = { List (List ℕ × ℕ) };

    ghost view = { λ n. n.areas.now };
}

/// The rows assign the place of an area to an arc.
impl<'a> FieldValues<u32> for AreaNames<'a> {
    ghost numbers = { codes "arc" };

    ghost fields = { codes "area" };

    ghost limit = { MOST_ROAD_ROWS };

    ghost form = { is_name };

    ghost value = { λ areas. place_among (names_of areas) };

    fn headers(&self) -> &'static [&'static [&'static str]] {
        &[&["arc", "area"]]
    }

    fn most_rows(&self) -> u32 {
        MOST_ROAD_ROWS
    }

    fn has_form(&self, field: &[u8]) -> bool {
        is_name_field(field)
    }

    fn find(&self, name: &[u8]) -> Option<u32> {
        self.areas.place(name)
    }
}

// The place of each arc's area: that of its row, or the first. Linear in the arcs.
fn with_first_area(alloc: Global, places: &[Option<u32>]) -> Result<Vec<u32>, OutOfMemory>
    ensures { IfOk result (λ all. all.items ≡ map (λ o. unwrap_or o 0) places.now) }
{
    Ok(places.iter().map(|p| p.unwrap_or(0)).collect(alloc)?)
}

/// The place of each arc's area among these areas, by the rows of a table for the arcs from 1 to `arcs`; an arc without a row is in
/// the first area. Linear in the bytes and the arcs.
///
/// `BadRow` names the first record that has a fault, from 1, and its cause: `BadHeader`, `FieldCount`, `SizeLimit` beyond 1,000,000
/// data rows, `BadField` for a field that isn't of its form, `Unknown` for another arc or area, or `Duplicate` for an arc that has a
/// row already.
pub fn read_roads(
    alloc: Global,
    bytes: &[u8],
    arcs: u32,
    areas: &Areas,
) -> Result<Vec<u32>, TableFault>
    ensures { ReadsRows result
        (first_table_fault (roads_schema arcs (names_of areas.now)) (records_of bytes.now))
        (λ places. places.items
        ≡ area_by_arc arcs (names_of areas.now) (numbered_in is_name (rows_of bytes.now))) }
{
    let table = NumberedTable::new(alloc, arcs, AreaNames { areas })?;
    let (_, places) = read_table(alloc, bytes, table)?.into_parts();
    Ok(with_first_area(alloc, &places)?)
}
