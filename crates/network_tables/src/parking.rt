// parking.csv: the nodes where one may wait, what a minute costs there, and the hours in which one may.
ghost use Rattle.std.specs.Prelude.{◌≡◌, ◌<◌, ◌⊎◌, ◌∷◌, [], Ok, Err, Some, None, All, IfErr, IfOk, IfSome, IsSome, OnOk, length, nat_eq};
ghost use Rattle.network_tables.specs.Words.{fields_of, value_under, names_of, areas_of, IfBadCause, Reads};
ghost use Rattle.route_base.specs.Causes.{IsOfContents};
ghost use Rattle.network_tables.specs.NetworkFiles.{node_count_of, ratings_of, parks_of, parking_fault};
ghost use Rattle.network_tables.specs.Parking.{hours_in_field, four_fields_of, parking_fields_of, parking_schema, place_or_first};
ghost use Rattle.network_tables.specs.ParkRows.{AreThere, HaveParks, Keeps, Puts, fields_with, hours_at, park_lists};
ghost use Rattle.std.specs.Map.{lookup};
ghost use Rattle.network_tables.specs.Parks.{parks_with, HaveTimetables, IsTimedIn};

use crate::files::read_file;
use crate::parks::{Parks, RatedNode, TimetablePlace};
use crate::ratings::RatingTable;
use crate::{Files, NetworkFault};
use area_tables::Areas;
use csv::ByteRecord;
use indexmap::{IndexMap, IndexSet};
use opening_hours::{Hours, HoursFault, parse};
use route_base::limits::{LONGEST_RULE, MOST_PARKING_ROWS};
use route_base::{Cause, Cost, FileKind, OutOfMemory, is_name_field, read_table_number};
use std::alloc::Global;
use std::marker::Model;
use table_reader::{NameIndex, RowFault, Table, four_fields, two_fields};

/// Hours by their texts, which contracts see as a list of hours.
#[derive(Drop)]
struct HoursByText {
    texts: NameIndex<Hours>,
}

impl Model for HoursByText {
    ghost use Rattle.std.specs.Prelude.{List, All, map};
    ghost use Rattle.opening_hours.specs.declared.types.HoursRule.{HoursRule};
    ghost use Rattle.network_tables.specs.ParkRows.{IsRead};

    ghost Value = { List (List HoursRule) };

    ghost view = { λ h. map (λ e. e.1) h.texts };

    ghost invariant = { λ h. All IsRead h.texts };
}

// Parses a text of hours.
fn read_hours(alloc: Global, text: &[u8]) -> Result<Hours, RowFault>
    requires { 0 < length text.now }
    ensures value { IfOk result (λ hours. hours_in_field text.now ≡ Ok (Some hours)) }
    ensures refused { IfErr result (λ e.
        IfBadCause e (λ cause. hours_in_field text.now ≡ Err cause)) }
    ensures cause { IfErr result (λ e. IfBadCause e IsOfContents) }
{
    if text.len() > LONGEST_RULE {
        return Err(RowFault::Bad(Cause::SizeLimit));
    }
    match parse(alloc, text) {
        Ok(hours) => Ok(hours),
        Err(HoursFault::NotHours) => Err(RowFault::Bad(Cause::NotHours)),
        Err(HoursFault::OutOfMemory) => Err(RowFault::OutOfMemory),
    }
}

impl HoursByText {
    // No hours.
    fn new(alloc: Global) -> Self
        ensures { result ≡ [] }
    {
        HoursByText {
            texts: NameIndex::new(alloc),
        }
    }

    // The place of the hours of a text, which is parsed if it is new; `None` where the text is empty.
    fn place(&mut self, alloc: Global, text: &[u8]) -> Result<Option<usize>, RowFault>
        ensures kept { OnOk result (Keeps self.old self.new) }
        ensures there { IfOk result (AreThere self.new) }
        ensures value { IfOk result (λ place.
            hours_in_field text.now ≡ Ok (hours_at self.new place)) }
        ensures refused { IfErr result (λ e.
            IfBadCause e (λ cause. hours_in_field text.now ≡ Err cause)) }
        ensures cause { IfErr result (λ e. IfBadCause e IsOfContents) }
    {
        if text.is_empty() {
            return Ok(None);
        }
        if let Some(place) = self.texts.place(text) {
            return Ok(Some(place));
        }
        let place = self.texts.len();
        let hours = read_hours(alloc, text)?;
        self.texts.add(alloc, text, hours)?;
        Ok(Some(place))
    }

    // The hours in their order. Linear in them.
    fn into_list(self, alloc: Global) -> Result<Vec<Hours>, OutOfMemory>
        ensures { IfOk result (λ list. list.items ≡ self) }
    {
        self.texts.into_values(alloc)
    }
}

/// The fields of a row, with the place of its hours.
#[derive(Clone, Copy, Drop)]
struct ParkingRow<'a> {
    node: u32,
    rating: &'a [u8],
    area: &'a [u8],
    hours: Option<usize>,
}

// Parses the four fields of a row.
fn read_four<'a>(
    alloc: Global,
    hours: &mut HoursByText,
    node: &[u8],
    rating: &'a [u8],
    area: &'a [u8],
    text: &[u8],
) -> Result<ParkingRow<'a>, RowFault>
    ensures kept { OnOk result (Keeps hours.old hours.new) }
    ensures there { IfOk result (λ row. AreThere hours.new row.hours) }
    ensures value { IfOk result (λ row.
        four_fields_of node.now rating.now area.now text.now ≡ Ok (fields_with hours.new row)) }
    ensures refused { IfErr result (λ e. IfBadCause e (λ cause.
        four_fields_of node.now rating.now area.now text.now ≡ Err cause)) }
    ensures cause { IfErr result (λ e. IfBadCause e IsOfContents) }
{
    if !is_name_field(rating) || !(area.is_empty() || is_name_field(area)) {
        return Err(RowFault::Bad(Cause::BadField));
    }
    let Some(node) = read_table_number(node) else {
        return Err(RowFault::Bad(Cause::BadField));
    };
    let hours = hours.place(alloc, text)?;
    Ok(ParkingRow {
        node,
        rating,
        area,
        hours,
    })
}

// Parses a data row, which has two fields under the shorter header.
fn read_row<'a>(
    alloc: Global,
    hours: &mut HoursByText,
    row: &'a ByteRecord,
) -> Result<ParkingRow<'a>, RowFault>
    requires { (length (fields_of row.now) ≡ 2) ⊎ (length (fields_of row.now) ≡ 4) }
    ensures kept { OnOk result (Keeps hours.old hours.new) }
    ensures there { IfOk result (λ read. AreThere hours.new read.hours) }
    ensures value { IfOk result (λ read.
        parking_fields_of (fields_of row.now) ≡ Ok (fields_with hours.new read)) }
    ensures refused { IfErr result (λ e. IfBadCause e (λ cause.
        parking_fields_of (fields_of row.now) ≡ Err cause)) }
    ensures cause { IfErr result (λ e. IfBadCause e IsOfContents) }
{
    if row.len() == 2 {
        let (node, rating) = two_fields(row);
        return read_four(alloc, hours, node, rating, &[], &[]);
    }
    let (node, rating, area, text) = four_fields(row);
    read_four(alloc, hours, node, rating, area, text)
}

// The place of the area with this name; without a name it is the first.
fn area_place(areas: &Areas, name: &[u8]) -> Option<u32>
    ensures { result ≡ place_or_first (names_of areas.now) name.now }
{
    if name.is_empty() {
        return Some(0);
    }
    areas.place(name)
}

// The timetables in their order. Linear in them.
fn timetable_list(
    alloc: Global,
    timetables: IndexSet<TimetablePlace>,
) -> Result<Vec<TimetablePlace>, OutOfMemory>
    ensures { IfOk result (λ list. list.items ≡ timetables.keys) }
{
    Ok(Vec::from_slice(alloc, timetables.as_slice())?)
}

/// Parks while the table is being read, with the nodes, the ratings and the areas for which they stand.
#[derive(Drop)]
struct ParkingTable<'a> {
    nodes: u32,
    ratings: RatingTable,
    areas: &'a Areas,
    hours: HoursByText,
    timetables: IndexSet<TimetablePlace>,
    rated: IndexMap<u32, RatedNode>,
}

impl<'a> Model for ParkingTable<'a> {
    ghost use Rattle.network_tables.specs.ParkRows.{ParkingSoFar};

    ghost Value = { ParkingSoFar };

    ghost view = { λ t. record {
      nodes = t.nodes;
      ratings = t.ratings;
      areas = t.areas.now;
      hours = t.hours;
      timetables = t.timetables.keys;
      rated = t.rated.entries;
    } };
}

impl<'a> ParkingTable<'a> {
    // The weight of a rating and the place of an area by name; `None` where one of them isn't known.
    fn find(&self, rating: &[u8], area: &[u8]) -> Option<(Cost, u32)>
        ensures weight { IfSome result (λ r. value_under self.now.ratings rating.now ≡ Some r.0) }
        ensures area { IfSome result (λ r.
            place_or_first (names_of self.now.areas) area.now ≡ Some r.1) }
        ensures unknown { result ≡ None
            → (value_under self.now.ratings rating.now ≡ None)
            ⊎ (place_or_first (names_of self.now.areas) area.now ≡ None) }
    {
        Some((self.ratings.weight(rating)?, area_place(self.areas, area)?))
    }

    // Adds a node with its weight and the places of its area and its hours; `Duplicate` where it has a row.
    fn put(&mut self, node: u32, weight: Cost, place: TimetablePlace) -> Result<(), RowFault>
        ensures free { OnOk result (lookup (nat_eq node) self.old.rated ≡ None) }
        ensures put { OnOk result (Puts self.old self.new node weight place) }
        ensures refused { IfErr result (λ e. IfBadCause e (λ cause.
            (cause ≡ Cause.Duplicate) × IsSome (lookup (nat_eq node) self.old.rated))) }
    {
        if self.rated.contains_key(&node) {
            return Err(RowFault::Bad(Cause::Duplicate));
        }
        let (timetable, _) = self.timetables.insert_full(place)?;
        self.rated.insert(node, RatedNode { weight, timetable })?;
        Ok(())
    }

    // The parking that a network holds, by the table. Linear in it.
    fn into_parks(self, alloc: Global) -> Result<Parks, OutOfMemory>
        requires { HaveTimetables (park_lists self) }
        ensures { IfOk result (λ parks. parks ≡ park_lists self.entry) }
    {
        let ParkingTable {
            nodes: _,
            ratings: _,
            areas: _,
            hours,
            timetables,
            rated,
        } = self;
        let timetables = timetable_list(alloc, timetables)?;
        let hours = hours.into_list(alloc)?;
        Ok(Parks::new(rated, timetables, hours))
    }
}

impl<'a> Table for ParkingTable<'a> {
    ghost schema = { λ t. parking_schema t.nodes t.ratings (names_of t.areas) };

    ghost becomes = { λ start t header rows. HaveParks start t rows };

    fn headers(&self) -> &'static [&'static [&'static str]] {
        &[&["node", "rating"], &["node", "rating", "area", "hours"]]
    }

    fn limit(&self) -> u32 {
        MOST_PARKING_ROWS
    }

    fn add(&mut self, alloc: Global, _header: &[&str], row: &ByteRecord) -> Result<(), RowFault> {
        let row = read_row(alloc, &mut self.hours, row)?;
        if row.node < 1 || row.node > self.nodes {
            return Err(RowFault::Bad(Cause::Unknown));
        }
        let Some((weight, area)) = self.find(row.rating, row.area) else {
            return Err(RowFault::Bad(Cause::Unknown));
        };
        let hours = row.hours;
        self.put(row.node, weight, TimetablePlace { area, hours })
    }
}

/// The nodes where one may wait, by these ratings and areas. Linear in the bytes, on average.
pub fn read_parking(
    alloc: Global,
    files: &Files,
    nodes: u32,
    ratings: RatingTable,
    areas: &Areas,
) -> Result<Parks, NetworkFault>
    requires nodes { nodes ≡ node_count_of files.now }
    requires ratings { ratings ≡ ratings_of files.now }
    requires areas { names_of areas.now ≡ names_of (areas_of files.now) }
    requires some { 0 < length areas.now }
    ensures value { Reads result (parking_fault files.now)
        (λ parks. parks_with parks ≡ parks_of files.now) }
    ensures placed { IfOk result (λ parks.
        All (IsTimedIn (length areas.now)) parks.timetables) }
{
    let table = ParkingTable {
        nodes,
        ratings,
        areas,
        hours: HoursByText::new(alloc),
        timetables: IndexSet::new(alloc),
        rated: IndexMap::new(alloc),
    };
    let table = read_file(alloc, FileKind::Parking, &files.parking, table)?;
    Ok(table.into_parks(alloc)?)
}
