// The table of stops.
ghost use Rattle.std.specs.Prelude.{◌≡◌, ◌≤◌, ◌∷◌, ◌++◌, [], length, All, IfOk, IfSome};
ghost use Rattle.stop_tour.specs.Words.{fields_of, records_of, rows_of, ReadsRows, first_table_fault};
ghost use Rattle.stop_tour.specs.Words.{service_of, stop_of, stops_schema, stops_in, IsStopAmong};
ghost use Rattle.route_base.specs.declared.limits.TheConstants.{DAY_MINUTES};

use crate::limits::MOST_STOPS;
use crate::{Stop, Stops};
use calendar_days::read_instant;
use csv::ByteRecord;
use route_base::limits::DAY_MINUTES;
use route_base::{Cause, NodeId, OutOfMemory, TableFault, read_table_number};
use std::alloc::Global;
use std::marker::Model;
use table_reader::{RowFault, Table, four_fields, read_table};

// Stops while the table is being read, for the nodes from 1 to `nodes`.
#[derive(Drop)]
struct StopTable {
    nodes: u32,
    stops: Stops,
}

impl Model for StopTable {
    ghost use Rattle.std.specs.Prelude.{All};
    ghost use Rattle.stop_tour.specs.StopTable.{StopRows};
    ghost use Rattle.stop_tour.specs.Tours.{IsStopAmong};

    ghost Value = { StopRows };

    ghost view = { λ t. record { nodes = t.nodes; stops = t.stops } };

    ghost invariant = { λ t. All (IsStopAmong t.nodes) t.stops };
}

impl StopTable {
    // No stops yet.
    fn new(alloc: Global, nodes: u32) -> Self
        ensures nodes { result.nodes ≡ nodes }
        ensures none { result.stops ≡ [] }
    {
        StopTable {
            nodes,
            stops: Stops::new(alloc),
        }
    }

    // The number of nodes.
    fn node_count(&self) -> u32
        ensures { result ≡ self.now.nodes }
    {
        self.nodes
    }

    // Appends a stop, in constant time on average.
    fn push(&mut self, stop: Stop) -> Result<(), OutOfMemory>
        requires { IsStopAmong self.old.nodes stop }
        ensures nodes { IfOk result (λ _. self.new.nodes ≡ self.old.nodes) }
        ensures stops { IfOk result (λ _. self.new.stops ≡ self.old.stops ++ stop ∷ []) }
    {
        self.stops.push(stop)
    }

    // All stops, at no cost.
    fn into_stops(self) -> Stops
        ensures same { result ≡ self.stops }
        ensures good { All (IsStopAmong self.nodes) result }
    {
        self.stops
    }
}

// Parses the minutes of a service.
fn read_service(minutes: &[u8]) -> Option<u64>
    ensures value { result ≡ service_of minutes.now }
    ensures range { IfSome result (λ k. (1 ≤ k) × (k ≤ DAY_MINUTES)) }
{
    let minutes = read_table_number(minutes)? as u64;
    if 1 <= minutes && minutes <= DAY_MINUTES {
        Some(minutes)
    } else {
        None
    }
}

// Parses a data row.
fn read_stop(row: &ByteRecord) -> Option<Stop>
    requires { length (fields_of row.now) ≡ 4 }
    ensures value { result ≡ stop_of (fields_of row.now) }
    ensures range { IfSome result (λ stop. (1 ≤ stop.service) × (stop.service ≤ DAY_MINUTES)) }
{
    let (node, service, from, to) = four_fields(row);
    Some(Stop {
        node: NodeId(read_table_number(node)?),
        service: read_service(service)?,
        from: read_instant(from).ok()?,
        to: read_instant(to).ok()?,
    })
}

impl Table for StopTable {
    ghost schema = { λ t. stops_schema t.nodes };

    ghost becomes = { λ start t header rows. (t.nodes ≡ start.nodes) × (t.stops ≡ stops_in rows) };

    fn headers(&self) -> &'static [&'static [&'static str]] {
        &[&["node", "service", "from", "to"]]
    }

    fn limit(&self) -> u32 {
        MOST_STOPS
    }

    fn add(&mut self, _alloc: Global, _header: &[&str], row: &ByteRecord) -> Result<(), RowFault> {
        let Some(stop) = read_stop(row) else {
            return Err(RowFault::Bad(Cause::BadField));
        };
        if stop.node.0 < 1 || stop.node.0 > self.node_count() {
            return Err(RowFault::Bad(Cause::Unknown));
        }
        if stop.from >= stop.to {
            return Err(RowFault::Bad(Cause::NotRising));
        }
        Ok(self.push(stop)?)
    }
}

/// The stops of a table in the order of its rows, at nodes from 1 to `nodes`. Linear in the bytes, in time and memory.
///
/// `BadRow` names the first record that has a fault, from 1, and its cause: `BadHeader`, `FieldCount`, `SizeLimit` beyond `MOST_STOPS`
/// data rows, `BadField` for a field that isn't of its form, `Unknown` for a node that isn't there, or `NotRising` for a window whose
/// end isn't above its start.
pub fn read_stops(alloc: Global, bytes: &[u8], nodes: u32) -> Result<Stops, TableFault>
    ensures read { ReadsRows result (first_table_fault (stops_schema nodes) (records_of bytes.now))
        (λ stops. stops ≡ stops_in (rows_of bytes.now)) }
    ensures good { IfOk result (All (IsStopAmong nodes)) }
{
    Ok(read_table(alloc, bytes, StopTable::new(alloc, nodes))?.into_stops())
}
