// closures.csv: the minutes in which arcs are closed.
ghost use Rattle.std.specs.Prelude.{◌≡◌, ◌<◌, ◌^◌, [], IfOk, length};
ghost use Rattle.network_tables.specs.Words.{fields_of, closure_of, closures_schema, closures_in, runs_by_arc};
ghost use Rattle.network_tables.specs.Words.{arc_count_of, closed_runs_of, closures_fault, Reads};

use crate::closure_lists::ClosureLists;
use crate::files::read_file;
use crate::{Files, NetworkFault};
use calendar_days::read_instant;
use csv::ByteRecord;
use route_base::limits::MOST_CLOSURES;
use route_base::{ArcId, Cause, FileKind, OutOfMemory, Run, read_table_number};
use std::alloc::Global;
use std::marker::Model;
use table_reader::{RowFault, Table, three_fields};

/// One closure: an arc, and the minutes in which it is closed.
#[derive(Clone, Copy)]
pub struct Closure {
    pub arc: ArcId,
    pub run: Run,
}

/// Closures while the table is being read, in the order of their rows, with the number of arcs for which they stand: 24 bytes a row.
#[derive(Drop)]
struct ClosureTable {
    arcs: u32,
    closures: Vec<Closure>,
}

impl Model for ClosureTable {
    ghost use Rattle.std.specs.Prelude.{All, ◌≤◌};
    ghost use Rattle.network_tables.specs.Closures.{ClosuresSoFar};

    ghost Value = { ClosuresSoFar };

    ghost view = { λ t. record { arcs = t.arcs; closures = t.closures.items } };

    ghost invariant = { λ t. All (λ c. c.arc.0 ≤ t.arcs) t.closures.items };
}

impl ClosureTable {
    // No closures yet, for the arcs from 1 to `arcs`.
    fn new(alloc: Global, arcs: u32) -> Self
        ensures { result ≡ record { arcs = arcs; closures = [] } }
    {
        ClosureTable {
            arcs,
            closures: Vec::new(alloc),
        }
    }

    // The closed minutes by arc. Linear in arcs and closures, in time and memory.
    fn into_lists(self, alloc: Global) -> Result<ClosureLists, OutOfMemory>
        requires { length self.closures < 2 ^ 32 }
        ensures { IfOk result (λ lists. lists ≡ runs_by_arc self.arcs self.closures) }
    {
        ClosureLists::new(alloc, self.arcs, &self.closures)
    }
}

// Parses a data row.
fn read_closure(row: &ByteRecord) -> Option<Closure>
    requires { length (fields_of row.now) ≡ 3 }
    ensures { result ≡ closure_of (fields_of row.now) }
{
    let (arc, from, to) = three_fields(row);
    let arc = ArcId(read_table_number(arc)?);
    let run = Run {
        lo: read_instant(from).ok()?,
        hi: read_instant(to).ok()?,
    };
    Some(Closure { arc, run })
}

impl Table for ClosureTable {
    ghost schema = { λ t. closures_schema t.arcs };

    ghost becomes = { λ start t header rows.
        (t.arcs ≡ start.arcs) × (t.closures ≡ closures_in rows) };

    fn headers(&self) -> &'static [&'static [&'static str]] {
        &[&["arc", "from", "to"]]
    }

    fn limit(&self) -> u32 {
        MOST_CLOSURES
    }

    fn add(&mut self, _alloc: Global, _header: &[&str], row: &ByteRecord) -> Result<(), RowFault> {
        let Some(closure) = read_closure(row) else {
            return Err(RowFault::Bad(Cause::BadField));
        };
        if closure.arc.0 < 1 || closure.arc.0 > self.arcs {
            return Err(RowFault::Bad(Cause::Unknown));
        }
        if closure.run.lo >= closure.run.hi {
            return Err(RowFault::Bad(Cause::NotRising));
        }
        self.closures.push(closure)?;
        Ok(())
    }
}

/// The closed minutes of each arc. Linear in the bytes and the arcs.
pub fn read_closures(alloc: Global, files: &Files, arcs: u32) -> Result<ClosureLists, NetworkFault>
    requires { arcs ≡ arc_count_of files.now }
    ensures { Reads result (closures_fault files.now) (λ lists. lists ≡ closed_runs_of files.now) }
{
    let table = ClosureTable::new(alloc, arcs);
    let table = read_file(alloc, FileKind::Closures, &files.closures, table)?;
    Ok(table.into_lists(alloc)?)
}
