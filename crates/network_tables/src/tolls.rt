// tolls.csv: what it costs to drive over an arc, beside its minutes.
ghost use Rattle.std.specs.Prelude.{◌≡◌, ◌++◌, ◌∷◌, [], None, IfErr, IsSome, OnOk, length};
ghost use Rattle.network_tables.specs.Words.{fields_of, IfBadCause, Reads, arc_count_of, tolls_of, tolls_fault};
ghost use Rattle.network_tables.specs.Words.{toll_of, toll_for, tolls_in, tolls_schema};

use crate::files::read_file;
use crate::{Files, NetworkFault};
use csv::ByteRecord;
use indexmap::IndexMap;
use route_base::limits::MOST_TOLLS;
use route_base::{Cause, Cost, FileKind, read_table_number, read_weight};
use std::alloc::Global;
use std::marker::Model;
use table_reader::{RowFault, Table, two_fields};

/// The tolls of arcs, which contracts see as a list of pairs of an arc's number and its toll, in the order of the rows.
pub struct Tolls {
    by_arc: IndexMap<u32, Cost>,
}

impl Model for Tolls {
    ghost use Rattle.std.specs.Prelude.{List};
    ghost use Rattle.network_tables.specs.Tolls.{Toll};

    ghost Value = { List Toll };

    ghost view = { λ t. t.by_arc.entries };
}

// By hand, so that the drops of its parts are proved here alone.
impl Drop for Tolls {
    fn drop(self) {
        let Tolls { by_arc: _ } = self;
    }
}

impl Tolls {
    /// No tolls.
    pub fn new(alloc: Global) -> Self
        ensures { result ≡ [] }
    {
        Tolls {
            by_arc: IndexMap::new(alloc),
        }
    }

    /// The toll of the arc of this number in thousandths; `None` exactly where it has no row. In constant time on average.
    pub fn toll(&self, arc: u32) -> Option<Cost>
        ensures { result ≡ toll_for self.now arc }
    {
        self.by_arc.get(&arc).copied()
    }

    // Adds the toll of an arc; `Duplicate` where it has one.
    fn add(&mut self, arc: u32, toll: Cost) -> Result<(), RowFault>
        ensures free { OnOk result (toll_for self.old arc ≡ None) }
        ensures added { OnOk result (self.new ≡ self.old ++ (arc, toll) ∷ []) }
        ensures refused { IfErr result (λ e. IfBadCause e (λ cause.
            (cause ≡ Cause.Duplicate) × IsSome (toll_for self.old arc))) }
    {
        if self.toll(arc).is_some() {
            return Err(RowFault::Bad(Cause::Duplicate));
        }
        self.by_arc.insert(arc, toll)?;
        Ok(())
    }
}

/// Tolls while the table is being read, with the number of arcs for which they stand.
#[derive(Drop)]
struct TollTable {
    arcs: u32,
    tolls: Tolls,
}

impl Model for TollTable {
    ghost use Rattle.network_tables.specs.Tolls.{TollsSoFar};

    ghost Value = { TollsSoFar };

    ghost view = { λ t. record { arcs = t.arcs; tolls = t.tolls } };
}

// Parses a data row.
fn read_toll(row: &ByteRecord) -> Option<(u32, Cost)>
    requires { length (fields_of row.now) ≡ 2 }
    ensures { result ≡ toll_of (fields_of row.now) }
{
    let (arc, toll) = two_fields(row);
    Some((read_table_number(arc)?, read_weight(toll)?))
}

impl Table for TollTable {
    ghost schema = { λ t. tolls_schema t.arcs };

    ghost becomes = { λ start t header rows.
        (t.arcs ≡ start.arcs) × (t.tolls ≡ tolls_in rows) };

    fn headers(&self) -> &'static [&'static [&'static str]] {
        &[&["arc", "toll"]]
    }

    fn limit(&self) -> u32 {
        MOST_TOLLS
    }

    fn add(&mut self, _alloc: Global, _header: &[&str], row: &ByteRecord) -> Result<(), RowFault> {
        let Some((arc, toll)) = read_toll(row) else {
            return Err(RowFault::Bad(Cause::BadField));
        };
        if arc < 1 || arc > self.arcs {
            return Err(RowFault::Bad(Cause::Unknown));
        }
        self.tolls.add(arc, toll)
    }
}

/// The tolls of the file for these arcs. Linear in the bytes, on average.
pub fn read_tolls(alloc: Global, files: &Files, arcs: u32) -> Result<Tolls, NetworkFault>
    requires { arcs ≡ arc_count_of files.now }
    ensures { Reads result (tolls_fault files.now) (λ tolls. tolls ≡ tolls_of files.now) }
{
    let table = TollTable {
        arcs,
        tolls: Tolls::new(alloc),
    };
    Ok(read_file(alloc, FileKind::Tolls, &files.tolls, table)?.tolls)
}
