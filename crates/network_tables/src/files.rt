// The bytes of a network's files, and how a table is read from them.
ghost use Rattle.std.specs.Prelude.{◌≡◌, []};
ghost use Rattle.table_reader.specs.Records.{Record, header_of, rows_of};
ghost use Rattle.network_tables.specs.Files.{no_files, with_file};
ghost use Rattle.network_tables.specs.NetworkFiles.{table_fault};
ghost use Rattle.network_tables.specs.Refusals.{read_in, Reads};

use crate::NetworkFault;
use route_base::{BadInput, FileBytes, FileKind, TableFault};
use std::alloc::Global;
use table_reader::{Table, read_table};

/// The bytes of a network's files. One that isn't there is empty.
pub struct Files {
    pub graph: FileBytes,
    pub zones: FileBytes,
    pub areas: FileBytes,
    pub roads: FileBytes,
    pub vehicles: FileBytes,
    pub rules: FileBytes,
    pub closures: FileBytes,
    pub ratings: FileBytes,
    pub parking: FileBytes,
    pub holidays: FileBytes,
    pub tolls: FileBytes,
}

// By hand, so that the drops of its parts are proved here alone.
impl Drop for Files {
    fn drop(self) {
        let Files {
            graph: _,
            zones: _,
            areas: _,
            roads: _,
            vehicles: _,
            rules: _,
            closures: _,
            ratings: _,
            parking: _,
            holidays: _,
            tolls: _,
        } = self;
    }
}

impl Files {
    /// Files that aren't there, each of them empty, at no cost.
    pub fn new(alloc: Global) -> Files
        ensures { result ≡ no_files }
    {
        Files {
            graph: FileBytes::new(alloc),
            zones: FileBytes::new(alloc),
            areas: FileBytes::new(alloc),
            roads: FileBytes::new(alloc),
            vehicles: FileBytes::new(alloc),
            rules: FileBytes::new(alloc),
            closures: FileBytes::new(alloc),
            ratings: FileBytes::new(alloc),
            parking: FileBytes::new(alloc),
            holidays: FileBytes::new(alloc),
            tolls: FileBytes::new(alloc),
        }
    }

    /// Puts the bytes of a file in its place, at no cost. The bytes of a file that a network doesn't have are dropped.
    pub fn put(&mut self, file: FileKind, bytes: FileBytes)
        ensures { self.new ≡ with_file self.old file bytes }
    {
        match file {
            FileKind::Graph => self.graph = bytes,
            FileKind::Zones => self.zones = bytes,
            FileKind::Areas => self.areas = bytes,
            FileKind::Roads => self.roads = bytes,
            FileKind::Vehicles => self.vehicles = bytes,
            FileKind::Rules => self.rules = bytes,
            FileKind::Closures => self.closures = bytes,
            FileKind::Ratings => self.ratings = bytes,
            FileKind::Parking => self.parking = bytes,
            FileKind::Holidays => self.holidays = bytes,
            FileKind::Tolls => self.tolls = bytes,
            FileKind::Jobs | FileKind::Certificate | FileKind::Stops | FileKind::Itinerary => {}
        }
    }
}

/// The table of a file, where it was read, or the table's fault as that of this file. At no cost.
pub fn in_file<T: Drop>(file: FileKind, read: Result<T, TableFault>) -> Result<T, NetworkFault>
    ensures { result ≡ read_in file read }
{
    match read {
        Ok(table) => Ok(table),
        Err(TableFault::BadRow { row, cause }) => {
            Err(NetworkFault::Bad(BadInput { file, row, cause }))
        }
        Err(TableFault::OutOfMemory) => Err(NetworkFault::OutOfMemory),
    }
}

/// Adds the rows of a file to an empty table. Linear in the bytes.
pub fn read_file<T: Table>(
    alloc: Global,
    file: FileKind,
    bytes: &FileBytes,
    table: T,
) -> Result<T, NetworkFault>
    requires { (header : Record) → T.becomes table table header [] }
    ensures { Reads result (table_fault file (T.schema table) bytes.now)
        (λ read. T.becomes table read (header_of bytes.now) (rows_of bytes.now)) }
{
    in_file(file, read_table(alloc, bytes.as_slice(), table))
}
