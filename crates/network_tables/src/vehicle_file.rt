// vehicles.csv, which `vehicle_classes` reads.
ghost use Rattle.std.specs.Prelude.{◌≡◌};
ghost use Rattle.network_tables.specs.Words.{vehicles_of, vehicles_fault, Reads};

use crate::files::in_file;
use crate::{Files, NetworkFault};
use route_base::FileKind;
use std::alloc::Global;
use vehicle_classes::{Vehicles, read_vehicles};

/// The vehicles of the file. Linear in the bytes, on average.
pub fn read_vehicle_file(alloc: Global, files: &Files) -> Result<Vehicles, NetworkFault>
    ensures { Reads result (vehicles_fault files.now)
        (λ vehicles. vehicles ≡ vehicles_of files.now) }
{
    in_file(
        FileKind::Vehicles,
        read_vehicles(alloc, files.vehicles.as_slice()),
    )
}
