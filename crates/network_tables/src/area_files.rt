// zones.csv, areas.csv, roads.csv and holidays.csv, which `area_tables` reads.
ghost use Rattle.std.specs.Prelude.{◌≡◌, map};
ghost use Rattle.network_tables.specs.Words.{HasZones, HaveZones, zone_entries_in, holidays_named, names_of, rows_of, Reads};
ghost use Rattle.network_tables.specs.Words.{zones_fault, areas_of, areas_fault, arc_count_of, roads_of, roads_fault, holidays_of, holidays_fault};

use crate::files::in_file;
use crate::{Files, NetworkFault};
use area_tables::{Areas, Zones, read_areas, read_holidays, read_roads, read_zones};
use opening_hours::Holidays;
use route_base::FileKind;
use std::alloc::Global;

/// The zones by name, `UTC` among them. Linear in the bytes, on average.
pub fn read_zone_file(alloc: Global, files: &Files) -> Result<Zones, NetworkFault>
    ensures { Reads result (zones_fault files.now)
        (λ zones. HasZones zones (zone_entries_in (rows_of files.now.zones))) }
{
    in_file(FileKind::Zones, read_zones(alloc, files.zones.as_slice()))
}

/// The areas by name in these zones. Linear in the bytes, on average.
pub fn read_area_file(alloc: Global, files: &Files, zones: &Zones) -> Result<Areas, NetworkFault>
    requires { HasZones zones.now (zone_entries_in (rows_of files.now.zones)) }
    ensures { Reads result (areas_fault files.now)
        (λ areas. HaveZones zones.now (areas_of files.now) areas) }
{
    in_file(
        FileKind::Areas,
        read_areas(alloc, files.areas.as_slice(), zones),
    )
}

/// The place of each arc's area among these areas. Linear in the bytes and the arcs.
pub fn read_road_file(
    alloc: Global,
    files: &Files,
    arcs: u32,
    areas: &Areas,
) -> Result<Vec<u32>, NetworkFault>
    requires arcs { arcs ≡ arc_count_of files.now }
    requires areas { names_of areas.now ≡ names_of (areas_of files.now) }
    ensures { Reads result (roads_fault files.now) (λ roads. roads.items ≡ roads_of files.now) }
{
    in_file(
        FileKind::Roads,
        read_roads(alloc, files.roads.as_slice(), arcs, areas),
    )
}

/// The holidays of each of these areas. Linear in the bytes and the areas, and n log n steps for n days.
pub fn read_holiday_file(
    alloc: Global,
    files: &Files,
    areas: &Areas,
) -> Result<Vec<Holidays>, NetworkFault>
    requires { names_of areas.now ≡ names_of (areas_of files.now) }
    ensures { Reads result (holidays_fault files.now)
        (λ lists. lists.items ≡ map (holidays_named (holidays_of files.now)) (names_of areas.now)) }
{
    in_file(
        FileKind::Holidays,
        read_holidays(alloc, files.holidays.as_slice(), areas),
    )
}
