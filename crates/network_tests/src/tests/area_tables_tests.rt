// The four tables of areas, by calls of their own. The other files look at what a network has of them.
mod areas;
mod holidays;

use area_tables::{Areas, Zones, read_areas, read_holidays, read_roads, read_zones};
use opening_hours::Holidays;
use route_base::TableFault;
use route_base::limits::FIRST_INSTANT;
use std::alloc::Global;
use zone_rules::Zone;

// The zone `Here`, whose local time is half an hour ahead, and `UTC`.
fn zones_of(alloc: Global) -> Result<Zones, TableFault> {
    read_zones(alloc, b"zone,from,offset\nHere,525600,+00:30\n")
}

// The areas `port` in UTC and `town` in the other zone.
fn areas_in(alloc: Global, zones: &Zones) -> Result<Areas, TableFault> {
    read_areas(alloc, b"area,zone\nport,UTC\ntown,Here\n", zones)
}

// Whether local time is half an hour ahead in the first of two zones, and not ahead in the second.
fn are_both_zones(zones: &[Zone]) -> bool {
    match zones {
        [here, utc] => here.offset(FIRST_INSTANT) == 30 && utc.offset(FIRST_INSTANT) == 0,
        _ => false,
    }
}

// Whether `town` is in the first zone, and `port` in UTC.
fn are_places(zones: &Zones, places: &[usize]) -> bool {
    places == [zones.utc(), 0].as_slice()
}

#[test]
fn places_areas_among_zones(rt: HostRuntime) {
    let zones = zones_of(rt.alloc()).expect(&rt, "zones");
    let areas = areas_in(rt.alloc(), &zones).expect(&rt, "areas");
    let places = areas.into_zone_places(rt.alloc()).expect(&rt, "memory");
    assert!(rt; are_places(&zones, &places));
    let list = zones.into_list(rt.alloc()).expect(&rt, "memory");
    assert!(rt; are_both_zones(&list));
}

// Whether the first of two areas has no holiday on 2020-07-06, and the second one for schools.
fn are_of_schools(holidays: &[Holidays]) -> bool {
    match holidays {
        [port, town] => !port.is_school(18_449) && town.is_school(18_449),
        _ => false,
    }
}

#[test]
fn reads_roads_and_holidays_of_areas(rt: HostRuntime) {
    let zones = zones_of(rt.alloc()).expect(&rt, "zones");
    let areas = areas_in(rt.alloc(), &zones).expect(&rt, "areas");
    // Of three arcs the second is in `town`.
    let roads = read_roads(rt.alloc(), b"arc,area\n2,town\n", 3, &areas).expect(&rt, "roads");
    assert!(rt; roads.as_slice() == [0, 1, 0].as_slice());
    let text = b"area,kind,date\ntown,SH,2020-07-06\n";
    let holidays = read_holidays(rt.alloc(), text, &areas).expect(&rt, "holidays");
    assert!(rt; are_of_schools(&holidays));
}
