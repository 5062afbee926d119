// Where and when one may wait: both headers of parking, and why a row is refused.
use crate::tests::network_tables_tests::{AREAS, is_refused, read};
use network_tables::{Network, NetworkFault};
use route_base::{Cause, FileKind, NodeId, OutOfMemory};
use std::alloc::Global;

// The network of this table of parking, with two areas and two ratings.
fn parked<'a>(alloc: Global, parking: &'a str) -> Result<Network, NetworkFault> {
    let texts = [
        (FileKind::Areas, AREAS),
        (FileKind::Ratings, "rating,weight\nr,2\nfree,0\n"),
        (FileKind::Parking, parking),
    ];
    read(alloc, &texts)
}

// Whether the node has this area, and hours or none.
fn has_park(network: &Network, node: u32, area: usize, timed: bool) -> bool {
    let parks = network.parks();
    match parks.rated(NodeId(node)) {
        Some(rated) => {
            parks.area(rated.timetable) == area && parks.hours(rated.timetable).is_some() == timed
        }
        None => false,
    }
}

const PARKED: &str = "node,rating,area,hours\n1,r,,\n2,free,town,\"Mo-Fr 06:00-22:00; PH off\"\n";

// Whether one may wait at the first node always, at the second at times, and nowhere else.
fn has_two_parks(network: &Network) -> bool {
    has_park(network, 1, 0, false)
        && has_park(network, 2, 1, true)
        && network.parks().rated(NodeId(3)).is_none()
}

// Whether a network with these two is read.
fn reads_two_parks(alloc: Global) -> bool {
    match parked(alloc, PARKED) {
        Ok(network) => has_two_parks(&network),
        Err(_) => false,
    }
}

#[test]
fn reads_areas_and_hours_of_parking(rt: HostRuntime) {
    assert!(rt; reads_two_parks(rt.alloc()));
}

const SHARED: &str = "node,rating,area,hours\n1,r,town,24/7\n2,free,town,24/7\n3,r,port,24/7\n";

// Whether the network of this table has two timetables.
fn has_two_timetables(alloc: Global, parking: &str) -> bool {
    match parked(alloc, parking) {
        Ok(network) => network.parks().timetable_count() == 2,
        Err(_) => false,
    }
}

#[test]
fn shares_timetables(rt: HostRuntime) {
    assert!(rt; has_two_timetables(rt.alloc(), SHARED));
}

// The record and the cause of a refusal, and the table.
const REFUSED: &[(u64, Cause, &str)] = &[
    (2, Cause::FieldCount, "node,rating,area,hours\n1,r\n"),
    (2, Cause::FieldCount, "node,rating\n1,r,,24/7\n"),
    (2, Cause::BadField, "node,rating,area,hours\n1,r,-,\n"),
    (
        2,
        Cause::BadField,
        "node,rating,area,hours\nx,r,,Mo 25:00-26:00\n",
    ),
    (2, Cause::BadField, "node,rating,area,hours\n1,-r,,\n"),
    (
        2,
        Cause::NotHours,
        "node,rating,area,hours\n1,r,,Mo 25:00-26:00\n",
    ),
    (2, Cause::NotHours, "node,rating,area,hours\n4,x,y,always\n"),
    (2, Cause::NotHours, "node,rating,area,hours\n1,r,, \n"),
    (
        3,
        Cause::Unknown,
        "node,rating,area,hours\n1,r,town,\n2,r,city,24/7\n",
    ),
    (2, Cause::Unknown, "node,rating,area,hours\n4,r,,24/7\n"),
    (2, Cause::Unknown, "node,rating,area,hours\n1,x,,\n"),
    (
        3,
        Cause::Duplicate,
        "node,rating,area,hours\n1,r,,\n01,r,town,24/7\n",
    ),
    (
        3,
        Cause::Unknown,
        "node,rating,area,hours\n1,r,,\n1,r,city,\n",
    ),
];

#[test]
fn refuses_rows_of_parking(rt: HostRuntime) {
    for (row, cause, table) in REFUSED {
        assert!(rt;
            is_refused(parked(rt.alloc(), table), FileKind::Parking, *row, *cause),
            "{table}"
        );
    }
}

// A row with hours of this number of bytes, of which all but the two words are blanks.
fn long_hours(alloc: Global, bytes: usize) -> Result<String, OutOfMemory> {
    let mut text = String::from_str(alloc, "node,rating,area,hours\n1,r,,24/7")?;
    for _ in 8..bytes {
        text.push(' ')?;
    }
    text.push_str("open\n")?;
    Ok(text)
}

// The network with hours of this number of bytes.
fn with_long_hours(alloc: Global, bytes: usize) -> Result<Network, NetworkFault> {
    parked(alloc, &long_hours(alloc, bytes)?)
}

// Whether they are read.
fn reads_long_hours(alloc: Global, bytes: usize) -> bool {
    with_long_hours(alloc, bytes).is_ok()
}

#[test]
fn refuses_longer_hours_than_65536_bytes(rt: HostRuntime) {
    assert!(rt; reads_long_hours(rt.alloc(), 65_536));
    let longer = with_long_hours(rt.alloc(), 65_537);
    assert!(rt; is_refused(longer, FileKind::Parking, 2, Cause::SizeLimit));
}
