// When arcs are closed, where one may wait, and what arcs cost: closures, ratings, parking and tolls.
use crate::tests::network_tables_tests::read;
use network_tables::Network;
use route_base::{ArcId, FileKind, NodeId, Run};
use std::alloc::Global;

// Whether one may wait at the second node and not at the first one.
fn parks_at_the_second_node(network: &Network) -> bool {
    network.graph().node_count() == 3
        && network.weight(NodeId(1)).is_none()
        && network.weight(NodeId(2)) == Some(2000)
}

// Whether the second arc is closed in its two runs, and the first one never.
fn closes_the_second_arc(network: &Network) -> bool {
    let first = Run {
        lo: 26_563_680,
        hi: 26_563_860,
    };
    let second = Run {
        lo: 26_563_600,
        hi: 26_563_700,
    };
    network.graph().arc_count() == 3
        && network.closure_count(ArcId(1)) == 0
        && network.closure_count(ArcId(2)) == 2
        && network.closure(ArcId(2), 0) == first
        && network.closure(ArcId(2), 1) == second
}

const TEXTS: &[(FileKind, &str)] = &[
    (
        FileKind::Closures,
        "\u{FEFF}arc,from,to\r\n\"2\",2020-07-04T00:00Z,26563860\r\n\r\n02,26563600,26563700",
    ),
    (FileKind::Ratings, "rating,weight\nr,2.000\n"),
    (FileKind::Parking, "node,rating\n2,r\n"),
];

// Whether a network with these texts is read so.
fn reads_texts(alloc: Global) -> bool {
    match read(alloc, TEXTS) {
        Ok(network) => parks_at_the_second_node(&network) && closes_the_second_arc(&network),
        Err(_) => false,
    }
}

#[test]
fn reads_closures_ratings_and_parking(rt: HostRuntime) {
    assert!(rt; reads_texts(rt.alloc()));
}

// Whether the first and the third arc have these tolls, and the second one none.
fn has_two_tolls(network: &Network) -> bool {
    network.toll(ArcId(1)) == 100_000
        && network.toll(ArcId(2)) == 0
        && network.toll(ArcId(3)) == 59_999
}

const TOLLS: &[(FileKind, &str)] = &[(
    FileKind::Tolls,
    "\u{FEFF}arc,toll\r\n3,59.999\r\n0000000001,100\r\n",
)];

// Whether a network with these tolls is read so.
fn reads_two_tolls(alloc: Global) -> bool {
    match read(alloc, TOLLS) {
        Ok(network) => has_two_tolls(&network),
        Err(_) => false,
    }
}

#[test]
fn reads_tolls(rt: HostRuntime) {
    assert!(rt; reads_two_tolls(rt.alloc()));
}
