// Zones, areas and roads: the local time of arcs.
use crate::tests::network_tables_tests::read;
use network_tables::Network;
use route_base::limits::{FIRST_INSTANT, LAST_INSTANT};
use route_base::{ArcId, FileKind, Minute};
use std::process::Abort;

// The place of the arc's area, and the minutes that local time is ahead there; none where there is no such arc or instant.
fn local_time(network: &Network, a: u32, minute: Minute) -> Option<(usize, i64)> {
    if a == 0 || a > network.graph().arc_count() {
        return None;
    }
    if minute < FIRST_INSTANT || minute > LAST_INSTANT {
        return None;
    }
    let area = network.area_of(ArcId(a));
    Some((area, network.zone_of(area).offset(minute)))
}

// An arc and a minute, and its local time.
type Local = (u32, Minute, usize, i64);

// Tables, and the local time of some arcs.
const NETWORKS: &[(&[(FileKind, &str)], &[Local])] = &[
    (
        &[
            (
                FileKind::Zones,
                "zone,from,offset\nHere,525600,+01:00\nThere,525600,-03:30\nHere,26563680,+02:00\n",
            ),
            (
                FileKind::Areas,
                "area,zone\nport,UTC\ntown,Here\nquay,There\n",
            ),
            (FileKind::Roads, "arc,area\n2,town\n3,quay\n"),
        ],
        &[
            (1, 26_563_680, 0, 0),
            (2, 26_563_679, 1, 60),
            (2, 26_563_680, 1, 120),
            (3, 26_563_680, 2, -210),
        ],
    ),
    // The default area, in UTC.
    (
        &[(FileKind::Roads, "arc,area\n3,default\n")],
        &[(1, 26_563_680, 0, 0), (3, 26_563_680, 0, 0)],
    ),
    (
        &[
            (FileKind::Zones, "zone,from,offset\nUTC,525600,+00:01\n"),
            (FileKind::Roads, "arc,area\n3,default\n"),
        ],
        &[(1, 26_563_680, 0, 1), (3, 26_563_680, 0, 1)],
    ),
];

// Compares the local time of these arcs.
fn expect_local<R: Abort>(rt: &R, network: &Network, rows: &[Local]) {
    for (a, minute, area, ahead) in rows {
        let local = local_time(network, *a, *minute);
        assert!(rt; local == Some((*area, *ahead)), "{ahead} at {a}");
    }
}

#[test]
fn reads_zones_areas_and_roads(rt: HostRuntime) {
    for (texts, rows) in NETWORKS {
        let network = read(rt.alloc(), texts).expect(&rt, "a network");
        expect_local(&rt, &network, rows);
    }
}
