// When arcs of a small network are closed to two vehicles.
ghost use Rattle.std.specs.Prelude.{◌≡◌, ◌≤◌, ◌<◌, true, length};

use crate::tests::network_tables_tests::read;
use ban_expansion::{closed_at, closed_set, expand_plain, group_arcs};
use network_tables::Network;
use route_base::limits::{FIRST_INSTANT, LAST_INSTANT};
use route_base::{ArcId, FileKind, Minute, Run, TimedNet};
use std::alloc::Global;

const RULES: &str =
    "scope,key,value\narea:port,hgv,no\narea:port,hgv:conditional,delivery @ (06:00-10:00)\n\
    arc:2,motor_vehicle,yes\narc:3,hgv,yes\n";

const VEHICLES: &str =
    "name,class,weight_kg,axleload_kg,height_cm,width_cm,length_cm,axles,purpose,flags\nvan,hgv,,,,,,,delivery,\n";

// The day from 2020-07-04T00:00Z on.
const DAY: Run = Run {
    lo: 26_563_680,
    hi: 26_565_120,
};

// The minutes of that day before 06:00 and from 10:00 on, an hour ahead of UTC.
const WITHOUT_DELIVERY: [Run; 2] = [
    Run {
        lo: 26_563_680,
        hi: 26_563_980,
    },
    Run {
        lo: 26_564_220,
        hi: 26_565_120,
    },
];

const ZONES: &str = "zone,from,offset\nHere,525600,+01:00\n";

const AREAS: &str = "area,zone\nport,Here\ntown,Here\n";

// Four arcs in one area. The third has a closure that ends after the day.
const PORT: &[(FileKind, &str)] = &[
    (
        FileKind::Graph,
        "p sp 3 4\na 1 2 60\na 2 3 60\na 1 3 300\na 3 1 300\n",
    ),
    (FileKind::Zones, ZONES),
    (FileKind::Areas, AREAS),
    (FileKind::Vehicles, VEHICLES),
    (FileKind::Rules, RULES),
    (FileKind::Closures, "arc,from,to\n3,26565100,26565200\n"),
];

// Whether the network has a vehicle of this place and an arc of this number.
fn has(network: &Network, place: usize, arc: u32) -> bool
    ensures vehicle { result ≡ true → place < length network.now.vehicles }
    ensures low { result ≡ true → 1 ≤ arc }
    ensures high { result ≡ true → arc ≤ length network.now.graph.arcs }
{
    place < network.vehicles().len() && 1 <= arc && arc <= network.graph().arc_count()
}

// Whether these are the minutes of the day at which an arc is closed to a vehicle; no where either is missing.
fn are_closed(alloc: Global, network: &Network, place: usize, arc: u32, runs: &[Run]) -> bool {
    if !has(network, place, arc) {
        return false;
    }
    let vehicle = network.vehicles().vehicle(place);
    match closed_set(alloc, network, vehicle, ArcId(arc), DAY) {
        Ok(closed) => closed.runs() == runs,
        Err(_) => false,
    }
}

// Vehicles, arcs, and the minutes of the day at which they are closed. A value for a more general key stands before those of the area
// for `hgv`.
const CLOSED: &[(usize, u32, &[Run])] = &[
    (0, 1, &[DAY]),
    (1, 1, &WITHOUT_DELIVERY),
    (1, 2, &WITHOUT_DELIVERY),
    (
        0,
        3,
        &[Run {
            lo: 26_565_100,
            hi: 26_565_120,
        }],
    ),
];

// Whether the network has four arcs and two vehicles, and all of these are the minutes at which its arcs are closed.
fn has_closed(alloc: Global, network: &Network, cases: &[(usize, u32, &[Run])]) -> bool {
    let mut has = network.graph().arc_count() == 4 && network.vehicles().len() == 2;
    for (place, arc, runs) in cases {
        has = has && are_closed(alloc, network, *place, *arc, runs);
    }
    has
}

// Whether this is so in the port.
fn closes_port(alloc: Global) -> bool {
    match read(alloc, PORT) {
        Ok(network) => has_closed(alloc, &network, CLOSED),
        Err(_) => false,
    }
}

#[test]
fn closes_arcs_by_the_last_value_that_is_given(rt: HostRuntime) {
    assert!(rt; closes_port(rt.alloc()));
}

// Whether an arc is closed to a vehicle at an instant; none where one of the three is missing.
fn is_closed(network: &Network, place: usize, arc: u32, minute: Minute) -> Option<bool> {
    if !has(network, place, arc) || minute < FIRST_INSTANT || minute > LAST_INSTANT {
        return None;
    }
    let vehicle = network.vehicles().vehicle(place);
    Some(closed_at(network, vehicle, ArcId(arc), minute))
}

// Vehicles, arcs and instants, and whether the arc is closed.
const INSTANTS: &[(usize, u32, Minute, bool)] = &[
    (1, 1, 26_563_979, true),
    (1, 1, 26_563_980, false),
    (0, 1, 26_563_980, true),
    (0, 3, 26_565_199, true),
    (0, 3, 26_565_200, false),
];

// Whether arcs of the network are closed and open at these instants.
fn has_instants(network: &Network, cases: &[(usize, u32, Minute, bool)]) -> bool {
    let mut has = true;
    for (place, arc, minute, closed) in cases {
        has = has && is_closed(network, *place, *arc, *minute) == Some(*closed);
    }
    has
}

// Whether this is so in the port.
fn closes_port_at_instants(alloc: Global) -> bool {
    match read(alloc, PORT) {
        Ok(network) => has_instants(&network, INSTANTS),
        Err(_) => false,
    }
}

#[test]
fn closes_arcs_at_the_same_instants(rt: HostRuntime) {
    assert!(rt; closes_port_at_instants(rt.alloc()));
}

// The place of the closed minutes of an arc.
fn place_of(net: &TimedNet, arc: u32) -> Option<u32> {
    Some(net.arc(ArcId(arc))?.closed)
}

// Whether the first and the last of four arcs share their closed minutes, which the second one doesn't.
fn has_shared_sets(net: &TimedNet) -> bool {
    let second = place_of(net, 2);
    let Some(last) = net.arc(ArcId(4)) else {
        return false;
    };
    second.is_some()
        && place_of(net, 1) != second
        && place_of(net, 1) == Some(last.closed)
        && last.cost == 300_000
        && net.closed_runs(ArcId(4)) == WITHOUT_DELIVERY.as_slice()
}

// Whether this is so after the expansion for the second of two vehicles.
fn shares_sets(alloc: Global, network: &Network) -> bool {
    if network.vehicles().len() != 2 {
        return false;
    }
    match expand_plain(alloc, network, network.vehicles().vehicle(1), DAY) {
        Ok(net) => has_shared_sets(&net),
        Err(_) => false,
    }
}

// Whether this is so in the port.
fn shares_sets_of_port(alloc: Global) -> bool {
    match read(alloc, PORT) {
        Ok(network) => shares_sets(alloc, &network),
        Err(_) => false,
    }
}

#[test]
fn shares_sets_within_an_area(rt: HostRuntime) {
    assert!(rt; shares_sets_of_port(rt.alloc()));
}

// Seven arcs with a conditional value of their own: the fourth has another value, the fifth is in another area, and the last two
// have a closure.
const OWN: &[(FileKind, &str)] = &[
    (
        FileKind::Graph,
        "p sp 2 7\na 1 2 60\na 1 2 60\na 1 2 60\na 1 2 60\na 1 2 60\na 1 2 60\na 1 2 60\n",
    ),
    (FileKind::Zones, ZONES),
    (FileKind::Areas, AREAS),
    (FileKind::Roads, "arc,area\n5,town\n"),
    (FileKind::Vehicles, VEHICLES),
    (
        FileKind::Rules,
        "scope,key,value\n\
        arc:1,hgv:conditional,no @ (22:00-06:00)\n\
        arc:2,hgv:conditional,no @ (22:00-06:00)\n\
        arc:3,hgv:conditional,no@22:00-06:00\n\
        arc:4,hgv:conditional,no @ (22:00-07:00)\n\
        arc:5,hgv:conditional,no @ (22:00-06:00)\n\
        arc:6,hgv:conditional,no @ (22:00-06:00)\n\
        arc:7,hgv:conditional,no @ (22:00-06:00)\n",
    ),
    (
        FileKind::Closures,
        "arc,from,to\n6,26565100,26565200\n7,26565100,26565200\n",
    ),
];

// Networks, the group of each arc, and the first arc of each group.
const GROUPED: &[(&[(FileKind, &str)], &[u32], &[ArcId])] = &[
    (PORT, &[0, 1, 2, 0], &[ArcId(1), ArcId(2), ArcId(3)]),
    (
        OWN,
        &[0, 0, 0, 1, 2, 3, 3],
        &[ArcId(1), ArcId(4), ArcId(5), ArcId(6)],
    ),
];

// Whether arcs of the network of these texts are grouped so.
fn groups_arcs(
    alloc: Global,
    texts: &[(FileKind, &str)],
    groups: &[u32],
    firsts: &[ArcId],
) -> bool {
    match read(alloc, texts) {
        Ok(network) => are_grouped(alloc, &network, groups, firsts),
        Err(_) => false,
    }
}

fn are_grouped(alloc: Global, network: &Network, groups: &[u32], firsts: &[ArcId]) -> bool {
    match group_arcs(alloc, network) {
        Ok(grouped) => grouped.groups() == groups && grouped.firsts() == firsts,
        Err(_) => false,
    }
}

#[test]
fn groups_arcs_that_have_the_same_of_their_own(rt: HostRuntime) {
    for (texts, groups, firsts) in GROUPED {
        assert!(rt;
            groups_arcs(rt.alloc(), texts, groups, firsts),
            "{groups:?}"
        );
    }
}
