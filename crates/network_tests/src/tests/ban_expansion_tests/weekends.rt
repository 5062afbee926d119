// A road that is closed from Saturday to Sunday, by each call that makes its closed minutes.
use crate::tests::network_tables_tests::read;
use ban_expansion::{closed_set, expand, expand_groups, expand_plain, group_arcs};
use network_tables::Network;
use route_base::{ArcId, FileKind, NoGate, OutOfMemory, Run, TimedNet};
use std::alloc::Global;
use std::thread::Threads;

// The days from 2020-07-04T00:00Z to 2020-07-06T00:00Z.
const WEEKEND: Run = Run {
    lo: 26_563_680,
    hi: 26_566_560,
};

// Two hours ahead of UTC, from Saturday at 22:00 to Sunday at 22:00.
const BANNED: Run = Run {
    lo: 26_564_880,
    hi: 26_566_320,
};

// The network of the road.
const ROAD: &[(FileKind, &str)] = &[
    (FileKind::Graph, "p sp 2 1\na 1 2 60\n"),
    (
        FileKind::Zones,
        "zone,from,offset\nberlin,2020-03-29T01:00Z,+02:00\n",
    ),
    (FileKind::Areas, "area,zone\nde,berlin\n"),
    (
        FileKind::Rules,
        "scope,key,value\narea:de,hgv:conditional,no @ (Sa 22:00-Su 22:00)\n",
    ),
];

// Whether the road of a net is closed at these minutes.
fn is_banned(net: &TimedNet) -> bool {
    match net.arc(ArcId(1)) {
        Some(_road) => net.closed_runs(ArcId(1)) == [BANNED].as_slice(),
        None => false,
    }
}

// Whether the closed minutes of the road are these.
fn is_closed(alloc: Global, network: &Network) -> bool {
    if network.graph().arc_count() == 0 || network.vehicles().len() == 0 {
        return false;
    }
    let any = network.vehicles().vehicle(0);
    match closed_set(alloc, network, any, ArcId(1), WEEKEND) {
        Ok(closed) => closed.runs() == [BANNED].as_slice(),
        Err(_) => false,
    }
}

// Whether the road is closed in the net.
fn is_closed_in(net: Result<TimedNet, OutOfMemory>) -> bool {
    match net {
        Ok(net) => is_banned(&net),
        Err(_) => false,
    }
}

// Whether the road is closed in the nets that one worker makes and that several make.
fn is_closed_in_both<R: Threads + Sync>(rt: &R, alloc: Global, network: &Network) -> bool {
    if network.vehicles().len() == 0 {
        return false;
    }
    let any = network.vehicles().vehicle(0);
    is_closed_in(expand_plain(alloc, network, any, WEEKEND))
        && is_closed_in(expand(rt, alloc, network, any, WEEKEND, &NoGate))
}

// Whether it is in the net over groups that were found before.
fn is_closed_by_groups(alloc: Global, network: &Network) -> bool {
    if network.vehicles().len() == 0 {
        return false;
    }
    let any = network.vehicles().vehicle(0);
    match group_arcs(alloc, network) {
        Ok(groups) => is_closed_in(expand_groups(alloc, network, &groups, any, WEEKEND)),
        Err(_) => false,
    }
}

// Whether it is closed by each call.
fn is_closed_always<R: Threads + Sync>(rt: &R, alloc: Global) -> bool {
    match read(alloc, ROAD) {
        Ok(network) => {
            is_closed(alloc, &network)
                && is_closed_in_both(rt, alloc, &network)
                && is_closed_by_groups(alloc, &network)
        }
        Err(_) => false,
    }
}

#[test]
fn closes_the_road_by_each_call(rt: HostRuntime) {
    assert!(rt; is_closed_always(&rt, rt.alloc()));
}
