// Worked nets, with the pairs that were found by hand.
use super::fronts::fronts_of;
use super::nets::NetLists;
use crate::tests::expect_right;
use route_base::{Cost, Minute, NodeId, OutOfMemory, Park, Request, Run, TimedArc};
use std::alloc::Global;

// A net, a trip from node 1, and its pairs as arrivals and costs.
#[derive(Clone, Copy)]
struct Worked<'a> {
    name: &'a str,
    nodes: u32,
    // Tail, head, minutes, cost, and the place of the list of closed runs; list 0 is empty.
    arcs: &'a [(u32, u32, Minute, Cost, u32)],
    // The first minute of a run of list 1, and the first minute after it.
    closed: &'a [(Minute, Minute)],
    weights: &'a [Option<Cost>],
    // The first minute of a run in which waiting is shut everywhere, and the first minute after it.
    shut: &'a [(Minute, Minute)],
    goal: u32,
    depart: Minute,
    until: Minute,
    pairs: &'a [(Minute, Cost)],
}

const WAITS: Worked<'static> = Worked {
    name: "a wait until an arc opens, against a longer way",
    nodes: 3,
    arcs: &[(1, 2, 2, 2, 0), (2, 3, 2, 2, 1), (1, 3, 12, 3, 0)],
    closed: &[(1, 8)],
    weights: &[None, Some(1), None],
    shut: &[],
    goal: 3,
    depart: 1,
    until: 20,
    pairs: &[(10, 9), (13, 3)],
};

const WAITS_FOR_HOURS: Worked<'static> = Worked {
    name: "a wait of two hours until an arc opens, against a detour",
    nodes: 3,
    arcs: &[
        (1, 2, 60, 60_000, 0),
        (2, 3, 60, 60_000, 1),
        (1, 3, 300, 300_000, 0),
    ],
    closed: &[(26_563_740, 26_563_860)],
    weights: &[None, Some(2_000), None],
    shut: &[],
    goal: 3,
    depart: 26_563_680,
    until: 26_564_080,
    pairs: &[(26_563_920, 360_000), (26_563_980, 300_000)],
};

const WORKED: &[Worked<'static>] = &[
    WAITS,
    Worked {
        name: "the same where no wait is allowed",
        weights: &[None, None, None],
        pairs: &[(13, 3)],
        ..WAITS
    },
    Worked {
        name: "the same where waiting is shut for a minute of the wait",
        shut: &[(5, 6)],
        pairs: &[(13, 3)],
        ..WAITS
    },
    Worked {
        name: "the same where waiting is shut in the last minute of the wait",
        shut: &[(7, 9)],
        pairs: &[(13, 3)],
        ..WAITS
    },
    Worked {
        name: "the same where waiting is shut before and after the wait",
        shut: &[(1, 3), (8, 20)],
        ..WAITS
    },
    Worked {
        name: "a loop that is driven while waiting is shut",
        arcs: &[(1, 2, 2, 2, 0), (2, 1, 3, 1, 0), (2, 3, 2, 2, 1)],
        closed: &[(1, 12)],
        weights: &[Some(1), Some(1), None],
        shut: &[(6, 8)],
        pairs: &[(14, 11), (15, 10)],
        ..WAITS
    },
    Worked {
        name: "the same with an earlier end",
        until: 12,
        pairs: &[(10, 9)],
        ..WAITS
    },
    Worked {
        name: "the same trip to its origin",
        goal: 1,
        pairs: &[(1, 0)],
        ..WAITS
    },
    Worked {
        name: "no way",
        arcs: &[(2, 1, 1, 1, 0)],
        pairs: &[],
        ..WAITS
    },
    Worked {
        name: "a wait at the origin, against a slow arc",
        nodes: 2,
        arcs: &[(1, 2, 3, 4, 1), (1, 2, 9, 5, 0)],
        closed: &[(2, 6)],
        weights: &[Some(2), None],
        shut: &[],
        goal: 2,
        depart: 2,
        until: 20,
        pairs: &[(9, 12), (11, 5)],
    },
    Worked {
        name: "a closed minute in the middle of a drive",
        nodes: 2,
        arcs: &[(1, 2, 4, 4, 1)],
        closed: &[(5, 6)],
        weights: &[Some(1), None],
        shut: &[],
        goal: 2,
        depart: 3,
        until: 20,
        pairs: &[(10, 7)],
    },
    Worked {
        name: "a gap between runs that is too short",
        nodes: 2,
        arcs: &[(1, 2, 3, 3, 1)],
        closed: &[(2, 4), (6, 8)],
        weights: &[Some(0), None],
        shut: &[],
        goal: 2,
        depart: 2,
        until: 20,
        pairs: &[(11, 3)],
    },
    Worked {
        name: "a later arrival at the same cost",
        nodes: 2,
        arcs: &[(1, 2, 4, 3, 0), (1, 2, 2, 3, 0)],
        closed: &[],
        weights: &[None, None],
        shut: &[],
        goal: 2,
        depart: 0,
        until: 20,
        pairs: &[(2, 3)],
    },
    Worked {
        name: "a loop that is driven until an arc opens",
        nodes: 2,
        arcs: &[(1, 1, 1, 1, 0), (1, 2, 2, 2, 1)],
        closed: &[(1, 4)],
        weights: &[None, None],
        shut: &[],
        goal: 2,
        depart: 1,
        until: 6,
        pairs: &[(6, 5)],
    },
    WAITS_FOR_HOURS,
    Worked {
        name: "the same where waiting is shut in the last minute before the arc opens",
        shut: &[(26_563_859, 26_563_860)],
        pairs: &[(26_563_980, 300_000)],
        ..WAITS_FOR_HOURS
    },
];

fn arcs_of(alloc: Global, worked: &Worked<'_>) -> Result<Vec<TimedArc>, OutOfMemory> {
    let mut arcs = Vec::new(alloc);
    for (tail, head, minutes, cost, closed) in worked.arcs {
        arcs.push(TimedArc {
            tail: NodeId(*tail),
            head: NodeId(*head),
            minutes: *minutes,
            cost: *cost,
            closed: *closed,
        })?;
    }
    Ok(arcs)
}

fn runs_of(alloc: Global, worked: &Worked<'_>) -> Result<Vec<(u32, Run)>, OutOfMemory> {
    let mut runs = Vec::new(alloc);
    for (lo, hi) in worked.closed {
        runs.push((1, Run { lo: *lo, hi: *hi }))?;
    }
    for (lo, hi) in worked.shut {
        runs.push((2, Run { lo: *lo, hi: *hi }))?;
    }
    Ok(runs)
}

fn parks_of(alloc: Global, worked: &Worked<'_>) -> Result<Vec<Option<Park>>, OutOfMemory> {
    let mut parks = Vec::new(alloc);
    for weight in worked.weights {
        parks.push(match *weight {
            Some(weight) => Some(Park { weight, shut: 2 }),
            None => None,
        })?;
    }
    Ok(parks)
}

// Whether both engines find the pairs of the worked net.
fn is_found(alloc: Global, worked: &Worked<'_>) -> bool {
    let Ok(arcs) = arcs_of(alloc, worked) else {
        return false;
    };
    let Ok(closed) = runs_of(alloc, worked) else {
        return false;
    };
    let Ok(parks) = parks_of(alloc, worked) else {
        return false;
    };
    let lists = NetLists {
        nodes: worked.nodes,
        arcs: &arcs,
        lists: 3,
        closed: &closed,
        parks: &parks,
    };
    let request = Request {
        origin: NodeId(1),
        goal: NodeId(worked.goal),
        depart: worked.depart,
        until: worked.until,
    };
    match fronts_of(alloc, lists, request) {
        Some(fronts) => fronts.agree() && fronts.are(worked.pairs),
        None => false,
    }
}

#[test]
fn find_the_pairs_of_worked_nets(rt: HostRuntime) {
    for worked in WORKED {
        expect_right(&rt, is_found(rt.alloc(), worked), worked.name);
    }
}
