// Worked trips with driver breaks, with the pairs and legs that were found by hand.
use super::calls::breaks_over;
use super::worked_arcs::{DEPART, FIRST, SECOND};
use crate::tests::engines::nets::NetLists;
use crate::tests::expect_right;
use drive_breaks::BreakRule;
use route_base::{ArcId, Cost, Leg, Minute, NodeId, Pair, Park, Request, Route, Run, TimedArc};
use std::alloc::Global;

// A trip under a rule, with its arrivals and costs and their legs.
#[derive(Clone, Copy)]
struct Rested<'a> {
    name: &'a str,
    closed: &'a [(u32, Run)],
    drive: u64,
    origin: u32,
    goal: u32,
    wants: &'a [(Minute, Cost, &'a [Leg])],
}

// Three hours to node 2, and three more to node 3, closed in list 1; waiting at node 2 is shut in list 2.
const LONG: &[TimedArc] = &[
    TimedArc {
        minutes: 180,
        cost: 180_000,
        ..FIRST
    },
    TimedArc {
        minutes: 180,
        cost: 180_000,
        closed: 1,
        ..SECOND
    },
];

const LONG_PARKS: &[Option<Park>] = &[
    None,
    Some(Park {
        weight: 1000,
        shut: 2,
    }),
    None,
];

const BREAK: (Minute, Cost, &[Leg]) = (
    26_564_085,
    405_000,
    &[Leg::Drive(ArcId(1)), Leg::Wait(45), Leg::Drive(ArcId(2))],
);

// The second arc opens five minutes after the break.
const OPENS_LATER: (u32, Run) = (
    1,
    Run {
        lo: 26_563_870,
        hi: 26_563_910,
    },
);

const BREAK_AND_WAIT: (Minute, Cost, &[Leg]) = (
    26_564_090,
    410_000,
    &[Leg::Drive(ArcId(1)), Leg::Wait(50), Leg::Drive(ArcId(2))],
);

const RESTED: &[Rested<'static>] = &[
    Rested {
        name: "takes a break",
        closed: &[],
        drive: 270,
        origin: 1,
        goal: 3,
        wants: &[BREAK],
    },
    Rested {
        name: "needs no break",
        closed: &[],
        drive: 360,
        origin: 1,
        goal: 3,
        wants: &[(
            26_564_040,
            360_000,
            &[Leg::Drive(ArcId(1)), Leg::Drive(ArcId(2))],
        )],
    },
    Rested {
        name: "has an arc that is too long",
        closed: &[],
        drive: 179,
        origin: 1,
        goal: 3,
        wants: &[],
    },
    Rested {
        name: "stays",
        closed: &[],
        drive: 179,
        origin: 2,
        goal: 2,
        wants: &[(26_563_680, 0, &[])],
    },
    Rested {
        name: "the minutes before the break are shut",
        closed: &[(
            2,
            Run {
                lo: 26_563_800,
                hi: 26_563_860,
            },
        )],
        drive: 270,
        origin: 1,
        goal: 3,
        wants: &[BREAK],
    },
    Rested {
        name: "the first minute of the break is shut",
        closed: &[(
            2,
            Run {
                lo: 26_563_860,
                hi: 26_563_861,
            },
        )],
        drive: 270,
        origin: 1,
        goal: 3,
        wants: &[],
    },
    Rested {
        name: "the last minute of the break is shut",
        closed: &[(
            2,
            Run {
                lo: 26_563_904,
                hi: 26_563_905,
            },
        )],
        drive: 270,
        origin: 1,
        goal: 3,
        wants: &[],
    },
    Rested {
        name: "the minutes behind the break are shut",
        closed: &[(
            2,
            Run {
                lo: 26_563_905,
                hi: 26_564_000,
            },
        )],
        drive: 270,
        origin: 1,
        goal: 3,
        wants: &[BREAK],
    },
    Rested {
        name: "waits after the break",
        closed: &[
            OPENS_LATER,
            (
                2,
                Run {
                    lo: 26_563_800,
                    hi: 26_563_860,
                },
            ),
        ],
        drive: 270,
        origin: 1,
        goal: 3,
        wants: &[BREAK_AND_WAIT],
    },
    Rested {
        name: "the first minute of break and wait is shut",
        closed: &[
            OPENS_LATER,
            (
                2,
                Run {
                    lo: 26_563_860,
                    hi: 26_563_861,
                },
            ),
        ],
        drive: 270,
        origin: 1,
        goal: 3,
        wants: &[],
    },
    Rested {
        name: "a minute of break and wait is shut",
        closed: &[
            OPENS_LATER,
            (
                2,
                Run {
                    lo: 26_563_905,
                    hi: 26_563_906,
                },
            ),
        ],
        drive: 270,
        origin: 1,
        goal: 3,
        wants: &[],
    },
    Rested {
        name: "the last minute of break and wait is shut",
        closed: &[
            OPENS_LATER,
            (
                2,
                Run {
                    lo: 26_563_909,
                    hi: 26_563_910,
                },
            ),
        ],
        drive: 270,
        origin: 1,
        goal: 3,
        wants: &[],
    },
    Rested {
        name: "the minutes behind break and wait are shut",
        closed: &[
            OPENS_LATER,
            (
                2,
                Run {
                    lo: 26_563_910,
                    hi: 26_564_000,
                },
            ),
        ],
        drive: 270,
        origin: 1,
        goal: 3,
        wants: &[BREAK_AND_WAIT],
    },
];

fn are_rested(routes: &[Route], wants: &[(Minute, Cost, &[Leg])]) -> bool {
    if routes.len() != wants.len() {
        return false;
    }
    for k in 0..wants.len() {
        let (arrival, cost, legs) = wants[k];
        let route = &routes[k];
        if route.pair != (Pair { arrival, cost }) || route.legs.as_slice() != legs {
            return false;
        }
    }
    true
}

fn is_rested(alloc: Global, row: &Rested<'_>) -> bool {
    let lists = NetLists {
        nodes: 3,
        arcs: LONG,
        lists: 3,
        closed: row.closed,
        parks: LONG_PARKS,
    };
    let request = Request {
        origin: NodeId(row.origin),
        goal: NodeId(row.goal),
        depart: DEPART,
        until: 26_564_180,
    };
    let rule = BreakRule {
        drive: row.drive,
        rest: 45,
    };
    match breaks_over(alloc, lists, request, rule, true) {
        Some(routes) => are_rested(routes.as_slice(), row.wants),
        None => false,
    }
}

#[test]
fn take_breaks_where_waiting_is_open(rt: HostRuntime) {
    for row in RESTED {
        expect_right(&rt, is_rested(rt.alloc(), row), row.name);
    }
}
