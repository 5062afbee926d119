// Worked latest departures, with the legs that were found by hand, and their text.
use super::calls::latest_over;
use super::worked_arcs::{DEPART, FIRST, SECOND, STRAIGHT};
use crate::tests::engines::nets::NetLists;
use crate::tests::expect_right;
use latest_departure::{LateRoute, LateRoutes, late_text};
use route_base::{ArcId, Cost, Leg, Minute, NodeId, Park, Request, Run, TimedArc};
use std::alloc::Global;

// A trip to a goal, and its departures and costs with their legs.
#[derive(Clone, Copy)]
struct Late<'a> {
    name: &'a str,
    lists: NetLists<'a>,
    goal: u32,
    wants: &'a [(Minute, Cost, &'a [Leg])],
}

// The second arc is closed in list 1, for two hours; waiting at node 2 is shut in list 3.
const NIGHT: NetLists<'static> = NetLists {
    nodes: 3,
    arcs: &[
        FIRST,
        TimedArc {
            closed: 1,
            ..SECOND
        },
        STRAIGHT,
    ],
    lists: 4,
    closed: &[(1, TWO_HOURS)],
    parks: &[
        None,
        Some(Park {
            weight: 2000,
            shut: 3,
        }),
        None,
    ],
};

const TWO_HOURS: Run = Run {
    lo: 26_563_740,
    hi: 26_563_860,
};

// The first arc is closed in list 2, so that whoever takes it has to wait.
const MORNING: NetLists<'static> = NetLists {
    arcs: &[
        TimedArc { closed: 2, ..FIRST },
        TimedArc {
            closed: 1,
            ..SECOND
        },
        STRAIGHT,
    ],
    closed: &[(1, TWO_HOURS), (2, LATER)],
    parks: &[
        None,
        Some(Park {
            weight: 500,
            shut: 3,
        }),
        None,
    ],
    ..NIGHT
};

const LATER: Run = Run {
    lo: 26_563_740,
    hi: 26_564_080,
};

const ROUND: (Minute, Cost, &[Leg]) = (26_563_780, 300_000, &[Leg::Drive(ArcId(3))]);

const WAITING: (Minute, Cost, &[Leg]) = (
    26_563_680,
    180_000,
    &[Leg::Drive(ArcId(1)), Leg::Wait(120), Leg::Drive(ArcId(2))],
);

const LATE: &[Late<'static>] = &[
    Late {
        name: "leaves when the second arc is open again",
        lists: NIGHT,
        goal: 3,
        wants: &[(
            26_563_960,
            120_000,
            &[Leg::Drive(ArcId(1)), Leg::Drive(ArcId(2))],
        )],
    },
    Late {
        name: "leaves late, or early and cheaper",
        lists: MORNING,
        goal: 3,
        wants: &[ROUND, WAITING],
    },
    Late {
        name: "stays until the deadline",
        lists: NIGHT,
        goal: 1,
        wants: &[(26_564_080, 0, &[])],
    },
    Late {
        name: "the minute before the wait is shut",
        lists: NetLists {
            closed: &[
                (1, TWO_HOURS),
                (2, LATER),
                (
                    3,
                    Run {
                        lo: 26_563_739,
                        hi: 26_563_740,
                    },
                ),
            ],
            ..MORNING
        },
        goal: 3,
        wants: &[ROUND, WAITING],
    },
    Late {
        name: "the first minute of the wait is shut",
        lists: NetLists {
            closed: &[
                (1, TWO_HOURS),
                (2, LATER),
                (
                    3,
                    Run {
                        lo: 26_563_740,
                        hi: 26_563_741,
                    },
                ),
            ],
            ..MORNING
        },
        goal: 3,
        wants: &[ROUND],
    },
    Late {
        name: "a minute of the wait is shut",
        lists: NetLists {
            closed: &[
                (1, TWO_HOURS),
                (2, LATER),
                (
                    3,
                    Run {
                        lo: 26_563_800,
                        hi: 26_563_801,
                    },
                ),
            ],
            ..MORNING
        },
        goal: 3,
        wants: &[ROUND],
    },
    Late {
        name: "the last minute of the wait is shut",
        lists: NetLists {
            closed: &[
                (1, TWO_HOURS),
                (2, LATER),
                (
                    3,
                    Run {
                        lo: 26_563_859,
                        hi: 26_563_860,
                    },
                ),
            ],
            ..MORNING
        },
        goal: 3,
        wants: &[ROUND],
    },
    Late {
        name: "the minute behind the wait is shut",
        lists: NetLists {
            closed: &[
                (1, TWO_HOURS),
                (2, LATER),
                (
                    3,
                    Run {
                        lo: 26_563_860,
                        hi: 26_563_861,
                    },
                ),
            ],
            ..MORNING
        },
        goal: 3,
        wants: &[ROUND, WAITING],
    },
];

fn are_late(routes: &[LateRoute], wants: &[(Minute, Cost, &[Leg])]) -> bool {
    if routes.len() != wants.len() {
        return false;
    }
    for k in 0..wants.len() {
        let (departure, cost, legs) = wants[k];
        let route = &routes[k];
        if route.departure != departure || route.cost != cost || route.legs.as_slice() != legs {
            return false;
        }
    }
    true
}

// The latest departures from node 1 to a goal.
fn late_trip(alloc: Global, lists: NetLists<'_>, goal: u32) -> Option<LateRoutes> {
    let request = Request {
        origin: NodeId(1),
        goal: NodeId(goal),
        depart: DEPART,
        until: 26_564_080,
    };
    latest_over(alloc, lists, request)
}

fn is_late(alloc: Global, row: &Late<'_>) -> bool {
    match late_trip(alloc, row.lists, row.goal) {
        Some(routes) => are_late(routes.as_slice(), row.wants),
        None => false,
    }
}

#[test]
fn leave_as_late_as_they_can(rt: HostRuntime) {
    for row in LATE {
        expect_right(&rt, is_late(rt.alloc(), row), row.name);
    }
}

// Nets, goals, and the texts of the latest departures.
const TEXTS: &[(NetLists<'static>, u32, &str)] = &[
    (
        NIGHT,
        3,
        "pairs 1\nleave 26563960 120.000\ndrive 1\ndrive 2\n",
    ),
    (
        MORNING,
        3,
        "pairs 2\nleave 26563780 300.000\ndrive 3\n\
        leave 26563680 180.000\ndrive 1\nwait 120\ndrive 2\n",
    ),
    (NIGHT, 1, "pairs 1\nleave 26564080 0.000\n"),
];

fn has_late_text(alloc: Global, lists: NetLists<'_>, goal: u32, text: &str) -> bool {
    match late_trip(alloc, lists, goal) {
        Some(routes) => is_late_text(alloc, &routes, text),
        None => false,
    }
}

fn is_late_text(alloc: Global, routes: &LateRoutes, text: &str) -> bool {
    match late_text(alloc, routes) {
        Ok(written) => written.as_slice() == text.as_bytes(),
        Err(_) => false,
    }
}

#[test]
fn write_the_latest_departures(rt: HostRuntime) {
    for (lists, goal, text) in TEXTS {
        expect_right(&rt, has_late_text(rt.alloc(), *lists, *goal, text), text);
    }
}
