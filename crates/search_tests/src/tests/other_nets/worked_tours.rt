// Worked tours with stops, with the pairs and legs that were found by hand, and their text.
use super::calls::tour_over;
use super::worked_arcs::{DEPART, FIRST, SECOND, STRAIGHT};
use crate::tests::engines::nets::NetLists;
use crate::tests::expect_right;
use route_base::{ArcId, Cost, Minute, NodeId, Pair, Park, Request, Run};
use std::alloc::Global;
use stop_tour::{Stop, TourLeg, TourRoute, TourRoutes, tour_text};

// A trip that serves stops, with its arrivals and costs and their legs.
#[derive(Clone, Copy)]
struct Tour<'a> {
    name: &'a str,
    lists: NetLists<'a>,
    stops: &'a [Stop],
    wants: &'a [(Minute, Cost, &'a [TourLeg])],
}

// No arc is closed; waiting is allowed nowhere.
const DAY: NetLists<'static> = NetLists {
    nodes: 3,
    arcs: &[FIRST, SECOND, STRAIGHT],
    lists: 2,
    closed: &[],
    parks: &[None, None, None],
};

// Waiting at node 2 is shut in list 1.
const PARKED: NetLists<'static> = NetLists {
    parks: &[
        None,
        Some(Park {
            weight: 2000,
            shut: 1,
        }),
        None,
    ],
    ..DAY
};

const STOP: Stop = Stop {
    node: NodeId(2),
    service: 30,
    from: 26_563_740,
    to: 26_563_880,
};

const LATER_STOP: Stop = Stop {
    from: 26_563_741,
    ..STOP
};

// Two stops at one node, with five minutes between them.
const TWO_STOPS: &[Stop] = &[
    STOP,
    Stop {
        from: 26_563_775,
        ..STOP
    },
];

const SERVED_LATER: (Minute, Cost, &[TourLeg]) = (
    26_563_831,
    122_000,
    &[
        TourLeg::Drive(ArcId(1)),
        TourLeg::Wait(1),
        TourLeg::Serve(1),
        TourLeg::Drive(ArcId(2)),
    ],
);

const WAITS_FIRST: (Minute, Cost, &[TourLeg]) = (
    26_563_865,
    130_000,
    &[
        TourLeg::Drive(ArcId(1)),
        TourLeg::Wait(5),
        TourLeg::Serve(1),
        TourLeg::Serve(2),
        TourLeg::Drive(ArcId(2)),
    ],
);

const WAITS_BETWEEN: (Minute, Cost, &[TourLeg]) = (
    26_563_865,
    130_000,
    &[
        TourLeg::Drive(ArcId(1)),
        TourLeg::Serve(1),
        TourLeg::Wait(5),
        TourLeg::Serve(2),
        TourLeg::Drive(ArcId(2)),
    ],
);

const TOURS: &[Tour<'static>] = &[
    Tour {
        name: "serves a stop",
        lists: DAY,
        stops: &[STOP],
        wants: &[(
            26_563_830,
            120_000,
            &[
                TourLeg::Drive(ArcId(1)),
                TourLeg::Serve(1),
                TourLeg::Drive(ArcId(2)),
            ],
        )],
    },
    Tour {
        name: "has no stop",
        lists: DAY,
        stops: &[],
        wants: &[(
            26_563_800,
            120_000,
            &[TourLeg::Drive(ArcId(1)), TourLeg::Drive(ArcId(2))],
        )],
    },
    Tour {
        name: "is there before the window, where no one waits",
        lists: DAY,
        stops: &[LATER_STOP],
        wants: &[],
    },
    Tour {
        name: "waits for the window",
        lists: PARKED,
        stops: &[LATER_STOP],
        wants: &[SERVED_LATER],
    },
    Tour {
        name: "the minutes before the wait are shut",
        lists: NetLists {
            closed: &[(
                1,
                Run {
                    lo: 26_563_700,
                    hi: 26_563_740,
                },
            )],
            ..PARKED
        },
        stops: &[LATER_STOP],
        wants: &[SERVED_LATER],
    },
    Tour {
        name: "the minute of the wait is shut",
        lists: NetLists {
            closed: &[(
                1,
                Run {
                    lo: 26_563_740,
                    hi: 26_563_741,
                },
            )],
            ..PARKED
        },
        stops: &[LATER_STOP],
        wants: &[],
    },
    Tour {
        name: "the minutes behind the wait are shut",
        lists: NetLists {
            closed: &[(
                1,
                Run {
                    lo: 26_563_741,
                    hi: 26_564_080,
                },
            )],
            ..PARKED
        },
        stops: &[LATER_STOP],
        wants: &[SERVED_LATER],
    },
    Tour {
        name: "waiting is shut before the first stop",
        lists: NetLists {
            closed: &[(
                1,
                Run {
                    lo: 26_563_740,
                    hi: 26_563_770,
                },
            )],
            ..PARKED
        },
        stops: TWO_STOPS,
        wants: &[WAITS_BETWEEN],
    },
    Tour {
        name: "waiting is shut before the first stop and for a minute behind it",
        lists: NetLists {
            closed: &[(
                1,
                Run {
                    lo: 26_563_740,
                    hi: 26_563_771,
                },
            )],
            ..PARKED
        },
        stops: TWO_STOPS,
        wants: &[],
    },
    Tour {
        name: "waiting is shut but for a minute",
        lists: NetLists {
            closed: &[(
                1,
                Run {
                    lo: 26_563_741,
                    hi: 26_563_775,
                },
            )],
            ..PARKED
        },
        stops: TWO_STOPS,
        wants: &[],
    },
    Tour {
        name: "waiting is shut between the stops",
        lists: NetLists {
            closed: &[(
                1,
                Run {
                    lo: 26_563_770,
                    hi: 26_563_775,
                },
            )],
            ..PARKED
        },
        stops: TWO_STOPS,
        wants: &[WAITS_FIRST],
    },
];

fn are_tours(routes: &[TourRoute], wants: &[(Minute, Cost, &[TourLeg])]) -> bool {
    if routes.len() != wants.len() {
        return false;
    }
    for k in 0..wants.len() {
        let (arrival, cost, legs) = wants[k];
        let route = &routes[k];
        if route.pair != (Pair { arrival, cost }) || route.legs.as_slice() != legs {
            return false;
        }
    }
    true
}

// The tours of the stops from node 1 to node 3.
fn toured(alloc: Global, lists: NetLists<'_>, stops: &[Stop]) -> Option<TourRoutes> {
    let request = Request {
        origin: NodeId(1),
        goal: NodeId(3),
        depart: DEPART,
        until: 26_564_080,
    };
    tour_over(alloc, lists, request, stops, true)
}

fn is_toured(alloc: Global, row: &Tour<'_>) -> bool {
    match toured(alloc, row.lists, row.stops) {
        Some(routes) => are_tours(routes.as_slice(), row.wants),
        None => false,
    }
}

#[test]
fn serve_stops_within_their_windows(rt: HostRuntime) {
    for row in TOURS {
        expect_right(&rt, is_toured(rt.alloc(), row), row.name);
    }
}

// Nets, stops, and the texts of the tours.
const TEXTS: &[(NetLists<'static>, &[Stop], &str)] = &[
    (
        DAY,
        &[STOP],
        "pairs 1\npair 26563830 120.000\ndrive 1\nserve 1\ndrive 2\n",
    ),
    (DAY, &[LATER_STOP], "pairs 0\n"),
    (
        PARKED,
        &[LATER_STOP],
        "pairs 1\npair 26563831 122.000\ndrive 1\nwait 1\nserve 1\ndrive 2\n",
    ),
];

fn has_tour_text(alloc: Global, lists: NetLists<'_>, stops: &[Stop], text: &str) -> bool {
    match toured(alloc, lists, stops) {
        Some(routes) => is_tour_text(alloc, &routes, text),
        None => false,
    }
}

fn is_tour_text(alloc: Global, routes: &TourRoutes, text: &str) -> bool {
    match tour_text(alloc, routes) {
        Ok(written) => written.as_slice() == text.as_bytes(),
        Err(_) => false,
    }
}

#[test]
fn write_the_tours(rt: HostRuntime) {
    for (lists, stops, text) in TEXTS {
        expect_right(&rt, has_tour_text(rt.alloc(), *lists, stops, text), text);
    }
}
