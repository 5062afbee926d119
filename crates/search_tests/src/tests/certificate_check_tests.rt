// A certificate of a worked trip, and changes of it with the numbers of the conditions that they break.
ghost use Rattle.std.specs.Prelude.{◌↔◌, IsTrue};
ghost use Rattle.cost_functions.specs.Lines.{IsPiece};
ghost use Rattle.certificate_check.specs.Conditions.{AreBoundsInRange};

use crate::tests::nets::{shut_net, worked_net};
use certificate::limits::LONGEST_BOUND;
use certificate::{Certificate, NodeBounds, NodeFunctions};
use certificate_check::{Verdict, check};
use cost_functions::{CostFn, HIGHEST_PIECE_COST, Piece};
use route_base::limits::{HIGHEST_COST, LAST_INSTANT};
use route_base::{
    ArcId, Bound, Cost, Leg, Legs, Minute, NodeId, OutOfMemory, Pair, Request, Route, Routes,
    TimedNet,
};
use std::alloc::Global;
use std::process::Abort;

// Arrival, cost, and legs.
type RouteRow<'a> = (Minute, Cost, &'a [Leg]);

fn routes_of(alloc: Global, rows: &[RouteRow<'_>]) -> Result<Routes, OutOfMemory> {
    let mut routes = Routes::new(alloc);
    for (arrival, cost, legs) in rows {
        let legs = Legs::from_vec(Vec::from_slice(alloc, legs)?);
        let pair = Pair {
            arrival: *arrival,
            cost: *cost,
        };
        routes.push(Route { pair, legs })?;
    }
    Ok(routes)
}

// The bounds of the three nodes, if those of node 1 have these minutes. None is left out, since the nodes rise.
fn bounds_of(alloc: Global, minutes: u64) -> Result<NodeBounds, OutOfMemory> {
    let mut bounds = NodeBounds::new(alloc);
    for (node, minutes, cost) in [(1, minutes, 120000), (2, 60, 60000), (3, 0, 0)] {
        if bounds.as_slice().iter().all(|entry| entry.0.0 < node) {
            bounds.push((NodeId(node), Bound { minutes, cost }))?;
        }
    }
    Ok(bounds)
}

// The functions of some nodes, each as one piece.
fn functions_of(alloc: Global, pieces: &[(u32, Piece)]) -> Result<NodeFunctions, OutOfMemory> {
    let mut functions = NodeFunctions::new(alloc);
    for (node, piece) in pieces {
        add_function(alloc, &mut functions, *node, *piece)?;
    }
    Ok(functions)
}

// Adds the function of one piece; none of the test's is left out, since their nodes rise.
fn add_function(
    alloc: Global,
    functions: &mut NodeFunctions,
    node: u32,
    piece: Piece,
) -> Result<(), OutOfMemory> {
    if is_piece(piece) && functions.as_slice().iter().all(|entry| entry.0.0 < node) {
        let pieces = vec![in alloc; piece]?;
        functions.push((NodeId(node), CostFn::from_pieces(pieces)))?;
    }
    Ok(())
}

fn is_piece(piece: Piece) -> bool
    ensures { IsTrue result ↔ IsPiece piece }
{
    piece.lo <= piece.hi
        && piece.hi <= LAST_INSTANT
        && piece.cost <= HIGHEST_PIECE_COST
        && piece.slope <= HIGHEST_COST
        && (piece.lo < piece.hi || piece.slope == 0)
}

fn are_in_range(bounds: &NodeBounds) -> bool
    ensures { IsTrue result ↔ AreBoundsInRange bounds.now }
{
    bounds
        .as_slice()
        .iter()
        .all(|entry| entry.1.minutes <= LONGEST_BOUND)
        && bounds
            .as_slice()
            .iter()
            .all(|entry| entry.1.cost <= HIGHEST_PIECE_COST)
}

// Routes, the minutes of the bounds of node 1, and pieces by their nodes.
type CertificateRow<'a> = (&'a [RouteRow<'a>], u64, &'a [(u32, Piece)]);

// The certificate of a row.
fn certificate_of<R: Abort + AllocGlobal>(rt: &R, row: &CertificateRow<'_>) -> Certificate {
    let (routes, minutes, pieces) = row;
    Certificate {
        routes: routes_of(rt.alloc(), routes).expect(rt, "memory"),
        bounds: bounds_of(rt.alloc(), *minutes).expect(rt, "memory"),
        functions: functions_of(rt.alloc(), pieces).expect(rt, "memory"),
    }
}

// The verdict on a row's certificate; none if its bounds are out of range, or memory doesn't suffice.
fn verdict_of<R: Abort + AllocGlobal>(
    rt: &R,
    net: &TimedNet,
    row: &CertificateRow<'_>,
) -> Option<Verdict> {
    let certificate = certificate_of(rt, row);
    if !are_in_range(&certificate.bounds) || net.node_count() != 3 {
        return None;
    }
    let request = Request {
        origin: NodeId(1),
        goal: NodeId(3),
        depart: 26563680,
        until: 26564080,
    };
    check(rt.alloc(), net, request, &certificate).ok()
}

// The way over node 2 with a wait there, the same for too little, and the straight way.
const WAITS: RouteRow<'static> = (26563920, 360000, OVER_2);

const CHEAPER: RouteRow<'static> = (26563920, 359000, OVER_2);

const DRIVES: RouteRow<'static> = (26563980, 300000, &[Leg::Drive(ArcId(3))]);

const OVER_2: &[Leg] = &[Leg::Drive(ArcId(1)), Leg::Wait(120), Leg::Drive(ArcId(2))];

// The departure, the wait at node 2, the arrival there, and an arrival at node 3 for less.
const START: (u32, Piece) = (
    1,
    Piece {
        lo: 26563680,
        hi: 26563680,
        cost: 0,
        slope: 0,
    },
);

const PARKED: (u32, Piece) = (
    2,
    Piece {
        lo: 26563740,
        hi: 26563859,
        cost: 60000,
        slope: 2000,
    },
);

const ARRIVED: (u32, Piece) = (
    2,
    Piece {
        lo: 26563740,
        hi: 26563740,
        cost: 60000,
        slope: 0,
    },
);

const EARLY: (u32, Piece) = (
    3,
    Piece {
        lo: 26563970,
        hi: 26563970,
        cost: 100,
        slope: 0,
    },
);

// A certificate, and the verdict on it: the first condition that fails, if one does.
type Judged<'a> = (CertificateRow<'a>, Verdict);

const JUDGED: &[Judged<'static>] = &[
    ((&[WAITS, DRIVES], 120, &[START, PARKED]), Verdict::Accepted),
    (
        (&[DRIVES, WAITS], 120, &[START, PARKED]),
        Verdict::Rejected(1),
    ),
    (
        (&[CHEAPER, DRIVES], 120, &[START, PARKED]),
        Verdict::Rejected(2),
    ),
    (
        (&[WAITS, DRIVES], 121, &[START, PARKED]),
        Verdict::Rejected(3),
    ),
    ((&[WAITS, DRIVES], 120, &[PARKED]), Verdict::Rejected(4)),
    ((&[WAITS], 120, &[START, PARKED]), Verdict::Rejected(5)),
    ((&[WAITS, DRIVES], 120, &[START]), Verdict::Rejected(5)),
    (
        (&[WAITS, DRIVES], 120, &[START, ARRIVED]),
        Verdict::Rejected(5),
    ),
    (
        (&[WAITS, DRIVES], 120, &[START, PARKED, EARLY]),
        Verdict::Rejected(6),
    ),
];

// If waiting at node 2 is shut in its last minute, the wait is unlawful, and without its pair nothing else fails.
const JUDGED_WHERE_SHUT: &[Judged<'static>] = &[
    (
        (&[WAITS, DRIVES], 120, &[START, PARKED]),
        Verdict::Rejected(2),
    ),
    ((&[DRIVES], 120, &[START, PARKED]), Verdict::Accepted),
];

// Compares the verdict on each certificate over the net.
fn expect_verdicts<R: Abort + AllocGlobal>(rt: &R, net: &TimedNet, judged: &[Judged<'_>]) {
    for (place, (row, verdict)) in judged.iter().enumerate() {
        let found = verdict_of(rt, net, row);
        assert!(rt; found == Some(*verdict), "{verdict:?} at place {place}");
    }
}

#[test]
fn finds_the_first_condition_that_fails(rt: HostRuntime) {
    let net = worked_net(rt.alloc()).expect(&rt, "memory");
    expect_verdicts(&rt, &net, JUDGED);
    let shut = shut_net(rt.alloc()).expect(&rt, "memory");
    expect_verdicts(&rt, &shut, JUDGED_WHERE_SHUT);
}
