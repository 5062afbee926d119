// The worked net of several tests: a way over node 2, whose second arc is closed for two hours, and one straight on.
ghost use Rattle.std.specs.Prelude.{◌≡◌, ◌-◌, ◌<◌, ◌≤◌, IfOk};
ghost use Rattle.plain_search.specs.Words.{IsAsked};
ghost use Rattle.search_tests.specs.WorkedNet.{worked_arc, worked, worked_with};

use route_base::{
    ArcId, Leg, Minute, NodeId, OutOfMemory, Pair, Park, Request, Run, TimedArc, TimedNet,
};
use std::alloc::Global;

const ALWAYS_OPEN: u32 = 0;

const CLOSED_AT_FIRST: u32 = 1;

fn arc(tail: u32, head: u32, minutes: u64, closed: u32) -> TimedArc
    requires { minutes < 1000 }
    ensures { result ≡ worked_arc tail head minutes closed }
{
    TimedArc {
        tail: NodeId(tail),
        head: NodeId(head),
        minutes,
        cost: 1000 * minutes,
        closed,
    }
}

const SHUT_AT_LAST: u32 = 2;

// Waiting is allowed at node 2.
pub fn worked_net(alloc: Global) -> Result<TimedNet, OutOfMemory>
    ensures { IfOk result (λ net. net ≡ worked) }
{
    net_with(alloc, ALWAYS_OPEN)
}

// Waiting is allowed at node 2, but for the last minute before the second arc opens.
pub fn shut_net(alloc: Global) -> Result<TimedNet, OutOfMemory>
    ensures { IfOk result (λ net. net ≡ worked_with 2) }
{
    net_with(alloc, SHUT_AT_LAST)
}

fn net_with(alloc: Global, shut: u32) -> Result<TimedNet, OutOfMemory>
    requires { shut ≤ 2 }
    ensures { IfOk result (λ net. net ≡ worked_with shut) }
{
    let arcs = vec![in alloc;
        arc(1, 2, 60, ALWAYS_OPEN),
        arc(2, 3, 60, CLOSED_AT_FIRST),
        arc(1, 3, 300, ALWAYS_OPEN),
    ]?;
    let mut closed = Vec::new(alloc);
    closed.push(Vec::new(alloc))?;
    closed.push(vec![in alloc;
        Run {
            lo: 26563740,
            hi: 26563860
        },
    ]?)?;
    closed.push(vec![in alloc;
        Run {
            lo: 26563859,
            hi: 26563860
        },
    ]?)?;
    let park = Park { weight: 2000, shut };
    let parks = vec![in alloc; None, Some(park), None]?;
    Ok(TimedNet::new(3, arcs, closed, parks))
}

// The trip from node 1 to node 3 at midnight.
pub fn trip_until(until: Minute) -> Request
    requires from { 26563680 ≤ until }
    requires upto { until ≤ 26650080 }
    ensures asked { IsAsked worked result }
    ensures horizon { result.until - result.depart ≤ 86400 }
{
    Request {
        origin: NodeId(1),
        goal: NodeId(3),
        depart: 26563680,
        until,
    }
}

// The pairs and legs of the trip.
pub const ROUTES: &[(Pair, &[Leg])] = &[
    (
        Pair {
            arrival: 26563920,
            cost: 360000,
        },
        &[Leg::Drive(ArcId(1)), Leg::Wait(120), Leg::Drive(ArcId(2))],
    ),
    (
        Pair {
            arrival: 26563980,
            cost: 300000,
        },
        &[Leg::Drive(ArcId(3))],
    ),
];
