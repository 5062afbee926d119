// Legs over a triangle whose second arc is closed for two hours, and at whose second node lorries can wait.
ghost use Rattle.std.specs.Prelude.{◌≡◌, ◌*◌, ◌≤◌, IfOk};

use route_base::{
    ArcId, Leg, NodeId, NotLawful, OutOfMemory, Pair, Park, Request, Run, TimedArc, TimedNet,
    replay,
};
use std::alloc::Global;
use std::process::Abort;

// An arc whose minutes cost 1,000 thousandths each, closed in the runs of the list at this place.
fn arc(tail: u32, head: u32, minutes: u64, closed: u32) -> TimedArc
    requires { minutes ≤ 10080 }
    ensures tail { result.tail.0 ≡ tail }
    ensures head { result.head.0 ≡ head }
    ensures minutes { result.minutes ≡ minutes }
    ensures cost { result.cost ≡ 1000 * minutes }
    ensures closed { result.closed ≡ closed }
{
    TimedArc {
        tail: NodeId(tail),
        head: NodeId(head),
        minutes,
        cost: 1000 * minutes,
        closed,
    }
}

const FIRST: Leg = Leg::Drive(ArcId(1));

const SECOND: Leg = Leg::Drive(ArcId(2));

const STRAIGHT: Leg = Leg::Drive(ArcId(3));

const FOURTH: Leg = Leg::Drive(ArcId(4));

// The triangle, where waiting at node 2 is shut in the runs of the list at this place: never, or in the last minute before the second
// arc opens.
fn triangle(alloc: Global, shut: u32) -> Result<TimedNet, OutOfMemory>
    requires { shut ≤ 2 }
    ensures { IfOk result (λ net. net.nodes ≡ 3) }
{
    let arcs = Vec::from_array(
        alloc,
        [arc(1, 2, 60, 0), arc(2, 3, 60, 1), arc(1, 3, 300, 0)],
    )?;
    let run = Run {
        lo: 26_563_740,
        hi: 26_563_860,
    };
    let never = Vec::new(alloc);
    let at_night = Vec::from_array(alloc, [run])?;
    let minute = Run {
        lo: 26_563_859,
        hi: 26_563_860,
    };
    let at_last = Vec::from_array(alloc, [minute])?;
    let closed = Vec::from_array(alloc, [never, at_night, at_last])?;
    let park = Park { weight: 2000, shut };
    let parks = Vec::from_array(alloc, [None, Some(park), None])?;
    Ok(TimedNet::new(3, arcs, closed, parks))
}

const REQUEST: Request = Request {
    origin: NodeId(1),
    goal: NodeId(3),
    depart: 26_563_680,
    until: 26_563_980,
};

const WAITED: Pair = Pair {
    arrival: 26_563_920,
    cost: 360_000,
};

const DIRECT: Pair = Pair {
    arrival: 26_563_980,
    cost: 300_000,
};

// Legs, and their pair or the first unlawful one.
const CASES: &[(&[Leg], Result<Pair, NotLawful>)] = &[
    (&[FIRST, Leg::Wait(120), SECOND], Ok(WAITED)),
    (&[STRAIGHT], Ok(DIRECT)),
    (&[FIRST, SECOND], Err(NotLawful { index: 1 })),
    (
        &[FIRST, Leg::Wait(119), SECOND],
        Err(NotLawful { index: 2 }),
    ),
    (
        &[FIRST, Leg::Wait(181), SECOND],
        Err(NotLawful { index: 2 }),
    ),
    (&[FIRST, Leg::Wait(0), SECOND], Err(NotLawful { index: 1 })),
    (&[Leg::Wait(1), STRAIGHT], Err(NotLawful { index: 0 })),
    (&[SECOND], Err(NotLawful { index: 0 })),
    (&[FOURTH], Err(NotLawful { index: 0 })),
    (&[FIRST], Err(NotLawful { index: 1 })),
    (&[], Err(NotLawful { index: 0 })),
];

// The same, if waiting is shut in the last minute before the second arc opens.
const CASES_WHERE_SHUT: &[(&[Leg], Result<Pair, NotLawful>)] = &[
    (
        &[FIRST, Leg::Wait(120), SECOND],
        Err(NotLawful { index: 1 }),
    ),
    (
        &[FIRST, Leg::Wait(119), SECOND],
        Err(NotLawful { index: 2 }),
    ),
    (&[STRAIGHT], Ok(DIRECT)),
];

// Replays the legs of each case, and compares the results.
fn expect_replays<R: Abort>(rt: &R, net: &TimedNet, cases: &[(&[Leg], Result<Pair, NotLawful>)])
    requires { net.now.nodes ≡ 3 }
{
    for (legs, want) in cases {
        assert_eq!(rt; replay(net, REQUEST, legs), *want, "{legs:?}");
    }
}

#[test]
fn replays_legs(rt: HostRuntime) {
    let net = triangle(rt.alloc(), 0).expect(&rt, "memory");
    expect_replays(&rt, &net, CASES);
    let shut = triangle(rt.alloc(), 2).expect(&rt, "memory");
    expect_replays(&rt, &shut, CASES_WHERE_SHUT);
}
