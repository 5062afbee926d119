// The arcs of the worked trips, and their departure.
use route_base::{Minute, NodeId, TimedArc};

// From node 1 at midnight.
pub const DEPART: Minute = 26_563_680;

// An hour from node 1 to node 2, an hour on to node 3, and five hours straight on; list 0 is empty.
pub const FIRST: TimedArc = TimedArc {
    tail: NodeId(1),
    head: NodeId(2),
    minutes: 60,
    cost: 60_000,
    closed: 0,
};

pub const SECOND: TimedArc = TimedArc {
    tail: NodeId(2),
    head: NodeId(3),
    minutes: 60,
    cost: 60_000,
    closed: 0,
};

pub const STRAIGHT: TimedArc = TimedArc {
    tail: NodeId(1),
    head: NodeId(3),
    minutes: 300,
    cost: 300_000,
    closed: 0,
};
