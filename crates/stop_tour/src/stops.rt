// Stops, the legs of a tour, and its faults.
use route_base::{ArcId, Listing, Minute, NodeId, Pair};

/// A node to be served for `service` minutes, of which none is before minute `from`, and which end by minute `to`.
#[derive(Clone, Copy, Debug, PartialEq, Eq)]
pub struct Stop {
    pub node: NodeId,
    pub service: u64,
    pub from: Minute,
    pub to: Minute,
}

/// Stops in the order in which they are served.
pub type Stops = Listing<Stop>;

/// A part of a tour: an arc to drive, a number of minutes to wait, or the number from 1 of a stop to serve.
#[derive(Clone, Copy, Debug, PartialEq, Eq)]
pub enum TourLeg {
    Drive(ArcId),
    Wait(u64),
    Serve(u32),
}

/// Legs of a tour in the order in which they are travelled.
pub type TourLegs = Listing<TourLeg>;

/// A pair with legs of a tour that have it.
#[derive(Drop)]
pub struct TourRoute {
    pub pair: Pair,
    pub legs: TourLegs,
}

/// Tours by rising arrival.
pub type TourRoutes = Listing<TourRoute>;

/// Why no tour is told.
#[derive(Clone, Copy, Debug, PartialEq, Eq)]
pub enum TourFault {
    TooManyStates,
    OutOfMemory,
}
