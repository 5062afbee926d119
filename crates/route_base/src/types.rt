// Types shared by all crates.
use crate::Listing;

/// A Unix minute in UTC.
pub type Minute = u64;

/// A cost in thousandths.
pub type Cost = u64;

/// A node, counted from 1.
#[derive(Clone, Copy, Debug, PartialEq, Eq, PartialOrd, Ord, Hash)]
pub struct NodeId(pub u32);

/// An arc, counted from 1 in the order of the graph file.
#[derive(Clone, Copy, Debug, PartialEq, Eq, PartialOrd, Ord, Hash)]
pub struct ArcId(pub u32);

/// The minutes t with `lo <= t < hi`.
#[derive(Clone, Copy, Debug, PartialEq, Eq)]
pub struct Run {
    pub lo: Minute,
    pub hi: Minute,
}

/// A part of an itinerary: an arc to drive, or a number of minutes to wait.
#[derive(Clone, Copy, Debug, PartialEq, Eq)]
pub enum Leg {
    Drive(ArcId),
    Wait(u64),
}

/// When an itinerary arrives, and what it costs.
#[derive(Clone, Copy, Debug, PartialEq, Eq)]
pub struct Pair {
    pub arrival: Minute,
    pub cost: Cost,
}

/// Legs in the order in which they are travelled.
pub type Legs = Listing<Leg>;

/// A pair with legs that have it.
pub struct Route {
    pub pair: Pair,
    pub legs: Legs,
}

// By hand, so that the drops of its parts are proved here alone.
impl Drop for Route {
    fn drop(self) {
        let Route { pair: _, legs: _ } = self;
    }
}

/// Routes by rising arrival.
pub type Routes = Listing<Route>;

/// The bytes of a file.
pub type FileBytes = Listing<u8>;

/// The text of one job's answer.
pub type JobText = Listing<u8>;

/// The form in which an answer is written.
#[derive(Clone, Copy, Debug, PartialEq, Eq)]
pub enum Form {
    Plain,
    Table,
    Csv,
    Json,
}

/// A trip: from `origin` at minute `depart` to `goal`, with an arrival at `until` at the latest.
#[derive(Clone, Copy, Debug, PartialEq, Eq)]
pub struct Request {
    pub origin: NodeId,
    pub goal: NodeId,
    pub depart: Minute,
    pub until: Minute,
}

/// An arc with its minutes, its cost in thousandths, and the place from 0 of its list of closed runs.
#[derive(Clone, Copy, Debug, PartialEq, Eq)]
pub struct TimedArc {
    pub tail: NodeId,
    pub head: NodeId,
    pub minutes: u64,
    pub cost: Cost,
    pub closed: u32,
}

/// A node at which waiting is allowed: the cost of a minute's wait in thousandths, and the place from 0 of its list of the runs in
/// which waiting is shut.
#[derive(Clone, Copy, Debug, PartialEq, Eq)]
pub struct Park {
    pub weight: Cost,
    pub shut: u32,
}

/// A lower bound for the minutes of the ways from a node to a goal and, by itself, one for their cost in thousandths; or caps of such
/// bounds.
#[derive(Clone, Copy, Debug, PartialEq, Eq)]
pub struct Bound {
    pub minutes: u64,
    pub cost: Cost,
}
