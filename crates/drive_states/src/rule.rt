// The rule, the states of a trip under it, and why there is no answer.
use route_base::{Leg, NodeId};

/// At most `drive` minutes of driving since the last unbroken wait of `rest` minutes. Regulation (EC) 561/2006, Article 7, has 270
/// and 45.
#[derive(Clone, Copy, Debug, PartialEq, Eq)]
pub struct BreakRule {
    pub drive: u64,
    pub rest: u64,
}

/// A node, and the minutes driven since the last break.
#[derive(Clone, Copy, Debug, PartialEq, Eq)]
pub struct State {
    pub node: NodeId,
    pub driven: u64,
}

/// A leg from the state of one number to that of another.
#[derive(Clone, Copy, Debug, PartialEq, Eq)]
pub struct Way {
    pub from: u32,
    pub to: u32,
    pub leg: Leg,
}

/// Why no trip is told.
#[derive(Clone, Copy, Debug, PartialEq, Eq)]
pub enum BreakFault {
    TooManyStates,
    OutOfMemory,
}
