// The routes of a trip under rules.
use route_base::{ArcId, Pair};

/// A leg over the states of a ruler: a drive over an arc, the rest at a place of the ruler's list, waiting for some minutes, or the
/// service at a place of the ruler's list.
#[derive(Clone, Copy)]
pub enum RuledLeg {
    Drive(ArcId),
    Rest(u64),
    Wait(u64),
    Serve(u64),
}

/// A pair, and legs that achieve it.
#[derive(Drop)]
pub struct RuledRoute {
    pub pair: Pair,
    pub legs: Vec<RuledLeg>,
}
