// The order in which nodes have their turns. No clause fixes it: another order takes other times and finds the same.
use route_base::{Bound, Bounds, Minute, Request};

// Delays of less than NEAR minutes are told apart by steps of FINE minutes, longer ones by steps of COARSE minutes.
const NEAR: u64 = 32;

const FINE: u64 = 8;

const COARSE: u64 = 64;

// The steps that come before the first coarse one.
const FINE_STEPS: u64 = NEAR / FINE;

/// The earliest minute at which one could be at the goal by the bounds, as if nothing were closed.
pub fn earliest_arrival(bounds: &Bounds, request: Request) -> Minute {
    match bounds.get(request.origin) {
        Some(bound) => request.depart.saturating_add(bound.minutes),
        None => request.depart,
    }
}

/// The key of a node by its first pending minute, and the earliest arrival at the goal by the bounds: the step of its delay, by how many minutes one would be later at the goal than at the
/// earliest, and in a step the minute itself. While nothing delays the trip the search goes straight to the goal. Once it waits, minutes
/// come in their order, so that a turn finds what leads to its minutes done, and mostly needs no second turn.
#[inline(always)]
pub fn turn_key(earliest: Minute, first: Minute, bound: Bound) -> u64 {
    let delay = first.saturating_add(bound.minutes).saturating_sub(earliest);
    step_of(delay).saturating_mul(1 << 32).saturating_add(first)
}

// The number of the step that has the delay.
#[inline(always)]
fn step_of(delay: u64) -> u64 {
    if delay < NEAR {
        delay / FINE
    } else {
        (delay - NEAR) / COARSE + FINE_STEPS
    }
}
