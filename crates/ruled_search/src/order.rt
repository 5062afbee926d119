// In which order states leave the queue, and how much of each is taken at once. No clause rests on it.
ghost use Rattle.std.specs.Prelude.{◌≤◌, ◌<◌};
ghost use Rattle.cost_functions.specs.Pieces.{ArePieces};
ghost use Rattle.route_base.specs.declared.limits.TheConstants.{LAST_INSTANT};

use crate::charges::Charge;
use crate::task::Task;
use cost_functions::{CostFn, Piece};
use propagation::{end_of_turn, turn_key};
use route_base::{Minute, Run};
use ruled_states::{Info, Ruler};

// Bits of a key below the stage.
const STAGE: u64 = 1 << 48;

/// The key of a state whose first pending minute is this. With reduced sums stage comes before stage, so that what is known behind a stop is
/// final for all that comes later. In a stage that leads to a stop the least sum of what is paid above the price comes first, and in the last
/// one, which has pairs, the earliest arrival.
#[inline(always)]
pub fn key_of<R: Ruler + Copy>(
    task: Task<'_, R>,
    costs: &CostFn,
    info: Info,
    first: Minute,
) -> u64 {
    let by_arrival = turn_key(task.earliest, first, info.bound);
    let Some(reduced) = task.reduced else {
        return by_arrival;
    };
    let stage = task.ruler.stage(info.state);
    let within = if stage < task.ruler.service_count() {
        let charge = Charge {
            price: reduced.price,
            until: task.request.until,
        };
        let cost = costs.at(first).unwrap_or(0);
        let sum = reduced.of(info.node, stage);
        charge.of(first, cost).saturating_add(sum)
    } else {
        by_arrival
    };
    let own = within.min(STAGE - 1);
    stage.saturating_mul(STAGE).saturating_add(own)
}

/// The end of what a turn takes of pending minutes: all of them, where there are reduced sums.
#[inline(always)]
pub fn end_of<R: Ruler + Copy>(
    task: Task<'_, R>,
    pieces: &[Piece],
    pending: &[Run],
    first: Minute,
) -> Minute
    requires pieces { ArePieces pieces.now }
    requires first { first ≤ LAST_INSTANT }
    ensures { first < result }
{
    match task.reduced {
        Some(_) => Minute::MAX,
        None => end_of_turn(pieces, pending, first),
    }
}
