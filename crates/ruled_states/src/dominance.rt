// What of a state's costs no better state of its node dominates.
ghost use Rattle.std.specs.Prelude.{◌≡◌, ◌≤◌, ℕ, true, false, All, Contains, length, IfOk, if◌then◌else◌};
ghost use Rattle.cost_functions.specs.Building.{AreBuilt};
ghost use Rattle.cost_functions.specs.Pieces.{value_at, AreSmallPieces};
ghost use Rattle.function_merge.specs.Least.{better_part_at};
ghost use Rattle.ruled_states.specs.Inside.Cuts.{AreCut, IsCut, HasFunction};

use crate::rulers::Ruler;
use crate::table::Place;
use cost_functions::CostFn;
use function_merge::better_part;
use route_base::OutOfMemory;
use std::alloc::Global;

// The costs without those at whose minute the state of a place costs no more, if it is a better state than this one.
#[inline(always)]
fn cut_by<R: Ruler>(
    alloc: Global,
    ruler: &R,
    functions: &[CostFn],
    place: Place,
    state: u64,
    costs: CostFn,
) -> Result<CostFn, OutOfMemory>
    requires low { 1 ≤ place.number }
    requires high { place.number ≤ length functions.now }
    requires built { All AreBuilt functions.now }
    requires small { AreSmallPieces costs }
    ensures values { IfOk result (λ g. IsCut (R.ruling ruler.now) functions.now
        state place (value_at costs) (value_at g)) }
    ensures small { IfOk result AreSmallPieces }
{
    if place.state == state || !ruler.is_no_worse(place.state, state) {
        return Ok(costs);
    }
    let better = &functions[place.number as usize - 1];
    let left = better_part(CostFn::empty(alloc), better.pieces(), costs.pieces())?;
    Ok(left)
}

/// The costs of a state without those at whose minute a better state of its node, at one of these places, costs no more.
pub fn undominated<R: Ruler>(
    alloc: Global,
    ruler: &R,
    functions: &[CostFn],
    places: &[Place],
    state: u64,
    costs: CostFn,
) -> Result<CostFn, OutOfMemory>
    requires places { All (HasFunction (length functions.now)) places.now }
    requires built { All AreBuilt functions.now }
    requires small { AreSmallPieces costs }
    ensures values { IfOk result (λ g. AreCut (R.ruling ruler.now) functions.now
        state places.now (value_at costs) (value_at g)) }
    ensures small { IfOk result AreSmallPieces }
{
    let mut left = costs;
    for place in places {
        left = cut_by(alloc, ruler, functions, *place, state, left)?;
    }
    Ok(left)
}
