// Points: minutes, each with its cost.
ghost use Rattle.std.specs.Prelude.{◌≡◌, ◌≢◌, ◌≤◌, ℕ, Some, None, IfOk};
ghost use Rattle.cost_functions.specs.Pieces.{value_at};
ghost use Rattle.cost_functions.specs.Building.{AreBuilt};
ghost use Rattle.route_base.specs.declared.limits.TheConstants.{LAST_INSTANT, HIGHEST_COST};

use crate::builder::Builder;
use crate::cost_fn::CostFn;
use crate::pieces::Piece;
use route_base::{Cost, Minute, OutOfMemory};
use std::alloc::Global;

// The function through one point.
pub fn of_one(alloc: Global, point: (Minute, Cost)) -> Result<CostFn, OutOfMemory>
    requires minute { point.0 ≤ LAST_INSTANT }
    requires cost { point.1 ≤ HIGHEST_COST }
    ensures here { IfOk result (λ f. value_at f point.0 ≡ Some point.1) }
    ensures elsewhere { IfOk result (λ f. (t : ℕ) → t ≢ point.0 → value_at f t ≡ None) }
    ensures built { IfOk result AreBuilt }
{
    let mut built = Builder::new(alloc);
    built.push(at_one(point))?;
    Ok(built.finish())
}

// The piece of one minute.
pub fn at_one(point: (Minute, Cost)) -> Piece
    ensures { result ≡ record { lo = point.0; hi = point.0; cost = point.1; slope = 0 } }
{
    Piece {
        lo: point.0,
        hi: point.0,
        cost: point.1,
        slope: 0,
    }
}
