// Lists of closed runs, which arcs and parks name by place.
ghost use Rattle.std.specs.Prelude.{◌≡◌, IfOk, map};

use route_base::{OutOfMemory, Run};
use std::alloc::Global;

/// A copy of all lists of closed runs. Linear in the number of runs, in time and memory.
pub fn copied_lists(alloc: Global, lists: &[Vec<Run>]) -> Result<Vec<Vec<Run>>, OutOfMemory>
    ensures { IfOk result (λ out. map (λ v. v.items) out.items ≡ map (λ v. v.items) lists.now) }
{
    let mut out = Vec::new(alloc);
    for list in lists {
        out.push(Vec::from_slice(alloc, list.as_slice())?)?;
    }
    Ok(out)
}
