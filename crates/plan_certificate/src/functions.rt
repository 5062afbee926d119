// The functions of nodes as entries of a certificate.
ghost use Rattle.std.specs.Prelude.{◌<◌, ◌^◌, length, IfOk};
ghost use Rattle.plan_certificate.specs.Inside.Entries.{AreEntriesOf, pieces_of};

use certificate::NodeFunctions;
use cost_functions::CostFn;
use route_base::{NodeId, OutOfMemory};
use std::alloc::Global;

/// The functions of the nodes 1, 2 and so on that have a value. The functions are moved: linear in their number.
pub fn known_functions(alloc: Global, functions: Vec<CostFn>) -> Result<NodeFunctions, OutOfMemory>
    requires { length functions.items < 2 ^ 32 }
    ensures { IfOk result (AreEntriesOf (pieces_of functions.items)) }
{
    let mut known = NodeFunctions::new(alloc);
    let mut node = 0;
    for function in functions {
        node += 1;
        if !function.pieces().is_empty() {
            known.push((NodeId(node), function))?;
        }
    }
    Ok(known)
}
